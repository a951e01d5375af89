//! Numbers that belong to names of modules.
ghost use Rattle.std.specs.HashMap.{get};
ghost use Rattle.std.specs.Option.{option_copied};
ghost use Rattle.std.specs.Prelude.{◌≡◌, ◌∷◌, [], List, ℕ, OnOk};
ghost use Rattle.cu_entities.specs.EntityMeaning.{EntityIsKnown, entity_meaning};
ghost use Rattle.cu_names.specs.Texts.{AllDiffer, IsKnown, text_of};
ghost use Rattle.cu_declared.specs.Inside.Numbers.{Gains, Have, first_or};
ghost use Rattle.cu_declared.specs.Parameters.{Numbered, number_of, numbered};

use cu_entities::Entity;
use cu_names::NameId;
use indexmap::IndexMap;
use std::alloc::{AllocError, Global};

/// A name of a module.
#[derive(Clone, Copy, PartialEq, Eq, Hash)]
pub(crate) struct Key {
    pub(crate) owner: NameId,
    pub(crate) name: NameId,
}

/// Numbers that belong to names of modules. Of several for one name the first
/// counts.
#[derive(Drop)]
pub(crate) struct Numbers {
    numbers: IndexMap<Key, usize>,
}

/// The number that was there, or else a new one.
fn first_or(found: Option<&usize>, number: usize) -> usize
    ensures { result ≡ first_or (option_copied found.entry) number }
{
    match found {
        Some(found) => *found,
        None => number,
    }
}

impl Numbers {
    /// The table without numbers.
    pub(crate) fn new(alloc: Global) -> Numbers
        ensures { (names : List (List ℕ)) → Have names [] result }
    {
        Numbers {
            numbers: IndexMap::new(alloc),
        }
    }

    /// Adds a number for a name of a module, unless the name has one.
    pub(crate) fn add(
        &mut self,
        owner: NameId,
        name: NameId,
        number: usize,
    ) -> Result<(), AllocError>
        ensures { (names : List (List ℕ)) → AllDiffer names → IsKnown names owner
            → IsKnown names name
            → OnOk result
            (Gains names self.old (numbered (text_of names owner) (text_of names name) number
            ∷ []) self.new) }
    {
        let key = Key { owner, name };
        let number = first_or(self.numbers.get(&key), number);
        self.numbers.insert(key, number)?;
        Ok(())
    }

    /// The number that belongs to an entity, if one does.
    pub(crate) fn of(&self, entity: Entity) -> Option<usize>
        ensures { (names : List (List ℕ)) (numbers : List Numbered)
            → EntityIsKnown names entity → Have names numbers self.now
            → result ≡ number_of numbers (entity_meaning names entity) }
    {
        let key = Key {
            owner: entity.owner,
            name: entity.name,
        };
        self.numbers.get(&key).copied()
    }
}
