//! What names mean in a scope.
ghost use Rattle.std.specs.Prelude.{◌≡◌, [], List, ℕ, OnOk, IfSome};
ghost use Rattle.std.specs.Option.{option_copied, option_map};
ghost use Rattle.cu_entities.specs.Bindings.{Binding};
ghost use Rattle.cu_entities.specs.EntityMeaning.{EntityIsKnown};
ghost use Rattle.cu_entities.specs.NameTables.{KeyIsKnown, MeantIsKnown, Tells};
ghost use Rattle.cu_entities.specs.NameTables.{count_meaning, joined, key_of, meant_at, with_one};
ghost use Rattle.cu_names.specs.Texts.{AllDiffer, IsKnown};

use crate::entities::{Entity, Space};
use cu_names::NameId;
use indexmap::IndexMap;
use std::alloc::{AllocError, Global};

/// A name as it is written, in a name space: the qualifier before it, if there is
/// one, and the name itself.
#[derive(Clone, Copy, Debug, PartialEq, Eq, Hash)]
pub struct Key {
    pub qualifier: Option<NameId>,
    pub base: NameId,
    pub space: Space,
}

/// What a name means that means something: one entity, or several.
#[derive(Clone, Copy, Debug, PartialEq, Eq)]
pub enum Meant {
    One(Entity),
    Several,
}

/// What names mean in a scope: none, one entity, or several.
#[derive(Drop)]
pub struct NameTable {
    meant: IndexMap<Key, Meant>,
}

/// What a name means with one more entity.
fn joined(meant: Option<&Meant>, entity: Entity) -> Meant
    ensures { result ≡ joined (option_copied «meant».entry) entity }
{
    match meant {
        Some(Meant::One(other)) if other.is(entity) => Meant::One(*other),
        Some(_) => Meant::Several,
        None => Meant::One(entity),
    }
}

impl Key {
    /// The name of an entity, written with a qualifier or without one.
    pub fn of(qualifier: Option<NameId>, entity: Entity) -> Key
        ensures { result ≡ key_of qualifier entity }
    {
        Key {
            qualifier,
            base: entity.name,
            space: entity.sort.space(),
        }
    }
}

impl NameTable {
    /// A table in which no name means anything.
    pub fn new(alloc: Global) -> NameTable
        ensures { (names : List (List ℕ)) → Tells names [] result }
    {
        NameTable {
            meant: IndexMap::new(alloc),
        }
    }

    /// Binds an entity under its name, with a qualifier or without one.
    ///
    /// # Errors
    ///
    /// An allocation failure. The table is of no use then.
    pub fn bind(&mut self, qualifier: Option<NameId>, entity: Entity) -> Result<(), AllocError>
        ensures { (names : List (List ℕ)) (bindings : List Binding)
            → AllDiffer names → IfSome qualifier (IsKnown names) → EntityIsKnown names entity
            → Tells names bindings self.old
            → OnOk result (Tells names (with_one names bindings qualifier entity) self.new) }
    {
        let key = Key::of(qualifier, entity);
        let meant = joined(self.meant.get(&key), entity);
        self.meant.insert(key, meant)?;
        Ok(())
    }

    /// What a name means, if it means something.
    pub fn find(&self, key: Key) -> Option<Meant>
        ensures meaning { (names : List (List ℕ)) (bindings : List Binding)
            → KeyIsKnown names key → Tells names bindings self.now
            → option_map (count_meaning names) result ≡ meant_at names bindings key }
        ensures known { (names : List (List ℕ)) (bindings : List Binding)
            → Tells names bindings self.now → IfSome result (MeantIsKnown names) }
    {
        self.meant.get(&key).copied()
    }
}
