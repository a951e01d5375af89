//! Lists of what modules declare, with the numbers of names.
ghost use Rattle.std.specs.Prelude.{◌≡◌, ◌++◌, ◌∷◌, [], List, ℕ, OnOk, length};
ghost use Rattle.std.specs.Option.{option_copied, option_map, unwrap_or};
ghost use Rattle.cu_names.specs.Texts.{AllDiffer, IsKnown, text_of};
ghost use Rattle.cu_toplevel.specs.Listings.{DeclaredIsKnown, IsListing, declared_meaning, numbered_meaning};
ghost use Rattle.cu_translation.specs.Numbered as numbers;
ghost use Rattle.cu_translation.specs.Numbered.{numbered};

use cu_names::NameId;
use indexmap::IndexMap;
use std::alloc::{AllocError, Global};

/// An entity of a module, by its name there, and how many parameters, fields or
/// arguments it takes.
#[derive(Clone, Copy)]
pub(crate) struct Declared {
    pub(crate) owner: NameId,
    pub(crate) name: NameId,
    pub(crate) arity: usize,
}

/// The number of an entity among those of its kind, from 0, and how many
/// parameters, fields or arguments it takes.
#[derive(Clone, Copy, Debug)]
pub struct Numbered {
    pub number: usize,
    pub arity: usize,
}

/// What tells entities of one kind apart.
#[derive(Clone, Copy, PartialEq, Eq, Hash)]
pub(crate) struct Key {
    pub(crate) owner: NameId,
    pub(crate) name: NameId,
}

/// Entities of one kind in the order of their numbers. A name that a module
/// declares twice has the number of the first.
#[derive(Drop)]
pub(crate) struct Listing {
    pub(crate) list: Vec<Declared>,
    pub(crate) first: IndexMap<Key, Numbered>,
}

/// The number that was found, or else the other.
fn found_or(found: Option<&Numbered>, other: Numbered) -> Numbered
    ensures { result ≡ unwrap_or (option_copied found.entry) other }
{
    match found {
        Some(first) => *first,
        None => other,
    }
}

impl Listing {
    /// The listing without entities.
    pub(crate) fn new(alloc: Global) -> Listing
        ensures { (names : List (List ℕ)) → IsListing names [] result }
    {
        Listing {
            list: Vec::new(alloc),
            first: IndexMap::new(alloc),
        }
    }

    /// Adds an entity after the others.
    ///
    /// # Errors
    ///
    /// An allocation failure. The listing is of no use then.
    pub(crate) fn add(&mut self, entity: Declared) -> Result<(), AllocError>
        ensures { (names : List (List ℕ)) (before : List numbers.Declared)
            → AllDiffer names → DeclaredIsKnown names entity → IsListing names before self.old
            → OnOk result
            (IsListing names (before ++ declared_meaning names entity ∷ []) self.new) }
    {
        let key = Key {
            owner: entity.owner,
            name: entity.name,
        };
        let next = Numbered {
            number: self.list.len(),
            arity: entity.arity,
        };
        let first = found_or(self.first.get(&key), next);
        self.first.insert(key, first)?;
        self.list.push(entity)?;
        Ok(())
    }

    /// The number of what the module `owner` declares under a name, if it
    /// declares it.
    pub(crate) fn find(&self, owner: NameId, name: NameId) -> Option<Numbered>
        ensures { (names : List (List ℕ)) (listed : List numbers.Declared)
            → IsKnown names owner → IsKnown names name → IsListing names listed self.now
            → option_map numbered_meaning result
            ≡ numbered (text_of names owner) (text_of names name) listed }
    {
        self.first.get(&Key { owner, name }).copied()
    }

    /// How many entities there are.
    pub(crate) fn count(&self) -> usize
        ensures { (names : List (List ℕ)) (listed : List numbers.Declared)
            → IsListing names listed self.now → result ≡ length listed }
    {
        self.list.len()
    }
}
