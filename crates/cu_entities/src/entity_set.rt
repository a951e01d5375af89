//! Entities, each once.
ghost use Rattle.std.specs.Prelude.{◌≡◌, ◌++◌, ◌∷◌, [], List, ℕ, OnOk};
ghost use Rattle.std.specs.List.{list_any, All};
ghost use Rattle.cu_names.specs.Texts.{AllDiffer};
ghost use Rattle.cu_entities.specs.Entities as meant;
ghost use Rattle.cu_entities.specs.Entities.{distinct};
ghost use Rattle.cu_entities.specs.EntityMeaning.{EntityIsKnown, identity_of};
ghost use Rattle.cu_entities.specs.EntityMeaning.{entities_meaning, entity_meaning};
ghost use Rattle.cu_entities.specs.EntitySets.{IsSet, alike};

use crate::entities::{Entity, Space};
use cu_names::NameId;
use indexmap::IndexSet;
use std::alloc::{AllocError, Global};

/// What tells entities apart: the module, the name and the name space.
#[derive(Clone, Copy, PartialEq, Eq, Hash)]
struct Identity {
    owner: NameId,
    name: NameId,
    space: Space,
}

impl Identity {
    fn of(entity: Entity) -> Identity
        ensures { result ≡ identity_of entity }
    {
        Identity {
            owner: entity.owner,
            name: entity.name,
            space: entity.sort.space(),
        }
    }
}

/// Entities, each once, in the order in which they were first added.
#[derive(Drop)]
pub struct EntitySet {
    list: Vec<Entity>,
    seen: IndexSet<Identity>,
}

impl EntitySet {
    /// The set without entities.
    pub fn new(alloc: Global) -> EntitySet
        ensures { (names : List (List ℕ)) → IsSet names [] result }
    {
        EntitySet {
            list: Vec::new(alloc),
            seen: IndexSet::new(alloc),
        }
    }

    /// Adds an entity, unless the set has it.
    ///
    /// # Errors
    ///
    /// An allocation failure. The set is of no use then.
    pub fn add(&mut self, entity: Entity) -> Result<(), AllocError>
        ensures { (names : List (List ℕ)) (entities : List meant.Entity)
            → AllDiffer names → EntityIsKnown names entity → IsSet names entities self.old
            → OnOk result
            (IsSet names (entities ++ entity_meaning names entity ∷ []) self.new) }
    {
        if self.seen.insert(Identity::of(entity))? {
            self.list.push(entity)?;
        }
        Ok(())
    }

    /// Whether an entity was added to the set.
    pub fn has(&self, entity: Entity) -> bool
        ensures { (names : List (List ℕ)) (entities : List meant.Entity)
            → EntityIsKnown names entity → IsSet names entities self.now
            → result ≡ list_any (alike (entity_meaning names entity)) entities }
    {
        self.seen.contains(&Identity::of(entity))
    }

    /// The entities, in the order in which they were first added.
    pub fn entities(&self) -> &[Entity]
        ensures entities { (names : List (List ℕ)) (entities : List meant.Entity)
            → IsSet names entities self.now
            → entities_meaning names result.now ≡ distinct entities }
        ensures known { (names : List (List ℕ)) (entities : List meant.Entity)
            → IsSet names entities self.now → All (EntityIsKnown names) result.now }
    {
        self.list.as_slice()
    }
}
