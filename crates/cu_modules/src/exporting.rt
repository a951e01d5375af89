//! What modules export, by their names.
ghost use Rattle.std.specs.Prelude.{◌≡◌, ◌++◌, ◌∷◌, [], List, ℕ, OnOk};
ghost use Rattle.cu_entities.specs.Entities as meant;
ghost use Rattle.cu_modules.specs.Exports.{AreInterfaces};
ghost use Rattle.cu_modules.specs.Known.{AreEntities};
ghost use Rattle.cu_modules.specs.Scopes.{Interface, exports_of};
ghost use Rattle.cu_names.specs.Texts.{AllDiffer, IsKnown, text_of};

use crate::interfaces::Interfaces;
use cu_entities::Entity;
use cu_names::NameId;
use indexmap::IndexMap;
use std::alloc::{AllocError, Global};

impl Interfaces {
    /// The exports of no module.
    pub(crate) fn new(alloc: Global) -> Interfaces
        ensures { (names : List (List ℕ)) → AreInterfaces names [] result }
    {
        Interfaces {
            exports: IndexMap::new(alloc),
        }
    }

    /// Adds what a module exports, of which nothing was added before.
    ///
    /// # Errors
    ///
    /// An allocation failure. The interfaces are of no use then.
    pub(crate) fn add(&mut self, name: NameId, exports: Vec<Entity>) -> Result<(), AllocError>
        ensures { (names : List (List ℕ)) (before : List Interface) (meant : List meant.Entity)
            → AllDiffer names → IsKnown names name → exports_of before (text_of names name) ≡ []
            → AreEntities names meant exports.items → AreInterfaces names before self.old
            → OnOk result (AreInterfaces names
            (before ++ record { name = text_of names name; entities = meant } ∷ []) self.new) }
    {
        self.exports.insert(name, exports)?;
        Ok(())
    }

    /// What the module of this name exports, and nothing where nothing was
    /// added of it.
    pub(crate) fn of(&self, name: NameId) -> &[Entity]
        ensures { (names : List (List ℕ)) (before : List Interface)
            → IsKnown names name → AreInterfaces names before self.now
            → AreEntities names (exports_of before (text_of names name)) result.now }
    {
        match self.exports.get(&name) {
            Some(exports) => exports.as_slice(),
            None => &[],
        }
    }
}
