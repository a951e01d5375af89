//! Bindings of entities in scopes.
ghost use Rattle.std.specs.Prelude.{◌≡◌, ◌++◌, ◌∷◌, [], List, None, ℕ, IfOk, IfSome, OnOk, map};
ghost use Rattle.std.specs.List.{All};
ghost use Rattle.std.specs.Option.{option_map};
ghost use Rattle.cu_entities.specs.Bindings.{Binding};
ghost use Rattle.cu_entities.specs.Entities as meant;
ghost use Rattle.cu_entities.specs.EntityMeaning.{EntityIsKnown, entities_meaning};
ghost use Rattle.cu_entities.specs.NameTables.{with_one};
ghost use Rattle.cu_modules.specs.BuiltInEntities.{HasBuiltIn, cons};
ghost use Rattle.cu_modules.specs.Inside.Binding.{IsScope};
ghost use Rattle.cu_modules.specs.Known.{AreEntities};
ghost use Rattle.cu_modules.specs.Scopes.{binding, own_bindings};
ghost use Rattle.cu_names.specs.Texts.{AllDiffer, IsKnown, text_of};

use crate::built_in::cons;
use crate::module_scope::{Bound, ModuleScope};
use cu_entities::{Entity, NameTable};
use cu_names::{NameId, Names};
use std::alloc::{AllocError, Global};

impl ModuleScope {
    /// A scope in which nothing is bound.
    pub(crate) fn new(alloc: Global) -> ModuleScope
        ensures { (names : List (List ℕ)) → IsScope names [] result }
    {
        ModuleScope {
            table: NameTable::new(alloc),
            bound: Vec::new(alloc),
        }
    }

    /// Binds an entity, with a qualifier or without one.
    ///
    /// # Errors
    ///
    /// An allocation failure. The scope is of no use then.
    pub(crate) fn bind(
        &mut self,
        qualifier: Option<NameId>,
        entity: Entity,
    ) -> Result<(), AllocError>
        ensures { (names : List (List ℕ)) (bindings : List Binding)
            → AllDiffer names → IfSome qualifier (IsKnown names) → EntityIsKnown names entity
            → IsScope names bindings self.old
            → OnOk result (IsScope names (with_one names bindings qualifier entity) self.new) }
    {
        self.table.bind(qualifier, entity)?;
        self.bound.push(Bound { qualifier, entity })?;
        Ok(())
    }

    /// Binds entities, all with one qualifier or without one.
    ///
    /// # Errors
    ///
    /// An allocation failure. The scope is of no use then.
    pub(crate) fn bind_all(
        &mut self,
        qualifier: Option<NameId>,
        entities: &[Entity],
    ) -> Result<(), AllocError>
        ensures { (names : List (List ℕ)) (bindings : List Binding)
            → AllDiffer names → IfSome qualifier (IsKnown names)
            → All (EntityIsKnown names) entities.now → IsScope names bindings self.old
            → OnOk result (IsScope names
            (bindings ++ map (binding (option_map (text_of names) qualifier))
            (entities_meaning names entities.now))
            self.new) }
    {
        'entities: for entity in entities {
            self.bind(qualifier, *entity)?;
        }
        Ok(())
    }
}

/// What is in scope in a module without its imports: the constructor `:`, and
/// the module's own entities, with its name as qualifier and without one.
pub(crate) fn own_scope(
    alloc: Global,
    names: &Names,
    name: NameId,
    own: &[Entity],
) -> Result<ModuleScope, AllocError>
    requires { HasBuiltIn names.now }
    ensures { (mine : List meant.Entity) → AllDiffer names.now → IsKnown names.now name
        → AreEntities names.now mine own.now
        → IfOk result
        (IsScope names.now (binding None cons ∷ own_bindings (text_of names.now name) mine)) }
{
    let mut scope = ModuleScope::new(alloc);
    scope.bind(None, cons(names))?;
    scope.bind_all(Some(name), own)?;
    scope.bind_all(None, own)?;
    Ok(scope)
}

/// A module's own entities, without a qualifier.
pub(crate) fn unqualified(alloc: Global, own: &[Entity]) -> Result<ModuleScope, AllocError>
    ensures { (names : List (List ℕ)) (mine : List meant.Entity) → AllDiffer names
        → AreEntities names mine own.now
        → IfOk result (IsScope names (map (binding None) mine)) }
{
    let mut scope = ModuleScope::new(alloc);
    scope.bind_all(None, own)?;
    Ok(scope)
}
