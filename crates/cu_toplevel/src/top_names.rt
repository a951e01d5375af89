//! What the names of top level refer to in a module.
ghost use Rattle.std.specs.Prelude.{◌≡◌, ◌<◌, List, ℕ, IfSome, length};
ghost use Rattle.std.specs.List.{All};
ghost use Rattle.std.specs.Option.{option_map};
ghost use Rattle.cu_entities.specs.EntityMeaning.{EntityIsKnown, entity_meaning, space_meaning};
ghost use Rattle.cu_modules.specs.Ordering.{modules_of};
ghost use Rattle.cu_modules.specs.Reading.{HasModule};
ghost use Rattle.cu_modules.specs.ScopeAnswers.{AreScopes};
ghost use Rattle.cu_modules.specs.Scopes.{Named};
ghost use Rattle.cu_names.specs.declared.names.NameId.{NameId};
ghost use Rattle.cu_syntax.specs.Names.{name_meaning};
ghost use Rattle.cu_syntax.specs.Owners.{NameIsOf};
ghost use Rattle.cu_toplevel.specs.EntityTables.{AreEntities};
ghost use Rattle.cu_toplevel.specs.Surrounding.{TellsNames, type_text};
ghost use Rattle.cu_translation.specs.Around as meant;
ghost use Rattle.cu_translation.specs.Functions.{goal_name};
ghost use Rattle.cu_translation.specs.Meaning.{built_in_text, referent_meaning};
ghost use Rattle.cu_translation.specs.ModuleNames.{entity_meant, id_of, names_in};
ghost use Rattle.cu_translation.specs.Parts.{goal_names};

use crate::Entities;
use crate::built_in::{BuiltInType, name_of, named, number_of, type_name_of};
use cu_entities::{Entity, Space};
use cu_fixity::{Fixity, UNDECLARED};
use cu_kernel::{TypeId, TypeName};
use cu_modules::{Module, Scopes};
use cu_names::{NameId, Names};
use cu_syntax::Name;
use cu_translation::{BuiltIn, Referent};

/// What the names of top level refer to in a module, or in a goal there.
#[derive(Clone, Copy)]
pub struct TopNames<'a> {
    pub(crate) entities: &'a Entities,
    pub(crate) scopes: &'a Scopes,
    pub(crate) names: &'a Names,
    /// The module, by its place among the modules.
    pub(crate) module: u32,
    /// The name of the module, or the name `goal` where the text is a goal.
    pub(crate) owner: NameId,
}

/// The number of the name `goal`, which owns the places of a goal, or how many
/// names the table has, where it lacks that name.
fn goal_owner(names: &Names) -> NameId
    ensures { result ≡ id_of names.now goal_name }
{
    number_of(names, named(names, "goal"))
}

impl<'a> TopNames<'a> {
    /// What names refer to in the module of a number.
    pub fn of(
        entities: &'a Entities,
        scopes: &'a Scopes,
        names: &'a Names,
        modules: &[Module],
        number: u32,
    ) -> TopNames<'a>
        requires entities { AreEntities names.now (modules_of names.now modules.now) entities.now }
        requires scopes { AreScopes names.now (modules_of names.now modules.now) scopes.now }
        requires has { All (HasModule names.now) modules.now }
        requires number { number < length modules.now }
        ensures tells { TellsNames names.now
            (names_in names.now (modules_of names.now modules.now) number) result }
        ensures entities { result.entities.now ≡ entities.now }
    {
        let owner = modules[number as usize].name();
        TopNames {
            entities,
            scopes,
            names,
            module: number,
            owner,
        }
    }

    /// What names refer to in a goal in the module of a number. They refer to
    /// what they do in the module, but the places are of the goal.
    pub fn of_goal(
        entities: &'a Entities,
        scopes: &'a Scopes,
        names: &'a Names,
        modules: &[Module],
        root: u32,
    ) -> TopNames<'a>
        requires entities { AreEntities names.now (modules_of names.now modules.now) entities.now }
        requires scopes { AreScopes names.now (modules_of names.now modules.now) scopes.now }
        requires root { root < length modules.now }
        ensures tells { TellsNames names.now
            (goal_names names.now (modules_of names.now modules.now) root) result }
        ensures entities { result.entities.now ≡ entities.now }
    {
        let owner = goal_owner(names);
        TopNames {
            entities,
            scopes,
            names,
            module: root,
            owner,
        }
    }

    /// The entity that a name means, where it means one alone.
    fn entity(&self, space: Space, name: Name) -> Option<Entity>
        ensures meaning { (owner : NameId) (names : List (List ℕ)) (modules : List Named)
            → AreScopes names modules self.now.scopes.now → self.now.«module» < length modules
            → NameIsOf owner names name
            → option_map (entity_meaning names) result ≡ entity_meant modules self.now.«module»
            (space_meaning space) (name_meaning names name) }
        ensures known { (names : List (List ℕ)) (modules : List Named)
            → AreScopes names modules self.now.scopes.now
            → IfSome result (EntityIsKnown names) }
    {
        self.scopes
            .meaning(self.module, space, name.qualifier, name.base)
    }

    /// What a name of top level refers to, where no local name hides it.
    pub fn value(&self, name: Name) -> Referent
        ensures { (owner : NameId) (names : List (List ℕ)) (top : meant.Names)
            → TellsNames names top self.now → NameIsOf owner names name
            → referent_meaning result ≡ top.value (name_meaning names name) }
    {
        match self.entity(Space::Values, name) {
            Some(entity) => self.entities.value_of(entity.owner, entity.name),
            None => Referent::Nothing,
        }
    }

    /// The fixity of an operator of top level, where no local name hides it.
    pub fn fixity(&self, name: Name) -> Fixity
        ensures { (owner : NameId) (names : List (List ℕ)) (top : meant.Names)
            → TellsNames names top self.now → NameIsOf owner names name
            → result ≡ top.fixity (name_meaning names name) }
    {
        match self.entity(Space::Values, name) {
            Some(entity) => self.entities.fixity_of(entity.owner, entity.name),
            None => UNDECLARED,
        }
    }

    /// What the name of a type stands for.
    pub fn type_name(&self, name: Name) -> TypeName
        ensures { (owner : NameId) (names : List (List ℕ)) (top : meant.Names)
            → TellsNames names top self.now → NameIsOf owner names name
            → result ≡ top.type (name_meaning names name) }
    {
        match self.entity(Space::Types, name) {
            Some(entity) => self.entities.type_of(entity.owner, entity.name),
            None => TypeName::Data(TypeId(0)),
        }
    }

    /// What the Prelude has under one of the names that the translation uses.
    pub fn prelude(&self, what: BuiltIn) -> Referent
        ensures { (names : List (List ℕ)) (top : meant.Names) → TellsNames names top self.now
            → referent_meaning result ≡ top.prelude (built_in_text what) }
    {
        match name_of(self.names, &self.entities.tuples, what) {
            Some(name) => self.entities.value_of(self.entities.prelude, name),
            None => Referent::Nothing,
        }
    }

    /// The type that the Prelude has under one of the names that the
    /// translation uses.
    pub fn prelude_type(&self, what: BuiltInType) -> TypeName
        ensures { (names : List (List ℕ)) (top : meant.Names) → TellsNames names top self.now
            → result ≡ top.prelude_type (type_text what) }
    {
        match type_name_of(self.names, &self.entities.tuples, what) {
            Some(name) => self.entities.type_of(self.entities.prelude, name),
            None => TypeName::Data(TypeId(0)),
        }
    }

    /// The number of the name of what the Prelude has, or how many names the
    /// table has, where it lacks the name.
    pub(crate) fn value_number(&self, what: BuiltIn) -> NameId
        ensures { (names : List (List ℕ)) (top : meant.Names) → TellsNames names top self.now
            → result ≡ id_of names (built_in_text what) }
    {
        number_of(self.names, name_of(self.names, &self.entities.tuples, what))
    }

    /// The number of the name of a type that the Prelude has, or how many names
    /// the table has, where it lacks the name.
    pub(crate) fn type_number(&self, what: BuiltInType) -> NameId
        ensures { (names : List (List ℕ)) (top : meant.Names) → TellsNames names top self.now
            → result ≡ id_of names (type_text what) }
    {
        number_of(
            self.names,
            type_name_of(self.names, &self.entities.tuples, what),
        )
    }

    /// The number of the name of the text's module, or of the name `goal` where
    /// the text is a goal.
    pub fn owner(&self) -> NameId
        ensures { (names : List (List ℕ)) (top : meant.Names) → TellsNames names top self.now
            → result ≡ top.owner }
    {
        self.owner
    }
}
