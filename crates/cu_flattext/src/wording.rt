//! What a lowered program calls its entities.
ghost use Rattle.std.specs.Prelude.{◌≡◌};
ghost use Rattle.cu_names.specs.Texts.{text_of};

use crate::page::Entity;
use cu_flat::FlatProgram;
use cu_kernel::{ConId, FunId, Head, Program, TypeName};
use cu_names::{NameId, Names};
use cu_types::Interface;

/// A lowered program with its names and the types of its functions. A name
/// that the table of names lacks has no text.
#[derive(Clone, Copy)]
pub(crate) struct Wording<'p> {
    pub(crate) names: &'p Names,
    pub(crate) kernel: &'p Program,
    pub(crate) interface: &'p Interface,
    pub(crate) flat: &'p FlatProgram,
}

/// The text of a name; none where the table lacks it.
fn text(names: &Names, id: NameId) -> &str
    ensures { result.now ≡ text_of names.now id }
{
    if id.0 < names.count() {
        names.text(id)
    } else {
        ""
    }
}

/// What stands for an entity that the program hasn't got.
const NO_ENTITY: Entity<'static> = Entity {
    owner: "",
    name: "",
};

impl Wording<'_> {
    ghost use Rattle.std.specs.Prelude.{◌≡◌};
    ghost use Rattle.cu_calculus.specs.declared.FunId.{FunId};
    ghost use Rattle.cu_flattext.specs.ExpressionTexts.{arity};
    ghost use Rattle.cu_flattext.specs.Naming.{constructor_entity, entity_of, function_entity, module_name, type_entity};
    ghost use Rattle.cu_flattext.specs.Inside.Stands.{entity_meaning, lowered_of};
    ghost use Rattle.cu_names.specs.Texts.{text_of};

    /// The text of a name.
    pub(crate) fn text(&self, id: NameId) -> &str
        ensures { result.now ≡ text_of (lowered_of self.now).names id }
    {
        text(self.names, id)
    }

    /// The name of the module with an index among the program's modules.
    pub(crate) fn module_name(&self, module_place: u32) -> &str
        ensures { result.now ≡ module_name (lowered_of self.now) module_place }
    {
        match self.kernel.modules().get(module_place as usize) {
            Some(info) => self.text(info.name),
            None => "",
        }
    }

    /// The entity of the module with an index, by its name.
    pub(crate) fn entity(&self, module_place: u32, name: NameId) -> Entity<'_>
        ensures { entity_meaning result ≡ entity_of (lowered_of self.now) module_place name }
    {
        Entity {
            owner: self.module_name(module_place),
            name: self.text(name),
        }
    }

    /// The entity of the data type or the synonym that a name in a type stands
    /// for.
    pub(crate) fn named_type(&self, name: TypeName) -> Entity<'_>
        ensures { entity_meaning result ≡ type_entity (lowered_of self.now) name }
    {
        match name {
            TypeName::Data(t) => match self.kernel.types().get(t.0) {
                Some(data_type) => self.entity(data_type.module, data_type.name),
                None => NO_ENTITY,
            },
            TypeName::Synonym(s) => match self.kernel.synonyms().get(s.0) {
                Some(synonym) => self.entity(synonym.module, synonym.name),
                None => NO_ENTITY,
            },
        }
    }

    /// The entity of a constructor, which is of its type's module.
    pub(crate) fn constructor(&self, c: ConId) -> Entity<'_>
        ensures { entity_meaning result ≡ constructor_entity (lowered_of self.now) c }
    {
        let Some(placed) = self.kernel.constructor(c) else {
            return NO_ENTITY;
        };
        match self.kernel.types().get(placed.of_type.0) {
            Some(data_type) => self.entity(data_type.module, placed.constructor.name),
            None => NO_ENTITY,
        }
    }

    /// The entity of a function.
    pub(crate) fn function(&self, f: FunId) -> Entity<'_>
        ensures { entity_meaning result ≡ function_entity (lowered_of self.now) f }
    {
        let Some(function) = self.kernel.functions().get(f.0) else {
            return NO_ENTITY;
        };
        match self.kernel.marks().get(f.0) {
            Some(mark) => self.entity(mark.module, function.name),
            None => NO_ENTITY,
        }
    }

    /// How many arguments a head takes.
    pub(crate) fn arity(&self, head: Head) -> u32
        ensures { result ≡ arity (lowered_of self.now) head }
    {
        self.flat.arity_if_known(head).unwrap_or(0)
    }
}
