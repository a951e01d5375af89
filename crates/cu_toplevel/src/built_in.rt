//! What the translation names of the Prelude.
ghost use Rattle.std.specs.Prelude.{◌≡◌, List, ℕ};
ghost use Rattle.cu_toplevel.specs.Surrounding.{type_text};
ghost use Rattle.cu_toplevel.specs.TupleTables.{AreTuples, IsFound};
ghost use Rattle.cu_translation.specs.Meaning.{built_in_text};
ghost use Rattle.cu_translation.specs.ModuleNames.{id_of};

use crate::tuples::TupleNames;
use cu_names::{NameId, Names};
use cu_translation::BuiltIn;

/// The types of the Prelude that the translation names.
#[derive(Clone, Copy, Debug, PartialEq, Eq)]
pub enum BuiltInType {
    List,
    /// The type of tuples of so many components. Unit is that of none.
    Tuple(usize),
    Int,
    Char,
    Bool,
}

/// The number of a text, if the table has it.
pub(crate) fn named(names: &Names, text: &str) -> Option<NameId>
    ensures { IsFound names.now text.now result }
{
    names.find(text)
}

/// The number of a name, where it was found, or how many names the table has,
/// where it lacks the name.
pub(crate) fn number_of(names: &Names, found: Option<NameId>) -> NameId
    ensures { (text : List ℕ) → IsFound names.now text found → result ≡ id_of names.now text }
{
    let count = names.count();
    match found {
        Some(id) => id,
        None => NameId(count),
    }
}

/// The name of what the translation names, if the table has it.
pub(crate) fn name_of(names: &Names, tuples: &TupleNames, what: BuiltIn) -> Option<NameId>
    ensures { AreTuples names.now tuples.now → IsFound names.now (built_in_text what) result }
{
    match what {
        BuiltIn::True => named(names, "True"),
        BuiltIn::False => named(names, "False"),
        BuiltIn::Nil => named(names, "[]"),
        BuiltIn::Cons => named(names, ":"),
        BuiltIn::Tuple(components) => tuples.find(components),
        BuiltIn::Negate => named(names, "negate"),
        BuiltIn::Flip => named(names, "flip"),
        BuiltIn::EnumFrom => named(names, "enumFrom"),
        BuiltIn::EnumFromTo => named(names, "enumFromTo"),
        BuiltIn::EnumFromThen => named(names, "enumFromThen"),
        BuiltIn::EnumFromThenTo => named(names, "enumFromThenTo"),
        BuiltIn::ConcatMap => named(names, "concatMap"),
        BuiltIn::Failed => named(names, "failed"),
    }
}

/// The name of a type that the translation names, if the table has it.
pub(crate) fn type_name_of(names: &Names, tuples: &TupleNames, what: BuiltInType) -> Option<NameId>
    ensures { AreTuples names.now tuples.now → IsFound names.now (type_text what) result }
{
    match what {
        BuiltInType::List => named(names, "[]"),
        BuiltInType::Tuple(components) => tuples.find(components),
        BuiltInType::Int => named(names, "Int"),
        BuiltInType::Char => named(names, "Char"),
        BuiltInType::Bool => named(names, "Bool"),
    }
}
