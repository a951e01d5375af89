//! The types that every program begins with.
ghost use Rattle.std.specs.Prelude.{◌≡◌, map};
ghost use Rattle.cu_kernel.specs.FirstTypes.{begin_with, first_outlines, has_first_types, has_list_constructors, have_fields, is_like};
ghost use Rattle.cu_kernel.specs.KernelOf.{constructor_meaning, type_meaning};
ghost use Rattle.cu_kernel.specs.Inside.OutlineOf.{outline_meaning};

use crate::{Constructor, DataType, Special};

/// The Prelude's number among the modules.
const PRELUDE: u32 = 0;

/// What a type is like: how many parameters it has, and the fields of each
/// constructor.
#[derive(Clone, Copy)]
pub(crate) enum Outline {
    /// The type of lists.
    List,
    /// The type of tuples of so many components; unit is that of no component.
    Tuple(u32),
    /// A type whose values are literals.
    Literal,
}

/// The outlines of the list, unit, the tuples of 2 to 15 components, `Int` and
/// `Char`.
const FIRST_TYPES: [Outline; 18] = [
    Outline::List,
    Outline::Tuple(0),
    Outline::Tuple(2),
    Outline::Tuple(3),
    Outline::Tuple(4),
    Outline::Tuple(5),
    Outline::Tuple(6),
    Outline::Tuple(7),
    Outline::Tuple(8),
    Outline::Tuple(9),
    Outline::Tuple(10),
    Outline::Tuple(11),
    Outline::Tuple(12),
    Outline::Tuple(13),
    Outline::Tuple(14),
    Outline::Tuple(15),
    Outline::Literal,
    Outline::Literal,
];

/// The outlines of the types that every program begins with.
fn first_types() -> &'static [Outline]
    ensures { map outline_meaning result.now ≡ first_outlines }
{
    &FIRST_TYPES
}

impl Outline {
    /// How many parameters a type of this outline has.
    fn parameters(self) -> u32
        ensures { result ≡ (outline_meaning self).parameters }
    {
        match self {
            Outline::List => 1,
            Outline::Tuple(count) => count,
            Outline::Literal => 0,
        }
    }

    /// Whether these are the constructors of a type of this outline, by their
    /// numbers of fields.
    fn has(self, constructors: &[Constructor]) -> bool
        ensures { result ≡ have_fields (outline_meaning self).fields
            (map constructor_meaning constructors.now) }
    {
        match (self, constructors) {
            (Outline::List, [empty, longer]) => empty.fields.is_empty() && longer.fields.len() == 2,
            (Outline::Tuple(count), [tuple]) => tuple.fields.len() == count as usize,
            (Outline::Literal, []) => true,
            _ => false,
        }
    }
}

/// Whether a type is declared in the Prelude and has this outline.
fn is_like(outline: Outline, data_type: &DataType) -> bool
    ensures { result ≡ is_like (outline_meaning outline) (type_meaning data_type.now) }
{
    data_type.module == PRELUDE
        && data_type.arity == outline.parameters()
        && outline.has(data_type.constructors.as_slice())
}

/// Whether types begin with types of these outlines.
fn begin_with(outlines: &[Outline], types: &[DataType]) -> bool
    ensures { result ≡ begin_with (map outline_meaning outlines.now) (map type_meaning types.now) }
{
    if types.len() < outlines.len() {
        return false;
    }
    for (place, outline) in outlines.iter().enumerate() {
        if !is_like(*outline, &types[place]) {
            return false;
        }
    }
    true
}

/// Whether `[]` and `:` are the first two constructors.
fn has_list_constructors(special: &Special) -> bool
    ensures { result ≡ has_list_constructors special.now }
{
    special.nil.0 == 0 && special.cons.0 == 1
}

/// Whether the types begin with those that every program begins with, and the
/// built-in entities name the constructors of lists.
pub fn has_first_types(special: &Special, types: &[DataType]) -> bool
    ensures { result ≡ has_first_types special.now (map type_meaning types.now) }
{
    begin_with(first_types(), types) && has_list_constructors(special)
}
