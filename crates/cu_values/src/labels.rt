//! What a program calls its entities in a display.
ghost use Rattle.std.specs.Prelude.{◌≡◌, option_map};
ghost use Rattle.cu_names.specs.Texts.{text_of};
ghost use Rattle.cu_values.specs.ProgramLabels.{is_tuple_type};

use cu_kernel::{ConId, FunId, Program, TypeId};
use cu_names::{NameId, Names};

/// The index of unit's type. After it stand those of the tuples of 2 to 15
/// components.
const UNIT: usize = 1;

/// The index of the type of tuples of 15 components.
const LONGEST_TUPLE: usize = 15;

/// The names of a program's constructors and functions. A name that the table
/// of names lacks has no text.
#[derive(Clone, Copy)]
pub(crate) struct ProgramNames<'a> {
    pub(crate) names: &'a Names,
    pub(crate) program: &'a Program,
}

/// The text of a name; none where the table lacks it.
fn text(names: &Names, id: NameId) -> &str
    ensures { result.now ≡ text_of names.now id }
{
    if id.0 < names.count() {
        names.text(id)
    } else {
        ""
    }
}

/// Whether a type is unit, or a type of tuples.
fn is_tuple_type(id: TypeId) -> bool
    ensures { result ≡ is_tuple_type (Some id.0) }
{
    UNIT <= id.0 && id.0 <= LONGEST_TUPLE
}

impl ProgramNames<'_> {
    ghost use Rattle.std.specs.Prelude.{◌≡◌};
    ghost use Rattle.cu_values.specs.Inside.LabelsOf.{labels_meaning};

    /// The empty list.
    pub(crate) fn nil(&self) -> ConId
        ensures { result ≡ (labels_meaning self.now).nil }
    {
        self.program.special().nil
    }

    /// The constructor `:` of lists.
    pub(crate) fn cons(&self) -> ConId
        ensures { result ≡ (labels_meaning self.now).cons }
    {
        self.program.special().cons
    }

    /// The name of a constructor.
    pub(crate) fn constructor(&self, constructor: ConId) -> &str
        ensures { result.now ≡ (labels_meaning self.now).constructor constructor }
    {
        match self.program.constructor(constructor) {
            Some(placed) => text(self.names, placed.constructor.name),
            None => "",
        }
    }

    /// Whether a constructor is unit, or that of a type of tuples.
    pub(crate) fn is_tuple(&self, constructor: ConId) -> bool
        ensures { result ≡ (labels_meaning self.now).tuple constructor }
    {
        match self.program.constructor(constructor) {
            Some(placed) => is_tuple_type(placed.of_type),
            None => false,
        }
    }

    /// The name of a function.
    pub(crate) fn function(&self, function: FunId) -> &str
        ensures { result.now ≡ (labels_meaning self.now).function function }
    {
        match self.program.functions().get(function.0) {
            Some(function) => text(self.names, function.name),
            None => "",
        }
    }

    /// How many arguments a function takes.
    pub(crate) fn arity(&self, function: FunId) -> u32
        ensures { result ≡ (labels_meaning self.now).arity function }
    {
        match self.program.functions().get(function.0) {
            Some(function) => function.arity,
            None => 0,
        }
    }
}
