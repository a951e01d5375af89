//! Faults of names.
ghost use Rattle.std.specs.Prelude.{◌≡◌, List, ℕ};
ghost use Rattle.cu_uses.specs.Faults.{is_before, rank};
ghost use Rattle.cu_uses.specs.Telling.{fault_meaning};

use cu_names::{NameId, Place};

/// What is wrong with a name. Of two faults at one place the one whose kind
/// stands earlier here comes first.
#[derive(Clone, Copy, Debug, PartialEq, Eq)]
pub enum Wrong {
    /// An import or export list names what isn't there.
    NotExported,
    /// The name means nothing.
    UnknownName,
    /// The name means two entities or more.
    Ambiguous,
    /// The name is declared a second time in one scope.
    Duplicate,
}

/// A fault of a name, with the place and the text of its token.
#[derive(Clone, Copy, Debug, PartialEq, Eq)]
pub struct Fault {
    pub wrong: Wrong,
    pub place: Place,
    pub name: NameId,
}

impl Wrong {
    /// The rank of the fault's kind among the kinds of faults.
    fn rank(self) -> u32
        ensures { result ≡ rank self }
    {
        match self {
            Wrong::NotExported => 0,
            Wrong::UnknownName => 1,
            Wrong::Ambiguous => 2,
            Wrong::Duplicate => 3,
        }
    }
}

impl Fault {
    /// Whether this fault comes before another one.
    pub(crate) fn is_before(self, other: Fault) -> bool
        ensures { (names : List (List ℕ))
            → result ≡ is_before (fault_meaning names self) (fault_meaning names other) }
    {
        let (here, there) = (self.place, other.place);
        here.line < there.line
            || (here.line == there.line
                && (here.column < there.column
                    || (here.column == there.column && self.wrong.rank() < other.wrong.rank())))
    }
}
