//! Names that are declared inside a function.
use crate::Position;
use cu_names::NameId;

/// A variable of a function, told by where its text declares it.
#[derive(Clone, Copy, Debug, PartialEq, Eq, Hash)]
pub enum Binder {
    /// The variable or the wildcard at a place.
    At(Position),
    /// The fresh variable for the whole value of the pattern at a place, of a
    /// declaration or a qualifier.
    Whole(Position),
    /// The wildcard of the alternative that follows the pattern at a place, of
    /// a qualifier.
    Otherwise(Position),
    /// The variable or the wildcard at the second place, in the function that
    /// selects the variable at the first.
    Selected(Position, Position),
}

/// What a name means that is declared inside a function.
#[derive(Clone, Copy, Debug, PartialEq, Eq)]
pub enum Local {
    Variable(Binder),
    /// The local function whose first token stands at a place, and how many
    /// parameters it has.
    Function(Position, usize),
}

/// A local name and what it means.
#[derive(Clone, Copy, Debug, PartialEq, Eq)]
pub struct Entry {
    pub text: NameId,
    pub means: Local,
}
