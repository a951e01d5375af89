//! Uses of the names of types, and faults.
use cu_names::{NameId, Place};
use cu_syntax::Name;

/// The name of a type where it stands, and the number of its arguments there.
#[derive(Clone, Copy)]
pub(crate) struct TypeUse {
    pub(crate) name: Name,
    pub(crate) arguments: usize,
}

/// What is wrong with types. Of two faults at one place the one whose kind
/// stands earlier here comes first.
#[derive(Clone, Copy)]
pub(crate) enum Wrong {
    /// A type's name has a wrong number of arguments.
    TypeArity,
    /// The synonym of this name leads to itself.
    SynonymCycle(NameId),
}

/// What is wrong, and where.
#[derive(Clone, Copy)]
pub(crate) struct Fault {
    pub(crate) wrong: Wrong,
    pub(crate) place: Place,
}
