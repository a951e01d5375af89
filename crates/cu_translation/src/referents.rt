//! What names refer to.
use cu_kernel::LocalHead;

/// What a name refers to where it stands.
#[derive(Clone, Copy, Debug, PartialEq, Eq)]
pub enum Referent {
    /// A variable, by its number.
    Variable(u32),
    /// A function or a constructor, and how many arguments it takes.
    Callable(LocalHead, usize),
    /// The name of the set functions of functions of so many parameters.
    SetFunction(usize),
    Nothing,
}

/// What the translation names of the Prelude, whatever is in scope.
#[derive(Clone, Copy, Debug, PartialEq, Eq)]
pub enum BuiltIn {
    True,
    False,
    Nil,
    Cons,
    /// The constructor of tuples of so many components. Unit is that of none.
    Tuple(usize),
    Negate,
    Flip,
    EnumFrom,
    EnumFromTo,
    EnumFromThen,
    EnumFromThenTo,
    ConcatMap,
    Failed,
}
