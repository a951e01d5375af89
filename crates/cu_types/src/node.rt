//! Types in a table, which name their arguments by places and so share them.
ghost use Rattle.std.specs.Prelude.{◌≡◌, ◌↔◌, IsTrue};
ghost use Rattle.cu_types.specs.Inside.Closing.{Meet, Takes, is_variable};
ghost use Rattle.cu_types.specs.Inside.Expanding.{HasArguments};
ghost use Rattle.cu_types.specs.Table.{places, shape_of};

use cu_kernel::TypeName;

/// What stands at the top of a type that is no variable.
#[derive(Clone, Copy, Debug, PartialEq, Eq)]
pub enum TypeHead {
    /// The functions from one type to another.
    Arrow,
    /// A data type or a synonym.
    Named(TypeName),
}

/// A type of a table. Its arguments are types of the table too, each by its
/// place there.
#[derive(Debug, Drop)]
pub enum Node {
    /// A type variable, by its number.
    Variable(u32),
    /// A head with its arguments.
    Applied(TypeHead, Vec<usize>),
}

impl Node {
    /// The places of the type's arguments.
    pub fn arguments(&self) -> &[usize]
        ensures { result.now ≡ places (shape_of self.now) }
    {
        match self {
            Node::Variable(_) => &[],
            Node::Applied(_, arguments) => arguments.as_slice(),
        }
    }

    /// Whether this is a type variable.
    pub(crate) fn is_variable(&self) -> bool
        ensures { result ≡ is_variable (shape_of self.now) }
    {
        match self {
            Node::Variable(_) => true,
            Node::Applied(_, _) => false,
        }
    }

    /// Whether two types may have the same head and as many arguments: one is a
    /// variable, or both have.
    pub(crate) fn meets(&self, other: &Node) -> bool
        ensures { IsTrue result ↔ Meet (shape_of self.now) (shape_of other.now) }
    {
        match self {
            Node::Variable(_) => true,
            Node::Applied(head, arguments) => other.takes(*head, arguments.len()),
        }
    }

    /// Whether this is a variable, or has this head and so many arguments.
    fn takes(&self, head: TypeHead, count: usize) -> bool
        ensures { IsTrue result ↔ Takes (shape_of self.now) head count }
    {
        match self {
            Node::Variable(_) => true,
            Node::Applied(own, arguments) => *own == head && arguments.len() == count,
        }
    }

    /// Whether this has a head with these arguments.
    pub(crate) fn has_arguments(&self, head: TypeHead, arguments: &[usize]) -> bool
        ensures { IsTrue result ↔ HasArguments (shape_of self.now) head arguments.now }
    {
        match self {
            Node::Variable(_) => false,
            Node::Applied(own, places) => *own == head && places.as_slice() == arguments,
        }
    }
}
