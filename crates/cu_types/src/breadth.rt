//! How many type variables an instance of a type takes.
ghost use Rattle.std.specs.Prelude.{◌≡◌, ◌<◌, ℕ, IfOk, Some, length, slice_get, slice_index};
ghost use Rattle.cu_types.specs.Equations.{breadth};
ghost use Rattle.cu_types.specs.Inside.Breadths.{shape_breadth, widest};
ghost use Rattle.cu_types.specs.Table.{places, shape_of};

use crate::{Node, SharedType};
use std::alloc::{AllocError, Global};

/// The greatest of the breadths at these places.
fn widest(breadths: &[usize], arguments: &[usize]) -> usize
    requires { (k a : ℕ) → slice_get arguments.now k ≡ Some a → a < length breadths.now }
    ensures { result ≡ widest (slice_index breadths.now) arguments.now }
{
    let mut found = 0;
    for argument in arguments {
        found = found.max(breadths[*argument]);
    }
    found
}

/// The breadth of a type of a table, where those of the types before it are
/// known.
fn node_breadth(node: &Node, breadths: &[usize]) -> usize
    requires { (k a : ℕ) → slice_get (places (shape_of node.now)) k ≡ Some a
        → a < length breadths.now }
    ensures { result ≡ shape_breadth (slice_index breadths.now) (shape_of node.now) }
{
    match node {
        Node::Variable(x) => *x as usize + 1,
        Node::Applied(_, arguments) => widest(breadths, arguments.as_slice()),
    }
}

impl SharedType {
    /// How many type variables an instance of the type takes: one more than the
    /// greatest number of a variable.
    pub fn breadth(&self, alloc: Global) -> Result<usize, AllocError>
        ensures { IfOk result (λ count. count ≡ breadth self.now) }
    {
        let opened = self.open();
        let mut breadths = Vec::with_capacity(alloc, opened.types.len())?;
        for node in opened.types {
            let count = node_breadth(node, breadths.as_slice());
            breadths.push(count)?;
        }
        Ok(breadths[opened.place])
    }
}
