//! A class that uses itself: two types that the equations make equal, of
//! which one stands inside the other.
ghost use Rattle.std.specs.Prelude.{◌≡◌, ◌<◌, ◌++◌, ◌∷◌, [], ℕ, IfOk, OnOk, Some, length, map, reverse, slice_get};
ghost use Rattle.cu_types.specs.Inside.Cycles.{Unfolds, put_in, wrapped};
ghost use Rattle.cu_types.specs.Inside.Ordering.{AreWithin, IsCyclic};
ghost use Rattle.cu_types.specs.Table.{IsTable, Shape, places, shape_of};

use crate::Node;
use crate::order::Task;
use std::alloc::{AllocError, Global};

/// A type of a class, by its place.
#[derive(Clone, Copy, PartialEq, Eq)]
pub(crate) struct Member {
    /// The class, by its representative.
    class: usize,
    /// The place of the type.
    place: usize,
}

impl Member {
    /// The places of arguments, with that of this type in place of those of its
    /// class.
    fn put_into(
        self,
        alloc: Global,
        classes: &[usize],
        arguments: &[usize],
    ) -> Result<Vec<usize>, AllocError>
        requires { (k a : ℕ) → slice_get arguments.now k ≡ Some a → a < length classes.now }
        ensures { IfOk result (λ found. found.items
            ≡ map (put_in classes.now self.class self.place) arguments.now) }
    {
        let mut found = Vec::with_capacity(alloc, arguments.len())?;
        for argument in arguments {
            let own = classes[*argument] == self.class;
            found.push(if own { self.place } else { *argument })?;
        }
        Ok(found)
    }

    /// A type, with this type in place of its arguments of this type's class.
    fn wrapped(self, alloc: Global, classes: &[usize], node: &Node) -> Result<Node, AllocError>
        requires { (k a : ℕ) → slice_get (places (shape_of node.now)) k ≡ Some a
            → a < length classes.now }
        ensures { IfOk result (λ made. shape_of made
            ≡ wrapped classes.now self.class self.place (shape_of node.now)) }
    {
        match node {
            Node::Variable(x) => Ok(Node::Variable(*x)),
            Node::Applied(head, arguments) => {
                let places = self.put_into(alloc, classes, arguments.as_slice())?;
                Ok(Node::Applied(*head, places))
            }
        }
    }
}

/// Adds a type of a class that is built round a type of a class that it uses.
/// Gives the place of the new type.
fn wrap(
    alloc: Global,
    nodes: &mut Vec<Node>,
    classes: &[usize],
    user: usize,
    inner: Member,
) -> Result<usize, AllocError>
    requires user { user < length nodes.old.items }
    requires arguments { (s : Shape) (k a : ℕ) → slice_get (map shape_of nodes.old.items) user
        ≡ Some s
        → slice_get (places s) k ≡ Some a → a < length classes.now }
    ensures place { IfOk result (λ place. place ≡ length nodes.old.items) }
    ensures pushed { OnOk result ((s : Shape)
        → slice_get (map shape_of nodes.old.items) user ≡ Some s → map shape_of nodes.new.items
        ≡ map shape_of nodes.old.items ++ wrapped classes.now inner.class inner.place s ∷ []) }
{
    let made = inner.wrapped(alloc, classes, &nodes[user])?;
    let place = nodes.len();
    nodes.push(made)?;
    Ok(place)
}

/// Builds a type of the first type's class round the first type, along the
/// classes that are to be left. Gives the place of the type that was built.
pub(crate) fn unfold(
    alloc: Global,
    nodes: &mut Vec<Node>,
    classes: &[usize],
    tasks: &mut Vec<Task>,
    first: usize,
) -> Result<usize, AllocError>
    requires table { IsTable (map shape_of nodes.old.items) }
    requires classes { AreWithin (map shape_of nodes.old.items) classes.now }
    requires cyclic { IsCyclic (map shape_of nodes.old.items) classes.now
        (reverse tasks.old.items) first }
    ensures { IfOk result (Unfolds (map shape_of nodes.old.items) classes.now first
        (map shape_of nodes.new.items)) }
{
    let class = classes[first];
    let mut inner = Member {
        class,
        place: first,
    };
    while let Some(task) = tasks.pop() {
        let Task::Leave(user) = task else {
            continue;
        };
        let place = wrap(alloc, nodes, classes, user, inner)?;
        if user == class {
            return Ok(place);
        }
        inner = Member { class: user, place };
    }
    Ok(inner.place)
}
