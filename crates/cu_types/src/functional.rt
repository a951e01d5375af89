//! Whether a goal is of a type that holds functions.
ghost use Rattle.std.specs.Prelude.{◌≡◌, ◌<◌, ℕ, IfOk, Some, false, length, map, slice_get, slice_index_or};
ghost use Rattle.std.specs.List.{list_any};
ghost use Rattle.cu_types.specs.Inference.{holds_function, is_functional, takes_function};
ghost use Rattle.cu_types.specs.Inside.Inferring.{pair_top, shape_holds, top_of};
ghost use Rattle.cu_types.specs.Table.{IsTable, at, places, shape_of, trees};

use crate::{Node, SharedType, TypeHead};
use cu_kernel::Program;
use std::alloc::{AllocError, Global};

/// What a type is, seen from its top.
#[derive(Clone, Copy)]
enum Top {
    /// The functions from the type at one place to that at another.
    Arrow(usize, usize),
    /// Any other type.
    Other,
}

/// Whether a function type stands in one of these types.
fn some_hold(arguments: &[usize], holds: &[bool]) -> bool
    requires { (k a : ℕ) → slice_get arguments.now k ≡ Some a → a < length holds.now }
    ensures { result ≡ list_any (λ a. slice_index_or holds.now a false) arguments.now }
{
    for argument in arguments {
        if holds[*argument] {
            return true;
        }
    }
    false
}

/// Whether a function type stands in a type of a table, where it is known of
/// the types before it.
fn node_holds(node: &Node, holds: &[bool]) -> bool
    requires { (k a : ℕ) → slice_get (places (shape_of node.now)) k ≡ Some a
        → a < length holds.now }
    ensures { result ≡ shape_holds (λ a. slice_index_or holds.now a false) (shape_of node.now) }
{
    match node {
        Node::Variable(_) => false,
        Node::Applied(head, arguments) => match head {
            TypeHead::Arrow => true,
            TypeHead::Named(_) => some_hold(arguments.as_slice(), holds),
        },
    }
}

/// Whether a function type stands in each of the types of a table.
fn all_hold(alloc: Global, types: &[Node]) -> Result<Vec<bool>, AllocError>
    requires { IsTable (map shape_of types.now) }
    ensures { IfOk result (λ holds. holds.items
        ≡ map holds_function (trees (map shape_of types.now))) }
{
    let mut holds = Vec::with_capacity(alloc, types.len())?;
    for node in types {
        let own = node_holds(node, holds.as_slice());
        holds.push(own)?;
    }
    Ok(holds)
}

/// What a type of a table is, seen from its top.
fn at_top(node: &Node) -> Top
    ensures { result ≡ top_of (shape_of node.now) }
{
    match node {
        Node::Variable(_) => Top::Other,
        Node::Applied(head, arguments) => match head {
            TypeHead::Arrow => pair_of(arguments.as_slice()),
            TypeHead::Named(_) => Top::Other,
        },
    }
}

/// What a function type with arguments at these places is, seen from its top.
fn pair_of(arguments: &[usize]) -> Top
    ensures { result ≡ pair_top arguments.now }
{
    match arguments {
        [left, right] => Top::Arrow(*left, *right),
        _ => Top::Other,
    }
}

/// Whether a function type stands in the type of one of so many parameters, or
/// of the result after them.
fn takes(types: &[Node], holds: &[bool], place: usize, count: usize) -> bool
    requires table { IsTable (map shape_of types.now) }
    requires within { place < length types.now }
    requires holds { holds.now ≡ map holds_function (trees (map shape_of types.now)) }
    ensures { result ≡ takes_function count (at (trees (map shape_of types.now)) place) }
{
    let mut here = place;
    let mut left = count;
    while left > 0 {
        left -= 1;
        match at_top(&types[here]) {
            Top::Arrow(argument, value) => {
                if holds[argument] {
                    return true;
                }
                here = value;
            }
            Top::Other => return false,
        }
    }
    holds[here]
}

/// Whether a function type stands in the type of one of so many parameters of
/// a function, or of its result.
fn takes_functions(alloc: Global, shared: &SharedType, count: usize) -> Result<bool, AllocError>
    ensures { IfOk result (λ takes. takes ≡ takes_function count shared.now) }
{
    let opened = shared.open();
    let holds = all_hold(alloc, opened.types)?;
    Ok(takes(opened.types, holds.as_slice(), opened.place, count))
}

/// Whether the goal of a program, or a variable of it, is of a type that holds
/// functions.
pub(crate) fn is_functional(
    alloc: Global,
    program: &Program,
    types: &[SharedType],
) -> Result<bool, AllocError>
    ensures { IfOk result (λ functional.
        functional ≡ is_functional types.now program.now.goal) }
{
    let Some(goal) = program.goal() else {
        return Ok(false);
    };
    match types.get(goal.function.0) {
        Some(shared) => takes_functions(alloc, shared, goal.names.len()),
        None => Ok(false),
    }
}
