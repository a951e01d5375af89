//! New free variables, and binding them.
ghost use Rattle.std.specs.Prelude.{◌≡◌, ◌<◌, ◌++◌, IfOk, OnOk, length};
ghost use Rattle.cu_machine.specs.declared.Kind.TheVariants as kind;
ghost use Rattle.cu_machine.specs.Graph.{put};
ghost use Rattle.cu_machine.specs.State.{free_nodes, numbers};

use crate::node;
use cu_flat::ConId;
use cu_graph::{Kind, Store};
use std::alloc::{AllocError, Global};

/// Pushes free variables, and answers their indices.
#[tactic(auto, using(crate::proofs::Frees::frees))]
pub(crate) fn push<S: Store>(
    alloc: Global,
    store: &mut S,
    count: usize,
) -> Result<Vec<u32>, AllocError>
    ensures places { IfOk result (λ places. places.items
        ≡ numbers (length (S.content store.old)) count) }
    ensures content { OnOk result (S.content store.new
        ≡ S.content store.old ++ free_nodes count) }
{
    let mut places = Vec::with_capacity(alloc, count)?;
    for _ in 0..count {
        let place = node::push(store, Kind::Free, &[])?;
        places.push(place)?;
    }
    Ok(places)
}

/// Makes a free variable a constructor over new free variables, whose indices
/// are answered.
#[tactic(auto, using(crate::proofs::Frees::frees))]
pub(crate) fn to_constructor<S: Store>(
    alloc: Global,
    store: &mut S,
    variable: u32,
    c: ConId,
    count: usize,
) -> Result<Vec<u32>, AllocError>
    requires { variable < length (S.content store.old) }
    ensures places { IfOk result (λ places. places.items
        ≡ numbers (length (S.content store.old)) count) }
    ensures content { OnOk result (S.content store.new
        ≡ put (S.content store.old ++ free_nodes count) variable
        (record { kind = kind.Cons c; args = numbers (length (S.content store.old)) count })) }
{
    let places = push(alloc, store, count)?;
    store.put(variable, Kind::Cons(c), places.as_slice())?;
    Ok(places)
}
