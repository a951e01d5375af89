//! What stands around the rest of a comprehension.
ghost use Rattle.std.specs.Prelude.{◌≡◌, IfOk};
ghost use Rattle.cu_kernel.specs.LocalTermsOf.{local_term_of};
ghost use Rattle.cu_translation.specs.Meaning.{Setting};
ghost use Rattle.cu_forms.specs.Inside.Blocks.{layer_around, layers_around};

use crate::blocks::{Bound, block};
use crate::lists::{if_then_else, list};
use cu_kernel::LocalTerm;
use cu_syntax::Name;
use cu_translation::Surroundings;
use std::alloc::{AllocError, Global};

/// A qualifier with what it stands for, which is around the qualifiers after
/// it.
#[derive(Drop)]
pub(crate) enum Layer {
    Condition(LocalTerm),
    /// The free variables of a block, and its definitions.
    Block(Vec<Name>, Vec<Bound>),
}

/// The rest of a comprehension inside the qualifiers before it.
pub(crate) fn around_rest<A: Surroundings>(
    alloc: Global,
    around: &A,
    layers: Vec<Layer>,
    rest: LocalTerm,
) -> Result<LocalTerm, AllocError>
    ensures { (w : Setting) → A.tells around.now w
        → IfOk result (λ t. local_term_of t
        ≡ layers_around w layers.items (local_term_of rest)) }
{
    let mut left = layers;
    let mut inner = rest;
    while let Some(layer) = left.pop() {
        inner = inside(alloc, around, layer, inner)?;
    }
    Ok(inner)
}

/// The rest of a comprehension inside the qualifier before it.
fn inside<A: Surroundings>(
    alloc: Global,
    around: &A,
    layer: Layer,
    rest: LocalTerm,
) -> Result<LocalTerm, AllocError>
    ensures { (w : Setting) → A.tells around.now w
        → IfOk result (λ t. local_term_of t ≡ layer_around w layer (local_term_of rest)) }
{
    match layer {
        Layer::Condition(condition) => {
            let none = list(alloc, around, Vec::new(alloc))?;
            if_then_else(alloc, around, condition, rest, none)
        }
        Layer::Block(free, bounds) => block(alloc, around, free.as_slice(), bounds, rest),
    }
}
