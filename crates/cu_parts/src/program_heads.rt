//! What the heads of a program take, before its functions have rules.
ghost use Rattle.std.specs.Prelude.{◌≡◌, IfOk, map};
ghost use Rattle.cu_kernel.specs.Kernel.{plain_function};
ghost use Rattle.cu_kernel.specs.KernelOf.{function_meaning};
ghost use Rattle.cu_kernel.specs.LocalKernelOf.{top_function_meaning};
ghost use Rattle.cu_kernel.specs.LocalValid.{without_rules};

use cu_kernel::{Body, Function, TopFunction};
use std::alloc::{AllocError, Global};

/// A function of the same name and arity, without rules.
fn without_rules(alloc: Global, function: &TopFunction) -> Function
    ensures { plain_function (function_meaning result)
        ≡ without_rules (top_function_meaning function.now) }
{
    Function {
        name: function.name,
        arity: function.arity,
        body: Body::Rules(Vec::new(alloc)),
    }
}

/// The top-level functions, without their rules.
pub(crate) fn heads_of(
    alloc: Global,
    functions: &[TopFunction],
) -> Result<Vec<Function>, AllocError>
    ensures { IfOk result (λ heads. map plain_function (map function_meaning heads.items)
        ≡ map without_rules (map top_function_meaning functions.now)) }
{
    let mut heads = Vec::new(alloc);
    for function in functions {
        heads.push(without_rules(alloc, function))?;
    }
    Ok(heads)
}
