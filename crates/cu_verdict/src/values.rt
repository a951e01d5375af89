//! The values of variables.
ghost use Rattle.std.specs.Prelude.{◌≡◌, IfOk};
ghost use Rattle.std.specs.List.{list_all};
ghost use Rattle.cu_calculus.specs.Match.{bind_all, empty};
ghost use Rattle.cu_calculus.specs.Shape.{is_total};
ghost use Rattle.cu_verdict.specs.Proved.{values_from};

use cu_values::Value;
use std::alloc::{AllocError, Global};

/// The value of a variable, by its bindings: that of the first one, and Bottom
/// where it has none.
fn value_of(alloc: Global, env: &[(u32, Value)], variable: usize) -> Result<Value, AllocError>
    ensures { IfOk result (λ value. value ≡ bind_all empty env.now variable) }
{
    for binding in env {
        if binding.0 as usize == variable {
            return binding.1.clone();
        }
    }
    Value::bottom(alloc)
}

/// The values of so many variables, counted from 0.
pub(crate) fn values_of(
    alloc: Global,
    env: &[(u32, Value)],
    count: usize,
) -> Result<Vec<Value>, AllocError>
    ensures { IfOk result (λ values. values.items ≡ values_from (bind_all empty env.now) 0 count) }
{
    let mut values = Vec::new(alloc);
    for variable in 0..count {
        let value = value_of(alloc, env, variable)?;
        values.push(value)?;
    }
    Ok(values)
}

/// Whether values are total.
pub(crate) fn are_total(values: &[Value]) -> bool
    ensures { result ≡ list_all is_total values.now }
{
    for value in values {
        if !value.is_total() {
            return false;
        }
    }
    true
}
