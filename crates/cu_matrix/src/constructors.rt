//! Which constructors are of one type.
ghost use Rattle.std.specs.Prelude.{◌≡◌};
ghost use Rattle.cu_calculus.specs.Choose.{same_type};
ghost use Rattle.cu_kernel.specs.Heads.{heads_program};

use cu_kernel::{ConId, Heads};

/// Whether two constructors are the program's and of one type.
pub fn of_one_type(heads: &Heads, constructor: ConId, other: ConId) -> bool
    ensures { result ≡ same_type (heads_program heads.now) constructor other }
{
    match heads.constructor(constructor) {
        Some(shape) => match heads.constructor(other) {
            Some(second) => shape.of_type == second.of_type,
            None => false,
        },
        None => false,
    }
}
