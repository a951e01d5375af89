//! Constructors by their numbers.
ghost use Rattle.std.specs.Prelude.{◌≡◌, map, option_map};
ghost use Rattle.cu_kernel.specs.Kernel.{constructor_at};
ghost use Rattle.cu_kernel.specs.KernelOf.{placed_meaning, type_meaning};

use crate::{ConId, Constructor, DataType, TypeId};

/// A constructor of a program, and its type.
#[derive(Clone, Copy)]
pub struct Placed<'a> {
    /// The type that declares the constructor.
    pub of_type: TypeId,
    /// The constructor's declaration.
    pub constructor: &'a Constructor,
}

/// The constructor with this number, where the types have one.
pub(crate) fn constructor_at(types: &[DataType], id: ConId) -> Option<Placed<'_>>
    ensures { option_map placed_meaning result ≡ constructor_at (map type_meaning types.now) id }
{
    let mut left = id.0;
    for (place, data_type) in types.iter().enumerate() {
        let constructors = data_type.constructors.as_slice();
        if left < constructors.len() {
            return Some(Placed {
                of_type: TypeId(place),
                constructor: &constructors[left],
            });
        }
        left -= constructors.len();
    }
    None
}
