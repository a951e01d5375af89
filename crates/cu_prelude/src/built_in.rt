//! Built-in modules by their names.
ghost use Rattle.std.specs.Prelude.{◌≡◌};
ghost use Rattle.std.specs.Option.{option_map};
ghost use Rattle.cu_prelude.specs.BuiltIn.{built_in};

use crate::{PRELUDE, SET_FUNCTIONS};

/// The text of a built-in module: that of `Prelude` or of `SetFunctions`, and
/// of no other.
pub fn text(module: &str) -> Option<&'static str>
    ensures { option_map (λ t. t.now) result ≡ built_in «module».now }
{
    match module {
        "Prelude" => Some(PRELUDE),
        "SetFunctions" => Some(SET_FUNCTIONS),
        _ => None,
    }
}
