//! Curry's integers, and their division rounded towards minus infinity.
#![tactic(auto)]

ghost use Rattle.std.specs.Prelude.{◌≡◌, ◌≢◌, pos};
ghost use Rattle.cu_int.specs.Integers.{checked, floor_quotient, floor_rest, is_uneven};

/// An integer of the language: 128 bits with a sign.
pub type Int = i128;

/// Whether division towards zero leaves a rest of the other sign than the
/// divisor's.
fn is_uneven(m: Int, n: Int) -> bool
    requires { n ≢ pos 0 }
    ensures { result ≡ is_uneven m n }
{
    let rest = m.wrapping_rem(n);
    (rest < 0 && n >= 0) || (0 < rest && n < 0)
}

/// The quotient rounded towards minus infinity, as the Prelude's `div` has
/// it; None where it is no `Int`, which is `Int::MIN` divided by -1.
pub fn floor_quotient(m: Int, n: Int) -> Option<Int>
    requires { n ≢ pos 0 }
    ensures { result ≡ checked (floor_quotient m n) }
{
    let quotient = m.checked_div(n)?;
    if is_uneven(m, n) {
        quotient.checked_sub(1)
    } else {
        Some(quotient)
    }
}

/// The rest of that division, as the Prelude's `mod` has it. It has the sign
/// of the divisor.
pub fn floor_rest(m: Int, n: Int) -> Int
    requires { n ≢ pos 0 }
    ensures { result ≡ floor_rest m n }
{
    let rest = m.wrapping_rem(n);
    if is_uneven(m, n) { rest + n } else { rest }
}
