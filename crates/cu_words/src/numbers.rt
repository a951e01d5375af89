//! The numbers of options.
ghost use Rattle.std.specs.Prelude.{◌≡◌, ℕ, IfNone, IfSome};
ghost use Rattle.std.specs.List.{list_all};
ghost use Rattle.cu_words.specs.Names.{is_digit};
ghost use Rattle.cu_words.specs.Numbers.{IsIn, IsNumber};

/// The number that a text is, from `low` to `high`.
pub fn read_number(text: &str, low: u64, high: u64) -> Option<u64>
    ensures read { IfSome result (λ n. IsNumber low high text.now n) }
    ensures refused { IfNone result ((n : ℕ) → IsNumber low high text.now n → ⊥) }
{
    if text.len() > 19 || !has_only_digits(text) {
        return None;
    }
    match text.parse::<u64>() {
        Ok(number) => within(number, low, high),
        Err(_) => None,
    }
}

fn has_only_digits(text: &str) -> bool
    ensures { result ≡ list_all is_digit text.now }
{
    text.as_bytes().iter().all(|byte| byte.is_ascii_digit())
}

/// A number, where it is from `low` to `high`.
fn within(number: u64, low: u64, high: u64) -> Option<u64>
    ensures read { IfSome result (λ n. (n ≡ number) × IsIn low high n) }
    ensures refused { IfNone result (IsIn low high number → ⊥) }
{
    if low <= number && number <= high {
        Some(number)
    } else {
        None
    }
}
