//! Numbers.
ghost use Rattle.std.specs.Prelude.{◌≡◌, ℕ, ◌+◌, ◌*◌, ◌<◌, [], ◌∷◌, codes, IfSome};
ghost use Rattle.std.specs.Option.{option_map};
ghost use Rattle.std.specs.Str.{byte};
ghost use Rattle.cu_lex.specs.Located.{characters};
ghost use Rattle.cu_lex.specs.Words.{entry, goes_on_with_number};
ghost use Rattle.cu_lex.specs.Inside.Scanning.{based_scan, cap, decimal_scan, digits, digits_from, found_number, held, number_scan, prefix_base, is_digit_of, left, skip, within};

use crate::class::{Class, digit_value};
use crate::cursor::Cursor;

/// A number, or none where it is too large, and what follows it.
#[derive(Clone, Copy)]
pub struct Number<'a> {
    pub value: Option<u128>,
    pub end: Cursor<'a>,
}

/// The longest number that begins at a digit. There is none where a dot and a
/// digit follow decimal digits.
pub fn number_at(start: Cursor<'_>) -> Option<Number<'_>>
    ensures { option_map found_number result ≡ option_map held (number_scan (left start.entry)) }
{
    match based_at(start) {
        Some(found) => Some(found),
        None => decimal_at(start),
    }
}

/// The number that begins with `0x`, `0o` or `0b`.
fn based_at(start: Cursor<'_>) -> Option<Number<'_>>
    ensures { option_map found_number result ≡ option_map held (based_scan (left start.entry)) }
{
    let base = base_at(start)?;
    let digits = start.after().after();
    if Class::Digit(base).begins(digits) {
        return Some(digits_at(digits, base));
    }
    None
}

fn base_at(start: Cursor<'_>) -> Option<u32>
    ensures base { result ≡ prefix_base (left start.entry) }
    ensures some { IfSome result (λ base. 0 < base) }
{
    let first = start.peek()?;
    let second = start.peek_second()?;
    if first != '0' {
        return None;
    }
    base_of(second)
}

fn base_of(letter: char) -> Option<u32>
    ensures base { result ≡ entry ((codes "0x", 16) ∷ (codes "0o", 8) ∷ (codes "0b", 2) ∷ [])
        (byte "0" ∷ letter ∷ []) }
    ensures some { IfSome result (λ base. 0 < base) }
{
    match letter {
        'x' => Some(16),
        'o' => Some(8),
        'b' => Some(2),
        _ => None,
    }
}

fn decimal_at(start: Cursor<'_>) -> Option<Number<'_>>
    ensures { option_map found_number result ≡ option_map held (decimal_scan (left start.entry)) }
{
    let found = digits_at(start, 10);
    if goes_on(found.end) {
        return None;
    }
    Some(found)
}

/// Whether another digit, or a dot and a digit, follow.
fn goes_on(end: Cursor<'_>) -> bool
    ensures { result ≡ goes_on_with_number (characters (left end.entry)) }
{
    match end.peek() {
        None => false,
        Some(c) => c.is_ascii_digit() || (c == '.' && Class::Decimal.begins(end.after())),
    }
}

/// The digits of a base, up to the first other character.
fn digits_at(start: Cursor<'_>, base: u32) -> Number<'_>
    requires { 0 < base }
    ensures value { result.value ≡ within (digits_from base 0 (digits base (left start.entry))) }
    ensures end { left result.end ≡ skip (is_digit_of base) (left start.entry) }
{
    let mut value = Some(0);
    let mut end = start;
    while let Some(c) = end.peek() {
        let digit = digit_value(c);
        if digit >= base {
            break;
        }
        value = with_digit(value, base, digit);
        end = end.after();
    }
    Number { value, end }
}

fn with_digit(value: Option<u128>, base: u32, digit: u32) -> Option<u128>
    requires { 0 < base }
    ensures { (n : ℕ) → value ≡ within n → result ≡ within (n * base + digit) }
{
    value?
        .checked_mul(u128::from(base))?
        .checked_add(u128::from(digit))
}

/// The code that digits of a base write, up to a limit that is no scalar value.
pub fn code_at(start: Cursor<'_>, base: u32) -> (u32, Cursor<'_>)
    requires { 0 < base }
    ensures code { result.0 ≡ cap (digits_from base 0 (digits base (left start.entry))) }
    ensures end { left result.1 ≡ skip (is_digit_of base) (left start.entry) }
{
    let found = digits_at(start, base);
    (code_of(found.value), found.end)
}

fn code_of(value: Option<u128>) -> u32
    ensures { (n : ℕ) → value ≡ within n → result ≡ cap n }
{
    match value {
        Some(value) => value.min(0x11_0000) as u32,
        None => 0x11_0000,
    }
}
