//! Character and string literals.
ghost use Rattle.std.specs.Prelude.{◌≡◌, ℕ, ◌<◌, [], ◌∷◌, Some, IfOk, unwrap_or};
ghost use Rattle.std.specs.Option.{option_map};
ghost use Rattle.cu_lex.specs.Inside.Items.{capped, so_far, Adds, escape_scan, item_scan, numeric_scan, read_item, IsCharLiteral, IsString};
ghost use Rattle.cu_lex.specs.Literals.{short_escape as escape_of};
ghost use Rattle.cu_lex.specs.Inside.Scanning.{left, position};

use crate::Characters;
use crate::class::Class;
use crate::cursor::Cursor;
use crate::number::code_at;
use std::alloc::{AllocError, Global};

/// What a literal is worth.
#[derive(Drop)]
pub enum Literal<'a> {
    /// The characters of the literal, and what follows it.
    Value(Characters, Cursor<'a>),
    /// The place of the first escape that stands for no character.
    OutOfRange(Cursor<'a>),
    /// No such literal begins here.
    Bad,
}

/// An item of a literal.
#[derive(Clone, Copy)]
struct Item<'a> {
    /// The code that the item stands for, if it stands for one.
    code: Option<u32>,
    /// What follows the item.
    end: Cursor<'a>,
}

/// The string literal that begins at a quote.
pub fn string_literal(alloc: Global, start: Cursor<'_>) -> Result<Literal<'_>, AllocError>
    ensures { IfOk result (IsString (left start.entry)) }
{
    let mut value = Characters::new(alloc);
    let mut bad = None;
    let mut rest = start.after();
    while rest.peek() != Some('"') {
        let Some(item) = item_at(rest, '"') else {
            return Ok(Literal::Bad);
        };
        bad = add_code(&mut value, bad, item.code, rest)?;
        rest = item.end;
    }
    match bad {
        Some(at) => Ok(Literal::OutOfRange(at)),
        None => Ok(Literal::Value(value, rest.after())),
    }
}

/// Adds a code at a place to the value of a literal. Gives the first place that
/// is out of range.
fn add_code<'a>(
    value: &mut Characters,
    bad: Option<Cursor<'a>>,
    code: Option<u32>,
    at: Cursor<'a>,
) -> Result<Option<Cursor<'a>>, AllocError>
    ensures { IfOk result (λ found. Adds (so_far value.old bad.entry) code (position at.entry)
        (so_far value.new found)) }
{
    let Some(code) = code else {
        return Ok(bad);
    };
    match char::from_u32(code) {
        Some(c) => {
            value.push(c)?;
            Ok(bad)
        }
        None => Ok(first_place(bad, at)),
    }
}

fn first_place<'a>(bad: Option<Cursor<'a>>, at: Cursor<'a>) -> Option<Cursor<'a>>
    ensures { result ≡ Some (unwrap_or bad.entry at.entry) }
{
    match bad {
        Some(first) => Some(first),
        None => Some(at),
    }
}

/// What a character literal is worth.
#[derive(Clone, Copy)]
pub enum CharLiteral<'a> {
    Value(char, Cursor<'a>),
    OutOfRange(Cursor<'a>),
    Bad,
}

/// The character literal that begins at a quote.
pub fn char_literal(start: Cursor<'_>) -> CharLiteral<'_>
    ensures { IsCharLiteral (left start.entry) result }
{
    let inside = start.after();
    let Some(item) = item_at(inside, '\'') else {
        return CharLiteral::Bad;
    };
    let Some(code) = item.code else {
        return CharLiteral::Bad;
    };
    if item.end.peek() != Some('\'') {
        return CharLiteral::Bad;
    }
    match char::from_u32(code) {
        Some(c) => CharLiteral::Value(c, item.end.after()),
        None => CharLiteral::OutOfRange(inside),
    }
}

fn item_at(start: Cursor<'_>, quote: char) -> Option<Item<'_>>
    ensures { option_map read_item result ≡ option_map capped (item_scan quote (left start.entry)) }
{
    let c = start.peek()?;
    if c == '\\' {
        return escape(start.after());
    }
    if c == quote || c.is_ascii_control() {
        return None;
    }
    Some(Item {
        code: Some(c as u32),
        end: start.after(),
    })
}

/// The escape whose backslash stands before the start.
fn escape(start: Cursor<'_>) -> Option<Item<'_>>
    ensures { option_map read_item result ≡ option_map capped (escape_scan (left start.entry)) }
{
    let c = start.peek()?;
    let end = start.after();
    if c == '&' {
        return Some(Item { code: None, end });
    }
    if c == 'x' {
        return numeric(end, 16);
    }
    if c == 'o' {
        return numeric(end, 8);
    }
    match short_escape(c) {
        Some(code) => Some(Item {
            code: Some(code),
            end,
        }),
        None => numeric(start, 10),
    }
}

fn numeric(start: Cursor<'_>, base: u32) -> Option<Item<'_>>
    requires { 0 < base }
    ensures { option_map read_item result
        ≡ option_map capped (numeric_scan base (left start.entry)) }
{
    if !Class::Digit(base).begins(start) {
        return None;
    }
    let (code, end) = code_at(start, base);
    Some(Item {
        code: Some(code),
        end,
    })
}

#[tactic(auto, unfolding(crate::specs::Literals::short_escape))]
fn short_escape(c: char) -> Option<u32>
    ensures { result ≡ escape_of (c ∷ []) }
{
    match c {
        'n' => Some(0x0A),
        't' => Some(0x09),
        'r' => Some(0x0D),
        'a' => Some(0x07),
        'b' => Some(0x08),
        'f' => Some(0x0C),
        'v' => Some(0x0B),
        '\\' => Some(0x5C),
        '\'' => Some(0x27),
        '"' => Some(0x22),
        _ => None,
    }
}
