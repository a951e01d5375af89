//! Nested comments.
ghost use Rattle.std.specs.Prelude.{◌≡◌, ◌<◌, ◌^◌, ◌==◌, ◌&&◌};
ghost use Rattle.std.specs.Option.{option_map};
ghost use Rattle.std.specs.Str.{byte};
ghost use Rattle.cu_lex.specs.Inside.Scanning.{comment_end, left, StepsTo};

use crate::cursor::Cursor;

/// What is left after the comment whose `{-` stands before the start, if it is
/// closed.
pub fn after_comment(start: Cursor<'_>) -> Option<Cursor<'_>>
    ensures { option_map left result ≡ comment_end 1 (left start.entry) }
{
    let mut depth: usize = 1;
    let mut rest = start;
    while depth > 0 {
        let (next_depth, next) = step(depth, rest)?;
        depth = next_depth;
        rest = next;
    }
    Some(rest)
}

/// One step of the search for the end of a comment, where so many comments are
/// open: how many are open then, and what is left.
fn step(depth: usize, start: Cursor<'_>) -> Option<(usize, Cursor<'_>)>
    requires inside { 0 < depth }
    requires fits { depth < 2 ^ 32 }
    ensures { StepsTo depth (left start.entry) result }
{
    let first = start.peek()?;
    let rest = start.after();
    let second = rest.peek()?;
    if opens(first, second) {
        return Some((depth + 1, rest.after()));
    }
    if closes(first, second) {
        return Some((depth - 1, rest.after()));
    }
    Some((depth, rest))
}

fn opens(first: char, second: char) -> bool
    ensures { result ≡ (first == byte "{" && second == byte "-") }
{
    first == '{' && second == '-'
}

fn closes(first: char, second: char) -> bool
    ensures { result ≡ (first == byte "-" && second == byte "}") }
{
    first == '-' && second == '}'
}
