//! Braces, lines and lengths of tokens.
ghost use Rattle.std.specs.Prelude.{◌≡◌, ◌<◌, ◌≤◌, ◌+◌, ◌-◌, ◌^◌, ◌&&◌, ℕ, IfSome, List, drop, length, map, nat_eq, nat_lt, take};
ghost use Rattle.cu_lex.specs.Reading.{kind_of, lexeme_of};
ghost use Rattle.cu_syntax.specs.Parsing.{after, closes, depth_after, first_line, is_long, is_written, item_length, opens, separates, token_length};
ghost use Rattle.cu_syntax.specs.Inside.Scanning.{first_open, is_within, last_line, part_end, room_after};

use cu_lex::{LayoutMark, Mark, Token, TokenKind};

/// The most tokens of an item.
const MAX_TOKENS: usize = 4096;

/// Where a part of a module's block ends.
#[derive(Clone, Copy)]
pub(crate) enum PartEnd {
    /// The part ends after so many tokens, at a semicolon.
    Separator(usize),
    /// The part ends after so many tokens, at the brace that closes the block.
    Close(usize),
    /// The part ends nowhere: the block isn't closed.
    Missing,
}

/// Whether a token is a brace that opens.
fn opens(kind: &TokenKind) -> bool
    ensures { (names : List (List ℕ)) → result ≡ opens (kind_of names kind.now) }
{
    matches!(
        kind,
        TokenKind::Mark(Mark::OpenBrace) | TokenKind::Layout(LayoutMark::Open)
    )
}

/// Whether a token is a brace that closes.
fn closes(kind: &TokenKind) -> bool
    ensures { (names : List (List ℕ)) → result ≡ closes (kind_of names kind.now) }
{
    matches!(
        kind,
        TokenKind::Mark(Mark::CloseBrace) | TokenKind::Layout(LayoutMark::Close)
    )
}

/// Whether a token is a semicolon.
fn separates(kind: &TokenKind) -> bool
    ensures { (names : List (List ℕ)) → result ≡ separates (kind_of names kind.now) }
{
    matches!(
        kind,
        TokenKind::Mark(Mark::Semicolon) | TokenKind::Layout(LayoutMark::Separator)
    )
}

/// Whether a token stands in the text, and layout didn't put it in.
fn is_written(kind: &TokenKind) -> bool
    ensures { (names : List (List ℕ)) → result ≡ is_written (kind_of names kind.now) }
{
    !matches!(kind, TokenKind::Layout(_))
}

/// The line of the first token of the text among these, or the line before.
pub(crate) fn first_line(before: u32, tokens: &[Token]) -> u32
    ensures { (names : List (List ℕ)) → result
        ≡ first_line before (map (lexeme_of names) tokens.now) }
{
    for token in tokens {
        if is_written(&token.kind) {
            return token.place.line;
        }
    }
    before
}

/// The tokens after the one of this number.
pub(crate) fn tokens_after(tokens: &[Token], number: usize) -> &[Token]
    requires { number < length tokens.now }
    ensures { result.now ≡ drop (number + 1) tokens.now }
{
    &tokens[number + 1..]
}

/// The line of the last token of the text up to the one of this number, or the
/// line before.
pub(crate) fn line_through(before: u32, tokens: &[Token], number: usize) -> u32
    requires { number < length tokens.now }
    ensures { (names : List (List ℕ)) → result
        ≡ last_line before (map (lexeme_of names) (take (number + 1) tokens.now)) }
{
    last_line(before, &tokens[..number + 1])
}

/// The line of the last token of the text among these, or the line before.
fn last_line(before: u32, tokens: &[Token]) -> u32
    ensures { (names : List (List ℕ)) → result
        ≡ last_line before (map (lexeme_of names) tokens.now) }
{
    let mut last = before;
    for token in tokens {
        last = line_after(last, token);
    }
    last
}

fn line_after(last: u32, token: &Token) -> u32
    ensures { (names : List (List ℕ)) → result ≡ after last (lexeme_of names token.now) }
{
    if is_written(&token.kind) {
        token.place.line
    } else {
        last
    }
}

/// Whether an item of these tokens is too long.
pub(crate) fn is_long(tokens: &[Token]) -> bool
    ensures { (names : List (List ℕ)) → result ≡ is_long (map (lexeme_of names) tokens.now) }
{
    is_longer(tokens, MAX_TOKENS)
}

/// Whether the length of these tokens is above a limit.
fn is_longer(tokens: &[Token], limit: usize) -> bool
    ensures { (names : List (List ℕ)) → result
        ≡ nat_lt limit (item_length (map (lexeme_of names) tokens.now)) }
{
    let mut room = limit;
    for token in tokens {
        let Some(left) = room_after(room, &token.kind) else {
            return true;
        };
        room = left;
    }
    false
}

/// The room that is left after a token, if there is room for it.
fn room_after(room: usize, kind: &TokenKind) -> Option<usize>
    ensures { (names : List (List ℕ)) → result
        ≡ room_after room (token_length (kind_of names kind.now)) }
{
    let characters = match kind {
        TokenKind::String(characters) => characters.len(),
        _ => 0,
    };
    room.checked_sub(1)?.checked_sub(characters)
}

/// The number of the first brace that opens.
pub(crate) fn first_open(tokens: &[Token]) -> Option<usize>
    ensures number { (names : List (List ℕ)) → result
        ≡ first_open (map (lexeme_of names) tokens.now) }
    ensures within { IfSome result (λ n. n < length tokens.now) }
{
    for (number, token) in tokens.iter().enumerate() {
        if opens(&token.kind) {
            return Some(number);
        }
    }
    None
}

/// Where the first part of what is left of a block ends. Braces inside the
/// part belong to it.
pub(crate) fn part_end(tokens: &[Token]) -> PartEnd
    ensures end { (names : List (List ℕ)) → result ≡ part_end 0 (map (lexeme_of names) tokens.now) }
    ensures within { is_within result (length tokens.now) }
{
    let mut depth = 0;
    for (number, token) in tokens.iter().enumerate() {
        if closes_block(depth, &token.kind) {
            return PartEnd::Close(number);
        }
        if ends_part(depth, &token.kind) {
            return PartEnd::Separator(number);
        }
        depth = depth_after(depth, &token.kind);
    }
    PartEnd::Missing
}

/// Whether a token closes the block, inside so many braces.
fn closes_block(depth: usize, kind: &TokenKind) -> bool
    ensures { (names : List (List ℕ)) → result
        ≡ (nat_eq depth 0 && closes (kind_of names kind.now)) }
{
    depth == 0 && closes(kind)
}

/// Whether a token ends a part of the block and begins the next, inside so
/// many braces.
fn ends_part(depth: usize, kind: &TokenKind) -> bool
    ensures { (names : List (List ℕ)) → result
        ≡ (nat_eq depth 0 && separates (kind_of names kind.now)) }
{
    depth == 0 && separates(kind)
}

/// How many braces are open after a token.
fn depth_after(depth: usize, kind: &TokenKind) -> usize
    requires { depth < 2 ^ 64 - 1 }
    ensures depth { (names : List (List ℕ)) → result ≡ depth_after depth (kind_of names kind.now) }
    ensures below { result ≤ depth + 1 }
{
    if opens(kind) {
        return depth + 1;
    }
    if closes(kind) {
        return depth.saturating_sub(1);
    }
    depth
}
