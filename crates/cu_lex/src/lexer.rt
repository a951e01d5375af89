//! The lexer.
ghost use Rattle.std.specs.Prelude.{◌≡◌, ◌↔◌, IsTrue, ◌==◌, ◌&&◌, pos, ℕ, List, true, All, IfErr, IfOk, OnOk};
ghost use Rattle.std.specs.Char.{is_ascii_digit};
ghost use Rattle.cu_lex.specs.declared.fault.LexFault.TheVariants.{NoMemory};
ghost use Rattle.cu_int.specs.Integers.{checked};
ghost use Rattle.cu_lex.specs.Inside.Lexing.{first_mark, is_mark, FindsPiece, IsNamed, IsPlain, IsSpelled, Lexes, OpensComment, with_token};
ghost use Rattle.cu_lex.specs.Located.{characters};
ghost use Rattle.cu_lex.specs.Inside.Scanning.{first_of, is_underscore, left, within, HasNoVariable, HasNoWord};
ghost use Rattle.cu_lex.specs.Words.{begins_with};
ghost use Rattle.cu_names.specs.Texts.{AllDiffer, Extends};
ghost use Rattle.cu_lex.specs.Reading.{Gives, IsTokenOf, Tells, is_written};
ghost use Rattle.cu_lex.specs.Tokens.{tokens};

use crate::LexFault;
use crate::class::Class;
use crate::comment::after_comment;
use crate::cursor::Cursor;
use crate::decoding::fault_offset;
use crate::literal::{CharLiteral, Literal, char_literal, string_literal};
use crate::number::number_at;
use crate::token::{Mark, Name, Token, TokenKind};
use crate::word::{Qualified, Word, WordKind, qualified_at, unqualified};
use crate::words::{mark, special};
use cu_int::Int;
use cu_names::{NameId, Names, Place};
use std::alloc::Global;

/// The most bytes of a text.
const MAX_TEXT_BYTES: usize = 16_777_216;
/// The least natural number that no Int holds.
const FIRST_BEYOND_INT: u128 = 1 << 127;

/// The tokens of a module's text.
pub fn lex(
    alloc: Global,
    names: &mut Names,
    module: NameId,
    bytes: &[u8],
) -> Result<Vec<Token>, LexFault>
    ensures tokens { IfOk result (λ found. Gives names.new found.items (tokens bytes.now)) }
    ensures owned { IfOk result (λ found. All (IsTokenOf «module» names.new) found.items) }
    ensures written { IfOk result (λ found. All (λ t. is_written t.kind ≡ true) found.items) }
    ensures fault { IfErr result (λ fault. Tells «module» fault (tokens bytes.now)) }
    ensures names { Extends names.old names.new }
    ensures differ { AllDiffer names.old → AllDiffer names.new }
{
    if bytes.len() > MAX_TEXT_BYTES {
        return Err(LexFault::SourceTooBig);
    }
    let text = match str::from_utf8(bytes) {
        Ok(text) => text,
        Err(error) => {
            let offset = fault_offset(alloc, bytes, error.valid_up_to())?;
            return Err(LexFault::NotUtf8(offset));
        }
    };
    let mut tokens = Vec::new(alloc);
    let mut rest = Cursor::new(text);
    let mut after_underscore = false;
    while let Some(first) = rest.peek() {
        let (kind, next) = piece(alloc, names, module, rest, after_underscore)?;
        after_underscore = is_lone_underscore(first, &kind);
        add_token(&mut tokens, kind, rest.place(module))?;
        rest = next;
    }
    Ok(tokens)
}

/// Whether a piece that begins with this character is an underscore by itself.
fn is_lone_underscore(first: char, kind: &Option<TokenKind>) -> bool
    ensures { result ≡ (is_underscore first && is_mark kind.now) }
{
    first == '_' && matches!(kind, Some(TokenKind::Mark(_)))
}

/// Adds a token of a kind, if there is one.
fn add_token(tokens: &mut Vec<Token>, kind: Option<TokenKind>, place: Place) -> Result<(), LexFault>
    ensures ok { OnOk result (tokens.new.items ≡ with_token tokens.old.items kind place) }
    ensures err { IfErr result (λ fault. fault ≡ NoMemory) }
{
    let Some(kind) = kind else {
        return Ok(());
    };
    tokens.push(Token { kind, place })?;
    Ok(())
}

/// The token at the start of a text, or none for a blank, and what follows.
/// Right after an underscore that begins no name no name begins: so the
/// underscores of a run are passed once, and not from each of them.
fn piece<'a>(
    alloc: Global,
    names: &mut Names,
    module: NameId,
    start: Cursor<'a>,
    after_underscore: bool,
) -> Result<(Option<TokenKind>, Cursor<'a>), LexFault>
    requires { after_underscore ≡ true → HasNoVariable (left start) }
    ensures lexes { Lexes «module» names.new (left start.entry) result }
    ensures names { Extends names.old names.new }
    ensures differ { AllDiffer names.old → AllDiffer names.new }
{
    if after_underscore && start.peek() == Some('_') {
        return mark_at(module, start);
    }
    if Class::Separator.begins(start) {
        return Ok((None, start.after()));
    }
    if Class::Capital.begins(start) {
        return name(names, start, qualified_at(start));
    }
    if Class::Decimal.begins(start) {
        return int(module, start);
    }
    if Class::Is('\'').begins(start) {
        return character(module, start);
    }
    if Class::Is('"').begins(start) {
        return string(alloc, module, start);
    }
    if opens_comment(start) {
        return comment(module, start);
    }
    match unqualified(start) {
        Some(word) => {
            let found = Qualified {
                dot: None,
                base: start,
                word,
            };
            name(names, start, found)
        }
        None => mark_at(module, start),
    }
}

fn opens_comment(start: Cursor<'_>) -> bool
    ensures { IsTrue result ↔ OpensComment (left start.entry) }
{
    start.peek() == Some('{') && start.peek_second() == Some('-')
}

fn comment(module: NameId, start: Cursor<'_>) -> Result<(Option<TokenKind>, Cursor<'_>), LexFault>
    requires opens { OpensComment (left start) }
    requires plain { IsPlain (left start) }
    ensures { (names : List (List ℕ)) → Lexes «module» names (left start.entry) result }
{
    match after_comment(start.after().after()) {
        Some(rest) => Ok((None, rest)),
        None => Err(LexFault::BadToken(start.place(module))),
    }
}

fn mark_at(module: NameId, start: Cursor<'_>) -> Result<(Option<TokenKind>, Cursor<'_>), LexFault>
    requires plain { IsPlain (left start) }
    requires words { HasNoWord (left start) }
    requires comments { ¬ (OpensComment (left start)) }
    ensures { (names : List (List ℕ)) → Lexes «module» names (left start.entry) result }
{
    match first_mark(start) {
        Some(mark) => Ok((Some(TokenKind::Mark(mark)), start.after())),
        None => Err(LexFault::BadToken(start.place(module))),
    }
}

/// The mark that the first character is, if it is one.
fn first_mark(start: Cursor<'_>) -> Option<Mark>
    ensures { result ≡ first_mark (left start.entry) }
{
    mark(start.peek()?)
}

fn name<'a>(
    names: &mut Names,
    start: Cursor<'a>,
    found: Qualified<'a>,
) -> Result<(Option<TokenKind>, Cursor<'a>), LexFault>
    requires { IsNamed (left start) found }
    ensures ok { IfOk result (FindsPiece names.new (left start.entry)) }
    ensures err { IfErr result (λ fault. fault ≡ NoMemory) }
    ensures names { Extends names.old names.new }
    ensures differ { AllDiffer names.old → AllDiffer names.new }
{
    let Word { kind, end } = found.word;
    let kind = match kind {
        WordKind::Dashes => return Ok((None, Class::InLine.skip(end))),
        WordKind::Keyword(word) => TokenKind::Keyword(word),
        WordKind::Reserved(word) => TokenKind::Reserved(word),
        WordKind::VarId => TokenKind::VarId(spelling(names, start, found)?),
        WordKind::ConId => TokenKind::ConId(spelling(names, start, found)?),
        WordKind::VarOp => TokenKind::VarOp(spelling(names, start, found)?),
        WordKind::ConOp => TokenKind::ConOp(spelling(names, start, found)?),
    };
    Ok((Some(kind), end))
}

fn spelling<'a>(
    names: &mut Names,
    start: Cursor<'a>,
    found: Qualified<'a>,
) -> Result<Name, LexFault>
    requires { IsNamed (left start) found }
    ensures ok { IfOk result (IsSpelled names.new (left start.entry) found.entry) }
    ensures err { IfErr result (λ fault. fault ≡ NoMemory) }
    ensures names { Extends names.old names.new }
    ensures differ { AllDiffer names.old → AllDiffer names.new }
{
    let end = found.word.end;
    let whole = start.text_to(end);
    let text = names.intern(whole)?;
    let dot = match found.dot {
        None => {
            return Ok(Name {
                text,
                qualifier: None,
                base: text,
                special: special(whole),
            });
        }
        Some(dot) => dot,
    };
    let qualifier = names.intern(start.text_to(dot))?;
    let base = names.intern(found.base.text_to(end))?;
    Ok(Name {
        text,
        qualifier: Some(qualifier),
        base,
        special: None,
    })
}

fn int(module: NameId, start: Cursor<'_>) -> Result<(Option<TokenKind>, Cursor<'_>), LexFault>
    requires { begins_with is_ascii_digit (characters (left start)) ≡ true }
    ensures { (names : List (List ℕ)) → Lexes «module» names (left start.entry) result }
{
    let Some(found) = number_at(start) else {
        return Err(LexFault::BadToken(start.place(module)));
    };
    match int_value(found.value) {
        Some(value) => Ok((Some(TokenKind::Int(value)), found.end)),
        None => Err(LexFault::LiteralRange(start.place(module))),
    }
}

/// The value of a number that an Int holds.
fn int_value(value: Option<u128>) -> Option<Int>
    ensures { (n : ℕ) → value ≡ within n → result ≡ checked (pos n) }
{
    let value = value?;
    if value < FIRST_BEYOND_INT {
        return Some(value as Int);
    }
    None
}

fn character(module: NameId, start: Cursor<'_>) -> Result<(Option<TokenKind>, Cursor<'_>), LexFault>
    requires { begins_with (λ c. c == 39) (characters (left start)) ≡ true }
    ensures { (names : List (List ℕ)) → Lexes «module» names (left start.entry) result }
{
    match char_literal(start) {
        CharLiteral::Value(c, end) => Ok((Some(TokenKind::Char(c)), end)),
        CharLiteral::OutOfRange(at) => Err(LexFault::LiteralRange(at.place(module))),
        CharLiteral::Bad => Err(LexFault::BadToken(start.place(module))),
    }
}

fn string(
    alloc: Global,
    module: NameId,
    start: Cursor<'_>,
) -> Result<(Option<TokenKind>, Cursor<'_>), LexFault>
    requires { begins_with (λ c. c == 34) (characters (left start)) ≡ true }
    ensures { (names : List (List ℕ)) → Lexes «module» names (left start.entry) result }
{
    match string_literal(alloc, start)? {
        Literal::Value(value, end) => Ok((Some(TokenKind::String(value)), end)),
        Literal::OutOfRange(at) => Err(LexFault::LiteralRange(at.place(module))),
        Literal::Bad => Err(LexFault::BadToken(start.place(module))),
    }
}
