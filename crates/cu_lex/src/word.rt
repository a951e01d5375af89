//! Words: names, keywords and operators.
ghost use Rattle.std.specs.Prelude.{◌≡◌, ◌↔◌, true, false, IfSome, IsNone, IsTrue, MatchOption};
ghost use Rattle.std.specs.List.{list_all};
ghost use Rattle.std.specs.Str.{byte};
ghost use Rattle.std.specs.Char.{is_ascii_uppercase};
ghost use Rattle.cu_lex.specs.Inside.Chains.{IsQualified};
ghost use Rattle.cu_lex.specs.Located.{characters};
ghost use Rattle.cu_lex.specs.Inside.Scanning.{class_of, con_id_kind, first_of, is_base, later, left, FindsWord, HasNoBase, HasNoVariable, IsLink, IsOfKind, IsWord};
ghost use Rattle.cu_lex.specs.Words.{begins_with, has_variable_form, is_colon, is_dash, is_dashes as all_dashes, is_name_character, is_run, is_symbol};

use crate::class::Class;
use crate::cursor::Cursor;
use crate::token::{Keyword, ReservedOperator};
use crate::words::{keyword, reserved_operator};

/// What a word is.
#[derive(Clone, Copy)]
pub enum WordKind {
    VarId,
    ConId,
    VarOp,
    ConOp,
    Keyword(Keyword),
    Reserved(ReservedOperator),
    /// Two or more dashes, with which a comment begins.
    Dashes,
}

/// A word that begins at a cursor, and what follows it.
#[derive(Clone, Copy)]
pub struct Word<'a> {
    pub kind: WordKind,
    pub end: Cursor<'a>,
}

/// The longest word without a qualifier.
pub fn unqualified(start: Cursor<'_>) -> Option<Word<'_>>
    ensures { FindsWord (left start.entry) result }
{
    if Class::Capital.begins(start) {
        return Some(constructor(start));
    }
    match operator(start) {
        Some(word) => Some(word),
        None => variable(start),
    }
}

fn constructor(start: Cursor<'_>) -> Word<'_>
    requires { begins_with is_ascii_uppercase (characters (left start)) ≡ true }
    ensures word { IsWord (left start.entry) result.kind (left result.end) }
    ensures kind { result.kind ≡ con_id_kind }
{
    Word {
        kind: WordKind::ConId,
        end: Class::Name.skip(start),
    }
}

fn variable(start: Cursor<'_>) -> Option<Word<'_>>
    ensures { MatchOption result (HasNoVariable (left start.entry))
        (λ w. IsWord (left start.entry) w.kind (left w.end)) }
{
    let letter = Class::Underscore.skip(start);
    if !Class::Small.begins(letter) {
        return None;
    }
    let end = Class::Name.skip(start);
    let kind = variable_kind(start.text_to(end));
    Some(Word { kind, end })
}

fn variable_kind(text: &str) -> WordKind
    requires { has_variable_form text.now ≡ true }
    ensures is { IsOfKind result text.now }
    ensures class { class_of result ≡ is_name_character }
{
    match keyword(text) {
        Some(word) => WordKind::Keyword(word),
        None => WordKind::VarId,
    }
}

fn operator(start: Cursor<'_>) -> Option<Word<'_>>
    ensures { MatchOption result (begins_with is_symbol (characters (left start.entry)) ≡ false)
        (λ w. IsWord (left start.entry) w.kind (left w.end)) }
{
    if !Class::Symbol.begins(start) {
        return None;
    }
    let end = Class::Symbol.skip(start);
    let kind = operator_kind(start.text_to(end));
    Some(Word { kind, end })
}

fn operator_kind(text: &str) -> WordKind
    requires { is_run is_symbol text.now ≡ true }
    ensures is { IsOfKind result text.now }
    ensures class { class_of result ≡ is_symbol }
{
    match reserved_operator(text) {
        Some(word) => return WordKind::Reserved(word),
        None => {}
    }
    if is_dashes(text) {
        return WordKind::Dashes;
    }
    if begins_with_colon(text) {
        return WordKind::ConOp;
    }
    WordKind::VarOp
}

/// Whether symbols are two or more dashes.
fn is_dashes(text: &str) -> bool
    ensures { result ≡ all_dashes text.now }
{
    if text.len() < 2 {
        return false;
    }
    has_only_dashes(text)
}

fn has_only_dashes(text: &str) -> bool
    ensures { result ≡ list_all is_dash text.now }
{
    text.bytes().all(|byte| byte == b'-')
}

fn begins_with_colon(text: &str) -> bool
    ensures { result ≡ begins_with is_colon text.now }
{
    let bytes = text.as_bytes();
    !bytes.is_empty() && bytes[0] == b':'
}

/// The longest qualified word at a capital letter.
#[derive(Clone, Copy)]
pub struct Qualified<'a> {
    /// The last dot that follows a qualifier, if there is one.
    pub dot: Option<Cursor<'a>>,
    /// Where the name or operator after the qualifier begins.
    pub base: Cursor<'a>,
    pub word: Word<'a>,
}

/// The longest qualified word at a capital letter.
pub fn qualified_at(start: Cursor<'_>) -> Qualified<'_>
    requires { begins_with is_ascii_uppercase (characters (left start)) ≡ true }
    ensures { IsQualified (left start.entry) result }
{
    let mut dot = None;
    let mut base = start;
    let mut word = constructor(start);
    while let Some(next) = after_dot(word.kind, word.end) {
        dot = Some(word.end);
        base = word.end.after();
        word = next;
    }
    Qualified { dot, base, word }
}

/// The name or operator that follows a ConId and a dot.
fn after_dot(kind: WordKind, end: Cursor<'_>) -> Option<Word<'_>>
    ensures none { IsNone result → kind ≡ con_id_kind → first_of (left end.entry) ≡ Some (byte ".")
        → HasNoBase (later (left end.entry)) }
    ensures some { IfSome result (IsLink kind (left end.entry)) }
{
    if !is_con_id(kind) || end.peek() != Some('.') {
        return None;
    }
    let next = unqualified(end.after())?;
    if is_base_kind(next.kind) {
        return Some(next);
    }
    None
}

fn is_con_id(kind: WordKind) -> bool
    ensures { IsTrue result ↔ (kind ≡ con_id_kind) }
{
    matches!(kind, WordKind::ConId)
}

fn is_base_kind(kind: WordKind) -> bool
    ensures { result ≡ is_base kind }
{
    match kind {
        WordKind::VarId | WordKind::ConId | WordKind::VarOp | WordKind::ConOp => true,
        WordKind::Keyword(_) | WordKind::Reserved(_) | WordKind::Dashes => false,
    }
}
