//! Classes of tokens.
ghost use Rattle.std.specs.Prelude.{◌≡◌, ℕ, List};
ghost use Rattle.std.specs.Option.{option_map};
ghost use Rattle.cu_lex.specs.Reading.{kind_of, spelling_of};
ghost use Rattle.cu_peg.specs.Classes.{has_kind, is_special, mark_of, spelling_in};

use cu_lex::{Keyword, LayoutMark, Mark, Name, ReservedOperator, Special, Token, TokenKind};

/// What kind of name a token is.
#[derive(Clone, Copy, Debug, PartialEq, Eq)]
pub enum NameKind {
    /// A name that begins with a small letter.
    VarId,
    /// A name that begins with a capital letter.
    ConId,
    /// An operator that doesn't begin with a colon.
    VarOp,
    /// An operator that begins with a colon.
    ConOp,
}

/// A class of tokens, as a grammar of Curry names it.
#[derive(Clone, Copy, Debug, PartialEq, Eq)]
pub enum Class {
    /// A name of this kind without a qualifier.
    Unqualified(NameKind),
    /// A name of this kind, with a qualifier or without.
    Name(NameKind),
    /// An unqualified name that has this meaning in some places.
    Special(Special),
    /// A keyword.
    Keyword(Keyword),
    /// An operator that no program can declare.
    Reserved(ReservedOperator),
    /// A bracket or another mark. A brace or a semicolon is also one that the
    /// layout put in.
    Mark(Mark),
    /// An Int literal.
    Int,
    /// An Int literal from 0 to 9.
    Digit,
    /// A Char literal.
    Char,
    /// A String literal.
    String,
}

impl Class {
    /// Whether the class has a token.
    pub fn has(self, token: &Token) -> bool
        ensures { (names : List (List ℕ)) → result ≡ has_kind self (kind_of names token.now.kind) }
    {
        match (self, &token.kind) {
            (Class::Unqualified(expected), kind) => match name_of(expected, kind) {
                Some(name) => name.qualifier.is_none(),
                None => false,
            },
            (Class::Name(expected), kind) => name_of(expected, kind).is_some(),
            (Class::Special(expected), TokenKind::VarId(name)) => is_special(expected, name),
            (Class::Special(expected), TokenKind::VarOp(name)) => is_special(expected, name),
            (Class::Keyword(expected), TokenKind::Keyword(word)) => expected == *word,
            (Class::Reserved(expected), TokenKind::Reserved(word)) => expected == *word,
            (Class::Mark(expected), TokenKind::Mark(mark)) => expected == *mark,
            (Class::Mark(expected), TokenKind::Layout(mark)) => expected == mark_of(*mark),
            (Class::Int, TokenKind::Int(_)) => true,
            (Class::Digit, TokenKind::Int(n)) => 0 <= *n && *n < 10,
            (Class::Char, TokenKind::Char(_)) => true,
            (Class::String, TokenKind::String(_)) => true,
            _ => false,
        }
    }
}

/// The name that a token is, if it is one of this kind.
fn name_of(expected: NameKind, kind: &TokenKind) -> Option<Name>
    ensures { (names : List (List ℕ)) → option_map (spelling_of names) result
        ≡ spelling_in expected (kind_of names kind.now) }
{
    match (expected, kind) {
        (NameKind::VarId, TokenKind::VarId(name)) => Some(*name),
        (NameKind::ConId, TokenKind::ConId(name)) => Some(*name),
        (NameKind::VarOp, TokenKind::VarOp(name)) => Some(*name),
        (NameKind::ConOp, TokenKind::ConOp(name)) => Some(*name),
        _ => None,
    }
}

fn is_special(expected: Special, name: &Name) -> bool
    ensures { result ≡ is_special expected name.now.special }
{
    match name.special {
        Some(special) => expected == special,
        None => false,
    }
}

/// The mark of the text that a mark of the layout stands for.
fn mark_of(mark: LayoutMark) -> Mark
    ensures { result ≡ mark_of mark }
{
    match mark {
        LayoutMark::Open => Mark::OpenBrace,
        LayoutMark::Close => Mark::CloseBrace,
        LayoutMark::Separator => Mark::Semicolon,
    }
}
