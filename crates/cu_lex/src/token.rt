//! Tokens and their kinds.
ghost use Rattle.std.specs.Prelude.{◌≡◌, IfOk};

use crate::Characters;
use cu_int::Int;
use cu_names::{NameId, Place};
use std::alloc::{AllocError, Global};

/// A token, at the place of its first character.
#[derive(Debug, Drop)]
pub struct Token {
    pub kind: TokenKind,
    pub place: Place,
}

impl Token {
    /// A copy of the token. Only the characters of a string take memory.
    pub fn copy(&self, alloc: Global) -> Result<Token, AllocError>
        ensures { IfOk result (λ copy. copy ≡ self.now) }
    {
        let kind = self.kind.copy(alloc)?;
        Ok(Token {
            kind,
            place: self.place,
        })
    }
}

/// What a token is.
#[derive(Debug, Drop)]
pub enum TokenKind {
    /// A name that begins with a small letter, after any underscores; qualified
    /// or not.
    VarId(Name),
    /// A name that begins with a capital letter, qualified or not.
    ConId(Name),
    /// An operator that doesn't begin with a colon, qualified or not.
    VarOp(Name),
    /// An operator that begins with a colon, qualified or not.
    ConOp(Name),
    Keyword(Keyword),
    Reserved(ReservedOperator),
    Mark(Mark),
    /// A number without a sign, from 0 to `Int::MAX`. `lex` gives no other.
    Int(Int),
    Char(char),
    String(Characters),
    /// A brace or semicolon that the layout rules put in. The lexer gives none.
    Layout(LayoutMark),
}

impl TokenKind {
    fn copy(&self, alloc: Global) -> Result<TokenKind, AllocError>
        ensures { IfOk result (λ copy. copy ≡ self.now) }
    {
        Ok(match self {
            TokenKind::VarId(name) => TokenKind::VarId(*name),
            TokenKind::ConId(name) => TokenKind::ConId(*name),
            TokenKind::VarOp(name) => TokenKind::VarOp(*name),
            TokenKind::ConOp(name) => TokenKind::ConOp(*name),
            TokenKind::Keyword(word) => TokenKind::Keyword(*word),
            TokenKind::Reserved(word) => TokenKind::Reserved(*word),
            TokenKind::Mark(mark) => TokenKind::Mark(*mark),
            TokenKind::Int(number) => TokenKind::Int(*number),
            TokenKind::Char(character) => TokenKind::Char(*character),
            TokenKind::String(characters) => TokenKind::String(characters.copy(alloc)?),
            TokenKind::Layout(mark) => TokenKind::Layout(*mark),
        })
    }
}

/// A name or an operator, as `Data.List.map`, with its parts.
#[derive(Clone, Copy, Debug, PartialEq, Eq)]
pub struct Name {
    /// The whole text: `Data.List.map`.
    pub text: NameId,
    /// The module name before the name, if it is qualified: `Data.List`.
    pub qualifier: Option<NameId>,
    /// The text without the qualifier: `map`.
    pub base: NameId,
    /// Which of the texts with a meaning of their own in some places the name
    /// is.
    pub special: Option<Special>,
}

/// The names that are no keywords and yet mean something in some places.
#[derive(Clone, Copy, Debug, PartialEq, Eq)]
pub enum Special {
    Qualified,
    As,
    Hiding,
    /// The operator `-`.
    Minus,
}

/// The keywords.
#[derive(Clone, Copy, Debug, PartialEq, Eq)]
pub enum Keyword {
    Case,
    Data,
    Do,
    Else,
    External,
    Fcase,
    Foreign,
    Free,
    If,
    Import,
    In,
    Infix,
    Infixl,
    Infixr,
    Let,
    Module,
    Newtype,
    Of,
    Then,
    Type,
    Where,
}

/// The operators that no program can declare.
#[derive(Clone, Copy, Debug, PartialEq, Eq)]
pub enum ReservedOperator {
    /// `..`
    DotDot,
    /// `::`
    DoubleColon,
    /// `=`
    Equals,
    /// `\`
    Backslash,
    /// `|`
    Bar,
    /// `<-`
    LeftArrow,
    /// `->`
    RightArrow,
    /// `@`
    At,
    /// `~`
    Tilde,
}

/// Brackets and other marks of one character.
#[derive(Clone, Copy, Debug, PartialEq, Eq)]
pub enum Mark {
    OpenParen,
    CloseParen,
    OpenSquare,
    CloseSquare,
    OpenBrace,
    CloseBrace,
    Comma,
    Semicolon,
    Backquote,
    Underscore,
}

/// What the layout rules put between the tokens of a text.
#[derive(Clone, Copy, Debug, PartialEq, Eq)]
pub enum LayoutMark {
    /// The brace that opens a block.
    Open,
    /// The brace that closes a block.
    Close,
    /// The semicolon between two items of a block.
    Separator,
}
