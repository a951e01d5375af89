//! What layout sees of a token, and what a token opens and ends.
ghost use Rattle.std.specs.Prelude.{◌≡◌};
ghost use Rattle.cu_layout.specs.Forms.{goes_on, is_block_keyword, is_close_brace, is_comma, is_module, is_open_brace, is_where, token_form};
ghost use Rattle.cu_layout.specs.Rules.{is_partner};

use cu_lex::{Keyword, Mark, ReservedOperator, TokenKind};

/// What layout sees of a token.
#[derive(Clone, Copy, Debug)]
pub enum Form {
    Keyword(Keyword),
    Mark(Mark),
    /// `\`, which begins a lambda expression.
    Lambda,
    /// A name, qualified or not.
    Name,
    /// An operator that isn't reserved, qualified or not.
    Operator,
    /// Any other token.
    Other,
}

/// What stands open besides blocks and braces.
#[derive(Clone, Copy, Debug)]
pub enum Opening {
    Paren,
    Square,
    Let,
    If,
    Then,
    Else,
    /// `case` or `fcase`, before its `of`.
    Case,
    In,
    Lambda,
}

impl Form {
    /// The form of a token of this kind.
    pub fn of(kind: &TokenKind) -> Form
        ensures { result ≡ token_form kind.now }
    {
        match kind {
            TokenKind::VarId(_) => Form::Name,
            TokenKind::ConId(_) => Form::Name,
            TokenKind::VarOp(_) => Form::Operator,
            TokenKind::ConOp(_) => Form::Operator,
            TokenKind::Keyword(word) => Form::Keyword(*word),
            TokenKind::Reserved(ReservedOperator::Backslash) => Form::Lambda,
            TokenKind::Mark(mark) => Form::Mark(*mark),
            _ => Form::Other,
        }
    }

    pub fn is_module(self) -> bool
        ensures { result ≡ is_module self }
    {
        matches!(self, Form::Keyword(Keyword::Module))
    }

    pub fn is_where(self) -> bool
        ensures { result ≡ is_where self }
    {
        matches!(self, Form::Keyword(Keyword::Where))
    }

    pub fn is_open_brace(self) -> bool
        ensures { result ≡ is_open_brace self }
    {
        matches!(self, Form::Mark(Mark::OpenBrace))
    }

    pub fn is_close_brace(self) -> bool
        ensures { result ≡ is_close_brace self }
    {
        matches!(self, Form::Mark(Mark::CloseBrace))
    }

    pub fn is_comma(self) -> bool
        ensures { result ≡ is_comma self }
    {
        matches!(self, Form::Mark(Mark::Comma))
    }

    /// Whether a block is due after the token.
    pub fn is_block_keyword(self) -> bool
        ensures { result ≡ is_block_keyword self }
    {
        matches!(
            self,
            Form::Keyword(Keyword::Where) | Form::Keyword(Keyword::Let) | Form::Keyword(Keyword::Of)
        )
    }

    /// Whether the token goes on with an item where it stands on the column of
    /// the item's block.
    pub fn goes_on(self) -> bool
        ensures { result ≡ goes_on self }
    {
        match self {
            Form::Keyword(word) => matches!(
                word,
                Keyword::Then | Keyword::Else | Keyword::Of | Keyword::In
            ),
            Form::Mark(mark) => {
                matches!(mark, Mark::Comma | Mark::CloseParen | Mark::CloseSquare)
            }
            _ => false,
        }
    }

    /// Whether the token ends what an entry opened, or is a comma that stands
    /// in it.
    pub fn is_partner(self, opening: Opening) -> bool
        ensures { result ≡ is_partner self opening }
    {
        match (self, opening) {
            (Form::Keyword(Keyword::In), Opening::Let) => true,
            (Form::Keyword(Keyword::Then), Opening::If) => true,
            (Form::Keyword(Keyword::Else), Opening::Then) => true,
            (Form::Keyword(Keyword::Of), Opening::Case) => true,
            (Form::Mark(Mark::CloseParen), Opening::Paren) => true,
            (Form::Mark(Mark::CloseSquare), Opening::Square) => true,
            (Form::Mark(Mark::Comma), Opening::Paren) => true,
            (Form::Mark(Mark::Comma), Opening::Square) => true,
            _ => false,
        }
    }
}
