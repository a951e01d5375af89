//! How a block has begun, as far as a comma asks.
ghost use Rattle.std.specs.Prelude.{◌≡◌};
ghost use Rattle.cu_layout.specs.Inside.Entries.{is_names, state_with};

use crate::form::Form;
use cu_lex::Mark;

/// What a block's tokens are since its last `{` or `;`.
#[derive(Clone, Copy, Debug)]
pub enum Begun {
    /// Names, operators in parentheses and commas alone.
    Names,
    /// Names, operators in parentheses and commas, and then an open
    /// parenthesis.
    Paren,
    /// Names, operators in parentheses and commas, and then an open parenthesis
    /// with an operator after it, which may be a name in backquotes.
    Operator,
    /// Names, operators in parentheses and commas, and then an open parenthesis
    /// with a backquote after it.
    Quote,
    /// Names, operators in parentheses and commas, and then an open parenthesis
    /// with a backquote and a name after it.
    Quoted,
    /// Any other tokens.
    Other,
}

impl Begun {
    /// How the block has begun after one more token. A semicolon begins its
    /// tokens anew.
    pub fn with(self, form: Form) -> Begun
        ensures { result ≡ state_with self form }
    {
        match (self, form) {
            (_, Form::Mark(Mark::Semicolon)) => Begun::Names,
            (Begun::Names, Form::Name) => Begun::Names,
            (Begun::Names, Form::Mark(Mark::Comma)) => Begun::Names,
            (Begun::Names, Form::Mark(Mark::OpenParen)) => Begun::Paren,
            (Begun::Paren, Form::Operator) => Begun::Operator,
            (Begun::Paren, Form::Mark(Mark::Backquote)) => Begun::Quote,
            (Begun::Quote, Form::Name) => Begun::Quoted,
            (Begun::Quoted, Form::Mark(Mark::Backquote)) => Begun::Operator,
            (Begun::Operator, Form::Mark(Mark::CloseParen)) => Begun::Names,
            _ => Begun::Other,
        }
    }

    /// Whether a comma after these tokens stands between variables.
    pub fn is_names(self) -> bool
        ensures { result ≡ is_names self }
    {
        matches!(self, Begun::Names)
    }
}
