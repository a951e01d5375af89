//! The tables of words.
ghost use Rattle.std.specs.Prelude.{◌≡◌, [], ◌∷◌};
ghost use Rattle.cu_lex.specs.Pieces.{special_of};
ghost use Rattle.cu_lex.specs.Words.{keyword_of, mark_of, reserved_of};

use crate::token::{Keyword, Mark, ReservedOperator, Special};

#[tactic(auto, unfolding(crate::specs::Words::keyword_of))]
pub fn keyword(text: &str) -> Option<Keyword>
    ensures { result ≡ keyword_of text.now }
{
    match text {
        "case" => Some(Keyword::Case),
        "data" => Some(Keyword::Data),
        "do" => Some(Keyword::Do),
        "else" => Some(Keyword::Else),
        "external" => Some(Keyword::External),
        "fcase" => Some(Keyword::Fcase),
        "foreign" => Some(Keyword::Foreign),
        "free" => Some(Keyword::Free),
        "if" => Some(Keyword::If),
        "import" => Some(Keyword::Import),
        "in" => Some(Keyword::In),
        "infix" => Some(Keyword::Infix),
        "infixl" => Some(Keyword::Infixl),
        "infixr" => Some(Keyword::Infixr),
        "let" => Some(Keyword::Let),
        "module" => Some(Keyword::Module),
        "newtype" => Some(Keyword::Newtype),
        "of" => Some(Keyword::Of),
        "then" => Some(Keyword::Then),
        "type" => Some(Keyword::Type),
        "where" => Some(Keyword::Where),
        _ => None,
    }
}

#[tactic(auto, unfolding(crate::specs::Words::reserved_of))]
pub fn reserved_operator(text: &str) -> Option<ReservedOperator>
    ensures { result ≡ reserved_of text.now }
{
    match text {
        ".." => Some(ReservedOperator::DotDot),
        "::" => Some(ReservedOperator::DoubleColon),
        "=" => Some(ReservedOperator::Equals),
        "\\" => Some(ReservedOperator::Backslash),
        "|" => Some(ReservedOperator::Bar),
        "<-" => Some(ReservedOperator::LeftArrow),
        "->" => Some(ReservedOperator::RightArrow),
        "@" => Some(ReservedOperator::At),
        "~" => Some(ReservedOperator::Tilde),
        _ => None,
    }
}

#[tactic(auto, unfolding(crate::specs::Words::mark_of))]
pub fn mark(c: char) -> Option<Mark>
    ensures { result ≡ mark_of (c ∷ []) }
{
    match c {
        '(' => Some(Mark::OpenParen),
        ')' => Some(Mark::CloseParen),
        '[' => Some(Mark::OpenSquare),
        ']' => Some(Mark::CloseSquare),
        '{' => Some(Mark::OpenBrace),
        '}' => Some(Mark::CloseBrace),
        ',' => Some(Mark::Comma),
        ';' => Some(Mark::Semicolon),
        '`' => Some(Mark::Backquote),
        '_' => Some(Mark::Underscore),
        _ => None,
    }
}

#[tactic(auto, unfolding(crate::specs::Pieces::special_of))]
pub fn special(text: &str) -> Option<Special>
    ensures { result ≡ special_of text.now }
{
    match text {
        "qualified" => Some(Special::Qualified),
        "as" => Some(Special::As),
        "hiding" => Some(Special::Hiding),
        "-" => Some(Special::Minus),
        _ => None,
    }
}
