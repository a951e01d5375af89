//! Classes of characters.
ghost use Rattle.std.specs.Prelude.{◌≡◌};
ghost use Rattle.std.specs.Char.{digit_value as value_of_digit};
ghost use Rattle.cu_lex.specs.Words.{is_name_character as is_of_name, is_separator as separates, is_symbol as is_of_operator};

use crate::cursor::Cursor;

/// A class of characters.
#[derive(Clone, Copy)]
pub enum Class {
    /// Letters, digits, underscores and primes.
    Name,
    Symbol,
    Capital,
    Small,
    Decimal,
    Separator,
    /// This character alone.
    Is(char),
    Underscore,
    /// Digits of a base up to 16.
    Digit(u32),
    /// Any character but the line feed.
    InLine,
}

impl Class {
    ghost use Rattle.std.specs.Prelude.{MatchOption, false};
    ghost use Rattle.cu_lex.specs.Located.{characters};
    ghost use Rattle.cu_lex.specs.Inside.Scanning.{has, left, skip};
    ghost use Rattle.cu_lex.specs.Words.{begins_with};

    /// Whether a character is of the class.
    pub fn has(self, c: char) -> bool
        ensures { result ≡ has self c }
    {
        match self {
            Class::Name => is_name_character(c),
            Class::Symbol => is_symbol(c),
            Class::Capital => c.is_ascii_uppercase(),
            Class::Small => c.is_ascii_lowercase(),
            Class::Decimal => c.is_ascii_digit(),
            Class::Separator => is_separator(c),
            Class::Is(other) => c == other,
            Class::Underscore => c == '_',
            Class::Digit(base) => digit_value(c) < base,
            Class::InLine => c != '\n',
        }
    }

    /// Whether the first character left is of the class.
    pub fn begins(self, cursor: Cursor) -> bool
        ensures { result ≡ begins_with (has self) (characters (left cursor.entry)) }
    {
        match cursor.peek() {
            Some(c) => self.has(c),
            None => false,
        }
    }

    /// What is left after the first characters that are of the class.
    pub fn skip(self, cursor: Cursor<'_>) -> Cursor<'_>
        ensures { left result ≡ skip (has self) (left cursor.entry) }
    {
        let mut rest = cursor;
        while self.begins(rest) {
            rest = rest.after();
        }
        rest
    }
}

/// What a digit stands for, and 36 where there is no digit.
pub fn digit_value(c: char) -> u32
    ensures { result ≡ value_of_digit c }
{
    match c.to_digit(36) {
        Some(value) => value,
        None => 36,
    }
}

#[tactic(auto, unfolding(crate::specs::Words::is_separator))]
pub fn is_separator(c: char) -> bool
    ensures { result ≡ separates c }
{
    " \t\r\n\x0C"
        .bytes()
        .any(|separator| c == char::from(separator))
}

#[tactic(auto, unfolding(crate::specs::Words::is_name_character))]
fn is_name_character(c: char) -> bool
    ensures { result ≡ is_of_name c }
{
    c.is_ascii_alphanumeric() || c == '_' || c == '\''
}

#[tactic(auto, unfolding(crate::specs::Words::is_symbol))]
pub fn is_symbol(c: char) -> bool
    ensures { result ≡ is_of_operator c }
{
    "~!@#$%^&*+-=<>?./|\\:"
        .bytes()
        .any(|symbol| c == char::from(symbol))
}
