//! What is left of a text, and the place where it begins.
ghost use Rattle.std.specs.Prelude.{IsTrue, ◌+◌, ◌*◌, ◌<◌, ◌^◌, length};
ghost use Rattle.std.specs.Str.{is_utf8};

use cu_names::{NameId, Place};

/// What is left of a text, and the place where it begins.
#[derive(Clone, Copy)]
pub struct Cursor<'a> {
    text: &'a str,
    line: u32,
    column: u32,
    ghost utf8: { IsTrue (is_utf8 text.now) },
    ghost lines: { line + length text.now < 2 ^ 25 },
    ghost columns: { column + 8 * length text.now < 2 ^ 28 },
}

const BYTE_ORDER_MARK: char = '\u{feff}';
/// How far apart tab stops are.
const TAB: u32 = 8;

impl<'a> Cursor<'a> {
    ghost use Rattle.std.specs.Prelude.{◌≡◌, ◌≤◌, ◌++◌, List, ◌∷◌};
    ghost use Rattle.std.specs.Str.{chars};
    ghost use lib.Utf8.{encodes};
    ghost use Rattle.cu_lex.specs.Located.{Located, located, characters};
    ghost use Rattle.cu_lex.specs.Reading.{position_of};
    ghost use Rattle.cu_lex.specs.Inside.Scanning.{left, position, first_of, later, EndsIn};

    /// The cursor at the start of a text, after a byte order mark, if it has
    /// one.
    pub fn new(text: &'a str) -> Self
        requires { length text.now ≤ 16777216 }
        ensures { left result ≡ located (chars text.now) }
    {
        let start = Cursor {
            text,
            line: 1,
            column: 1,
        };
        if start.peek() == Some(BYTE_ORDER_MARK) {
            return Cursor {
                text: start.after().text,
                line: 1,
                column: 1,
            };
        }
        start
    }

    /// The first character.
    pub fn peek(self) -> Option<char>
        ensures { result ≡ first_of (left self.entry) }
    {
        self.text.chars().next()
    }

    /// The character after the first.
    pub fn peek_second(self) -> Option<char>
        ensures { result ≡ first_of (later (left self.entry)) }
    {
        self.after().peek()
    }

    /// The cursor after the first character, if there is one.
    pub fn after(self) -> Self
        ensures left { left result ≡ later (left self.entry) }
        ensures shorter { length result.text.now ≤ length self.entry.text.now }
    {
        let mut chars = self.text.chars();
        let Some(first) = chars.next() else {
            return self;
        };
        let text = chars.as_str();
        let (line, column) = if first == '\n' {
            (self.line + 1, 1)
        } else if first == '\t' {
            (self.line, (self.column + (TAB - 1)) / TAB * TAB + 1)
        } else {
            (self.line, self.column + 1)
        };
        Cursor { text, line, column }
    }

    /// The text from here to a later cursor.
    pub fn text_to(self, end: Cursor<'a>) -> &'a str
        requires { EndsIn (left self) (left end) }
        ensures { (prefix : List Located) → prefix ++ left end.entry ≡ left self.entry
            → result.now ≡ encodes (characters prefix) }
    {
        &self.text[..self.text.len() - end.text.len()]
    }

    /// The place of the cursor, in a module.
    pub fn place(self, module: NameId) -> Place
        ensures owner { result.«module» ≡ «module» }
        ensures position { position_of result ≡ position self.entry }
        ensures at { (first : Located) (rest : List Located) → left self.entry ≡ first ∷ rest
            → position_of result ≡ first.at }
    {
        Place {
            module,
            line: self.line,
            column: self.column,
        }
    }
}
