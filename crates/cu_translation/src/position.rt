//! Places of one text.
ghost use Rattle.std.specs.Prelude.{◌≡◌};
ghost use Rattle.cu_lex.specs.Reading.{position_of};
ghost use Rattle.cu_translation.specs.Meaning.{position_meaning};

use cu_names::Place;

/// A place of a text, whatever the text's module is. Lines and columns count
/// from 1, columns in characters.
#[derive(Clone, Copy, Debug, PartialEq, Eq, Hash)]
pub struct Position {
    pub line: u32,
    pub column: u32,
}

impl Position {
    /// Where a place is in its text.
    pub fn of(place: Place) -> Position
        ensures { position_meaning result ≡ position_of place }
    {
        Position {
            line: place.line,
            column: place.column,
        }
    }
}
