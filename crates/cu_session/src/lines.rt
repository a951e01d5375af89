//! Lines of bytes.
ghost use Rattle.std.specs.Prelude.{◌≡◌};
ghost use Rattle.cu_session.specs.Lines.{without_cr};

/// The byte that ends a line.
pub(crate) const LF: u8 = 10;

/// The byte that is dropped before the end of a line.
const CR: u8 = 13;

/// The most bytes of a line, a CR counted and the LF not.
pub(crate) const MAX_LINE_BYTES: usize = 1_048_576;

/// A line without the CR at its end, if there is one.
pub(crate) fn without_cr(line: &[u8]) -> &[u8]
    ensures { result.now ≡ without_cr line.now }
{
    let Some(last) = line.last() else {
        return line;
    };
    if *last == CR {
        &line[..line.len() - 1]
    } else {
        line
    }
}
