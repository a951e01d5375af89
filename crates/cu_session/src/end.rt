//! How a session ends.

/// How a session ends.
#[derive(Clone, Copy, Debug, PartialEq, Eq)]
pub enum SessionEnd {
    /// All lines of the input were answered.
    EndOfInput,
    /// The asker quit.
    Quit,
    /// The input failed; its count of faults rose.
    ReadFault,
    /// The output failed; its count of faults rose.
    WriteFault,
    /// A line has more than 1,048,576 bytes, a CR counted and the LF not.
    LineTooLong,
}
