//! How a run ends.
ghost use Rattle.std.specs.Prelude.{◌≡◌};
ghost use Rattle.cu_cmd.specs.Numbers.{number_of};

/// How a run ends. The process ends with the status's number.
#[derive(Clone, Copy, Debug, PartialEq, Eq)]
pub enum Status {
    /// The listing ends `no more`, and no branch waits; or the text of a module
    /// or a verdict on a proof is whole.
    Done,
    /// The listing ends `no more`, and some branches wait.
    Floundered,
    /// The listing ends at the round limit or the answer limit.
    Limit,
    /// The words aren't in the command grammar.
    Usage,
    /// A module, the goal or a file is refused.
    Refused,
    /// The listing ends since an operation overflows, or a branch, an answer
    /// or a level is too large.
    Stopped,
    /// The library or the input failed.
    ReadFault,
    /// The output failed.
    WriteFault,
    /// Memory ran out.
    NoMemory,
}

impl Status {
    /// The number that the process ends with, 0 to 8.
    pub fn number(self) -> u8
        ensures { result ≡ number_of self }
    {
        match self {
            Status::Done => 0,
            Status::Floundered => 1,
            Status::Limit => 2,
            Status::Usage => 3,
            Status::Refused => 4,
            Status::Stopped => 5,
            Status::ReadFault => 6,
            Status::WriteFault => 7,
            Status::NoMemory => 8,
        }
    }
}
