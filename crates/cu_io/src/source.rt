//! The input that is read.
ghost use Rattle.std.specs.Prelude.{◌≡◌, ℕ, List, Option, ◌<◌, length};
ghost use Rattle.cu_io.specs.Reads.{ReadCount, Reads, ReadsLeft};

/// What a source answers when it is asked for bytes.
#[derive(Clone, Copy, Debug, PartialEq, Eq)]
pub enum Took {
    /// So many bytes were taken; none at the end of the input.
    Bytes(usize),
    /// The outside failed; the source's count of faults rose.
    Failed,
}

/// An input of bytes. At most 2^63 of its reads take bytes, so that a loop
/// over it ends.
pub trait Source {
    /// How many faults have been counted.
    ghost fault_count: { Self → ℕ };

    /// The bytes that are left, where the source tells them.
    ghost remaining: { Self → Option (List ℕ) };

    /// How many reads may still take bytes.
    ghost reads_left: { Self → ℕ };

    /// The number of faults so far. It stands still at the last `u64`.
    fn faults(&self) -> u64
        ensures { result ≡ fault_count self.now };

    /// Takes bytes from the start of the input into the start of `room`, which
    /// stays as it was where the read fails.
    fn read(&mut self, room: &mut [u8]) -> Took
        requires { 0 < length room.old }
        ensures told { Reads result room.old room.new (remaining self.old) (remaining self.new) }
        ensures ends { ReadsLeft result (reads_left self.old) (reads_left self.new) }
        ensures count { ReadCount result (fault_count self.old) (fault_count self.new) };
}
