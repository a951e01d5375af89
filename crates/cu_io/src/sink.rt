//! The output that is written.
ghost use Rattle.std.specs.Prelude.{◌≡◌, ℕ, List, Option};
ghost use Rattle.cu_io.specs.Puts.{PutCount, Puts};

/// What a sink answers when it is given bytes.
#[derive(Clone, Copy, Debug, PartialEq, Eq)]
pub enum Put {
    /// The whole piece went out.
    Done,
    /// The outside failed, after a prefix of the piece at most; the sink's
    /// count of faults rose.
    Failed,
}

/// An output of bytes.
pub trait Sink {
    /// How many faults have been counted.
    ghost fault_count: { Self → ℕ };

    /// The bytes that went out, where the sink tells them.
    ghost written: { Self → Option (List ℕ) };

    /// The number of faults so far. It stands still at the last `u64`.
    fn faults(&self) -> u64
        ensures { result ≡ fault_count self.now };

    /// Writes a piece at the end of the output.
    fn put(&mut self, piece: &[u8]) -> Put
        ensures told { Puts result piece.now (written self.old) (written self.new) }
        ensures count { PutCount result (fault_count self.old) (fault_count self.new) };
}
