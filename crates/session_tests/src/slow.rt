//! An input that comes in pieces.
ghost use Rattle.std.specs.Prelude.{◌≡◌, ◌<◌, ◌≤◌, ◌^◌, None, length};
ghost use Rattle.cu_io.specs.Reads.{ReadCount, Reads, ReadsLeft};

use cu_io::{Source, Took, VecSource};

/// A source in memory whose reads take so many bytes at most. It doesn't tell
/// what is left.
#[derive(Drop)]
pub struct Slow {
    /// The source in memory.
    pub source: VecSource,
    /// The most bytes of a read; 0 stands for 1.
    pub piece: usize,
}

impl Source for Slow {
    ghost fault_count = { λ s. s.source.calls.faults };

    ghost remaining = { λ _. None };

    ghost reads_left = { λ s. s.source.reads };

    fn faults(&self) -> u64 {
        self.source.faults()
    }

    fn read(&mut self, room: &mut [u8]) -> Took {
        let most = self.piece.max(1).min(room.len());
        self.source.read(&mut room[..most])
    }
}
