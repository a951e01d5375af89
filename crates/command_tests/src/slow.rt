//! An input that comes in pieces.
ghost use Rattle.std.specs.Prelude.{None};

use cu_io::{Source, Took, VecSource};

/// The most bytes of a piece.
const MOST: usize = 64;

/// A source in memory whose reads take so many bytes at most, 1 to 64. It
/// doesn't tell what is left.
#[derive(Drop)]
pub(crate) struct Slow {
    pub(crate) source: VecSource,
    pub(crate) piece: usize,
}

impl Source for Slow {
    ghost fault_count = { λ s. s.source.calls.faults };

    ghost remaining = { λ _. None };

    ghost reads_left = { λ s. s.source.reads };

    fn faults(&self) -> u64 {
        self.source.faults()
    }

    fn read(&mut self, room: &mut [u8]) -> Took {
        let mut piece = [0; MOST];
        let most = self.piece.max(1).min(MOST).min(room.len());
        let took = self.source.read(&mut piece[..most]);
        if let Took::Bytes(count) = took {
            room[..count].copy_from_slice(&piece[..count]);
        }
        took
    }
}
