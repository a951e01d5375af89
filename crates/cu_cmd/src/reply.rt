//! Replies as outputs.
ghost use Rattle.std.specs.Prelude.{◌≡◌, Some};

use cu_io::{Put, Sink};

/// A reply that is being written, as an output. A piece for which memory runs
/// out is a fault, and nothing of it is taken.
#[derive(Drop)]
pub(crate) struct Reply {
    pub(crate) bytes: Vec<u8>,
    faults: u64,
}

impl Reply {
    /// A reply that begins so.
    pub(crate) fn new(bytes: Vec<u8>) -> Reply
        ensures { result.bytes ≡ bytes }
    {
        Reply { bytes, faults: 0 }
    }
}

impl Sink for Reply {
    ghost fault_count = { λ reply. reply.faults };

    ghost written = { λ reply. Some reply.bytes.items };

    fn faults(&self) -> u64 {
        self.faults
    }

    fn put(&mut self, piece: &[u8]) -> Put {
        match self.bytes.extend_from_slice(piece) {
            Ok(()) => Put::Done,
            Err(_) => {
                self.faults = self.faults.saturating_add(1);
                Put::Failed
            }
        }
    }
}
