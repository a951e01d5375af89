//! The calls of an object in memory.

/// The number of the next call, from 0, and the count of faults so far. Each
/// stands still at the last `u64`.
#[derive(Clone, Copy, Debug)]
pub struct Calls {
    pub next: u64,
    pub faults: u64,
}

impl Calls {
    ghost use Rattle.std.specs.Prelude.{◌≡◌};
    ghost use Rattle.cu_io.specs.Calls.{counted, no_calls};

    /// No calls yet, and no faults.
    pub fn new() -> Calls
        ensures { result ≡ no_calls }
    {
        Calls { next: 0, faults: 0 }
    }

    /// Counts a call, and a fault where it failed.
    pub fn count(&mut self, failed: bool)
        ensures { self.new ≡ counted self.old failed }
    {
        self.next = self.next.saturating_add(1);
        if failed {
            self.faults = self.faults.saturating_add(1);
        }
    }
}
