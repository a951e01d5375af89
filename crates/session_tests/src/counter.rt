//! An asker that counts, and tells its state.
ghost use Rattle.std.specs.Prelude.{◌≡◌, ◌⊎◌, ◌≤◌, ◌+◌, ℕ, Some, IfOk, OnOk, slice_get};
ghost use Rattle.cu_session.specs.Answers.{BreaksOff, Extends, Gives};
ghost use Rattle.session_tests.specs.Counter.{counted, is_q};

use cu_session::{Asker, Turn};
use std::alloc::{AllocError, Global};

/// The byte with which the last line begins.
const Q: u8 = 113;

/// Replies to each line with a digit, which rises, and quits with nothing at a
/// line that begins with `q`. At one digit it counts a fault and breaks off.
#[derive(Clone, Copy, Debug)]
pub struct Counter {
    /// The digit of the next reply, as a byte of text.
    pub digit: u8,
    /// The digit at which it breaks off.
    pub breaks_at: u8,
    /// How many faults it counted.
    pub faults: u64,
}

/// Whether a line is the last.
fn is_last(line: &[u8]) -> bool
    ensures { result ≡ is_q (slice_get line.now 0) }
{
    match line.first() {
        Some(byte) => *byte == Q,
        None => false,
    }
}

impl Asker for Counter {
    ghost use Rattle.std.specs.Prelude.{◌≡◌, ℕ, Some};
    ghost use Rattle.session_tests.specs.Counter.{counted};

    ghost fault_count = { λ s. s.faults };

    ghost State = { ℕ };

    ghost state = { λ s. Some s.digit };

    ghost answers = { λ digit line answer. answer ≡ counted digit line };

    ghost is_ready = { λ _. Unit {0} };

    ghost Kept = { Unit {0} };

    ghost kept = { λ _. tt };

    fn reply(&mut self, alloc: Global, line: &[u8], out: &mut Vec<u8>) -> Result<Turn, AllocError> {
        if self.digit == self.breaks_at {
            self.faults = self.faults.saturating_add(1);
            return Ok(Turn::Quit);
        }
        if is_last(line) {
            return Ok(Turn::Quit);
        }
        out.extend_from_slice(&[self.digit, 10])?;
        self.digit = self.digit.saturating_add(1);
        Ok(Turn::Go)
    }
}
