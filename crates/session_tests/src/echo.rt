//! An asker that replies what it is asked.
ghost use Rattle.std.specs.Prelude.{◌≡◌, ◌⊎◌, ◌≤◌, None, IfOk, OnOk};
ghost use Rattle.cu_session.specs.Answers.{BreaksOff, Extends, Gives};

use cu_session::{Asker, Turn};
use std::alloc::{AllocError, Global};

/// Replies each line between brackets, ended by LF. It quits with `bye` at the
/// line `quit`, and replies nothing to the line `-`. It tells no state.
#[derive(Clone, Copy, Debug)]
pub struct Echo {
    /// How many lines it was asked.
    pub asked: u64,
}

impl Asker for Echo {
    ghost use Rattle.std.specs.Prelude.{None};

    ghost fault_count = { λ _. 0 };

    ghost State = { Unit {0} };

    ghost state = { λ _. None };

    ghost answers = { λ _ _ _. Unit {0} };

    ghost is_ready = { λ _. Unit {0} };

    ghost Kept = { Unit {0} };

    ghost kept = { λ _. tt };

    fn reply(&mut self, alloc: Global, line: &[u8], out: &mut Vec<u8>) -> Result<Turn, AllocError> {
        self.asked = self.asked.saturating_add(1);
        if line == b"quit".as_slice() {
            out.extend_from_slice(b"bye\n")?;
            return Ok(Turn::Quit);
        }
        if line == b"-".as_slice() {
            return Ok(Turn::Go);
        }
        out.push(91)?;
        out.extend_from_slice(line)?;
        out.extend_from_slice(b"]\n")?;
        Ok(Turn::Go)
    }
}
