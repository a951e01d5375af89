//! What replies to the lines of a session.
ghost use Rattle.std.specs.Prelude.{◌≡◌, ℕ, ◌≤◌, ◌⊎◌, List, Option, Some, IfOk, OnOk};
ghost use Rattle.cu_session.specs.Answers.{Answer, BreaksOff, Extends, Gives, Meaning};
ghost use Rattle.cu_session.specs.Answers.{ReplyCount};

use std::alloc::{AllocError, Global};

/// What follows a reply.
#[derive(Clone, Copy, Debug, PartialEq, Eq)]
pub enum Turn {
    /// The next line.
    Go,
    /// The end of the session.
    Quit,
}

/// What replies to lines.
pub trait Asker {
    /// How many faults have been counted.
    ghost fault_count: { Self → ℕ };

    /// The states in which an asker can be.
    ghost State: { Type 0 };

    /// The state, where the asker tells it.
    ghost state: { Self → Option State };

    /// Which answers are due to a line in a state.
    ghost answers: { Meaning State };

    /// That an asker can be asked, which holds before and after each line.
    ghost is_ready: { Self → Type 0 };

    /// What no reply changes, as which object outside it asks.
    ghost Kept: { Type 0 };

    ghost kept: { Self → Kept };

    /// Writes the reply to a line, which has neither LF nor the CR before it,
    /// at the end of `out`.
    ///
    /// # Errors
    ///
    /// Answers an allocation failure. Nothing is said of `out` and of the
    /// asker's state then.
    fn reply(&mut self, alloc: Global, line: &[u8], out: &mut Vec<u8>) -> Result<Turn, AllocError>
        requires { is_ready self.old }
        ensures added { OnOk result (Extends out.old.items out.new.items) }
        ensures told { (state_before : State) → state self.old ≡ Some state_before
            → IfOk result (λ turn. Gives (answers state_before line.now) turn out.old.items
            out.new.items (state self.new) ⊎ BreaksOff turn out.old.items out.new.items
            (fault_count self.old) (fault_count self.new)) }
        ensures ready { OnOk result (is_ready self.new) }
        ensures kept { kept self.new ≡ kept self.old }
        ensures count { fault_count self.old ≤ fault_count self.new }
        ensures stands { ReplyCount result out.old.items out.new.items
            (fault_count self.old) (fault_count self.new) };
}
