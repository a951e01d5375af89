//! What becomes of the level of a search.
ghost use Rattle.std.specs.Prelude.{◌≡◌, [], IfNone, IfOk, IfSome, IsFalse};
ghost use Rattle.cu_machine.specs.Next.{Answer, LevelEvent, with_outcome};
ghost use Rattle.cu_sets.specs.Inside.Levels.{before, ended, level_of};
ghost use Rattle.cu_step.specs.Outcome.{is_inner, next_of, reading_of};

use cu_graph::Store;
use cu_step::{Branch, Outcome, Reading, Stop};
use cu_values::Value;
use std::alloc::{AllocError, Global};

/// What became of the first branches of a level, none of which ended the
/// search.
#[derive(Drop)]
pub(crate) struct Level<S: Store> {
    /// The values that were found, in the order of the branches.
    pub values: Vec<Value>,
    /// The branches that follow, in order.
    pub branches: Vec<Branch<S>>,
}

/// What ends a search before its level is empty.
#[derive(Clone, Copy)]
pub(crate) enum Ending {
    /// A branch waits, or answered a value that isn't ground data.
    Blocked,
    /// A branch stopped.
    Halted(Stop),
}

impl<S: Store> Level<S> {
    /// The level of which no branch was stepped yet.
    pub fn new(alloc: Global) -> Level<S>
        ensures { level_of S.content result ≡ record { values = []; states = [] } }
    {
        Level {
            values: Vec::new(alloc),
            branches: Vec::new(alloc),
        }
    }

    /// Adds what became of the next branch. If that ends the search, it is
    /// answered.
    pub fn add(&mut self, outcome: Outcome<S>) -> Result<Option<Ending>, AllocError>
        requires { IsFalse (is_inner outcome) }
        ensures ends { IfOk result (λ ending. IfSome ending (λ ending. (others : LevelEvent)
            → with_outcome (next_of S.content outcome) others ≡ ended ending)) }
        ensures adds { IfOk result (λ ending. IfNone ending ((others : LevelEvent)
            → before (level_of S.content self.old) (with_outcome (next_of S.content outcome) others)
            ≡ before (level_of S.content self.new) others)) }
    {
        match outcome {
            Outcome::On(branch) => {
                self.branches.push(branch)?;
                Ok(None)
            }
            Outcome::Go(mut branches) => {
                self.branches.append(&mut branches)?;
                Ok(None)
            }
            Outcome::Answer(reading) => self.add_answer(reading),
            Outcome::Fail => Ok(None),
            Outcome::Wait(_) => Ok(Some(Ending::Blocked)),
            Outcome::Stop(stop) => Ok(Some(Ending::Halted(stop))),
            Outcome::Inner(_) => unreachable!(),
        }
    }

    /// Adds an answer that is ground data. Another answer ends the search.
    fn add_answer(&mut self, reading: Reading) -> Result<Option<Ending>, AllocError>
        ensures ends { IfOk result (λ ending. IfSome ending (λ ending. (others : LevelEvent)
            → with_outcome (Answer (reading_of reading)) others ≡ ended ending)) }
        ensures adds { IfOk result (λ ending. IfNone ending ((others : LevelEvent)
            → before (level_of S.content self.old)
            (with_outcome (Answer (reading_of reading)) others)
            ≡ before (level_of S.content self.new) others)) }
    {
        if !reading.value.is_ground_data() {
            return Ok(Some(Ending::Blocked));
        }
        self.values.push(reading.value)?;
        Ok(None)
    }
}
