//! Counts of what was listed.
ghost use Rattle.std.specs.Prelude.{◌≡◌, ◌+◌, OnOk};
ghost use Rattle.cu_machine.specs.Listing.{one_answer, one_wait};

use std::alloc::AllocError;
use std::marker::Model;

/// How many answers and waiting branches were listed so far.
#[derive(Drop)]
pub(crate) struct Tally {
    answers: u64,
    waits: u64,
}

impl Model for Tally {
    ghost use Rattle.cu_machine.specs.Listing as listing;

    ghost Value = { listing.Tally };

    ghost view = { λ t. record { answers = t.answers; waits = t.waits } };
}

impl Tally {
    /// The count before anything is listed.
    pub(crate) fn new() -> Tally
        ensures { result ≡ record { answers = 0; waits = 0 } }
    {
        Tally {
            answers: 0,
            waits: 0,
        }
    }

    /// How many answers were listed.
    pub(crate) fn answers(&self) -> u64
        ensures { result ≡ self.now.answers }
    {
        self.answers
    }

    /// How many waiting branches were listed.
    pub(crate) fn waits(&self) -> u64
        ensures { result ≡ self.now.waits }
    {
        self.waits
    }

    /// How many lines were listed.
    pub(crate) fn lines(&self) -> u128
        ensures { result ≡ self.now.answers + self.now.waits }
    {
        u128::from(self.answers) + u128::from(self.waits)
    }

    /// Counts an answer.
    pub(crate) fn add_answer(&mut self) -> Result<(), AllocError>
        ensures { OnOk result (self.new ≡ one_answer self.old) }
    {
        self.answers = self.answers.checked_add(1).ok_or(AllocError)?;
        Ok(())
    }

    /// Counts a waiting branch.
    pub(crate) fn add_wait(&mut self) -> Result<(), AllocError>
        ensures { OnOk result (self.new ≡ one_wait self.old) }
    {
        self.waits = self.waits.checked_add(1).ok_or(AllocError)?;
        Ok(())
    }
}
