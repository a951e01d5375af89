//! Counting the lines of a level.
ghost use Rattle.std.specs.Prelude.{◌≡◌, ◌+◌, ◌∷◌, [], Some, None, IfOk, OnOk, if◌then◌else◌, map};
ghost use Rattle.cu_machine.specs.declared.End.TheVariants.{Answers};
ghost use Rattle.cu_machine.specs.Listing.{is_last, one_answer, round_of};
ghost use Rattle.cu_step.specs.Outcome.{next_of, reading_of};
ghost use Rattle.cu_search.specs.Totals.{and_answer, and_lines};

use crate::outcomes::{Turn, last_answer};
use crate::tally::Tally;
use crate::totals::Totals;
use cu_graph::Store;
use cu_machine::End;
use cu_step::{Outcome, Reading};
use std::alloc::AllocError;

/// Counts the lines of a level's outcomes, and answers the end of the listing
/// where they end it.
pub(crate) fn count_outcomes<S: Store>(
    turn: &Turn,
    outcomes: &[Outcome<S>],
    tally: &mut Tally,
    totals: &mut Totals,
) -> Result<Option<End>, AllocError>
    ensures end { IfOk result (λ end. end
        ≡ (round_of turn.now.round turn.now.limit tally.old
        (map (next_of S.content) outcomes.now)).end) }
    ensures tally { OnOk result (tally.new
        ≡ (round_of turn.now.round turn.now.limit tally.old
        (map (next_of S.content) outcomes.now)).tally) }
    ensures totals { OnOk result (totals.new ≡ and_lines totals.old
        (round_of turn.now.round turn.now.limit tally.old
        (map (next_of S.content) outcomes.now)).lines) }
{
    for outcome in outcomes {
        let end = count_outcome(turn, outcome, tally, totals)?;
        if end.is_some() {
            return Ok(end);
        }
    }
    Ok(None)
}

/// Counts the line of one outcome, if it has one.
#[tactic(auto, using(crate::proofs::OneOutcome::one_outcome))]
fn count_outcome<S: Store>(
    turn: &Turn,
    outcome: &Outcome<S>,
    tally: &mut Tally,
    totals: &mut Totals,
) -> Result<Option<End>, AllocError>
    ensures end { IfOk result (λ end. end
        ≡ (round_of turn.now.round turn.now.limit tally.old
        (next_of S.content outcome.now ∷ [])).end) }
    ensures tally { OnOk result (tally.new
        ≡ (round_of turn.now.round turn.now.limit tally.old
        (next_of S.content outcome.now ∷ [])).tally) }
    ensures totals { OnOk result (totals.new ≡ and_lines totals.old
        (round_of turn.now.round turn.now.limit tally.old
        (next_of S.content outcome.now ∷ [])).lines) }
{
    match outcome {
        Outcome::On(_) => Ok(None),
        Outcome::Go(_) => Ok(None),
        Outcome::Answer(reading) => count_answer(turn, reading, tally, totals),
        Outcome::Fail => Ok(None),
        Outcome::Wait(_) => {
            tally.add_wait()?;
            totals.add_wait()?;
            Ok(None)
        }
        Outcome::Stop(stop) => Ok(Some(End::Stopped(*stop, turn.round))),
        Outcome::Inner(_) => Ok(None),
    }
}

/// Counts an answer, and answers the end of the listing where it is the last
/// one that is wanted.
fn count_answer(
    turn: &Turn,
    reading: &Reading,
    tally: &mut Tally,
    totals: &mut Totals,
) -> Result<Option<End>, AllocError>
    ensures end { IfOk result (λ end. end ≡ (if is_last turn.now.limit (tally.old.answers + 1)
        then Some (Answers (tally.old.answers + 1)) else None)) }
    ensures tally { OnOk result (tally.new ≡ one_answer tally.old) }
    ensures totals { OnOk result (totals.new ≡ and_answer totals.old (reading_of reading.now)) }
{
    tally.add_answer()?;
    totals.add_answer(reading)?;
    Ok(last_answer(turn.limit, tally.answers()))
}
