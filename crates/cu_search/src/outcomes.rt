//! Listing the outcomes of a level.
ghost use Rattle.std.specs.Prelude.{◌≡◌, ◌+◌, ◌∷◌, [], Some, None, IfOk, OnErr, OnOk, if◌then◌else◌, map};
ghost use Rattle.cu_machine.specs.declared.End.TheVariants.{Answers};
ghost use Rattle.cu_machine.specs.Listing.{Answered, Waiting, is_last, one_answer, one_wait, round_of};
ghost use Rattle.cu_step.specs.Outcome.{next_of, reading_of};
ghost use Rattle.cu_search.specs.Lines.{line_text, lines_bytes};
ghost use Rattle.cu_search.specs.Stands.{notation_of};
ghost use Rattle.cu_search.specs.Written.{Adds, AddsPrefix, HasCause};

use crate::fault::SearchFault;
use crate::lines::{answer_line, wait_line};
use crate::page::Page;
use crate::tally::Tally;
use crate::wording::Wording;
use cu_graph::Store;
use cu_io::Sink;
use cu_machine::{End, Waited};
use cu_step::{Outcome, Reading};

/// What all lines of a round have in common.
#[derive(Clone, Copy)]
pub(crate) struct Turn<'p> {
    /// The number of the round.
    pub(crate) round: u64,
    /// The number of the last answer that is wanted, where there is one.
    pub(crate) limit: Option<u64>,
    pub(crate) wording: Wording<'p>,
}

/// Lists the outcomes of a level, and answers the end of the listing where they
/// end it.
pub(crate) fn list_outcomes<S: Store, K: Sink>(
    turn: &Turn,
    outcomes: &[Outcome<S>],
    tally: &mut Tally,
    page: &mut Page,
    sink: &mut K,
) -> Result<Option<End>, SearchFault>
    ensures end { IfOk result (λ end. end
        ≡ (round_of turn.now.round turn.now.limit tally.old
        (map (next_of S.content) outcomes.now)).end) }
    ensures tally { OnOk result (tally.new
        ≡ (round_of turn.now.round turn.now.limit tally.old
        (map (next_of S.content) outcomes.now)).tally) }
    ensures whole { OnOk result (Adds (K.written sink.old) (K.written sink.new)
        (lines_bytes (notation_of turn.now.wording)
        (round_of turn.now.round turn.now.limit tally.old
        (map (next_of S.content) outcomes.now)).lines)) }
    ensures prefix { OnErr result (AddsPrefix (K.written sink.old) (K.written sink.new)
        (lines_bytes (notation_of turn.now.wording)
        (round_of turn.now.round turn.now.limit tally.old
        (map (next_of S.content) outcomes.now)).lines)) }
    ensures cause { HasCause result (K.fault_count sink.old) (K.fault_count sink.new) }
{
    for outcome in outcomes {
        let end = list_outcome(turn, outcome, tally, page, sink)?;
        if end.is_some() {
            return Ok(end);
        }
    }
    Ok(None)
}

/// Lists one outcome.
#[tactic(auto, using(crate::proofs::OneOutcome::one_outcome))]
fn list_outcome<S: Store, K: Sink>(
    turn: &Turn,
    outcome: &Outcome<S>,
    tally: &mut Tally,
    page: &mut Page,
    sink: &mut K,
) -> Result<Option<End>, SearchFault>
    ensures end { IfOk result (λ end. end
        ≡ (round_of turn.now.round turn.now.limit tally.old
        (next_of S.content outcome.now ∷ [])).end) }
    ensures tally { OnOk result (tally.new
        ≡ (round_of turn.now.round turn.now.limit tally.old
        (next_of S.content outcome.now ∷ [])).tally) }
    ensures whole { OnOk result (Adds (K.written sink.old) (K.written sink.new)
        (lines_bytes (notation_of turn.now.wording)
        (round_of turn.now.round turn.now.limit tally.old
        (next_of S.content outcome.now ∷ [])).lines)) }
    ensures prefix { OnErr result (AddsPrefix (K.written sink.old) (K.written sink.new)
        (lines_bytes (notation_of turn.now.wording)
        (round_of turn.now.round turn.now.limit tally.old
        (next_of S.content outcome.now ∷ [])).lines)) }
    ensures cause { HasCause result (K.fault_count sink.old) (K.fault_count sink.new) }
{
    match outcome {
        Outcome::On(_) => Ok(None),
        Outcome::Go(_) => Ok(None),
        Outcome::Answer(reading) => list_answer(turn, reading, tally, page, sink),
        Outcome::Fail => Ok(None),
        Outcome::Wait(names) => list_wait(turn, names.as_slice(), tally, page, sink),
        Outcome::Stop(stop) => Ok(Some(End::Stopped(*stop, turn.round))),
        Outcome::Inner(_) => Ok(None),
    }
}

/// Lists an answer, and answers the end of the listing where it is the last
/// one that is wanted.
fn list_answer<K: Sink>(
    turn: &Turn,
    reading: &Reading,
    tally: &mut Tally,
    page: &mut Page,
    sink: &mut K,
) -> Result<Option<End>, SearchFault>
    ensures end { IfOk result (λ end. end ≡ (if is_last turn.now.limit (tally.old.answers + 1)
        then Some (Answers (tally.old.answers + 1)) else None)) }
    ensures tally { OnOk result (tally.new ≡ one_answer tally.old) }
    ensures whole { OnOk result (Adds (K.written sink.old) (K.written sink.new)
        (line_text (notation_of turn.now.wording)
        (Answered turn.now.round (reading_of reading.now)))) }
    ensures prefix { OnErr result (AddsPrefix (K.written sink.old) (K.written sink.new)
        (line_text (notation_of turn.now.wording)
        (Answered turn.now.round (reading_of reading.now)))) }
    ensures cause { HasCause result (K.fault_count sink.old) (K.fault_count sink.new) }
{
    tally.add_answer()?;
    answer_line(page, &turn.wording, turn.round, reading)?;
    page.write(sink)?;
    Ok(last_answer(turn.limit, tally.answers()))
}

/// The end of a listing at its last answer that is wanted.
pub(crate) fn last_answer(limit: Option<u64>, answers: u64) -> Option<End>
    ensures { result ≡ (if is_last limit answers then Some (Answers answers) else None) }
{
    match limit {
        Some(limit) if answers == limit => Some(End::Answers(answers)),
        _ => None,
    }
}

/// Lists a branch that waits for these variables. The listing doesn't end
/// there.
fn list_wait<K: Sink>(
    turn: &Turn,
    names: &[Waited],
    tally: &mut Tally,
    page: &mut Page,
    sink: &mut K,
) -> Result<Option<End>, SearchFault>
    ensures end { IfOk result (λ end. end ≡ None) }
    ensures tally { OnOk result (tally.new ≡ one_wait tally.old) }
    ensures whole { OnOk result (Adds (K.written sink.old) (K.written sink.new)
        (line_text (notation_of turn.now.wording) (Waiting turn.now.round names.now))) }
    ensures prefix { OnErr result (AddsPrefix (K.written sink.old) (K.written sink.new)
        (line_text (notation_of turn.now.wording) (Waiting turn.now.round names.now))) }
    ensures cause { HasCause result (K.fault_count sink.old) (K.fault_count sink.new) }
{
    tally.add_wait()?;
    wait_line(page, &turn.wording, turn.round, names)?;
    page.write(sink)?;
    Ok(None)
}
