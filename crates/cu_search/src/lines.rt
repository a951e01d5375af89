//! The lines of a listing.
ghost use Rattle.std.specs.Prelude.{◌≡◌, ◌≤◌, ◌⊎◌, ◌++◌, ◌∷◌, [], OnOk, slice_index_or};
ghost use Rattle.cu_machine.specs.declared.End.TheVariants.{NoMore, Rounds, Stopped};
ghost use Rattle.cu_machine.specs.Listing.{Answered, Waiting};
ghost use Rattle.cu_step.specs.Outcome.{reading_of};
ghost use Rattle.cu_search.specs.Lines.{binding_text, bindings_text, end_text, line_text, round_mark, stop_text, waited_text, waits_text};
ghost use Rattle.cu_search.specs.Stands.{notation_of};

use crate::page::Page;
use crate::wording::Wording;
use cu_machine::{End, Stop, Waited};
use cu_step::Reading;
use cu_values::Value;
use std::alloc::AllocError;

/// Makes the line of an answer in a round.
pub(crate) fn answer_line(
    page: &mut Page,
    wording: &Wording,
    round: u64,
    reading: &Reading,
) -> Result<(), AllocError>
    ensures { OnOk result (page.new.line.items
        ≡ line_text (notation_of wording.now) (Answered round (reading_of reading.now))) }
{
    begin_line(page, round)?;
    push_bindings(page, wording, reading.bindings.as_slice())?;
    page.push_value(wording, &reading.value)?;
    page.push_str("\n")
}

/// Begins a line of a round.
fn begin_line(page: &mut Page, round: u64) -> Result<(), AllocError>
    ensures { OnOk result (page.new.line.items ≡ round_mark round) }
{
    page.clear();
    page.push_str("[")?;
    page.push_number(round)?;
    page.push_str("] ")
}

/// Writes what the goal's variables are bound to, where it has some.
pub(crate) fn push_bindings(
    page: &mut Page,
    wording: &Wording,
    values: &[Value],
) -> Result<(), AllocError>
    ensures { OnOk result (page.new.line.items ≡ page.old.line.items
        ++ bindings_text (notation_of wording.now).labels
        (notation_of wording.now).variables values.now) }
{
    let count = lesser(wording.goal.names.len(), values.len());
    if count == 0 {
        return Ok(());
    }
    page.push_str("{")?;
    push_binding(page, wording, 0, &values[0])?;
    for place in 1..count {
        page.push_str(", ")?;
        push_binding(page, wording, place, &values[place])?;
    }
    page.push_str("} ")
}

/// The lesser of two counts.
fn lesser(names: usize, values: usize) -> usize
    ensures within { (result ≤ names) × (result ≤ values) }
    ensures all { (names ≤ result) ⊎ (values ≤ result) }
{
    if names < values { names } else { values }
}

/// Writes what a goal variable is bound to.
fn push_binding(
    page: &mut Page,
    wording: &Wording,
    place: usize,
    value: &Value,
) -> Result<(), AllocError>
    ensures { OnOk result (page.new.line.items ≡ page.old.line.items
        ++ binding_text (notation_of wording.now).labels
        (slice_index_or (notation_of wording.now).variables place []) value.now) }
{
    page.push_str(wording.variable(place))?;
    page.push_str("=")?;
    page.push_value(wording, value)
}

/// Makes the line of a branch that waits in a round for these variables.
pub(crate) fn wait_line(
    page: &mut Page,
    wording: &Wording,
    round: u64,
    names: &[Waited],
) -> Result<(), AllocError>
    ensures { OnOk result (page.new.line.items
        ≡ line_text (notation_of wording.now) (Waiting round names.now)) }
{
    begin_line(page, round)?;
    push_waits(page, wording, names)?;
    page.push_str("\n")
}

/// Writes what a branch waits for.
fn push_waits(page: &mut Page, wording: &Wording, names: &[Waited]) -> Result<(), AllocError>
    ensures { OnOk result (page.new.line.items
        ≡ page.old.line.items ++ waits_text (notation_of wording.now).variables names.now) }
{
    match names {
        [] => page.push_str("waits inside a set function"),
        [first, others @ ..] => push_waits_on(page, wording, *first, others),
    }
}

/// Writes the variables that a branch waits for, of which there is at least
/// one.
fn push_waits_on(
    page: &mut Page,
    wording: &Wording,
    first: Waited,
    others: &[Waited],
) -> Result<(), AllocError>
    ensures { OnOk result (page.new.line.items ≡ page.old.line.items
        ++ waits_text (notation_of wording.now).variables (first ∷ others.now)) }
{
    page.push_str("waits on ")?;
    push_waited(page, wording, first)?;
    for other in others {
        page.push_str(", ")?;
        push_waited(page, wording, *other)?;
    }
    Ok(())
}

/// Writes a variable that is waited for.
fn push_waited(page: &mut Page, wording: &Wording, name: Waited) -> Result<(), AllocError>
    ensures { OnOk result (page.new.line.items
        ≡ page.old.line.items ++ waited_text (notation_of wording.now).variables name) }
{
    match name {
        Waited::Named(place) => page.push_str(wording.variable(place as usize)),
        Waited::Other(number) => {
            page.push_str("_")?;
            page.push_number(u64::from(number))
        }
    }
}

/// Makes the last line of a listing.
pub(crate) fn end_line(page: &mut Page, end: End) -> Result<(), AllocError>
    ensures { OnOk result (page.new.line.items ≡ end_text end) }
{
    page.clear();
    match end {
        End::NoMore(waits) => push_exhausted(page, waits),
        End::Rounds(round, count) => push_rounds(page, round, count),
        End::Answers(count) => {
            page.push_str("stopped at answer ")?;
            page.push_number(count)?;
            page.push_str("\n")
        }
        End::Stopped(stop, round) => push_stopped(page, stop, round),
    }
}

/// Writes that the tree is exhausted, and how many branches wait.
fn push_exhausted(page: &mut Page, waits: u64) -> Result<(), AllocError>
    ensures { OnOk result (page.new.line.items ≡ page.old.line.items ++ end_text (NoMore waits)) }
{
    if waits == 0 {
        return page.push_str("no more\n");
    }
    page.push_str("no more; ")?;
    page.push_number(waits)?;
    page.push_str(" floundered\n")
}

/// Writes that a round was the last one, and how many branches are open.
fn push_rounds(page: &mut Page, round: u64, count: u64) -> Result<(), AllocError>
    ensures { OnOk result (page.new.line.items
        ≡ page.old.line.items ++ end_text (Rounds round count)) }
{
    page.push_str("stopped at round ")?;
    page.push_number(round)?;
    page.push_str("; ")?;
    page.push_number(count)?;
    page.push_str(" open\n")
}

/// Writes that a search stopped in a round, and why.
fn push_stopped(page: &mut Page, stop: Stop, round: u64) -> Result<(), AllocError>
    ensures { OnOk result (page.new.line.items
        ≡ page.old.line.items ++ end_text (Stopped stop round)) }
{
    page.push_str(stop_words(stop))?;
    page.push_str(" at round ")?;
    page.push_number(round)?;
    page.push_str("\n")
}

/// What a search stopped for, in words.
fn stop_words(stop: Stop) -> &'static str
    ensures { result.now ≡ stop_text stop }
{
    match stop {
        Stop::Overflow(_, _, _) => "overflow",
        Stop::TooLarge(_) => "too large",
        Stop::TooWide(_) => "too wide",
    }
}
