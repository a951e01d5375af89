//! The heads and patterns of expressions, as they are written.
ghost use Rattle.std.specs.Prelude.{◌≡◌, ◌+◌, ◌++◌, IfOk, OnOk};
ghost use Rattle.cu_calculus.specs.declared.Head.TheVariants as head;
ghost use Rattle.cu_calculus.specs.FlatProgram.{pattern_of};
ghost use Rattle.cu_flat.specs.Meaning.{pattern_meaning};
ghost use Rattle.cu_flattext.specs.ExpressionTexts.{apply_text, call_kind, constructor_pattern_text, function_alone, head_text, kind_text, missing, mode_text, part_kind, pattern_text, set_text};
ghost use Rattle.cu_flattext.specs.Inside.Stands.{lowered_of};
ghost use Rattle.cu_flattext.specs.Naming.{list_text};
ghost use Rattle.cu_flattext.specs.TypeTexts.{numbers_from};

use crate::page::Page;
use crate::wording::Wording;
use cu_flat::{ConId, FunId, Head, Mode, Pattern};
use std::alloc::AllocError;

/// The word for a flexible or a rigid case distinction.
pub(crate) fn mode_word(mode: Mode) -> &'static str
    ensures { result.now ≡ mode_text mode }
{
    match mode {
        Mode::Flex => "Flex",
        Mode::Rigid => "Rigid",
    }
}

/// The kind of a head with all its arguments.
pub(crate) fn call_kind(head: Head) -> &'static str
    ensures { result.now ≡ call_kind head }
{
    match head {
        Head::Con(_) => "ConsCall",
        Head::Fun(_) => "FuncCall",
        Head::Set(_) => "FuncCall",
    }
}

/// The kind of a head with some of its arguments.
fn part_kind(head: Head) -> &'static str
    ensures { result.now ≡ part_kind head }
{
    match head {
        Head::Con(_) => "ConsPartCall ",
        Head::Fun(_) => "FuncPartCall ",
        Head::Set(_) => "FuncPartCall ",
    }
}

/// How many arguments a head lacks where it has `count` of them.
pub(crate) fn missing(wording: &Wording, head: Head, count: usize) -> u64
    ensures { result ≡ missing (lowered_of wording.now) head count }
{
    (wording.arity(head) as u64).saturating_sub(count as u64)
}

/// Writes the kind of a head that lacks so many arguments.
pub(crate) fn push_kind(page: &mut Page, head: Head, missing: u64) -> Result<(), AllocError>
    ensures { OnOk result (page.new.text.items ≡ page.old.text.items ++ kind_text head missing) }
{
    if missing == 0 {
        return page.push_str(call_kind(head));
    }
    page.push_str("(")?;
    page.push_str(part_kind(head))?;
    page.push_number(missing)?;
    page.push_str(")")
}

/// Writes the name of the set function of a function with so many parameters.
fn push_set(page: &mut Page, arity: u32) -> Result<(), AllocError>
    ensures { OnOk result (page.new.text.items ≡ page.old.text.items ++ set_text arity) }
{
    page.push_str("(\"SetFunctions\",\"set")?;
    page.push_number(arity as u64)?;
    page.push_str("\")")
}

/// Writes the kind and the name of the call that applies a functional value.
pub(crate) fn push_apply(page: &mut Page) -> Result<(), AllocError>
    ensures { OnOk result (page.new.text.items ≡ page.old.text.items ++ apply_text) }
{
    page.push_str("FuncCall (\"Prelude\",\"apply\")")
}

/// Writes the name of a head.
pub(crate) fn push_head(page: &mut Page, wording: &Wording, head: Head) -> Result<(), AllocError>
    ensures { OnOk result (page.new.text.items
        ≡ page.old.text.items ++ head_text (lowered_of wording.now) head) }
{
    match head {
        Head::Fun(f) => page.push_entity(wording.function(f)),
        Head::Con(c) => page.push_entity(wording.constructor(c)),
        Head::Set(f) => push_set(page, wording.arity(Head::Set(f))),
    }
}

/// Writes the call of a function without arguments.
pub(crate) fn push_function(page: &mut Page, wording: &Wording, f: FunId) -> Result<(), AllocError>
    ensures { OnOk result (page.new.text.items
        ≡ page.old.text.items ++ function_alone (lowered_of wording.now) f) }
{
    page.push_str("Comb ")?;
    push_kind(page, Head::Fun(f), missing(wording, Head::Fun(f), 0))?;
    page.push_str(" ")?;
    page.push_entity(wording.function(f))?;
    page.push_str(" []")
}

/// The sum of two numbers. One that no `u64` holds counts as an allocation
/// failure.
fn sum(a: u64, b: u64) -> Result<u64, AllocError>
    ensures { IfOk result (λ sum. sum ≡ a + b) }
{
    a.checked_add(b).ok_or(AllocError)
}

/// Writes so many numbers, from `first` on, as a list.
pub(crate) fn push_numbers(page: &mut Page, first: u64, count: u64) -> Result<(), AllocError>
    ensures { OnOk result (page.new.text.items
        ≡ page.old.text.items ++ list_text (numbers_from first count)) }
{
    page.push_str("[")?;
    if count > 0 {
        page.push_number(first)?;
        for i in 1..count {
            page.push_str(",")?;
            let number = sum(first, i)?;
            page.push_number(number)?;
        }
    }
    page.push_str("]")
}

/// Writes the pattern of a constructor over so many variables, which have the
/// numbers from `first` on.
fn push_constructor_pattern(
    page: &mut Page,
    wording: &Wording,
    first: u64,
    c: ConId,
    count: u64,
) -> Result<(), AllocError>
    ensures { OnOk result (page.new.text.items ≡ page.old.text.items
        ++ constructor_pattern_text (lowered_of wording.now) first c count) }
{
    page.push_str("Pattern ")?;
    page.push_entity(wording.constructor(c))?;
    page.push_str(" ")?;
    push_numbers(page, first, count)
}

/// Writes the pattern of a branch, whose variables have the numbers from
/// `first` on.
#[tactic(auto, using(cu_calculus::proofs::FlatFitting::any_variables))]
pub(crate) fn push_pattern(
    page: &mut Page,
    wording: &Wording,
    first: u64,
    pattern: &Pattern,
) -> Result<(), AllocError>
    ensures { OnOk result (page.new.text.items ≡ page.old.text.items
        ++ pattern_text (lowered_of wording.now) first (pattern_of (pattern_meaning pattern.now))) }
{
    match pattern {
        Pattern::Lit(literal) => {
            page.push_str("LPattern (")?;
            page.push_literal(*literal)?;
            page.push_str(")")
        }
        Pattern::Con(c, variables) => {
            push_constructor_pattern(page, wording, first, *c, variables.len() as u64)
        }
    }
}
