//! Synonyms that lead to themselves.
ghost use Rattle.std.specs.Prelude.{◌≡◌, ◌||◌, IfOk, OnOk, map};
ghost use Rattle.cu_kernel.specs.KernelOf.{synonym_meaning};
ghost use Rattle.cu_kernel.specs.TypesOf.{type_of, types_of};
ghost use Rattle.cu_flattext.specs.Inside.Circles.{is_known, leads_on, name_passes, some_left};
ghost use Rattle.cu_flattext.specs.TypeTexts.{is_or_passes, leads_to_itself, some_synonym, some_synonym_in};

use cu_kernel::{Synonym, SynonymId, TypeName, TypeTerm};
use std::alloc::{AllocError, Global};

/// Whether a synonym is known to lead to the goal.
fn is_known(known: &[bool], s: SynonymId) -> bool
    ensures { result ≡ is_known known.now s }
{
    match known.get(s.0) {
        Some(leads) => *leads,
        None => false,
    }
}

/// Whether what a name stands for is the goal, or is known to lead there.
fn name_leads(name: TypeName, goal: SynonymId, known: &[bool]) -> bool
    ensures { result ≡ name_passes (is_or_passes goal (is_known known.now)) name }
{
    match name {
        TypeName::Data(_) => false,
        TypeName::Synonym(s) => s == goal || is_known(known, s),
    }
}

/// Pushes types that are still to be looked at.
fn push_types<'t>(
    left: &mut Vec<&'t TypeTerm>,
    types: &'t [TypeTerm],
    goal: SynonymId,
    known: &[bool],
) -> Result<(), AllocError>
    ensures { OnOk result (some_left (is_or_passes goal (is_known known.now)) left.new.items
        ≡ some_left (is_or_passes goal (is_known known.now)) left.old.items
        || some_synonym_in (is_or_passes goal (is_known known.now)) (types_of types.now)) }
{
    for t in types {
        left.push(t)?;
    }
    Ok(())
}

/// Whether the name at the head of a type leads to the goal. Pushes the parts
/// of the type, which are still to be looked at.
#[tactic(auto, using(cu_kernel::specs::TypesOf::types_of_variants))]
fn look<'t>(
    left: &mut Vec<&'t TypeTerm>,
    t: &'t TypeTerm,
    goal: SynonymId,
    known: &[bool],
) -> Result<bool, AllocError>
    ensures { IfOk result (λ leads.
        leads || some_left (is_or_passes goal (is_known known.now)) left.new.items
        ≡ some_left (is_or_passes goal (is_known known.now)) left.old.items
        || some_synonym (is_or_passes goal (is_known known.now)) (type_of t.now)) }
{
    match t {
        TypeTerm::Var(_) => Ok(false),
        TypeTerm::Arrow(argument, value) => {
            left.push(argument)?;
            left.push(value)?;
            Ok(false)
        }
        TypeTerm::Named(name, types) => {
            push_types(left, types.as_slice(), goal, known)?;
            Ok(name_leads(*name, goal, known))
        }
    }
}

/// Whether some synonym in a type is the goal, or is known to lead there. The
/// types that are left to be looked at stand in a list, so that no type is too
/// deep; more than 2^64 count as an allocation failure.
fn type_leads(
    alloc: Global,
    t: &TypeTerm,
    goal: SynonymId,
    known: &[bool],
) -> Result<bool, AllocError>
    ensures { IfOk result (λ leads. leads
        ≡ some_synonym (is_or_passes goal (is_known known.now)) (type_of t.now)) }
{
    let mut left = Vec::new(alloc);
    left.push(t)?;
    'parts: for _ in 0..u64::MAX {
        let Some(part) = left.pop() else {
            return Ok(false);
        };
        if look(&mut left, part, goal, known)? {
            return Ok(true);
        }
    }
    Err(AllocError)
}

/// For each synonym whether it leads to the goal within one step more than is
/// known.
fn one_step_more(
    alloc: Global,
    synonyms: &[Synonym],
    goal: SynonymId,
    known: &[bool],
) -> Result<Vec<bool>, AllocError>
    ensures { IfOk result (λ more. more.items
        ≡ map (leads_on (is_or_passes goal (is_known known.now)))
        (map synonym_meaning synonyms.now)) }
{
    let mut more = Vec::with_capacity(alloc, synonyms.len())?;
    for synonym in synonyms {
        let leads = type_leads(alloc, &synonym.body, goal, known)?;
        more.push(leads)?;
    }
    Ok(more)
}

/// Whether a synonym leads to itself. Each round looks at all synonyms, and
/// there are as many rounds as the longest way between two synonyms has steps.
pub(crate) fn leads_to_itself(
    alloc: Global,
    synonyms: &[Synonym],
    s: SynonymId,
) -> Result<bool, AllocError>
    ensures { IfOk result (λ leads. leads
        ≡ leads_to_itself (map synonym_meaning synonyms.now) s) }
{
    let mut known = Vec::new(alloc);
    for steps in 0..synonyms.len() {
        let more = one_step_more(alloc, synonyms, s, known.as_slice())?;
        if more == known {
            return Ok(is_known(known.as_slice(), s));
        }
        known = more;
    }
    Ok(is_known(known.as_slice(), s))
}
