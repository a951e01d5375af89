//! The faults for which modules are refused.
ghost use Rattle.std.specs.Prelude.{◌≡◌, IfOk, List};
ghost use Rattle.std.specs.List.{flat_map};
ghost use Rattle.cu_desugar.specs.Inside.Refusals.{IsRefusal};
ghost use Rattle.cu_desugar.specs.Inside.Texts.{AreTexts};
ghost use Rattle.cu_faults.specs.Telling.{IsFirst};
ghost use Rattle.cu_locals.specs.Text.{Text};
ghost use Rattle.cu_toplevel.specs.Surrounding.{TellsNames};
ghost use Rattle.cu_translation.specs.Around as meant;
ghost use Rattle.cu_translation.specs.Faults.{group_clashes, group_faults};
ghost use Rattle.cu_translation.specs.Rules.{Group};

use crate::texts::FunctionText;
use cu_faults::{First, TextSites, tell_clashes, tell_function};
use cu_toplevel::TopNames;
use cu_translation::Fault;
use std::alloc::{AllocError, Global};

/// The first of the operators in functions that have no grouped tree.
fn first_clash(
    alloc: Global,
    top: TopNames<'_>,
    texts: &[FunctionText<'_>],
) -> Result<Option<Fault>, AllocError>
    ensures { (t : Text) (names : meant.Names) (whole : List Group)
        → TellsNames t.names names top.entry → AreTexts t whole texts.now
        → IfOk result (IsFirst t.owner (flat_map (group_clashes names) whole)) }
{
    let mut first = First::new();
    for text in texts {
        let around = text.around(top);
        tell_clashes(alloc, &around, &text.sites, &mut first)?;
    }
    Ok(first.fault())
}

/// The first fault of functions, clashes of operators apart.
fn first_fault(
    alloc: Global,
    top: TopNames<'_>,
    texts: &[FunctionText<'_>],
) -> Result<Option<Fault>, AllocError>
    ensures { (t : Text) (names : meant.Names) (whole : List Group)
        → TellsNames t.names names top.entry → AreTexts t whole texts.now
        → IfOk result (IsFirst t.owner (flat_map (group_faults names) whole)) }
{
    let mut first = First::new();
    for text in texts {
        let around = text.around(top);
        let found = TextSites {
            sites: &text.sites,
            dependencies: &text.dependencies,
        };
        tell_function(alloc, &around, &text.group, found, &mut first)?;
    }
    Ok(first.fault())
}

/// The fault for which a module with these functions is refused, if it is:
/// the first clash of operators, or else the first of the other faults.
pub(crate) fn refusal(
    alloc: Global,
    top: TopNames<'_>,
    texts: &[FunctionText<'_>],
) -> Result<Option<Fault>, AllocError>
    ensures { (t : Text) (names : meant.Names) (whole : List Group)
        → TellsNames t.names names top.entry → AreTexts t whole texts.now
        → IfOk result (IsRefusal t.owner (flat_map (group_clashes names) whole)
        (flat_map (group_faults names) whole)) }
{
    let clash = first_clash(alloc, top, texts)?;
    match clash {
        Some(clash) => Ok(Some(clash)),
        None => first_fault(alloc, top, texts),
    }
}
