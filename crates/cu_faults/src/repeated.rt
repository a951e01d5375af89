//! Variables that stand twice in patterns.
ghost use Rattle.std.specs.Prelude.{[], OnOk};
ghost use Rattle.std.specs.List.{All};
ghost use Rattle.cu_names.specs.Texts.{AllDiffer};
ghost use Rattle.cu_syntax.specs.Owners.{NameIsOf, PatternIsOf};
ghost use Rattle.cu_translation.specs.Meaning.{Setting};
ghost use Rattle.cu_faults.specs.Inside.Patterns.{repeats, variables_told};
ghost use Rattle.cu_faults.specs.Telling.{Told};

use crate::first::First;
use cu_locals::variables;
use cu_syntax::{Name, Pattern};
use cu_translation::{Fault, Wrong};
use cu_uses::TextSet;
use std::alloc::{AllocError, Global};

/// Tells the variables that stand a second time in patterns.
pub(crate) fn tell_variables(
    alloc: Global,
    ps: &[Pattern<'_>],
    first: &mut First,
) -> Result<(), AllocError>
    ensures { (w : Setting) → AllDiffer w.names → All (PatternIsOf w.owner w.names) ps.now
        → OnOk result (Told w.owner first.old (variables_told w.names ps.now) first.new) }
{
    let names = variables(alloc, ps)?;
    repeated(alloc, names.as_slice(), first)
}

/// Tells the names of a list whose text stands earlier in it.
fn repeated(alloc: Global, names: &[Name], first: &mut First) -> Result<(), AllocError>
    ensures { (w : Setting) → AllDiffer w.names → All (NameIsOf w.owner w.names) names.now
        → OnOk result (Told w.owner first.old (repeats w.names [] names.now) first.new) }
{
    let mut seen = TextSet::new(alloc);
    for name in names {
        if seen.has(name.text) {
            first.tell(Fault {
                wrong: Wrong::NonLinear,
                place: name.place,
            });
            continue;
        }
        seen.add(name.text)?;
    }
    Ok(())
}
