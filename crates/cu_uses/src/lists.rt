//! Lists of names: which stand twice, and which are missing.
ghost use Rattle.std.specs.Prelude.{[], List, ℕ, IfOk, OnOk, map};
ghost use Rattle.std.specs.List.{All};
ghost use Rattle.cu_names.specs.Texts.{AllDiffer};
ghost use Rattle.cu_syntax.specs.Owners.{NameIsOf};
ghost use Rattle.cu_names.specs.declared.names.NameId.{NameId};
ghost use Rattle.cu_uses.specs.Binders.{missing, once, repeated, texts};
ghost use Rattle.cu_uses.specs.Demands.{Lacks, Repeats};
ghost use Rattle.cu_uses.specs.Gathered.{Adds, names_meaning};
ghost use Rattle.cu_uses.specs.Inside.Worlds.{Told, World};
ghost use Rattle.cu_uses.specs.Telling.{HasTexts};

use crate::fault::Wrong;
use crate::first_fault::FirstFault;
use crate::names::tell;
use crate::text_set::TextSet;
use cu_syntax::Name;
use std::alloc::{AllocError, Global};

/// Tells the names of a list whose text stands earlier in it.
pub(crate) fn tell_repeated(
    alloc: Global,
    names: &[Name],
    first: &mut FirstFault,
) -> Result<(), AllocError>
    ensures { (w : World) → AllDiffer w.names → All (NameIsOf w.owner w.names) names.now
        → OnOk result (Told w first.old
        (map Repeats (repeated [] (names_meaning w.names names.now))) first.new) }
{
    let mut seen = TextSet::new(alloc);
    for name in names {
        if seen.has(name.text) {
            tell(Wrong::Duplicate, *name, first);
        } else {
            seen.add(name.text)?;
        }
    }
    Ok(())
}

/// The names of a list whose text doesn't stand earlier in it.
pub(crate) fn first_places(alloc: Global, names: &[Name]) -> Result<Vec<Name>, AllocError>
    ensures { (owner : NameId) (table : List (List ℕ)) → AllDiffer table
        → All (NameIsOf owner table) names.now
        → IfOk result (λ found. Adds owner table []
        (once [] (names_meaning table names.now)) found.items) }
{
    let mut seen = TextSet::new(alloc);
    let mut found = Vec::new(alloc);
    for name in names {
        if seen.has(name.text) {
            continue;
        }
        seen.add(name.text)?;
        found.push(*name)?;
    }
    Ok(found)
}

/// The set of the texts of names.
pub(crate) fn text_set(alloc: Global, names: &[Name]) -> Result<TextSet, AllocError>
    ensures { (owner : NameId) (table : List (List ℕ)) → AllDiffer table
        → All (NameIsOf owner table) names.now
        → IfOk result (HasTexts table (texts (names_meaning table names.now))) }
{
    let mut set = TextSet::new(alloc);
    for name in names {
        set.add(name.text)?;
    }
    Ok(set)
}

/// Tells the names whose text isn't among those that are known.
pub(crate) fn tell_missing(known: &TextSet, names: &[Name], first: &mut FirstFault)
    ensures { (w : World) (texts : List (List ℕ)) → HasTexts w.names texts known.now
        → All (NameIsOf w.owner w.names) names.now
        → Told w first.old (map Lacks (missing texts (names_meaning w.names names.now))) first.new }
{
    for name in names {
        if !known.has(name.text) {
            tell(Wrong::UnknownName, *name, first);
        }
    }
}
