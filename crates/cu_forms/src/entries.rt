//! The names that patterns bring into scope, and the free variables of blocks.
ghost use Rattle.std.specs.Prelude.{◌≡◌, ◌++◌, ℕ, IfOk, List, OnOk};
ghost use Rattle.std.specs.List.{All};
ghost use Rattle.cu_locals.specs.Entries.{AreEntries};
ghost use Rattle.cu_locals.specs.Text.{Text};
ghost use Rattle.cu_syntax.specs.Declarations.{declaration_meaning};
ghost use Rattle.cu_syntax.specs.Owners.{PatternIsOf};
ghost use Rattle.cu_translation.specs.Blocks.{free_in};
ghost use Rattle.cu_translation.specs.LocalNames.{variable_entries};
ghost use Rattle.cu_uses.specs.Gathered.{names_meaning, pattern_binds, patterns_bind};
ghost use Rattle.cu_forms.specs.Forms.{free_form};

use cu_locals::{pattern_variables, variable_entries, variables};
use cu_syntax::{Declaration, DeclarationNode, Name, Pattern};
use cu_translation::Entry;
use std::alloc::{AllocError, Global};

/// What the variables of a pattern bring into scope.
pub(crate) fn pattern_entries(alloc: Global, p: Pattern<'_>) -> Result<Vec<Entry>, AllocError>
    ensures { (t : Text) → PatternIsOf t.owner t.names p.entry
        → IfOk result (λ found. AreEntries t
        (variable_entries (pattern_binds t.names p.entry)) found.items) }
{
    let names = pattern_variables(alloc, p)?;
    variable_entries(alloc, names.as_slice())
}

/// What the variables of several patterns bring into scope.
pub(crate) fn parameter_entries(alloc: Global, ps: &[Pattern<'_>]) -> Result<Vec<Entry>, AllocError>
    ensures { (t : Text) → All (PatternIsOf t.owner t.names) ps.now
        → IfOk result (λ found. AreEntries t
        (variable_entries (patterns_bind t.names ps.now)) found.items) }
{
    let names = variables(alloc, ps)?;
    variable_entries(alloc, names.as_slice())
}

/// The free variables of a block.
pub(crate) fn free_names(alloc: Global, ds: &[Declaration<'_>]) -> Result<Vec<Name>, AllocError>
    ensures { (names : List (List ℕ)) → IfOk result (λ found.
        names_meaning names found.items ≡ free_form names ds.now) }
{
    let mut free = Vec::new(alloc);
    for d in ds {
        add_free(alloc, *d, &mut free)?;
    }
    Ok(free)
}

/// Adds the variables that a declaration leaves free.
fn add_free(alloc: Global, d: Declaration<'_>, free: &mut Vec<Name>) -> Result<(), AllocError>
    ensures { (names : List (List ℕ)) → OnOk result (names_meaning names free.new.items
        ≡ names_meaning names free.old.items ++ free_in (declaration_meaning names d.entry)) }
{
    match d.node(alloc)? {
        DeclarationNode::FreeVariables(_, names) => add_names(free, names.as_slice()),
        _ => Ok(()),
    }
}

/// Adds names.
fn add_names(found: &mut Vec<Name>, names: &[Name]) -> Result<(), AllocError>
    ensures { OnOk result (found.new.items ≡ found.old.items ++ names.now) }
{
    found.extend_from_slice(names)?;
    Ok(())
}

/// The names of a list, and after them those in scope already.
pub(crate) fn joined(first: Vec<Entry>, others: &[Entry]) -> Result<Vec<Entry>, AllocError>
    ensures { IfOk result (λ all. all.items ≡ first.items ++ others.now) }
{
    let mut all = first;
    all.extend_from_slice(others)?;
    Ok(all)
}
