//! Patterns and types: the variables that they bind, and the constructors that
//! they use.
ghost use Rattle.std.specs.Prelude.{List, ℕ, IfOk, OnOk};
ghost use Rattle.std.specs.List.{All};
ghost use Rattle.cu_entities.specs.Entities.{Types};
ghost use Rattle.cu_syntax.specs.Owners.{PatternIsOf, TypeIsOf};
ghost use Rattle.cu_uses.specs.Demands.{used};
ghost use Rattle.cu_uses.specs.Gathered.{pattern_binds, pattern_builds, patterns_bind, patterns_build, type_builds};
ghost use Rattle.cu_uses.specs.Inside.Scopes.{Opens, Sees};
ghost use Rattle.cu_uses.specs.Inside.Worlds.{Told, World};

use crate::first_fault::FirstFault;
use crate::found::{Found, pattern, patterns, type_term};
use crate::names::use_entities;
use crate::scope::Scope;
use cu_entities::Space;
use cu_syntax::{Name, Pattern, TypeTerm};
use std::alloc::{AllocError, Global};

/// The variables of a pattern. Tells what is wrong with its constructors.
pub(crate) fn open_pattern(
    alloc: Global,
    scope: &Scope<'_>,
    p: Pattern<'_>,
    first: &mut FirstFault,
) -> Result<Vec<Name>, AllocError>
    ensures { (w : World) (local : List (List ℕ)) → Sees w local scope.now
        → PatternIsOf w.owner w.names p.entry
        → IfOk result (λ variables. Opens w first.old (pattern_binds w.names p.entry)
        (pattern_builds w.names p.entry) variables.items first.new) }
{
    let mut found = Found::new(alloc);
    pattern(alloc, p, &mut found)?;
    use_entities(scope, Space::Values, found.constructors.as_slice(), first);
    Ok(found.variables)
}

/// The variables of several patterns. Tells what is wrong with their
/// constructors.
pub(crate) fn open_patterns(
    alloc: Global,
    scope: &Scope<'_>,
    ps: &[Pattern<'_>],
    first: &mut FirstFault,
) -> Result<Vec<Name>, AllocError>
    ensures { (w : World) (local : List (List ℕ)) → Sees w local scope.now
        → All (PatternIsOf w.owner w.names) ps.now
        → IfOk result (λ variables. Opens w first.old (patterns_bind w.names ps.now)
        (patterns_build w.names ps.now) variables.items first.new) }
{
    let mut found = Found::new(alloc);
    patterns(alloc, ps, &mut found)?;
    use_entities(scope, Space::Values, found.constructors.as_slice(), first);
    Ok(found.variables)
}

/// Tells what is wrong with the type constructors in a type.
pub(crate) fn use_type(
    alloc: Global,
    scope: &Scope<'_>,
    t: TypeTerm<'_>,
    first: &mut FirstFault,
) -> Result<(), AllocError>
    ensures { (w : World) (local : List (List ℕ)) → Sees w local scope.now
        → TypeIsOf w.owner w.names t.entry
        → OnOk result (Told w first.old (used Types (type_builds w.names t.entry)) first.new) }
{
    let mut found = Found::new(alloc);
    type_term(alloc, t, &mut found)?;
    use_entities(scope, Space::Types, found.constructors.as_slice(), first);
    Ok(())
}
