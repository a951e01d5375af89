//! Blocks of local declarations.
ghost use Rattle.std.specs.Prelude.{◌≡◌, ◌++◌, ◌∷◌, ◌<◌, [], IfOk, IfSome, OnOk, length};
ghost use Rattle.std.specs.List.{filter, find};
ghost use Rattle.cu_kernel.specs.LocalTermsOf.{local_term_of};
ghost use Rattle.cu_lex.specs.Reading.{position_of};
ghost use Rattle.cu_names.specs.Texts.{AllDiffer};
ghost use Rattle.cu_syntax.specs.Names.{name_meaning};
ghost use Rattle.cu_syntax.specs.Owners.{PatternIsOf};
ghost use Rattle.cu_syntax.specs.Syntax.{pattern_position};
ghost use Rattle.cu_syntax.specs.Syntax as syntax;
ghost use Rattle.cu_translation.specs.Blocks as definitions;
ghost use Rattle.cu_translation.specs.Meaning.{Setting, binder_meaning};
ghost use Rattle.cu_uses.specs.Gathered.{names_meaning};
ghost use Rattle.cu_forms.specs.Forms.{block_term, selections_form};
ghost use Rattle.cu_forms.specs.Inside.Blocks.{bound_meaning, bounds_meaning, chosen, depends_on_none, is_of_other, with_free_names};

use cu_kernel::{LocalHead, LocalTerm};
use cu_locals::pattern_variables;
use cu_names::Place;
use cu_syntax::{Name, Pattern};
use cu_translation::{Binder, Position, Surroundings};
use std::alloc::{AllocError, Global};

/// A local variable and its definition.
#[derive(Drop)]
pub(crate) struct Bound {
    pub(crate) variable: Binder,
    pub(crate) definition: LocalTerm,
}

/// Adds the variables of a pattern, each selected from its whole value.
pub(crate) fn add_selections<A: Surroundings>(
    alloc: Global,
    around: &A,
    p: Pattern<'_>,
    found: &mut Vec<Bound>,
) -> Result<(), AllocError>
    ensures { (w : Setting) → A.tells around.now w → AllDiffer w.names
        → PatternIsOf w.owner w.names p.entry
        → OnOk result (bounds_meaning found.new.items
        ≡ bounds_meaning found.old.items ++ selections_form w p.entry) }
{
    let names = pattern_variables(alloc, p)?;
    for name in &names {
        found.push(selection(alloc, around, p.place(), *name)?)?;
    }
    Ok(())
}

/// A variable of the pattern at a place: the call, on the pattern's whole
/// value, of the function that selects the variable.
fn selection<A: Surroundings>(
    alloc: Global,
    around: &A,
    place: Place,
    name: Name,
) -> Result<Bound, AllocError>
    ensures { (w : Setting) (p : syntax.Pattern) → A.tells around.now w
        → position_of place ≡ pattern_position p
        → IfOk result (λ b. bound_meaning b
        ≡ definitions.selection w.around p (name_meaning w.names name)) }
{
    let whole = around.variable(Binder::Whole(Position::of(place)));
    let selector = around.function(Position::of(name.place));
    let arguments = vec![in alloc; LocalTerm::Var(whole)]?;
    Ok(Bound {
        variable: Binder::At(Position::of(name.place)),
        definition: LocalTerm::Whole(LocalHead::Local(selector), arguments),
    })
}

/// A term inside the declarations of a block: inside its free variables, and
/// inside its definitions, each after those on which it depends.
pub(crate) fn block<A: Surroundings>(
    alloc: Global,
    around: &A,
    free: &[Name],
    bounds: Vec<Bound>,
    term: LocalTerm,
) -> Result<LocalTerm, AllocError>
    ensures { (w : Setting) → A.tells around.now w
        → IfOk result (λ t. local_term_of t
        ≡ block_term w (names_meaning w.names free.now) (bounds_meaning bounds.items)
        (local_term_of term)) }
{
    let inner = with_lets(alloc, around, ordered(alloc, around, bounds)?, term)?;
    with_free(alloc, around, free, inner)
}

/// Definitions in the order of their dependencies: each time the first that
/// depends on none of those that are left. There is one, unless a variable
/// depends on itself.
fn ordered<A: Surroundings>(
    alloc: Global,
    around: &A,
    bounds: Vec<Bound>,
) -> Result<Vec<Bound>, AllocError>
    ensures { (w : Setting) → A.tells around.now w
        → IfOk result (λ found. bounds_meaning found.items
        ≡ definitions.ordered w.around.numbers.depends (bounds_meaning bounds.items)) }
{
    let mut ordered = Vec::new(alloc);
    let mut left = bounds;
    for _round in 0..left.len() {
        let Some(index) = independent(around, left.as_slice()) else {
            append(&mut ordered, left)?;
            return Ok(ordered);
        };
        let next = left.remove(index);
        left = others(alloc, left, next.variable)?;
        ordered.push(next)?;
    }
    Ok(ordered)
}

/// The index of the first definition that depends on none of these definitions.
fn independent<A: Surroundings>(around: &A, left: &[Bound]) -> Option<usize>
    ensures within { IfSome result (λ i. i < length left.now) }
    ensures first { (w : Setting) → A.tells around.now w
        → chosen (bounds_meaning left.now) result
        ≡ find (definitions.depends_on_none w.around.numbers.depends (bounds_meaning left.now))
        (bounds_meaning left.now) }
{
    for index in 0..left.len() {
        if depends_on_none(around, left, left[index].variable) {
            return Some(index);
        }
    }
    None
}

/// Whether the definition of a variable depends on none of these definitions.
fn depends_on_none<A: Surroundings>(around: &A, left: &[Bound], variable: Binder) -> bool
    ensures { (w : Setting) → A.tells around.now w
        → result ≡ depends_on_none w.around.numbers.depends (binder_meaning variable)
        (bounds_meaning left.now) }
{
    for other in left {
        if around.depends(variable, other.variable) {
            return false;
        }
    }
    true
}

/// The definitions of all variables but this one.
fn others(alloc: Global, bounds: Vec<Bound>, variable: Binder) -> Result<Vec<Bound>, AllocError>
    ensures { IfOk result (λ found. bounds_meaning found.items
        ≡ filter (is_of_other (binder_meaning variable)) (bounds_meaning bounds.items)) }
{
    let mut found = Vec::new(alloc);
    for bound in bounds {
        if variable == bound.variable {
            continue;
        }
        found.push(bound)?;
    }
    Ok(found)
}

/// Adds definitions after others.
fn append(bounds: &mut Vec<Bound>, more: Vec<Bound>) -> Result<(), AllocError>
    ensures { OnOk result (bounds.new.items ≡ bounds.old.items ++ more.items) }
{
    for bound in more {
        bounds.push(bound)?;
    }
    Ok(())
}

/// A term inside definitions, of which the first is outermost.
fn with_lets<A: Surroundings>(
    alloc: Global,
    around: &A,
    bounds: Vec<Bound>,
    term: LocalTerm,
) -> Result<LocalTerm, AllocError>
    ensures { (w : Setting) → A.tells around.now w
        → IfOk result (λ t. local_term_of t
        ≡ definitions.with_lets w.around (bounds_meaning bounds.items) (local_term_of term)) }
{
    let mut left = bounds;
    let mut inner = term;
    while let Some(bound) = left.pop() {
        inner = scope_after(alloc, around, bound, inner)?;
    }
    Ok(inner)
}

/// A term inside a definition.
fn scope_after<A: Surroundings>(
    alloc: Global,
    around: &A,
    bound: Bound,
    term: LocalTerm,
) -> Result<LocalTerm, AllocError>
    ensures { (w : Setting) → A.tells around.now w
        → IfOk result (λ t. local_term_of t
        ≡ definitions.with_lets w.around (bound_meaning bound ∷ []) (local_term_of term)) }
{
    let definition = Box::new(alloc, bound.definition)?;
    let term = Box::new(alloc, term)?;
    Ok(LocalTerm::Let(around.variable(bound.variable), definition, term))
}

/// A term inside free variables.
fn with_free<A: Surroundings>(
    alloc: Global,
    around: &A,
    free: &[Name],
    term: LocalTerm,
) -> Result<LocalTerm, AllocError>
    ensures { (w : Setting) → A.tells around.now w
        → IfOk result (λ t. local_term_of t
        ≡ with_free_names w free.now (local_term_of term)) }
{
    let mut inner = term;
    for index in (0..free.len()).rev() {
        let name = free[index];
        let variable = around.variable(Binder::At(Position::of(name.place)));
        inner = LocalTerm::Free(variable, Box::new(alloc, inner)?);
    }
    Ok(inner)
}
