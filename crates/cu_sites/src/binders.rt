//! The variables and the local functions of a text, in its order.
ghost use Rattle.std.specs.Prelude.{◌≡◌, IfOk, List, OnOk, map};
ghost use Rattle.std.specs.declared.alloc.Global.{Global};
ghost use Rattle.std.specs.declared.vec.Vec.{Vec};
ghost use Rattle.cu_syntax.specs.Owners.{PatternIsOf};
ghost use Rattle.cu_syntax.specs.Patterns.{pattern_meaning};
ghost use Rattle.cu_syntax.specs.declared.declarations.Declaration.{Declaration};
ghost use Rattle.cu_translation.specs.LocalNames.{At, Selected};
ghost use Rattle.cu_translation.specs.Meaning.{position_meaning};
ghost use Rattle.cu_translation.specs.Numbering.{all_binders, all_functions, at_name, binders_at, functions_at, generated};
ghost use Rattle.cu_translation.specs.Sites as text;
ghost use Rattle.cu_translation.specs.Sites.{Node};
ghost use Rattle.cu_uses.specs.Gathered.{names_meaning};
ghost use Rattle.cu_sites.specs.Numbered.{binders_meaning};
ghost use Rattle.cu_sites.specs.Meaning.{IsSite, Stands};
ghost use Rattle.cu_locals.specs.Text.{Text};
ghost use Rattle.cu_sites.specs.Inside.Counting.{Counts, Lists, bound_binders, name_places};
ghost use Rattle.cu_locals.specs.Places.{positions_meaning};

use crate::sites::{Site, Sites};
use cu_locals::{pattern_places, pattern_variables, places};
use cu_syntax::{Name, Pattern, PatternNode};
use cu_translation::{Binder, Position};
use std::alloc::{AllocError, Global};

/// Adds the variables at these places.
fn push_places(found: &mut Vec<Binder>, places: &[Position]) -> Result<(), AllocError>
    ensures { OnOk result
        (Counts found.old.items (map At (positions_meaning places.now)) found.new.items) }
{
    for place in places {
        found.push(Binder::At(*place))?;
    }
    Ok(())
}

/// Adds the variables of these names.
fn push_names(found: &mut Vec<Binder>, names: &[Name]) -> Result<(), AllocError>
    ensures { (t : Text) → OnOk result
        (Counts found.old.items (map at_name (names_meaning t.names names.now)) found.new.items) }
{
    for name in names {
        found.push(Binder::At(Position::of(name.place)))?;
    }
    Ok(())
}

/// Adds the variables of the function that selects one of a pattern with these
/// places.
fn push_selected(
    found: &mut Vec<Binder>,
    x: Position,
    places: &[Position],
) -> Result<(), AllocError>
    ensures { OnOk result (Counts found.old.items
        (map (Selected (position_meaning x)) (positions_meaning places.now)) found.new.items) }
{
    for place in places {
        found.push(Binder::Selected(x, *place))?;
    }
    Ok(())
}

/// Adds the fresh variables of a qualifier.
fn push_generated(alloc: Global, found: &mut Vec<Binder>, p: Pattern<'_>) -> Result<(), AllocError>
    ensures { (t : Text) → OnOk result (Counts found.old.items
        (generated (pattern_meaning t.names p.entry)) found.new.items) }
{
    if let PatternNode::Variable(_) = p.node(alloc)? {
        return Ok(());
    }
    let place = Position::of(p.place());
    found.push(Binder::Whole(place))?;
    found.push(Binder::Otherwise(place))?;
    Ok(())
}

/// Adds the variables of a pattern that is bound, and those of the functions
/// that select them.
fn push_bound(alloc: Global, found: &mut Vec<Binder>, p: Pattern<'_>) -> Result<(), AllocError>
    ensures { (t : Text) → PatternIsOf t.owner t.names p.entry
        → OnOk result (Counts found.old.items
        (bound_binders (pattern_meaning t.names p.entry)) found.new.items) }
{
    let names = pattern_variables(alloc, p)?;
    let places = pattern_places(alloc, p)?;
    found.push(Binder::Whole(Position::of(p.place())))?;
    push_names(found, names.as_slice())?;
    for name in &names {
        push_selected(found, Position::of(name.place), places.as_slice())?;
    }
    Ok(())
}

/// Adds the variables that are declared at a site.
pub(crate) fn push_binders(
    alloc: Global,
    found: &mut Vec<Binder>,
    site: &Site<'_>,
) -> Result<(), AllocError>
    ensures { (t : Text) (blocks : List (Vec Declaration Global)) (s : text.Site)
        → IsSite t blocks site.now s
        → OnOk result (Counts found.old.items (binders_at s) found.new.items) }
{
    match site {
        Site::Use(_, _) => Ok(()),
        Site::Operation(_) => Ok(()),
        Site::Lambda(_, _, _) => Ok(()),
        Site::Function(_, _) => Ok(()),
        Site::Matched(ps) => {
            let places = places(alloc, ps.as_slice())?;
            push_places(found, places.as_slice())
        }
        Site::Generated(_, p, _, _) => push_generated(alloc, found, *p),
        Site::Defined(x, _) => {
            found.push(Binder::At(Position::of(x.place)))?;
            Ok(())
        }
        Site::Bound(p, _) => push_bound(alloc, found, *p),
        Site::Free(names) => push_names(found, names.as_slice()),
    }
}

/// The variables of a text, in its order.
pub(crate) fn binders(alloc: Global, sites: &Sites<'_>) -> Result<Vec<Binder>, AllocError>
    ensures { (t : Text) (nodes : List Node) → Stands t nodes sites.now
        → IfOk result (λ found. binders_meaning found.items ≡ all_binders nodes) }
{
    let mut found = Vec::new(alloc);
    for node in &sites.nodes {
        push_binders(alloc, &mut found, &node.site)?;
    }
    Ok(found)
}

/// Adds the places of these names.
fn push_name_places(found: &mut Vec<Position>, names: &[Name]) -> Result<(), AllocError>
    ensures { (t : Text) → OnOk result (Lists found.old.items
        (name_places (names_meaning t.names names.now)) found.new.items) }
{
    for name in names {
        found.push(Position::of(name.place))?;
    }
    Ok(())
}

/// Adds the places of the first tokens of the local functions at a site.
fn push_functions(
    alloc: Global,
    found: &mut Vec<Position>,
    site: &Site<'_>,
) -> Result<(), AllocError>
    ensures { (t : Text) (blocks : List (Vec Declaration Global)) (s : text.Site)
        → IsSite t blocks site.now s
        → OnOk result (Lists found.old.items (functions_at s) found.new.items) }
{
    match site {
        Site::Use(_, _) => Ok(()),
        Site::Operation(_) => Ok(()),
        Site::Matched(_) => Ok(()),
        Site::Defined(_, _) => Ok(()),
        Site::Free(_) => Ok(()),
        Site::Lambda(place, _, _) => {
            found.push(Position::of(*place))?;
            Ok(())
        }
        Site::Generated(place, _, _, _) => {
            found.push(Position::of(*place))?;
            Ok(())
        }
        Site::Function(_, group) => {
            found.push(Position::of(group.first.place))?;
            Ok(())
        }
        Site::Bound(p, _) => {
            let names = pattern_variables(alloc, *p)?;
            push_name_places(found, names.as_slice())
        }
    }
}

/// The places of the first tokens of the local functions of a text, in its
/// order.
pub fn local_functions(alloc: Global, sites: &Sites<'_>) -> Result<Vec<Position>, AllocError>
    ensures { (t : Text) (nodes : List Node) → Stands t nodes sites.now
        → IfOk result (λ found. positions_meaning found.items ≡ all_functions nodes) }
{
    let mut found = Vec::new(alloc);
    for node in &sites.nodes {
        push_functions(alloc, &mut found, &node.site)?;
    }
    Ok(found)
}
