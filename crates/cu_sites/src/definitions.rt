//! The definitions of the local variables of a text, and what they use.
ghost use Rattle.std.specs.Prelude.{◌≡◌, IfOk, List, OnOk, drop, filter, map, not, take};
ghost use Rattle.std.specs.declared.alloc.Global.{Global};
ghost use Rattle.std.specs.declared.vec.Vec.{Vec};
ghost use Rattle.cu_syntax.specs.declared.declarations.Declaration.{Declaration};
ghost use Rattle.cu_syntax.specs.Owners.{PatternIsOf};
ghost use Rattle.cu_syntax.specs.Patterns.{pattern_meaning};
ghost use Rattle.cu_translation.specs.declared.local_names.Binder as code;
ghost use Rattle.cu_translation.specs.Dependencies.{definitions, definitions_of, is_bound_outside};
ghost use Rattle.cu_translation.specs.Meaning.{local_meaning};
ghost use Rattle.cu_translation.specs.Sites as text;
ghost use Rattle.cu_locals.specs.Text.{Text};
ghost use Rattle.cu_sites.specs.Numbered.{IsBinderTable, binders_meaning};
ghost use Rattle.cu_sites.specs.declared.sites.ScopeEntry.{ScopeEntry};
ghost use Rattle.cu_sites.specs.Meaning.{IsNode, Stands, inside};
ghost use Rattle.cu_sites.specs.Inside.Defining.{DeclaresAll, Defines, definitions_meaning, selections, used_among};
ghost use Rattle.cu_sites.specs.Inside.Using.{Finds, locals_meaning, usage_of, usages_meaning};

use crate::numbers::BinderTable;
use crate::sites::{Node, Site, Sites};
use crate::uses::Usage;
use cu_locals::pattern_variables;
use cu_syntax::Pattern;
use cu_translation::{Binder, Local, Position};
use std::alloc::{AllocError, Global};

/// A local variable and what its definition uses.
#[derive(Drop)]
pub(crate) struct Definition {
    pub(crate) variable: Binder,
    pub(crate) used: Vec<Local>,
}

/// Whether what a definition uses is bound inside the definition.
fn is_inner(inner: &BinderTable, used: Local) -> bool
    ensures { (binders : List code.Binder) → IsBinderTable binders inner.now
        → not result ≡ is_bound_outside (binders_meaning binders) (local_meaning used) }
{
    match used {
        Local::Variable(binder) => inner.has(binder),
        Local::Function(_, _) => false,
    }
}

/// Adds those of the used names that aren't bound inside a definition.
fn push_outer(found: &mut Vec<Local>, inner: &BinderTable, used: &[Local]) -> Result<(), AllocError>
    ensures { (binders : List code.Binder) → IsBinderTable binders inner.now
        → OnOk result (Finds found.old.items
        (filter (is_bound_outside (binders_meaning binders)) (locals_meaning used.now))
        found.new.items) }
{
    for local in used {
        if is_inner(inner, *local) {
            continue;
        }
        found.push(*local)?;
    }
    Ok(())
}

/// The variables that are declared inside a definition.
fn declared_inside(alloc: Global, inside: &[Usage]) -> Result<BinderTable, AllocError>
    ensures { IfOk result (DeclaresAll (usages_meaning inside.now)) }
{
    let mut found = BinderTable::new(alloc);
    for usage in inside {
        found.add_all(usage.declared.as_slice())?;
    }
    Ok(found)
}

/// What a definition uses and doesn't bind, given what stands inside it. What
/// stands in functions inside it has another depth.
fn used_inside(alloc: Global, depth: usize, inside: &[Usage]) -> Result<Vec<Local>, AllocError>
    ensures { IfOk result (λ found. locals_meaning found.items
        ≡ used_among depth (usages_meaning inside.now)) }
{
    let inner = declared_inside(alloc, inside)?;
    let mut found = Vec::new(alloc);
    for usage in inside {
        if usage.depth != depth {
            continue;
        }
        push_outer(&mut found, &inner, usage.used.as_slice())?;
    }
    Ok(found)
}

/// Adds the definitions of the variables of a pattern, which select them from
/// its whole value.
fn push_selections(
    alloc: Global,
    found: &mut Vec<Definition>,
    p: Pattern<'_>,
) -> Result<(), AllocError>
    ensures { (t : Text) → PatternIsOf t.owner t.names p.entry
        → OnOk result (Defines found.old.items
        (selections (pattern_meaning t.names p.entry)) found.new.items) }
{
    let whole = Binder::Whole(Position::of(p.place()));
    let names = pattern_variables(alloc, p)?;
    for name in &names {
        let mut used = Vec::new(alloc);
        used.push(Local::Variable(whole))?;
        found.push(Definition {
            variable: Binder::At(Position::of(name.place)),
            used,
        })?;
    }
    Ok(())
}

/// Adds the definitions at a node, given what stands in its right side.
fn push_definitions(
    alloc: Global,
    found: &mut Vec<Definition>,
    node: &Node<'_>,
    right_side: &[Usage],
) -> Result<(), AllocError>
    ensures { (t : Text) (entries : List ScopeEntry) (blocks : List (Vec Declaration Global))
        (n : text.Node) (others : List text.Node) → IsNode t entries blocks node.now n others
        → usages_meaning right_side.now ≡ map usage_of (inside n)
        → OnOk result (Defines found.old.items (definitions_of n) found.new.items) }
{
    match &node.site {
        Site::Defined(x, _) => {
            let used = used_inside(alloc, node.spot.depth, right_side)?;
            found.push(Definition {
                variable: Binder::At(Position::of(x.place)),
                used,
            })?;
            Ok(())
        }
        Site::Bound(p, _) => {
            let used = used_inside(alloc, node.spot.depth, right_side)?;
            found.push(Definition {
                variable: Binder::Whole(Position::of(p.place())),
                used,
            })?;
            push_selections(alloc, found, *p)
        }
        Site::Use(_, _) => Ok(()),
        Site::Operation(_) => Ok(()),
        Site::Matched(_) => Ok(()),
        Site::Lambda(_, _, _) => Ok(()),
        Site::Generated(_, _, _, _) => Ok(()),
        Site::Function(_, _) => Ok(()),
        Site::Free(_) => Ok(()),
    }
}

/// As many usages as asked for, from an index on.
fn after(usages: &[Usage], at: usize, count: usize) -> &[Usage]
    ensures { result.now ≡ take count (drop at usages.now) }
{
    let start = at.min(usages.len());
    let rest = &usages[start..];
    let end = count.min(rest.len());
    &rest[..end]
}

/// The definitions of local variables, in the order of the text.
pub(crate) fn definitions(
    alloc: Global,
    sites: &Sites<'_>,
    usages: &[Usage],
) -> Result<Vec<Definition>, AllocError>
    ensures { (t : Text) (nodes : List text.Node) → Stands t nodes sites.now
        → usages_meaning usages.now ≡ map usage_of nodes
        → IfOk result (λ found. definitions_meaning found.items ≡ definitions nodes) }
{
    let mut found = Vec::new(alloc);
    for (place, node) in sites.nodes.iter().enumerate() {
        let inside = after(usages, place + 1, node.extent);
        push_definitions(alloc, &mut found, node, inside)?;
    }
    Ok(found)
}
