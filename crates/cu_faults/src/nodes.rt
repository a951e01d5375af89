//! What is wrong with what stands in a text.
ghost use Rattle.std.specs.Prelude.{◌≡◌, List, OnOk};
ghost use Rattle.std.specs.List.{All, flat_map};
ghost use Rattle.cu_names.specs.Texts.{AllDiffer};
ghost use Rattle.cu_locals.specs.Text.{Text};
ghost use Rattle.cu_sites.specs.Meaning.{IsSite, IsSpotIn, Stands, blocks_in};
ghost use Rattle.cu_syntax.specs.Owners.{ExpressionIsOf, NameIsOf, PatternIsOf};
ghost use Rattle.cu_translation.specs.Around.{Around};
ghost use Rattle.cu_translation.specs.Faults.{clashes_of, faults_of};
ghost use Rattle.cu_translation.specs.Meaning.{Setting, referent_meaning};
ghost use Rattle.cu_translation.specs.Sites as text;
ghost use Rattle.cu_faults.specs.Inside.Patterns.{faults_told};
ghost use Rattle.cu_faults.specs.Inside.Uses.{is_set_name, use_told};
ghost use Rattle.cu_faults.specs.Telling.{Told, setting};

use crate::first::First;
use crate::operations::{clash, set_names};
use crate::patterns::{Sought, pattern, patterns};
use crate::repeated::tell_variables;
use crate::rules::{tell_length, tell_rules};
use crate::uses::{Applied, use_at};
use cu_forms::Scope;
use cu_sites::{Node, Site, Sites, Spot};
use cu_syntax::Pattern;
use cu_translation::{Referent, Surroundings};
use std::alloc::{AllocError, Global};

/// Tells all operators in a text that have no grouped tree.
///
/// # Errors
///
/// An allocation failure. What was told is of no use then.
pub fn tell_clashes<A: Surroundings>(
    alloc: Global,
    around: &A,
    sites: &Sites<'_>,
    first: &mut First,
) -> Result<(), AllocError>
    ensures { (t : Text) (a : Around) (nodes : List text.Node) → A.tells around.now (setting t a)
        → Stands t nodes sites.now
        → OnOk result (Told t.owner first.old (flat_map (clashes_of a.names) nodes) first.new) }
{
    for node in sites.nodes() {
        clashes_at(alloc, around, sites, node, first)?;
    }
    Ok(())
}

/// Tells the operators of a node that have no grouped tree.
fn clashes_at<A: Surroundings>(
    alloc: Global,
    around: &A,
    sites: &Sites<'_>,
    node: &Node<'_>,
    first: &mut First,
) -> Result<(), AllocError>
    ensures { (t : Text) (a : Around) (n : text.Node) → A.tells around.now (setting t a)
        → IsSpotIn t sites.now node.now.spot n.spot
        → IsSite t (blocks_in sites.now) node.now.site n.site
        → OnOk result (Told t.owner first.old (clashes_of a.names n) first.new) }
{
    match &node.site {
        Site::Operation(e) => {
            let entries = sites.scope(alloc, node.spot)?;
            let scope = Scope::outermost(entries.as_slice());
            clash(alloc, around, &scope, *e, first)
        }
        Site::Matched(ps) => patterns(alloc, around, Sought::Clashes, ps.as_slice(), first),
        Site::Bound(p, _) => pattern(alloc, around, Sought::Clashes, *p, first),
        Site::Use(_, _) => Ok(()),
        Site::Lambda(_, _, _) => Ok(()),
        Site::Generated(_, _, _, _) => Ok(()),
        Site::Function(_, _) => Ok(()),
        Site::Defined(_, _) => Ok(()),
        Site::Free(_) => Ok(()),
    }
}

/// Tells the faults of what stands in a text, clashes of operators apart.
pub(crate) fn tell_nodes<A: Surroundings>(
    alloc: Global,
    around: &A,
    sites: &Sites<'_>,
    first: &mut First,
) -> Result<(), AllocError>
    ensures { (t : Text) (a : Around) (nodes : List text.Node) → A.tells around.now (setting t a)
        → Stands t nodes sites.now
        → OnOk result (Told t.owner first.old (flat_map (faults_of a) nodes) first.new) }
{
    for node in sites.nodes() {
        faults_at(alloc, around, sites, node, first)?;
    }
    Ok(())
}

/// Tells the faults of a node, clashes of operators apart.
fn faults_at<A: Surroundings>(
    alloc: Global,
    around: &A,
    sites: &Sites<'_>,
    node: &Node<'_>,
    first: &mut First,
) -> Result<(), AllocError>
    ensures { (t : Text) (a : Around) (n : text.Node) → A.tells around.now (setting t a)
        → IsSpotIn t sites.now node.now.spot n.spot
        → IsSite t (blocks_in sites.now) node.now.site n.site
        → OnOk result (Told t.owner first.old (faults_of a n) first.new) }
{
    match &node.site {
        Site::Use(name, arguments) => {
            let applied = Applied {
                name: *name,
                arguments: arguments.as_slice(),
            };
            use_in(alloc, around, sites, node.spot, applied, first)
        }
        Site::Operation(e) => {
            let entries = sites.scope(alloc, node.spot)?;
            let scope = Scope::outermost(entries.as_slice());
            set_names(alloc, around, &scope, *e, first)
        }
        Site::Matched(ps) => declared(alloc, around, ps.as_slice(), first),
        Site::Bound(p, _) => declared(alloc, around, &[*p], first),
        Site::Function(_, group) => {
            tell_rules(group, first);
            tell_length(group, first);
            Ok(())
        }
        Site::Lambda(_, _, _) => Ok(()),
        Site::Generated(_, _, _, _) => Ok(()),
        Site::Defined(_, _) => Ok(()),
        Site::Free(_) => Ok(()),
    }
}

/// Tells a name of set functions at a spot, unless it may stand on these
/// arguments. No local name is one, so the scope is looked at for names of top
/// level alone.
fn use_in<A: Surroundings>(
    alloc: Global,
    around: &A,
    sites: &Sites<'_>,
    spot: Spot,
    applied: Applied<'_, '_>,
    first: &mut First,
) -> Result<(), AllocError>
    ensures { (t : Text) (a : Around) (inner : text.Spot) → A.tells around.now (setting t a)
        → IsSpotIn t sites.now spot inner → NameIsOf t.owner t.names applied.entry.name
        → All (ExpressionIsOf t.owner t.names) applied.entry.arguments.now
        → OnOk result (Told t.owner first.old
        (use_told (setting t a) inner.scope applied.entry.name applied.entry.arguments.now)
        first.new) }
{
    if !is_set_name(around.value(applied.name)) {
        return Ok(());
    }
    let entries = sites.scope(alloc, spot)?;
    let scope = Scope::outermost(entries.as_slice());
    use_at(alloc, around, &scope, applied, first)
}

/// Whether a name refers to set functions.
fn is_set_name(referent: Referent) -> bool
    ensures { result ≡ is_set_name (referent_meaning referent) }
{
    match referent {
        Referent::SetFunction(_) => true,
        Referent::Variable(_) => false,
        Referent::Callable(_, _) => false,
        Referent::Nothing => false,
    }
}

/// Tells the faults of patterns whose variables are declared together, clashes
/// of operators apart.
fn declared<A: Surroundings>(
    alloc: Global,
    around: &A,
    ps: &[Pattern<'_>],
    first: &mut First,
) -> Result<(), AllocError>
    ensures { (w : Setting) → A.tells around.now w → AllDiffer w.names
        → All (PatternIsOf w.owner w.names) ps.now
        → OnOk result (Told w.owner first.old (faults_told w ps.now) first.new) }
{
    patterns(alloc, around, Sought::Counts, ps, first)?;
    tell_variables(alloc, ps, first)
}
