//! The types that signatures declare.
ghost use Rattle.std.specs.Prelude.{◌≡◌, ◌∷◌, [], List, ℕ, IfOk, OnOk, nat_eq};
ghost use Rattle.std.specs.List.{All, list_any};
ghost use Rattle.cu_kernel.specs.TypesOf as kernel;
ghost use Rattle.cu_names.specs.Texts.{AllDiffer};
ghost use Rattle.cu_names.specs.declared.names.NameId.{NameId};
ghost use Rattle.cu_syntax.specs.Names.{name_meaning};
ghost use Rattle.cu_syntax.specs.declared.name.Name.{Name};
ghost use Rattle.cu_syntax.specs.Owners.{NameIsOf, TypeIsOf};
ghost use Rattle.cu_syntax.specs.Types.{type_meaning, types_meaning};
ghost use Rattle.cu_toplevel.specs.Inside.Variables.{AddsOnce};
ghost use Rattle.cu_toplevel.specs.Surrounding.{TellsNames};
ghost use Rattle.cu_translation.specs.Around as meant;
ghost use Rattle.cu_translation.specs.TypeTable.{signature_type};
ghost use Rattle.cu_uses.specs.Binders.{all_type_variables, type_variables};

use crate::TopNames;
use crate::types::type_of;
use cu_kernel::TypeTerm;
use cu_names::NameId;
use cu_syntax as syntax;
use cu_syntax::{Name, TypeNode};
use std::alloc::{AllocError, Global};

/// Whether one of these names has a text.
fn has_text(names: &[Name], text: NameId) -> bool
    ensures { result ≡ list_any (λ (name : Name). nat_eq name.text.0 text.0) names.now }
{
    names.iter().any(|name| name.text == text)
}

/// Adds a name, unless one with its text is there.
fn add_variable(name: Name, variables: &mut Vec<Name>) -> Result<(), AllocError>
    ensures { (owner : NameId) (table : List (List ℕ))
        → AllDiffer table → NameIsOf owner table name
        → OnOk result (AddsOnce owner table variables.old.items
        (name_meaning table name ∷ []) variables.new.items) }
{
    if has_text(variables.as_slice(), name.text) {
        return Ok(());
    }
    variables.push(name)?;
    Ok(())
}

/// Adds the variables of a type that are not there yet, in the order in which
/// they first stand in it.
#[cycle(variables)]
fn add_variables(
    alloc: Global,
    t: syntax::TypeTerm<'_>,
    variables: &mut Vec<Name>,
) -> Result<(), AllocError>
    ensures { (owner : NameId) (table : List (List ℕ))
        → AllDiffer table → TypeIsOf owner table t.entry
        → OnOk result (AddsOnce owner table variables.old.items
        (type_variables (type_meaning table t.entry)) variables.new.items) }
{
    match t.node(alloc)? {
        TypeNode::Variable(name) => add_variable(name, variables),
        TypeNode::Named(_, arguments) => add_all(alloc, arguments.as_slice(), variables),
        TypeNode::Function(first, further, to) => {
            add_variables(alloc, first, variables)?;
            add_all(alloc, further.as_slice(), variables)?;
            add_variables(alloc, to, variables)
        }
        TypeNode::Tuple(_, components) => add_all(alloc, components.as_slice(), variables),
        TypeNode::List(_, element) => add_variables(alloc, element, variables),
    }
}

/// Adds the variables of several types.
#[cycle(variables)]
fn add_all(
    alloc: Global,
    ts: &[syntax::TypeTerm<'_>],
    variables: &mut Vec<Name>,
) -> Result<(), AllocError>
    ensures { (owner : NameId) (table : List (List ℕ))
        → AllDiffer table → All (TypeIsOf owner table) ts.now
        → OnOk result (AddsOnce owner table variables.old.items
        (all_type_variables (types_meaning table ts.now)) variables.new.items) }
{
    'types: for t in ts {
        add_variables(alloc, *t, variables)?;
    }
    Ok(())
}

/// The type that a signature declares. Its type variables are its own, numbered
/// in the order in which they first stand in it.
///
/// # Errors
///
/// An allocation failure.
pub fn signature_type(
    alloc: Global,
    top: &TopNames<'_>,
    t: syntax::TypeTerm<'_>,
) -> Result<TypeTerm, AllocError>
    ensures { (owner : NameId) (names : List (List ℕ)) (around : meant.Names)
        → TellsNames names around top.now → TypeIsOf owner names t.entry
        → IfOk result (λ found. kernel.type_of found
        ≡ signature_type around (type_meaning names t.entry)) }
{
    let mut variables = Vec::new(alloc);
    add_variables(alloc, t, &mut variables)?;
    type_of(alloc, top, variables.as_slice(), t)
}
