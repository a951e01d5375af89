//! What types of the source stand for.
ghost use Rattle.std.specs.Prelude.{◌≡◌, ◌∷◌, List, ℕ, IfOk, length, map, nat_eq, position};
ghost use Rattle.std.specs.List.{All, position_or_len};
ghost use Rattle.std.specs.Str.{bytes_eq};
ghost use Rattle.cu_kernel.specs.TypeExpr as expr;
ghost use Rattle.cu_kernel.specs.TypesOf as kernel;
ghost use Rattle.cu_names.specs.Texts.{AllDiffer, IsKnown, text_of};
ghost use Rattle.cu_names.specs.declared.names.NameId.{NameId};
ghost use Rattle.cu_syntax.specs.Names.{name_meaning};
ghost use Rattle.cu_syntax.specs.declared.name.Name.{Name};
ghost use Rattle.cu_syntax.specs.Owners.{NameIsOf, TypeIsOf};
ghost use Rattle.cu_syntax.specs.Types.{type_meaning, types_meaning};
ghost use Rattle.cu_toplevel.specs.Inside.Arrows.{arrows};
ghost use Rattle.cu_toplevel.specs.Surrounding.{TellsNames};
ghost use Rattle.cu_translation.specs.Around as meant;
ghost use Rattle.cu_translation.specs.Around.{tuple_name};
ghost use Rattle.cu_translation.specs.ModuleTypes.{list_of};
ghost use Rattle.cu_translation.specs.TypeTable.{fields_of, type_of};
ghost use Rattle.cu_uses.specs.Binders.{texts};

use crate::{BuiltInType, TopNames};
use cu_kernel::TypeTerm;
use cu_names::NameId;
use cu_syntax as syntax;
use cu_syntax::{Name, TypeNode};
use std::alloc::{AllocError, Global};

/// A number in 32 bits. A larger one counts as an allocation failure.
///
/// # Errors
///
/// An allocation failure.
pub(crate) fn to_u32(count: usize) -> Result<u32, AllocError>
    ensures { IfOk result (λ found. found ≡ count) }
{
    match u32::try_from(count) {
        Ok(found) => Ok(found),
        Err(_) => Err(AllocError),
    }
}

/// The place of the first of these names that has a text.
fn place_in(names: &[Name], text: NameId) -> Option<usize>
    ensures { result ≡ position (λ (name : Name). nat_eq name.text.0 text.0) names.now }
{
    names.iter().position(|name| name.text == text)
}

/// The place of a text among those of these names, or their count, where it is
/// none of them.
fn place_among(names: &[Name], text: NameId) -> usize
    ensures { (owner : NameId) (table : List (List ℕ))
        → AllDiffer table → IsKnown table text → All (NameIsOf owner table) names.now
        → result ≡ position_or_len (bytes_eq (text_of table text))
        (texts (map (name_meaning table) names.now)) }
{
    match place_in(names, text) {
        Some(place) => place,
        None => names.len(),
    }
}

/// The type variable of a name, by its place among these names.
fn variable(variables: &[Name], name: Name) -> Result<TypeTerm, AllocError>
    ensures { (owner : NameId) (table : List (List ℕ))
        → AllDiffer table → NameIsOf owner table name → All (NameIsOf owner table) variables.now
        → IfOk result (λ found. kernel.type_of found ≡ expr.Variable
        (position_or_len (bytes_eq (text_of table name.text))
        (texts (map (name_meaning table) variables.now)))) }
{
    let place = to_u32(place_among(variables, name.text))?;
    Ok(TypeTerm::Var(place))
}

/// The type of functions from one type to another.
///
/// # Errors
///
/// An allocation failure.
pub(crate) fn arrow(alloc: Global, from: TypeTerm, to: TypeTerm) -> Result<TypeTerm, AllocError>
    ensures { IfOk result (λ found. kernel.type_of found
        ≡ expr.Arrow (kernel.type_of from) (kernel.type_of to)) }
{
    let from = Box::new(alloc, from)?;
    let to = Box::new(alloc, to)?;
    Ok(TypeTerm::Arrow(from, to))
}

/// The type of functions of several parameters, of these types, one after
/// another.
fn arrows(alloc: Global, parameters: Vec<TypeTerm>, to: TypeTerm) -> Result<TypeTerm, AllocError>
    ensures { IfOk result (λ found. kernel.type_of found
        ≡ arrows (map kernel.type_of parameters.items) (kernel.type_of to)) }
{
    let mut left = parameters;
    let mut whole = to;
    'left: while let Some(from) = left.pop() {
        whole = arrow(alloc, from, whole)?;
    }
    Ok(whole)
}

/// The type of functions of one parameter or more: the first, and the further
/// ones.
fn function(
    alloc: Global,
    first: TypeTerm,
    further: Vec<TypeTerm>,
    to: TypeTerm,
) -> Result<TypeTerm, AllocError>
    ensures { IfOk result (λ found. kernel.type_of found
        ≡ arrows (kernel.type_of first ∷ map kernel.type_of further.items) (kernel.type_of to)) }
{
    let others = arrows(alloc, further, to)?;
    arrow(alloc, first, others)
}

/// The type of lists of elements of a type.
///
/// # Errors
///
/// An allocation failure.
pub(crate) fn list_of(
    alloc: Global,
    top: &TopNames<'_>,
    element: TypeTerm,
) -> Result<TypeTerm, AllocError>
    ensures { (names : List (List ℕ)) (around : meant.Names) → TellsNames names around top.now
        → IfOk result (λ found. kernel.type_of found ≡ list_of around (kernel.type_of element)) }
{
    let name = top.prelude_type(BuiltInType::List);
    let arguments = vec![in alloc; element]?;
    Ok(TypeTerm::Named(name, arguments))
}

/// The type of tuples of components of these types.
fn tuple_of(top: &TopNames<'_>, components: Vec<TypeTerm>) -> TypeTerm
    ensures { (names : List (List ℕ)) (around : meant.Names) → TellsNames names around top.now
        → kernel.type_of result
        ≡ expr.Named (around.prelude_type (tuple_name (length components.items)))
        (kernel.types_of components.items) }
{
    let name = top.prelude_type(BuiltInType::Tuple(components.len()));
    TypeTerm::Named(name, components)
}

/// The type that a type of a text stands for. A type variable stands for its
/// place among these names.
///
/// # Errors
///
/// An allocation failure.
#[cycle(types)]
pub(crate) fn type_of(
    alloc: Global,
    top: &TopNames<'_>,
    variables: &[Name],
    t: syntax::TypeTerm<'_>,
) -> Result<TypeTerm, AllocError>
    ensures { (owner : NameId) (names : List (List ℕ)) (around : meant.Names)
        → TellsNames names around top.now → All (NameIsOf owner names) variables.now
        → TypeIsOf owner names t.entry
        → IfOk result (λ found. kernel.type_of found ≡ type_of around
        (texts (map (name_meaning names) variables.now)) (type_meaning names t.entry)) }
{
    match t.node(alloc)? {
        TypeNode::Variable(name) => variable(variables, name),
        TypeNode::Named(name, arguments) => {
            let made = types_of(alloc, top, variables, arguments.as_slice())?;
            Ok(TypeTerm::Named(top.type_name(name), made))
        }
        TypeNode::Function(first, further, to) => {
            let from = type_of(alloc, top, variables, first)?;
            let others = types_of(alloc, top, variables, further.as_slice())?;
            let made = type_of(alloc, top, variables, to)?;
            function(alloc, from, others, made)
        }
        TypeNode::Tuple(_, components) => {
            let made = types_of(alloc, top, variables, components.as_slice())?;
            Ok(tuple_of(top, made))
        }
        TypeNode::List(_, element) => {
            let made = type_of(alloc, top, variables, element)?;
            list_of(alloc, top, made)
        }
    }
}

/// The types that types of a text stand for.
///
/// # Errors
///
/// An allocation failure.
#[cycle(types)]
pub(crate) fn types_of(
    alloc: Global,
    top: &TopNames<'_>,
    variables: &[Name],
    ts: &[syntax::TypeTerm<'_>],
) -> Result<Vec<TypeTerm>, AllocError>
    ensures { (owner : NameId) (names : List (List ℕ)) (around : meant.Names)
        → TellsNames names around top.now → All (NameIsOf owner names) variables.now
        → All (TypeIsOf owner names) ts.now
        → IfOk result (λ found. map kernel.type_of found.items ≡ fields_of around
        (texts (map (name_meaning names) variables.now)) (types_meaning names ts.now)) }
{
    let mut types = Vec::new(alloc);
    'types: for t in ts {
        let made = type_of(alloc, top, variables, *t)?;
        types.push(made)?;
    }
    Ok(types)
}
