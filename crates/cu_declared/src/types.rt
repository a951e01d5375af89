//! Uses of the names of types, in types.
ghost use Rattle.std.specs.Prelude.{List, ℕ, OnOk};
ghost use Rattle.std.specs.List.{All};
ghost use Rattle.cu_names.specs.declared.names.NameId.{NameId};
ghost use Rattle.cu_syntax.specs.Owners.{TypeIsOf};
ghost use Rattle.cu_declared.specs.Inside.Gathered.{Adds, in_type, in_types};

use crate::found::TypeUse;
use cu_syntax::{TypeNode, TypeTerm};
use std::alloc::{AllocError, Global};

/// Finds the names of types in a type.
#[cycle(types)]
pub(crate) fn type_term(
    alloc: Global,
    t: TypeTerm<'_>,
    found: &mut Vec<TypeUse>,
) -> Result<(), AllocError>
    ensures { (owner : NameId) (names : List (List ℕ)) → TypeIsOf owner names t.entry
        → OnOk result (Adds owner names found.old.items (in_type names t.entry) found.new.items) }
{
    let node = t.node(alloc)?;
    match node {
        TypeNode::Variable(_) => Ok(()),
        TypeNode::Named(name, arguments) => {
            found.push(TypeUse {
                name,
                arguments: arguments.len(),
            })?;
            types(alloc, arguments.as_slice(), found)
        }
        TypeNode::Function(first, further, result) => {
            type_term(alloc, first, found)?;
            types(alloc, further.as_slice(), found)?;
            type_term(alloc, result, found)
        }
        TypeNode::Tuple(_, components) => types(alloc, components.as_slice(), found),
        TypeNode::List(_, element) => type_term(alloc, element, found),
    }
}

/// Finds the names of types in several types.
#[cycle(types)]
pub(crate) fn types(
    alloc: Global,
    ts: &[TypeTerm<'_>],
    found: &mut Vec<TypeUse>,
) -> Result<(), AllocError>
    ensures { (owner : NameId) (names : List (List ℕ)) → All (TypeIsOf owner names) ts.now
        → OnOk result (Adds owner names found.old.items (in_types names ts.now) found.new.items) }
{
    for t in ts {
        type_term(alloc, *t, found)?;
    }
    Ok(())
}
