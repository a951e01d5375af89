//! The names that items use.
ghost use Rattle.std.specs.Prelude.{◌∷◌, ◌++◌, [], List, ℕ, IfOk, OnOk, map};
ghost use Rattle.std.specs.List.{All};
ghost use Rattle.cu_names.specs.Texts.{AllDiffer};
ghost use Rattle.cu_names.specs.declared.names.NameId.{NameId};
ghost use Rattle.cu_syntax.specs.Owners.{ConstructorDeclarationIsOf, ItemIsOf, NameIsOf, TypeIsOf};
ghost use Rattle.cu_syntax.specs.Syntax as syntax;
ghost use Rattle.cu_uses.specs.Binders.{repeated, texts};
ghost use Rattle.cu_uses.specs.Demands.{Repeats};
ghost use Rattle.cu_uses.specs.Telling.{HasTexts};
ghost use Rattle.cu_uses.specs.Gathered.{names_meaning};
ghost use Rattle.cu_uses.specs.Inside.Scopes.{Sees};
ghost use Rattle.cu_uses.specs.Inside.Tops.{fields_ask, item_asks, items_ask, types_ask};
ghost use Rattle.cu_uses.specs.Inside.Worlds.{Told, World};

use crate::expressions::declaration;
use crate::first_fault::FirstFault;
use crate::found::{Found, types};
use crate::lists::{tell_missing, tell_repeated, text_set};
use crate::names::use_entities;
use crate::scope::Scope;
use crate::text_set::TextSet;
use cu_entities::Space;
use cu_syntax::{ConstructorDeclaration, Item, ItemNode, Name, TypeTerm};
use std::alloc::{AllocError, Global};

/// Tells what is wrong with the names that items use, each by itself.
pub(crate) fn items_uses(
    alloc: Global,
    scope: &Scope<'_>,
    items: &[Item],
    first: &mut FirstFault,
) -> Result<(), AllocError>
    ensures { (w : World) → Sees w [] scope.now → All (ItemIsOf w.owner w.names) items.now
        → OnOk result (Told w first.old (items_ask w.names items.now) first.new) }
{
    for item in items {
        item_uses(alloc, scope, item, first)?;
    }
    Ok(())
}

/// Tells what is wrong with the names that an item uses.
fn item_uses(
    alloc: Global,
    scope: &Scope<'_>,
    item: &Item,
    first: &mut FirstFault,
) -> Result<(), AllocError>
    ensures { (w : World) → Sees w [] scope.now → ItemIsOf w.owner w.names item.now
        → OnOk result (Told w first.old (item_asks w.names item.now) first.new) }
{
    match item.node(alloc)? {
        ItemNode::Import(_import) => Ok(()),
        ItemNode::Fixity(_, _, _, _operators) => Ok(()),
        ItemNode::Data(_, _, parameters, constructors) => {
            data_uses(
                alloc,
                scope,
                parameters.as_slice(),
                constructors.as_slice(),
                first,
            )
        }
        ItemNode::Synonym(_, _, parameters, meant) => {
            synonym_uses(alloc, scope, parameters.as_slice(), meant, first)
        }
        ItemNode::Declaration(d) => declaration(alloc, scope, d, first),
    }
}

/// Tells what is wrong with the names in a data type: with its parameters, and
/// in the types of the fields of its constructors.
fn data_uses(
    alloc: Global,
    scope: &Scope<'_>,
    parameters: &[Name],
    constructors: &[ConstructorDeclaration<'_>],
    first: &mut FirstFault,
) -> Result<(), AllocError>
    ensures { (w : World) (local : List (List ℕ)) → Sees w local scope.now
        → All (NameIsOf w.owner w.names) parameters.now
        → All (ConstructorDeclarationIsOf w.owner w.names) constructors.now
        → OnOk result
        (Told w first.old (map Repeats (repeated [] (names_meaning w.names parameters.now))
        ++ fields_ask w.names (names_meaning w.names parameters.now) constructors.now) first.new) }
{
    let known = open_parameters(alloc, parameters, first)?;
    fields_uses(alloc, scope, &known, constructors, first)
}

/// Tells what is wrong with the names in a synonym: with its parameters, and in
/// the type that it means.
fn synonym_uses(
    alloc: Global,
    scope: &Scope<'_>,
    parameters: &[Name],
    meant: TypeTerm<'_>,
    first: &mut FirstFault,
) -> Result<(), AllocError>
    ensures { (w : World) (local : List (List ℕ)) → Sees w local scope.now
        → All (NameIsOf w.owner w.names) parameters.now
        → TypeIsOf w.owner w.names meant.entry
        → OnOk result
        (Told w first.old (map Repeats (repeated [] (names_meaning w.names parameters.now))
        ++ types_ask w.names (names_meaning w.names parameters.now) (meant.entry ∷ [])) first.new) }
{
    let known = open_parameters(alloc, parameters, first)?;
    types_uses(alloc, scope, &known, &[meant], first)
}

/// The texts of a type's parameters. Tells those that stand twice.
fn open_parameters(
    alloc: Global,
    parameters: &[Name],
    first: &mut FirstFault,
) -> Result<TextSet, AllocError>
    ensures has { (owner : NameId) (names : List (List ℕ)) → AllDiffer names
        → All (NameIsOf owner names) parameters.now
        → IfOk result (HasTexts names (texts (names_meaning names parameters.now))) }
    ensures told { (w : World) → AllDiffer w.names → All (NameIsOf w.owner w.names) parameters.now
        → OnOk result
        (Told w first.old (map Repeats (repeated [] (names_meaning w.names parameters.now)))
        first.new) }
{
    let known = text_set(alloc, parameters)?;
    tell_repeated(alloc, parameters, first)?;
    Ok(known)
}

/// Tells what is wrong with the names in the types of the fields of
/// constructors.
fn fields_uses(
    alloc: Global,
    scope: &Scope<'_>,
    parameters: &TextSet,
    constructors: &[ConstructorDeclaration<'_>],
    first: &mut FirstFault,
) -> Result<(), AllocError>
    ensures { (w : World) (local : List (List ℕ)) (names : List syntax.Name)
        → Sees w local scope.now
        → HasTexts w.names (texts names) parameters.now
        → All (ConstructorDeclarationIsOf w.owner w.names) constructors.now
        → OnOk result (Told w first.old (fields_ask w.names names constructors.now) first.new) }
{
    for constructor in constructors {
        types_uses(
            alloc,
            scope,
            parameters,
            constructor.fields.as_slice(),
            first,
        )?;
    }
    Ok(())
}

/// Tells what is wrong with the names in types over these parameters.
fn types_uses(
    alloc: Global,
    scope: &Scope<'_>,
    parameters: &TextSet,
    ts: &[TypeTerm<'_>],
    first: &mut FirstFault,
) -> Result<(), AllocError>
    ensures { (w : World) (local : List (List ℕ)) (names : List syntax.Name)
        → Sees w local scope.now
        → HasTexts w.names (texts names) parameters.now → All (TypeIsOf w.owner w.names) ts.now
        → OnOk result (Told w first.old (types_ask w.names names ts.now) first.new) }
{
    let mut found = Found::new(alloc);
    types(alloc, ts, &mut found)?;
    use_entities(scope, Space::Types, found.constructors.as_slice(), first);
    tell_missing(parameters, found.variables.as_slice(), first);
    Ok(())
}
