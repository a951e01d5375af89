//! Uses of the names of types in the items of modules, and the parameters of
//! the types that these declare.
ghost use Rattle.std.specs.Prelude.{List, ℕ, IfOk, OnOk};
ghost use Rattle.std.specs.List.{All};
ghost use Rattle.cu_names.specs.Texts.{AllDiffer, IsKnown, text_of};
ghost use Rattle.cu_names.specs.declared.names.NameId.{NameId};
ghost use Rattle.cu_syntax.specs.Owners.{ConstructorDeclarationIsOf, ItemIsOf};
ghost use Rattle.cu_declared.specs.Inside.Gathered.{Adds};
ghost use Rattle.cu_declared.specs.Inside.Items.{in_fields, in_item, in_items, item_parameters, items_parameters};
ghost use Rattle.cu_declared.specs.Inside.Numbers.{Gains};

use crate::expressions::declaration;
use crate::found::TypeUse;
use crate::numbers::Numbers;
use crate::types::{type_term, types};
use cu_names::NameId;
use cu_syntax::{ConstructorDeclaration, Item, ItemNode};
use std::alloc::{AllocError, Global};

/// Finds the names of types in items.
pub(crate) fn items_uses(
    alloc: Global,
    items: &[Item],
    found: &mut Vec<TypeUse>,
) -> Result<(), AllocError>
    ensures { (owner : NameId) (names : List (List ℕ)) → All (ItemIsOf owner names) items.now
        → OnOk result (Adds owner names found.old.items
        (in_items names items.now) found.new.items) }
{
    for item in items {
        item_uses(alloc, item, found)?;
    }
    Ok(())
}

/// Finds the names of types in an item.
fn item_uses(alloc: Global, item: &Item, found: &mut Vec<TypeUse>) -> Result<(), AllocError>
    ensures { (owner : NameId) (names : List (List ℕ)) → ItemIsOf owner names item.now
        → OnOk result (Adds owner names found.old.items (in_item names item.now) found.new.items) }
{
    let node = item.node(alloc)?;
    match node {
        ItemNode::Import(_import) => Ok(()),
        ItemNode::Fixity(_, _, _, _operators) => Ok(()),
        ItemNode::Data(_, _, _parameters, constructors) => {
            fields_uses(alloc, constructors.as_slice(), found)
        }
        ItemNode::Synonym(_, _, _parameters, meant) => type_term(alloc, meant, found),
        ItemNode::Declaration(d) => declaration(alloc, d, found),
    }
}

/// Finds the names of types in the fields of constructors.
fn fields_uses(
    alloc: Global,
    constructors: &[ConstructorDeclaration<'_>],
    found: &mut Vec<TypeUse>,
) -> Result<(), AllocError>
    ensures { (owner : NameId) (names : List (List ℕ))
        → All (ConstructorDeclarationIsOf owner names) constructors.now
        → OnOk result (Adds owner names found.old.items
        (in_fields names constructors.now) found.new.items) }
{
    for constructor in constructors {
        types(alloc, constructor.fields.as_slice(), found)?;
    }
    Ok(())
}

/// Adds how many parameters the types have that items of a module declare.
pub(crate) fn add_parameters(
    alloc: Global,
    owner: NameId,
    items: &[Item],
    numbers: &mut Numbers,
) -> Result<(), AllocError>
    ensures { (names : List (List ℕ)) → AllDiffer names → IsKnown names owner
        → All (ItemIsOf owner names) items.now
        → OnOk result (Gains names numbers.old
        (items_parameters names (text_of names owner) items.now) numbers.new) }
{
    for item in items {
        add_parameter(alloc, owner, item, numbers)?;
    }
    Ok(())
}

/// Adds how many parameters the type has that an item of a module declares.
fn add_parameter(
    alloc: Global,
    owner: NameId,
    item: &Item,
    numbers: &mut Numbers,
) -> Result<(), AllocError>
    ensures { (names : List (List ℕ)) → AllDiffer names → IsKnown names owner
        → ItemIsOf owner names item.now
        → OnOk result (Gains names numbers.old
        (item_parameters names (text_of names owner) item.now) numbers.new) }
{
    let node = item.node(alloc)?;
    match node {
        ItemNode::Import(_import) => Ok(()),
        ItemNode::Fixity(_, _, _, _operators) => Ok(()),
        ItemNode::Data(_, name, parameters, _constructors) => {
            numbers.add(owner, name.text, parameters.len())
        }
        ItemNode::Synonym(_, name, parameters, _) => {
            numbers.add(owner, name.text, parameters.len())
        }
        ItemNode::Declaration(_) => Ok(()),
    }
}
