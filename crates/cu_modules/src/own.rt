//! The entities of a module.
ghost use Rattle.std.specs.Prelude.{◌≡◌, ◌++◌, List, ℕ, IfOk, OnOk, map};
ghost use Rattle.std.specs.List.{All};
ghost use Rattle.cu_entities.specs.Entities as meant;
ghost use Rattle.cu_modules.specs.BuiltInEntities.{HasBuiltIn};
ghost use Rattle.cu_modules.specs.Known.{AreEntities};
ghost use Rattle.cu_modules.specs.Ordering.{module_of};
ghost use Rattle.cu_modules.specs.OwnEntities.{constructors_declared, declared_by};
ghost use Rattle.cu_modules.specs.Reading.{HasModule};
ghost use Rattle.cu_modules.specs.Scopes.{own_entities};
ghost use Rattle.cu_names.specs.Texts.{IsKnown, text_of};
ghost use Rattle.cu_syntax.specs.Answer.{item_meaning};
ghost use Rattle.cu_syntax.specs.Items.{constructor_meaning};
ghost use Rattle.cu_syntax.specs.Owners.{ConstructorDeclarationIsOf, ItemIsOf};

use crate::Module;
use crate::built_in::built_in_entities;
use cu_entities::{Entity, Sort};
use cu_names::{NameId, Names};
use cu_syntax::{ConstructorDeclaration, DeclarationNode, Item, ItemNode};
use std::alloc::{AllocError, Global};

/// The entities of a module: first those that have no declaration, then those
/// that its items declare.
pub(crate) fn own_entities(
    alloc: Global,
    names: &Names,
    module: &Module,
) -> Result<Vec<Entity>, AllocError>
    requires built_in { HasBuiltIn names.now }
    requires has { HasModule names.now «module».now }
    ensures { IfOk result (λ found. AreEntities names.now
        (own_entities (module_of names.now «module».now)) found.items) }
{
    let mut entities = built_in_entities(alloc, names, module.name)?;
    'items: for item in module.syntax.items() {
        declare(alloc, module.name, item, &mut entities)?;
    }
    Ok(entities)
}

/// Adds what an item declares.
fn declare(
    alloc: Global,
    owner: NameId,
    item: &Item,
    entities: &mut Vec<Entity>,
) -> Result<(), AllocError>
    ensures { (names : List (List ℕ)) (before : List meant.Entity)
        → IsKnown names owner → ItemIsOf owner names item.now
        → AreEntities names before entities.old.items
        → OnOk result
        (AreEntities names
        (before ++ declared_by (text_of names owner) (item_meaning names item.now))
        entities.new.items) }
{
    match item.node(alloc)? {
        ItemNode::Data(_, name, _, constructors) => {
            let sort = Sort::DataType;
            entities.push(Entity {
                owner,
                name: name.text,
                sort,
            })?;
            add_constructors(owner, name.text, constructors.as_slice(), entities)
        }
        ItemNode::Synonym(_, name, _, _) => {
            let sort = Sort::Synonym;
            entities.push(Entity {
                owner,
                name: name.text,
                sort,
            })?;
            Ok(())
        }
        ItemNode::Declaration(declaration) => match declaration.node(alloc)? {
            DeclarationNode::FunctionRule(_, name, _, _) => {
                let sort = Sort::Function;
                entities.push(Entity {
                    owner,
                    name: name.text,
                    sort,
                })?;
                Ok(())
            }
            _ => Ok(()),
        },
        _ => Ok(()),
    }
}

/// Adds the constructors of a data type.
fn add_constructors(
    owner: NameId,
    type_name: NameId,
    constructors: &[ConstructorDeclaration<'_>],
    entities: &mut Vec<Entity>,
) -> Result<(), AllocError>
    ensures { (names : List (List ℕ)) (before : List meant.Entity)
        → IsKnown names owner → IsKnown names type_name
        → All (ConstructorDeclarationIsOf owner names) constructors.now
        → AreEntities names before entities.old.items
        → OnOk result
        (AreEntities names
        (before ++ constructors_declared (text_of names owner) (text_of names type_name)
        (map (constructor_meaning names) constructors.now)) entities.new.items) }
{
    'constructors: for constructor in constructors {
        entities.push(Entity {
            owner,
            name: constructor.name.text,
            sort: Sort::Constructor(type_name),
        })?;
    }
    Ok(())
}
