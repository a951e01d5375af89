//! The entities that modules have without a declaration.
ghost use Rattle.std.specs.Prelude.{◌≡◌, ◌++◌, ◌∷◌, [], List, ℕ, IfOk, OnOk, Some, map, slice_get};
ghost use Rattle.std.specs.List.{All, Contains, flat_map};
ghost use Rattle.cu_entities.specs.Entities as meant;
ghost use Rattle.cu_entities.specs.EntityMeaning.{SortIsKnown, sort_meaning};
ghost use Rattle.cu_modules.specs.BuiltInEntities.{HasBuiltIn, built_in_entities, entity};
ghost use Rattle.cu_modules.specs.BuiltInEntities.{cons, list_type, prelude_name, set_functions, single_type};
ghost use Rattle.cu_modules.specs.Known.{AreEntities, listed_texts};
ghost use Rattle.cu_names.specs.Texts.{IsKnown, text_of};

use cu_entities::{Entity, Sort};
use cu_names::{NameId, Names};
use std::alloc::{AllocError, Global};

/// The modules that are built in.
pub(crate) const MODULES: [&str; 2] = ["Prelude", "SetFunctions"];

/// The type of lists with its constructor `[]`, and the other constructor.
pub(crate) const LISTS: [&str; 2] = ["[]", ":"];

/// Unit and the tuples of 2 to 15 components: types with one constructor of the
/// same name.
pub(crate) const SINGLE_TYPES: [&str; 15] = [
    "()",
    "(,)",
    "(,,)",
    "(,,,)",
    "(,,,,)",
    "(,,,,,)",
    "(,,,,,,)",
    "(,,,,,,,)",
    "(,,,,,,,,)",
    "(,,,,,,,,,)",
    "(,,,,,,,,,,)",
    "(,,,,,,,,,,,)",
    "(,,,,,,,,,,,,)",
    "(,,,,,,,,,,,,,)",
    "(,,,,,,,,,,,,,,)",
];

/// The types of literals.
pub(crate) const LITERAL_TYPES: [&str; 2] = ["Int", "Char"];

/// The operations that are built in.
pub(crate) const EXTERNALS: [&str; 15] = [
    "+", "-", "*", "div", "mod", "<", "<=", ">", ">=", "==", "=:=", "&", "ord", "chr", "failed",
];

/// The functions that give all values of calls of functions of 0 to 7 parameters.
pub(crate) const SET_FUNCTIONS: [&str; 8] = [
    "set0", "set1", "set2", "set3", "set4", "set5", "set6", "set7",
];

/// The entities that a module has without a declaration.
pub(crate) fn built_in_entities(
    alloc: Global,
    names: &Names,
    owner: NameId,
) -> Result<Vec<Entity>, AllocError>
    requires built_in { HasBuiltIn names.now }
    requires known { IsKnown names.now owner }
    ensures { IfOk result (λ found. AreEntities names.now
        (built_in_entities (text_of names.now owner)) found.items) }
{
    let mut entities = Vec::new(alloc);
    let text = names.text(owner);
    if text == "Prelude" {
        add_first(names, owner, &mut entities)?;
        return Ok(entities);
    }
    if text == "SetFunctions" {
        add_set_functions(names, owner, &SET_FUNCTIONS, &mut entities)?;
        return Ok(entities);
    }
    Ok(entities)
}

/// The number of a text that the table has.
pub(crate) fn found(names: &Names, text: &str) -> NameId
    requires { Contains names.now text.now }
    ensures { slice_get names.now result.0 ≡ Some text.now }
{
    let Some(id) = names.find(text) else {
        unreachable!()
    };
    id
}

/// Adds the entities that the Prelude has without a declaration.
fn add_first(names: &Names, owner: NameId, entities: &mut Vec<Entity>) -> Result<(), AllocError>
    requires built_in { HasBuiltIn names.now }
    requires known { IsKnown names.now owner }
    requires prelude { text_of names.now owner ≡ prelude_name }
    ensures { (before : List meant.Entity) → AreEntities names.now before entities.old.items
        → OnOk result (AreEntities names.now
        (before ++ built_in_entities prelude_name) entities.new.items) }
{
    add_list(names, owner, entities)?;
    add_single_types(names, owner, &SINGLE_TYPES, entities)?;
    add_named(names, owner, Sort::DataType, &LITERAL_TYPES, entities)?;
    add_named(names, owner, Sort::Function, &EXTERNALS, entities)
}

/// The constructor between a list's first element and the others.
pub(crate) fn cons(names: &Names) -> Entity
    requires { HasBuiltIn names.now }
    ensures { AreEntities names.now (cons ∷ []) (result ∷ []) }
{
    Entity {
        owner: found(names, "Prelude"),
        name: found(names, ":"),
        sort: Sort::Constructor(found(names, "[]")),
    }
}

/// Adds the type of lists and its constructors.
fn add_list(names: &Names, owner: NameId, entities: &mut Vec<Entity>) -> Result<(), AllocError>
    requires built_in { HasBuiltIn names.now }
    requires known { IsKnown names.now owner }
    requires prelude { text_of names.now owner ≡ prelude_name }
    ensures { (before : List meant.Entity) → AreEntities names.now before entities.old.items
        → OnOk result (AreEntities names.now (before ++ list_type) entities.new.items) }
{
    let name = found(names, "[]");
    entities.push(Entity {
        owner,
        name,
        sort: Sort::DataType,
    })?;
    entities.push(Entity {
        owner,
        name,
        sort: Sort::Constructor(name),
    })?;
    entities.push(cons(names))?;
    Ok(())
}

/// Adds types that have one constructor each, of the type's name.
fn add_single_types(
    names: &Names,
    owner: NameId,
    texts: &[&str],
    entities: &mut Vec<Entity>,
) -> Result<(), AllocError>
    requires there { All (Contains names.now) (listed_texts texts.now) }
    requires known { IsKnown names.now owner }
    requires prelude { text_of names.now owner ≡ prelude_name }
    ensures { (before : List meant.Entity) → AreEntities names.now before entities.old.items
        → OnOk result (AreEntities names.now
        (before ++ flat_map single_type (listed_texts texts.now)) entities.new.items) }
{
    'types: for text in texts {
        let name = found(names, text);
        entities.push(Entity {
            owner,
            name,
            sort: Sort::DataType,
        })?;
        entities.push(Entity {
            owner,
            name,
            sort: Sort::Constructor(name),
        })?;
    }
    Ok(())
}

/// Adds entities of one sort with these names.
fn add_named(
    names: &Names,
    owner: NameId,
    sort: Sort,
    texts: &[&str],
    entities: &mut Vec<Entity>,
) -> Result<(), AllocError>
    requires there { All (Contains names.now) (listed_texts texts.now) }
    requires known { IsKnown names.now owner }
    requires sort { SortIsKnown names.now sort }
    ensures { (before : List meant.Entity) → AreEntities names.now before entities.old.items
        → OnOk result (AreEntities names.now
        (before ++ map (entity (text_of names.now owner) (sort_meaning names.now sort))
        (listed_texts texts.now)) entities.new.items) }
{
    'texts: for text in texts {
        let name = found(names, text);
        entities.push(Entity { owner, name, sort })?;
    }
    Ok(())
}

/// Adds the functions that give all values of calls, of which the first is for
/// functions without parameters.
fn add_set_functions(
    names: &Names,
    owner: NameId,
    texts: &[&str],
    entities: &mut Vec<Entity>,
) -> Result<(), AllocError>
    requires there { All (Contains names.now) (listed_texts texts.now) }
    requires known { IsKnown names.now owner }
    ensures { (before : List meant.Entity) → AreEntities names.now before entities.old.items
        → OnOk result (AreEntities names.now
        (before ++ set_functions (text_of names.now owner) 0 (listed_texts texts.now))
        entities.new.items) }
{
    'texts: for (parameters, text) in texts.iter().enumerate() {
        let name = found(names, text);
        entities.push(Entity {
            owner,
            name,
            sort: Sort::SetFunction(parameters),
        })?;
    }
    Ok(())
}
