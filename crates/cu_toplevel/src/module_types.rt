//! The data types and the synonyms of a module.
ghost use Rattle.std.specs.Prelude.{◌≡◌, ◌++◌, List, ℕ, IfOk, OnOk, map};
ghost use Rattle.std.specs.List.{All, flat_map};
ghost use Rattle.cu_kernel.specs.KernelOf as kernel;
ghost use Rattle.cu_names.specs.declared.names.NameId.{NameId};
ghost use Rattle.cu_syntax.specs.Answer.{item_meaning};
ghost use Rattle.cu_syntax.specs.Items.{constructor_meaning};
ghost use Rattle.cu_syntax.specs.Names.{name_meaning};
ghost use Rattle.cu_syntax.specs.Owners.{ConstructorDeclarationIsOf, ItemIsOf, NameIsOf, TypeIsOf};
ghost use Rattle.cu_syntax.specs.Types.{type_meaning};
ghost use Rattle.cu_toplevel.specs.Inside.Declared.{declared_synonym, declared_type};
ghost use Rattle.cu_toplevel.specs.Readings.{IsReading};
ghost use Rattle.cu_translation.specs.ModuleTypes as meant;
ghost use Rattle.cu_translation.specs.ModuleTypes.{declared_constructor, first_types, synonyms_by, types_by, types_in};
ghost use Rattle.cu_translation.specs.Numbered.{only_in_prelude};

use crate::Reading;
use crate::first_types::first_types;
use crate::types::{to_u32, type_of, types_of};
use cu_entities::Space;
use cu_kernel::{Constructor, DataType, Synonym};
use cu_syntax::{ConstructorDeclaration, Item, ItemNode, Name, TypeTerm};
use std::alloc::{AllocError, Global};

/// The constructor that a declaration declares, in a type with these parameters.
fn declared_constructor(
    alloc: Global,
    reading: &Reading<'_>,
    parameters: &[Name],
    declared: &ConstructorDeclaration<'_>,
) -> Result<Constructor, AllocError>
    ensures { (owner : NameId) (names : List (List ℕ)) (r : meant.Reading)
        → IsReading names r reading.now → All (NameIsOf owner names) parameters.now
        → ConstructorDeclarationIsOf owner names declared.now
        → IfOk result (λ made. kernel.constructor_meaning made ≡ declared_constructor r
        (map (name_meaning names) parameters.now) (constructor_meaning names declared.now)) }
{
    let fields = types_of(alloc, &reading.top, parameters, declared.fields.as_slice())?;
    Ok(reading.constructor(declared.name.text, fields))
}

/// The constructors that declarations declare, in a type with these parameters.
fn declared_constructors(
    alloc: Global,
    reading: &Reading<'_>,
    parameters: &[Name],
    declared: &[ConstructorDeclaration<'_>],
) -> Result<Vec<Constructor>, AllocError>
    ensures { (owner : NameId) (names : List (List ℕ)) (r : meant.Reading)
        → IsReading names r reading.now → All (NameIsOf owner names) parameters.now
        → All (ConstructorDeclarationIsOf owner names) declared.now
        → IfOk result (λ made. map kernel.constructor_meaning made.items
        ≡ map (declared_constructor r (map (name_meaning names) parameters.now))
        (map (constructor_meaning names) declared.now)) }
{
    let mut constructors = Vec::new(alloc);
    'declared: for one in declared {
        let made = declared_constructor(alloc, reading, parameters, one)?;
        constructors.push(made)?;
    }
    Ok(constructors)
}

/// The data type of a declaration.
fn declared_type(
    alloc: Global,
    reading: &Reading<'_>,
    name: Name,
    parameters: &[Name],
    declared: &[ConstructorDeclaration<'_>],
) -> Result<DataType, AllocError>
    ensures { (owner : NameId) (names : List (List ℕ)) (r : meant.Reading)
        → IsReading names r reading.now → NameIsOf owner names name
        → All (NameIsOf owner names) parameters.now
        → All (ConstructorDeclarationIsOf owner names) declared.now
        → IfOk result (λ made. kernel.type_meaning made ≡ declared_type r (name_meaning names name)
        (map (name_meaning names) parameters.now) (map (constructor_meaning names) declared.now)) }
{
    let arity = to_u32(parameters.len())?;
    let constructors = declared_constructors(alloc, reading, parameters, declared)?;
    Ok(reading.data_type(name.text, arity, constructors))
}

/// The synonym of a declaration.
fn declared_synonym(
    alloc: Global,
    reading: &Reading<'_>,
    name: Name,
    parameters: &[Name],
    t: TypeTerm<'_>,
) -> Result<Synonym, AllocError>
    ensures { (owner : NameId) (names : List (List ℕ)) (r : meant.Reading)
        → IsReading names r reading.now → NameIsOf owner names name
        → All (NameIsOf owner names) parameters.now → TypeIsOf owner names t.entry
        → IfOk result (λ made. kernel.synonym_meaning made
        ≡ declared_synonym r (name_meaning names name)
        (map (name_meaning names) parameters.now) (type_meaning names t.entry)) }
{
    let arity = to_u32(parameters.len())?;
    let body = type_of(alloc, &reading.top, parameters, t)?;
    Ok(Synonym {
        name: name.text,
        module: reading.number,
        public: reading.is_public(Space::Types, name.text),
        arity,
        body,
    })
}

/// Adds the data type that an item declares, if it declares one.
fn add_type(
    alloc: Global,
    reading: &Reading<'_>,
    item: &Item,
    types: &mut Vec<DataType>,
) -> Result<(), AllocError>
    ensures { (owner : NameId) (names : List (List ℕ)) (r : meant.Reading)
        → IsReading names r reading.now → ItemIsOf owner names item.now
        → OnOk result (map kernel.type_meaning types.new.items
        ≡ map kernel.type_meaning types.old.items ++ types_by r (item_meaning names item.now)) }
{
    match item.node(alloc)? {
        ItemNode::Data(_, name, parameters, constructors) => {
            let made = declared_type(
                alloc,
                reading,
                name,
                parameters.as_slice(),
                constructors.as_slice(),
            )?;
            types.push(made)?;
            Ok(())
        }
        _ => Ok(()),
    }
}

/// Adds the synonym that an item declares, if it declares one.
fn add_synonym(
    alloc: Global,
    reading: &Reading<'_>,
    item: &Item,
    synonyms: &mut Vec<Synonym>,
) -> Result<(), AllocError>
    ensures { (owner : NameId) (names : List (List ℕ)) (r : meant.Reading)
        → IsReading names r reading.now → ItemIsOf owner names item.now
        → OnOk result (map kernel.synonym_meaning synonyms.new.items
        ≡ map kernel.synonym_meaning synonyms.old.items
        ++ synonyms_by r (item_meaning names item.now)) }
{
    match item.node(alloc)? {
        ItemNode::Synonym(_, name, parameters, t) => {
            let made = declared_synonym(alloc, reading, name, parameters.as_slice(), t)?;
            synonyms.push(made)?;
            Ok(())
        }
        _ => Ok(()),
    }
}

/// The data types that a module has without a declaration.
fn given_types(alloc: Global, reading: &Reading<'_>) -> Result<Vec<DataType>, AllocError>
    ensures { (names : List (List ℕ)) (r : meant.Reading) → IsReading names r reading.now
        → IfOk result (λ made. map kernel.type_meaning made.items
        ≡ only_in_prelude r.m.name (first_types r)) }
{
    if reading.is_prelude() {
        return first_types(alloc, reading);
    }
    Ok(Vec::new(alloc))
}

/// The data types of a module, those that are built in before the others.
///
/// # Errors
///
/// An allocation failure.
pub fn types_in(alloc: Global, reading: &Reading<'_>) -> Result<Vec<DataType>, AllocError>
    ensures { (names : List (List ℕ)) (r : meant.Reading) → IsReading names r reading.now
        → IfOk result (λ made. map kernel.type_meaning made.items ≡ types_in r) }
{
    let mut types = given_types(alloc, reading)?;
    'items: for item in reading.module.syntax().items() {
        add_type(alloc, reading, item, &mut types)?;
    }
    Ok(types)
}

/// The synonyms of a module.
///
/// # Errors
///
/// An allocation failure.
pub fn synonyms_in(alloc: Global, reading: &Reading<'_>) -> Result<Vec<Synonym>, AllocError>
    ensures { (names : List (List ℕ)) (r : meant.Reading) → IsReading names r reading.now
        → IfOk result (λ made. map kernel.synonym_meaning made.items
        ≡ flat_map (synonyms_by r) r.m.syntax.items) }
{
    let mut synonyms = Vec::new(alloc);
    'items: for item in reading.module.syntax().items() {
        add_synonym(alloc, reading, item, &mut synonyms)?;
    }
    Ok(synonyms)
}
