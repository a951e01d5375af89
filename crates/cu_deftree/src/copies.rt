//! Copies of what a program has beside its functions.
ghost use Rattle.std.specs.Prelude.{◌≡◌, IfOk, map, option_map};
ghost use Rattle.cu_kernel.specs.KernelOf.{constructor_meaning, goal_meaning, mark_meaning, module_meaning, synonym_meaning, type_meaning};

use cu_kernel::{
    Constructor, DataType, Goal, Mark, ModuleInfo, Synonym, copy_mark, copy_type, copy_types,
};
use std::alloc::{AllocError, Global};

/// A copy of a constructor.
fn copy_constructor(alloc: Global, constructor: &Constructor) -> Result<Constructor, AllocError>
    ensures { IfOk result (λ copy. constructor_meaning copy ≡ constructor_meaning constructor.now) }
{
    let fields = copy_types(alloc, constructor.fields.as_slice())?;
    Ok(Constructor {
        name: constructor.name,
        public: constructor.public,
        fields,
    })
}

/// Copies of constructors.
fn copy_constructors(
    alloc: Global,
    constructors: &[Constructor],
) -> Result<Vec<Constructor>, AllocError>
    ensures { IfOk result (λ copies. map constructor_meaning copies.items
        ≡ map constructor_meaning constructors.now) }
{
    let mut copies = Vec::new(alloc);
    for constructor in constructors {
        copies.push(copy_constructor(alloc, constructor)?)?;
    }
    Ok(copies)
}

/// A copy of a data type.
fn copy_data_type(alloc: Global, data_type: &DataType) -> Result<DataType, AllocError>
    ensures { IfOk result (λ copy. type_meaning copy ≡ type_meaning data_type.now) }
{
    let constructors = copy_constructors(alloc, data_type.constructors.as_slice())?;
    Ok(DataType {
        name: data_type.name,
        module: data_type.module,
        arity: data_type.arity,
        public: data_type.public,
        constructors,
    })
}

/// Copies of data types.
pub(crate) fn copy_data_types(
    alloc: Global,
    types: &[DataType],
) -> Result<Vec<DataType>, AllocError>
    ensures { IfOk result (λ copies. map type_meaning copies.items ≡ map type_meaning types.now) }
{
    let mut copies = Vec::new(alloc);
    for data_type in types {
        copies.push(copy_data_type(alloc, data_type)?)?;
    }
    Ok(copies)
}

/// A copy of a synonym.
fn copy_synonym(alloc: Global, synonym: &Synonym) -> Result<Synonym, AllocError>
    ensures { IfOk result (λ copy. synonym_meaning copy ≡ synonym_meaning synonym.now) }
{
    let body = copy_type(alloc, &synonym.body)?;
    Ok(Synonym {
        name: synonym.name,
        module: synonym.module,
        public: synonym.public,
        arity: synonym.arity,
        body,
    })
}

/// Copies of synonyms.
pub(crate) fn copy_synonyms(alloc: Global, synonyms: &[Synonym]) -> Result<Vec<Synonym>, AllocError>
    ensures { IfOk result (λ copies. map synonym_meaning copies.items
        ≡ map synonym_meaning synonyms.now) }
{
    let mut copies = Vec::new(alloc);
    for synonym in synonyms {
        copies.push(copy_synonym(alloc, synonym)?)?;
    }
    Ok(copies)
}

/// A copy of what is known of a module.
fn copy_module(alloc: Global, info: &ModuleInfo) -> Result<ModuleInfo, AllocError>
    ensures { IfOk result (λ copy. module_meaning copy ≡ module_meaning info.now) }
{
    let imports = Vec::from_slice(alloc, info.imports.as_slice())?;
    let operators = Vec::from_slice(alloc, info.operators.as_slice())?;
    Ok(ModuleInfo {
        name: info.name,
        imports,
        operators,
    })
}

/// Copies of what is known of modules.
pub(crate) fn copy_modules(
    alloc: Global,
    modules: &[ModuleInfo],
) -> Result<Vec<ModuleInfo>, AllocError>
    ensures { IfOk result (λ copies. map module_meaning copies.items
        ≡ map module_meaning modules.now) }
{
    let mut copies = Vec::new(alloc);
    for info in modules {
        copies.push(copy_module(alloc, info)?)?;
    }
    Ok(copies)
}

/// Copies of marks.
pub(crate) fn copy_marks(alloc: Global, marks: &[Mark]) -> Result<Vec<Mark>, AllocError>
    ensures { IfOk result (λ copies. map mark_meaning copies.items ≡ map mark_meaning marks.now) }
{
    let mut copies = Vec::new(alloc);
    for mark in marks {
        copies.push(copy_mark(alloc, mark)?)?;
    }
    Ok(copies)
}

/// A copy of the goal, if there is one.
pub(crate) fn copy_goal(alloc: Global, goal: Option<&Goal>) -> Result<Option<Goal>, AllocError>
    ensures { IfOk result (λ copy. option_map goal_meaning copy
        ≡ option_map (λ goal. goal_meaning goal.now) goal.entry) }
{
    match goal {
        Some(goal) => {
            let names = Vec::from_slice(alloc, goal.names.as_slice())?;
            Ok(Some(Goal {
                function: goal.function,
                names,
            }))
        }
        None => Ok(None),
    }
}
