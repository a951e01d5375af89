//! Whether what stands beside the functions names modules, types and
//! functions of the program.
ghost use Rattle.std.specs.Prelude.{◌≡◌, Some, map, option_map};
ghost use Rattle.std.specs.List.{list_all};
ghost use Rattle.cu_kernel.specs.KernelOf.{constructor_meaning, goal_meaning, mark_meaning, synonym_meaning, type_meaning};
ghost use Rattle.cu_kernel.specs.LocalKernelOf.{local_body_meaning, local_function_meaning, local_kernel_of};
ghost use Rattle.cu_kernel.specs.LocalValid.{all_name_types, constructor_names_types, goal_fits, has_rules, is_module, is_type_name, local_signature_fits, mark_is_placed, names_types, signature_names_types, synonym_is_placed, takes_names, type_is_placed};
ghost use Rattle.cu_kernel.specs.TypesOf.{type_of, types_of};

use cu_kernel::{
    Constructor, DataType, Goal, LocalBody, LocalFunction, LocalParts, Mark, Synonym, TypeName,
    TypeTerm,
};

/// Whether a type or a synonym is there.
fn is_type_name(parts: &LocalParts, name: TypeName) -> bool
    ensures { result ≡ is_type_name (local_kernel_of parts.now) name }
{
    match name {
        TypeName::Data(id) => id.0 < parts.types.len(),
        TypeName::Synonym(id) => id.0 < parts.synonyms.len(),
    }
}

/// Whether the names of a type are there.
#[cycle(names)]
#[tactic(auto, using(cu_kernel::specs::TypesOf::types_of_variants))]
fn names_types(parts: &LocalParts, t: &TypeTerm) -> bool
    ensures { result ≡ names_types (local_kernel_of parts.now) (type_of t.now) }
{
    match t {
        TypeTerm::Var(_) => true,
        TypeTerm::Arrow(argument, result_type) => {
            names_types(parts, argument) && names_types(parts, result_type)
        }
        TypeTerm::Named(name, arguments) => {
            is_type_name(parts, *name) && all_name_types(parts, arguments)
        }
    }
}

/// Whether the names of these types are there.
#[cycle(names)]
fn all_name_types(parts: &LocalParts, types: &[TypeTerm]) -> bool
    ensures { result ≡ all_name_types (local_kernel_of parts.now) (types_of types.now) }
{
    for t in types {
        if !names_types(parts, t) {
            return false;
        }
    }
    true
}

/// Whether a module is there.
fn is_module(parts: &LocalParts, place: u32) -> bool
    ensures { result ≡ is_module (local_kernel_of parts.now) place }
{
    (place as usize) < parts.modules.len()
}

/// Whether the names of a declared type are there, where one is declared.
fn signature_names_types(parts: &LocalParts, declared: &Option<TypeTerm>) -> bool
    ensures { result ≡ signature_names_types (local_kernel_of parts.now)
        (option_map type_of declared.now) }
{
    match declared {
        Some(t) => names_types(parts, t),
        None => true,
    }
}

/// Whether the names of a constructor's types are there.
#[tactic(auto, using(crate::proofs::TypeLists::listed))]
fn constructor_names_types(parts: &LocalParts, constructor: &Constructor) -> bool
    ensures { result ≡ constructor_names_types (local_kernel_of parts.now)
        (constructor_meaning constructor.now) }
{
    all_name_types(parts, constructor.fields.as_slice())
}

/// Whether the names of these constructors' types are there.
fn constructors_name_types(parts: &LocalParts, constructors: &[Constructor]) -> bool
    ensures { result ≡ list_all (constructor_names_types (local_kernel_of parts.now))
        (map constructor_meaning constructors.now) }
{
    for constructor in constructors {
        if !constructor_names_types(parts, constructor) {
            return false;
        }
    }
    true
}

/// Whether a data type's module and the names of its types are there.
fn type_is_placed(parts: &LocalParts, data_type: &DataType) -> bool
    ensures { result ≡ type_is_placed (local_kernel_of parts.now) (type_meaning data_type.now) }
{
    is_module(parts, data_type.module)
        && constructors_name_types(parts, data_type.constructors.as_slice())
}

/// Whether the modules and the names of types of all of these data types are
/// there.
pub(crate) fn types_are_placed(parts: &LocalParts, types: &[DataType]) -> bool
    ensures { result ≡ list_all (type_is_placed (local_kernel_of parts.now))
        (map type_meaning types.now) }
{
    for data_type in types {
        if !type_is_placed(parts, data_type) {
            return false;
        }
    }
    true
}

/// Whether a synonym's module and the names of its type are there.
fn synonym_is_placed(parts: &LocalParts, synonym: &Synonym) -> bool
    ensures { result ≡ synonym_is_placed (local_kernel_of parts.now) (synonym_meaning synonym.now) }
{
    is_module(parts, synonym.module) && names_types(parts, &synonym.body)
}

/// Whether the modules and the names of types of all of these synonyms are
/// there.
pub(crate) fn synonyms_are_placed(parts: &LocalParts, synonyms: &[Synonym]) -> bool
    ensures { result ≡ list_all (synonym_is_placed (local_kernel_of parts.now))
        (map synonym_meaning synonyms.now) }
{
    for synonym in synonyms {
        if !synonym_is_placed(parts, synonym) {
            return false;
        }
    }
    true
}

/// Whether a mark's module and the names of its type are there.
fn mark_is_placed(parts: &LocalParts, mark: &Mark) -> bool
    ensures { result ≡ mark_is_placed (local_kernel_of parts.now) (mark_meaning mark.now) }
{
    is_module(parts, mark.module) && signature_names_types(parts, &mark.declared)
}

/// Whether the modules and the names of types of all of these marks are there.
pub(crate) fn marks_are_placed(parts: &LocalParts, marks: &[Mark]) -> bool
    ensures { result ≡ list_all (mark_is_placed (local_kernel_of parts.now))
        (map mark_meaning marks.now) }
{
    for mark in marks {
        if !mark_is_placed(parts, mark) {
            return false;
        }
    }
    true
}

/// Whether the names of the types that local functions declare are there.
pub(crate) fn local_signatures_fit(parts: &LocalParts, locals: &[LocalFunction]) -> bool
    ensures { result ≡ list_all (local_signature_fits (local_kernel_of parts.now))
        (map local_function_meaning locals.now) }
{
    for function in locals {
        if !signature_names_types(parts, &function.declared) {
            return false;
        }
    }
    true
}

/// Whether a body is made of rules.
fn has_rules(body: &LocalBody) -> bool
    ensures { result ≡ has_rules (local_body_meaning body.now) }
{
    match body {
        LocalBody::Rules(_) => true,
        LocalBody::External(_) => false,
    }
}

fn takes_names(parts: &LocalParts, goal: &Goal) -> bool
    ensures { result ≡ goal_fits (local_kernel_of parts.now) (Some (goal_meaning goal.now)) }
{
    match parts.functions.get(goal.function.0) {
        Some(function) => function.arity as usize == goal.names.len() && has_rules(&function.body),
        None => false,
    }
}

/// Whether a goal's function is there, with rules and a parameter for each
/// name.
pub(crate) fn goal_fits(parts: &LocalParts, goal: &Option<Goal>) -> bool
    ensures { result ≡ goal_fits (local_kernel_of parts.now) (option_map goal_meaning goal.now) }
{
    match goal {
        Some(goal) => takes_names(parts, goal),
        None => true,
    }
}
