//! Whether what stands beside the rules names modules, types and functions
//! of the program.
ghost use Rattle.std.specs.Prelude.{◌≡◌, map, option_map, slice_get};
ghost use Rattle.std.specs.List.{list_all};
ghost use Rattle.cu_kernel.specs.KernelOf.{body_meaning, constructor_meaning, function_meaning, goal_meaning, kernel_of, mark_meaning, synonym_meaning, type_meaning};
ghost use Rattle.cu_kernel.specs.Tests.{fit_declarations, passes};
ghost use Rattle.cu_kernel.specs.TypesOf.{type_of, types_of};
ghost use Rattle.cu_kernel.specs.Valid.{fit_marks, fit_types, fits_constructor, fits_data_type, fits_goal, fits_mark, fits_signature, fits_synonym, fits_type, has_rules, is_module, is_type_name, takes_names};

use crate::{
    Body, Constructor, DataType, Function, Goal, Mark, ProgramParts, Synonym, TypeName, TypeTerm,
};

/// Which type variables may stand in a type.
#[derive(Clone, Copy)]
enum TypeVariables {
    /// All type variables may stand in the type.
    All,
    /// Only the parameters of a declared type may, of which there are so many.
    Below(u32),
}

impl TypeVariables {
    fn allow(self, x: u32) -> bool
        ensures { result ≡ passes self x }
    {
        match self {
            TypeVariables::All => true,
            TypeVariables::Below(count) => x < count,
        }
    }
}

/// Whether a type or a synonym is the program's.
fn is_type_name(parts: &ProgramParts, name: TypeName) -> bool
    ensures { result ≡ is_type_name (kernel_of parts.now) name }
{
    match name {
        TypeName::Data(id) => id.0 < parts.types.len(),
        TypeName::Synonym(id) => id.0 < parts.synonyms.len(),
    }
}

/// Whether the names of a type are the program's, and its variables may stand
/// in it.
#[cycle(types)]
#[tactic(auto, using(crate::specs::TypesOf::types_of_variants))]
fn type_fits(parts: &ProgramParts, variables: TypeVariables, t: &TypeTerm) -> bool
    ensures { result ≡ fits_type (kernel_of parts.now) (passes variables) (type_of t.now) }
{
    match t {
        TypeTerm::Var(x) => variables.allow(*x),
        TypeTerm::Arrow(argument, result_type) => {
            type_fits(parts, variables, argument) && type_fits(parts, variables, result_type)
        }
        TypeTerm::Named(name, arguments) => is_type_name(parts, *name)
            && types_fit(parts, variables, arguments),
    }
}

/// Whether all of these types fit the program.
#[cycle(types)]
fn types_fit(parts: &ProgramParts, variables: TypeVariables, types: &[TypeTerm]) -> bool
    ensures { result ≡ fit_types (kernel_of parts.now) (passes variables) (types_of types.now) }
{
    for t in types {
        if !type_fits(parts, variables, t) {
            return false;
        }
    }
    true
}

/// Whether a module is the program's.
fn is_module(parts: &ProgramParts, place: u32) -> bool
    ensures { result ≡ is_module (kernel_of parts.now) place }
{
    (place as usize) < parts.modules.len()
}

/// Whether the types of a constructor's arguments fit the program.
#[tactic(auto, using(crate::proofs::TypeLemmas::listed_types))]
fn constructor_fits(parts: &ProgramParts, arity: u32, constructor: &Constructor) -> bool
    ensures { result ≡ fits_constructor (kernel_of parts.now) arity
        (constructor_meaning constructor.now) }
{
    types_fit(
        parts,
        TypeVariables::Below(arity),
        constructor.fields.as_slice(),
    )
}

/// Whether the argument types of all of these constructors fit the program.
fn constructors_fit(parts: &ProgramParts, arity: u32, constructors: &[Constructor]) -> bool
    ensures { result ≡ list_all (fits_constructor (kernel_of parts.now) arity)
        (map constructor_meaning constructors.now) }
{
    for constructor in constructors {
        if !constructor_fits(parts, arity, constructor) {
            return false;
        }
    }
    true
}

/// Whether a data type names only types and modules of the program.
fn data_type_fits(parts: &ProgramParts, data_type: &DataType) -> bool
    ensures { result ≡ fits_data_type (kernel_of parts.now) (type_meaning data_type.now) }
{
    is_module(parts, data_type.module)
        && constructors_fit(parts, data_type.arity, data_type.constructors.as_slice())
}

/// Whether all of these data types name only types and modules of the program.
fn data_types_fit(parts: &ProgramParts, types: &[DataType]) -> bool
    ensures { result ≡ list_all (fits_data_type (kernel_of parts.now))
        (map type_meaning types.now) }
{
    for data_type in types {
        if !data_type_fits(parts, data_type) {
            return false;
        }
    }
    true
}

/// Whether a synonym names only types and modules of the program.
fn synonym_fits(parts: &ProgramParts, synonym: &Synonym) -> bool
    ensures { result ≡ fits_synonym (kernel_of parts.now) (synonym_meaning synonym.now) }
{
    is_module(parts, synonym.module)
        && type_fits(parts, TypeVariables::Below(synonym.arity), &synonym.body)
}

/// Whether all of these synonyms name only types and modules of the program.
fn synonyms_fit(parts: &ProgramParts, synonyms: &[Synonym]) -> bool
    ensures { result ≡ list_all (fits_synonym (kernel_of parts.now))
        (map synonym_meaning synonyms.now) }
{
    for synonym in synonyms {
        if !synonym_fits(parts, synonym) {
            return false;
        }
    }
    true
}

/// Whether the type that a function declares, if any, names only types of the
/// program.
fn signature_fits(parts: &ProgramParts, declared: &Option<TypeTerm>) -> bool
    ensures { result ≡ fits_signature (kernel_of parts.now) (option_map type_of declared.now) }
{
    match declared {
        Some(t) => type_fits(parts, TypeVariables::All, t),
        None => true,
    }
}

/// Whether a mark fits its function: its module and declared type are the
/// program's, and it counts no more captured variables than there are
/// parameters.
fn mark_fits(parts: &ProgramParts, mark: &Mark, function: &Function) -> bool
    ensures { result ≡ fits_mark (kernel_of parts.now) (mark_meaning mark.now)
        (function_meaning function.now) }
{
    is_module(parts, mark.module)
        && mark.captured <= function.arity
        && signature_fits(parts, &mark.declared)
}

/// Whether each function has its mark, and the mark fits it.
fn marks_fit(parts: &ProgramParts, marks: &[Mark], functions: &[Function]) -> bool
    ensures { result ≡ fit_marks (kernel_of parts.now) (map mark_meaning marks.now)
        (map function_meaning functions.now) }
{
    if marks.len() != functions.len() {
        return false;
    }
    for (place, mark) in marks.iter().enumerate() {
        if !mark_fits(parts, mark, &functions[place]) {
            return false;
        }
    }
    true
}

/// Whether a body is made of rules.
fn has_rules(body: &Body) -> bool
    ensures { result ≡ has_rules (body_meaning body.now) }
{
    match body {
        Body::Rules(_) => true,
        Body::External(_) => false,
    }
}

/// Whether a goal's function is there, with rules and a parameter for each
/// name.
fn goal_fits(parts: &ProgramParts, goal: &Option<Goal>) -> bool
    ensures { result ≡ fits_goal (kernel_of parts.now) (option_map goal_meaning goal.now) }
{
    match goal {
        Some(goal) => takes_names(parts, goal),
        None => true,
    }
}

fn takes_names(parts: &ProgramParts, goal: &Goal) -> bool
    ensures { result ≡ fits_goal (kernel_of parts.now) (Some (goal_meaning goal.now)) }
{
    match parts.functions.get(goal.function.0) {
        Some(function) => function.arity as usize == goal.names.len() && has_rules(&function.body),
        None => false,
    }
}

/// Whether what the program declares beside its rules names only its modules,
/// types and functions.
pub(crate) fn declarations_fit(parts: &ProgramParts) -> bool
    ensures { result ≡ fit_declarations (kernel_of parts.now) }
{
    data_types_fit(parts, parts.types.as_slice())
        && synonyms_fit(parts, parts.synonyms.as_slice())
        && marks_fit(parts, parts.marks.as_slice(), parts.functions.as_slice())
        && goal_fits(parts, &parts.goal)
}
