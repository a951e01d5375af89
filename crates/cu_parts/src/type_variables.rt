//! Whether the variables of declared types are their parameters.
ghost use Rattle.std.specs.Prelude.{◌≡◌, map};
ghost use Rattle.std.specs.List.{list_all};
ghost use Rattle.cu_kernel.specs.KernelOf.{constructor_meaning, synonym_meaning, type_meaning};
ghost use Rattle.cu_kernel.specs.LocalValid.{all_have_parameters, has_parameters, is_constructor, is_data_type, is_synonym};
ghost use Rattle.cu_kernel.specs.TypesOf.{type_of, types_of};

use cu_kernel::{Constructor, DataType, Synonym, TypeTerm};

/// The number below which a constructor's number of fields lies.
const ARITY_END: usize = u32::MAX as usize;

/// Whether the type variables of a type are among the first so many.
#[cycle(parameters)]
#[tactic(auto, using(cu_kernel::specs::TypesOf::types_of_variants))]
fn has_parameters(count: u32, t: &TypeTerm) -> bool
    ensures { result ≡ has_parameters count (type_of t.now) }
{
    match t {
        TypeTerm::Var(x) => *x < count,
        TypeTerm::Arrow(argument, result_type) => {
            has_parameters(count, argument) && has_parameters(count, result_type)
        }
        TypeTerm::Named(_, arguments) => all_have_parameters(count, arguments),
    }
}

/// Whether the type variables of these types are among the first so many.
#[cycle(parameters)]
fn all_have_parameters(count: u32, types: &[TypeTerm]) -> bool
    ensures { result ≡ all_have_parameters count (types_of types.now) }
{
    for t in types {
        if !has_parameters(count, t) {
            return false;
        }
    }
    true
}

/// Whether a constructor's fields can be counted, and their type variables are
/// the parameters of its type, which has so many.
#[tactic(auto, using(crate::proofs::TypeLists::listed))]
fn is_constructor(count: u32, constructor: &Constructor) -> bool
    ensures { result ≡ is_constructor count (constructor_meaning constructor.now) }
{
    constructor.fields.len() < ARITY_END
        && all_have_parameters(count, constructor.fields.as_slice())
}

/// Whether all of these constructors are right ones of a type with so many
/// parameters.
fn are_constructors(count: u32, constructors: &[Constructor]) -> bool
    ensures { result ≡ list_all (is_constructor count) (map constructor_meaning constructors.now) }
{
    for constructor in constructors {
        if !is_constructor(count, constructor) {
            return false;
        }
    }
    true
}

/// Whether the type variables of all of these data types are their parameters.
pub(crate) fn are_data_types(types: &[DataType]) -> bool
    ensures { result ≡ list_all is_data_type (map type_meaning types.now) }
{
    for data_type in types {
        if !are_constructors(data_type.arity, data_type.constructors.as_slice()) {
            return false;
        }
    }
    true
}

/// Whether the type variables of all of these synonyms are their parameters.
pub(crate) fn are_synonyms(synonyms: &[Synonym]) -> bool
    ensures { result ≡ list_all is_synonym (map synonym_meaning synonyms.now) }
{
    for synonym in synonyms {
        if !has_parameters(synonym.arity, &synonym.body) {
            return false;
        }
    }
    true
}
