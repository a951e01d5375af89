//! The data types that are built in.
ghost use Rattle.std.specs.Prelude.{◌≡◌, ◌++◌, ◌∷◌, [], List, ℕ, IfOk, OnOk, codes, map};
ghost use Rattle.cu_kernel.specs.KernelOf.{constructor_meaning, type_meaning};
ghost use Rattle.cu_kernel.specs.TypeExpr as expr;
ghost use Rattle.cu_kernel.specs.TypesOf.{type_of};
ghost use Rattle.cu_toplevel.specs.Inside.FirstTypes.{list_type};
ghost use Rattle.cu_toplevel.specs.Readings.{IsReading};
ghost use Rattle.cu_toplevel.specs.Surrounding.{type_text};
ghost use Rattle.cu_translation.specs.ModuleTypes as meant;
ghost use Rattle.cu_translation.specs.ModuleTypes.{constructor, data_type, first_types, list_of, tuple_type, variables_from};

use crate::types::list_of;
use crate::{BuiltInType, Reading};
use cu_kernel::{Constructor, DataType, TypeTerm};
use cu_translation::BuiltIn;
use std::alloc::{AllocError, Global};

/// The numbers of components of tuples; unit has none.
const TUPLES: [u32; 15] = [0, 2, 3, 4, 5, 6, 7, 8, 9, 10, 11, 12, 13, 14, 15];

/// The type variables from the first on.
fn first_variables(alloc: Global, count: u32) -> Result<Vec<TypeTerm>, AllocError>
    ensures { IfOk result (λ found. map type_of found.items ≡ variables_from count 0) }
{
    let mut variables = Vec::new(alloc);
    'variables: for number in 0..count {
        variables.push(TypeTerm::Var(number))?;
    }
    Ok(variables)
}

/// The type of tuples of so many components. Unit is that of none.
fn tuple_type(alloc: Global, reading: &Reading<'_>, components: u32) -> Result<DataType, AllocError>
    ensures { (names : List (List ℕ)) (r : meant.Reading) → IsReading names r reading.now
        → IfOk result (λ made. type_meaning made ≡ tuple_type r components) }
{
    let what = BuiltInType::Tuple(components as usize);
    let name = reading.top.type_number(what);
    let fields = first_variables(alloc, components)?;
    let constructors = vec![in alloc; reading.constructor(name, fields)]?;
    Ok(reading.data_type(name, components, constructors))
}

/// The constructor between a list's first element and the others.
fn cons(alloc: Global, reading: &Reading<'_>) -> Result<Constructor, AllocError>
    ensures { (names : List (List ℕ)) (r : meant.Reading) → IsReading names r reading.now
        → IfOk result (λ made. constructor_meaning made ≡ constructor r (codes ":")
        (expr.Variable 0 ∷ list_of r.names (expr.Variable 0) ∷ [])) }
{
    let name = reading.top.value_number(BuiltIn::Cons);
    let others = list_of(alloc, &reading.top, TypeTerm::Var(0))?;
    let fields = vec![in alloc; TypeTerm::Var(0), others]?;
    Ok(reading.constructor(name, fields))
}

/// The type of lists.
fn list_type(alloc: Global, reading: &Reading<'_>) -> Result<DataType, AllocError>
    ensures { (names : List (List ℕ)) (r : meant.Reading) → IsReading names r reading.now
        → IfOk result (λ made. type_meaning made ≡ list_type r) }
{
    let name = reading.top.type_number(BuiltInType::List);
    let longer = cons(alloc, reading)?;
    let empty = reading.constructor(name, Vec::new(alloc));
    let constructors = vec![in alloc; empty, longer]?;
    Ok(reading.data_type(name, 1, constructors))
}

/// A type whose values are literals.
fn literal_type(alloc: Global, reading: &Reading<'_>, what: BuiltInType) -> DataType
    ensures { (names : List (List ℕ)) (r : meant.Reading) → IsReading names r reading.now
        → type_meaning result ≡ data_type r (type_text what) 0 [] }
{
    let name = reading.top.type_number(what);
    reading.data_type(name, 0, Vec::new(alloc))
}

/// Adds the types of tuples of these numbers of components.
fn add_tuples(
    alloc: Global,
    reading: &Reading<'_>,
    sizes: &[u32],
    types: &mut Vec<DataType>,
) -> Result<(), AllocError>
    ensures { (names : List (List ℕ)) (r : meant.Reading) → IsReading names r reading.now
        → OnOk result (map type_meaning types.new.items
        ≡ map type_meaning types.old.items ++ map (tuple_type r) sizes.now) }
{
    'sizes: for components in sizes {
        let made = tuple_type(alloc, reading, *components)?;
        types.push(made)?;
    }
    Ok(())
}

/// The data types that are built in: lists, unit, the tuples, and the types of
/// literals.
///
/// # Errors
///
/// An allocation failure.
pub(crate) fn first_types(alloc: Global, reading: &Reading<'_>) -> Result<Vec<DataType>, AllocError>
    ensures { (names : List (List ℕ)) (r : meant.Reading) → IsReading names r reading.now
        → IfOk result (λ made. map type_meaning made.items ≡ first_types r) }
{
    let lists = list_type(alloc, reading)?;
    let mut types = vec![in alloc; lists]?;
    add_tuples(alloc, reading, &TUPLES, &mut types)?;
    types.push(literal_type(alloc, reading, BuiltInType::Int))?;
    types.push(literal_type(alloc, reading, BuiltInType::Char))?;
    Ok(types)
}
