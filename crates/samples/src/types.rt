//! Types of kernel programs: those that every program begins with, and others
//! of their kind.
use crate::lists::{and, one};
use cu_kernel::{Constructor, DataType, TypeId, TypeName, TypeTerm};
use cu_names::{NameId, Names};
use std::alloc::{AllocError, Global};

/// A constructor that is exported.
pub fn constructor(
    name: Result<NameId, AllocError>,
    fields: Result<Vec<TypeTerm>, AllocError>,
) -> Result<Constructor, AllocError> {
    let fields = fields?;
    Ok(Constructor {
        name: name?,
        public: true,
        fields,
    })
}

/// A type of the first module.
pub fn data_type(
    name: Result<NameId, AllocError>,
    arity: u32,
    constructors: Result<Vec<Constructor>, AllocError>,
) -> Result<DataType, AllocError> {
    let constructors = constructors?;
    Ok(DataType {
        name: name?,
        module: 0,
        arity,
        public: true,
        constructors,
    })
}

/// The type of the lists of the variable 0.
fn list_of_first(alloc: Global) -> Result<TypeTerm, AllocError> {
    let arguments = one(alloc, Ok(TypeTerm::Var(0)))?;
    Ok(TypeTerm::Named(TypeName::Data(TypeId(0)), arguments))
}

/// `data [] a = [] | a : [a]`
fn list_type(alloc: Global, names: &mut Names) -> Result<DataType, AllocError> {
    let empty = constructor(names.intern("[]"), Ok(Vec::new(alloc)));
    let fields = and(one(alloc, Ok(TypeTerm::Var(0))), list_of_first(alloc));
    let longer = constructor(names.intern(":"), fields);
    data_type(names.intern("[]"), 1, and(one(alloc, empty), longer))
}

/// So many type variables, from 0 on.
pub fn variables(alloc: Global, count: u32) -> Result<Vec<TypeTerm>, AllocError> {
    let mut variables = Vec::new(alloc);
    for x in 0..count {
        variables.push(TypeTerm::Var(x))?;
    }
    Ok(variables)
}

/// The type of tuples of so many components, or of as many fields of a
/// constructor with one name more.
pub fn tuple_type(
    alloc: Global,
    names: &mut Names,
    count: u32,
    name: &str,
) -> Result<DataType, AllocError> {
    let tuple = constructor(names.intern(name), variables(alloc, count));
    data_type(names.intern(name), count, one(alloc, tuple))
}

fn literal_type(alloc: Global, names: &mut Names, name: &str) -> Result<DataType, AllocError> {
    data_type(names.intern(name), 0, Ok(Vec::new(alloc)))
}

fn bool_type(alloc: Global, names: &mut Names) -> Result<DataType, AllocError> {
    let no = constructor(names.intern("False"), Ok(Vec::new(alloc)));
    let yes = constructor(names.intern("True"), Ok(Vec::new(alloc)));
    data_type(names.intern("Bool"), 0, and(one(alloc, no), yes))
}

/// The names of the types of tuples of 2 to 15 components.
const TUPLES: [&str; 14] = [
    "(,)",
    "(,,)",
    "(,,,)",
    "(,,,,)",
    "(,,,,,)",
    "(,,,,,,)",
    "(,,,,,,,)",
    "(,,,,,,,,)",
    "(,,,,,,,,,)",
    "(,,,,,,,,,,)",
    "(,,,,,,,,,,,)",
    "(,,,,,,,,,,,,)",
    "(,,,,,,,,,,,,,)",
    "(,,,,,,,,,,,,,,)",
];

/// The list, unit, the tuples, `Int` and `Char`.
fn first_types(alloc: Global, names: &mut Names) -> Result<Vec<DataType>, AllocError> {
    let list = one(alloc, list_type(alloc, names));
    let mut types = and(list, tuple_type(alloc, names, 0, "()"))?;
    let mut count = 2;
    for name in &TUPLES {
        types.push(tuple_type(alloc, names, count, name)?)?;
        count = count.saturating_add(1);
    }
    types.push(literal_type(alloc, names, "Int")?)?;
    types.push(literal_type(alloc, names, "Char")?)?;
    Ok(types)
}

/// The types that every program begins with, and `data Bool = False | True`.
pub fn plain_types(alloc: Global, names: &mut Names) -> Result<Vec<DataType>, AllocError> {
    and(first_types(alloc, names), bool_type(alloc, names))
}

/// `data Values a = Values [a]`, for the values of set functions.
pub fn values_type(alloc: Global, names: &mut Names) -> Result<DataType, AllocError> {
    let values = constructor(names.intern("Values"), one(alloc, list_of_first(alloc)));
    data_type(names.intern("Values"), 1, one(alloc, values))
}
