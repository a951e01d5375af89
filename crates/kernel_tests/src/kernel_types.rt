//! The types of the sample: the built-in ones, `Bool`, and types whose
//! constructors have the names of a tuple and of an operator.

use cu_kernel::DataType;
use cu_names::Names;
use samples::{plain_types, tuple_type};
use std::alloc::{AllocError, Global};

/// Types of which each has one constructor with the type's name, and so many
/// parameters as fields.
const RECORDS: [(&str, u32); 5] = [("Just", 1), ("(,)", 2), ("+", 1), (":+", 2), ("Tree", 3)];

/// The plain types, and the types of the records.
pub(crate) fn types(alloc: Global, names: &mut Names) -> Result<Vec<DataType>, AllocError> {
    let mut types = plain_types(alloc, names)?;
    for (name, count) in &RECORDS {
        types.push(tuple_type(alloc, names, *count, name)?)?;
    }
    Ok(types)
}
