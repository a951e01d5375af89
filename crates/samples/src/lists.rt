//! Lists, pairs and boxes, if there was memory for what is in them.
use std::alloc::{AllocError, Global};

/// A list of one.
pub fn one<T: Drop>(alloc: Global, item: Result<T, AllocError>) -> Result<Vec<T>, AllocError> {
    let mut items = Vec::new(alloc);
    items.push(item?)?;
    Ok(items)
}

/// A list, and one more.
pub fn and<T: Drop>(
    items: Result<Vec<T>, AllocError>,
    item: Result<T, AllocError>,
) -> Result<Vec<T>, AllocError> {
    let mut items = items?;
    items.push(item?)?;
    Ok(items)
}

/// Two values, if both are there.
pub fn pair_of<A: Drop, B: Drop>(
    first: Result<A, AllocError>,
    second: Result<B, AllocError>,
) -> Result<(A, B), AllocError> {
    let first = first?;
    Ok((first, second?))
}

pub fn boxed<T: Drop>(alloc: Global, item: Result<T, AllocError>) -> Result<Box<T>, AllocError> {
    Ok(Box::new(alloc, item?)?)
}
