//! Equations between types.
use cu_kernel::TypeTerm;

/// An equation: two types that shall be the same.
#[derive(Drop)]
pub struct Equation {
    /// One of the two types.
    pub left: TypeTerm,
    /// The other type.
    pub right: TypeTerm,
}
