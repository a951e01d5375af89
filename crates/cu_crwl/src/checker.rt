//! What the rows of the table are checked with.
use crate::Claim;
use cu_kernel::Heads;
use std::alloc::Global;

/// A checker of statements about the terms of a program.
#[derive(Clone, Copy)]
pub(crate) struct Checker<'a> {
    pub(crate) alloc: Global,
    /// The functions and constructors of the program.
    pub(crate) heads: &'a Heads<'a>,
    /// The claims that may be used for set calls.
    pub(crate) claims: &'a [Claim],
}
