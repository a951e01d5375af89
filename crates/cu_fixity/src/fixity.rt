//! Fixities.

use cu_syntax::Side;

/// How an operator is grouped.
#[derive(Clone, Copy, Debug, PartialEq, Eq)]
pub struct Fixity {
    pub side: Side,
    /// An operator of a higher level takes its operands first.
    pub level: u32,
}
