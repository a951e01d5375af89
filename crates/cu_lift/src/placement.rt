//! What is known of the local functions of one top-level function before
//! they are lifted.
use cu_names::NameId;

/// Where the local functions of one top-level function go.
#[derive(Drop)]
pub(crate) struct Placement {
    /// The numbers of the local functions among themselves, in the order of their places.
    pub ordered: Vec<usize>,
    /// The number of each local function in the lifted program.
    pub numbers: Vec<usize>,
    /// The number after those of all local functions.
    pub end: usize,
    /// The variables that each local function captures, in rising order.
    pub captured: Vec<Vec<u32>>,
    /// The name of each local function in the lifted program.
    pub names: Vec<NameId>,
}
