//! What the names of modules mean.
use crate::interfaces::Interfaces;
use cu_entities::NameTable;

/// What the names of modules mean: for each module what is in scope there, and
/// what it exports.
#[derive(Drop)]
pub struct Scopes {
    pub(crate) tables: Vec<NameTable>,
    pub(crate) interfaces: Interfaces,
}
