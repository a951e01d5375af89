//! What is in scope in a module.
use cu_entities::{Entity, NameTable};
use cu_names::NameId;

/// An entity that is bound, with the qualifier by which a text can name it, or
/// without one.
#[derive(Clone, Copy)]
pub(crate) struct Bound {
    pub(crate) qualifier: Option<NameId>,
    pub(crate) entity: Entity,
}

/// What is in scope in a module: a table of what names mean, and all that was
/// bound, in its order.
#[derive(Drop)]
pub(crate) struct ModuleScope {
    pub(crate) table: NameTable,
    pub(crate) bound: Vec<Bound>,
}
