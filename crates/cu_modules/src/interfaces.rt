//! What modules export.
use cu_entities::Entity;
use cu_names::NameId;
use indexmap::IndexMap;

/// What modules export, by their names.
#[derive(Drop)]
pub(crate) struct Interfaces {
    pub(crate) exports: IndexMap<NameId, Vec<Entity>>,
}
