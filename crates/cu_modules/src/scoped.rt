//! Modules with what is in scope in them.
use crate::module_scope::ModuleScope;
use cu_entities::Entity;
use cu_syntax::Import;

/// The entities and the imports of a module, and what is in scope there.
#[derive(Drop)]
pub(crate) struct Scoped {
    pub(crate) own: Vec<Entity>,
    pub(crate) imports: Vec<Import>,
    pub(crate) scope: ModuleScope,
}
