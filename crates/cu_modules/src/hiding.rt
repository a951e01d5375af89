//! Imported entities that a module's own ones hide.
ghost use Rattle.std.specs.Prelude.{◌≡◌, List, None, ℕ, IfOk, map, not};
ghost use Rattle.std.specs.List.{filter};
ghost use Rattle.cu_entities.specs.Entities as meant;
ghost use Rattle.cu_entities.specs.EntityMeaning.{EntityIsKnown, entity_meaning};
ghost use Rattle.cu_modules.specs.Inside.Binding.{IsScope};
ghost use Rattle.cu_modules.specs.Known.{AreEntities};
ghost use Rattle.cu_modules.specs.Scopes.{binding, is_hidden};

use crate::module_scope::ModuleScope;
use cu_entities::{Entity, Key};
use std::alloc::{AllocError, Global};

/// Whether one of a module's own entities, which are bound without a qualifier,
/// hides an imported one, which has its unqualified name.
fn is_hidden(own: &ModuleScope, entity: Entity) -> bool
    ensures { (names : List (List ℕ)) (mine : List meant.Entity)
        → EntityIsKnown names entity → IsScope names (map (binding None) mine) own.now
        → result ≡ is_hidden mine (entity_meaning names entity) }
{
    own.table.find(Key::of(None, entity)).is_some()
}

/// The entities that a module's own ones, which are bound without a qualifier,
/// don't hide.
pub(crate) fn unhidden(
    alloc: Global,
    own: &ModuleScope,
    entities: &[Entity],
) -> Result<Vec<Entity>, AllocError>
    ensures { (names : List (List ℕ)) (mine imported : List meant.Entity)
        → IsScope names (map (binding None) mine) own.now
        → AreEntities names imported entities.now
        → IfOk result (λ found. AreEntities names
        (filter (λ e. not (is_hidden mine e)) imported) found.items) }
{
    let mut seen = Vec::new(alloc);
    'entities: for entity in entities {
        if is_hidden(own, *entity) {
            continue;
        }
        seen.push(*entity)?;
    }
    Ok(seen)
}
