//! Uses of names.
ghost use Rattle.std.specs.Prelude.{◌≡◌, ◌∷◌, ◌&&◌, [], List, ℕ, is_none};
ghost use Rattle.std.specs.List.{All};
ghost use Rattle.cu_entities.specs.EntityMeaning.{space_meaning};
ghost use Rattle.cu_syntax.specs.Names.{name_meaning};
ghost use Rattle.cu_syntax.specs.Owners.{NameIsOf};
ghost use Rattle.cu_names.specs.Texts.{text_of};
ghost use Rattle.cu_uses.specs.Binders.{is_among};
ghost use Rattle.cu_uses.specs.Demands.{Demand, Uses, use_of, used};
ghost use Rattle.cu_uses.specs.Faults.{demand_fault, wrong_name};
ghost use Rattle.cu_uses.specs.Gathered.{names_meaning};
ghost use Rattle.cu_uses.specs.Inside.Scopes.{Sees};
ghost use Rattle.cu_uses.specs.Inside.Worlds.{Told, World};

use crate::fault::{Fault, Wrong};
use crate::first_fault::FirstFault;
use crate::scope::Scope;
use cu_entities::{Key, Meant, Space};
use cu_syntax::Name;

/// Tells what is wrong with a name.
pub(crate) fn tell(wrong: Wrong, name: Name, first: &mut FirstFault)
    ensures { (w : World) (demand : Demand) → NameIsOf w.owner w.names name
        → demand_fault w.bindings demand ≡ wrong_name wrong (name_meaning w.names name) ∷ []
        → Told w first.old (demand ∷ []) first.new }
{
    first.tell(Fault {
        wrong,
        place: name.place,
        name: name.text,
    });
}

/// Tells what is wrong with a use of an entity of top level.
pub(crate) fn use_entity(scope: &Scope<'_>, space: Space, name: Name, first: &mut FirstFault)
    ensures { (w : World) (local : List (List ℕ)) → Sees w local scope.now
        → NameIsOf w.owner w.names name
        → Told w first.old (Uses (space_meaning space) (name_meaning w.names name) ∷ []) first.new }
{
    let key = Key {
        qualifier: name.qualifier,
        base: name.base,
        space,
    };
    match scope.table().find(key) {
        None => tell(Wrong::UnknownName, name, first),
        Some(Meant::Several) => tell(Wrong::Ambiguous, name, first),
        Some(Meant::One(_)) => {}
    }
}

/// Whether a name is that of a local variable. A name with a qualifier isn't.
fn is_variable(scope: &Scope<'_>, name: Name) -> bool
    ensures { (w : World) (local : List (List ℕ)) → Sees w local scope.now
        → NameIsOf w.owner w.names name
        → result ≡ (is_none name.qualifier && is_among local (text_of w.names name.text)) }
{
    name.qualifier.is_none() && scope.is_local(name.text)
}

/// Tells what is wrong with a use of a function, a constructor or a variable.
pub(crate) fn use_value(scope: &Scope<'_>, name: Name, first: &mut FirstFault)
    ensures { (w : World) (local : List (List ℕ)) → Sees w local scope.now
        → NameIsOf w.owner w.names name
        → Told w first.old (use_of local (name_meaning w.names name)) first.new }
{
    if is_variable(scope, name) {
        return;
    }
    use_entity(scope, Space::Values, name, first);
}

/// Tells what is wrong with uses of entities of top level.
pub(crate) fn use_entities(scope: &Scope<'_>, space: Space, names: &[Name], first: &mut FirstFault)
    ensures { (w : World) (local : List (List ℕ)) → Sees w local scope.now
        → All (NameIsOf w.owner w.names) names.now
        → Told w first.old (used (space_meaning space) (names_meaning w.names names.now))
        first.new }
{
    for name in names {
        use_entity(scope, space, *name, first);
    }
}
