//! What is wrong with the names in import lists and export lists.
ghost use Rattle.std.specs.Prelude.{◌≡◌, ◌∷◌, [], List, ℕ, map};
ghost use Rattle.std.specs.List.{All, list_any};
ghost use Rattle.cu_entities.specs.Entities as meant;
ghost use Rattle.cu_entities.specs.declared.entities.Entity.{Entity};
ghost use Rattle.cu_modules.specs.Faults.{constructor_faults, unless};
ghost use Rattle.cu_modules.specs.Inside.Lists.{called};
ghost use Rattle.cu_modules.specs.Inside.Telling.{Told};
ghost use Rattle.cu_modules.specs.Known.{AreEntities};
ghost use Rattle.cu_names.specs.Texts.{AllDiffer};
ghost use Rattle.cu_names.specs.declared.names.NameId.{NameId};
ghost use Rattle.cu_syntax.specs.Items.{constructors_meaning};
ghost use Rattle.cu_syntax.specs.Names.{name_meaning};
ghost use Rattle.cu_syntax.specs.Owners.{ConstructorsAreOf, NameIsOf};
ghost use Rattle.cu_syntax.specs.Syntax.{Only};
ghost use Rattle.cu_uses.specs.Faults.{unless_one, wrong_name};
ghost use Rattle.cu_uses.specs.declared.fault.Wrong.TheVariants.{NotExported};

use crate::lists::is_called;
use cu_entities::Entity;
use cu_syntax::{Constructors, Name};
use cu_uses::{Fault, FirstFault, Wrong};

/// Tells what is wrong with a name.
fn tell(wrong: Wrong, name: &Name, first: &mut FirstFault)
    ensures { (owner : NameId) (names : List (List ℕ)) → NameIsOf owner names name.now
        → Told owner names first.old
        (wrong_name wrong (name_meaning names name.now) ∷ []) first.new }
{
    first.tell(Fault {
        wrong,
        place: name.place,
        name: name.text,
    });
}

/// Tells that a name isn't exported, unless it is there.
pub(crate) fn tell_unless(there: bool, name: &Name, first: &mut FirstFault)
    ensures { (owner : NameId) (names : List (List ℕ)) → NameIsOf owner names name.now
        → Told owner names first.old (unless there (name_meaning names name.now)) first.new }
{
    if there {
        return;
    }
    tell(Wrong::NotExported, name, first);
}

/// Tells that a name means nothing, or several entities, where these are the
/// entities that it means.
pub(crate) fn tell_unless_one(entities: &[Entity], name: &Name, first: &mut FirstFault)
    ensures { (owner : NameId) (names : List (List ℕ)) (es : List meant.Entity)
        → NameIsOf owner names name.now → AreEntities names es entities.now
        → Told owner names first.old
        (unless_one NotExported (name_meaning names name.now) es) first.new }
{
    match entities {
        [] => tell(Wrong::NotExported, name, first),
        [_] => {}
        _ => tell(Wrong::Ambiguous, name, first),
    }
}

/// Whether a name is that of one of several entities.
fn is_name_of(name: &Name, entities: &[Entity]) -> bool
    ensures { result ≡ list_any (λ (e : Entity). called name.now e) entities.now }
{
    entities.iter().any(|entity| is_called(name, *entity))
}

/// Tells which names aren't those of any of these entities.
fn tell_missing(entities: &[Entity], listed: &[Name], first: &mut FirstFault)
    ensures { (owner : NameId) (names : List (List ℕ)) (es : List meant.Entity)
        → AllDiffer names → AreEntities names es entities.now
        → All (NameIsOf owner names) listed.now
        → Told owner names first.old
        (constructor_faults es (Only (map (name_meaning names) listed.now))) first.new }
{
    'listed: for name in listed {
        tell_unless(is_name_of(name, entities), name, first);
    }
}

/// Tells which constructors beside a type aren't among those that could be
/// meant.
pub(crate) fn tell_constructors(
    entities: &[Entity],
    constructors: &Constructors,
    first: &mut FirstFault,
)
    ensures { (owner : NameId) (names : List (List ℕ)) (es : List meant.Entity)
        → AllDiffer names → AreEntities names es entities.now
        → ConstructorsAreOf owner names constructors.now
        → Told owner names first.old
        (constructor_faults es (constructors_meaning names constructors.now)) first.new }
{
    match constructors {
        Constructors::None => {}
        Constructors::All => {}
        Constructors::Only(listed) => tell_missing(entities, listed.as_slice(), first),
    }
}
