//! Uses of types with a wrong number of arguments.
ghost use Rattle.std.specs.Prelude.{◌≡◌, List, ℕ, IfSome};
ghost use Rattle.std.specs.List.{All};
ghost use Rattle.std.specs.Option.{option_map};
ghost use Rattle.cu_entities.specs.EntityMeaning.{EntityIsKnown, entity_meaning};
ghost use Rattle.cu_declared.specs.Inside.Arities.{arity_faults, differs, entity_meant, is_wrong, use_faults};
ghost use Rattle.cu_declared.specs.Inside.Gathered.{UseIsOf, use_meaning, uses_meaning};
ghost use Rattle.cu_declared.specs.Inside.Numbers.{Have};
ghost use Rattle.cu_declared.specs.Inside.Told.{IsAt, Told, World, bindings_of};
ghost use Rattle.cu_declared.specs.Parameters.{Numbered};

use crate::first_fault::FirstFault;
use crate::found::{Fault, TypeUse, Wrong};
use crate::numbers::Numbers;
use cu_entities::{Entity, Space};
use cu_modules::Scopes;

/// What names mean in the module of a number.
#[derive(Clone, Copy)]
pub(crate) struct ModuleScope<'s> {
    pub(crate) scopes: &'s Scopes,
    pub(crate) number: u32,
}

impl ModuleScope<'_> {
    /// The type that a name means in the module, where it means one alone.
    pub(crate) fn meaning(self, used: TypeUse) -> Option<Entity>
        ensures meaning { (w : World) → IsAt w self.entry.number self.entry.scopes.now
            → UseIsOf w.owner w.names used
            → option_map (entity_meaning w.names) result
            ≡ entity_meant (bindings_of w) (use_meaning w.names used) }
        ensures known { (w : World) → IsAt w self.entry.number self.entry.scopes.now
            → IfSome result (EntityIsKnown w.names) }
    {
        self.scopes.meaning(
            self.number,
            Space::Types,
            used.name.qualifier,
            used.name.base,
        )
    }
}

/// Whether a type hasn't as many parameters as there are arguments: their
/// number is another one, or isn't known.
fn differs(parameters: Option<usize>, arguments: usize) -> bool
    ensures { result ≡ differs parameters arguments }
{
    match parameters {
        None => true,
        Some(parameters) => parameters != arguments,
    }
}

/// Whether a use has a wrong number of arguments.
fn is_wrong(scope: ModuleScope<'_>, types: &Numbers, used: TypeUse) -> bool
    ensures { (w : World) (numbers : List Numbered)
        → IsAt w scope.entry.number scope.entry.scopes.now
        → UseIsOf w.owner w.names used → Have w.names numbers types.now
        → result ≡ is_wrong numbers (bindings_of w) (use_meaning w.names used) }
{
    match scope.meaning(used) {
        None => false,
        Some(entity) => differs(types.of(entity), used.arguments),
    }
}

/// Tells a use that has a wrong number of arguments.
fn tell_arity(scope: ModuleScope<'_>, types: &Numbers, used: TypeUse, first: &mut FirstFault)
    ensures { (w : World) (numbers : List Numbered)
        → IsAt w scope.entry.number scope.entry.scopes.now
        → UseIsOf w.owner w.names used → Have w.names numbers types.now
        → Told w first.old (use_faults numbers (bindings_of w) (use_meaning w.names used))
        first.new }
{
    if is_wrong(scope, types, used) {
        first.tell(Fault {
            wrong: Wrong::TypeArity,
            place: used.name.place,
        });
    }
}

/// Tells the uses that have a wrong number of arguments.
pub(crate) fn tell_arities(
    scope: ModuleScope<'_>,
    types: &Numbers,
    uses: &[TypeUse],
    first: &mut FirstFault,
)
    ensures { (w : World) (numbers : List Numbered)
        → IsAt w scope.entry.number scope.entry.scopes.now
        → All (UseIsOf w.owner w.names) uses.now → Have w.names numbers types.now
        → Told w first.old (arity_faults numbers (bindings_of w) (uses_meaning w.names uses.now))
        first.new }
{
    for used in uses {
        tell_arity(scope, types, *used, first);
    }
}
