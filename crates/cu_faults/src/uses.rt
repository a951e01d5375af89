//! Names of set functions that aren't followed by the name of a function of
//! their arity, or that have too many arguments.
ghost use Rattle.std.specs.Prelude.{◌≡◌, ◌∷◌, IfOk, IfSome, List, OnOk, Option, length};
ghost use Rattle.std.specs.List.{All};
ghost use Rattle.std.specs.Option.{option_map};
ghost use Rattle.cu_syntax.specs.Names.{name_meaning};
ghost use Rattle.cu_syntax.specs.Owners.{ExpressionIsOf, NameIsOf};
ghost use Rattle.cu_translation.specs.Around as definitions;
ghost use Rattle.cu_translation.specs.Around.{referent};
ghost use Rattle.cu_translation.specs.Faults.{is_set_call, use_faults};
ghost use Rattle.cu_translation.specs.LocalNames as local_names;
ghost use Rattle.cu_translation.specs.Meaning.{Setting, referent_meaning};
ghost use Rattle.cu_forms.specs.Scopes.{Sees};
ghost use Rattle.cu_faults.specs.Inside.Uses.{argument_name, use_told};
ghost use Rattle.cu_faults.specs.Telling.{Told};

use crate::first::First;
use cu_forms::{Scope, name_alone, referent};
use cu_kernel::{Head, LocalHead};
use cu_syntax::{Expression, Name};
use cu_translation::{Fault, Referent, Surroundings, Wrong};
use std::alloc::{AllocError, Global};

/// A name on arguments.
#[derive(Clone, Copy)]
pub(crate) struct Applied<'e, 't> {
    pub(crate) name: Name,
    pub(crate) arguments: &'e [Expression<'t>],
}

/// A name with what decides whether it may stand there, where it is one of set
/// functions: its first argument, if it has one, and how many others follow.
#[derive(Clone, Copy)]
pub(crate) struct NameUse<'t> {
    pub(crate) name: Name,
    pub(crate) argument: Option<Expression<'t>>,
    pub(crate) others: usize,
}

/// Tells a name on arguments that is a name of set functions, unless it may
/// stand on them.
pub(crate) fn use_at<A: Surroundings>(
    alloc: Global,
    around: &A,
    scope: &Scope<'_>,
    applied: Applied<'_, '_>,
    first: &mut First,
) -> Result<(), AllocError>
    ensures { (w : Setting) (local : local_names.Scope) → A.tells around.now w
        → Sees w local scope.now → NameIsOf w.owner w.names applied.entry.name
        → All (ExpressionIsOf w.owner w.names) applied.entry.arguments.now
        → OnOk result (Told w.owner first.old
        (use_told w local applied.entry.name applied.entry.arguments.now) first.new) }
{
    let name = applied.name;
    let arguments = applied.arguments;
    match arguments {
        [] => {
            let used = NameUse {
                name,
                argument: None,
                others: 0,
            };
            tell_use(alloc, around, scope, used, first)
        }
        [argument, others @ ..] => {
            let used = NameUse {
                name,
                argument: Some(*argument),
                others: others.len(),
            };
            tell_use(alloc, around, scope, used, first)
        }
    }
}

/// Tells a name of set functions, unless its first argument is the name of a
/// function of their arity, and the other arguments aren't too many.
pub(crate) fn tell_use<A: Surroundings>(
    alloc: Global,
    around: &A,
    scope: &Scope<'_>,
    used: NameUse<'_>,
    first: &mut First,
) -> Result<(), AllocError>
    ensures { (w : Setting) (local : local_names.Scope) (rest : List (Option definitions.Referent))
        → A.tells around.now w → Sees w local scope.now → NameIsOf w.owner w.names used.entry.name
        → IfSome used.entry.argument (ExpressionIsOf w.owner w.names)
        → length rest ≡ used.entry.others
        → OnOk result (Told w.owner first.old
        (use_faults (referent w.around local (name_meaning w.names used.entry.name))
        (name_meaning w.names used.entry.name)
        (argument_name w local used.entry.argument ∷ rest)) first.new) }
{
    let Referent::SetFunction(count) = referent(around, scope, used.name) else {
        return Ok(());
    };
    let named = name_of(alloc, around, scope, used.argument)?;
    if !is_set_call(count, named, used.others) {
        first.tell(Fault {
            wrong: Wrong::SetName,
            place: used.name.place,
        });
    }
    Ok(())
}

/// What an argument refers to, if it is there and is a name and nothing else.
fn name_of<A: Surroundings>(
    alloc: Global,
    around: &A,
    scope: &Scope<'_>,
    argument: Option<Expression<'_>>,
) -> Result<Option<Referent>, AllocError>
    ensures { (w : Setting) (local : local_names.Scope) → A.tells around.now w
        → Sees w local scope.now → IfSome argument.entry (ExpressionIsOf w.owner w.names)
        → IfOk result (λ found. option_map referent_meaning found
        ≡ argument_name w local argument.entry) }
{
    match argument {
        Some(e) => name_alone(alloc, around, scope, e),
        None => Ok(None),
    }
}

/// Whether the first argument, which refers to `argument`, is the name of a
/// function of top level of `count` parameters, and at most `count` other
/// arguments follow.
fn is_set_call(count: usize, argument: Option<Referent>, others: usize) -> bool
    ensures { (rest : List (Option definitions.Referent)) → length rest ≡ others
        → result ≡ is_set_call count (option_map referent_meaning argument ∷ rest) }
{
    match argument {
        Some(Referent::Callable(LocalHead::Global(Head::Fun(_)), arity)) => {
            arity == count && others <= count
        }
        _ => false,
    }
}
