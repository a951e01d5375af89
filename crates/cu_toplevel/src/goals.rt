//! What programs have of goals beside their functions.
ghost use Rattle.std.specs.Prelude.{◌≡◌, List, ℕ, IfOk};
ghost use Rattle.cu_kernel.specs.KernelOf as kernel;
ghost use Rattle.cu_kernel.specs.KernelOf.{mark_meaning};
ghost use Rattle.cu_modules.specs.Scopes.{Named};
ghost use Rattle.cu_names.specs.declared.names.NameId.{NameId};
ghost use Rattle.cu_syntax.specs.Answer.{goal_meaning};
ghost use Rattle.cu_syntax.specs.Owners.{GoalIsOf};
ghost use Rattle.cu_toplevel.specs.EntityTables.{AreEntities};
ghost use Rattle.cu_toplevel.specs.Inside.Goals.{goal_in};
ghost use Rattle.cu_toplevel.specs.Surrounding.{TellsNames};
ghost use Rattle.cu_translation.specs.Around as meant;
ghost use Rattle.cu_translation.specs.Parts.{goal_mark};

use crate::{Entities, TopNames};
use cu_kernel::{FunId, Goal, Mark};
use cu_names::Place;
use cu_syntax::GoalText;
use std::alloc::{AllocError, Global};

/// What is known of the function of a goal in the module of a number, where
/// names are those of the goal.
pub(crate) fn goal_mark(top: &TopNames<'_>, root: u32, goal: &GoalText) -> Mark
    ensures { (names : List (List ℕ)) (around : meant.Names) → TellsNames names around top.now
        → mark_meaning result ≡ goal_mark around root (goal_meaning names goal.now) }
{
    let place = goal.expression().place();
    Mark {
        module: root,
        public: false,
        declared: None,
        captured: 0,
        place: Place {
            module: top.owner(),
            line: place.line,
            column: place.column,
        },
    }
}

/// The goal of a program of these entities: its function stands after all
/// others, and takes the goal's free variables.
///
/// # Errors
///
/// An allocation failure.
pub(crate) fn goal_in(
    alloc: Global,
    entities: &Entities,
    goal: &GoalText,
) -> Result<Goal, AllocError>
    ensures { (owner : NameId) (names : List (List ℕ)) (modules : List Named)
        → AreEntities names modules entities.now → GoalIsOf owner names goal.now
        → IfOk result (λ found. kernel.goal_meaning found
        ≡ goal_in names modules (goal_meaning names goal.now)) }
{
    let variables = goal.free_variables(alloc)?;
    let mut names = Vec::new(alloc);
    'variables: for variable in variables.as_slice() {
        names.push(variable.text)?;
    }
    Ok(Goal {
        function: FunId(entities.counts().functions),
        names,
    })
}
