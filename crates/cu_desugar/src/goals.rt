//! Goals with what is known of their texts, and the functions that they are.
ghost use Rattle.std.specs.Prelude.{◌≡◌, IfOk, List, map, ℕ};
ghost use Rattle.cu_desugar.specs.Inside.Goals.{IsGoal};
ghost use Rattle.cu_desugar.specs.Inside.Refusals.{IsRefusal};
ghost use Rattle.cu_desugar.specs.Inside.Surrounding.{Surrounds};
ghost use Rattle.cu_faults.specs.Telling.{setting};
ghost use Rattle.cu_kernel.specs.LocalKernelOf.{top_function_meaning};
ghost use Rattle.cu_locals.specs.Text.{Text};
ghost use Rattle.cu_syntax.specs.Answer.{goal_meaning};
ghost use Rattle.cu_syntax.specs.Owners.{GoalIsOf};
ghost use Rattle.cu_syntax.specs.Syntax as syntax;
ghost use Rattle.cu_toplevel.specs.Surrounding.{TellsNames};
ghost use Rattle.cu_translation.specs.Around as meant;
ghost use Rattle.cu_translation.specs.Faults.{goal_clashes, goal_faults};
ghost use Rattle.cu_translation.specs.Functions.{around_goal, goal_function, goal_name};
ghost use Rattle.cu_translation.specs.Meaning.{binder_meaning};
ghost use Rattle.cu_translation.specs.ModuleNames.{id_of};
ghost use Rattle.cu_translation.specs.Numbering.{at_name};
ghost use Rattle.cu_uses.specs.Gathered.{names_meaning};

use crate::around::Around;
use crate::functions::arity;
use crate::local_functions::local_functions;
use cu_faults::{TextSites, first_clash, first_goal_fault};
use cu_forms::goal_rule;
use cu_kernel::{LocalBody, TopFunction};
use cu_sites::{Dependencies, Numbers, Sites};
use cu_syntax::{GoalText, Name};
use cu_toplevel::TopNames;
use cu_translation::{Binder, Fault, Position};
use std::alloc::{AllocError, Global};

/// Names as variables at their own places.
fn binders(alloc: Global, names: &[Name]) -> Result<Vec<Binder>, AllocError>
    ensures { (table : List (List ℕ)) → IfOk result (λ found.
        map binder_meaning found.items ≡ map at_name (names_meaning table names.now)) }
{
    let mut found = Vec::new(alloc);
    for name in names {
        found.push(Binder::At(Position::of(name.place)))?;
    }
    Ok(found)
}

/// A goal's variables, and what is known of its text.
#[derive(Drop)]
pub(crate) struct GoalParts<'t> {
    free: Vec<Name>,
    sites: Sites<'t>,
    numbers: Numbers,
    dependencies: Dependencies,
}

impl<'t> GoalParts<'t> {
    pub(crate) fn of(alloc: Global, goal: &'t GoalText) -> Result<GoalParts<'t>, AllocError>
        ensures { (t : Text) → GoalIsOf t.owner t.names goal.now
            → IfOk result (IsGoal t (goal_meaning t.names goal.now)) }
    {
        let free = goal.free_variables(alloc)?;
        let sites = Sites::of_goal(alloc, goal)?;
        let names = free.as_slice();
        let last = binders(alloc, names)?;
        let last = last.as_slice();
        let numbers = Numbers::of(alloc, &sites, last)?;
        let dependencies = Dependencies::of(alloc, &sites)?;
        Ok(GoalParts {
            free,
            sites,
            numbers,
            dependencies,
        })
    }

    /// What surrounds the text of the goal.
    fn around<'a>(&'a self, top: TopNames<'a>) -> Around<'a>
        ensures { (t : Text) (names : meant.Names) (goal : syntax.Goal)
            → TellsNames t.names names top.entry → IsGoal t goal self.now
            → Surrounds (setting t (around_goal names goal)) result }
    {
        Around {
            top,
            numbers: &self.numbers,
            dependencies: &self.dependencies,
        }
    }

    /// The fault for which the goal is refused, if it is: the first clash of
    /// operators, or else the first of the other faults.
    pub(crate) fn refusal(
        &self,
        alloc: Global,
        top: TopNames<'_>,
    ) -> Result<Option<Fault>, AllocError>
        ensures { (t : Text) (names : meant.Names) (goal : syntax.Goal)
            → TellsNames t.names names top.entry → IsGoal t goal self.now → t.owner ≡ names.owner
            → IfOk result (IsRefusal t.owner (goal_clashes names goal) (goal_faults names goal)) }
    {
        let around = self.around(top);
        let clash = first_clash(alloc, &around, &self.sites)?;
        let owner = top.owner();
        match clash {
            Some(clash) => Ok(Some(clash)),
            None => {
                let found = TextSites {
                    sites: &self.sites,
                    dependencies: &self.dependencies,
                };
                first_goal_fault(alloc, &around, owner, found)
            }
        }
    }

    /// The function that the goal is, which takes its variables.
    pub(crate) fn function(
        &self,
        alloc: Global,
        top: TopNames<'_>,
        goal: &GoalText,
    ) -> Result<TopFunction, AllocError>
        ensures { (t : Text) (names : meant.Names) → TellsNames t.names names top.entry
            → GoalIsOf t.owner t.names goal.now
            → IsGoal t (goal_meaning t.names goal.now) self.now
            → names.owner ≡ id_of t.names goal_name
            → IfOk result (λ f. top_function_meaning f
            ≡ goal_function t.names names (goal_meaning t.names goal.now)) }
    {
        let around = self.around(top);
        let arity = arity(self.free.len())?;
        let free = self.free.as_slice();
        let rule = goal_rule(alloc, &around, free, goal.expression())?;
        let rules = vec![in alloc; rule]?;
        let locals = local_functions(alloc, &around, &self.sites)?;
        Ok(TopFunction {
            name: top.owner(),
            arity,
            body: LocalBody::Rules(rules),
            locals,
        })
    }
}
