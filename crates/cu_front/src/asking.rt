//! Goals in modules that are loaded.
ghost use Rattle.std.specs.Prelude.{◌≡◌, ◌<◌, IfErr, IfOk, List, Some, length, slice_get, ℕ};
ghost use Rattle.std.specs.List.{All};
ghost use Rattle.cu_calculus.specs.FlatProgram as flats;
ghost use Rattle.cu_flat.specs.Layout.{laid_out};
ghost use Rattle.cu_front.specs.AskAnswers.{AskIsKnown, AskTells};
ghost use Rattle.cu_front.specs.CompileAnswers.{HasGoal};
ghost use Rattle.cu_front.specs.Compiling.{Compiles, Folder, GoalCompiles, RequestRefused};
ghost use Rattle.cu_front.specs.Inside.Questions.{RefusesQuestion, ask_fault_of};
ghost use Rattle.cu_front.specs.Inside.Stages.{IsGoalRead, IsWhole, RefusesModules};
ghost use Rattle.cu_front.specs.Inside.StageFaults.{Tells};
ghost use Rattle.cu_front.specs.Loaded.{AreLoaded, IsLoaded};
ghost use Rattle.cu_modules.specs.BuiltInEntities.{HasBuiltIn};
ghost use Rattle.cu_modules.specs.Ordering.{AreOrdered, modules_of};
ghost use Rattle.cu_modules.specs.Reading.{HasModule};
ghost use Rattle.cu_names.specs.Texts.{Extends};
ghost use Rattle.cu_syntax.specs.Owners.{GoalIsOf};
ghost use Rattle.cu_translation.specs.Functions.{goal_name};
ghost use Rattle.cu_translation.specs.ModuleNames.{id_of};
ghost use Rattle.cu_types.specs.Inference.{IsInferred};

use crate::fault::StageFault;
use crate::goal_text::read_goal;
use crate::loaded::Loaded;
use crate::outcome::Outcome;
use crate::programs::{Rooted, read_outcome, with_types};
use crate::refusal::Refusal;
use crate::run::run_whole;
use crate::runnable::Compiled;
use cu_names::Names;
use cu_syntax::GoalText;
use cu_toplevel::Entities;
use std::alloc::Global;

/// Why there is no program of a goal in loaded modules.
#[derive(Debug, Drop)]
pub enum AskFault {
    Refused(Refusal),
    NoMemory,
}

/// The program of loaded modules, and of a goal in their root. The modules and
/// the goal are translated together, and no text of a module is read again.
///
/// # Errors
///
/// Why the goal is refused, also where its bytes are no UTF-8; and `NoMemory`.
pub fn ask(
    alloc: Global,
    names: &mut Names,
    loaded: &Loaded,
    goal: &[u8],
) -> Result<Compiled, AskFault>
    requires { IsLoaded names.old loaded.now }
    ensures program { (held : Folder) (root : List ℕ) → AreLoaded held root names.old loaded.now
        → IfOk result (λ found. Compiles held root goal.now names.new found.program
        (flats.program_of found.flat)) }
    ensures refused { (held : Folder) (root : List ℕ) → AreLoaded held root names.old loaded.now
        → IfErr result (AskTells names.new (RequestRefused held root goal.now)) }
    ensures known { IfErr result (AskIsKnown names.new) }
    ensures types { IfOk result (λ found. IsInferred found.program found.interface) }
    ensures goal { IfOk result (λ found. HasGoal names.new found.program found.flat) }
    ensures layout { IfOk result (λ found. found.flat ≡ laid_out (flats.program_of found.flat)) }
    ensures names { Extends names.old names.new }
{
    match in_loaded(alloc, names, loaded, goal) {
        Ok(found) => Ok(found),
        Err(fault) => Err(of_question(fault)),
    }
}

/// The program of loaded modules, and of a goal in their root.
///
/// # Errors
///
/// Why the goal or the modules are refused; an allocation failure.
fn in_loaded(
    alloc: Global,
    names: &mut Names,
    loaded: &Loaded,
    text: &[u8],
) -> Result<Compiled, StageFault>
    requires { IsLoaded names.old loaded.now }
    ensures program { IfOk result (λ found. GoalCompiles
        (modules_of names.old loaded.now.modules.items) loaded.now.root text.now names.new
        found.program (flats.program_of found.flat)) }
    ensures fault { IfErr result (Tells names.new (RefusesQuestion
        (modules_of names.old loaded.now.modules.items) loaded.now.root text.now)) }
    ensures types { IfOk result (λ found. IsInferred found.program found.interface) }
    ensures goal { IfOk result (λ found. HasGoal names.new found.program found.flat) }
    ensures layout { IfOk result (λ found. found.flat ≡ laid_out (flats.program_of found.flat)) }
    ensures names { Extends names.old names.new }
{
    let owner = names.intern("goal")?;
    let goal = read_goal(alloc, names, owner, text);
    let whole = whole_in(
        alloc,
        Rooted {
            names,
            modules: loaded.modules.as_slice(),
            root: loaded.root,
        },
        goal,
    )?;
    run_whole(alloc, names, whole)
}

/// The program before lifting of modules and of a goal in one of them, or why
/// the goal is refused.
///
/// # Errors
///
/// The first fault of the names in the modules, or else of their types, or else
/// of their functions; an allocation failure.
fn whole_in(
    alloc: Global,
    rooted: Rooted<'_>,
    goal: Result<GoalText, StageFault>,
) -> Result<Outcome, StageFault>
    requires built_in { HasBuiltIn rooted.names.now }
    requires known { All (HasModule rooted.names.now) rooted.modules.now }
    requires ordered { AreOrdered (modules_of rooted.names.now rooted.modules.now) }
    requires root { rooted.root < length rooted.modules.now }
    requires owned { IfOk goal (GoalIsOf (id_of rooted.names.now goal_name) rooted.names.now) }
    requires named { slice_get rooted.names.now (id_of rooted.names.now goal_name).0
        ≡ Some goal_name }
    ensures whole { (text : List ℕ) → IsGoalRead rooted.entry.names.now text goal
        → IfOk result (IsWhole rooted.entry.names.now
        (modules_of rooted.entry.names.now rooted.entry.modules.now) rooted.entry.root text) }
    ensures fault { (root : List ℕ) → IfErr result (Tells rooted.entry.names.now
        (RefusesModules (modules_of rooted.entry.names.now rooted.entry.modules.now) root)) }
{
    let scopes = with_types(alloc, rooted.names, rooted.modules)?;
    let entities = Entities::of(alloc, rooted.names, rooted.modules)?;
    read_outcome(alloc, rooted, scopes, &entities, goal)
}

fn of_question(fault: StageFault) -> AskFault
    ensures { result ≡ ask_fault_of fault }
{
    match fault {
        StageFault::Refused(refusal) => AskFault::Refused(refusal),
        StageFault::NoMemory => AskFault::NoMemory,
    }
}
