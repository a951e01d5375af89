//! From programs before lifting to the one that is run.
ghost use Rattle.std.specs.Prelude.{◌≡◌, IfErr, IfOk, IsTrue, List, Some, length, nat_lt, ℕ};
ghost use Rattle.std.specs.List.{All, list_all};
ghost use Rattle.cu_calculus.specs.Code.{body_of, function_arity, is_rule};
ghost use Rattle.cu_calculus.specs.FlatProgram as flats;
ghost use Rattle.cu_front.specs.CompileAnswers.{HasGoal};
ghost use Rattle.cu_front.specs.Compiling.{GoalCompiles, GoalRefused, root_in};
ghost use Rattle.cu_front.specs.Inside.Stages.{ArePrograms, CompileBoth, IsWhole, RefusesBoth};
ghost use Rattle.cu_front.specs.Inside.StageFaults.{Tells};
ghost use Rattle.cu_front.specs.declared.fault.StageFault.TheVariants.{NoMemory};
ghost use Rattle.cu_flat.specs.Layout.{laid_out};
ghost use Rattle.cu_flat.specs.Meaning.{body_meaning};
ghost use Rattle.cu_modules.specs.Scopes.{Named};
ghost use Rattle.cu_names.specs.Texts.{Extends, IsKnown};
ghost use Rattle.cu_types.specs.Inference.{IsInferred};

use crate::fault::StageFault;
use crate::outcome::Outcome;
use crate::programs::Programs;
use crate::runnable::{Compiled, runnable};
use cu_flat::{FlatBody, FlatProgram, Head};
use cu_kernel::Goal;
use cu_names::{NameId, Names};
use std::alloc::Global;

/// The program of modules and a goal. The program of the modules alone is tried
/// first, since what is wrong with it comes before the goal.
///
/// # Errors
///
/// Why the program of the modules can't be run, or else why the goal is
/// refused, or else why the program of both can't be run; an allocation
/// failure.
pub(crate) fn run(
    alloc: Global,
    names: &mut Names,
    programs: Programs,
) -> Result<Compiled, StageFault>
    ensures program { (modules : List Named) (root text : List ℕ)
        → ArePrograms names.old modules (root_in modules root) text programs
        → IfOk result (λ found. CompileBoth modules root text names.new found.program
        (flats.program_of found.flat)) }
    ensures fault { (modules : List Named) (root text : List ℕ)
        → ArePrograms names.old modules (root_in modules root) text programs
        → IfErr result (Tells names.new (RefusesBoth modules root text)) }
    ensures types { IfOk result (λ found. IsInferred found.program found.interface) }
    ensures goal { IfOk result (λ found. HasGoal names.new found.program found.flat) }
    ensures layout { IfOk result (λ found. found.flat ≡ laid_out (flats.program_of found.flat)) }
    ensures names { Extends names.old names.new }
{
    let Programs { modules, whole } = programs;
    runnable(alloc, names, modules)?;
    run_whole(alloc, names, whole)
}

/// The program of modules and a goal, which were translated under a table of
/// fewer names or of these.
///
/// # Errors
///
/// Why the goal is refused, or else why the program can't be run; an allocation
/// failure.
pub(crate) fn run_whole(
    alloc: Global,
    names: &mut Names,
    whole: Outcome,
) -> Result<Compiled, StageFault>
    ensures program { (table : List (List ℕ)) (modules : List Named) (k : ℕ) (text : List ℕ)
        → Extends table names.old → IsWhole table modules k text whole
        → IfOk result (λ found. GoalCompiles modules k text names.new found.program
        (flats.program_of found.flat)) }
    ensures fault { (table : List (List ℕ)) (modules : List Named) (k : ℕ) (text : List ℕ)
        → Extends table names.old → IsWhole table modules k text whole
        → IfErr result (Tells names.new (GoalRefused modules k text)) }
    ensures types { IfOk result (λ found. IsInferred found.program found.interface) }
    ensures goal { IfOk result (λ found. HasGoal names.new found.program found.flat) }
    ensures layout { IfOk result (λ found. found.flat ≡ laid_out (flats.program_of found.flat)) }
    ensures names { Extends names.old names.new }
{
    match whole {
        Outcome::Program(program) => {
            let found = runnable(alloc, names, program)?;
            with_goal(names, found)
        }
        Outcome::Refused(refusal) => Err(StageFault::Refused(refusal)),
    }
}

/// A program, where it has a goal that can be searched. The program of a goal
/// always has one, which is tested here once more: a program without one is
/// answered as an allocation failure.
fn with_goal(names: &Names, found: Compiled) -> Result<Compiled, StageFault>
    ensures same { IfOk result (λ same. same ≡ found) }
    ensures goal { IfOk result (λ found. HasGoal names.now found.program found.flat) }
    ensures fault { IfErr result (λ fault. fault ≡ NoMemory) }
{
    if has_goal(names, &found) {
        Ok(found)
    } else {
        Err(StageFault::NoMemory)
    }
}

fn has_goal(names: &Names, found: &Compiled) -> bool
    ensures { IsTrue result → HasGoal names.now found.now.program found.now.flat }
{
    match found.program.goal() {
        Some(goal) => has_function(&found.flat, goal) && are_known(names, goal.names.as_slice()),
        None => false,
    }
}

/// Whether a goal's function has a rule, and takes the goal's variables.
fn has_function(flat: &FlatProgram, goal: &Goal) -> bool
    ensures rule { IsTrue result → IsTrue (is_rule (body_of flat.now goal.now.function)) }
    ensures parameters { IsTrue result
        → function_arity flat.now goal.now.function ≡ Some (length goal.now.names.items) }
{
    match flat.arity_if_known(Head::Fun(goal.function)) {
        Some(arity) => arity as usize == goal.names.len() && has_rule(flat, goal),
        None => false,
    }
}

fn has_rule(flat: &FlatProgram, goal: &Goal) -> bool
    ensures { result ≡ is_rule (body_of flat.now goal.now.function) }
{
    match flat.body(goal.function) {
        Some(body) => is_rule(body),
        None => false,
    }
}

fn is_rule(body: &FlatBody) -> bool
    ensures { result ≡ is_rule (Some (body_meaning body.now)) }
{
    match body {
        FlatBody::Rule(_, _) => true,
        FlatBody::External(_) => false,
    }
}

/// Whether a table has these names.
pub(crate) fn are_known(names: &Names, ids: &[NameId]) -> bool
    ensures { IsTrue result → All (IsKnown names.now) ids.now }
{
    let count = names.count();
    all_below(ids, count)
}

/// Whether all names are among the first so many of a table.
fn all_below(ids: &[NameId], count: usize) -> bool
    ensures { result ≡ list_all (λ id. nat_lt id.0 count) ids.now }
{
    ids.iter().all(|id| id.0 < count)
}
