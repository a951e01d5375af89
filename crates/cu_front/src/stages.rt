//! All stages, one after another.
ghost use Rattle.std.specs.Prelude.{◌≡◌, ◌<◌, IfErr, IfOk, IfSome, MatchResult, length, nat_eq};
ghost use Rattle.std.specs.List.{All, position};
ghost use Rattle.cu_calculus.specs.FlatProgram as flats;
ghost use Rattle.cu_flat.specs.Layout.{laid_out};
ghost use Rattle.cu_front.specs.CompileAnswers.{
  AnswerIsKnown,
  FaultCount,
  HasGoal,
  TellsRefusal,
};
ghost use Rattle.cu_front.specs.Compiling.{Compiles, RequestRefused};
ghost use Rattle.cu_front.specs.Compiling as meant;
ghost use Rattle.cu_front.specs.Inside.Stages.{
  CompileBoth,
  IsToldIf,
  IsWalkAnswer,
  RefusesBoth,
  answer_of,
};
ghost use Rattle.cu_front.specs.RefusalMeaning.{PlaceIsKnown};
ghost use Rattle.cu_front.specs.declared.refusal.Refusal.TheVariants as told;
ghost use Rattle.cu_front.specs.Inside.StageFaults.{Tells};
ghost use Rattle.cu_modules.specs.BuiltInEntities.{HasBuiltIn};
ghost use Rattle.cu_modules.specs.Ordering.{AreOrdered, modules_of};
ghost use Rattle.cu_modules.specs.Reading.{HasModule};
ghost use Rattle.cu_modules.specs.declared.modules.Module.{Module};
ghost use Rattle.cu_names.specs.Texts.{Extends, IsKnown};
ghost use Rattle.cu_types.specs.Inference.{IsInferred};

use crate::asked::Asked;
use crate::fault::{CompileFault, StageFault};
use crate::goal_text::read_goal;
use crate::programs::{Rooted, programs_of};
use crate::refusal::Refusal;
use crate::run::{are_known, run};
use crate::runnable::Compiled;
use cu_io::Library;
use cu_modules::{Module, OrderFault, order};
use cu_names::{NameId, Names, Place};
use std::alloc::Global;

/// The program of the modules that a root reaches by its imports, and of a goal
/// in the root.
///
/// # Errors
///
/// The first refusal by the order of the stages: whatever concerns the modules
/// comes before the goal. `Fetch` only where the library's count of faults rose;
/// and `NoMemory`.
pub fn compile<L: Library>(
    alloc: Global,
    names: &mut Names,
    asked: Asked<'_>,
    library: &mut L,
) -> Result<Compiled, CompileFault>
    ensures program { IfSome (L.holdings library.old) (λ held. IfOk result (λ found.
        Compiles (held.module_at asked.entry.folder.now) asked.entry.root.now
        asked.entry.goal.now names.new found.program (flats.program_of found.flat))) }
    ensures refused { IfSome (L.holdings library.old) (λ held. IfErr result
        (TellsRefusal names.new (RequestRefused (held.module_at asked.entry.folder.now)
        asked.entry.root.now asked.entry.goal.now))) }
    ensures known { IfErr result (AnswerIsKnown names.new) }
    ensures types { IfOk result (λ found. IsInferred found.program found.interface) }
    ensures goal { IfOk result (λ found. HasGoal names.new found.program found.flat) }
    ensures layout { IfOk result (λ found. found.flat ≡ laid_out (flats.program_of found.flat)) }
    ensures names { Extends names.old names.new }
    ensures same { L.holdings library.new ≡ L.holdings library.old }
    ensures count { MatchResult result
        (λ _. L.fault_count library.new ≡ L.fault_count library.old)
        (λ fault. FaultCount fault (L.fault_count library.old) (L.fault_count library.new)) }
{
    match order(alloc, names, asked.root, asked.folder, library) {
        Ok(modules) => match in_modules(alloc, names, modules.as_slice(), asked) {
            Ok(found) => Ok(found),
            Err(fault) => Err(of_stage(fault)),
        },
        Err(fault) => Err(of_walk(names, fault)),
    }
}

/// The program of these modules and of a goal in the root.
fn in_modules(
    alloc: Global,
    names: &mut Names,
    modules: &[Module],
    asked: Asked<'_>,
) -> Result<Compiled, StageFault>
    requires built_in { HasBuiltIn names.old }
    requires known { All (HasModule names.old) modules.now }
    requires ordered { AreOrdered (modules_of names.old modules.now) }
    ensures program { IfOk result (λ found. CompileBoth (modules_of names.old modules.now)
        asked.entry.root.now asked.entry.goal.now names.new found.program
        (flats.program_of found.flat)) }
    ensures fault { IfErr result (Tells names.new (RefusesBoth (modules_of names.old modules.now)
        asked.entry.root.now asked.entry.goal.now)) }
    ensures types { IfOk result (λ found. IsInferred found.program found.interface) }
    ensures goal { IfOk result (λ found. HasGoal names.new found.program found.flat) }
    ensures layout { IfOk result (λ found. found.flat ≡ laid_out (flats.program_of found.flat)) }
    ensures names { Extends names.old names.new }
{
    let owner = names.intern("goal")?;
    let goal = read_goal(alloc, names, owner, asked.goal.as_bytes());
    // A root is one of the modules that it reaches, which is tested here once
    // more: if it were none, that would be an allocation failure.
    let Some(root) = root_in(names, modules, asked.root) else {
        return Err(StageFault::NoMemory);
    };
    let found = programs_of(
        alloc,
        Rooted {
            names,
            modules,
            root,
        },
        goal,
    )?;
    run(alloc, names, found)
}

/// The number of the module of a name.
pub(crate) fn root_in(names: &Names, modules: &[Module], root: &str) -> Option<u32>
    requires { All (HasModule names.now) modules.now }
    ensures number { IfSome result (λ k.
        meant.root_in (modules_of names.now modules.now) root.now ≡ k) }
    ensures within { IfSome result (λ k. k < length modules.now) }
{
    let name = names.find(root)?;
    let number = place_of(modules, name)?;
    match u32::try_from(number) {
        Ok(number) => Some(number),
        Err(_) => None,
    }
}

fn place_of(modules: &[Module], name: NameId) -> Option<usize>
    ensures { result ≡ position (λ (m : Module). nat_eq m.name.0 name.0) modules.now }
{
    modules.iter().position(|module| module.name() == name)
}

/// The answer for a fault of the stages after the walk.
pub(crate) fn of_stage(fault: StageFault) -> CompileFault
    ensures { result ≡ answer_of fault }
{
    match fault {
        StageFault::Refused(refusal) => CompileFault::Refused(refusal),
        StageFault::NoMemory => CompileFault::NoMemory,
    }
}

/// The answer for a fault of the walk over the modules. The table always has
/// its names, which is tested here once more: a fault with other names is
/// answered as an allocation failure.
pub(crate) fn of_walk(names: &Names, fault: OrderFault) -> CompileFault
    ensures { IsWalkAnswer names.now fault result }
{
    match fault {
        OrderFault::MissingModule(id) => named(names, id, Refusal::MissingModule(id)),
        OrderFault::SourceTooBig(id) => named(names, id, Refusal::SourceTooBig(id)),
        OrderFault::NotUtf8(id, offset) => named(names, id, Refusal::NotUtf8(id, offset)),
        OrderFault::BadToken(place) => placed(names, place, Refusal::BadToken(place)),
        OrderFault::LiteralRange(place) => placed(names, place, Refusal::LiteralRange(place)),
        OrderFault::TooDeep(place) => placed(names, place, Refusal::TooDeep(place)),
        OrderFault::TooLong(id, line) => named(names, id, Refusal::TooLong(id, line)),
        OrderFault::Syntax(id, line) => named(names, id, Refusal::Syntax(id, line)),
        OrderFault::HeaderName(id) => named(names, id, Refusal::HeaderName(id)),
        OrderFault::ImportCycle(ids) => cyclic(names, ids),
        OrderFault::TooManyModules(id) => named(names, id, Refusal::TooManyModules(id)),
        OrderFault::Fetch => CompileFault::Fetch,
        OrderFault::NoMemory => CompileFault::NoMemory,
    }
}

fn named(names: &Names, id: NameId, refusal: Refusal) -> CompileFault
    ensures { IsToldIf (IsKnown names.now id) refusal result }
{
    if id.0 < names.count() {
        CompileFault::Refused(refusal)
    } else {
        CompileFault::NoMemory
    }
}

fn placed(names: &Names, place: Place, refusal: Refusal) -> CompileFault
    ensures { IsToldIf (PlaceIsKnown names.now place) refusal result }
{
    named(names, place.module, refusal)
}

fn cyclic(names: &Names, ids: Vec<NameId>) -> CompileFault
    ensures { IsToldIf (All (IsKnown names.now) ids.items) (told.ImportCycle ids) result }
{
    if are_known(names, ids.as_slice()) {
        CompileFault::Refused(Refusal::ImportCycle(ids))
    } else {
        CompileFault::NoMemory
    }
}
