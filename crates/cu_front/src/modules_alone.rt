//! The program of modules, without a goal.
ghost use Rattle.std.specs.Prelude.{◌≡◌, IfErr, IfOk, IfSome, List, MatchResult, ℕ};
ghost use Rattle.std.specs.List.{All};
ghost use Rattle.cu_calculus.specs.FlatProgram as flats;
ghost use Rattle.cu_flat.specs.Layout.{laid_out};
ghost use Rattle.cu_front.specs.CompileAnswers.{AnswerIsKnown, FaultCount, TellsRefusal};
ghost use Rattle.cu_front.specs.Compiling.{RootCompiles, ModulesRefused};
ghost use Rattle.cu_front.specs.Inside.Stages.{AreTranslated, CompileAlone, RefusesModules};
ghost use Rattle.cu_front.specs.Inside.StageFaults.{Tells};
ghost use Rattle.cu_modules.specs.BuiltInEntities.{HasBuiltIn};
ghost use Rattle.cu_modules.specs.Ordering.{AreOrdered, modules_of};
ghost use Rattle.cu_modules.specs.Reading.{HasModule};
ghost use Rattle.cu_names.specs.Texts.{Extends};

use crate::asked::AskedModule;
use crate::fault::{CompileFault, StageFault};
use crate::programs::with_types;
use crate::runnable::{Compiled, runnable};
use crate::stages::{of_stage, of_walk};
use crate::translated::modules_program;
use cu_desugar::Modules;
use cu_io::Library;
use cu_kernel::LocalProgram;
use cu_modules::{Module, order};
use cu_names::Names;
use cu_toplevel::Entities;
use std::alloc::Global;

/// The program of a module and of all modules that it reaches by its imports.
///
/// # Errors
///
/// The first refusal by the order of the stages. `Fetch` only where the library's
/// count of faults rose; and `NoMemory`.
pub fn compile_module<L: Library>(
    alloc: Global,
    names: &mut Names,
    asked: AskedModule<'_>,
    library: &mut L,
) -> Result<Compiled, CompileFault>
    ensures program { IfSome (L.holdings library.old) (λ held. IfOk result (λ found.
        RootCompiles (held.module_at asked.entry.folder.now) asked.entry.root.now
        names.new found.program found.interface (flats.program_of found.flat))) }
    ensures refused { IfSome (L.holdings library.old) (λ held. IfErr result
        (TellsRefusal names.new (ModulesRefused (held.module_at asked.entry.folder.now)
        asked.entry.root.now))) }
    ensures known { IfErr result (AnswerIsKnown names.new) }
    ensures layout { IfOk result (λ found. found.flat ≡ laid_out (flats.program_of found.flat)) }
    ensures names { Extends names.old names.new }
    ensures same { L.holdings library.new ≡ L.holdings library.old }
    ensures count { MatchResult result
        (λ _. L.fault_count library.new ≡ L.fault_count library.old)
        (λ fault. FaultCount fault (L.fault_count library.old) (L.fault_count library.new)) }
{
    match order(alloc, names, asked.root, asked.folder, library) {
        Ok(modules) => match alone(alloc, names, modules.as_slice()) {
            Ok(found) => Ok(found),
            Err(fault) => Err(of_stage(fault)),
        },
        Err(fault) => Err(of_walk(names, fault)),
    }
}

/// The program of these modules.
pub(crate) fn alone(
    alloc: Global,
    names: &mut Names,
    modules: &[Module],
) -> Result<Compiled, StageFault>
    requires built_in { HasBuiltIn names.old }
    requires known { All (HasModule names.old) modules.now }
    requires ordered { AreOrdered (modules_of names.old modules.now) }
    ensures program { (root : List ℕ) → IfOk result (λ found.
        CompileAlone (modules_of names.old modules.now) root names.new found.program
        found.interface (flats.program_of found.flat)) }
    ensures fault { (root : List ℕ) → IfErr result (Tells names.new
        (RefusesModules (modules_of names.old modules.now) root)) }
    ensures layout { IfOk result (λ found. found.flat ≡ laid_out (flats.program_of found.flat)) }
    ensures names { Extends names.old names.new }
{
    let program = translated(alloc, names, modules)?;
    runnable(alloc, names, program)
}

/// The program of these modules before lifting.
///
/// # Errors
///
/// The first fault of the names in the modules, or else of their types, or else
/// of their functions; an allocation failure. That there is a module is tested
/// here once more.
fn translated(alloc: Global, names: &Names, modules: &[Module]) -> Result<LocalProgram, StageFault>
    requires built_in { HasBuiltIn names.now }
    requires known { All (HasModule names.now) modules.now }
    requires ordered { AreOrdered (modules_of names.now modules.now) }
    ensures program { IfOk result
        (AreTranslated names.now (modules_of names.now modules.now)) }
    ensures fault { (root : List ℕ) → IfErr result (Tells names.now
        (RefusesModules (modules_of names.now modules.now) root)) }
{
    if modules.is_empty() {
        return Err(StageFault::NoMemory);
    }
    let scopes = with_types(alloc, names, modules)?;
    let entities = Entities::of(alloc, names, modules)?;
    let known = Modules {
        names,
        modules,
        scopes: &scopes,
        entities: &entities,
    };
    modules_program(alloc, known)
}
