//! Modules that are loaded once, so that goals are asked of them later.
ghost use Rattle.std.specs.Prelude.{◌≡◌, ◌<◌, IfErr, IfOk, IfSome, MatchResult, Ok, OnOk, length};
ghost use Rattle.std.specs.List.{All};
ghost use Rattle.cu_front.specs.CompileAnswers.{AnswerIsKnown, FaultCount, TellsRefusal};
ghost use Rattle.cu_front.specs.Compiling.{AreCompiled, Folder, ModulesRefused, root_in};
ghost use Rattle.cu_front.specs.Inside.Stages.{RefusesModules};
ghost use Rattle.cu_front.specs.Inside.StageFaults.{Tells};
ghost use Rattle.cu_front.specs.Loaded.{AreLoaded, IsLoaded};
ghost use Rattle.cu_modules.specs.BuiltInEntities.{HasBuiltIn};
ghost use Rattle.cu_modules.specs.Ordering.{AreOrdered, modules_of};
ghost use Rattle.cu_modules.specs.Reading.{HasModule};
ghost use Rattle.cu_modules.specs.Walk.{Walk};
ghost use Rattle.cu_names.specs.Texts.{Extends};

use crate::asked::AskedModule;
use crate::fault::{CompileFault, StageFault};
use crate::modules_alone::alone;
use crate::stages::{of_stage, of_walk, root_in};
use cu_io::Library;
use cu_modules::{Module, order};
use cu_names::Names;
use std::alloc::Global;

/// The modules that a root reaches by its imports, of which nothing is refused,
/// as `load` makes them. They are read under the table of names that `load` was
/// given, or under another one with the same texts.
#[derive(Drop)]
pub struct Loaded {
    pub(crate) modules: Vec<Module>,
    /// The number of the root among the modules.
    pub(crate) root: u32,
}

/// Reads a module and all modules that it reaches by its imports, and tests that
/// nothing of them is refused.
///
/// # Errors
///
/// The first refusal by the order of the stages. `Fetch` only where the library's
/// count of faults rose; and `NoMemory`.
pub fn load<L: Library>(
    alloc: Global,
    names: &mut Names,
    asked: AskedModule<'_>,
    library: &mut L,
) -> Result<Loaded, CompileFault>
    ensures loaded { IfSome (L.holdings library.old) (λ held. IfOk result
        (AreLoaded (held.module_at asked.entry.folder.now) asked.entry.root.now names.new)) }
    ensures kept { IfOk result (IsLoaded names.new) }
    ensures refused { IfSome (L.holdings library.old) (λ held. IfErr result
        (TellsRefusal names.new (ModulesRefused (held.module_at asked.entry.folder.now)
        asked.entry.root.now))) }
    ensures known { IfErr result (AnswerIsKnown names.new) }
    ensures names { Extends names.old names.new }
    ensures same { L.holdings library.new ≡ L.holdings library.old }
    ensures count { MatchResult result
        (λ _. L.fault_count library.new ≡ L.fault_count library.old)
        (λ fault. FaultCount fault (L.fault_count library.old) (L.fault_count library.new)) }
{
    match order(alloc, names, asked.root, asked.folder, library) {
        Ok(modules) => match tested(alloc, names, modules.as_slice(), asked.root) {
            Ok(root) => Ok(Loaded { modules, root }),
            Err(fault) => Err(of_stage(fault)),
        },
        Err(fault) => Err(of_walk(names, fault)),
    }
}

/// The number of the root among modules of which nothing is refused. Their
/// program is let go, since what is asked for later is that of a goal.
///
/// # Errors
///
/// Why the program of the modules can't be run; an allocation failure. That the
/// root is one of them is tested here once more: if it were none, that would be
/// an allocation failure.
fn tested(
    alloc: Global,
    names: &mut Names,
    modules: &[Module],
    root: &str,
) -> Result<u32, StageFault>
    requires built_in { HasBuiltIn names.old }
    requires known { All (HasModule names.old) modules.now }
    requires ordered { AreOrdered (modules_of names.old modules.now) }
    ensures compiled { (held : Folder) → Walk held root.now (Ok (modules_of names.old modules.now))
        → OnOk result (AreCompiled held root.now (modules_of names.old modules.now)) }
    ensures number { IfOk result (λ k. root_in (modules_of names.old modules.now) root.now ≡ k) }
    ensures within { IfOk result (λ k. k < length modules.now) }
    ensures fault { IfErr result (Tells names.new
        (RefusesModules (modules_of names.old modules.now) root.now)) }
    ensures names { Extends names.old names.new }
{
    let Some(number) = root_in(names, modules, root) else {
        return Err(StageFault::NoMemory);
    };
    match alone(alloc, names, modules) {
        Ok(_) => Ok(number),
        Err(fault) => Err(fault),
    }
}
