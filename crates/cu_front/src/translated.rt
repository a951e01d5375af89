//! The program before lifting that modules are translated to.
ghost use Rattle.std.specs.Prelude.{◌≡◌, ◌<◌, IfErr, IfOk, None, Some, length};
ghost use Rattle.cu_desugar.specs.Modules.{AreKnown, named};
ghost use Rattle.cu_front.specs.Inside.Outcomes as meant;
ghost use Rattle.cu_front.specs.Inside.Outcomes.{IsModuleOutcome, clash_told, fault_of_functions};
ghost use Rattle.cu_front.specs.Inside.StageFaults.{Tells};
ghost use Rattle.cu_front.specs.Translated.{modules_program, translation_refusal};

use crate::fault::StageFault;
use crate::outcome::{Outcome, followed_by, kept};
use crate::refusal::Refusal;
use cu_desugar::{DesugarFault, Modules, desugar};
use cu_kernel::LocalProgram;
use cu_names::NameId;
use cu_translation::parts_follow;
use std::alloc::Global;

/// The program of all modules, of which there is at least one.
///
/// # Errors
///
/// The first clash of operators of the first module with one, or else the first
/// other fault of the first module with one; an allocation failure.
pub(crate) fn modules_program(
    alloc: Global,
    modules: Modules<'_>,
) -> Result<LocalProgram, StageFault>
    requires known { AreKnown modules }
    requires some { 0 < length modules.modules.now }
    ensures none { IfOk result (λ _.
        translation_refusal modules.entry.names.now (named modules.entry) ≡ None) }
    ensures program { IfOk result (λ program.
        program ≡ modules_program modules.entry.names.now (named modules.entry)) }
    ensures fault { IfErr result (Tells modules.entry.names.now (λ refusal.
        translation_refusal modules.entry.names.now (named modules.entry) ≡ Some refusal)) }
{
    parts_follow();
    let Ok(count) = u32::try_from(modules.modules.len()) else {
        return Err(StageFault::NoMemory);
    };
    let mut so_far = module_outcome(alloc, modules, 0)?;
    for number in 1..count {
        let next = module_outcome(alloc, modules, number)?;
        so_far = followed_by(so_far, next)?;
    }
    match so_far {
        Outcome::Program(program) => Ok(program),
        Outcome::Refused(refusal) => Err(StageFault::Refused(refusal)),
    }
}

/// The part that the module of a number is translated to, or the module's first
/// fault that is no clash.
///
/// # Errors
///
/// The module's first clash of operators; an allocation failure.
fn module_outcome(alloc: Global, modules: Modules<'_>, number: u32) -> Result<Outcome, StageFault>
    requires known { AreKnown modules }
    requires number { number < length modules.modules.now }
    ensures outcome { IfOk result
        (IsModuleOutcome modules.entry.names.now (named modules.entry) number) }
    ensures fault { IfErr result (Tells modules.entry.names.now (λ refusal.
        clash_told modules.entry.names.now (named modules.entry) number ≡ Some refusal)) }
{
    match desugar(alloc, modules, number) {
        Ok(part) => Ok(Outcome::Program(part)),
        Err(fault) => {
            let modules = modules.modules;
            let module = &modules[number as usize];
            let told = of_functions(module.name(), fault);
            if is_clash(fault) {
                Err(told)
            } else {
                kept(told)
            }
        }
    }
}

fn is_clash(fault: DesugarFault) -> bool
    ensures { result ≡ meant.is_clash fault }
{
    matches!(fault, DesugarFault::FixityClash(_))
}

/// The answer for a fault of the functions in the text of a module.
pub(crate) fn of_functions(owner: NameId, fault: DesugarFault) -> StageFault
    ensures { result ≡ fault_of_functions owner fault }
{
    match fault {
        DesugarFault::FixityClash(place) => StageFault::Refused(Refusal::FixityClash(place)),
        DesugarFault::Arity(place) => StageFault::Refused(Refusal::Arity(place)),
        DesugarFault::NonLinear(place) => StageFault::Refused(Refusal::NonLinear(place)),
        DesugarFault::RecursiveLocal(place) => {
            StageFault::Refused(Refusal::RecursiveLocal(place))
        }
        DesugarFault::SetName(place) => StageFault::Refused(Refusal::SetName(place)),
        DesugarFault::TooLong(line) => StageFault::Refused(Refusal::TooLong(owner, line)),
        DesugarFault::NoMemory => StageFault::NoMemory,
    }
}
