//! What texts are translated to, or why they are refused.
ghost use Rattle.std.specs.Prelude.{◌≡◌, IfErr, IfOk};
ghost use Rattle.cu_desugar.specs.Inside.Outcomes.{IsOutcome};
ghost use Rattle.cu_kernel.specs.LocalKernelOf.{local_kernel_of};
ghost use Rattle.cu_names.specs.declared.names.NameId.{NameId};
ghost use Rattle.cu_translation.specs.declared.fault.DesugarFault.TheVariants.{NoMemory};
ghost use Rattle.cu_translation.specs.Answer.{Gives, Tells};
ghost use Rattle.cu_translation.specs.Translation as meant;

use cu_kernel::{LocalParts, LocalProgram};
use cu_parts::checked;
use cu_translation::{DesugarFault, Fault};
use std::alloc::Global;

/// What a text is translated to, or why it is refused.
#[derive(Drop)]
pub(crate) enum Outcome {
    Translated(LocalParts),
    Refused(Fault),
}

/// The program of these parts. Where nothing was refused all is right with
/// them, which is tested here once more: wrong parts would be answered as an
/// allocation failure.
fn program(alloc: Global, parts: LocalParts) -> Result<LocalProgram, DesugarFault>
    ensures program { IfOk result (λ program. program ≡ local_kernel_of parts) }
    ensures fault { IfErr result (λ fault. fault ≡ NoMemory) }
{
    match checked(alloc, parts)? {
        Some(program) => Ok(program),
        None => Err(DesugarFault::NoMemory),
    }
}

/// The answer for an outcome.
pub(crate) fn answer(alloc: Global, outcome: Outcome) -> Result<LocalProgram, DesugarFault>
    ensures program { (owner : NameId) (whole : meant.Outcome) → IsOutcome owner whole outcome
        → IfOk result (λ program. Gives program whole) }
    ensures fault { (owner : NameId) (whole : meant.Outcome) → IsOutcome owner whole outcome
        → IfErr result (λ fault. Tells owner fault whole) }
{
    match outcome {
        Outcome::Translated(parts) => program(alloc, parts),
        Outcome::Refused(fault) => Err(fault.answer()),
    }
}
