//! What texts are translated to, or why they are refused.
ghost use Rattle.std.specs.Prelude.{◌≡◌, IfErr, IfOk};
ghost use Rattle.cu_front.specs.Inside.Outcomes as meant;
ghost use Rattle.cu_front.specs.Inside.Outcomes.{Follow};
ghost use Rattle.cu_front.specs.declared.fault.StageFault.TheVariants.{NoMemory};
ghost use Rattle.cu_front.specs.declared.outcome.Outcome.TheVariants.{Program};

use crate::fault::StageFault;
use crate::refusal::Refusal;
use cu_kernel::LocalProgram;

/// A program before lifting, or why a text is refused.
#[derive(Drop)]
pub(crate) enum Outcome {
    Program(LocalProgram),
    Refused(Refusal),
}

/// The outcome that keeps a refusal, which is told later.
pub(crate) fn kept(fault: StageFault) -> Result<Outcome, StageFault>
    ensures { result ≡ meant.kept fault }
{
    match fault {
        StageFault::Refused(refusal) => Ok(Outcome::Refused(refusal)),
        StageFault::NoMemory => Err(StageFault::NoMemory),
    }
}

/// The program with the next part after it, or why the part is refused.
fn with_part(mut program: LocalProgram, next: Outcome) -> Result<Outcome, StageFault>
    requires { Follow (Program program) next }
    ensures whole { IfOk result (λ found. found ≡ meant.followed_by (Program program) next) }
    ensures fault { IfErr result (λ fault. fault ≡ NoMemory) }
{
    match next {
        Outcome::Program(part) => {
            program.join(part)?;
            Ok(Outcome::Program(program))
        }
        Outcome::Refused(refusal) => Ok(Outcome::Refused(refusal)),
    }
}

/// The outcome for a program and the next part after it: both joined, or the
/// refusal that is found first.
pub(crate) fn followed_by(before: Outcome, next: Outcome) -> Result<Outcome, StageFault>
    requires { Follow before next }
    ensures whole { IfOk result (λ found. found ≡ meant.followed_by before next) }
    ensures fault { IfErr result (λ fault. fault ≡ NoMemory) }
{
    match before {
        Outcome::Program(program) => with_part(program, next),
        Outcome::Refused(refusal) => Ok(Outcome::Refused(refusal)),
    }
}
