//! A law of lowering: true claims of a program and of its flat program.
ghost use Rattle.std.specs.Prelude.{◌↔◌, ℕ, List};
ghost use Rattle.cu_calculus.specs.declared.FunId.{FunId};
ghost use Rattle.cu_calculus.specs.Claims.{AreTrue, DerivesAt};
ghost use Rattle.cu_calculus.specs.Gives.{Claim};
ghost use Rattle.cu_calculus.specs.Program.{Program};
ghost use Rattle.cu_calculus.specs.Valid.{IsValid};
ghost use Rattle.cu_calculus.specs.Value.{Value, Values};
ghost use Rattle.cu_deftree.specs.LoweredProgram.{Flattens};

use cu_calculus::{calls_have_proofs, true_claims_combine};
use cu_deftree::{lowered_programs_are_valid, lowering_keeps_meaning};

/// Lowering keeps truth: by any levels the same claims are true of a valid
/// program and of its flat program, and so a function of both derives the same
/// values.
pub fn lowering_keeps_truth()
    ensures claims { (program flat : Program) (levels : List ℕ) (level : ℕ) (claims : List Claim)
        → IsValid program → Flattens program flat
        → AreTrue program levels level claims ↔ AreTrue flat levels level claims }
    ensures derivations { (program flat : Program) (levels : List ℕ) (f : FunId) (vs : Values)
        (v : Value) → IsValid program → Flattens program flat
        → DerivesAt program levels f vs v ↔ DerivesAt flat levels f vs v }
{
    calls_have_proofs();
    true_claims_combine();
    lowered_programs_are_valid();
    lowering_keeps_meaning();
}
