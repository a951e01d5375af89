//! A law: what a proof proves is one answer.
ghost use Rattle.std.specs.Prelude.{◌≡◌, List};
ghost use Rattle.cu_calculus.specs.Gives.{Claim};
ghost use Rattle.cu_calculus.specs.Program.{Program};
ghost use Rattle.cu_calculus.specs.Proof.{Step};
ghost use Rattle.cu_calculus.specs.Value.{Value};
ghost use Rattle.cu_kernel.specs.Kernel.{Goal};
ghost use Rattle.cu_verdict.specs.Proved.{ProvesAnswer};

/// A proof proves at most one answer of a goal.
pub fn proofs_prove_one_answer()
    ensures bindings { (program : Program) (goal : Goal) (claims : List Claim) (steps : List Step)
        (bindings others : List Value) (v w : Value)
        → ProvesAnswer program goal claims steps bindings v
        → ProvesAnswer program goal claims steps others w → bindings ≡ others }
    ensures value { (program : Program) (goal : Goal) (claims : List Claim) (steps : List Step)
        (bindings others : List Value) (v w : Value)
        → ProvesAnswer program goal claims steps bindings v
        → ProvesAnswer program goal claims steps others w → v ≡ w }
{}
