//! Laws of the definitions.
ghost use Rattle.std.specs.Prelude.{◌≡◌, ◌≢◌, ◌↔◌, ℕ, List, IsTrue};
ghost use Rattle.std.specs.List.{list_all};
ghost use Rattle.cu_calculus.specs.declared.FunId.{FunId};
ghost use Rattle.cu_calculus.specs.Calls.{call_statement};
ghost use Rattle.cu_calculus.specs.Claims.{AreLeastLevels, AreLevels, Concludes};
ghost use Rattle.cu_calculus.specs.Flat.{is_flat};
ghost use Rattle.cu_calculus.specs.Gives.{Claim};
ghost use Rattle.cu_calculus.specs.Program.{Program};
ghost use Rattle.cu_calculus.specs.Proof.{is_claim_of};
ghost use Rattle.cu_calculus.specs.Proved.{IsProved};
ghost use Rattle.cu_calculus.specs.Valid.{IsValid};
ghost use Rattle.cu_calculus.specs.Value.{Bottom, Value, Values};
ghost use Rattle.cu_deftree.specs.Lowering.{HasOperations};
ghost use Rattle.cu_deftree.specs.LoweredProgram.{Flattens};

/// A program has at most one flat program.
pub fn lowering_is_a_function()
    ensures { (program flat other : Program) → Flattens program flat → Flattens program other
        → flat ≡ other }
{}

/// Each valid program that has the operations that lowering puts into bodies
/// has a flat program.
pub fn programs_can_be_lowered()
    ensures { (program : Program) → IsValid program → HasOperations program
        → (flat : Program) × Flattens program flat }
{}

/// The least levels of a program are levels of its flat program too.
pub fn least_levels_stay_levels()
    ensures { (program flat : Program) (levels : List ℕ) → Flattens program flat
        → AreLeastLevels program levels
        → AreLevels flat levels }
{}

/// Lowering adds nothing: what a function of the flat program of a valid
/// program concludes over claims, the program concludes over them too. (A
/// call of the flat program may have Bottom, the value that says nothing,
/// where no rule of the program matches.)
pub fn lowering_is_sound()
    ensures { (program flat : Program) (claims : List Claim) (f : FunId) (vs : Values) (v : Value)
        → IsValid program
        → Flattens program flat → v ≢ Bottom → Concludes flat claims f vs v
        → Concludes program claims f vs v }
{}

/// Lowering loses nothing: what a function of a valid program concludes over
/// claims of it, its flat program concludes over them too. (Claims with
/// values that aren't the program's could tell the two apart: a constructor
/// with too many arguments takes an alternative that has a variable there,
/// and no branch of the flat program.)
pub fn lowering_is_complete()
    ensures { (program flat : Program) (claims : List Claim) (f : FunId) (vs : Values) (v : Value)
        → IsValid program
        → Flattens program flat → IsTrue (list_all (is_claim_of program) claims)
        → Concludes program claims f vs v → Concludes flat claims f vs v }
{}

/// Lowering keeps meaning: over any claims some proof over a program concludes
/// a statement on a call exactly where some proof over its flat program does.
pub fn lowering_keeps_meaning()
    ensures { (program flat : Program) (claims : List Claim) (f : FunId) (vs : Values) (v : Value)
        → IsValid program → Flattens program flat
        → IsProved program claims (call_statement f vs v)
        ↔ IsProved flat claims (call_statement f vs v) }
{}

/// What lowering gives of a valid program is flat.
pub fn lowered_programs_are_flat()
    ensures { (program flat : Program) → IsValid program → Flattens program flat
        → IsTrue (is_flat flat) }
{}

/// What lowering gives of a valid program is valid.
pub fn lowered_programs_are_valid()
    ensures { (program flat : Program) → IsValid program → Flattens program flat → IsValid flat }
{}
