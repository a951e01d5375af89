//! Completeness of single steps.
ghost use Rattle.std.specs.Prelude.{◌≡◌, ◌≢◌, ℕ, List, IsTrue};
ghost use Rattle.std.specs.List.{list_all};
ghost use Rattle.cu_calculus.specs.Code.{Code};
ghost use Rattle.cu_calculus.specs.FlatProgram.{program_of};
ghost use Rattle.cu_calculus.specs.Gives.{Claim};
ghost use Rattle.cu_calculus.specs.Proof.{is_claim_of};
ghost use Rattle.cu_calculus.specs.Shape.{is_total};
ghost use Rattle.cu_calculus.specs.Value.{Bottom};
ghost use Rattle.cu_calculus.specs.WellFormed.{is_well_formed};
ghost use Rattle.cu_machine.specs.Graph.{Graph};
ghost use Rattle.cu_machine.specs.Need.{At, Dead, need_all};
ghost use Rattle.cu_machine.specs.State.{Branch, Idle};
ghost use Rattle.cu_machine.specs.Steps.{Steps};
ghost use Rattle.cu_machine.specs.Validity.{IsValid};
ghost use Rattle.cu_laws.specs.Continues.{Continues, NothingPast};
ghost use Rattle.cu_laws.specs.Good.{Assignment, Loose};

/// The node that is to be rewritten has a value other than Bottom wherever the
/// root has a total value, even if stuck nodes may have any value; and what is
/// dead has no total value.
pub fn needed_nodes_have_values()
    ensures rewritten { (code : Code) (claims : List Claim) (graph : Graph) (root id : ℕ)
        (assigned : Assignment) → Loose code claims graph assigned
        → IsTrue (is_total (assigned root)) → need_all code.special.truth graph root ≡ At id
        → assigned id ≢ Bottom }
    ensures dead { (code : Code) (claims : List Claim) (graph : Graph) (root : ℕ)
        (assigned : Assignment) → Loose code claims graph assigned
        → IsTrue (is_total (assigned root)) → need_all code.special.truth graph root ≡ Dead → ⊥ }
{}

/// Where a valid state needs a node, and a row of the step table rewrites it,
/// some row loses nothing, those that bind variables too: to a loose
/// assignment in which the root has a total value belongs one that is loose
/// for the graph that follows, and gives each node the value that it had.
pub fn rows_are_complete()
    ensures { (code : Code) (claims : List Claim) (graph after : Graph) (root id : ℕ)
        (goals : List ℕ) (assigned : Assignment) → IsTrue (is_well_formed code)
        → IsTrue (list_all (is_claim_of (program_of code)) claims)
        → IsValid code (Branch graph root goals Idle)
        → need_all code.special.truth graph root ≡ At id
        → Loose code claims graph assigned → NothingPast graph assigned
        → IsTrue (is_total (assigned root)) → Steps code graph id after
        → (other : Graph) × Steps code graph id other × (later : Assignment)
        × Continues code claims graph other assigned later }
{}
