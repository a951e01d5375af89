//! Completeness from the first state of a search to its answers.
ghost use Rattle.std.specs.Prelude.{◌≡◌, List, IsTrue, map};
ghost use Rattle.std.specs.List.{list_all};
ghost use Rattle.cu_calculus.specs.declared.FunId.{FunId};
ghost use Rattle.cu_calculus.specs.Claims.{Concludes};
ghost use Rattle.cu_calculus.specs.Code.{Code};
ghost use Rattle.cu_calculus.specs.FlatProgram.{program_of};
ghost use Rattle.cu_calculus.specs.Gives.{Claim};
ghost use Rattle.cu_calculus.specs.Proof.{is_claim_of};
ghost use Rattle.cu_calculus.specs.Shape.{are_ground, is_ground, is_total};
ghost use Rattle.cu_calculus.specs.Value.{NoValue, Value, Values, values_of};
ghost use Rattle.cu_calculus.specs.WellFormed.{is_well_formed};
ghost use Rattle.cu_machine.specs.declared.Limits.{Limits};
ghost use Rattle.cu_machine.specs.Next.{Answer, Reading, next};
ghost use Rattle.cu_machine.specs.State.{State, call_on, graph_of, start_of};
ghost use Rattle.cu_machine.specs.Validity.{IsValid};
ghost use Rattle.cu_laws.specs.Good.{Assignment, Loose};
ghost use Rattle.cu_laws.specs.Instance.{IsInstance};
ghost use Rattle.cu_laws.specs.Promises.{goals_of, root_of};
ghost use Rattle.cu_laws.specs.Solution.{HasSolution};

/// A total value that the calculus gives a function on ground data is a
/// solution of the state in which the search for it begins. That is the state
/// of the function's call on these data, and also the state of the function as
/// a goal, whose variables then have these data for values.
pub fn derivations_begin()
    ensures call { (code : Code) (claims : List Claim) (f : FunId) (arguments : Values)
        (v : Value)
        → IsTrue (is_well_formed code)
        → IsTrue (list_all (is_claim_of (program_of code)) claims)
        → IsTrue (are_ground arguments)
        → IsTrue (is_total v) → Concludes (program_of code) claims f arguments v
        → HasSolution code claims (call_on code f arguments) NoValue v }
    ensures goal { (code : Code) (claims : List Claim) (goal : FunId) (arguments : Values)
        (v : Value) → IsTrue (is_well_formed code)
        → IsTrue (list_all (is_claim_of (program_of code)) claims)
        → IsTrue (are_ground arguments)
        → IsTrue (is_total v) → Concludes (program_of code) claims goal arguments v
        → HasSolution code claims (start_of code goal) arguments v }
{}

/// Where a state is answered, ground data that a loose assignment gives the
/// goal variables and the root are an instance of what is read off.
pub fn answers_cover()
    ensures { (code : Code) (claims : List Claim) (limits : Limits) (state : State)
        (reading : Reading) (assigned : Assignment) → IsValid code state
        → next code limits state ≡ Answer reading
        → Loose code claims (graph_of state) assigned
        → IsTrue (are_ground (values_of (map assigned (goals_of state))))
        → IsTrue (is_ground (assigned (root_of state)))
        → IsInstance code reading (values_of (map assigned (goals_of state)))
        (assigned (root_of state)) }
{}
