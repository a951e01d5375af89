//! Soundness of what a search lists.
ghost use Rattle.std.specs.Prelude.{◌≡◌, ℕ, IsTrue, List, []};
ghost use Rattle.cu_calculus.specs.declared.FunId.{FunId};
ghost use Rattle.cu_calculus.specs.Calls.{call_statement};
ghost use Rattle.cu_calculus.specs.Claims.{Concludes, level_of};
ghost use Rattle.cu_calculus.specs.Code.{Code, body_of, is_rule};
ghost use Rattle.cu_calculus.specs.FlatProgram.{program_of};
ghost use Rattle.cu_calculus.specs.Gives.{Claim};
ghost use Rattle.cu_calculus.specs.Proved.{IsProved};
ghost use Rattle.cu_calculus.specs.Value.{values_of};
ghost use Rattle.cu_calculus.specs.WellFormed.{is_well_formed};
ghost use Rattle.cu_machine.specs.declared.Limits.{Limits};
ghost use Rattle.cu_machine.specs.declared.SearchLimits.{SearchLimits};
ghost use Rattle.cu_machine.specs.Among.{Among};
ghost use Rattle.cu_machine.specs.Graph.{Graph};
ghost use Rattle.cu_machine.specs.Listing.{Answered, listing};
ghost use Rattle.cu_machine.specs.Next.{Go, Reading, next};
ghost use Rattle.cu_machine.specs.Sets.{code_is_without_sets};
ghost use Rattle.cu_machine.specs.State.{State, start_of};
ghost use Rattle.cu_machine.specs.Steps.{Steps};
ghost use Rattle.cu_machine.specs.Validity.{IsValid};
ghost use Rattle.cu_laws.specs.AtLevel.{AreBelow, AreLevelsOf, IsAtLevel};
ghost use Rattle.cu_laws.specs.Traced.{AreFound, IsTraced};

/// Every answer that is listed follows from the rules and from what searches
/// for all values have found: over claims each of which a search finds, the
/// goal, on what its variables are bound to, has the value that is listed, with
/// call-time choice; some proof that checks over these claims concludes it. By
/// set levels the claims are of functions of lower levels than the goal's.
pub fn answers_follow()
    ensures concluded { (code : Code) (limits : SearchLimits) (goal : FunId) (depth : ℕ)
        (reading : Reading) → IsTrue (is_well_formed code)
        → IsTrue (is_rule (body_of code goal))
        → Among (Answered depth reading) (listing code limits (start_of code goal)).lines
        → (claims : List Claim) × AreFound code limits.step claims
        × Concludes (program_of code) claims goal (values_of reading.bindings) reading.value }
    ensures proved { (code : Code) (limits : SearchLimits) (goal : FunId) (depth : ℕ)
        (reading : Reading) → IsTrue (is_well_formed code)
        → IsTrue (is_rule (body_of code goal))
        → Among (Answered depth reading) (listing code limits (start_of code goal)).lines
        → (claims : List Claim) × AreFound code limits.step claims
        × IsProved (program_of code) claims
        (call_statement goal (values_of reading.bindings) reading.value) }
    ensures at_levels { (code : Code) (limits : SearchLimits) (levels : List ℕ) (goal : FunId)
        (depth : ℕ) (reading : Reading) → IsTrue (is_well_formed code)
        → IsTrue (is_rule (body_of code goal)) → AreLevelsOf code levels
        → Among (Answered depth reading) (listing code limits (start_of code goal)).lines
        → (claims : List Claim) × AreFound code limits.step claims
        × AreBelow levels (level_of levels goal) claims × IsProved (program_of code) claims
        (call_statement goal (values_of reading.bindings) reading.value) }
{}

/// A graph at a set level stays there: each row of the step table leaves nodes
/// that name functions of at most this level, and collect values of functions
/// of lower ones.
pub fn graphs_stay_at_their_level()
    ensures { (code : Code) (levels : List ℕ) (level : ℕ) (graph after : Graph) (id : ℕ)
        → IsTrue (is_well_formed code) → AreLevelsOf code levels
        → IsAtLevel code levels level graph → Steps code graph id after
        → IsAtLevel code levels level after }
{}

/// Searches stay traced: the search of a state that follows has just begun at a
/// call on ground data, or goes on at its next level.
pub fn searches_stay_traced()
    ensures start { (code : Code) (limits : Limits) (goal : FunId)
        → IsTraced code limits (start_of code goal) }
    ensures next { (code : Code) (limits : Limits) (before state : State) (states : List State)
        → IsValid code before → IsTraced code limits before
        → next code limits before ≡ Go states → Among state states
        → IsTraced code limits state }
{}

/// Every answer that is listed follows from the rules, where the code has no
/// set functions: the goal, on what its variables are bound to, has the value
/// that is listed, with call-time choice and without any claim; some proof
/// that checks concludes it.
pub fn answers_follow_without_sets()
    ensures concluded { (code : Code) (limits : SearchLimits) (goal : FunId) (depth : ℕ)
        (reading : Reading) → IsTrue (is_well_formed code)
        → IsTrue (code_is_without_sets code) → IsTrue (is_rule (body_of code goal))
        → Among (Answered depth reading) (listing code limits (start_of code goal)).lines
        → Concludes (program_of code) [] goal (values_of reading.bindings) reading.value }
    ensures proved { (code : Code) (limits : SearchLimits) (goal : FunId) (depth : ℕ)
        (reading : Reading) → IsTrue (is_well_formed code)
        → IsTrue (code_is_without_sets code) → IsTrue (is_rule (body_of code goal))
        → Among (Answered depth reading) (listing code limits (start_of code goal)).lines
        → IsProved (program_of code) []
        (call_statement goal (values_of reading.bindings) reading.value) }
{}
