//! What searches for all values of functions find is true.
ghost use Rattle.std.specs.Prelude.{ℕ, ◌+◌, List, [], ◌∷◌, IsTrue};
ghost use Rattle.cu_calculus.specs.declared.FunId.{FunId};
ghost use Rattle.cu_calculus.specs.Claims.{AreLeastLevels, AreTrue, Derives, DerivesAt, level_of};
ghost use Rattle.cu_calculus.specs.Code.{Code, body_of, is_rule};
ghost use Rattle.cu_calculus.specs.FlatProgram.{program_of};
ghost use Rattle.cu_calculus.specs.Gives.{Claim};
ghost use Rattle.cu_calculus.specs.Shape.{are_ground, is_ground};
ghost use Rattle.cu_calculus.specs.Value.{Value, Values, values_of};
ghost use Rattle.cu_calculus.specs.WellFormed.{is_well_formed};
ghost use Rattle.cu_machine.specs.declared.Limits.{Limits};
ghost use Rattle.cu_machine.specs.declared.SearchLimits.{SearchLimits};
ghost use Rattle.cu_machine.specs.Among.{Among};
ghost use Rattle.cu_machine.specs.Found.{Found};
ghost use Rattle.cu_machine.specs.Listing.{Answered, listing};
ghost use Rattle.cu_machine.specs.Next.{Reading};
ghost use Rattle.cu_machine.specs.State.{start_of};
ghost use Rattle.cu_laws.specs.AtLevel.{AreBelow, AreLevelsOf};
ghost use Rattle.cu_laws.specs.Instance.{Covered, IsExhausted};
ghost use Rattle.cu_laws.specs.Promises.{AgreeWithSearches};
ghost use Rattle.cu_laws.specs.Traced.{AreFound};

/// In a program that has set levels, a list that a search for all values of a
/// function finds is that of a true claim: it holds exactly the ground data that
/// the calculus gives the function. And claims of functions below a level, each
/// of which a search finds, are true there.
pub fn found_lists_are_true()
    ensures one { (code : Code) (limits : Limits) (levels : List ℕ) (claim : Claim)
        → IsTrue (is_well_formed code) → AreLevelsOf code levels
        → Found code limits claim.function claim.arguments claim.values
        → AreTrue (program_of code) levels (level_of levels claim.function + 1) (claim ∷ []) }
    ensures all { (code : Code) (limits : Limits) (levels : List ℕ) (level : ℕ)
        (claims : List Claim) → IsTrue (is_well_formed code) → AreLevelsOf code levels
        → AreFound code limits claims → AreBelow levels level claims
        → AreTrue (program_of code) levels level claims }
{}

/// Claims that are true at a level agree with what searches find, so the laws of
/// completeness hold over them: they are claims of the program, and where the
/// search of a claim's function on its arguments ends, it has found the claim's
/// values.
pub fn true_claims_agree_with_searches()
    ensures { (code : Code) (limits : Limits) (levels : List ℕ) (level : ℕ)
        (claims : List Claim) → IsTrue (is_well_formed code)
        → AreLevelsOf code levels → AreTrue (program_of code) levels level claims
        → AgreeWithSearches code limits claims }
{}

/// Every answer that is listed has a derivation from the rules, in which set
/// calls stand for all their values: the goal, on what its variables are bound
/// to, has the value that is listed, over claims that are true at its level.
pub fn listed_answers_derive()
    ensures at_level { (code : Code) (limits : SearchLimits) (levels : List ℕ) (goal : FunId)
        (depth : ℕ) (reading : Reading) → IsTrue (is_well_formed code)
        → IsTrue (is_rule (body_of code goal)) → AreLevelsOf code levels
        → Among (Answered depth reading) (listing code limits (start_of code goal)).lines
        → DerivesAt (program_of code) levels goal (values_of reading.bindings) reading.value }
    ensures least { (code : Code) (limits : SearchLimits) (levels : List ℕ) (goal : FunId)
        (depth : ℕ) (reading : Reading) → IsTrue (is_well_formed code)
        → IsTrue (is_rule (body_of code goal)) → AreLevelsOf code levels
        → AreLeastLevels (program_of code) levels
        → Among (Answered depth reading) (listing code limits (start_of code goal)).lines
        → Derives (program_of code) goal (values_of reading.bindings) reading.value }
{}

/// Nothing is missed: where a listing ends with no more, and no branch waits,
/// each ground solution of the goal is an instance of an answer that is listed.
pub fn exhausted_listings_cover()
    ensures at_level { (code : Code) (limits : SearchLimits) (levels : List ℕ) (goal : FunId)
        (arguments : Values) (v : Value) → IsTrue (is_well_formed code)
        → IsTrue (is_rule (body_of code goal)) → AreLevelsOf code levels
        → IsExhausted (listing code limits (start_of code goal))
        → IsTrue (are_ground arguments) → IsTrue (is_ground v)
        → DerivesAt (program_of code) levels goal arguments v
        → Covered code (listing code limits (start_of code goal)) arguments v }
    ensures least { (code : Code) (limits : SearchLimits) (levels : List ℕ) (goal : FunId)
        (arguments : Values) (v : Value) → IsTrue (is_well_formed code)
        → IsTrue (is_rule (body_of code goal)) → AreLevelsOf code levels
        → AreLeastLevels (program_of code) levels
        → IsExhausted (listing code limits (start_of code goal))
        → IsTrue (are_ground arguments) → IsTrue (is_ground v)
        → Derives (program_of code) goal arguments v
        → Covered code (listing code limits (start_of code goal)) arguments v }
{}
