//! Completeness of the search: no step and no level loses a solution.
ghost use Rattle.std.specs.Prelude.{◌≡◌, ◌⊎◌, ℕ, List, IsTrue};
ghost use Rattle.std.specs.List.{list_all};
ghost use Rattle.cu_calculus.specs.declared.FunId.{FunId};
ghost use Rattle.cu_calculus.specs.Code.{Code};
ghost use Rattle.cu_calculus.specs.FlatProgram.{program_of};
ghost use Rattle.cu_calculus.specs.Gives.{Claim};
ghost use Rattle.cu_calculus.specs.Proof.{is_claim_of};
ghost use Rattle.cu_calculus.specs.Shape.{is_ground};
ghost use Rattle.cu_calculus.specs.Value.{Value, Values};
ghost use Rattle.cu_calculus.specs.WellFormed.{is_well_formed};
ghost use Rattle.cu_machine.specs.declared.End.TheVariants.{NoMore};
ghost use Rattle.cu_machine.specs.declared.Limits.{Limits};
ghost use Rattle.cu_machine.specs.declared.SearchLimits.{SearchLimits};
ghost use Rattle.cu_machine.specs.Among.{Among};
ghost use Rattle.cu_machine.specs.Found.{Found};
ghost use Rattle.cu_machine.specs.Graph.{Graph};
ghost use Rattle.cu_machine.specs.Listing.{Answered, listing};
ghost use Rattle.cu_machine.specs.Next.{Fails, Go, Reading, next};
ghost use Rattle.cu_machine.specs.Run.{run};
ghost use Rattle.cu_machine.specs.State.{Branch, Idle, State, call_on};
ghost use Rattle.cu_machine.specs.Validity.{IsValid};
ghost use Rattle.cu_laws.specs.Good.{Assignment};
ghost use Rattle.cu_laws.specs.Promises.{AgreeWithSearches, AnswersPromise, AreDecided};
ghost use Rattle.cu_laws.specs.Promises.{KeptByAnswer, KeptByState, Promises, SomeContinues};
ghost use Rattle.cu_laws.specs.Traced.{IsTraced};

/// Where states follow one that promises an answer, one of them loses no value.
/// While no search for all values of a function runs, this needs no more than
/// claims of the program; where one runs, it needs claims that agree with what
/// searches find, as those that are true at a level do
/// (`true_claims_agree_with_searches`).
pub fn steps_are_complete()
    ensures idle { (code : Code) (claims : List Claim) (limits : Limits) (graph : Graph)
        (root : ℕ) (goals : List ℕ) (states : List State) (assigned : Assignment)
        → IsTrue (is_well_formed code)
        → IsTrue (list_all (is_claim_of (program_of code)) claims)
        → IsValid code (Branch graph root goals Idle)
        → Promises code claims (Branch graph root goals Idle) assigned
        → next code limits (Branch graph root goals Idle) ≡ Go states
        → SomeContinues code claims (Branch graph root goals Idle) states assigned }
    ensures traced { (code : Code) (claims : List Claim) (limits : Limits) (before : State)
        (states : List State) (assigned : Assignment) → IsTrue (is_well_formed code)
        → AgreeWithSearches code limits claims → IsValid code before
        → IsTraced code limits before → Promises code claims before assigned
        → next code limits before ≡ Go states
        → SomeContinues code claims before states assigned }
{}

/// A state that fails promises no answer.
pub fn failures_have_no_values()
    ensures { (code : Code) (claims : List Claim) (limits : Limits) (state : State)
        (assigned : Assignment) → next code limits state ≡ Fails
        → Promises code claims state assigned → ⊥ }
{}

/// No level loses a solution: where nothing before a depth waits or stops, a
/// state of some level before has given an answer that keeps what the start
/// promises, or a state of the level at the depth keeps it. This holds of
/// levels of single steps, which are those of searches for all values, and of
/// the levels of a listing, whose rounds take each state on by several.
pub fn levels_are_complete()
    ensures steps { (code : Code) (claims : List Claim) (limits : Limits) (start : State)
        (assigned : Assignment) (depth : ℕ) → IsTrue (is_well_formed code)
        → AgreeWithSearches code limits claims → IsValid code start
        → IsTraced code limits start → Promises code claims start assigned
        → AreDecided (next code limits) start depth
        → KeptByAnswer code limits claims (next code limits) start assigned depth
        ⊎ KeptByState code claims (next code limits) start assigned depth }
    ensures rounds { (code : Code) (claims : List Claim) (limits : Limits) (stride : ℕ)
        (start : State) (assigned : Assignment) (depth : ℕ) → IsTrue (is_well_formed code)
        → AgreeWithSearches code limits claims → IsValid code start
        → IsTraced code limits start → Promises code claims start assigned
        → AreDecided (run stride code limits) start depth
        → KeptByAnswer code limits claims (run stride code limits) start assigned depth
        ⊎ KeptByState code claims (run stride code limits) start assigned depth }
{}

/// What a search for all values of a function finds leaves out nothing that
/// its start promises: one of the values is that of an answer which keeps it.
pub fn searches_are_complete()
    ensures { (code : Code) (claims : List Claim) (limits : Limits) (f : FunId)
        (arguments : Values) (values : List Value) (assigned : Assignment)
        → IsTrue (is_well_formed code) → AgreeWithSearches code limits claims
        → Found code limits f arguments values
        → Promises code claims (call_on code f arguments) assigned
        → (reading : Reading) × Among reading.value values × IsTrue (is_ground reading.value)
        × AnswersPromise code limits claims (call_on code f arguments) assigned reading }
{}

/// A listing that ends with no more, and in which no branch waits, leaves out
/// nothing that its start promises: it lists an answer which keeps it.
pub fn listings_are_complete()
    ensures { (code : Code) (claims : List Claim) (limits : SearchLimits) (start : State)
        (assigned : Assignment) → IsTrue (is_well_formed code)
        → AgreeWithSearches code limits.step claims → IsValid code start
        → IsTraced code limits.step start → Promises code claims start assigned
        → (listing code limits start).end ≡ NoMore 0
        → (round : ℕ) × (reading : Reading)
        × Among (Answered round reading) (listing code limits start).lines
        × AnswersPromise code limits.step claims start assigned reading }
{}
