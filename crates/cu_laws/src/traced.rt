//! Soundness of whole states: their steps, their runs and their searches for
//! all values of a function.
ghost use Rattle.std.specs.Prelude.{◌≡◌, ℕ, ◌<◌, List, [], ◌∷◌, ◌++◌, Some, IsTrue, map};
ghost use Rattle.cu_calculus.specs.declared.FunId.{FunId};
ghost use Rattle.cu_calculus.specs.Calls.{call_statement};
ghost use Rattle.cu_calculus.specs.Claims.{Concludes, level_of};
ghost use Rattle.cu_calculus.specs.Code.{Code, body_of, function_arity, is_rule};
ghost use Rattle.cu_calculus.specs.FlatProgram.{program_of};
ghost use Rattle.cu_calculus.specs.Gives.{Claim};
ghost use Rattle.cu_calculus.specs.Proved.{IsProved};
ghost use Rattle.cu_calculus.specs.Value.{Value, Values, count, values_of};
ghost use Rattle.cu_calculus.specs.WellFormed.{is_well_formed};
ghost use Rattle.cu_machine.specs.declared.Kind.TheVariants.{SetCall};
ghost use Rattle.cu_machine.specs.declared.Limits.{Limits};
ghost use Rattle.cu_machine.specs.declared.SearchLimits.{SearchLimits};
ghost use Rattle.cu_machine.specs.Among.{Among};
ghost use Rattle.cu_machine.specs.Found.{Found};
ghost use Rattle.cu_machine.specs.Graph.{Graph, node_at};
ghost use Rattle.cu_machine.specs.Level.{level, step_level};
ghost use Rattle.cu_machine.specs.Next.{Answer, Go, Reading, delivered, next};
ghost use Rattle.cu_machine.specs.Run.{reached, run};
ghost use Rattle.cu_machine.specs.Sort.{sorted};
ghost use Rattle.cu_machine.specs.State.{Branch, Idle, NoState, Running, Search, State, States};
ghost use Rattle.cu_machine.specs.State.{call_on, graph_of, start_of};
ghost use Rattle.cu_machine.specs.Validity.{are_built};
ghost use Rattle.cu_laws.specs.AtLevel.{AreBelow, AreLevelsOf};
ghost use Rattle.cu_laws.specs.Good.{Assignment, Good, RisesTo, claim_of};
ghost use Rattle.cu_laws.specs.StepsBackward.{StepsBackward, claims_of_end};
ghost use Rattle.cu_laws.specs.Traced.{AreFound, spelled_values};
ghost use Rattle.cu_laws.specs.TracedAt.{TracedAt};

/// The state in which a goal begins is traced at the goal's set level, and one
/// in which a function's values begin to be collected at the function's. Each
/// step keeps this, and so do runs and levels, those that are taken by a stride
/// and those by single steps.
pub fn states_stay_traced()
    ensures start { (code : Code) (limits : Limits) (levels : List ℕ) (goal : FunId)
        → IsTrue (is_well_formed code) → IsTrue (is_rule (body_of code goal))
        → TracedAt code limits levels (level_of levels goal) (start_of code goal) }
    ensures call { (code : Code) (limits : Limits) (levels : List ℕ) (f : FunId) (args : Values)
        → IsTrue (is_well_formed code) → function_arity code f ≡ Some (count args)
        → IsTrue (are_built code args)
        → TracedAt code limits levels (level_of levels f) (call_on code f args) }
    ensures next { (code : Code) (limits : Limits) (levels : List ℕ) (k : ℕ)
        (before state : State) (states : List State) → IsTrue (is_well_formed code)
        → AreLevelsOf code levels → TracedAt code limits levels k before
        → next code limits before ≡ Go states → Among state states
        → TracedAt code limits levels k state }
    ensures run { (code : Code) (limits : Limits) (levels : List ℕ) (k steps : ℕ)
        (before state : State) (states : List State) → IsTrue (is_well_formed code)
        → AreLevelsOf code levels → TracedAt code limits levels k before
        → run steps code limits before ≡ Go states → Among state states
        → TracedAt code limits levels k state }
    ensures reached { (code : Code) (limits : Limits) (levels : List ℕ) (k steps : ℕ)
        (state : State) → IsTrue (is_well_formed code) → AreLevelsOf code levels
        → TracedAt code limits levels k state
        → TracedAt code limits levels k (reached steps code limits state) }
    ensures level { (code : Code) (limits : SearchLimits) (levels : List ℕ) (k depth : ℕ)
        (start state : State) → IsTrue (is_well_formed code) → AreLevelsOf code levels
        → TracedAt code limits.step levels k start
        → Among state (level code limits start depth)
        → TracedAt code limits.step levels k state }
    ensures step_level { (code : Code) (limits : Limits) (levels : List ℕ) (k depth : ℕ)
        (start state : State) → IsTrue (is_well_formed code) → AreLevelsOf code levels
        → TracedAt code limits levels k start
        → Among state (step_level code limits start depth)
        → TracedAt code limits levels k state }
{}

/// Each step of a traced state is sound, whether it rewrites a node, binds
/// variables, or begins, takes on or ends a search for all values of a
/// function: an assignment that is good for a state that follows can be carried
/// back to the state before, where one more row is claimed if a search has
/// ended. A run of steps is sound in this way, with a row for each search that
/// ends during it, and so are the levels of a search, back to its start.
pub fn traced_steps_are_sound()
    ensures next { (code : Code) (limits : Limits) (levels : List ℕ) (k : ℕ)
        (claims : List Claim) (before state : State) (states : List State) (later : Assignment)
        → IsTrue (is_well_formed code) → TracedAt code limits levels k before
        → next code limits before ≡ Go states → Among state states
        → Good code claims (graph_of state) later
        → StepsBackward code limits levels k claims (claims_of_end before) before later }
    ensures run { (code : Code) (limits : Limits) (levels : List ℕ) (k steps : ℕ)
        (claims : List Claim) (before state : State) (states : List State) (later : Assignment)
        → IsTrue (is_well_formed code) → AreLevelsOf code levels
        → TracedAt code limits levels k before
        → run steps code limits before ≡ Go states → Among state states
        → Good code claims (graph_of state) later
        → (further : List Claim) × StepsBackward code limits levels k claims further before later }
    ensures reached { (code : Code) (limits : Limits) (levels : List ℕ) (k steps : ℕ)
        (claims : List Claim) (state : State) (later : Assignment)
        → IsTrue (is_well_formed code) → AreLevelsOf code levels
        → TracedAt code limits levels k state
        → Good code claims (graph_of (reached steps code limits state)) later
        → (further : List Claim) × StepsBackward code limits levels k claims further state later }
    ensures level { (code : Code) (limits : SearchLimits) (levels : List ℕ) (k depth : ℕ)
        (claims : List Claim) (start state : State) (later : Assignment)
        → IsTrue (is_well_formed code) → AreLevelsOf code levels
        → TracedAt code limits.step levels k start
        → Among state (level code limits start depth)
        → Good code claims (graph_of state) later
        → (further : List Claim)
        × StepsBackward code limits.step levels k claims further start later }
{}

/// Searches for all values of a function are sound. Where one begins, goes on
/// or gets stuck, an assignment that is good for what follows can be carried
/// back over the same claims. Where it ends, one more row is claimed of the
/// state before: it is `Found`, and of a function of a lower level.
pub fn searches_are_sound()
    ensures begins { (code : Code) (limits : Limits) (levels : List ℕ) (k : ℕ)
        (claims : List Claim) (graph after : Graph) (root top : ℕ) (goals others : List ℕ)
        (id : ℕ) (found : List Value) (inner : States) (states : List State) (later : Assignment)
        → IsTrue (is_well_formed code)
        → TracedAt code limits levels k (Branch graph root goals Idle)
        → next code limits (Branch graph root goals Idle) ≡ Go states
        → Among (Branch after top others (Running id found inner)) states
        → Good code claims after later
        → StepsBackward code limits levels k claims [] (Branch graph root goals Idle) later }
    ensures runs { (code : Code) (limits : Limits) (levels : List ℕ) (k : ℕ)
        (claims : List Claim) (graph : Graph) (root : ℕ) (goals : List ℕ) (id : ℕ)
        (found : List Value) (inner : States) (state : State) (states : List State)
        (later : Assignment) → IsTrue (is_well_formed code)
        → TracedAt code limits levels k (Branch graph root goals (Running id found inner))
        → next code limits (Branch graph root goals (Running id found inner)) ≡ Go states
        → Among state states → Good code claims (graph_of state) later
        → StepsBackward code limits levels k claims
        (claims_of_end (Branch graph root goals (Running id found inner)))
        (Branch graph root goals (Running id found inner)) later }
    ensures ended { (code : Code) (limits : Limits) (levels : List ℕ) (k : ℕ)
        (claims : List Claim) (graph : Graph) (root : ℕ) (goals : List ℕ) (id : ℕ) (f : FunId)
        (args : List ℕ) (found : List Value) (later : Assignment)
        → TracedAt code limits levels k (Branch graph root goals (Running id found NoState))
        → node_at graph id ≡ record { kind = SetCall f; args = args }
        → Good code claims (delivered code graph id found) later
        → Found code limits f (spelled_values graph args) (sorted found)
        × (level_of levels f < k) × (earlier : Assignment)
        × Good code (claims ++ claim_of f (spelled_values graph args) (sorted found) ∷ [])
        graph earlier × RisesTo later earlier }
{}

/// What a traced state answers is read off a good assignment of its graph. What
/// the run of a state of a goal's search answers follows from the rules: over
/// claims each of which a search finds, and of functions of lower levels than
/// the goal's, the goal has the value on what its variables are bound to, with
/// call-time choice; some proof that checks concludes it.
pub fn answers_of_traced_states_follow()
    ensures read { (code : Code) (limits : Limits) (levels : List ℕ) (k : ℕ) (graph : Graph)
        (root : ℕ) (goals : List ℕ) (search : Search) (reading : Reading)
        → TracedAt code limits levels k (Branch graph root goals search)
        → next code limits (Branch graph root goals search) ≡ Answer reading
        → (assigned : Assignment) × Good code [] graph assigned
        × (map assigned goals ≡ reading.bindings) × (assigned root ≡ reading.value) }
    ensures concluded { (code : Code) (limits : SearchLimits) (levels : List ℕ) (goal : FunId)
        (depth : ℕ) (state : State) (reading : Reading) → IsTrue (is_well_formed code)
        → IsTrue (is_rule (body_of code goal)) → AreLevelsOf code levels
        → Among state (level code limits (start_of code goal) depth)
        → run limits.stride code limits.step state ≡ Answer reading → (claims : List Claim)
        × AreFound code limits.step claims × AreBelow levels (level_of levels goal) claims
        × Concludes (program_of code) claims goal (values_of reading.bindings) reading.value }
    ensures proved { (code : Code) (limits : SearchLimits) (levels : List ℕ) (goal : FunId)
        (depth : ℕ) (state : State) (reading : Reading) → IsTrue (is_well_formed code)
        → IsTrue (is_rule (body_of code goal)) → AreLevelsOf code levels
        → Among state (level code limits (start_of code goal) depth)
        → run limits.stride code limits.step state ≡ Answer reading → (claims : List Claim)
        × AreFound code limits.step claims × AreBelow levels (level_of levels goal) claims
        × IsProved (program_of code) claims
        (call_statement goal (values_of reading.bindings) reading.value) }
{}
