//! Laws of the definitions.
ghost use Rattle.std.specs.Prelude.{◌≡◌, ◌≤◌, ◌<◌, ◌-◌, ◌++◌, ◌⊎◌, ℕ, Bool, IsTrue, List, [], ◌∷◌, None, length};
ghost use Rattle.std.specs.List.{list_all};
ghost use Rattle.cu_calculus.specs.declared.ConId.{ConId};
ghost use Rattle.cu_calculus.specs.declared.FunId.{FunId};
ghost use Rattle.cu_calculus.specs.declared.Mode.TheVariants.{Rigid};
ghost use Rattle.cu_calculus.specs.Value.{NoValue, Value, Values};
ghost use Rattle.cu_calculus.specs.Code.{Code, body_of, is_rule};
ghost use Rattle.cu_calculus.specs.WellFormed.{is_well_formed};
ghost use Rattle.cu_machine.specs.Among.{Among};
ghost use Rattle.cu_machine.specs.Coin.{all_at, all_of_the_coin, coin, coin_code, coin_function, loop_or_one, number, number_at, small_limits, zero_or_one};
ghost use Rattle.cu_machine.specs.Earlier.{EndedBefore, IsListed, IsReached, earlier};
ghost use Rattle.cu_machine.specs.Found.{Found};
ghost use Rattle.cu_machine.specs.Graph.{Graph, followed, head_at, head_of, head_within, node_at};
ghost use Rattle.cu_machine.specs.Level.{step_level, level};
ghost use Rattle.cu_machine.specs.Listing.{Answered, Line, listing};
ghost use Rattle.cu_machine.specs.Need.{At, Done, Extent, Need, before, free_at, free_within, is_head, need, need_all, need_at, need_within, rest_at, unless_done};
ghost use Rattle.cu_machine.specs.Next.{Answer, Go, Reading, next};
ghost use Rattle.cu_machine.specs.Run.{only_state, reached, reading_at, run};
ghost use Rattle.cu_machine.specs.Rewrite.{Become, move, occurs_at, occurs_within};
ghost use Rattle.cu_machine.specs.Spell.{spelled, spelled_at, spelled_within};
ghost use Rattle.cu_machine.specs.Sets.{IsWithoutSets, code_is_without_sets};
ghost use Rattle.cu_machine.specs.State.{Branch, Idle, State, start_of};
ghost use Rattle.cu_machine.specs.Steps.{Steps};
ghost use Rattle.cu_machine.specs.Validity.{ArgumentsThere, Founded, IsValid, are_built, is_built};
ghost use Rattle.cu_machine.specs.declared.Kind.TheVariants.{Case, Free};
ghost use Rattle.cu_machine.specs.declared.End.TheVariants.{NoMore, Rounds};
ghost use Rattle.cu_machine.specs.declared.Limits.{Limits};
ghost use Rattle.cu_machine.specs.declared.SearchLimits.{SearchLimits};

/// An answer that is listed in a round is that of a state of the round's
/// level, and it is what is read off the state that a run reaches from there.
pub fn answers_stand_at_their_depth()
    ensures { (code : Code) (limits : SearchLimits) (start : State) (depth : ℕ) (reading : Reading)
        → Among (Answered depth reading) (listing code limits start).lines
        → (state : State) × Among state (level code limits start depth)
        × (run limits.stride code limits.step state ≡ Answer reading)
        × (reading ≡ reading_at (reached limits.stride code limits.step state)) }
{}

/// What needs nothing has a head that is there: a constructor, a literal, a
/// partial application or a free variable.
pub fn done_has_a_head()
    ensures { (truth : ConId) (graph : Graph) (id : ℕ) → need truth graph id ≡ Done
        → IsTrue (is_head (head_at graph id).kind) }
{}

/// One need before another is an associative operation, in which a need that
/// was met before changes nothing.
pub fn needs_are_joined()
    ensures associative { (a b c : Need) → before (before a b) c ≡ before a (before b c) }
    ensures idempotent { (a : Need) → before a a ≡ a }
    ensures again { (a b : Need) → before a (before b a) ≡ before a b }
{}

/// On a graph whose arguments are nodes of it, and at a node from which no path
/// is endless, as many visits as the graph has nodes suffice: more of them give
/// the same result.
pub fn visits_suffice()
    ensures head { (graph : Graph) (id visits : ℕ) → ArgumentsThere graph → Founded graph id
        → id < length graph → length graph ≤ visits
        → head_within visits graph id ≡ head_of graph id }
    ensures need { (truth : ConId) (graph : Graph) (extent : Extent) (id visits : ℕ)
        → ArgumentsThere graph → Founded graph id → id < length graph → length graph ≤ visits
        → need_within visits truth graph extent id
        ≡ need_within (length graph) truth graph extent id }
    ensures free { (graph : Graph) (id visits : ℕ) → ArgumentsThere graph → Founded graph id
        → id < length graph → length graph ≤ visits
        → free_within visits graph id ≡ free_within (length graph) graph id }
    ensures spelled { (graph : Graph) (id visits : ℕ) → ArgumentsThere graph → Founded graph id
        → id < length graph → length graph ≤ visits
        → spelled_within visits graph id ≡ spelled graph id }
    ensures occurs { (graph : Graph) (variable id visits : ℕ) → ArgumentsThere graph
        → Founded graph id → id < length graph → length graph ≤ visits
        → occurs_within visits graph variable id ≡ occurs_within (length graph) graph variable id }
{}

/// On a graph whose arguments are nodes of it, and at a node from which no path
/// is endless, the tables hold without a bound on visits: what a node needs is
/// told by what its arguments need, and likewise its head, its value and the
/// free variables in it.
pub fn tables_hold()
    ensures head { (graph : Graph) (id : ℕ) → ArgumentsThere graph → Founded graph id
        → id < length graph → head_of graph id
        ≡ followed (head_of graph) id (node_at graph id).kind (node_at graph id).args }
    ensures need { (truth : ConId) (graph : Graph) (extent : Extent) (id : ℕ) → ArgumentsThere graph
        → Founded graph id → id < length graph → need_within (length graph) truth graph extent id
        ≡ unless_done
        (need_at truth graph (need_within (length graph) truth graph) (head_of graph id)
        (head_at graph id).kind (head_at graph id).args)
        (rest_at (need_within (length graph) truth graph) extent (head_at graph id).kind
        (head_at graph id).args) }
    ensures free { (graph : Graph) (id : ℕ) → ArgumentsThere graph → Founded graph id
        → id < length graph → free_within (length graph) graph id
        ≡ free_at (free_within (length graph) graph) (head_of graph id) (head_at graph id).kind
        (head_at graph id).args }
    ensures spelled { (graph : Graph) (id : ℕ) → ArgumentsThere graph → Founded graph id
        → id < length graph → spelled graph id
        ≡ spelled_at (spelled graph) (head_of graph id) (head_at graph id).kind
        (head_at graph id).args }
    ensures occurs { (graph : Graph) (variable id : ℕ) → ArgumentsThere graph → Founded graph id
        → id < length graph → occurs_within (length graph) graph variable id
        ≡ occurs_at (occurs_within (length graph) graph variable) variable (head_of graph id)
        (head_at graph id).kind (head_at graph id).args }
{}

/// Valid states stay valid: in well-formed code, the state in which the search
/// for a goal begins is valid, and so is each state that follows a valid one,
/// also where a search for all values of a function runs in it. A run keeps
/// this too, of the state that it reaches and of those that follow, and so do the
/// levels of a search.
pub fn states_stay_valid()
    ensures start { (code : Code) (goal : FunId) → IsTrue (is_well_formed code)
        → IsTrue (is_rule (body_of code goal)) → IsValid code (start_of code goal) }
    ensures next { (code : Code) (limits : Limits) (before state : State) (states : List State)
        → IsTrue (is_well_formed code) → IsValid code before
        → next code limits before ≡ Go states → Among state states → IsValid code state }
    ensures run { (code : Code) (limits : Limits) (steps : ℕ) (before state : State)
        (states : List State)
        → IsTrue (is_well_formed code) → IsValid code before
        → run steps code limits before ≡ Go states → Among state states → IsValid code state }
    ensures reached { (code : Code) (limits : Limits) (steps : ℕ) (state : State)
        → IsTrue (is_well_formed code) → IsValid code state
        → IsValid code (reached steps code limits state) }
    ensures level { (code : Code) (limits : SearchLimits) (start state : State) (depth : ℕ)
        → IsTrue (is_well_formed code) → IsValid code start
        → Among state (level code limits start depth) → IsValid code state }
    ensures step_level { (code : Code) (limits : Limits) (start state : State) (depth : ℕ)
        → IsTrue (is_well_formed code) → IsValid code start
        → Among state (step_level code limits start depth) → IsValid code state }
{}

/// Where the code has no set functions, none comes up in a state of its search.
pub fn states_stay_without_sets()
    ensures start { (code : Code) (goal : FunId) → IsTrue (is_rule (body_of code goal))
        → IsWithoutSets (start_of code goal) }
    ensures next { (code : Code) (limits : Limits) (before state : State) (states : List State)
        → IsTrue (is_well_formed code) → IsTrue (code_is_without_sets code)
        → IsValid code before → IsWithoutSets before → next code limits before ≡ Go states
        → Among state states → IsWithoutSets state }
{}

/// The rows of the step table as a relation are the moves of the function:
/// each row's graph is one that the move gives, and where a valid state needs
/// the node each graph that the move gives comes by a row. A rigid case
/// distinction on a free variable has no row: it waits.
pub fn rows_are_moves()
    ensures rows { (code : Code) (graph after : Graph) (id : ℕ) → Steps code graph id after
        → (graphs : List Graph) × (move code graph id ≡ Become graphs) × Among after graphs }
    ensures moves { (code : Code) (graph after : Graph) (root id : ℕ) (goals : List ℕ)
        (graphs : List Graph)
        → IsValid code (Branch graph root goals Idle)
        → need_all code.special.truth graph root ≡ At id → move code graph id ≡ Become graphs
        → Among after graphs → Steps code graph id after }
    ensures rigid { (code : Code) (graph after : Graph) (id number scrutinee : ℕ)
        (values : List ℕ)
        → node_at graph id ≡ record { kind = Case Rigid number; args = scrutinee ∷ values }
        → (head_at graph scrutinee).kind ≡ Free → Steps code graph id after → ⊥ }
{}

/// A run of one step is that step. A run of more steps goes on with the one
/// state that follows, and is a single step where there isn't exactly one. So
/// it is one step of the state that it reaches.
pub fn runs_are_steps()
    ensures one { (code : Code) (limits : Limits) (state : State)
        → run 1 code limits state ≡ next code limits state }
    ensures alone { (code : Code) (limits : Limits) (steps : ℕ) (state after : State) → 1 < steps
        → next code limits state ≡ Go (after ∷ [])
        → run steps code limits state ≡ run (steps - 1) code limits after }
    ensures otherwise { (code : Code) (limits : Limits) (steps : ℕ) (state : State)
        → only_state (next code limits state) ≡ None
        → run steps code limits state ≡ next code limits state }
    ensures reaches { (code : Code) (limits : Limits) (steps : ℕ) (state : State)
        → run steps code limits state
        ≡ next code limits (reached steps code limits state) }
{}

/// An answer whose state stands so many single steps from the start is due in
/// a round of at most that number, and of exactly that number where rounds are
/// single steps: a run reaches the state from one of that round's level. There
/// the answer is listed, right after what is listed before it, unless the
/// listing ended by then: by a limit on rounds or answers, or by a stop.
pub fn answers_are_listed()
    ensures depth { (code : Code) (limits : SearchLimits) (start state : State) (steps : ℕ)
        (reading : Reading) → Among state (step_level code limits.step start steps)
        → next code limits.step state ≡ Answer reading
        → (round : ℕ) × (round ≤ steps) × (limits.stride ≡ 1 → round ≡ steps)
        × (before : List State) × IsReached code limits start round before state
        × (Among (Answered round reading) (listing code limits start).lines
        ⊎ EndedBefore limits round (earlier code limits start round before)
        (listing code limits start)) }
    ensures place { (code : Code) (limits : SearchLimits) (start state : State) (round : ℕ)
        (before : List State) (reading : Reading) → IsReached code limits start round before state
        → next code limits.step state ≡ Answer reading
        → IsListed round (earlier code limits start round before) reading
        (listing code limits start)
        ⊎ EndedBefore limits round (earlier code limits start round before)
        (listing code limits start) }
{}

/// Listings by definition: of two rules for a coin in rounds of one step, two
/// and three; of a choice, which is a function's call; and of a choice beside
/// what never ends. A search for all values of the coin finds both, and a call
/// of its set function has them as one answer.
pub fn coins_are_listed()
    ensures code { IsTrue (is_well_formed coin_code) }
    ensures one { listing coin_code (small_limits 10 1) (start_of coin_code coin)
        ≡ record { lines = number_at 3 0 ∷ number_at 3 1 ∷ []; end = NoMore 0 } }
    ensures two { listing coin_code (small_limits 10 2) (start_of coin_code coin)
        ≡ record { lines = number_at 2 0 ∷ number_at 2 1 ∷ []; end = NoMore 0 } }
    ensures three { listing coin_code (small_limits 10 3) (start_of coin_code coin)
        ≡ record { lines = number_at 1 0 ∷ number_at 1 1 ∷ []; end = NoMore 0 } }
    ensures choice { listing coin_code (small_limits 10 1) (start_of coin_code zero_or_one)
        ≡ record { lines = number_at 3 0 ∷ number_at 3 1 ∷ []; end = NoMore 0 } }
    ensures endless { listing coin_code (small_limits 100 10) (start_of coin_code loop_or_one)
        ≡ record { lines = number_at 1 1 ∷ []; end = Rounds 100 1 } }
    ensures all { listing coin_code (small_limits 10 1) (start_of coin_code all_of_the_coin)
        ≡ record { lines = all_at 6 (number 0 ∷ number 1 ∷ []) ∷ []; end = NoMore 0 } }
    ensures found { Found coin_code (small_limits 10 1).step coin_function NoValue
        (number 0 ∷ number 1 ∷ []) }
{}

/// What a search finds is of ground data of the program, and is such data
/// itself: constructors of the program with all their arguments, and literals
/// of the language.
pub fn finds_are_of_the_program()
    ensures arguments { (code : Code) (limits : Limits) (f : FunId) (arguments : Values)
        (values : List Value)
        → Found code limits f arguments values → IsTrue (are_built code arguments) }
    ensures values { (code : Code) (limits : Limits) (f : FunId) (arguments : Values)
        (values : List Value)
        → IsTrue (is_well_formed code) → Found code limits f arguments values
        → IsTrue (list_all (is_built code) values) }
{}
