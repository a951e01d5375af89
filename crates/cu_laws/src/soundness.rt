//! Soundness of single steps.
ghost use Rattle.std.specs.Prelude.{◌≡◌, ◌≢◌, ℕ, ◌<◌, ◌≤◌, Bool, List, [], ◌∷◌, ◌++◌};
ghost use Rattle.std.specs.Prelude.{IsTrue, length, map};
ghost use Rattle.std.specs.List.{list_all};
ghost use Rattle.cu_calculus.specs.declared.ExprId.{ExprId};
ghost use Rattle.cu_calculus.specs.declared.FunId.{FunId};
ghost use Rattle.cu_calculus.specs.Below.{Below};
ghost use Rattle.cu_calculus.specs.Code.{Code};
ghost use Rattle.cu_calculus.specs.FlatProgram.{program_of, term_of};
ghost use Rattle.cu_calculus.specs.Gives.{Claim, Gives};
ghost use Rattle.cu_calculus.specs.Match.{Environment};
ghost use Rattle.cu_calculus.specs.Program.{Program};
ghost use Rattle.cu_calculus.specs.Proof.{is_claim_of};
ghost use Rattle.cu_calculus.specs.Shape.{are_ground, are_total, is_of};
ghost use Rattle.cu_calculus.specs.Term.{Term};
ghost use Rattle.cu_calculus.specs.Valid.{fits_term};
ghost use Rattle.cu_calculus.specs.Value.{Bottom, Value, values_of};
ghost use Rattle.cu_calculus.specs.WellFormed.{fits, is_well_formed};
ghost use Rattle.cu_machine.specs.declared.Kind.{Kind};
ghost use Rattle.cu_machine.specs.declared.Kind.TheVariants.{Free, SetCall};
ghost use Rattle.cu_machine.specs.declared.Limits.{Limits};
ghost use Rattle.cu_machine.specs.Among.{Among};
ghost use Rattle.cu_machine.specs.Build.{Scope, write};
ghost use Rattle.cu_machine.specs.Graph.{Graph, node_at};
ghost use Rattle.cu_machine.specs.Next.{Go, delivered, next};
ghost use Rattle.cu_machine.specs.Sort.{sorted};
ghost use Rattle.cu_machine.specs.Spell.{renumbered, spelled};
ghost use Rattle.cu_machine.specs.State.{Branch, Idle, Search, State, graph_of};
ghost use Rattle.cu_machine.specs.Steps.{Steps};
ghost use Rattle.cu_machine.specs.Validity.{IsValid, NodesFit};
ghost use Rattle.cu_laws.specs.Extends.{Extends};
ghost use Rattle.cu_laws.specs.Good.{AnyValue, Assignment, Good, MayHave, NoValue, RisesTo};
ghost use Rattle.cu_laws.specs.Good.{claim_of, env_in};

/// What a node may have, it may have when its parts are worth more; and it may
/// have less, unless it is a free variable. Both hold where stuck nodes have no
/// value, and where they may have any.
pub fn what_nodes_may_have_is_closed()
    ensures upward { (code : Code) (claims : List Claim) (low high : Assignment) (k : Kind)
        (args : List ℕ) (v : Value) → RisesTo low high → MayHave NoValue code claims low k args v
        → MayHave NoValue code claims high k args v }
    ensures downward { (code : Code) (claims : List Claim) (assigned : Assignment) (k : Kind)
        (args : List ℕ) (v w : Value) → k ≢ Free → MayHave NoValue code claims assigned k args v
        → Below w v → MayHave NoValue code claims assigned k args w }
    ensures loosely_upward { (code : Code) (claims : List Claim) (low high : Assignment)
        (k : Kind) (args : List ℕ) (v : Value) → RisesTo low high
        → MayHave AnyValue code claims low k args v
        → MayHave AnyValue code claims high k args v }
    ensures loosely_downward { (code : Code) (claims : List Claim) (assigned : Assignment)
        (k : Kind) (args : List ℕ) (v w : Value) → k ≢ Free
        → MayHave AnyValue code claims assigned k args v → Below w v
        → MayHave AnyValue code claims assigned k args w }
{}

/// An assignment that is good for a graph in which an expression is written
/// over a node gives that node a value that the expression's term has, where
/// its variables stand for what the nodes of the scope are worth. And from
/// such a value of the node, where nothing is known yet past the graph, come
/// values that all new nodes may have.
pub fn written_expressions_are_worth_their_terms()
    ensures given { (code : Code) (claims : List Claim) (graph : Graph) (id : ℕ) (scope : Scope)
        (variables : List ℕ) (e : ExprId) (assigned : Assignment) → id < length graph
        → IsTrue (fits (length code.expressions) code variables e)
        → Good code claims (write code scope graph id e) assigned
        → Gives (program_of code) claims (env_in assigned scope) (term_of code e)
        (assigned id) }
    ensures converse { (code : Code) (claims : List Claim) (graph : Graph) (id : ℕ) (scope : Scope)
        (variables : List ℕ) (e : ExprId) (assigned : Assignment) → IsTrue (is_well_formed code)
        → IsTrue (list_all (is_claim_of (program_of code)) claims) → id < length graph
        → IsTrue (fits (length code.expressions) code variables e)
        → ((x : ℕ) → IsTrue (is_of (program_of code) (assigned x)))
        → ((x : ℕ) → length graph ≤ x → assigned x ≡ Bottom)
        → Gives (program_of code) claims (env_in assigned scope) (term_of code e)
        (assigned id) → (extended : Assignment)
        × Extends code claims graph id (write code scope graph id e) assigned extended }
{}

/// Every row of the step table is sound: to an assignment that is good for a
/// graph that follows belongs one that is good for the graph before, and is at
/// least as great at every node.
pub fn rows_are_sound()
    ensures { (code : Code) (claims : List Claim) (graph after : Graph) (id : ℕ)
        (later : Assignment) → IsTrue (is_well_formed code) → NodesFit code graph
        → Steps code graph id after → Good code claims after later
        → (earlier : Assignment) × Good code claims graph earlier × RisesTo later earlier }
{}

/// A step of a state in which no search for all values of a function runs is
/// sound: an assignment that is good for a state that follows comes from one
/// that is good for the state before.
pub fn steps_are_sound()
    ensures { (code : Code) (claims : List Claim) (limits : Limits) (graph : Graph) (root : ℕ)
        (goals : List ℕ) (states : List State) (state : State) (later : Assignment)
        → IsTrue (is_well_formed code) → IsValid code (Branch graph root goals Idle)
        → next code limits (Branch graph root goals Idle) ≡ Go states → Among state states
        → Good code claims (graph_of state) later
        → (earlier : Assignment) × Good code claims graph earlier × RisesTo later earlier }
{}

/// Where a search for all values of a function has ended, and its arguments
/// spell ground data, the delivery of what was found is sound over the claim
/// that these are all its values.
pub fn deliveries_are_sound()
    ensures { (code : Code) (claims : List Claim) (graph : Graph) (id : ℕ) (f : FunId)
        (args : List ℕ) (found : List Value) (later : Assignment) → NodesFit code graph
        → node_at graph id ≡ record { kind = SetCall f; args = args }
        → IsTrue (are_ground (values_of (map (spelled graph) args)))
        → Good code claims (delivered code graph id found) later → (earlier : Assignment)
        × Good code
        (claims ++ claim_of f (values_of (map (spelled graph) args)) (sorted found) ∷ [])
        graph earlier × RisesTo later earlier }
{}

/// What is read off a valid state is a good assignment of its graph, however
/// its variables are numbered, and it gives each goal variable a total value.
pub fn readings_are_good()
    ensures good { (code : Code) (claims : List Claim) (graph : Graph) (root : ℕ)
        (goals : List ℕ) (search : Search) (number : ℕ → ℕ)
        → IsValid code (Branch graph root goals search)
        → Good code claims graph (λ id. renumbered number (spelled graph id)) }
    ensures total { (code : Code) (graph : Graph) (root : ℕ) (goals : List ℕ) (search : Search)
        (number : ℕ → ℕ) → IsValid code (Branch graph root goals search)
        → IsTrue (are_total (values_of (map (λ id. renumbered number (spelled graph id)) goals))) }
{}

/// A derivation depends on the variables that may stand in its term, and on no
/// others.
pub fn derivations_depend_on_their_variables()
    ensures { (program : Program) (claims : List Claim) (may : ℕ → Bool) (low high : Environment)
        (t : Term) (v : Value) → Gives program claims low t v → IsTrue (fits_term program may t)
        → ((x : ℕ) → IsTrue (may x) → Below (low x) (high x)) → Gives program claims high t v }
{}
