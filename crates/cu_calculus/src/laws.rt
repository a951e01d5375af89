//! Laws of the definitions.
ghost use Rattle.std.specs.Prelude.{◌≡◌, ◌≢◌, ◌↔◌, ℕ, ◌+◌, ◌<◌, ◌≤◌, Bool, List, [], ◌∷◌, ◌++◌, None, Some, IsTrue, true, length, slice_get};
ghost use Rattle.std.specs.Cmp.{IsTotalOrder};
ghost use Rattle.std.specs.List.{list_all};
ghost use Rattle.std.specs.declared.cmp.Ordering.TheVariants.{Equal};
ghost use Rattle.cu_calculus.specs.declared.FunId.{FunId};
ghost use Rattle.cu_calculus.specs.declared.builtin.Primitive.{Primitive};
ghost use Rattle.cu_calculus.specs.Answered.{answered, same_value};
ghost use Rattle.cu_calculus.specs.Below.{AllBelow, Below, BindingsBelow, EnvBelow};
ghost use Rattle.cu_calculus.specs.Builtin.{AllCompare, Answers, Compares};
ghost use Rattle.cu_calculus.specs.Calls.{call_statement};
ghost use Rattle.cu_calculus.specs.Choose.{Again, Chooses, Demand, Specialize, Row, Selects, alternative_at, look, rows_from};
ghost use Rattle.cu_calculus.specs.Chosen.{chosen, chosen_after, looks};
ghost use Rattle.cu_calculus.specs.Claims.{AreLeastLevels, AreTrue, Concludes, Derives, DerivesAt, IsExact, level_of};
ghost use Rattle.cu_calculus.specs.Coin as coin;
ghost use Rattle.cu_calculus.specs.Compared.{all_compared, compared};
ghost use Rattle.cu_calculus.specs.Flat.{all_differ, are_flat_alternatives, demands_of, met_by};
ghost use Rattle.cu_calculus.specs.Gives.{Claim, Gives};
ghost use Rattle.cu_calculus.specs.Joined.{joined, moved};
ghost use Rattle.cu_calculus.specs.Match.{Bindings, Environment, all_matched, bind_all, matched};
ghost use Rattle.cu_calculus.specs.Order.{value_order};
ghost use Rattle.cu_calculus.specs.Program.{Program};
ghost use Rattle.cu_calculus.specs.Proof.{Checks, Statement, Step, conclusion, is_claim_of, is_statement_of};
ghost use Rattle.cu_calculus.specs.Proved.{IsGiven, IsProved};
ghost use Rattle.cu_calculus.specs.Rows.{AreRows, cited, proof_cited};
ghost use Rattle.cu_calculus.specs.Shape.{is_of};
ghost use Rattle.cu_calculus.specs.Term.{Alternatives, Pattern, Patterns, Term};
ghost use Rattle.cu_calculus.specs.Valid.{IsValid, fit_alternatives, fits_term};
ghost use Rattle.cu_calculus.specs.Value.{NoValue, Value, Values, values_of};

/// Approximation is a partial order.
pub fn approximation_is_an_order()
    ensures itself { (v : Value) → Below v v }
    ensures transitive { (u v w : Value) → Below u v → Below v w → Below u w }
    ensures antisymmetric { (u v : Value) → Below u v → Below v u → u ≡ v }
{}

/// The order in which the values of a set function are listed is total, and
/// equal in it are only equal values.
pub fn values_have_a_total_order()
    ensures total { IsTotalOrder value_order }
    ensures same { (u v : Value) → (value_order u v ≡ Equal) ↔ (u ≡ v) }
{}

/// Matching is monotonic: what a pattern matches it also matches when more is
/// known of it, with values of its variables that say at least as much.
pub fn matches_rise()
    ensures one { (p : Pattern) (u v : Value) (low : Bindings) → Below u v → matched p u ≡ Some low
        → (high : Bindings) × (matched p v ≡ Some high) × BindingsBelow low high }
    ensures all { (ps : Patterns) (us vs : Values) (low : Bindings) → AllBelow us vs
        → all_matched ps us ≡ Some low
        → (high : Bindings) × (all_matched ps vs ≡ Some high) × BindingsBelow low high }
    ensures environments { (low high : Environment) (bindings greater : Bindings)
        → EnvBelow low high → BindingsBelow bindings greater
        → EnvBelow (bind_all low bindings) (bind_all high greater) }
{}

/// The alternative that values take is taken by values that say at least as
/// much.
pub fn choices_rise()
    ensures one { (program : Program) (rows : List Row) (u v : Value) (choice : ℕ) → Below u v
        → Chooses program rows (u ∷ []) choice → Chooses program rows (v ∷ []) choice }
    ensures all { (program : Program) (rows : List Row) (us vs : List Value) (choice : ℕ)
        → AllBelow (values_of us) (values_of vs)
        → Chooses program rows us choice → Chooses program rows vs choice }
{}

/// At most one alternative is taken, and a function finds it. Each look leads
/// to rows that need fewer looks, of which one is taken in their place.
pub fn choosing_is_a_function()
    ensures same { (program : Program) (rows : List Row) (values : List Value) (choice : ℕ)
        → Chooses program rows values choice ↔ (chosen program rows values ≡ Some choice) }
    ensures one { (program : Program) (rows : List Row) (values : List Value) (choice other : ℕ)
        → Chooses program rows values choice → Chooses program rows values other → choice ≡ other }
    ensures looks { (program : Program) (rows : List Row) (values : List Value)
        → chosen program rows values ≡ chosen_after (chosen program) values
        (look program rows values) }
    ensures again { (program : Program) (rows fewer : List Row) (values : List Value)
        → look program rows values ≡ Again fewer → looks fewer < looks rows }
    ensures specialize { (program : Program) (rows fewer : List Row) (values parts : List Value)
        → look program rows values ≡ Specialize fewer parts → looks fewer < looks rows }
{}

/// The alternative that a value takes matches it, where both are of the
/// program; so it selects one term, with one list of bindings. Of the
/// alternatives before it none matches. (One that matches need not be taken:
/// an unknown value where an earlier alternative demands something stops the
/// choice.)
pub fn taken_alternatives_match()
    ensures selects { (program : Program) (alternatives : Alternatives) (may : ℕ → Bool) (u : Value)
        (choice : ℕ)
        → IsTrue (fit_alternatives program may alternatives) → IsTrue (is_of program u)
        → Chooses program (rows_from 0 alternatives) (u ∷ []) choice
        → (t : Term) × (bindings : Bindings) × (selects : Selects program alternatives u t bindings)
        × (selects.choice ≡ choice) }
    ensures one { (program : Program) (alternatives : Alternatives) (u : Value) (t s : Term)
        (bindings others : Bindings)
        → Selects program alternatives u t bindings → Selects program alternatives u s others
        → (t ≡ s) × (bindings ≡ others) }
    ensures earlier { (program : Program) (alternatives : Alternatives) (u : Value)
        (choice earlier : ℕ) (p : Pattern) (t : Term)
        → Chooses program (rows_from 0 alternatives) (u ∷ []) choice → earlier < choice
        → alternative_at alternatives earlier ≡ Some (p, t) → matched p u ≡ None }
{}

/// Of the alternatives of a flat case distinction a value takes the one that
/// demands its literal or its constructor, where there is one; a value that
/// is neither takes none.
pub fn flat_alternatives_meet()
    ensures { (program : Program) (alternatives : Alternatives) (u : Value) (choice : ℕ)
        → IsTrue (are_flat_alternatives alternatives)
        → IsTrue (all_differ (demands_of alternatives))
        → Chooses program (rows_from 0 alternatives) (u ∷ []) choice
        ↔ ((d : Demand) × (met_by u ≡ Some d)
        × (slice_get (demands_of alternatives) choice ≡ Some d)) }
{}

/// Comparing by `==` has at most one answer, and a function finds it.
pub fn comparing_is_a_function()
    ensures one { (u v : Value) (answer : Bool) → Compares u v answer
        ↔ (compared u v ≡ Some answer) }
    ensures all { (us vs : Values) (answer : Bool) → AllCompare us vs answer
        ↔ (all_compared us vs ≡ Some answer) }
{}

/// A built-in operation answers at most one value, and a function finds it.
pub fn answering_is_a_function()
    ensures same { (program : Program) (operation : Primitive) (us : Values) (v : Value)
        → Answers program operation us v ↔ (answered program operation us ≡ Some v) }
    ensures values { (u v : Value) → IsTrue (same_value u v) ↔ (u ≡ v) }
{}

/// A derivation stays where its value says less and its environment says
/// more.
pub fn derivations_weaken()
    ensures { (program : Program) (claims : List Claim) (low high : Environment) (t : Term)
        (v w : Value)
        → Gives program claims low t v → EnvBelow low high → Below w v
        → Gives program claims high t w }
{}

/// From values of a valid program, and over claims of it, a derivation gives
/// values of the program.
pub fn derivations_stay_in_the_program()
    ensures { (program : Program) (claims : List Claim) (env : Environment) (t : Term) (v : Value)
        → IsValid program → IsTrue (list_all (is_claim_of program) claims)
        → ((x : ℕ) → IsTrue (is_of program (env x)))
        → IsTrue (fits_term program (λ x. true) t) → Gives program claims env t v
        → IsTrue (is_of program v) }
{}

/// Proofs can be put one after another: the whole checks, concludes what the
/// second concludes, and has the steps of both.
pub fn proofs_join()
    ensures checks { (program : Program) (claims : List Claim) (first second : List Step)
        → Checks program claims first → Checks program claims second
        → Checks program claims (joined first second) }
    ensures concludes { (first second : List Step) → second ≢ []
        → conclusion (joined first second) ≡ conclusion second }
    ensures keeps_first { (first second : List Step) (k : ℕ) (step : Step)
        → slice_get first k ≡ Some step
        → slice_get (joined first second) k ≡ Some step }
    ensures keeps_second { (first second : List Step) (k : ℕ) (step : Step)
        → slice_get second k ≡ Some step
        → slice_get (joined first second) (length first + k) ≡ Some (moved (length first) step) }
{}

/// The two forms of the calculus agree. What a proof that checks concludes,
/// and what any of its statements says, the relation gives; and what the
/// relation gives of a statement of a valid program, over claims of it, some
/// proof that checks concludes.
pub fn forms_agree()
    ensures sound { (program : Program) (claims : List Claim) (statement : Statement)
        → IsProved program claims statement → IsGiven program claims statement }
    ensures throughout { (program : Program) (claims : List Claim) (proof : List Step) (k : ℕ)
        (step : Step)
        → Checks program claims proof → slice_get proof k ≡ Some step
        → IsGiven program claims step.statement }
    ensures complete { (program : Program) (claims : List Claim) (statement : Statement)
        → IsValid program → IsTrue (list_all (is_claim_of program) claims)
        → IsTrue (is_statement_of program statement)
        → IsGiven program claims statement → IsProved program claims statement }
{}

/// A function on argument values concludes a value exactly where a proof
/// concludes the statement of the call, and so derivations can be read as
/// proofs.
pub fn calls_have_proofs()
    ensures proved { (program : Program) (claims : List Claim) (f : FunId) (vs : Values) (v : Value)
        → IsValid program → IsTrue (list_all (is_claim_of program) claims)
        → Concludes program claims f vs v
        → IsProved program claims (call_statement f vs v) }
    ensures concluded { (program : Program) (claims : List Claim) (f : FunId) (vs : Values)
        (v : Value)
        → IsProved program claims (call_statement f vs v) → Concludes program claims f vs v }
    ensures derived { (program : Program) (f : FunId) (vs : Values) (v : Value) → IsValid program
        → Derives program f vs v
        ↔ ((levels : List ℕ) × AreLeastLevels program levels × (claims : List Claim)
        × AreTrue program levels (level_of levels f) claims
        × IsProved program claims (call_statement f vs v)) }
    ensures derived_at { (program : Program) (levels : List ℕ) (f : FunId) (vs : Values) (v : Value)
        → IsValid program
        → DerivesAt program levels f vs v
        ↔ ((claims : List Claim) × AreTrue program levels (level_of levels f) claims
        × IsProved program claims (call_statement f vs v)) }
{}

/// A derivation over claims is one over any claims that have the same rows,
/// and a proof that checks still checks when the claims get further rows of
/// the program.
pub fn claims_extend()
    ensures derivations { (program : Program) (claims others : List Claim) (env : Environment)
        (t : Term) (v : Value)
        → AreRows claims others → Gives program claims env t v → Gives program others env t v }
    ensures proofs { (program : Program) (claims others : List Claim) (proof : List Step)
        → AreRows claims others → IsTrue (list_all (is_claim_of program) others)
        → Checks program claims proof
        → Checks program others proof }
    ensures further { (program : Program) (claims further : List Claim) (proof : List Step)
        → IsTrue (list_all (is_claim_of program) further) → Checks program claims proof
        → Checks program (claims ++ further) proof }
{}

/// The rows that a derivation or a proof cites are rows of its claims, and
/// they suffice: it stays over any claims of the program that have them.
pub fn cited_claims_suffice()
    ensures cited_by_derivation { (program : Program) (claims : List Claim) (env : Environment)
        (t : Term) (v : Value)
        (given : Gives program claims env t v)
        → AreRows (cited program claims env t v given) claims }
    ensures derivations { (program : Program) (claims others : List Claim) (env : Environment)
        (t : Term) (v : Value)
        (given : Gives program claims env t v) → AreRows (cited program claims env t v given) others
        → Gives program others env t v }
    ensures cited_by_proof { (program : Program) (claims : List Claim) (proof : List Step)
        (checks : Checks program claims proof)
        → AreRows (proof_cited program claims proof checks.follows) claims }
    ensures proofs { (program : Program) (claims others : List Claim) (proof : List Step)
        (checks : Checks program claims proof)
        → IsTrue (list_all (is_claim_of program) others)
        → AreRows (proof_cited program claims proof checks.follows) others
        → Checks program others proof }
{}

/// Least levels are unique: a program has one list of them at most.
pub fn least_levels_are_unique()
    ensures { (program : Program) (levels others : List ℕ) → AreLeastLevels program levels
        → AreLeastLevels program others
        → levels ≡ others }
{}

/// True claims are of their program. Rows of true claims are true, two lists
/// of true claims are true together, and what is true at a level is true at
/// each that is higher.
pub fn true_claims_combine()
    ensures of_program { (program : Program) (levels : List ℕ) (level : ℕ) (claims : List Claim)
        → IsValid program
        → AreTrue program levels level claims → IsTrue (list_all (is_claim_of program) claims) }
    ensures rows { (program : Program) (levels : List ℕ) (level : ℕ) (claims others : List Claim)
        → AreTrue program levels level claims → AreRows others claims
        → AreTrue program levels level others }
    ensures joined { (program : Program) (levels : List ℕ) (level : ℕ) (claims others : List Claim)
        → AreTrue program levels level claims → AreTrue program levels level others
        → AreTrue program levels level (claims ++ others) }
    ensures higher { (program : Program) (levels : List ℕ) (level higher : ℕ) (claims : List Claim)
        → level ≤ higher
        → AreTrue program levels level claims → AreTrue program levels higher claims }
{}

/// Claims are true below a level exactly where each of their rows is of a
/// function of a lower level and holds exactly its values by claims that are
/// true at that level. Function and arguments determine such a row.
pub fn true_claims_are_exact()
    ensures exact { (program : Program) (levels : List ℕ) (level : ℕ) (claims : List Claim)
        → AreTrue program levels level claims
        ↔ ((k : ℕ) (claim : Claim) → slice_get claims k ≡ Some claim
        → (level_of levels claim.function < level)
        × IsExact program (AreTrue program levels (level_of levels claim.function)) claim) }
    ensures determined { (program : Program) (levels : List ℕ) (level other : ℕ)
        (claims others : List Claim) (k m : ℕ) (claim twin : Claim)
        → AreTrue program levels level claims → AreTrue program levels other others
        → slice_get claims k ≡ Some claim → slice_get others m ≡ Some twin
        → claim.function ≡ twin.function → claim.arguments ≡ twin.arguments
        → claim.values ≡ twin.values }
{}

/// A worked example: of `coin = 0 ? 1` the claim that its values are 0 and 1
/// is true, one that lacks a value or has another isn't, and a function that
/// is the set function of coin has both values as its value.
pub fn coin_is_zero_or_one()
    ensures valid { IsValid coin.program }
    ensures least { AreLeastLevels coin.program coin.levels }
    ensures zero_and_one { AreTrue coin.program coin.levels 1
        (coin.coin_row (coin.literal 0 ∷ coin.literal 1 ∷ []) ∷ []) }
    ensures fewer { AreTrue coin.program coin.levels 1 (coin.coin_row (coin.literal 0 ∷ []) ∷ [])
        → ⊥ }
    ensures more { AreTrue coin.program coin.levels 1
        (coin.coin_row (coin.literal 0 ∷ coin.literal 1 ∷ coin.literal 2 ∷ []) ∷ []) → ⊥ }
    ensures every { Derives coin.program coin.every NoValue coin.both_values }
{}
