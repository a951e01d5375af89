//! Laws of the definitions.
ghost use Rattle.std.specs.Prelude.{◌≡◌, ◌↔◌, List, [], IsTrue};
ghost use Rattle.cu_calculus.specs.Gives.{Claim};
ghost use Rattle.cu_calculus.specs.Match.{Bindings, bind_all, empty};
ghost use Rattle.cu_calculus.specs.Program.{Program};
ghost use Rattle.cu_calculus.specs.Proof.{AllFollow, Follows, Statement, Step};
ghost use Rattle.cu_calculus.specs.Term.{Term};
ghost use Rattle.cu_calculus.specs.Value.{Value};
ghost use Rattle.cu_crwl.specs.Steps.{all_follow};
ghost use Rattle.cu_crwl.specs.Table.{follows};

/// The table of the calculus can be decided: one test says of a statement and
/// of cited ones whether it follows from them, and another says of steps
/// whether each follows from those that it cites.
pub fn following_is_decided()
    ensures statement { (program : Program) (claims : List Claim) (cited : List Statement)
        (env : Bindings) (t : Term) (v : Value)
        → IsTrue (follows program claims cited env t v)
        ↔ Follows program claims cited (bind_all empty env) t v }
    ensures steps { (program : Program) (claims : List Claim) (steps : List Step)
        → IsTrue (all_follow program claims [] steps) ↔ AllFollow program claims steps }
{}
