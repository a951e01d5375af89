//! Claims, statements, steps and proofs.
ghost use Rattle.std.specs.Prelude.{◌≡◌, ◌≢◌, [], map};
ghost use Rattle.cu_crwl.specs.Meaning.{step_of};

use cu_kernel::{FunId, Term};
use cu_values::Value;
use std::marker::Model;

/// A claim: these are all the ground values of a function on ground arguments.
#[derive(Drop)]
pub struct Claim {
    /// The function of which the values are claimed.
    pub function: FunId,
    /// The arguments on which the values are claimed, in order.
    pub arguments: Vec<Value>,
    /// The values that are claimed to be all.
    pub values: Vec<Value>,
}

/// The claims that a proof may use for set calls.
#[derive(Drop)]
pub struct Claims {
    /// The claims, as rows of a list.
    pub rows: Vec<Claim>,
}

/// A statement: a term has a value, where its variables stand for what the
/// bindings say. A variable that isn't bound stands for Bottom.
#[derive(Drop)]
pub struct Statement {
    /// Variables and their values, in rising order without repeats.
    pub env: Vec<(u32, Value)>,
    /// The term that has the value.
    pub term: Term,
    /// The value that the term has.
    pub value: Value,
}

/// A step of a proof.
#[derive(Drop)]
pub struct Step {
    /// The indices of the earlier steps from which this one follows, counted
    /// from 0, in the order in which its row of the calculus names them.
    pub cites: Vec<usize>,
    /// The statement of the step.
    pub statement: Statement,
}

/// A proof: at least one step. The last one says what is proved.
#[derive(Drop)]
pub struct Proof {
    steps: Vec<Step>,
}

impl Model for Proof {
    ghost use Rattle.std.specs.Prelude.{◌≢◌, List, [], map};
    ghost use Rattle.std.specs.Coded.{coded_list};
    ghost use Rattle.cu_calculus.specs.Proof as calculus;
    ghost use Rattle.cu_crwl.specs.StepStored.{step_code};

    ghost Value = { List calculus.Step };

    ghost coded = { coded_list step_code };

    ghost use Rattle.cu_crwl.specs.Meaning.{step_of};

    ghost view = { λ p. map step_of p.steps.items };

    ghost invariant = { λ p. p.steps.items ≢ [] };
}

impl Proof {
    /// The proof of these steps, of which there is at least one.
    pub fn new(steps: Vec<Step>) -> Proof
        requires { steps.items ≢ [] }
        ensures { result ≡ map step_of steps.items }
    {
        Proof { steps }
    }

    /// The steps of the proof, in order.
    pub fn steps(&self) -> &[Step]
        ensures steps { map step_of result.now ≡ self.now }
        ensures begun { result.now ≢ [] }
    {
        self.steps.as_slice()
    }
}
