//! What patterns demand of values.
ghost use Rattle.std.specs.Prelude.{◌≡◌};
ghost use Rattle.cu_calculus.specs.Choose.{demand_of, is_demanding, leftmost};
ghost use Rattle.cu_kernel.specs.TermsOf.{pattern_of};
ghost use Rattle.cu_matrix.specs.Meaning.{demand_meaning, patterns_at};

use cu_kernel::{ConId, Lit, Pattern};

/// What a pattern demands of the value that it is matched with.
#[derive(Clone, Copy)]
pub enum Demand {
    /// The pattern demands nothing: a variable matches each value.
    Nothing,
    /// The pattern demands this literal.
    Literal(Lit),
    /// The pattern demands this constructor.
    Constructor(ConId),
}

/// What a pattern demands of the value that it is matched with.
#[tactic(auto, using(cu_kernel::specs::TermsOf::patterns_of_variants))]
pub fn demanded(pattern: &Pattern) -> Demand
    ensures { demand_meaning result ≡ demand_of (pattern_of pattern.now) }
{
    match pattern {
        Pattern::Var(_) => Demand::Nothing,
        Pattern::Lit(literal) => Demand::Literal(*literal),
        Pattern::Con(constructor, _) => Demand::Constructor(*constructor),
        Pattern::Alias(_, pattern) => demanded(pattern),
    }
}

impl Demand {
    /// Whether a literal or a constructor is demanded.
    pub fn is_some(self) -> bool
        ensures { result ≡ is_demanding (demand_meaning self) }
    {
        match self {
            Demand::Nothing => false,
            Demand::Literal(_) => true,
            Demand::Constructor(_) => true,
        }
    }
}

/// The leftmost position at which patterns demand something.
pub fn leftmost(patterns: &[&Pattern]) -> Option<usize>
    ensures { result ≡ leftmost (patterns_at patterns.now) }
{
    for (position, pattern) in patterns.iter().enumerate() {
        if demanded(pattern).is_some() {
            return Some(position);
        }
    }
    None
}
