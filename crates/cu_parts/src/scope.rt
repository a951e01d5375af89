//! Which variables are bound at a place of a rule.
ghost use Rattle.std.specs.Prelude.{◌≡◌};
ghost use Rattle.cu_parts.specs.Inside.Scope.{bound_in};

/// The variables that are bound at a place of a rule. A scope names the one
/// around it, so nothing is copied where a binder is entered.
#[derive(Drop)]
pub(crate) enum Scope<'a> {
    /// The variables of the rule's parameters.
    Parameters(&'a [u32]),
    /// One more variable than in the scope around.
    With(u32, &'a Scope<'a>),
    /// The variables of a pattern beside those of the scope around.
    WithAll(&'a [u32], &'a Scope<'a>),
}

impl Scope<'_> {
    /// Whether a variable is bound in this scope.
    #[tactic(auto, using(crate::specs::Inside::Scope::bound_variants))]
    pub(crate) fn binds(&self, x: u32) -> bool
        ensures { result ≡ bound_in self.now x }
    {
        match self {
            Scope::Parameters(variables) => variables.contains(&x),
            Scope::With(y, around) => *y == x || around.binds(x),
            Scope::WithAll(variables, around) => variables.contains(&x) || around.binds(x),
        }
    }
}
