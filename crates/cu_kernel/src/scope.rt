//! Which variables may stand in a term.
ghost use Rattle.std.specs.Prelude.{◌≡◌};
ghost use Rattle.cu_kernel.specs.Inside.Scope.{allowed};

/// The variables that may stand at a point of a rule. A scope names the one
/// around it, so nothing is copied where a binder is entered.
#[derive(Drop)]
pub(crate) enum Scope<'a> {
    /// Every variable.
    All,
    /// The variables of the rule's parameters.
    Parameters(&'a [u32]),
    /// One variable beside those of the scope around.
    With(u32, &'a Scope<'a>),
    /// The variables of a pattern beside those of the scope around.
    WithAll(&'a [u32], &'a Scope<'a>),
    /// All variables of the scope around but one.
    Without(u32, &'a Scope<'a>),
}

impl Scope<'_> {
    /// Whether a variable may stand in this scope.
    #[tactic(auto, using(crate::specs::Inside::Scope::allowed_variants))]
    pub(crate) fn allows(&self, x: u32) -> bool
        ensures { result ≡ allowed self.now x }
    {
        match self {
            Scope::All => true,
            Scope::Parameters(variables) => variables.contains(&x),
            Scope::With(y, around) => *y == x || around.allows(x),
            Scope::WithAll(variables, around) => variables.contains(&x) || around.allows(x),
            Scope::Without(y, around) => *y != x && around.allows(x),
        }
    }
}
