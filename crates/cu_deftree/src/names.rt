//! What the variables of a term are called in its flat term.
ghost use Rattle.std.specs.Prelude.{◌≡◌};
ghost use Rattle.cu_deftree.specs.Inside.NamesOf.{found_name, names_of};
ghost use Rattle.cu_deftree.specs.Rows.{name_of};

/// The names of the variables around a term. A scope holds the one around
/// it, so that nothing is copied where a variable is bound.
#[derive(Drop)]
pub(crate) enum Names<'a> {
    /// No variable is bound.
    Nothing,
    /// A variable with its name, and the names around it.
    With(u32, u32, &'a Names<'a>),
    /// Variables with their names, and the names around them. Of two names of
    /// one variable the first counts.
    WithAll(&'a [(u32, u32)], &'a Names<'a>),
}

/// What a variable is called by the first of these names, where there is one.
fn named(names: &[(u32, u32)], x: u32) -> Option<u32>
    ensures { result ≡ found_name names.now x }
{
    for name in names {
        if name.0 == x {
            return Some(name.1);
        }
    }
    None
}

impl Names<'_> {
    /// What a variable is called: 0 where nothing binds it.
    #[tactic(auto, using(crate::specs::Inside::NamesOf::names_of_variants))]
    pub(crate) fn name(&self, x: u32) -> u32
        ensures { result ≡ name_of (names_of self.now) x }
    {
        match self {
            Names::Nothing => 0,
            Names::With(y, name, around) => { if *y == x { *name } else { around.name(x) } }
            Names::WithAll(names, around) => match named(names, x) {
                Some(name) => name,
                None => around.name(x),
            },
        }
    }
}
