//! What surrounds the text of a function.
ghost use Rattle.cu_desugar.specs.Inside.Surrounding.{Surrounds};

use cu_fixity::Fixity;
use cu_names::NameId;
use cu_sites::{Dependencies, Numbers};
use cu_syntax::Name;
use cu_toplevel::TopNames;
use cu_translation::{Binder, BuiltIn, Position, Referent, Surroundings};

/// What surrounds the text of a function: what the names of top level refer to
/// in its module, how its variables and local functions are numbered, and which
/// of its variables depend on which.
#[derive(Clone, Copy)]
pub(crate) struct Around<'a> {
    pub(crate) top: TopNames<'a>,
    pub(crate) numbers: &'a Numbers,
    pub(crate) dependencies: &'a Dependencies,
}

impl Surroundings for Around<'_> {
    ghost tells = { λ around w. Surrounds w around };

    fn value(&self, name: Name) -> Referent {
        self.top.value(name)
    }

    fn fixity(&self, name: Name) -> Fixity {
        self.top.fixity(name)
    }

    fn prelude(&self, what: BuiltIn) -> Referent {
        self.top.prelude(what)
    }

    fn owner(&self) -> NameId {
        self.top.owner()
    }

    fn variable(&self, binder: Binder) -> u32 {
        self.numbers.variable(binder)
    }

    fn function(&self, at: Position) -> u32 {
        self.numbers.function(at)
    }

    fn depends(&self, x: Binder, y: Binder) -> bool {
        self.dependencies.depends(x, y)
    }
}
