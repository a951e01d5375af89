//! Numbers of unbound variables.
ghost use Rattle.std.specs.Prelude.{◌≡◌, [], ◌∷◌, IfOk, OnOk};
ghost use Rattle.cu_machine.specs.Places.{joined};
ghost use Rattle.cu_machine.specs.Spell.{ordinal};

use crate::waited::{following, to_u32};
use indexmap::IndexSet;
use std::alloc::{AllocError, Global};

/// The variables that were met, which are numbered from 1 in their order.
#[derive(Drop)]
pub(crate) struct Numbering {
    variables: IndexSet<u32>,
}

impl Numbering {
    /// The numbering in which no variable was met.
    pub(crate) fn new(alloc: Global) -> Numbering
        ensures { result.variables.keys ≡ [] }
    {
        Numbering {
            variables: IndexSet::new(alloc),
        }
    }

    /// The number of a variable, which is the next number where the variable is
    /// new.
    #[tactic(auto, using(crate::proofs::Ordinals::numberings))]
    pub(crate) fn number(&mut self, id: u32) -> Result<u32, AllocError>
        ensures number { IfOk result (λ number. number ≡ ordinal self.new.variables.keys id) }
        ensures met { OnOk result (self.new.variables.keys
            ≡ joined self.old.variables.keys (id ∷ [])) }
    {
        let (index, _) = self.variables.insert_full(id)?;
        following(to_u32(index)?)
    }
}
