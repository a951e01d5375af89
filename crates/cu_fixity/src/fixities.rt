//! The fixities of operators.
ghost use Rattle.std.specs.Prelude.{◌≡◌, Contains, OnErr, OnOk, Some, codes, slice_get};
ghost use Rattle.cu_fixity.specs.Fixities.{Declares, built_in, fixity_in};

use crate::{Fixity, Side, UNDECLARED};
use cu_names::{NameId, Names};
use indexmap::IndexMap;
use std::alloc::{AllocError, Global};
use std::marker::Model;

/// The fixity of `:`, which no program declares.
pub const CONS: Fixity = Fixity {
    side: Side::Right,
    level: 5,
};

/// The fixities that are declared, by the texts of the operators as they are
/// written, qualified or not. Contracts see the text of `:` and a list of
/// declarations.
#[derive(Drop)]
pub struct Fixities {
    cons: NameId,
    declared: IndexMap<NameId, Fixity>,
}

impl Model for Fixities {
    ghost use Rattle.cu_fixity.specs.Fixities.{Table};

    ghost Value = { Table };

    ghost view = { λ fixities. record {
      colon = fixities.cons;
      declared = fixities.declared.entries;
    } };
}

impl Fixities {
    /// The fixities where none is declared, of operators whose texts are in a
    /// table of names. The table has the text `:`.
    pub fn new(alloc: Global, names: &Names) -> Fixities
        requires { Contains names.now (codes ":") }
        ensures colon { slice_get names.now result.colon.0 ≡ Some (codes ":") }
        ensures fixities { (operator : NameId) → fixity_in result operator
            ≡ built_in result.colon operator }
    {
        let Some(cons) = names.find(":") else {
            unreachable!()
        };
        Fixities {
            cons,
            declared: IndexMap::new(alloc),
        }
    }

    /// Declares the fixity of an operator, in place of what was declared of it
    /// before. That of `:` stays as it is.
    ///
    /// An operator is known by its text. Where a local variable hides a
    /// declared operator, declare it with `UNDECLARED`, and after its scope
    /// with what `of` gave before.
    ///
    /// # Errors
    ///
    /// An allocation failure. The fixities are then as before.
    pub fn declare(&mut self, operator: NameId, fixity: Fixity) -> Result<(), AllocError>
        ensures declared { OnOk result (Declares self.old operator fixity self.new) }
        ensures err { OnErr result (self.new ≡ self.old) }
    {
        self.declared.insert(operator, fixity)?;
        Ok(())
    }

    /// The fixity of an operator.
    pub fn of(&self, operator: NameId) -> Fixity
        ensures { result ≡ fixity_in self.now operator }
    {
        if operator == self.cons {
            return CONS;
        }
        match self.declared.get(&operator) {
            Some(fixity) => *fixity,
            None => UNDECLARED,
        }
    }
}
