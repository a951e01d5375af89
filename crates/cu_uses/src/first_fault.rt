//! The first of several faults.
ghost use Rattle.std.specs.Prelude.{[], ◌∷◌, ◌++◌, List, ℕ};
ghost use Rattle.cu_names.specs.declared.names.NameId.{NameId};
ghost use Rattle.cu_uses.specs.Faults as meant;
ghost use Rattle.cu_uses.specs.Telling.{AreTold, FaultIsOf, IsFirstIf, fault_meaning};

use crate::fault::Fault;

/// The first of the faults that were told, by their places in the text of one
/// module, and at one place by what is wrong.
#[derive(Clone, Copy, Debug)]
pub struct FirstFault {
    first: Option<Fault>,
}

impl FirstFault {
    /// The state in which no fault was told.
    pub fn new() -> FirstFault
        ensures { (owner : NameId) (names : List (List ℕ)) → AreTold owner names [] result }
    {
        FirstFault { first: None }
    }

    /// Tells one more fault.
    pub fn tell(&mut self, fault: Fault)
        ensures { (owner : NameId) (names : List (List ℕ)) (faults : List meant.Fault)
            → FaultIsOf owner names fault → AreTold owner names faults self.old
            → AreTold owner names (faults ++ fault_meaning names fault ∷ []) self.new }
    {
        match self.first {
            None => self.first = Some(fault),
            Some(first) => {
                if fault.is_before(first) {
                    self.first = Some(fault);
                }
            }
        }
    }

    /// The first fault, if one was told.
    pub fn fault(&self) -> Option<Fault>
        ensures { (owner : NameId) (names : List (List ℕ)) (faults : List meant.Fault)
            → AreTold owner names faults self.now → IsFirstIf owner names faults result }
    {
        self.first
    }
}
