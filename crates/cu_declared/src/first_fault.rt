//! The first of several faults.
ghost use Rattle.std.specs.Prelude.{◌≡◌, [], ◌∷◌, ◌++◌, List, ℕ};
ghost use Rattle.cu_names.specs.declared.names.NameId.{NameId};
ghost use Rattle.cu_declared.specs.Inside.Told.{AreTold, FaultIsOf, IsFirstIf, fault_meaning, rank_of};
ghost use Rattle.cu_declared.specs.TypeFaults as meant;
ghost use Rattle.cu_declared.specs.TypeFaults.{is_before};

use crate::found::{Fault, Wrong};

/// The first of the faults that were told, by their places in the text of one
/// module, and at one place by what is wrong.
#[derive(Clone, Copy)]
pub(crate) struct FirstFault {
    first: Option<Fault>,
}

impl Wrong {
    /// The rank of the fault's kind among the kinds of faults.
    fn rank(self) -> u32
        ensures { result ≡ rank_of self }
    {
        match self {
            Wrong::TypeArity => 0,
            Wrong::SynonymCycle(_) => 1,
        }
    }
}

impl Fault {
    /// Whether this fault comes before another one.
    fn is_before(self, other: Fault) -> bool
        ensures { (names : List (List ℕ))
            → result ≡ is_before (fault_meaning names self) (fault_meaning names other) }
    {
        let (here, there) = (self.place, other.place);
        here.line < there.line
            || (here.line == there.line
                && (here.column < there.column
                    || (here.column == there.column && self.wrong.rank() < other.wrong.rank())))
    }
}

impl FirstFault {
    /// The state in which no fault was told.
    pub(crate) fn new() -> FirstFault
        ensures { (owner : NameId) (names : List (List ℕ)) → AreTold owner names [] result }
    {
        FirstFault { first: None }
    }

    /// Tells one more fault.
    pub(crate) fn tell(&mut self, fault: Fault)
        ensures { (owner : NameId) (names : List (List ℕ)) (faults : List meant.Fault)
            → FaultIsOf owner names fault → AreTold owner names faults self.old
            → AreTold owner names (faults ++ fault_meaning names fault ∷ []) self.new }
    {
        match self.first {
            None => self.first = Some(fault),
            Some(first) => {
                if fault.is_before(first) {
                    self.first = Some(fault);
                }
            }
        }
    }

    /// The first fault, if one was told.
    pub(crate) fn fault(&self) -> Option<Fault>
        ensures { (owner : NameId) (names : List (List ℕ)) (faults : List meant.Fault)
            → AreTold owner names faults self.now → IsFirstIf owner names faults result }
    {
        self.first
    }
}
