//! The first of several faults.
ghost use Rattle.std.specs.Prelude.{[], ◌∷◌, List};
ghost use Rattle.cu_names.specs.declared.names.NameId.{NameId};
ghost use Rattle.cu_syntax.specs.Owners.{PlaceIsOf};
ghost use Rattle.cu_translation.specs.Answer.{fault_meaning};
ghost use Rattle.cu_translation.specs.FaultOrder as faults;
ghost use Rattle.cu_faults.specs.Telling.{AreTold, IsFirst, Told};

use cu_translation::Fault;

/// The first of the faults that were told, which are those of one text.
#[derive(Clone, Copy, Debug)]
pub struct First {
    fault: Option<Fault>,
}

impl First {
    /// The state in which no fault was told.
    pub fn new() -> First
        ensures { (owner : NameId) → AreTold owner [] result }
    {
        First { fault: None }
    }

    /// Tells one more fault.
    pub fn tell(&mut self, fault: Fault)
        ensures { (owner : NameId) → PlaceIsOf owner fault.place
            → Told owner self.old (fault_meaning fault ∷ []) self.new }
    {
        self.fault = Some(fault.earlier(self.fault));
    }

    /// The first fault, if one was told.
    pub fn fault(self) -> Option<Fault>
        ensures { (owner : NameId) (found : List faults.Fault) → AreTold owner found self
            → IsFirst owner found result }
    {
        self.fault
    }
}
