//! Why a module or a goal isn't translated.
ghost use Rattle.std.specs.Prelude.{◌≡◌, IfSome};
ghost use Rattle.std.specs.Option.{option_map};
ghost use Rattle.cu_names.specs.declared.names.NameId.{NameId};
ghost use Rattle.cu_syntax.specs.Owners.{PlaceIsOf};
ghost use Rattle.cu_translation.specs.declared.fault.DesugarFault.TheVariants.{NoMemory};
ghost use Rattle.cu_translation.specs.Answer.{Tells, fault_meaning, wrong_meaning};
ghost use Rattle.cu_translation.specs.FaultOrder as faults;
ghost use Rattle.cu_translation.specs.FaultOrder.{earlier, is_before};
ghost use Rattle.cu_translation.specs.Translation.{Refused};

use cu_names::Place;
use std::alloc::AllocError;
use thiserror::Error;

/// Why a module or a goal isn't translated.
#[derive(Clone, Copy, Debug, PartialEq, Eq, Error)]
pub enum DesugarFault {
    /// The first token of operands and operators that have no grouped tree.
    #[error("operators cannot be grouped at {}:{}", .0.line, .0.column)]
    FixityClash(Place),
    /// The first token of a rule that has another number of patterns than the
    /// function's first rule, or a constructor in a pattern with a wrong number
    /// of them.
    #[error("a wrong number of patterns at {}:{}", .0.line, .0.column)]
    Arity(Place),
    /// A variable that stands a second time in the same patterns.
    #[error("a variable stands twice in patterns at {}:{}", .0.line, .0.column)]
    NonLinear(Place),
    /// The declaration of a local variable that depends on itself.
    #[error("a local variable depends on itself at {}:{}", .0.line, .0.column)]
    RecursiveLocal(Place),
    /// The name of a set function that isn't followed by the name of a function
    /// of its arity, or that has too many arguments.
    #[error("wrong arguments of a set function at {}:{}", .0.line, .0.column)]
    SetName(Place),
    /// The line of the 4,097th rule of a function.
    #[error("a function with more than 4096 rules, at line {0}")]
    TooLong(u32),
    #[error("out of memory")]
    NoMemory,
}

impl From<AllocError> for DesugarFault {
    ghost from_gives = { λ _ fault. fault ≡ NoMemory };

    fn from(_error: AllocError) -> DesugarFault {
        DesugarFault::NoMemory
    }
}

/// What is wrong with a text, in the order in which faults at one place are
/// told.
#[derive(Clone, Copy, Debug, PartialEq, Eq)]
pub enum Wrong {
    FixityClash,
    Arity,
    NonLinear,
    RecursiveLocal,
    SetName,
    TooLong,
}

impl Wrong {
    fn rank(self) -> u32
        ensures { result ≡ faults.rank (wrong_meaning self) }
    {
        match self {
            Wrong::FixityClash => 7,
            Wrong::Arity => 15,
            Wrong::NonLinear => 16,
            Wrong::RecursiveLocal => 17,
            Wrong::SetName => 18,
            Wrong::TooLong => 30,
        }
    }
}

/// A fault of a text.
#[derive(Clone, Copy, Debug, PartialEq, Eq)]
pub struct Fault {
    pub wrong: Wrong,
    pub place: Place,
}

impl Fault {
    /// Whether this fault stands before another of the same text: at an earlier
    /// place, or at the same place with a smaller number.
    fn is_before(&self, other: &Fault) -> bool
        ensures { result ≡ is_before (fault_meaning self.now) (fault_meaning other.now) }
    {
        if self.place.line != other.place.line {
            return self.place.line < other.place.line;
        }
        if self.place.column != other.place.column {
            return self.place.column < other.place.column;
        }
        self.wrong.rank() < other.wrong.rank()
    }

    /// The earlier of this fault and one that was told already, if one was.
    pub fn earlier(self, told: Option<Fault>) -> Fault
        ensures first { fault_meaning result
            ≡ earlier (fault_meaning self) (option_map fault_meaning told) }
        ensures owned { (owner : NameId) → PlaceIsOf owner self.place
            → IfSome told (λ f. PlaceIsOf owner f.place) → PlaceIsOf owner result.place }
    {
        match told {
            Some(other) => { if other.is_before(&self) { other } else { self } }
            None => self,
        }
    }

    /// The answer that tells this fault.
    pub fn answer(self) -> DesugarFault
        ensures { Tells self.place.«module» result (Refused (fault_meaning self)) }
    {
        match self.wrong {
            Wrong::FixityClash => DesugarFault::FixityClash(self.place),
            Wrong::Arity => DesugarFault::Arity(self.place),
            Wrong::NonLinear => DesugarFault::NonLinear(self.place),
            Wrong::RecursiveLocal => DesugarFault::RecursiveLocal(self.place),
            Wrong::SetName => DesugarFault::SetName(self.place),
            Wrong::TooLong => DesugarFault::TooLong(self.place.line),
        }
    }
}
