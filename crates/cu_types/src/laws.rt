//! Laws of the definitions. These functions do nothing: their contracts are
//! the laws.
ghost use Rattle.cu_types.specs.Laws.{
  AnswersExclude,
  ClashesLeaveNoSolution,
  ClashesRefute,
  DeclaredTypesHold,
  FaultsAgree,
  InterfacesAgree,
  MostGeneralAgree,
  SolutionsAgree,
};
ghost use Rattle.cu_types.specs.Samples.{SamplesAnswered, SamplesAsk};

/// Each solution makes the same what the equations make equal.
pub fn solutions_agree()
    ensures { SolutionsAgree }
{}

/// Equations that have a clash have no solution.
pub fn clashes_refute()
    ensures { ClashesRefute }
{}

/// Where the equations of a dependency group have a clash, nothing solves them.
pub fn clashes_leave_no_solution()
    ensures { ClashesLeaveNoSolution }
{}

/// A program has one interface at most.
pub fn interfaces_agree()
    ensures { InterfacesAgree }
{}

/// No program has two of these: types for all functions and a goal that is
/// data, such types and a functional goal, a first dependency group whose
/// equations have no solution, and one where none keeps to the declared types.
pub fn answers_exclude()
    ensures { AnswersExclude }
{}

/// The faults of a program are of one kind, and of one dependency group.
pub fn faults_agree()
    ensures { FaultsAgree }
{}

/// A declared function has its declared type, after the types of what it
/// captured.
pub fn declared_types_hold()
    ensures { DeclaredTypesHold }
{}

/// Most general solutions are instances of one another.
pub fn most_general_agree()
    ensures { MostGeneralAgree }
{}

/// The equations of some functions are those that were worked out by hand.
pub fn samples_ask()
    ensures { SamplesAsk }
{}

/// The answers for some functions are those that were worked out by hand.
pub fn samples_are_answered()
    ensures { SamplesAnswered }
{}
