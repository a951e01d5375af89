//! Laws of the definitions.
ghost use Rattle.std.specs.Prelude.{◌≡◌, ℕ, List, IsTrue};
ghost use Rattle.cu_words.specs.Names.{is_module_name};
ghost use Rattle.cu_words.specs.Words.{Check, Checking, Command, Compile, Compiling, IsInRange};
ghost use Rattle.cu_words.specs.Words.{IsTrialInRange, ReadsAs, Serving};
ghost use Rattle.cu_words.specs.Words.{Solve, Solving, Trial, Trying};

/// Words ask for one thing at most.
pub fn one_reading()
    ensures { (words : List (List ℕ)) (one other : Command)
        → ReadsAs words one → ReadsAs words other → one ≡ other }
{}

/// Any goal in a module of any name, with numbers in their ranges, is what some
/// words ask for, whatever the goal and the folder are.
pub fn all_can_be_asked()
    ensures { (solve : Solve) → IsTrue (is_module_name solve.name) → IsInRange solve
        → (words : List (List ℕ)) × ReadsAs words (Solving solve) }
{}

/// The text of a module of any name is what some words ask for.
pub fn all_can_be_compiled()
    ensures { (compile : Compile) → IsTrue (is_module_name compile.name)
        → (words : List (List ℕ)) × ReadsAs words (Compiling compile) }
{}

/// A trial whose numbers are in their ranges is what some words ask for.
pub fn all_can_be_tried()
    ensures { (trial : Trial) → IsTrialInRange trial
        → (words : List (List ℕ)) × ReadsAs words (Trying trial) }
{}

/// A check of any file over a module of any name is what some words ask for,
/// whatever the file's path and the folder are.
pub fn all_can_be_checked()
    ensures { (check : Check) → IsTrue (is_module_name check.name)
        → (words : List (List ℕ)) × ReadsAs words (Checking check) }
{}

/// A session is what some words ask for.
pub fn sessions_can_be_asked()
    ensures { (words : List (List ℕ)) × ReadsAs words Serving }
{}
