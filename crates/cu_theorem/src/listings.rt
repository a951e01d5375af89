//! Laws of what is listed of goals in modules.
ghost use Rattle.std.specs.Prelude.{◌≡◌, List, Some, ℕ};
ghost use Rattle.cu_calculus.specs.Program.{Program};
ghost use Rattle.cu_front.specs.Compiling.{Folder};
ghost use Rattle.cu_front.specs.Programs.{IsLowered};
ghost use Rattle.cu_kernel.specs.Kernel.{Goal, Kernel};
ghost use Rattle.cu_laws.specs.Instance.{IsExhausted};
ghost use Rattle.cu_machine.specs.declared.SearchLimits.{SearchLimits};
ghost use Rattle.cu_theorem.specs.Listed.{
  AnswersAreSolutions,
  ListsSolutions,
  SolutionsAreCovered,
  listing_of,
};

use crate::levels::least_levels_exist;
use crate::truth::lowering_keeps_truth;
use cu_deftree::{least_levels_stay_levels, lowered_programs_are_flat, lowered_programs_are_valid};
use cu_flat::flat_programs_have_code;
use cu_laws::{exhausted_listings_cover, listed_answers_derive};

/// Every answer that is listed of a goal has a derivation by the rules of its
/// program, with call-time choice: the goal has the value that is listed, on
/// what its variables are bound to, set calls standing for all their values.
pub fn answers_are_derived()
    ensures { (program : Kernel) (flat : Program) (goal : Goal) (limits : SearchLimits)
        → IsLowered program flat → program.goal ≡ Some goal
        → AnswersAreSolutions program flat goal limits }
{
    least_levels_exist();
    lowering_keeps_truth();
    lowered_programs_are_valid();
    lowered_programs_are_flat();
    least_levels_stay_levels();
    flat_programs_have_code();
    listed_answers_derive();
}

/// Nothing is missed: where the listing of a goal ends with no more, and no
/// branch waits, each ground solution that the goal has by the rules of its
/// program is an instance of an answer that is listed.
pub fn exhausted_listings_cover_solutions()
    ensures { (program : Kernel) (flat : Program) (goal : Goal) (limits : SearchLimits)
        → IsLowered program flat → program.goal ≡ Some goal
        → IsExhausted (listing_of limits flat goal)
        → SolutionsAreCovered program flat goal limits }
{
    lowering_keeps_truth();
    lowered_programs_are_valid();
    lowered_programs_are_flat();
    least_levels_stay_levels();
    flat_programs_have_code();
    exhausted_listings_cover();
}

/// What is listed of a goal in a module are its solutions by the rules of the
/// modules and the goal. No other answer is listed; and where the listing ends
/// with no more, and no branch waits, no ground solution is missed.
pub fn solutions_are_listed()
    ensures { (held : Folder) (root text : List ℕ) (limits : SearchLimits)
        → ListsSolutions held root text limits }
{
    answers_are_derived();
    exhausted_listings_cover_solutions();
}
