//! A law of the depth of answers.
ghost use Rattle.std.specs.Prelude.{List, ℕ};
ghost use Rattle.cu_cmd.specs.Depths.{ListsByDepth};
ghost use Rattle.cu_front.specs.Compiling.{Folder};
ghost use Rattle.cu_machine.specs.declared.SearchLimits.{SearchLimits};

use cu_machine::{answers_are_listed, answers_stand_at_their_depth};

/// Each answer of a goal's search tree is listed in the round of its depth,
/// where the limits allow that many rounds and answers and the listing hasn't
/// ended before it; and each answer that is listed is of the depth of its round.
pub(crate) fn answers_are_listed_by_depth()
    ensures { (held : Folder) (root text : List ℕ) (limits : SearchLimits)
        → ListsByDepth held root text limits }
{
    answers_are_listed();
    answers_stand_at_their_depth();
}
