//! A law of the questions of sessions.
ghost use Rattle.std.specs.Prelude.{List, ℕ};
ghost use Rattle.cu_cmd.specs.Sessions.{ListsQuestion};
ghost use Rattle.cu_front.specs.Compiling.{Folder};
ghost use Rattle.cu_machine.specs.declared.SearchLimits.{SearchLimits};

use cu_search::{a_round_may_be_last, rounds_follow};

/// What a session lists of a question, without the dots, and what is left then,
/// are the listing of its goal.
pub(crate) fn questions_are_listed()
    ensures { (held : Folder) (name text : List ℕ) (limits : SearchLimits)
        → ListsQuestion held name text limits }
{
    rounds_follow();
    a_round_may_be_last();
}
