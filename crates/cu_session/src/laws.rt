//! Laws of the definitions.
ghost use Rattle.std.specs.Prelude.{ℕ, List};
ghost use Rattle.cu_session.specs.declared.end.SessionEnd.{SessionEnd};
ghost use Rattle.cu_session.specs.Lines.{Line};
ghost use Rattle.cu_session.specs.Session.{Begins, Session};

use crate::asker::Asker;

/// The replies of a whole session are those of one that may break off.
pub fn sessions_begin<A: Asker>()
    ensures { (state : A.State) (lines : List Line) (replies : List (List ℕ)) (ending : SessionEnd)
        → Session A.answers state lines replies ending → Begins A.answers state lines replies }
{}
