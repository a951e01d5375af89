//! Laws of searches between two rounds.
ghost use Rattle.std.specs.Prelude.{◌≡◌, ◌<◌, ◌≤◌, ◌++◌, None, Some};
ghost use Rattle.cu_machine.specs.declared.End.{End};
ghost use Rattle.cu_machine.specs.Listing.{after_lines};
ghost use Rattle.cu_search.specs.Lines.{end_text, lines_bytes, listing_bytes};
ghost use Rattle.cu_search.specs.Standing.{Standing, end_at, left_of, next_of, round_at};

/// Where a listing doesn't end with a round, what was left before the round is
/// its lines and then what is left after it. So are its bytes. That round isn't
/// the last one that the limit allows.
pub fn rounds_follow()
    ensures listing { (s : Standing) → s.round ≤ s.limits.rounds → end_at s ≡ None
        → left_of s ≡ after_lines (round_at s).lines (left_of (next_of s)) }
    ensures bytes { (s : Standing) → s.round ≤ s.limits.rounds → end_at s ≡ None
        → listing_bytes s.notation (left_of s)
        ≡ lines_bytes s.notation (round_at s).lines
        ++ listing_bytes s.notation (left_of (next_of s)) }
    ensures within { (s : Standing) → s.round ≤ s.limits.rounds → end_at s ≡ None
        → s.round < s.limits.rounds }
{}

/// Where a listing ends with a round, what was left before the round is its
/// lines and that end. So are its bytes.
pub fn a_round_may_be_last()
    ensures listing { (s : Standing) (end : End) → s.round ≤ s.limits.rounds → end_at s ≡ Some end
        → left_of s ≡ record { lines = (round_at s).lines; end = end } }
    ensures bytes { (s : Standing) (end : End) → s.round ≤ s.limits.rounds → end_at s ≡ Some end
        → listing_bytes s.notation (left_of s)
        ≡ lines_bytes s.notation (round_at s).lines ++ end_text end }
{}
