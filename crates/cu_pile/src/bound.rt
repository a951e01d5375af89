//! A law of the rule of a round's table: how large the claim word gets.
ghost use Rattle.std.specs.Prelude.{◌+◌, ◌≤◌, ℕ, List, Option, length, slice_index};
ghost use Rattle.atomic_table.specs.Table.{State};
ghost use Rattle.cu_pile.specs.declared.seat.SeatView.{SeatView};
ghost use Rattle.cu_pile.specs.Drawn.{IsClaimed};

/// The claim word is at most the number of items and workers together, so
/// that it never wraps.
pub fn claim_word_is_bounded<I>()
    ensures { (items : List I) (workers : ℕ) (state : State (Option I) (SeatView I))
        → IsClaimed items workers state → slice_index state.words 0 ≤ length items + workers }
{}
