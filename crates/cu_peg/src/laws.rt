//! Laws of the definition of matching. These functions do nothing: their
//! contracts are the laws.
ghost use Rattle.cu_peg.specs.declared.class.Class.{Class};
ghost use Rattle.std.specs.Prelude.{Bool};
ghost use Rattle.cu_peg.specs.Law.{IsTotal, MatchesOnce, NeverBoth};

/// A row leaves at most one rest of a text, with one tree, and where it
/// matches it doesn't fail.
pub fn one_tree<T>()
    ensures once { (has : Class → T → Bool) → MatchesOnce has }
    ensures not_both { (has : Class → T → Bool) → NeverBoth has }
{}

/// Each row of a well-formed grammar matches or fails on each text.
pub fn each_row_decides<T>()
    ensures { (has : Class → T → Bool) → IsTotal has }
{}
