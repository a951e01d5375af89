//! Laws of the definition of tokens. These functions do nothing: their
//! contracts are the laws.
ghost use Rattle.std.specs.Prelude.{ℕ};
ghost use Rattle.cu_lex.specs.Laws.{BeginsTexts, GivesLongest, GivesNone, StepsSuffice};
ghost use Rattle.cu_lex.specs.Literals.{item};
ghost use Rattle.cu_lex.specs.Pieces.{piece};

/// Pieces of a text and items of a literal are the longest, and the steps that
/// their definitions allow always suffice.
pub fn maximal_munch()
    ensures pieces { GivesLongest piece }
    ensures no_piece { GivesNone piece }
    ensures items { (quote : ℕ) → GivesLongest (item quote) }
    ensures no_item { (quote : ℕ) → GivesNone (item quote) }
    ensures steps { StepsSuffice piece }
    ensures item_steps { (quote : ℕ) → StepsSuffice (item quote) }
{}

/// The offset at which UTF-8 is at fault is right: `begins_text` tells of bytes
/// whether some bytes complete them to a UTF-8 text.
pub fn beginnings_of_texts()
    ensures { BeginsTexts }
{}
