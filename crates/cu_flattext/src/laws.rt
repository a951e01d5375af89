//! A law on the text of FlatCurry.
ghost use Rattle.std.specs.Prelude.{◌≡◌};
ghost use Rattle.cu_flattext.specs.Text.{module_text};
ghost use Rattle.cu_flattext.specs.Worked.{worked, worked_text};

/// A worked example: the text of a module with a data type, a synonym that is
/// expanded in it, an operator, a function of two rules that overlap, and a
/// polymorphic function.
pub fn a_module_is_printed()
    ensures { module_text worked 1 ≡ worked_text }
{}
