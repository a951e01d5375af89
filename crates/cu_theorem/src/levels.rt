//! A law of set levels.
ghost use Rattle.std.specs.Prelude.{List, ℕ};
ghost use Rattle.cu_calculus.specs.Claims.{AreLeastLevels, AreLevels};
ghost use Rattle.cu_calculus.specs.Program.{Program};

/// A program that has set levels has least ones.
pub fn least_levels_exist()
    ensures { (program : Program) (levels : List ℕ) → AreLevels program levels
        → (least : List ℕ) × AreLeastLevels program least }
{}
