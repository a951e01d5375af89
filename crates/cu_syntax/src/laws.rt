//! Laws of tokens and of what they are read as. These functions do nothing:
//! their contracts are the laws.
ghost use Rattle.cu_syntax.specs.Law.{GoalsAreReadOnce, ModulesAreReadOnce, PlacesRise};

/// Tokens are read as one module at most, and as one goal at most, or have one
/// fault.
pub fn one_reading()
    ensures modules { ModulesAreReadOnce }
    ensures goals { GoalsAreReadOnce }
{}

/// Each token of a text stands after those before it, so no two of them have
/// one place. What the layout rules put in has the place of a token.
pub fn places_rise()
    ensures { PlacesRise }
{}
