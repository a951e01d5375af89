//! A law: what a text says is one thing.
ghost use Rattle.std.specs.Prelude.{◌≡◌, List, ℕ};
ghost use Rattle.cu_flatread.specs.FlatText.{FlatText};
ghost use Rattle.cu_flatread.specs.Modules.{Module};

/// A text is the text of one module.
pub fn texts_are_of_one_module()
    ensures { (bytes : List ℕ) (flat other : Module) → FlatText bytes flat → FlatText bytes other
        → flat ≡ other }
{}
