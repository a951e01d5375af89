//! What a worker passes before it runs an item.
ghost use Rattle.std.specs.Prelude.{ℕ};

/// A gate is told of each item before the item is run. It may wait there.
pub trait Gate {
    /// What holds of a number once the gate was told of it. A round can't show
    /// it of a gate that it knows nothing else of but by telling the gate.
    ghost told: { Self → ℕ → Type 0 };

    fn enter(&self, number: u32)
        ensures { told self.now number };
}

/// A gate that waits for nothing.
#[derive(Clone, Copy)]
pub struct OpenGate;

impl Gate for OpenGate {
    ghost told = { λ _ _. Unit {0} };

    fn enter(&self, _number: u32) {}
}
