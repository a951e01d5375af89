//! What is done to each item of a round.
ghost use Rattle.std.specs.Prelude.{IfOk};

use std::alloc::AllocError;

/// What workers do to an item. It finds memory by itself.
pub trait Job {
    type In: Send + Drop;

    type Out: Send + Drop;

    /// The items that the job may be given.
    ghost accepts: { Self → Self.In → Type 0 };

    /// What the job promises of an item: the outcomes that the item may have.
    ghost promises: { Self → Self.In → Self.Out → Type 0 };

    fn run(&self, item: Self::In) -> Result<Self::Out, AllocError>
        requires { accepts self.now item }
        ensures { IfOk result (λ outcome. promises self.now item outcome) };
}
