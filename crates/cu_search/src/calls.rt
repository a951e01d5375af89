//! Closures as the job of a round's workers.

use cu_pile::Job;
use std::alloc::AllocError;
use std::marker::PhantomData;

/// The job that calls a closure on the items of a round.
#[derive(Drop)]
pub(crate) struct Calls<F, I, O> {
    pub(crate) call: F,
    pub(crate) items: PhantomData<I>,
    pub(crate) outcomes: PhantomData<O>,
}

impl<I: Send + Drop, O: Send + Drop, F: Fn(I) -> Result<O, AllocError>> Job for Calls<F, I, O> {
    ghost use Rattle.std.specs.Prelude.{Ok};

    type In = I;

    type Out = O;

    ghost accepts = { λ calls item. F.pre calls.call item };

    ghost promises = { λ calls item outcome. F.post calls.call item (Ok outcome) };

    fn run(&self, item: I) -> Result<O, AllocError> {
        (self.call)(item)
    }
}
