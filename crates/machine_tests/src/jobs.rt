//! Jobs whose outcomes tell their items.
ghost use Rattle.std.specs.Prelude.{◌≡◌, ◌*◌, ◌<◌};

use cu_pile::Job;
use std::alloc::AllocError;

/// Ten times a small number.
pub struct Tenfold;

impl Job for Tenfold {
    type In = u32;

    type Out = u32;

    ghost accepts = { λ _ item. item < 1000 };

    ghost promises = { λ _ item outcome. outcome ≡ item * 10 };

    fn run(&self, item: u32) -> Result<u32, AllocError> {
        Ok(item * 10)
    }
}

/// Finds no memory for one item.
pub struct Failing {
    pub item: u32,
}

impl Job for Failing {
    type In = u32;

    type Out = u32;

    ghost accepts = { λ _ _. Unit {0} };

    ghost promises = { λ _ item outcome. outcome ≡ item };

    fn run(&self, item: u32) -> Result<u32, AllocError> {
        if item == self.item {
            Err(AllocError)
        } else {
            Ok(item)
        }
    }
}
