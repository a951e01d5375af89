//! A worker that is alone at its table.
ghost use Rattle.std.specs.Prelude.{◌≡◌, ◌<◌, All, IfOk, length};

use crate::jobs::Tenfold;
use cu_pile::{Claims, OpenGate, Worker, claim_word_is_bounded, work};
use std::alloc::{AllocError, Global};
use std::test::Fail;

/// Five and seven.
fn two_items(alloc: Global) -> Result<Vec<u32>, AllocError>
    ensures two { IfOk result (λ v. length v.items ≡ 2) }
    ensures small { IfOk result (λ v. All (λ n. n < 1000) v.items) }
{
    let mut items = Vec::new(alloc);
    items.push(5)?;
    items.push(7)?;
    Ok(items)
}

#[test]
fn the_only_worker_draws_all_in_order(rt: HostRuntime) -> Result<(), Fail> {
    claim_word_is_bounded::<u32>();
    let items = two_items(rt.alloc())?;
    let (claims, seat) = Claims::open(rt.alloc(), items, 1)?;
    let mut worker = Worker::<Tenfold>::new(&claims, seat);
    let pairs = work(rt.alloc(), &mut worker, &OpenGate, &Tenfold)?;
    assert!(rt; pairs.as_slice() == [(0, 50), (1, 70)].as_slice());
    Ok(())
}
