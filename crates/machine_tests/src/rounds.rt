//! Rounds: outcomes in the order of their items.
ghost use Rattle.std.specs.Prelude.{◌<◌, ◌≤◌, All, IfOk, length};

use crate::jobs::{Failing, Tenfold};
use cu_pile::{OpenGate, round};
use samples::{CountingGate, HoldingGate};
use std::alloc::{AllocError, Global};
use std::test::Fail;

/// The numbers below a count.
fn numbers(alloc: Global, count: u32) -> Result<Vec<u32>, AllocError>
    requires { count ≤ 200 }
    ensures few { IfOk result (λ v. length v.items ≤ 200) }
    ensures small { IfOk result (λ v. All (λ n. n < 1000) v.items) }
{
    let mut all = Vec::new(alloc);
    for number in 0..count {
        all.push(number)?;
    }
    Ok(all)
}

/// Whether the outcomes are the tens of the numbers below a count.
fn are_tens(outcomes: &[u32], count: usize) -> bool {
    outcomes.len() == count
        && outcomes.iter().enumerate().all(|(place, outcome)| *outcome as usize
            == place.wrapping_mul(10))
}

#[test]
fn no_items_give_no_outcomes(rt: HostRuntime) -> Result<(), Fail> {
    let items = numbers(rt.alloc(), 0)?;
    let outcomes = round(&rt, rt.alloc(), items, 4, &OpenGate, &Tenfold)?;
    assert!(rt; outcomes.is_empty());
    Ok(())
}

#[test]
fn one_item_passes_no_gate(rt: HostRuntime) -> Result<(), Fail> {
    let gate = HoldingGate::new(&rt, 1, 1);
    let items = numbers(rt.alloc(), 1)?;
    let outcomes = round(&rt, rt.alloc(), items, 4, &gate, &Tenfold)?;
    assert!(rt; are_tens(outcomes.as_slice(), 1) && gate.entered() == 0);
    Ok(())
}

#[test]
fn a_held_item_waits_for_the_others(rt: HostRuntime) -> Result<(), Fail> {
    for held in 0..4 {
        let gate = HoldingGate::new(&rt, held, 3);
        let items = numbers(rt.alloc(), 4)?;
        let outcomes = round(&rt, rt.alloc(), items, 2, &gate, &Tenfold)?;
        assert!(rt; are_tens(outcomes.as_slice(), 4) && !gate.ended());
    }
    Ok(())
}

#[test]
fn many_workers_answer_in_order(rt: HostRuntime) -> Result<(), Fail> {
    for (count, workers) in [(2, 64), (200, 1), (200, 3), (200, 64)] {
        let items = numbers(rt.alloc(), count)?;
        let outcomes = round(&rt, rt.alloc(), items, workers, &OpenGate, &Tenfold)?;
        assert!(rt; are_tens(outcomes.as_slice(), count as usize));
    }
    Ok(())
}

#[test]
fn each_item_is_told_to_the_gate_once(rt: HostRuntime) -> Result<(), Fail> {
    for workers in [1, 2, 64] {
        let gate = CountingGate::new(&rt, rt.alloc(), 200)?;
        let items = numbers(rt.alloc(), 200)?;
        let outcomes = round(&rt, rt.alloc(), items, workers, &gate, &Tenfold)?;
        assert!(rt; are_tens(outcomes.as_slice(), 200) && gate.told_each(1));
    }
    Ok(())
}

#[test]
fn memory_exhaustion_is_answered(rt: HostRuntime) -> Result<(), Fail> {
    let items = numbers(rt.alloc(), 100)?;
    let answer = round(&rt, rt.alloc(), items, 3, &OpenGate, &Failing { item: 7 });
    assert!(rt; answer.is_err());
    Ok(())
}
