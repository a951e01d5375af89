//! Gates that count, and that hold an item until others have entered.
use cu_pile::Gate;
use std::alloc::{AllocError, Global};
use std::sync::{Mutex, Wait};
use std::thread;

/// How many times a gate that holds an item looks for the others.
const TURNS: u32 = 100_000_000;

/// What has passed a gate.
#[derive(Drop)]
pub struct Passed {
    /// How many other items have entered meanwhile.
    pub others: u32,
    /// Whether the gate stopped looking for others before enough had entered.
    pub ended: bool,
}

/// Holds one item until so many others have entered.
#[derive(Drop)]
pub struct HoldingGate<'r, R: Wait> {
    rt: &'r R,
    held: u32,
    others: u32,
    passed: Mutex<Passed>,
}

impl<'r, R: Wait> HoldingGate<'r, R> {
    pub fn new(rt: &'r R, held: u32, others: u32) -> HoldingGate<'r, R> {
        let passed = Mutex::new(Passed {
            others: 0,
            ended: false,
        });
        HoldingGate {
            rt,
            held,
            others,
            passed,
        }
    }

    /// Whether the gate stopped looking for others before enough had entered.
    pub fn ended(&self) -> bool {
        self.passed.lock(self.rt).ended
    }

    /// How many other items have entered.
    pub fn entered(&self) -> u32 {
        self.passed.lock(self.rt).others
    }
}

impl<'r, R: Wait> Gate for HoldingGate<'r, R> {
    ghost told = { λ _ _. Unit {0} };

    fn enter(&self, number: u32) {
        if number != self.held {
            let mut passed = self.passed.lock(self.rt);
            passed.others = passed.others.saturating_add(1);
            return;
        }
        for _ in 0..TURNS {
            if self.entered() >= self.others {
                return;
            }
            thread::yield_now();
        }
        self.passed.lock(self.rt).ended = true;
    }
}

/// Counts how often it is told of each number.
#[derive(Drop)]
pub struct CountingGate<'r, R: Wait> {
    rt: &'r R,
    counts: Mutex<Vec<u32>>,
}

impl<'r, R: Wait> CountingGate<'r, R> {
    /// A gate for the numbers below a count.
    pub fn new(rt: &'r R, alloc: Global, count: usize) -> Result<CountingGate<'r, R>, AllocError> {
        let mut counts = Vec::new(alloc);
        for _ in 0..count {
            counts.push(0)?;
        }
        Ok(CountingGate {
            rt,
            counts: Mutex::new(counts),
        })
    }

    /// Whether it was told of each number as often as this.
    pub fn told_each(&self, times: u32) -> bool {
        let counts = self.counts.lock(self.rt);
        counts.iter().all(|count| *count == times)
    }
}

impl<'r, R: Wait> Gate for CountingGate<'r, R> {
    ghost told = { λ _ _. Unit {0} };

    fn enter(&self, number: u32) {
        let mut counts = self.counts.lock(self.rt);
        if let Some(count) = counts.get_mut(number as usize) {
            *count = count.saturating_add(1);
        }
    }
}
