//! Random pushes, puts and forks, the same ones on every store.
ghost use Rattle.std.specs.Prelude.{◌<◌};

use crate::listed::Pair;
use cu_calculus::Lit;
use cu_frozen::FrozenStore;
use cu_graph::{Kind, PlainStore, Store};
use std::alloc::{AllocError, Global};
use std::test::Fail;

/// Numbers that look random.
#[derive(Drop)]
struct Numbers {
    state: u64,
}

impl Numbers {
    /// The next number, below 1000.
    fn draw(&mut self) -> u32
        ensures { result < 1000 }
    {
        self.state = self
            .state
            .wrapping_mul(6_364_136_223_846_793_005)
            .wrapping_add(1_442_695_040_888_963_407);
        ((self.state >> 33) % 1000) as u32
    }
}

/// A pair that is worked on, and others.
#[derive(Drop)]
struct Pool<S> {
    current: Pair<S>,
    others: Vec<Pair<S>>,
}

impl<S: Store> Pool<S> {
    /// Writes a node with up to three arguments, after the others or in the
    /// place of one. Of the numbers 32 bits hold some and not others.
    fn write(&mut self, alloc: Global, numbers: &mut Numbers) -> Result<(), AllocError> {
        let place = numbers.draw();
        let args = [numbers.draw(), numbers.draw(), numbers.draw()];
        let arity = (numbers.draw() % 4) as usize;
        let kind = if place % 2 == 0 {
            Kind::Ind
        } else {
            Kind::Lit(Lit::Int(i128::from(place) * 10_000_000))
        };
        if numbers.draw() < 400 {
            self.current.push(alloc, kind, &args[..arity])
        } else {
            self.current.put(alloc, place, kind, &args[..arity])
        }
    }

    /// Forks the pair that is worked on, and goes on with one of the others.
    fn fork(self, alloc: Global, numbers: &mut Numbers) -> Result<Pool<S>, AllocError> {
        let mut others = self.others;
        for pair in self.current.fork(alloc, 1 + numbers.draw() % 3)? {
            others.push(pair)?;
        }
        others.truncate(10);
        let place = numbers.draw() as usize;
        if place < others.len() {
            let last = others.len() - 1;
            others.swap(place, last);
        }
        match others.pop() {
            Some(current) => Ok(Pool { current, others }),
            None => Err(AllocError),
        }
    }

    fn agrees(&self) -> bool {
        self.current.agrees() && self.others.iter().all(|pair| pair.agrees())
    }
}

/// Whether a store has the nodes that it is to have after so many steps.
fn agrees<S: Store>(alloc: Global, seed: u64, steps: u32) -> Result<bool, AllocError> {
    let mut numbers = Numbers { state: seed };
    let mut pool = Pool {
        current: Pair::<S>::empty(alloc)?,
        others: Vec::new(alloc),
    };
    for _ in 0..steps {
        if numbers.draw() < 80 {
            pool = pool.fork(alloc, &mut numbers)?;
        } else {
            pool.write(alloc, &mut numbers)?;
        }
    }
    Ok(pool.agrees())
}

#[test]
fn stores_agree_with_lists(rt: HostRuntime) -> Result<(), Fail> {
    for seed in 1..20 {
        assert!(rt; agrees::<PlainStore>(rt.alloc(), seed, 1000)?);
        assert!(rt; agrees::<FrozenStore>(rt.alloc(), seed, 1000)?);
    }
    Ok(())
}
