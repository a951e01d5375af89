//! Listings of goals.
ghost use Rattle.std.specs.Prelude.{◌≤◌};

use crate::benches::{AMPLE, Bench, open, written};
use crate::searched::{
    ALL_SORTED, COIN, LOOP, MANY_NUMBER, NOT, NUMBER, OPEN_SORTED, PICK, SORTED, WAIT,
};
use cu_frozen::FrozenStore;
use cu_graph::PlainStore;
use cu_io::VecSink;
use cu_kernel::Goal;
use cu_machine::{End, Limits, SearchLimits};
use cu_pile::OpenGate;
use cu_search::{Round, SearchFault};
use samples::{CountingGate, HoldingGate};
use std::process::Abort;
use std::sync::Wait;
use std::test::Fail;
use std::thread::Threads;

/// Expects what is listed of a goal, by one worker, by three, by 64 and by as
/// many as rounds are worth, and over both stores.
fn expect<R: Threads + Abort + Sync>(
    rt: &R,
    bench: &mut Bench,
    function: usize,
    variables: &[&str],
    limits: SearchLimits,
    text: &str,
) {
    let goal = bench.goal(rt, function, variables);
    let one = written::<PlainStore, _, _>(rt, bench, &goal, limits, Some(1), &OpenGate);
    assert_eq!(rt; one.bytes(), text.as_bytes());
    let three = written::<PlainStore, _, _>(rt, bench, &goal, limits, Some(3), &OpenGate);
    assert_eq!(rt; three.bytes(), text.as_bytes());
    let many = written::<PlainStore, _, _>(rt, bench, &goal, limits, Some(64), &OpenGate);
    assert_eq!(rt; many.bytes(), text.as_bytes());
    let shared = written::<FrozenStore, _, _>(rt, bench, &goal, limits, Some(3), &OpenGate);
    assert_eq!(rt; shared.bytes(), text.as_bytes());
    let fitting = written::<FrozenStore, _, _>(rt, bench, &goal, limits, None, &OpenGate);
    assert_eq!(rt; fitting.bytes(), text.as_bytes());
}

const THREE_ROUNDS: SearchLimits = SearchLimits { rounds: 3, ..AMPLE };

const ONE_ANSWER: SearchLimits = SearchLimits {
    answers: Some(1),
    ..AMPLE
};

const LONG_STRIDE: SearchLimits = SearchLimits { stride: 9, ..AMPLE };

const NARROW: SearchLimits = SearchLimits {
    step: Limits {
        nodes: 1000,
        width: 1,
    },
    ..AMPLE
};

#[test]
fn listings(rt: HostRuntime) -> Result<(), Fail> {
    let mut bench = Bench::new(&rt, rt.alloc());
    let coins = "[2] 0\n[2] 1\nno more\n";
    expect(&rt, &mut bench, COIN, &[], AMPLE, coins);
    let picks = "[3] 0\n[3] 1\nno more\n";
    expect(&rt, &mut bench, PICK, &[], AMPLE, picks);
    let first = "[3] 0\nstopped at answer 1\n";
    expect(&rt, &mut bench, PICK, &[], ONE_ANSWER, first);
    let strides = "[1] 0\n[1] 1\nno more\n";
    expect(&rt, &mut bench, PICK, &[], LONG_STRIDE, strides);
    expect(&rt, &mut bench, PICK, &[], NARROW, "too wide at round 3\n");
    let narrowed = "[3] {x=False} True\n[3] {x=True} False\nno more\n";
    expect(&rt, &mut bench, NOT, &["x"], AMPLE, narrowed);
    let waits = "[1] waits on x\nno more; 1 floundered\n";
    expect(&rt, &mut bench, WAIT, &["x"], AMPLE, waits);
    let open = "stopped at round 3; 1 open\n";
    expect(&rt, &mut bench, LOOP, &[], THREE_ROUNDS, open);
    Ok(())
}

/// A set function leaves the choices of its argument outside, and takes those of
/// its function.
#[test]
fn set_functions(rt: HostRuntime) -> Result<(), Fail> {
    let mut bench = Bench::new(&rt, rt.alloc());
    let outside = "[11] [0,10]\n[11] [1,11]\nno more\n";
    expect(&rt, &mut bench, SORTED, &[], AMPLE, outside);
    let inside = "[12] [0,1,10,11]\nno more\n";
    expect(&rt, &mut bench, ALL_SORTED, &[], AMPLE, inside);
    let waits = "[5] waits inside a set function\nno more; 1 floundered\n";
    expect(&rt, &mut bench, OPEN_SORTED, &[], AMPLE, waits);
    Ok(())
}

/// Of four branches and two workers each branch is held in turn until the others
/// have entered.
#[test]
fn two_workers_at_four_branches(rt: HostRuntime) -> Result<(), Fail> {
    let mut bench = Bench::new(&rt, rt.alloc());
    let goal = bench.goal(&rt, NUMBER, &["x"]);
    let listing = "[3] {x=North} 0\n[3] {x=East} 1\n[3] {x=South} 2\n[3] {x=West} 3\nno more\n";
    for held in 0..4 {
        let gate = HoldingGate::new(&rt, held, 3);
        let sink = written::<PlainStore, _, _>(&rt, &bench, &goal, AMPLE, Some(2), &gate);
        assert_eq!(rt; sink.bytes(), listing.as_bytes());
        assert!(rt; !gate.ended());
    }
    Ok(())
}

/// A branch that is held until the other has entered changes nothing; and a
/// search that the output breaks off has ended.
#[test]
fn held_branches_and_faults(rt: HostRuntime) -> Result<(), Fail> {
    let mut bench = Bench::new(&rt, rt.alloc());
    let goal = bench.goal(&rt, COIN, &[]);
    for held in 0..2 {
        let gate = HoldingGate::new(&rt, held, 1);
        let sink = written::<PlainStore, _, _>(&rt, &bench, &goal, AMPLE, Some(2), &gate);
        assert_eq!(rt; sink.bytes(), b"[2] 0\n[2] 1\nno more\n".as_slice());
        assert!(rt; !gate.ended());
    }
    let mut failing = Vec::new(rt.alloc());
    failing.push((1, 3))?;
    let mut sink = VecSink::new(rt.alloc(), 100, failing)?;
    let mut search = open::<PlainStore>(&bench, &goal, AMPLE).expect(&rt, "a goal");
    let fault = search.list(&rt, Some(2), &OpenGate, &mut sink);
    assert!(rt; matches!(fault, Err(SearchFault::Write)) && search.ended());
    assert_eq!(rt; sink.bytes(), b"[2] 0\n[2]".as_slice());
    Ok(())
}

/// Round by round, each writes the lines of its level.
#[test]
fn single_rounds(rt: HostRuntime) -> Result<(), Fail> {
    let mut bench = Bench::new(&rt, rt.alloc());
    let goal = bench.goal(&rt, WAIT, &["x"]);
    let mut sink = VecSink::new(rt.alloc(), 100, Vec::new(rt.alloc()))?;
    let mut search = open::<PlainStore>(&bench, &goal, AMPLE).expect(&rt, "a goal");
    assert!(rt; !search.ended());
    let Ok(Round::Going) = search.round(&rt, 1, &OpenGate, &mut sink) else {
        panic!(rt; "no second round");
    };
    assert!(rt; !search.ended() && sink.bytes().is_empty());
    let last = search.round(&rt, 1, &OpenGate, &mut sink);
    assert!(rt; last.ok() == Some(Round::Ended(End::NoMore(1))) && search.ended());
    Ok(())
}

/// Limits that a level of 200 branches doesn't reach.
const WIDE: SearchLimits = SearchLimits {
    step: Limits {
        nodes: 1000,
        width: 200,
    },
    ..AMPLE
};

/// Expects that so many workers tell the gate of each branch of a level of
/// 200 once.
fn expect_told_once<R: Threads + Wait + Abort + Sync>(
    rt: &R,
    bench: &Bench,
    goal: &Goal,
    workers: u32,
)
    requires { (1 ≤ workers) × (workers ≤ 64) }
{
    let room = Vec::new(bench.alloc);
    let mut sink = VecSink::new(bench.alloc, 10_000, room).expect(rt, "memory");
    let mut search = open::<FrozenStore>(bench, goal, WIDE).expect(rt, "a goal");
    // The call becomes a case.
    let Ok(Round::Going) = search.round(rt, workers, &OpenGate, &mut sink) else {
        panic!(rt; "no second round");
    };
    // The case is narrowed to all constructors.
    let Ok(Round::Going) = search.round(rt, workers, &OpenGate, &mut sink) else {
        panic!(rt; "no third round");
    };
    let gate = CountingGate::new(rt, bench.alloc, 200).expect(rt, "memory");
    let Ok(Round::Going) = search.round(rt, workers, &gate, &mut sink) else {
        panic!(rt; "no fourth round");
    };
    assert!(rt; gate.told_each(1) && sink.bytes().is_empty());
    let last = search.round(rt, workers, &OpenGate, &mut sink);
    assert!(rt; last.ok() == Some(Round::Ended(End::NoMore(0))));
    assert!(rt;
        sink.bytes()
            .starts_with(b"[3] {x=M} 0\n[3] {x=M} 1\n".as_slice())
    );
}

/// A wide level is the same to one worker and to many.
#[test]
fn a_wide_level_at_the_gate(rt: HostRuntime) -> Result<(), Fail> {
    let mut bench = Bench::new(&rt, rt.alloc());
    let goal = bench.goal(&rt, MANY_NUMBER, &["x"]);
    expect_told_once(&rt, &bench, &goal, 1);
    expect_told_once(&rt, &bench, &goal, 2);
    expect_told_once(&rt, &bench, &goal, 64);
    Ok(())
}
