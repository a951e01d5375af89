//! Two workers at a gate: each branch is held in turn until others of its round
//! have entered.
use crate::runs::{expect_at, whole};
use cu_cmd::Status;
use cu_pile::Gate;
use samples::HoldingGate;
use std::process::Abort;
use std::thread::Threads;

/// The text of the module `M`, a goal there, and its listing.
type Case = (&'static str, &'static str, &'static str);

const COIN: Case = ("coin = 0 ? 1", "coin", "[4] 0\n[4] 1\nno more\n");

const FOUR: Case = (
    "data D = A | B | C | E\nf A = 1\nf B = 2\nf C = 3\nf E = 4",
    "f x where x free",
    "[4] {x=A} 1\n[4] {x=B} 2\n[4] {x=C} 3\n[4] {x=E} 4\nno more\n",
);

/// The branch that is held, how many others enter meanwhile, and the goal.
const HELD: [(u32, u32, Case); 5] = [
    (0, 1, COIN),
    (0, 3, FOUR),
    (1, 3, FOUR),
    (2, 3, FOUR),
    (3, 3, FOUR),
];

/// Expects the listing of a goal by two workers at a gate.
fn expect_listed<R: Threads + Abort + AllocGlobal + Sync, G: Gate + Sync>(
    rt: &R,
    gate: &G,
    case: &Case,
) {
    let words = ["solve", "M", "--goal", case.1, "--workers", "2"];
    let output = whole(rt.alloc());
    expect_at(rt, gate, case.0, &words, output, case.2, Status::Done);
}

/// A branch that is held doesn't hold up the others, and the listing is the
/// same.
#[test]
fn held_branches_wait_for_the_others(rt: HostRuntime) {
    for (held, others, case) in &HELD {
        let gate = HoldingGate::new(&rt, *held, *others);
        expect_listed(&rt, &gate, case);
        assert!(rt; gate.entered() >= *others && !gate.ended());
    }
}
