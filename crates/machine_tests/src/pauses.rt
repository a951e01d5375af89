//! Searches that are paused between two rounds.
ghost use Rattle.std.specs.Prelude.{◌≡◌};
ghost use Rattle.cu_search.specs.Standing.{IsGoing};
ghost use Rattle.cu_search.specs.Stands.{standing_of};

use crate::benches::{AMPLE, Bench, ROOM, open};
use crate::searched::{NOT, RAISED_COIN};
use cu_frozen::FrozenStore;
use cu_graph::{PlainStore, Store};
use cu_io::VecSink;
use cu_kernel::Goal;
use cu_machine::SearchLimits;
use cu_pile::OpenGate;
use cu_search::{Round, Search};
use std::process::Abort;
use std::thread::Threads;

const THREE_ANSWERS: SearchLimits = SearchLimits {
    answers: Some(3),
    ..AMPLE
};

/// Runs so many rounds, after which the search goes on.
fn go_on<S: Store + Send + Sync, R: Threads + Abort + Sync>(
    rt: &R,
    rounds: u32,
    search: &mut Search<'_, S>,
    sink: &mut VecSink,
)
    requires { IsGoing (standing_of S.content search.old) }
    ensures going { IsGoing (standing_of S.content search.new) }
    ensures code { (standing_of S.content search.new).code
        ≡ (standing_of S.content search.old).code }
{
    for _ in 0..rounds {
        let Ok(Round::Going) = search.round(rt, 1, &OpenGate, sink) else {
            panic!(rt; "no next round");
        };
    }
}

/// What a search writes that is paused after so many rounds. Before it is
/// resumed, the table of names gets another name.
fn resumed_after<S: Store + Send + Sync, R: Threads + Abort + Sync>(
    rt: &R,
    rounds: u32,
    bench: &mut Bench,
    goal: &Goal,
) -> VecSink {
    let failing = Vec::new(bench.alloc);
    let mut sink = VecSink::new(bench.alloc, ROOM, failing).expect(rt, "memory");
    let mut search = open::<S>(bench, goal, THREE_ANSWERS).expect(rt, "a goal");
    go_on(rt, rounds, &mut search, &mut sink);
    let paused = search.pause();
    bench.names.intern("later").expect(rt, "memory");
    let mut resumed = Search::resume(&bench.code, &bench.kernel, &bench.names, goal, paused);
    let end = resumed.list(rt, Some(2), &OpenGate, &mut sink);
    assert!(rt; end.is_ok() && resumed.ended());
    sink
}

/// Expects what a search writes that is paused after so many rounds, over both
/// stores.
fn expect<R: Threads + Abort + Sync>(
    rt: &R,
    rounds: u32,
    bench: &mut Bench,
    goal: &Goal,
    text: &str,
) {
    let plain = resumed_after::<PlainStore, _>(rt, rounds, bench, goal);
    assert_eq!(rt; plain.bytes(), text.as_bytes());
    let shared = resumed_after::<FrozenStore, _>(rt, rounds, bench, goal);
    assert_eq!(rt; shared.bytes(), text.as_bytes());
}

/// A listing doesn't tell that its search was paused: before its first round,
/// before the first line, between two lines and before the last round.
#[test]
fn paused_searches(rt: HostRuntime) {
    let mut bench = Bench::new(&rt, rt.alloc());
    let goal = bench.goal(&rt, RAISED_COIN, &[]);
    let sums = "[5] 0\n[5] 1\n[6] 10\nstopped at answer 3\n";
    expect(&rt, 0, &mut bench, &goal, sums);
    expect(&rt, 2, &mut bench, &goal, sums);
    expect(&rt, 6, &mut bench, &goal, sums);
    let goal = bench.goal(&rt, NOT, &["x"]);
    let narrowed = "[3] {x=False} True\n[3] {x=True} False\nno more\n";
    expect(&rt, 2, &mut bench, &goal, narrowed);
    expect(&rt, 3, &mut bench, &goal, narrowed);
}
