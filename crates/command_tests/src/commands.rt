//! Limits, workers, faults of the outside, and words that are no command.
use crate::runs::{expect, failing, run, whole};
use cu_cmd::Status;
use cu_io::{Library, ShelfLibrary, Sink, VecSink};
use std::alloc::{AllocError, Global};
use std::process::Abort;
use std::thread::Threads;

const COIN: &str = "coin = 0 ? 1";

const COIN_WORDS: [&str; 4] = ["solve", "M", "--goal", "coin"];

const COIN_LISTING: &str = "[4] 0\n[4] 1\nno more\n";

const USAGE: &str = "bad command line\n";

const LOOP: &str = "loop = loop";

/// The option after a goal, its value, and what is written.
type Limit = (&'static str, &'static str, &'static str, Status);

const LIMITS: [Limit; 12] = [
    ("--workers", "1", COIN_LISTING, Status::Done),
    ("--workers", "3", COIN_LISTING, Status::Done),
    ("--workers", "64", COIN_LISTING, Status::Done),
    ("--rounds", "4", COIN_LISTING, Status::Done),
    (
        "--rounds",
        "3",
        "stopped at round 3; 2 open\n",
        Status::Limit,
    ),
    (
        "--answers",
        "1",
        "[4] 0\nstopped at answer 1\n",
        Status::Limit,
    ),
    ("--nodes", "3", COIN_LISTING, Status::Done),
    ("--nodes", "1", "too large at round 1\n", Status::Stopped),
    ("--width", "2", COIN_LISTING, Status::Done),
    ("--width", "1", "too wide at round 4\n", Status::Stopped),
    ("--stride", "4", "[1] 0\n[1] 1\nno more\n", Status::Done),
    ("--stride", "0", USAGE, Status::Usage),
];

#[test]
fn limits_end_listings(rt: HostRuntime) {
    for (option, value, written, status) in &LIMITS {
        let words = ["solve", "M", "--goal", "coin", option, value];
        expect(&rt, COIN, &words, whole(rt.alloc()), written, *status);
    }
    // An endless branch hides nothing.
    let words = ["solve", "M", "--goal", "loop ? 7", "--rounds", "100"];
    let listing = "[3] 7\nstopped at round 100; 1 open\n";
    expect(&rt, LOOP, &words, whole(rt.alloc()), listing, Status::Limit);
    let most = "170141183460469231731687303715884105727 + 1";
    let words = ["solve", "M", "--goal", most];
    let listing = "overflow at round 1\n";
    expect(&rt, "", &words, whole(rt.alloc()), listing, Status::Stopped);
}

/// A piece of the output that fails, after so many bytes, and what was written.
const BREAKS: [(u64, usize, &str); 6] = [
    (0, 0, ""),
    (0, 1, "["),
    (1, 0, "[4] 0\n"),
    (1, 1, "[4] 0\n["),
    (2, 0, "[4] 0\n[4] 1\n"),
    (2, 1, "[4] 0\n[4] 1\nn"),
];

#[test]
fn outputs_break_off(rt: HostRuntime) {
    let alloc = rt.alloc();
    for (piece, count, written) in &BREAKS {
        let output = failing(alloc, *piece, *count);
        expect(&rt, COIN, &COIN_WORDS, output, written, Status::WriteFault);
    }
    // The output gets no fourth piece.
    let output = failing(alloc, 3, 1);
    expect(&rt, COIN, &COIN_WORDS, output, COIN_LISTING, Status::Done);
    let words = ["solve", "M", "--goal", "toss"];
    expect(
        &rt,
        COIN,
        &words,
        failing(alloc, 0, 1),
        "r",
        Status::WriteFault,
    );
    expect(
        &rt,
        COIN,
        &["solve"],
        failing(alloc, 0, 1),
        "b",
        Status::WriteFault,
    );
}

/// Whether the fetch of this number fails, nothing is written, and the same
/// command is answered as ever where no fetch fails.
fn fetches<R: Threads + Sync>(rt: &R, alloc: Global, number: u64) -> Result<bool, AllocError> {
    let mut library = ShelfLibrary::new(alloc, vec![in alloc; number]?);
    library.add_module(".", "M", b"import N\ncoin = 0 ? 1")?;
    library.add_module(".", "N", b"")?;
    let mut first = whole(alloc)?;
    let failed = run(rt, alloc, &COIN_WORDS, &mut library, &mut first)?;
    let mut second = whole(alloc)?;
    let done = run(rt, alloc, &COIN_WORDS, &mut library, &mut second)?;
    Ok(
        failed == Status::ReadFault
            && first.bytes().is_empty()
            && first.faults() == 0
            && done == Status::Done
            && second.bytes() == COIN_LISTING.as_bytes(),
    )
}

#[test]
fn failed_fetches_are_answered(rt: HostRuntime) {
    assert_eq!(rt; fetches(&rt, rt.alloc(), 0).ok(), Some(true));
    assert_eq!(rt; fetches(&rt, rt.alloc(), 1).ok(), Some(true));
}

const NO_COMMANDS: [[&str; 4]; 4] = [
    ["solve", "M", "--aim", "coin"],
    ["solves", "M", "--goal", "coin"],
    ["solve", "1", "--goal", "coin"],
    ["solve", "M", "--goal", "-x"],
];

#[test]
fn other_words_are_no_command(rt: HostRuntime) {
    for words in &NO_COMMANDS {
        expect(&rt, COIN, words, whole(rt.alloc()), USAGE, Status::Usage);
    }
    expect(&rt, COIN, &[], whole(rt.alloc()), USAGE, Status::Usage);
}

/// The words of a trial, what it writes, and its status.
type TrialCase = ([&'static str; 6], &'static str, Status);

const FOUND: &str = "answers 16384\nsum 134209536\nno more\n";

const TOO_WIDE: &str = "answers 0\nsum 0\ntoo wide at round 115\n";

const TRIALS: [TrialCase; 6] = [
    (
        ["trial", "14", "--width", "16384", "--workers", "1"],
        FOUND,
        Status::Done,
    ),
    (
        ["trial", "14", "--width", "16384", "--workers", "3"],
        FOUND,
        Status::Done,
    ),
    (
        ["trial", "14", "--width", "16384", "--workers", "64"],
        FOUND,
        Status::Done,
    ),
    (
        ["trial", "14", "--width", "16383", "--workers", "1"],
        TOO_WIDE,
        Status::Stopped,
    ),
    (
        ["trial", "14", "--width", "16383", "--workers", "3"],
        TOO_WIDE,
        Status::Stopped,
    ),
    (
        ["trial", "14", "--width", "16383", "--workers", "64"],
        TOO_WIDE,
        Status::Stopped,
    ),
];

#[test]
fn trials_count_answers(rt: HostRuntime) {
    for (words, written, status) in &TRIALS {
        expect(&rt, "", words, whole(rt.alloc()), written, *status);
    }
    let one = "answers 1\nsum 0\nno more\n";
    expect(
        &rt,
        "",
        &["trial", "0"],
        whole(rt.alloc()),
        one,
        Status::Done,
    );
    let four = "answers 4\nsum 6\nno more\n";
    let words = ["trial", "2", "--stride", "3"];
    expect(&rt, "", &words, whole(rt.alloc()), four, Status::Done);
    let words = ["trial", "15"];
    expect(&rt, "", &words, whole(rt.alloc()), USAGE, Status::Usage);
}

/// A piece of a trial's output that fails, after so many bytes, and what was
/// written.
const TRIAL_BREAKS: [(u64, usize, &str); 3] = [
    (0, 3, "ans"),
    (1, 0, "answers 1\n"),
    (2, 1, "answers 1\nsum 0\nn"),
];

#[test]
fn trials_break_off(rt: HostRuntime) {
    for (piece, count, written) in &TRIAL_BREAKS {
        let output = failing(rt.alloc(), *piece, *count);
        expect(
            &rt,
            "",
            &["trial", "0"],
            output,
            written,
            Status::WriteFault,
        );
    }
}

/// How a trial ends over a library whose first call is to fail, and how many
/// faults the library has then.
fn tried_apart<R: Threads + Sync>(rt: &R, alloc: Global) -> Result<(Status, u64), AllocError> {
    let mut library = ShelfLibrary::new(alloc, vec![in alloc; 0]?);
    let mut sink = whole(alloc)?;
    let status = run(rt, alloc, &["trial", "1"], &mut library, &mut sink)?;
    Ok((status, library.faults()))
}

#[test]
fn trials_ask_nothing_of_the_library(rt: HostRuntime) {
    let found = tried_apart(&rt, rt.alloc());
    assert_eq!(rt; found.ok(), Some((Status::Done, 0)));
}
