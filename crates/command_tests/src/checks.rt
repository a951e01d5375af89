//! Checks of proofs, which are worked out by hand from the rules of the
//! calculus. The functions of the Prelude have the numbers 0 to 78.
use crate::runs::{failing, run, whole};
use cu_cmd::Status;
use cu_io::{Library, ShelfLibrary, Sink, VecSink};
use std::alloc::{AllocError, Global};
use std::process::Abort;
use std::thread::Threads;

const MODULE: &str = "coin = 0\ncoin = 1\nfirst x y = x\n";

const RIGHT: &str = "goal 4 coin\nclaims 0\nsteps 3\n- : - : i1 => i1\n0 : - : wf79/0 => i1\n\
    1 : - : wf81/0 => i1\n";

/// Files, what is written of each, and the status.
const FILES: [(&str, &str, Status); 11] = [
    (RIGHT, "yes 1 given 0 claims\n", Status::Done),
    (
        "goal 4 coin\nclaims 1\nf79 : - : i0,i1\nsteps 3\n- : - : i1 => i1\n\
        0 : - : wf79/0 => i1\n1 : - : wf81/0 => i1\n",
        "yes 1 given 1 claims\n",
        Status::Done,
    ),
    (
        "goal 25 first x y where x, y free\nclaims 0\nsteps 4\n- : 0=v3,1=i2 : x0 => v3\n\
        - : 0=v3,1=i2 : x1 => i2\n0,1,0 : 0=v3,1=i2 : wf80/2 x0 x1 => v3\n\
        0,1,2 : 0=v3,1=i2 : wf81/2 x0 x1 => v3\n",
        "yes {x=_3, y=2} _3 given 0 claims\n",
        Status::Done,
    ),
    // A variable of the goal is unknown.
    (
        "goal 25 first x y where x, y free\nclaims 0\nsteps 4\n- : 0=i1 : x0 => i1\n\
        - : 0=i1 : x1 => _\n0,1,0 : 0=i1 : wf80/2 x0 x1 => i1\n\
        0,1,2 : 0=i1 : wf81/2 x0 x1 => i1\n",
        "no\n",
        Status::Done,
    ),
    // The goal's variables stand in another order.
    (
        "goal 25 first x y where x, y free\nclaims 0\nsteps 6\n- : 0=i2,1=i1 : x0 => i2\n\
        - : 0=i2,1=i1 : x1 => i1\n0,1,0 : 0=i2,1=i1 : wf80/2 x0 x1 => i2\n\
        - : 0=i1,1=i2 : x1 => i2\n- : 0=i1,1=i2 : x0 => i1\n\
        3,4,2 : 0=i1,1=i2 : wf81/2 x1 x0 => i2\n",
        "no\n",
        Status::Done,
    ),
    (
        "goal 4 coin\nclaims 0\nsteps 1\n- : - : wf81/0 => _\n",
        "no\n",
        Status::Done,
    ),
    (
        "goal 4 True\nclaims 0\nsteps 1\n- : - : i0 => i1\n",
        "no\n",
        Status::Done,
    ),
    (
        "goal 4 coin\nclaims 0\nsteps 1\n- : - : wf99/0 => i1\n",
        "no\n",
        Status::Done,
    ),
    (
        "goal 4 True\nclaims 0\nsteps 0\n",
        "refused 26 BadProof offset 27\n",
        Status::Refused,
    ),
    (
        "goal 4 toss\nclaims 0\nsteps 1\n- : - : i0 => i0\n",
        "refused 12 UnknownName goal:1:1 toss\n",
        Status::Refused,
    ),
    ("", "refused 26 BadProof offset 0\n", Status::Refused),
];

/// A library of the module `M`, and of a file `p` of this text, of which some
/// calls fail.
fn library_of(alloc: Global, text: &str, failing: Vec<u64>) -> Result<ShelfLibrary, AllocError> {
    let mut library = ShelfLibrary::new(alloc, failing);
    library.add_module(".", "M", MODULE.as_bytes())?;
    library.add_module("modules", "M", b"coin = q")?;
    library.add_file("p", text.as_bytes())?;
    Ok(library)
}

/// How a check of a file `p` of this text ends, and what is written.
fn checked<R: Threads + Sync>(
    rt: &R,
    alloc: Global,
    words: &[&str],
    text: &str,
    output: Result<VecSink, AllocError>,
) -> Result<(Status, VecSink), AllocError> {
    let mut library = library_of(alloc, text, Vec::new(alloc))?;
    let mut sink = output?;
    let status = run(rt, alloc, words, &mut library, &mut sink)?;
    Ok((status, sink))
}

/// Expects what is written of a file `p` of this text, and the status.
fn expect<R: Threads + Abort + AllocGlobal + Sync>(
    rt: &R,
    words: &[&str],
    text: &str,
    output: Result<VecSink, AllocError>,
    written: &str,
    status: Status,
) {
    let found = checked(rt, rt.alloc(), words, text, output);
    let (ended, sink) = found.expect(rt, "memory");
    assert_eq!(rt; str::from_utf8(sink.bytes()), Ok(written));
    assert_eq!(rt; ended, status);
}

#[test]
fn proofs_are_checked(rt: HostRuntime) {
    for (text, written, status) in &FILES {
        let words = ["check", "M", "p"];
        expect(&rt, &words, text, whole(rt.alloc()), written, *status);
    }
}

#[test]
fn modules_are_tried_before_the_file(rt: HostRuntime) {
    let missing = "refused 32 MissingFile q\n";
    let words = ["check", "M", "q"];
    expect(&rt, &words, "", whole(rt.alloc()), missing, Status::Refused);
    let unknown = "refused 12 UnknownName M:1:8 q\n";
    for path in &["p", "q"] {
        let words = ["check", "M", path, "--dir", "modules"];
        expect(&rt, &words, "", whole(rt.alloc()), unknown, Status::Refused);
    }
}

/// The words of a check whose output fails at its one piece after a byte, and
/// what is written.
const BREAKS: [(&str, &str); 2] = [("p", "y"), ("q", "r")];

#[test]
fn checks_break_off(rt: HostRuntime) {
    for (path, written) in &BREAKS {
        let words = ["check", "M", path];
        let output = failing(rt.alloc(), 0, 1);
        expect(&rt, &words, RIGHT, output, written, Status::WriteFault);
    }
}

/// How a check ends whose library fails at the call of this number, and whether
/// nothing is written.
fn failed<R: Threads + Sync>(
    rt: &R,
    alloc: Global,
    number: u64,
) -> Result<(Status, bool, u64), AllocError> {
    let mut library = library_of(alloc, RIGHT, vec![in alloc; number]?)?;
    let mut sink = whole(alloc)?;
    let status = run(rt, alloc, &["check", "M", "p"], &mut library, &mut sink)?;
    Ok((status, sink.bytes().is_empty(), library.faults()))
}

#[test]
fn failed_reads_are_answered(rt: HostRuntime) {
    // The module is the first call, and the file the second one.
    for number in 0..2 {
        let found = failed(&rt, rt.alloc(), number);
        assert_eq!(rt; found.ok(), Some((Status::ReadFault, true, 1)));
    }
}
