//! Runs of the public call, over libraries and outputs that are values.
use cu_cmd::{Status, top};
use cu_io::{ShelfLibrary, Sink, VecSink, VecSource};
use cu_pile::{Gate, OpenGate};
use std::alloc::{AllocError, Global};
use std::process::Abort;
use std::thread::Threads;

/// More bytes than any listing or text here has.
const ROOM: usize = 65_536;

/// A module with a choice, for imports.
const SIDES: &str = "module Sides (side) where\nside = 0 ? hidden\nhidden = 1";

/// A module with a fault of its functions.
const WRONG: &str = "module Wrong where\nsame x x = True";

/// Modules of the folder `.`: `M` of this text, `Sides` and `Wrong`.
fn library_of(alloc: Global, text: &str) -> Result<ShelfLibrary, AllocError> {
    let mut library = ShelfLibrary::new(alloc, Vec::new(alloc));
    library.add_module(".", "M", text.as_bytes())?;
    library.add_module(".", "Sides", SIDES.as_bytes())?;
    library.add_module(".", "Wrong", WRONG.as_bytes())?;
    Ok(library)
}

/// Runs the command of these words, with an input of no bytes.
pub(crate) fn run<R: Threads + Sync>(
    rt: &R,
    alloc: Global,
    words: &[&str],
    library: &mut ShelfLibrary,
    output: &mut VecSink,
) -> Result<Status, AllocError> {
    run_at(rt, alloc, &OpenGate, words, library, output)
}

/// Runs the command of these words, with workers that pass a gate.
fn run_at<R: Threads + Sync, G: Gate + Sync>(
    rt: &R,
    alloc: Global,
    gate: &G,
    words: &[&str],
    library: &mut ShelfLibrary,
    output: &mut VecSink,
) -> Result<Status, AllocError> {
    let mut owned = Vec::new(alloc);
    for word in words {
        owned.push(String::from_str(alloc, word)?)?;
    }
    let words = owned.as_slice();
    let mut input = VecSource::new(Vec::new(alloc), Vec::new(alloc));
    Ok(top(rt, alloc, words, library, &mut input, output, gate))
}

/// Runs a command where `M` has this text, with an output that fails at these
/// pieces, after so many bytes of each.
fn run_in<R: Threads + Sync, G: Gate + Sync>(
    rt: &R,
    alloc: Global,
    gate: &G,
    text: &str,
    words: &[&str],
    output: Result<VecSink, AllocError>,
) -> Result<(Status, VecSink), AllocError> {
    let mut library = library_of(alloc, text)?;
    let mut sink = output?;
    let status = run_at(rt, alloc, gate, words, &mut library, &mut sink)?;
    Ok((status, sink))
}

/// An output that takes all.
pub(crate) fn whole(alloc: Global) -> Result<VecSink, AllocError> {
    VecSink::new(alloc, ROOM, Vec::new(alloc))
}

/// An output that fails at one piece, after so many bytes of it.
pub(crate) fn failing(alloc: Global, piece: u64, count: usize) -> Result<VecSink, AllocError> {
    VecSink::new(alloc, ROOM, vec![in alloc; (piece, count)]?)
}

/// Expects what a command writes where `M` has this text, and its status.
pub(crate) fn expect<R: Threads + Abort + AllocGlobal + Sync>(
    rt: &R,
    text: &str,
    words: &[&str],
    output: Result<VecSink, AllocError>,
    written: &str,
    status: Status,
) {
    expect_at(rt, &OpenGate, text, words, output, written, status);
}

/// Expects what a command writes with workers that pass a gate, and its status.
pub(crate) fn expect_at<R: Threads + Abort + AllocGlobal + Sync, G: Gate + Sync>(
    rt: &R,
    gate: &G,
    text: &str,
    words: &[&str],
    output: Result<VecSink, AllocError>,
    written: &str,
    status: Status,
) {
    let found = run_in(rt, rt.alloc(), gate, text, words, output);
    let (ended, sink) = found.expect(rt, "memory");
    assert_eq!(rt; str::from_utf8(sink.bytes()), Ok(written));
    assert_eq!(rt; ended, status);
}

/// What a command writes where `M` has this text.
pub(crate) fn written<R: Threads + Abort + AllocGlobal + Sync>(
    rt: &R,
    text: &str,
    words: &[&str],
) -> String {
    let alloc = rt.alloc();
    let (_, sink) = run_in(rt, alloc, &OpenGate, text, words, whole(alloc)).expect(rt, "memory");
    let written = str::from_utf8(sink.bytes()).expect(rt, "a text");
    String::from_str(alloc, written).expect(rt, "memory")
}
