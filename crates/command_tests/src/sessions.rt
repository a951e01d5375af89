//! Sessions: their lines, and what they write.
use crate::runs::{failing, whole};
use crate::slow::Slow;
use cu_cmd::{Status, top};
use cu_io::{ShelfLibrary, Sink, Source, VecSink, VecSource};
use cu_pile::OpenGate;
use std::alloc::{AllocError, Global};
use std::process::Abort;
use std::thread::Threads;

/// The most bytes of a line.
const LIMIT: usize = 1_048_576;

/// The lines of a session, and its replies.
type Case = (&'static str, &'static str);

const COIN: &str = "coin = 0\ncoin = 1";

/// Three answers in three rounds.
const MORE: &str = "one = 1\none = two\ntwo = 2\ntwo = three\nthree = 3";

const CASES: [Case; 12] = [
    ("", ""),
    ("quit\nask coin\n", "bye\n"),
    (
        "load M\nask coin\nnext\nnext\nquit\n",
        "ok\nok\n[3] 0\n[3] 1\nno more\n.\nno question\nbye\n",
    ),
    (
        "ask coin\nlimits width 0\nload N\n",
        "no module\nbad command\nrefused 8 MissingModule N\n",
    ),
    // each round with a line has a reply of its own, and the last one the end
    (
        "load More\nask one\nnext\nnext\nnext\nnext",
        "ok\nok\n[3] 1\n.\n[5] 2\n.\n[6] 3\nno more\n.\nno question\n",
    ),
    // a refused load and a refused ask change nothing, nor do other lines
    (
        concat!(
            "load More\nask one\nnext\nload N\nask two three\nask nine\nlimits answers 1\n",
            "limits rounds 1\nNEXT\n\nnext\n",
        ),
        concat!(
            "ok\nok\n[3] 1\n.\nrefused 8 MissingModule N\nrefused 20 TypeClash goal\n",
            "refused 12 UnknownName goal:1:1 nine\nok\nok\nbad command\nbad command\n[5] 2\n.\n",
        ),
    ),
    // limits are those of later questions
    (
        "load M\nlimits answers 1\nask coin\nnext\nlimits answers none\nask coin\nnext\n",
        "ok\nok\nok\n[3] 0\nstopped at answer 1\n.\nok\nok\n[3] 0\n[3] 1\nno more\n.\n",
    ),
    (
        "load M\nask coin\nlimits rounds 1\nlimits workers 2\nnext\nask coin\nnext\n",
        "ok\nok\nok\nok\n[3] 0\n[3] 1\nno more\n.\nok\nstopped at round 1; 1 open\n.\n",
    ),
    // a load that is right drops the question
    (
        "load M\nask coin\nload More\nnext\nask coin\nask two\nnext\n",
        "ok\nok\nok\nno question\nrefused 12 UnknownName goal:1:1 coin\nok\n[3] 2\n.\n",
    ),
    // a question in place of another one
    (
        "load More\nask one\nnext\nask two\nnext\n",
        "ok\nok\n[3] 1\n.\nok\n[3] 2\n.\n",
    ),
    (
        "load M\r\nask coin\r\nnext",
        "ok\nok\n[3] 0\n[3] 1\nno more\n.\n",
    ),
    (
        "load\nload m n\nask\nask \nlimits\nlimits rounds\nquit ",
        concat!(
            "bad command\nbad command\nbad command\nno module\n",
            "bad command\nbad command\nbad command\n",
        ),
    ),
];

/// A library of the modules `M` and `More`, of which these calls fail.
fn library_of(alloc: Global, failing: Vec<u64>) -> Result<ShelfLibrary, AllocError> {
    let mut library = ShelfLibrary::new(alloc, failing);
    library.add_module(".", "M", COIN.as_bytes())?;
    library.add_module(".", "More", MORE.as_bytes())?;
    Ok(library)
}

/// Runs a session over an input.
fn serve<R: Threads + Sync, O: Source>(
    rt: &R,
    alloc: Global,
    library: Result<ShelfLibrary, AllocError>,
    input: &mut O,
    output: Result<VecSink, AllocError>,
) -> Result<(Status, VecSink), AllocError> {
    let mut words = Vec::new(alloc);
    words.push(String::from_str(alloc, "session")?)?;
    let mut library = library?;
    let mut sink = output?;
    let words = words.as_slice();
    let status = top(rt, alloc, words, &mut library, input, &mut sink, &OpenGate);
    Ok((status, sink))
}

/// An input of these bytes, of which these reads fail.
fn input_of(alloc: Global, bytes: &[u8], failing: Vec<u64>) -> Result<VecSource, AllocError> {
    Ok(VecSource::new(Vec::from_slice(alloc, bytes)?, failing))
}

/// Runs a session over these lines, which come whole, or in pieces of so many
/// bytes.
fn session<R: Threads + Sync>(
    rt: &R,
    alloc: Global,
    lines: &[u8],
    piece: usize,
) -> Result<(Status, VecSink), AllocError> {
    let library = library_of(alloc, Vec::new(alloc));
    let mut source = input_of(alloc, lines, Vec::new(alloc))?;
    if piece == 0 {
        return serve(rt, alloc, library, &mut source, whole(alloc));
    }
    serve(
        rt,
        alloc,
        library,
        &mut Slow { source, piece },
        whole(alloc),
    )
}

/// Expects what a session wrote, and its status.
fn expect<R: Abort>(
    rt: &R,
    found: Result<(Status, VecSink), AllocError>,
    written: &str,
    status: Status,
    case: &str,
) {
    let (ended, sink) = found.expect(rt, "memory");
    assert_eq!(rt; str::from_utf8(sink.bytes()), Ok(written), "{case}");
    assert_eq!(rt; ended, status, "{case}");
}

#[test]
fn each_line_has_its_reply(rt: HostRuntime) {
    for (lines, replies) in &CASES {
        for piece in 0..2 {
            let found = session(&rt, rt.alloc(), lines.as_bytes(), piece);
            expect(&rt, found, replies, Status::Done, lines);
        }
    }
}

#[test]
fn the_input_may_come_in_pieces(rt: HostRuntime) {
    let (lines, replies) = &CASES[5];
    for piece in 2..65 {
        let found = session(&rt, rt.alloc(), lines.as_bytes(), piece);
        expect(&rt, found, replies, Status::Done, lines);
    }
}

/// A session over a library, an input and an output that fail at these calls,
/// where calls are counted from 0. The input comes by single bytes.
fn faulty<R: Threads + Sync>(
    rt: &R,
    alloc: Global,
    lines: &str,
    calls: Vec<u64>,
    reads: Vec<u64>,
    output: Result<VecSink, AllocError>,
) -> Result<(Status, VecSink), AllocError> {
    let source = input_of(alloc, lines.as_bytes(), reads)?;
    let library = library_of(alloc, calls);
    serve(rt, alloc, library, &mut Slow { source, piece: 1 }, output)
}

/// A list of one number.
fn one(alloc: Global, number: u64) -> Result<Vec<u64>, AllocError> {
    Ok(vec![in alloc; number]?)
}

const LINES: &str = "load M\nask coin\nnext\nload More\nquit\n";

#[test]
fn faults_of_the_outside_end_a_session(rt: HostRuntime) {
    let alloc = rt.alloc();
    // the third read of one byte
    let reads = one(alloc, 2).expect(&rt, "memory");
    let found = faulty(&rt, alloc, LINES, Vec::new(alloc), reads, whole(alloc));
    expect(&rt, found, "", Status::ReadFault, "a read");
    // a read after the first line
    let reads = one(alloc, 7).expect(&rt, "memory");
    let found = faulty(&rt, alloc, LINES, Vec::new(alloc), reads, whole(alloc));
    expect(&rt, found, "ok\n", Status::ReadFault, "a later read");
    // the second module that is fetched
    let calls = one(alloc, 1).expect(&rt, "memory");
    let found = faulty(&rt, alloc, LINES, calls, Vec::new(alloc), whole(alloc));
    let replies = "ok\nok\n[3] 0\n[3] 1\nno more\n.\n";
    expect(&rt, found, replies, Status::ReadFault, "a module");
    // the third reply, after four bytes of it
    let output = failing(alloc, 2, 4);
    let found = faulty(&rt, alloc, LINES, Vec::new(alloc), Vec::new(alloc), output);
    expect(&rt, found, "ok\nok\n[3] ", Status::WriteFault, "a reply");
}

/// A line of so many bytes, after a line that is answered.
fn long(alloc: Global, length: usize) -> Result<Vec<u8>, AllocError> {
    let mut input = Vec::with_capacity(alloc, length.saturating_add(8))?;
    input.extend_from_slice(b"load M\n")?;
    for _ in 0..length {
        input.push(98)?;
    }
    input.push(10)?;
    Ok(input)
}

#[test]
fn a_line_may_be_too_long(rt: HostRuntime) {
    let alloc = rt.alloc();
    let lines = long(alloc, LIMIT).expect(&rt, "memory");
    let found = session(&rt, alloc, lines.as_slice(), 0);
    expect(&rt, found, "ok\nbad command\n", Status::Done, "the limit");
    let lines = long(alloc, LIMIT + 1).expect(&rt, "memory");
    let found = session(&rt, alloc, lines.as_slice(), 0);
    expect(&rt, found, "ok\nline too long\n", Status::Done, "one more");
    // the line that is written may fail
    let library = library_of(alloc, Vec::new(alloc));
    let source = input_of(alloc, lines.as_slice(), Vec::new(alloc));
    let mut source = source.expect(&rt, "memory");
    let found = serve(&rt, alloc, library, &mut source, failing(alloc, 1, 4));
    expect(&rt, found, "ok\nline", Status::WriteFault, "a failing line");
}
