//! Sessions whose reads and writes fail.
use crate::slow::Slow;
use crate::tried::{Tried, try_source};
use cu_io::VecSource;
use cu_session::SessionEnd;
use std::alloc::{AllocError, Global};

/// Inputs that come in pieces of so many bytes, the number of the read that
/// fails, how the session ends, and what is written.
const READS: [(&str, usize, u64, SessionEnd, &str); 4] = [
    ("ab\n", 1, 2, SessionEnd::ReadFault, ""),
    ("ab\nc\n", 1, 3, SessionEnd::ReadFault, "[ab]\n"),
    ("a\nb\nc", 4, 1, SessionEnd::ReadFault, "[a]\n[b]\n"),
    ("quit\nb", 5, 1, SessionEnd::Quit, "bye\n"),
];

/// Inputs, the number of the write that fails, after how many bytes, and what
/// is written.
const WRITES: [(&str, u64, usize, &str); 3] = [
    ("a\nb\n", 1, 2, "[a]\n[b"),
    ("-\na\n", 0, 0, ""),
    ("quit\n", 0, 1, "b"),
];

/// A session of which a read fails.
fn failing_read(alloc: Global, input: &str, piece: usize, read: u64) -> Result<Tried, AllocError> {
    let mut reads = Vec::new(alloc);
    reads.push(read)?;
    let source = VecSource::new(Vec::from_slice(alloc, input.as_bytes())?, reads);
    try_source(alloc, &mut Slow { source, piece }, Vec::new(alloc))
}

/// A session of which a write fails, after so many bytes.
fn failing_write(
    alloc: Global,
    input: &str,
    write: u64,
    taken: usize,
) -> Result<Tried, AllocError> {
    let mut writes = Vec::new(alloc);
    writes.push((write, taken))?;
    let mut source = VecSource::new(Vec::from_slice(alloc, input.as_bytes())?, Vec::new(alloc));
    try_source(alloc, &mut source, writes)
}

#[test]
fn reads_fail(rt: HostRuntime) {
    for (input, piece, read, end, written) in &READS {
        let tried = failing_read(rt.alloc(), input, *piece, *read).expect(&rt, "memory");
        assert!(rt; tried.end == *end, "{input}");
        assert!(rt; tried.bytes.as_slice() == written.as_bytes(), "{input}");
    }
}

#[test]
fn writes_fail_in_whole_replies(rt: HostRuntime) {
    for (input, write, taken, written) in &WRITES {
        let tried = failing_write(rt.alloc(), input, *write, *taken).expect(&rt, "memory");
        assert!(rt; tried.end == SessionEnd::WriteFault, "{input}");
        assert!(rt; tried.bytes.as_slice() == written.as_bytes(), "{input}");
    }
}
