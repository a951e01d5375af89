//! Sessions, by what they write and how they end.
use crate::counter::Counter;
use crate::tried::{LIMIT, try_input};
use cu_io::{VecSink, VecSource};
use cu_session::{SessionEnd, serve, sessions_begin};
use std::alloc::{AllocError, Global};
use std::process::Abort;
use std::test::Fail;

/// How many bytes a read takes at most: one, some, and all that there are.
const PIECES: [usize; 3] = [1, 64, usize::MAX];

/// Inputs, how their sessions end, how many lines are asked, and what is
/// written.
const INPUTS: [(&str, SessionEnd, u64, &str); 10] = [
    ("", SessionEnd::EndOfInput, 0, ""),
    ("a\nbc\n", SessionEnd::EndOfInput, 2, "[a]\n[bc]\n"),
    ("a\nbc", SessionEnd::EndOfInput, 2, "[a]\n[bc]\n"),
    ("a\r\nbc\r\n", SessionEnd::EndOfInput, 2, "[a]\n[bc]\n"),
    ("a\nb\r", SessionEnd::EndOfInput, 2, "[a]\n[b\r]\n"),
    (
        "\r\r\n\n\rb\r",
        SessionEnd::EndOfInput,
        3,
        "[\r]\n[]\n[\rb\r]\n",
    ),
    ("\n\n\r", SessionEnd::EndOfInput, 3, "[]\n[]\n[\r]\n"),
    ("-\na\n", SessionEnd::EndOfInput, 2, "[a]\n"),
    ("a\nquit\nb\n", SessionEnd::Quit, 2, "[a]\nbye\n"),
    ("quit", SessionEnd::Quit, 1, "bye\n"),
];

/// Expects the same session however the input is cut into reads.
fn expect_input<R: Abort + AllocGlobal>(
    rt: &R,
    input: &str,
    end: SessionEnd,
    asked: u64,
    written: &str,
) {
    for piece in &PIECES {
        let tried = try_input(rt.alloc(), input.as_bytes(), *piece).expect(rt, "memory");
        assert!(rt; tried.end == end, "{input}");
        assert!(rt; tried.asked == asked, "{input}");
        assert!(rt; tried.bytes.as_slice() == written.as_bytes(), "{input}");
    }
}

#[test]
fn lines_and_ends(rt: HostRuntime) {
    for (input, end, asked, written) in &INPUTS {
        expect_input(&rt, input, *end, *asked, written);
    }
}

/// Lines of so many bytes with this after them, how the session ends, and how
/// many lines are asked.
const LONG: [(usize, &str, SessionEnd, u64); 6] = [
    (LIMIT, "\nc", SessionEnd::EndOfInput, 3),
    (LIMIT, "", SessionEnd::EndOfInput, 2),
    (LIMIT - 1, "\r\nc", SessionEnd::EndOfInput, 3),
    (LIMIT, "\r\nc", SessionEnd::LineTooLong, 1),
    (LIMIT + 1, "\nc", SessionEnd::LineTooLong, 1),
    (LIMIT + 1, "", SessionEnd::LineTooLong, 1),
];

/// A short line, a line of so many bytes, and this after it.
fn long(alloc: Global, length: usize, end: &str) -> Result<Vec<u8>, AllocError> {
    let mut input = Vec::with_capacity(alloc, LIMIT + 100)?;
    input.extend_from_slice(b"a\n")?;
    for _ in 0..length {
        input.push(98)?;
    }
    input.extend_from_slice(end.as_bytes())?;
    Ok(input)
}

#[test]
fn lines_at_the_limit(rt: HostRuntime) {
    for (length, after, end, asked) in &LONG {
        let input = long(rt.alloc(), *length, after).expect(&rt, "memory");
        let tried = try_input(rt.alloc(), input.as_slice(), 8192).expect(&rt, "memory");
        assert!(rt; tried.end == *end, "{length}");
        assert!(rt; tried.asked == *asked, "{length}");
    }
}

/// Inputs, the digit at which the asker breaks off, how the session ends, what
/// is written, and how many faults the asker counted.
const COUNTED: [(&str, u8, SessionEnd, &str, u64); 4] = [
    ("a\n\nb", 57, SessionEnd::EndOfInput, "0\n1\n2\n", 0),
    ("a\nq\nb\n", 57, SessionEnd::Quit, "0\n", 0),
    ("a\nb\nc\n", 50, SessionEnd::Quit, "0\n1\n", 1),
    ("a\n", 48, SessionEnd::Quit, "", 1),
];

/// How a session over an asker that counts ends, what is written, and how many
/// faults the asker counted.
fn count_over(
    alloc: Global,
    input: &str,
    breaks_at: u8,
) -> Result<(SessionEnd, Vec<u8>, u64), AllocError> {
    let mut source = VecSource::new(Vec::from_slice(alloc, input.as_bytes())?, Vec::new(alloc));
    let mut sink = VecSink::new(alloc, 100, Vec::new(alloc))?;
    let mut asker = Counter {
        digit: 48,
        breaks_at,
        faults: 0,
    };
    let end = serve(alloc, &mut source, &mut sink, &mut asker)?;
    let bytes = Vec::from_slice(alloc, sink.bytes())?;
    Ok((end, bytes, asker.faults))
}

#[test]
fn an_asker_tells_its_state_or_breaks_off(rt: HostRuntime) -> Result<(), Fail> {
    sessions_begin::<Counter>();
    for (input, breaks_at, end, written, faults) in &COUNTED {
        let (ended, bytes, counted) = count_over(rt.alloc(), input, *breaks_at)?;
        assert_eq!(rt; ended, *end, "{input}");
        assert!(rt; bytes.as_slice() == written.as_bytes(), "{input}");
        assert_eq!(rt; counted, *faults, "{input}");
    }
    Ok(())
}
