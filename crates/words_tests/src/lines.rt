//! The lines of a session, row by row from both sides.
use cu_machine::{Limits, SearchLimits};
use cu_words::{Request, Setting, default_limits, read_line};

/// A line, and what it asks for.
type Case = (&'static str, Request<'static>);

const REQUESTS: [Case; 16] = [
    ("load M", Request::Load("M")),
    ("load Data.List", Request::Load("Data.List")),
    ("load a.b'.C_9", Request::Load("a.b'.C_9")),
    ("load load", Request::Load("load")),
    ("ask coin", Request::Ask(b"coin")),
    ("ask 1 + 2", Request::Ask(b"1 + 2")),
    ("ask ", Request::Ask(b"")),
    ("ask  x", Request::Ask(b" x")),
    ("ask x ", Request::Ask(b"x ")),
    ("ask quit", Request::Ask(b"quit")),
    ("ask -", Request::Ask(b"-")),
    ("ask \u{e4}", Request::Ask(b"\xc3\xa4")),
    ("ask x\r", Request::Ask(b"x\r")),
    ("ask \0", Request::Ask(b"\0")),
    ("next", Request::Next),
    ("quit", Request::Quit),
];

const SETTINGS: [(&str, Setting); 19] = [
    ("limits rounds 1", Setting::Rounds(1)),
    ("limits rounds 1000000000", Setting::Rounds(1_000_000_000)),
    ("limits rounds 0000000000000000007", Setting::Rounds(7)),
    ("limits answers 1", Setting::Answers(Some(1))),
    (
        "limits answers 1000000000",
        Setting::Answers(Some(1_000_000_000)),
    ),
    ("limits answers none", Setting::Answers(None)),
    ("limits nodes 1", Setting::Nodes(1)),
    ("limits nodes 16777216", Setting::Nodes(16_777_216)),
    ("limits width 1", Setting::Width(1)),
    ("limits width 1048576", Setting::Width(1_048_576)),
    ("limits width 065536", Setting::Width(65_536)),
    ("limits stride 1", Setting::Stride(1)),
    ("limits stride 1000000", Setting::Stride(1_000_000)),
    ("limits workers 1", Setting::Workers(1)),
    ("limits workers 64", Setting::Workers(64)),
    ("limits workers 0000000000000000064", Setting::Workers(64)),
    ("limits rounds 999999999", Setting::Rounds(999_999_999)),
    ("limits nodes 0000000000000000001", Setting::Nodes(1)),
    ("limits stride 10", Setting::Stride(10)),
];

/// Lines that ask for nothing that a session knows.
const UNKNOWN: [&str; 66] = [
    "",
    " ",
    "load",
    "load ",
    "load M ",
    "load  M",
    " load M",
    "load M N",
    "load 1M",
    "load .M",
    "load M.",
    "load A..B",
    "load _a",
    "load A-b",
    "load M\r",
    "load \u{c4}",
    "load\tM",
    "loadM",
    "Load M",
    "load=M",
    "ask",
    "askcoin",
    "ask\tcoin",
    "Ask coin",
    " ask coin",
    "Next",
    "NEXT",
    "next ",
    " next",
    "next 1",
    "nex",
    "nextt",
    "next\r",
    "Quit",
    "quit ",
    "quit 0",
    "quits",
    "limits",
    "limits ",
    "limits width",
    "limits width ",
    "limits width 0",
    "limits width 1048577",
    "limits width 1 ",
    "limits width  1",
    "limits  width 1",
    "limits width 1 1",
    "limits width +1",
    "limits width -1",
    "limits width=1",
    "limits width 1_0",
    "limits width one",
    "limits width none",
    "limits Width 1",
    "limits rounds 0",
    "limits rounds 1000000001",
    "limits rounds none",
    "limits rounds 00000000000000000001",
    "limits answers 0",
    "limits answers 1000000001",
    "limits answers None",
    "limits nodes 16777217",
    "limits stride 1000001",
    "limits workers 65",
    "limits depth 1",
    "limit width 1",
];

/// Numbers that would be in the range if they lost their upper bits.
const LONG: [&str; 5] = [
    "limits workers 4294967297",
    "limits nodes 4294967297",
    "limits width 9999999999999999999",
    "limits rounds 18446744073709551617",
    "limits answers 99999999999999999999",
];

#[test]
fn lines_are_read(rt: HostRuntime) {
    for case in &REQUESTS {
        assert!(rt; read_line(case.0.as_bytes()) == case.1, "{}", case.0);
    }
    for case in &SETTINGS {
        let read = read_line(case.0.as_bytes());
        assert!(rt; read == Request::Limit(case.1), "{}", case.0);
    }
}

#[test]
fn other_lines_are_unknown(rt: HostRuntime) {
    for line in &UNKNOWN {
        assert!(rt; read_line(line.as_bytes()) == Request::Unknown, "{line}");
    }
    for line in &LONG {
        assert!(rt; read_line(line.as_bytes()) == Request::Unknown, "{line}");
    }
}

/// Lines with bytes that are no text.
#[test]
fn bytes_are_read(rt: HostRuntime) {
    assert!(rt; read_line(b"ask \xff") == Request::Ask(b"\xff"));
    assert!(rt; read_line(b"load \xff") == Request::Unknown);
    assert!(rt; read_line(b"load M\xc3") == Request::Unknown);
    assert!(rt; read_line(b"limits width 1\xff") == Request::Unknown);
    assert!(rt; read_line(b"limits \xff 1") == Request::Unknown);
    assert!(rt; read_line(b"\xff") == Request::Unknown);
}

/// The limits that these numbers are.
fn limits(rounds: u64, answers: Option<u64>, nodes: u32, width: u32, stride: u64) -> SearchLimits {
    SearchLimits {
        rounds,
        answers,
        stride,
        step: Limits { nodes, width },
    }
}

#[test]
fn settings_are_applied(rt: HostRuntime) {
    let before = default_limits();
    assert!(rt; before == limits(100_000, None, 1_000_000, 65_536, 1));
    let rounds = Setting::Rounds(9).apply(before);
    assert!(rt; rounds == limits(9, None, 1_000_000, 65_536, 1));
    let answers = Setting::Answers(Some(8)).apply(rounds);
    assert!(rt; answers == limits(9, Some(8), 1_000_000, 65_536, 1));
    let nodes = Setting::Nodes(7).apply(answers);
    assert!(rt; nodes == limits(9, Some(8), 7, 65_536, 1));
    let width = Setting::Width(6).apply(nodes);
    assert!(rt; width == limits(9, Some(8), 7, 6, 1));
    let stride = Setting::Stride(5).apply(width);
    assert!(rt; stride == limits(9, Some(8), 7, 6, 5));
    assert!(rt; Setting::Workers(4).apply(stride) == stride);
    let none = Setting::Answers(None).apply(stride);
    assert!(rt; none == limits(9, None, 7, 6, 5));
}
