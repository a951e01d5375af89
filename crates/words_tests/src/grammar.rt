//! The grammar of the words, row by row, from both sides.
use cu_machine::SearchLimits;
use cu_words::{Asked, Check, Compile, Solve, Trial, read_words};
use std::alloc::{AllocError, Global};
use std::process::Abort;

/// A line, whose words stand between single spaces, and what it asks for.
#[derive(Clone, Copy)]
struct Case<'a> {
    line: &'a str,
    module: &'a str,
    goal: &'a str,
    folder: &'a str,
    workers: Option<u32>,
    rounds: u64,
    answers: Option<u64>,
    nodes: u32,
    width: u32,
    stride: u64,
}

/// A line that asks for the goal `coin` in the module `M`, and leaves the
/// rest as it is where no option names it.
fn read(line: &str) -> Case<'_> {
    Case {
        line,
        module: "M",
        goal: "coin",
        folder: ".",
        workers: None,
        rounds: 100_000,
        answers: None,
        nodes: 1_000_000,
        width: 65_536,
        stride: 1,
    }
}

impl<'a> Case<'a> {
    fn module(mut self, module: &'a str) -> Case<'a> {
        self.module = module;
        self
    }

    fn goal(mut self, goal: &'a str) -> Case<'a> {
        self.goal = goal;
        self
    }

    fn folder(mut self, folder: &'a str) -> Case<'a> {
        self.folder = folder;
        self
    }

    fn workers(mut self, workers: u32) -> Case<'a> {
        self.workers = Some(workers);
        self
    }

    fn rounds(mut self, rounds: u64) -> Case<'a> {
        self.rounds = rounds;
        self
    }

    fn answers(mut self, answers: u64) -> Case<'a> {
        self.answers = Some(answers);
        self
    }

    fn nodes(mut self, nodes: u32) -> Case<'a> {
        self.nodes = nodes;
        self
    }

    fn width(mut self, width: u32) -> Case<'a> {
        self.width = width;
        self
    }

    fn stride(mut self, stride: u64) -> Case<'a> {
        self.stride = stride;
        self
    }

    /// Expects that the line asks for this.
    fn expect<R: Abort + AllocGlobal>(self, rt: &R) {
        assert!(rt; self.holds(rt.alloc()).ok() == Some(true), "{}", self.line);
    }

    fn holds(&self, alloc: Global) -> Result<bool, AllocError> {
        let words = words_of(alloc, self.line)?;
        match read_words(alloc, &words)? {
            Some(Asked::Solve(solve)) => Ok(self.is(&solve) && self.is_within(&solve.limits)),
            _ => Ok(false),
        }
    }

    fn is(&self, solve: &Solve<'_>) -> bool {
        solve.module == self.module
            && solve.goal == self.goal
            && solve.folder == self.folder
            && solve.workers == self.workers
    }

    fn is_within(&self, limits: &SearchLimits) -> bool {
        limits.rounds == self.rounds
            && limits.answers == self.answers
            && limits.step.nodes == self.nodes
            && limits.step.width == self.width
            && limits.stride == self.stride
    }
}

fn words_of(alloc: Global, line: &str) -> Result<Vec<String>, AllocError> {
    let mut words = Vec::new(alloc);
    for word in line.split(' ') {
        words.push(String::from_str(alloc, word)?)?;
    }
    Ok(words)
}

/// Whether the line asks for nothing.
fn refuses(alloc: Global, line: &str) -> Result<bool, AllocError> {
    let words = words_of(alloc, line)?;
    Ok(read_words(alloc, &words)?.is_none())
}

fn expect_places<R: Abort + AllocGlobal>(rt: &R) {
    read("solve M --goal coin").expect(rt);
    read("solve --goal coin M").expect(rt);
    read("solve M --goal=coin").expect(rt);
    read("solve --dir lib M --goal coin")
        .folder("lib")
        .expect(rt);
    read("solve --workers=2 --goal=coin M --dir=lib")
        .workers(2)
        .folder("lib")
        .expect(rt);
    read("solve --goal coin -- M").expect(rt);
    read("solve M --goal coin --").expect(rt);
    read("solve M --stride 5 --width 6 --nodes 7 --answers 8 --rounds 9 --workers 10 --goal coin")
        .stride(5)
        .width(6)
        .nodes(7)
        .answers(8)
        .rounds(9)
        .workers(10)
        .expect(rt);
}

fn expect_texts<R: Abort + AllocGlobal>(rt: &R) {
    read("solve M --goal -").goal("-").expect(rt);
    read("solve M --goal=-x").goal("-x").expect(rt);
    read("solve M --goal=--dir").goal("--dir").expect(rt);
    read("solve M --goal=").goal("").expect(rt);
    read("solve M --goal ").goal("").expect(rt);
    read("solve M --goal=a==b").goal("a==b").expect(rt);
    read("solve M --goal solve").goal("solve").expect(rt);
    read("solve M --goal coin --dir=").folder("").expect(rt);
}

fn expect_names<R: Abort + AllocGlobal>(rt: &R) {
    read("solve Data.List --goal coin")
        .module("Data.List")
        .expect(rt);
    read("solve a.b'.C_9 --goal coin")
        .module("a.b'.C_9")
        .expect(rt);
    read("solve solve --goal coin").module("solve").expect(rt);
    read("solve help --goal coin").module("help").expect(rt);
}

fn expect_least<R: Abort + AllocGlobal>(rt: &R) {
    read("solve M --goal coin --workers 1")
        .workers(1)
        .expect(rt);
    read("solve M --goal coin --rounds 1").rounds(1).expect(rt);
    read("solve M --goal coin --answers 1")
        .answers(1)
        .expect(rt);
    read("solve M --goal coin --nodes 1").nodes(1).expect(rt);
    read("solve M --goal coin --width 1").width(1).expect(rt);
    read("solve M --goal coin --stride 1").stride(1).expect(rt);
}

fn expect_greatest<R: Abort + AllocGlobal>(rt: &R) {
    read("solve M --goal coin --workers 64")
        .workers(64)
        .expect(rt);
    read("solve M --goal coin --rounds 1000000000")
        .rounds(1_000_000_000)
        .expect(rt);
    read("solve M --goal coin --answers 1000000000")
        .answers(1_000_000_000)
        .expect(rt);
    read("solve M --goal coin --nodes 16777216")
        .nodes(16_777_216)
        .expect(rt);
    read("solve M --goal coin --width 1048576")
        .width(1_048_576)
        .expect(rt);
    read("solve M --goal coin --stride 1000000")
        .stride(1_000_000)
        .expect(rt);
    read("solve M --goal coin --workers 0000000000000000064")
        .workers(64)
        .expect(rt);
}

#[test]
fn words_are_read(rt: HostRuntime) {
    expect_places(&rt);
    expect_texts(&rt);
    expect_names(&rt);
    expect_least(&rt);
    expect_greatest(&rt);
}

/// A line that asks for a trial, and its depth, workers, width and stride.
type TrialCase = (&'static str, u32, Option<u32>, u32, u64);

const TRIALS: [TrialCase; 9] = [
    ("trial 0", 0, None, 65_536, 1),
    ("trial 14", 14, None, 65_536, 1),
    ("trial 007", 7, None, 65_536, 1),
    ("trial 3 --workers 64", 3, Some(64), 65_536, 1),
    ("trial --width=1048576 3", 3, None, 1_048_576, 1),
    ("trial --stride 1000000 -- 3", 3, None, 65_536, 1_000_000),
    ("trial --workers 1 --width 1 3 --stride 1", 3, Some(1), 1, 1),
    ("trial 3 --", 3, None, 65_536, 1),
    ("trial 0000000000000000014", 14, None, 65_536, 1),
];

/// Whether a line asks for this trial.
fn tries(alloc: Global, case: &TrialCase) -> Result<bool, AllocError> {
    let words = words_of(alloc, case.0)?;
    match read_words(alloc, &words)? {
        Some(Asked::Trial(trial)) => Ok(is_trial(&trial, case)),
        _ => Ok(false),
    }
}

fn is_trial(trial: &Trial, case: &TrialCase) -> bool {
    trial.depth == case.1
        && trial.workers == case.2
        && trial.width == case.3
        && trial.stride == case.4
}

#[test]
fn trials_are_read(rt: HostRuntime) {
    for case in &TRIALS {
        assert!(rt; tries(rt.alloc(), case).ok() == Some(true), "{}", case.0);
    }
}

/// Lines that ask for no trial.
const NO_TRIALS: [&str; 20] = [
    "trial",
    "trial 15",
    "trial -1",
    "trial +1",
    "trial --",
    "trial M",
    "trial 1 2",
    "trial ",
    "trial 00000000000000000014",
    "trial 3 --workers 0",
    "trial 3 --workers 65",
    "trial 3 --width 0",
    "trial 3 --width 1048577",
    "trial 3 --stride 0",
    "trial 3 --stride 1000001",
    "trial 3 --stride 1 --stride 1",
    "trial 3 --rounds 1",
    "trial 3 --dir .",
    "trial 3 --goal coin",
    "trials 3",
];

#[test]
fn other_trials_are_refused(rt: HostRuntime) {
    for line in &NO_TRIALS {
        assert!(rt; refuses(rt.alloc(), line).ok() == Some(true), "{line}");
    }
}

/// Lines whose words aren't right: their command, what stands after it, or
/// how often.
const OTHERS: [&str; 50] = [
    "",
    "solve",
    "solve M",
    "solve M coin",
    "solve M --goal",
    "solve --goal coin",
    "solve M N --goal coin",
    "solve M --goal coin N",
    "Solve M --goal coin",
    "solv M --goal coin",
    "trace M --goal coin",
    "M --goal coin",
    "--goal coin solve M",
    "-- solve M --goal coin",
    "solve -- M --goal coin",
    "solve M --goal coin -- N",
    "solve M --goal coin -- --dir",
    "solve M --goal -x",
    "solve M --goal -1",
    "solve M --goal --",
    "solve M --goal --dir lib",
    "solve M --goal coin --dir",
    "solve M --goal coin --dir -lib",
    "solve M --goal coin --goal coin",
    "solve M --goal=coin --goal coin",
    "solve M --goal coin --dir . --dir .",
    "solve M --goal coin --workers 4 --workers=4",
    "solve M --goal coin --rounds 4 --rounds 4",
    "solve M --goal coin --answers 4 --answers 4",
    "solve M --goal coin --nodes 4 --nodes 4",
    "solve M --goal coin --width 4 --width 4",
    "solve M --goal coin --stride 4 --stride 4",
    "solve M --goa coin",
    "solve M --goals coin",
    "solve M --Goal coin",
    "solve M -goal coin",
    "solve M -g coin",
    "solve M ---goal coin",
    "solve M --goal coin --depth 4",
    "solve M --goal coin --=4",
    "solve M --goal coin -",
    "solve M --goal coin --help",
    "solve M --goal coin -h",
    "solve M --goal coin --version",
    "solve --help",
    "--help",
    "-h",
    "help",
    "help solve",
    "--version",
];

/// Lines whose words stand where they should, and one of which isn't right.
const WRONG: [&str; 36] = [
    "solve M --goal coin --workers 0",
    "solve M --goal coin --workers 65",
    "solve M --goal coin --rounds 0",
    "solve M --goal coin --rounds 1000000001",
    "solve M --goal coin --answers 0",
    "solve M --goal coin --answers 1000000001",
    "solve M --goal coin --nodes 0",
    "solve M --goal coin --nodes 16777217",
    "solve M --goal coin --width 0",
    "solve M --goal coin --width 1048577",
    "solve M --goal coin --stride 0",
    "solve M --goal coin --stride 1000001",
    "solve M --goal coin --workers 4294967297",
    "solve M --goal coin --workers 00000000000000000064",
    "solve M --goal coin --rounds 18446744073709551617",
    "solve M --goal coin --rounds=",
    "solve M --goal coin --rounds ",
    "solve M --goal coin --rounds +1",
    "solve M --goal coin --rounds=-1",
    "solve M --goal coin --rounds 1.0",
    "solve M --goal coin --rounds 0x1",
    "solve M --goal coin --rounds 1_000",
    "solve M --goal coin --rounds ten",
    "solve M --goal coin --answers=",
    "solve M --goal coin --answers none",
    "solve M --goal coin --rounds \u{661}",
    "solve  --goal coin",
    "solve 1 --goal coin",
    "solve _a --goal coin",
    "solve . --goal coin",
    "solve .A --goal coin",
    "solve A. --goal coin",
    "solve A..B --goal coin",
    "solve A-b --goal coin",
    "solve \u{c4} --goal coin",
    "solve - --goal coin",
];

#[test]
fn others_are_refused(rt: HostRuntime) {
    for line in &OTHERS {
        assert!(rt; refuses(rt.alloc(), line).ok() == Some(true), "{line}");
    }
    for line in &WRONG {
        assert!(rt; refuses(rt.alloc(), line).ok() == Some(true), "{line}");
    }
    let none = read_words(rt.alloc(), &[]);
    assert!(rt; none.is_ok_and(|found| found.is_none()));
}

/// A line that asks for the text of a module, the module and its folder.
type CompileCase = (&'static str, &'static str, &'static str);

const TEXTS: [CompileCase; 5] = [
    ("compile M", "M", "."),
    ("compile A.B --dir lib", "A.B", "lib"),
    ("compile --dir=-x M", "M", "-x"),
    ("compile -- M", "M", "."),
    ("compile --dir . -- M'", "M'", "."),
];

/// Whether a line asks for the text of this module.
fn compiles(alloc: Global, case: &CompileCase) -> Result<bool, AllocError> {
    let words = words_of(alloc, case.0)?;
    match read_words(alloc, &words)? {
        Some(Asked::Compile(compile)) => Ok(is_compile(&compile, case)),
        _ => Ok(false),
    }
}

fn is_compile(compile: &Compile<'_>, case: &CompileCase) -> bool {
    compile.module == case.1 && compile.folder == case.2
}

#[test]
fn texts_are_read(rt: HostRuntime) {
    for case in &TEXTS {
        assert!(rt; compiles(rt.alloc(), case).ok() == Some(true), "{}", case.0);
    }
}

/// Lines that ask for no text of a module.
const NO_TEXTS: [&str; 9] = [
    "compile",
    "compile M N",
    "compile 1M",
    "compile M --dir",
    "compile M --dir . --dir .",
    "compile M --goal coin",
    "compile M --workers 1",
    "compile --help",
    "compiled M",
];

#[test]
fn other_texts_are_refused(rt: HostRuntime) {
    for line in &NO_TEXTS {
        assert!(rt; refuses(rt.alloc(), line).ok() == Some(true), "{line}");
    }
}

/// A line that asks for a check, and its module, path and folder.
type CheckCase = (&'static str, &'static str, &'static str, &'static str);

const CHECKS: [CheckCase; 9] = [
    ("check M F", "M", "F", "."),
    ("check --dir=D M F", "M", "F", "D"),
    ("check M --dir D F", "M", "F", "D"),
    (
        "check A.B lib/a.proof --dir lib",
        "A.B",
        "lib/a.proof",
        "lib",
    ),
    ("check M -", "M", "-", "."),
    ("check -- M F", "M", "F", "."),
    ("check --dir=-x -- M -f", "M", "-f", "-x"),
    ("check M ", "M", "", "."),
    ("check check check", "check", "check", "."),
];

/// Whether a line asks for this check.
fn checks(alloc: Global, case: &CheckCase) -> Result<bool, AllocError> {
    let words = words_of(alloc, case.0)?;
    match read_words(alloc, &words)? {
        Some(Asked::Check(check)) => Ok(is_check(&check, case)),
        _ => Ok(false),
    }
}

fn is_check(check: &Check<'_>, case: &CheckCase) -> bool {
    check.module == case.1 && check.path == case.2 && check.folder == case.3
}

#[test]
fn checks_are_read(rt: HostRuntime) {
    for case in &CHECKS {
        assert!(rt; checks(rt.alloc(), case).ok() == Some(true), "{}", case.0);
    }
}

/// Whether a line asks for a session.
fn serves(alloc: Global, line: &str) -> Result<bool, AllocError> {
    let words = words_of(alloc, line)?;
    Ok(matches!(read_words(alloc, &words)?, Some(Asked::Session)))
}

#[test]
fn sessions_are_read(rt: HostRuntime) {
    assert!(rt; serves(rt.alloc(), "session").ok() == Some(true));
    assert!(rt; serves(rt.alloc(), "solve session --goal session").ok() == Some(false));
}

/// Lines that ask for neither a check nor a session.
const NEITHER: [&str; 21] = [
    "check",
    "check M",
    "check --dir=D M",
    "check M --",
    "check M F G",
    "check M F -- G",
    "check 1M F",
    "check F/M M",
    "check M -f",
    "check M --file F",
    "check M F --dir",
    "check M F --dir . --dir .",
    "check M F --goal coin",
    "check M F --workers 1",
    "check --help",
    "Check M F",
    "checks M F",
    "session M",
    "session --dir .",
    "session --workers 1",
    "sessions",
];

#[test]
fn neither_is_refused(rt: HostRuntime) {
    for line in &NEITHER {
        assert!(rt; refuses(rt.alloc(), line).ok() == Some(true), "{line}");
    }
}
