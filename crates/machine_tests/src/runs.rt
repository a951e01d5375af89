//! Runs of programs: paths from the start of a search, and what stands at
//! their end, as a line of text.
ghost use Rattle.std.specs.Prelude.{◌≡◌, ◌<◌, IfOk, IfSome, IsTrue, Some, length, slice_get};
ghost use Rattle.std.specs.List.{All};
ghost use Rattle.cu_calculus.specs.Code.{body_of, is_rule};
ghost use Rattle.cu_machine.specs.Validity.{IsValid};
ghost use Rattle.cu_step.specs.Outcome.{branches_of, state_of};

use cu_flat::{FlatBody, FlatProgram, FunId, Head, Lit, Mode, Prim};
use cu_graph::{Kind, PlainStore, Store};
use cu_sets::{advance, run};
use cu_step::{Branch, Limits, Outcome, Reading, SearchLimits, Stop, Waited, start};
use cu_values::{Cell, Value};
use std::alloc::{AllocError, Global};
use std::process::Abort;
use std::slice;

/// The most nodes, where the limit isn't what is tried.
pub(crate) const NODES: u32 = 1000;

/// The steps of a long round.
const STRIDE: u64 = 1000;

/// The branch of a number among those that go on.
fn chosen(outcome: Outcome<PlainStore>, choice: usize) -> Option<Branch<PlainStore>>
    ensures { IfSome result (λ branch. slice_get (branches_of outcome) choice ≡ Some branch) }
{
    match outcome {
        Outcome::On(branch) if choice == 0 => Some(branch),
        Outcome::Go(branches) => {
            let mut branches = branches;
            if choice < branches.len() {
                Some(branches.swap_remove(choice))
            } else {
                None
            }
        }
        _ => None,
    }
}

/// What becomes of a branch in so many steps as a round takes.
fn outcome_after(
    alloc: Global,
    program: &FlatProgram,
    branch: Branch<PlainStore>,
    limits: &SearchLimits,
) -> Result<Outcome<PlainStore>, AllocError>
    requires { IsValid program.now (state_of (λ store. store) branch) }
    ensures { IfOk result
        (λ outcome. All (λ branch. IsValid program.now (state_of (λ store. store) branch))
        (branches_of outcome)) }
{
    if limits.stride == 1 {
        advance(alloc, program, branch, &limits.step)
    } else {
        run(alloc, program, branch, &limits.step, limits.stride)
    }
}

/// What becomes of the branch at the end of a path from the start, which says
/// by a digit which branch is taken in each round.
fn outcome_at(
    alloc: Global,
    program: &FlatProgram,
    goal: FunId,
    path: &[u8],
    limits: &SearchLimits,
) -> Result<Outcome<PlainStore>, AllocError>
    requires goal { IsTrue (is_rule (body_of program.now goal)) }
{
    let mut branch = start::<PlainStore>(alloc, program, goal)?;
    for digit in path {
        let outcome = outcome_after(alloc, program, branch, limits)?;
        match chosen(outcome, usize::from(digit.wrapping_sub(b'0'))) {
            Some(next) => branch = next,
            None => return Err(AllocError),
        }
    }
    outcome_after(alloc, program, branch, limits)
}

/// What becomes of the branch at the end of a path from the start, where the
/// goal has a rule.
fn outcome_of(
    alloc: Global,
    program: &FlatProgram,
    goal: usize,
    path: &[u8],
    limits: &SearchLimits,
) -> Result<Outcome<PlainStore>, AllocError> {
    match program.body(FunId(goal)) {
        Some(FlatBody::Rule(_, _)) => outcome_at(alloc, program, FunId(goal), path, limits),
        _ => Err(AllocError),
    }
}

/// The name of a head: a constructor's as the programs have it, and a
/// function's number.
fn head_text(alloc: Global, head: Head) -> Result<String, AllocError> {
    match head {
        Head::Con(c) => match c.0 {
            0 => format!(in alloc; "False"),
            1 => format!(in alloc; "True"),
            2 => format!(in alloc; "[]"),
            n => format!(in alloc; "con{n}"),
        },
        Head::Fun(f) => format!(in alloc; "f{}", f.0),
        Head::Set(f) => format!(in alloc; "set{}", f.0),
    }
}

fn literal_text(alloc: Global, literal: Lit) -> Result<String, AllocError> {
    match literal {
        Lit::Int(n) => format!(in alloc; "{n}"),
        Lit::Char(c) => format!(in alloc; "'{c}'"),
    }
}

/// The sign of an operation, as far as one is left over in a graph that is
/// shown.
fn sign(operation: Prim) -> &'static str {
    match operation {
        Prim::Add => "+",
        Prim::Equal => "==",
        Prim::Unify => "=:=",
        Prim::And => "&",
        _ => "operation",
    }
}

/// What a node is, without its arguments.
fn kind_text(alloc: Global, kind: Kind) -> Result<String, AllocError> {
    match kind {
        Kind::Cons(c) if c.0 == 3 => format!(in alloc; ":"),
        Kind::Cons(c) => head_text(alloc, Head::Con(c)),
        Kind::Lit(literal) => literal_text(alloc, literal),
        Kind::Part(head) => {
            let head = head_text(alloc, head)?;
            format!(in alloc; "part {head}")
        }
        Kind::Free => format!(in alloc; "free"),
        Kind::Call(f) => head_text(alloc, Head::Fun(f)),
        Kind::Prim(operation) => format!(in alloc; "{}", sign(operation)),
        Kind::Apply => format!(in alloc; "apply"),
        Kind::Case(Mode::Flex, e) => format!(in alloc; "fcase{e}"),
        Kind::Case(Mode::Rigid, e) => format!(in alloc; "case{e}"),
        Kind::Or => format!(in alloc; "?"),
        Kind::Ind => format!(in alloc; "->"),
        Kind::SetCall(f) => head_text(alloc, Head::Set(f)),
        Kind::Fail => format!(in alloc; "fail"),
        Kind::Stuck => format!(in alloc; "stuck"),
    }
}

/// A node: what it is, and the numbers of its arguments.
fn node_text(alloc: Global, store: &PlainStore, id: u32) -> Result<String, AllocError>
    requires { id < length store.now }
{
    let mut text = kind_text(alloc, store.kind(id))?;
    for i in 0..store.arity(id) {
        let arg = format!(in alloc; " {}", store.arg(id, i))?;
        text.push_str(arg.as_str())?;
    }
    Ok(text)
}

/// The nodes of a graph in their order.
fn graph_text(alloc: Global, store: &PlainStore) -> Result<String, AllocError> {
    let mut text = String::new(alloc);
    for id in 0..store.len() {
        if id > 0 {
            text.push_str(" | ")?;
        }
        let node = node_text(alloc, store, id)?;
        text.push_str(node.as_str())?;
    }
    Ok(text)
}

/// The graphs of branches from left to right.
fn branches_text(alloc: Global, branches: &[Branch<PlainStore>]) -> Result<String, AllocError> {
    let mut text = String::new(alloc);
    for branch in branches {
        if !text.is_empty() {
            text.push_str(" // ")?;
        }
        let graph = graph_text(alloc, branch.store())?;
        text.push_str(graph.as_str())?;
    }
    Ok(text)
}

fn cell_text(alloc: Global, cell: &Cell) -> Result<String, AllocError> {
    match cell {
        Cell::Con(c, _) => kind_text(alloc, Kind::Cons(*c)),
        Cell::Part(head, _) => kind_text(alloc, Kind::Part(*head)),
        Cell::Lit(literal) => literal_text(alloc, *literal),
        Cell::LVar(x) => format!(in alloc; "_{x}"),
        _ => format!(in alloc; "bottom"),
    }
}

/// The cells of a value, in prefix order.
fn value_text(alloc: Global, value: &Value) -> Result<String, AllocError> {
    let mut text = String::new(alloc);
    for cell in value.cells() {
        if !text.is_empty() {
            text.push_str(" ")?;
        }
        let cell = cell_text(alloc, cell)?;
        text.push_str(cell.as_str())?;
    }
    Ok(text)
}

/// The bindings of an answer, and its value.
fn reading_text(alloc: Global, reading: &Reading) -> Result<String, AllocError> {
    let mut text = format!(in alloc; "answer")?;
    for binding in &reading.bindings {
        let binding = value_text(alloc, binding)?;
        let binding = format!(in alloc; " {{{binding}}}")?;
        text.push_str(binding.as_str())?;
    }
    let value = value_text(alloc, &reading.value)?;
    let value = format!(in alloc; " {value}")?;
    text.push_str(value.as_str())?;
    Ok(text)
}

/// The names of what a branch waits for: goal variables from 0 on, and others.
fn waited_text(alloc: Global, names: &[Waited]) -> Result<String, AllocError> {
    let mut text = format!(in alloc; "waits")?;
    for name in names {
        let name = match name {
            Waited::Named(place) => format!(in alloc; " goal{place}")?,
            Waited::Other(number) => format!(in alloc; " _{number}")?,
        };
        text.push_str(name.as_str())?;
    }
    Ok(text)
}

fn stop_text(alloc: Global, stop: Stop) -> Result<String, AllocError> {
    match stop {
        Stop::Overflow(_, m, n) => format!(in alloc; "overflow {m} {n}"),
        Stop::TooLarge(count) => format!(in alloc; "too large: {count}"),
        Stop::TooWide(count) => format!(in alloc; "too wide: {count}"),
    }
}

/// What an outcome is.
fn outcome_text(alloc: Global, outcome: &Outcome<PlainStore>) -> Result<String, AllocError> {
    match outcome {
        Outcome::On(branch) => branches_text(alloc, slice::from_ref(branch)),
        Outcome::Go(branches) => branches_text(alloc, branches.as_slice()),
        Outcome::Answer(reading) => reading_text(alloc, reading),
        Outcome::Fail => format!(in alloc; "fails"),
        Outcome::Wait(names) => waited_text(alloc, names.as_slice()),
        Outcome::Stop(stop) => stop_text(alloc, *stop),
        Outcome::Inner(_) => format!(in alloc; "inner"),
    }
}

/// Bounds of rounds of so many steps.
fn bounds(stride: u64, nodes: u32, width: u32) -> SearchLimits {
    SearchLimits {
        rounds: 1,
        answers: None,
        stride,
        step: Limits { nodes, width },
    }
}

/// Expects what stands at the end of a path, within bounds.
fn expect_by<R: Abort>(
    rt: &R,
    alloc: Global,
    program: &FlatProgram,
    goal: usize,
    path: &str,
    limits: &SearchLimits,
    expected: &str,
) {
    match outcome_of(alloc, program, goal, path.as_bytes(), limits) {
        Ok(outcome) => {
            let text = outcome_text(alloc, &outcome).expect(rt, "memory");
            assert_eq!(rt; text.as_str(), expected, "f{goal} after {path}");
        }
        Err(_) => panic!(rt; "f{goal} has no way {path}"),
    }
}

/// Expects what stands at the end of a path of single steps, where graphs have
/// so many nodes at most.
pub(crate) fn expect_within<R: Abort>(
    rt: &R,
    alloc: Global,
    program: &FlatProgram,
    goal: usize,
    path: &str,
    nodes: u32,
    expected: &str,
) {
    expect_by(
        rt,
        alloc,
        program,
        goal,
        path,
        &bounds(1, nodes, 1),
        expected,
    );
}

/// Expects what stands at the end of a path of single steps.
pub(crate) fn expect<R: Abort>(
    rt: &R,
    alloc: Global,
    program: &FlatProgram,
    goal: usize,
    path: &str,
    expected: &str,
) {
    expect_within(rt, alloc, program, goal, path, NODES, expected);
}

/// Expects what stands at the end of a path of long rounds, where levels have
/// so many branches at most.
pub(crate) fn expect_run<R: Abort>(
    rt: &R,
    alloc: Global,
    program: &FlatProgram,
    goal: usize,
    path: &str,
    width: u32,
    expected: &str,
) {
    expect_by(
        rt,
        alloc,
        program,
        goal,
        path,
        &bounds(STRIDE, NODES, width),
        expected,
    );
}
