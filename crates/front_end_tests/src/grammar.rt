//! Modules and goals, worked out by hand.
pub(crate) mod modules;
mod productions;

use crate::tokens::tokens_of;
use cu_layout::block;
use cu_lex::Token;
use cu_syntax::{ParseFault, one_reading, parse_goal, parse_module};
use modules::{GOALS, PERM, PRELUDE, QUEENS, SET_FUNCTIONS};
use productions::{
    ARGUMENTS, ATOMS, BLOCKS, CASES, DATA_TYPES, EXPRESSIONS, HEADERS, IMPORTS, ITEMS, LISTS,
    PATTERNS, Production, RULES, SIGNATURES, WHOLE_GOALS,
};
use std::alloc::{AllocError, Global};
use std::process::Abort;

const SYNTAX: Option<ParseFault> = Some(ParseFault::Syntax(1));

const LONG: Option<ParseFault> = Some(ParseFault::TooLong(1));

/// What a text is read as.
#[derive(Clone, Copy)]
enum Start {
    Module,
    Goal,
}

/// The tokens of a text with its layout, if it has some.
fn laid(alloc: Global, start: Start, text: &str) -> Option<Vec<Token>> {
    let tokens = tokens_of(alloc, text.as_bytes()).ok()?;
    block(alloc, tokens, matches!(start, Start::Module)).ok()
}

fn tokens_fault(alloc: Global, start: Start, tokens: &[Token]) -> Option<ParseFault> {
    match start {
        Start::Module => parse_module(alloc, tokens).err(),
        Start::Goal => parse_goal(alloc, tokens).err(),
    }
}

/// Why a text is no module or goal, or nothing. A text without tokens or
/// layout gives `NoMemory`.
fn text_fault(alloc: Global, start: Start, text: &str) -> Option<ParseFault> {
    match laid(alloc, start, text) {
        Some(tokens) => tokens_fault(alloc, start, tokens.as_slice()),
        None => Some(ParseFault::NoMemory),
    }
}

fn expect_fault<R: Abort>(
    rt: &R,
    found: Option<ParseFault>,
    expected: Option<ParseFault>,
    text: &str,
) {
    assert_eq!(rt; found, expected, "{text}");
}

fn expect<R: Abort>(rt: &R, alloc: Global, start: Start, text: &str, expected: Option<ParseFault>) {
    expect_fault(rt, text_fault(alloc, start, text), expected, text);
}

fn expect_all<R: Abort>(
    rt: &R,
    alloc: Global,
    start: Start,
    texts: &[&str],
    expected: Option<ParseFault>,
) {
    for text in texts {
        expect(rt, alloc, start, text, expected);
    }
}

/// Each production accepts its texts, and refuses the others at line 1.
fn expect_productions<R: Abort>(rt: &R, alloc: Global, start: Start, productions: &[Production]) {
    for production in productions {
        expect_all(rt, alloc, start, production.accepted, None);
        expect_all(rt, alloc, start, production.refused, SYNTAX);
    }
}

fn headers<R: Abort>(rt: &R, alloc: Global) {
    expect_productions(rt, alloc, Start::Module, &HEADERS);
}

fn imports<R: Abort>(rt: &R, alloc: Global) {
    expect_productions(rt, alloc, Start::Module, &IMPORTS);
}

fn items<R: Abort>(rt: &R, alloc: Global) {
    expect_productions(rt, alloc, Start::Module, &ITEMS);
}

fn data_types<R: Abort>(rt: &R, alloc: Global) {
    expect_productions(rt, alloc, Start::Module, &DATA_TYPES);
}

fn signatures<R: Abort>(rt: &R, alloc: Global) {
    expect_productions(rt, alloc, Start::Module, &SIGNATURES);
}

fn rules<R: Abort>(rt: &R, alloc: Global) {
    expect_productions(rt, alloc, Start::Module, &RULES);
}

fn blocks<R: Abort>(rt: &R, alloc: Global) {
    expect_productions(rt, alloc, Start::Module, &BLOCKS);
}

fn expressions<R: Abort>(rt: &R, alloc: Global) {
    expect_productions(rt, alloc, Start::Goal, &EXPRESSIONS);
}

fn cases<R: Abort>(rt: &R, alloc: Global) {
    expect_productions(rt, alloc, Start::Goal, &CASES);
}

fn atoms<R: Abort>(rt: &R, alloc: Global) {
    expect_productions(rt, alloc, Start::Goal, &ATOMS);
}

fn lists<R: Abort>(rt: &R, alloc: Global) {
    expect_productions(rt, alloc, Start::Goal, &LISTS);
}

fn patterns<R: Abort>(rt: &R, alloc: Global) {
    expect_productions(rt, alloc, Start::Goal, &PATTERNS);
}

fn arguments<R: Abort>(rt: &R, alloc: Global) {
    expect_productions(rt, alloc, Start::Goal, &ARGUMENTS);
}

fn whole_goals<R: Abort>(rt: &R, alloc: Global) {
    expect_productions(rt, alloc, Start::Goal, &WHOLE_GOALS);
}

#[test]
fn productions_of_modules(rt: HostRuntime) {
    let alloc = rt.alloc();
    headers(&rt, alloc);
    imports(&rt, alloc);
    items(&rt, alloc);
    data_types(&rt, alloc);
    signatures(&rt, alloc);
    rules(&rt, alloc);
    blocks(&rt, alloc);
}

#[test]
fn productions_of_goals(rt: HostRuntime) {
    let alloc = rt.alloc();
    expressions(&rt, alloc);
    cases(&rt, alloc);
    atoms(&rt, alloc);
    lists(&rt, alloc);
    patterns(&rt, alloc);
    arguments(&rt, alloc);
    whole_goals(&rt, alloc);
}

/// Modules with a fault, and its line.
const LINES: [(&str, u32); 15] = [
    ("module M where\nf x = (x", 2),
    ("x = 1\n\ny = = 2\nz = (", 3),
    ("module M where\nx = 1\ny =\n  (", 3),
    ("x = 1\nimport A", 2),
    ("import A\nx = 1\nimport B", 3),
    ("import A\nx = (\nimport B", 2),
    ("module M where { x = 1 } y", 1),
    ("module M where {\nx = 1\n}\n\ny = 2", 5),
    ("module M where {\nx = 1\n}\n;", 4),
    ("module M where {", 1),
    ("module M where { x = 1", 1),
    ("module M where {\nx = 1;\n", 2),
    ("module M where {\n;\n;x = {\n}", 3),
    ("x = 1\n}", 2),
    ("x = 1\n(y, z) = w", 2),
];

#[test]
fn lines_of_faults(rt: HostRuntime) {
    let alloc = rt.alloc();
    for (text, line) in &LINES {
        expect(
            &rt,
            alloc,
            Start::Module,
            text,
            Some(ParseFault::Syntax(*line)),
        );
    }
}

/// Modules with empty parts and braces inside their items.
const PARTS: [&str; 5] = [
    "module M where { ; x = 1 ; ; y = 2 ; }",
    "module M where { }",
    "x = 1\n\n\ny = 2\n",
    "f = case x of { A -> let { y = 1 ; z = 2 } in y ; B -> 1 }\ng = 1",
    "module M where { f = x where { x = 1; y = 2 }; g = 1 }",
];

#[test]
fn whole_texts(rt: HostRuntime) {
    let alloc = rt.alloc();
    one_reading();
    expect_all(&rt, alloc, Start::Module, &PARTS, None);
    expect_all(&rt, alloc, Start::Module, &[QUEENS, PERM], None);
    expect_all(&rt, alloc, Start::Module, &[PRELUDE, SET_FUNCTIONS], None);
    expect_all(&rt, alloc, Start::Goal, &GOALS, None);
}

#[test]
fn no_tokens(rt: HostRuntime) {
    let alloc = rt.alloc();
    let goal = tokens_fault(alloc, Start::Goal, &[]);
    expect_fault(&rt, goal, SYNTAX, "a goal");
    let module = tokens_fault(alloc, Start::Module, &[]);
    expect_fault(&rt, module, SYNTAX, "a module");
}

/// A text in which a piece is repeated, between a beginning and an end.
pub(crate) fn repeated(
    alloc: Global,
    parts: [&str; 3],
    count: usize,
) -> Result<String, AllocError> {
    let [prefix, piece, end] = parts;
    let mut text = String::from_str(alloc, prefix)?;
    for _ in 0..count {
        text.push_str(piece)?;
    }
    text.push_str(end)?;
    Ok(text)
}

fn expect_repeated<R: Abort>(
    rt: &R,
    alloc: Global,
    start: Start,
    parts: [&str; 3],
    count: usize,
    expected: Option<ParseFault>,
) {
    match repeated(alloc, parts, count) {
        Ok(text) => expect(rt, alloc, start, text.as_str(), expected),
        Err(error) => panic!(rt; "{error}"),
    }
}

/// So many pieces are right, and with one more there is this fault.
fn expect_most<R: Abort>(
    rt: &R,
    alloc: Global,
    start: Start,
    parts: [&str; 3],
    count: usize,
    fault: Option<ParseFault>,
) {
    expect_repeated(rt, alloc, start, parts, count, None);
    expect_repeated(rt, alloc, start, parts, count.saturating_add(1), fault);
}

/// Tuples have 15 components at most.
fn tuples<R: Abort>(rt: &R, alloc: Global) {
    let types = ["f :: (a", ",a", ")"];
    let patterns = ["\\(x", ",_", ") -> x"];
    expect_most(rt, alloc, Start::Module, types, 14, SYNTAX);
    expect_most(rt, alloc, Start::Goal, patterns, 14, SYNTAX);
    expect_most(rt, alloc, Start::Goal, ["(x", ",x", ")"], 14, SYNTAX);
    expect_most(rt, alloc, Start::Goal, ["(,", ",", ")"], 13, SYNTAX);
}

/// Items and goals have 4,096 tokens at most, those of the layout among them.
fn lengths<R: Abort>(rt: &R, alloc: Global) {
    let block = ["f = x where y = x", " x", ""];
    expect_most(rt, alloc, Start::Module, ["f = x", " x", ""], 4093, LONG);
    expect_most(rt, alloc, Start::Module, block, 4087, LONG);
    expect_most(rt, alloc, Start::Goal, ["x", " x", ""], 4095, LONG);
}

/// Each character of a string is one more.
fn strings<R: Abort>(rt: &R, alloc: Global) {
    let later = Some(ParseFault::TooLong(3));
    let between = ["g = 1\n\nf = \"", "a", "\"\nh = 1"];
    let nothing = ["f = \"\\&", "a", "\\&\""];
    expect_most(rt, alloc, Start::Module, ["f = \"", "a", "\""], 4093, LONG);
    expect_most(rt, alloc, Start::Module, nothing, 4093, LONG);
    expect_most(rt, alloc, Start::Module, between, 4093, later);
    expect_most(rt, alloc, Start::Goal, ["\"", "a", "\""], 4095, LONG);
}

/// Length comes before grammar, and an earlier item before a later one.
fn first_faults<R: Abort>(rt: &R, alloc: Global) {
    let second = Some(ParseFault::Syntax(2));
    let late = Some(ParseFault::TooLong(2));
    let open = ["f = (", " x", ""];
    let earlier = ["x = )\nf = \"", "a", "\""];
    let first = ["module M\nwhere (\nf = \"", "a", "\""];
    let after = ["module M where {\ng = 1 } f = \"", "a", "\""];
    expect_repeated(rt, alloc, Start::Module, open, 4093, SYNTAX);
    expect_repeated(rt, alloc, Start::Module, open, 4094, LONG);
    expect_repeated(rt, alloc, Start::Module, earlier, 4094, SYNTAX);
    expect_repeated(rt, alloc, Start::Module, first, 4094, second);
    expect_repeated(rt, alloc, Start::Module, after, 4093, second);
    expect_repeated(rt, alloc, Start::Module, after, 4094, late);
}

#[test]
fn repeated_pieces(rt: HostRuntime) {
    let alloc = rt.alloc();
    tuples(&rt, alloc);
    lengths(&rt, alloc);
    strings(&rt, alloc);
    first_faults(&rt, alloc);
}
