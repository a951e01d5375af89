//! What is wrong with types in modules and in a goal. The place of each fault
//! was worked out by hand.
use crate::goals::goal_of;
use crate::modules::{DIR, library_with, text_of};
use cu_declared::{TypeArity, TypeNameFault, declared_types, declared_types_goal};
use cu_modules::{order, scope};
use cu_names::{Names, Place};
use std::alloc::{AllocError, Global};

/// What is said where nothing is wrong.
const RIGHT: &str = "right";

/// Modules that the texts of the tables import, each by its name and its text.
const SHELF: [(&str, &str); 3] = [
    ("B", "data P a = P a"),
    ("Y", "type Z = Int"),
    ("L", "f :: Maybe\nf = Nothing"),
];

/// Texts of a module `M`, and what is said of the types in it.
type Case = (&'static str, &'static str);

/// Uses at top level.
const TOP: [Case; 13] = [
    ("data T a = C a\nf :: T -> Int\nf _ = 0", "TypeArity M:2:6"),
    (
        "data T = C Int\nf :: T Int -> Int\nf _ = 0",
        "TypeArity M:2:6",
    ),
    ("f :: Int Int\nf = 0", "TypeArity M:1:6"),
    ("f :: a -> [Char Int]\nf _ = []", "TypeArity M:1:12"),
    ("data T = C (Maybe)", "TypeArity M:1:13"),
    ("type A a = a\ntype B = A", "TypeArity M:2:10"),
    (
        "data T a b = C a\nf :: T Int [Char] -> Maybe (T a b)\nf _ = Nothing",
        RIGHT,
    ),
    (
        "type S a = Maybe a\ntype R = S Int\nf :: R -> (String, ())\nf _ = (\"\", ())",
        RIGHT,
    ),
    ("import B\nf :: P\nf = f", "TypeArity M:2:6"),
    ("import B\nf :: B.P Int -> Int\nf _ = 0", RIGHT),
    // an own type hides the imported one
    ("import B\ndata P = Q\nf :: P\nf = Q", RIGHT),
    // the first place decides
    (
        "f :: Maybe\nf = Nothing\ng :: Int Int\ng = 0",
        "TypeArity M:1:6",
    ),
    // the module that comes first has the first fault
    ("import L\ntype A = A", "TypeArity L:1:6"),
];

/// Signatures inside functions.
const INSIDE: [Case; 7] = [
    (
        "f = g where\n  g :: Maybe -> Int\n  g _ = 0",
        "TypeArity M:2:8",
    ),
    ("f x = let g :: Maybe; g = x in g", "TypeArity M:1:16"),
    (
        "f x = case x of { y -> z where { z :: Maybe; z = y } }",
        "TypeArity M:1:39",
    ),
    (
        "f = [x | let { x :: Maybe; x = Nothing }]",
        "TypeArity M:1:21",
    ),
    (
        "f x | x = y where { y :: Maybe; y = Nothing }",
        "TypeArity M:1:26",
    ),
    (
        "f = \\x -> let { g :: Maybe; g = x } in g",
        "TypeArity M:1:22",
    ),
    ("f = g where\n  g :: Maybe Int -> Int\n  g _ = 0", RIGHT),
];

/// Synonyms.
const SYNONYMS: [Case; 10] = [
    ("type A = B\ntype B = A", "SynonymCycle A"),
    ("type A = A", "SynonymCycle A"),
    ("type A = [A]", "SynonymCycle A"),
    ("type A a = Maybe (a, A Int)", "SynonymCycle A"),
    // one that leads to a cycle without standing on it
    (
        "type C = B\ntype B = D\ntype D = Int -> D",
        "SynonymCycle D",
    ),
    // the place of the declaration decides
    ("f :: Maybe\nf = Nothing\ntype A = A", "TypeArity M:1:6"),
    ("type A = A\nf :: Maybe\nf = Nothing", "SynonymCycle A"),
    ("type A = A Int", "SynonymCycle A"),
    // data types may contain themselves
    ("data T = C A\ntype A = T", RIGHT),
    ("import Y\ntype A = Z\ntype B = (A, A)", RIGHT),
];

/// Goals in the module of `GOALS_MODULE`, and what is said of them.
const GOALS: [Case; 5] = [
    ("g", RIGHT),
    (
        "let f :: Maybe -> Int; f _ = 0 in f Nothing",
        "TypeArity goal:1:10",
    ),
    ("let f :: T Int -> Int; f _ = 0 in f (C 1)", RIGHT),
    ("[x | let { x :: T; x = C 1 }]", "TypeArity goal:1:17"),
    (
        "case 1 of { x -> y where { y :: Int Int; y = x } }",
        "TypeArity goal:1:33",
    ),
];

const GOALS_MODULE: &str = "data T a = C a\ng = 0";

/// A line on a use with a wrong number of arguments.
fn arity(alloc: Global, names: &Names, place: Place) -> Result<String, AllocError> {
    let module = text_of(names, place.module);
    let (line, column) = (place.line, place.column);
    format!(in alloc; "TypeArity {module}:{line}:{column}")
}

/// A line on a fault.
fn told(alloc: Global, names: &Names, fault: &TypeNameFault) -> Result<String, AllocError> {
    match fault {
        TypeNameFault::TypeArity(place) => arity(alloc, names, *place),
        TypeNameFault::SynonymCycle(name) => {
            let name = text_of(names, *name);
            format!(in alloc; "SynonymCycle {name}")
        }
        TypeNameFault::NoMemory => Err(AllocError),
    }
}

/// What is said of the types in a module `M` of a text, and in a goal there.
fn outcome(alloc: Global, text: &str, goal: &str) -> Option<String> {
    let mut names = Names::new(alloc);
    let goal = goal_of(alloc, &mut names, goal)?;
    let mut library = library_with(alloc, &SHELF, text).ok()?;
    let Ok(modules) = order(alloc, &mut names, "M", DIR, &mut library) else {
        return None;
    };
    let Ok(scopes) = scope(alloc, &names, modules.as_slice()) else {
        return None;
    };
    if let Err(fault) = declared_types(alloc, &names, modules.as_slice(), &scopes) {
        return told(alloc, &names, &fault).ok();
    }
    let root = u32::try_from(modules.len().checked_sub(1)?).ok()?;
    match declared_types_goal(alloc, &names, modules.as_slice(), root, &scopes, &goal) {
        Ok(()) => String::from_str(alloc, RIGHT).ok(),
        Err(TypeArity::At(place)) => arity(alloc, &names, place).ok(),
        Err(TypeArity::NoMemory) => None,
    }
}

/// Whether this is said of a module of a text, and of a goal there.
fn says(alloc: Global, text: &str, goal: &str, expected: &str) -> bool {
    match outcome(alloc, text, goal) {
        Some(line) => line.as_str() == expected,
        None => false,
    }
}

/// The first text of which something else is said.
fn unexpected(alloc: Global, cases: &[Case]) -> Option<&'static str> {
    for (text, expected) in cases {
        if !says(alloc, text, "1", expected) {
            return Some(text);
        }
    }
    None
}

/// The first goal of which something else is said.
fn unexpected_goal(alloc: Global) -> Option<&'static str> {
    for (goal, expected) in &GOALS {
        if !says(alloc, GOALS_MODULE, goal, expected) {
            return Some(goal);
        }
    }
    None
}

#[test]
fn top_level(rt: HostRuntime) {
    let alloc = rt.alloc();
    assert_eq!(rt; unexpected(alloc, &TOP), None);
}

#[test]
fn inside(rt: HostRuntime) {
    let alloc = rt.alloc();
    assert_eq!(rt; unexpected(alloc, &INSIDE), None);
}

#[test]
fn synonyms(rt: HostRuntime) {
    let alloc = rt.alloc();
    assert_eq!(rt; unexpected(alloc, &SYNONYMS), None);
}

#[test]
fn goals(rt: HostRuntime) {
    let alloc = rt.alloc();
    assert_eq!(rt; unexpected_goal(alloc), None);
}
