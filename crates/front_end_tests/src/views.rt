//! What views say of small texts, worked out by hand. What a view is about
//! stands on one line of the text, so that a column says which token is meant.
mod line;

use crate::goals::goal_of;
use crate::tokens::tokens_of;
use cu_layout::block;
use cu_names::{NameId, Names, Place};
use cu_syntax::{
    Alternative, Declaration, DeclarationNode, Expression, ExpressionNode, GoalText, Module, Name,
    PatternNode, TypeNode, parse_module,
};
use line::{Tell, Told};
use std::alloc::Global;
use std::process::Abort;

/// A goal with this text between a beginning and an end.
fn goal(alloc: Global, names: &mut Names, prefix: &str, text: &str, end: &str) -> Option<GoalText> {
    let mut whole = String::from_str(alloc, prefix).ok()?;
    whole.push_str(text).ok()?;
    whole.push_str(end).ok()?;
    goal_of(alloc, names, whole.as_str())
}

fn module(alloc: Global, text: &str) -> Option<Module> {
    let tokens = tokens_of(alloc, text.as_bytes()).ok()?;
    let tokens = block(alloc, tokens, true).ok()?;
    parse_module(alloc, tokens.as_slice()).ok()
}

/// The pattern of the first alternative of a case distinction.
fn pattern(alloc: Global, expression: Expression<'_>) -> Option<PatternNode<'_>> {
    match expression.node(alloc) {
        Ok(ExpressionNode::Case(_, _, _, alternatives)) => {
            first_pattern(alloc, alternatives.as_slice())
        }
        _ => None,
    }
}

/// The pattern of the first of some alternatives.
fn first_pattern<'t>(alloc: Global, alternatives: &[Alternative<'t>]) -> Option<PatternNode<'t>> {
    alternatives.first()?.pattern.node(alloc).ok()
}

/// The first declaration of a let.
fn declaration(alloc: Global, expression: Expression<'_>) -> Option<DeclarationNode<'_>> {
    match expression.node(alloc) {
        Ok(ExpressionNode::Let(_, declarations, _)) => {
            first_declaration(alloc, declarations.as_slice())
        }
        _ => None,
    }
}

/// What the first of some declarations is.
fn first_declaration<'t>(
    alloc: Global,
    declarations: &[Declaration<'t>],
) -> Option<DeclarationNode<'t>> {
    declarations.first()?.node(alloc).ok()
}

/// The type of the first signature of a let.
fn type_term(alloc: Global, expression: Expression<'_>) -> Option<TypeNode<'_>> {
    match declaration(alloc, expression) {
        Some(DeclarationNode::Signature(_, _, term)) => term.node(alloc).ok(),
        _ => None,
    }
}

/// What is looked at in a goal.
#[derive(Clone, Copy)]
enum Part {
    Expression,
    Pattern,
    Declaration,
    Type,
    FreeVariables,
}

/// What stands before a part and after it.
fn around(part: Part) -> (&'static str, &'static str) {
    match part {
        Part::Expression | Part::FreeVariables => ("", ""),
        Part::Pattern => ("case e of {\n", " -> 0 }"),
        Part::Declaration => ("let {\n", " } in 0"),
        Part::Type => ("let { f ::\n", " } in 0"),
    }
}

fn told<T: Tell + Drop>(alloc: Global, view: Option<T>) -> Told {
    match view {
        Some(view) => Told::new(alloc).and(&view),
        None => Told::new(alloc).word("nothing"),
    }
}

fn told_part(alloc: Global, part: Part, goal: &GoalText) -> Told {
    let expression = goal.expression();
    match part {
        Part::Expression => told(alloc, expression.node(alloc).ok()),
        Part::Pattern => told(alloc, pattern(alloc, expression)),
        Part::Declaration => told(alloc, declaration(alloc, expression)),
        Part::Type => told(alloc, type_term(alloc, expression)),
        Part::FreeVariables => told_free_variables(alloc, goal),
    }
}

/// The variables that a goal declares free.
fn told_free_variables(alloc: Global, goal: &GoalText) -> Told {
    match goal.free_variables(alloc) {
        Ok(names) => Told::new(alloc).word("free").all(names.as_slice()),
        Err(_) => Told::new(alloc),
    }
}

fn expect_line<R: Abort>(rt: &R, told: &Told, expected: &str, text: &str) {
    assert_eq!(rt; told.line(), expected, "{text}");
}

fn expect<R: Abort>(rt: &R, alloc: Global, part: Part, text: &str, expected: &str) {
    let mut names = Names::new(alloc);
    let (prefix, end) = around(part);
    match goal(alloc, &mut names, prefix, text, end) {
        Some(goal) => expect_line(rt, &told_part(alloc, part, &goal), expected, text),
        None => panic!(rt; "{text}"),
    }
}

/// Expects what a part of each text says.
fn expect_all<R: Abort>(rt: &R, alloc: Global, part: Part, texts: &[(&str, &str)]) {
    for (text, expected) in texts {
        expect(rt, alloc, part, text, expected);
    }
}

const OPERATORS: [(&str, &str); 6] = [
    ("1 - 2 - 3", "operators 1 1 3 5 7 9"),
    ("- x", "operators 1 minus 1 3"),
    ("x + - y", "operators 1 1 3 minus 5 7"),
    ("(x -)", "left section 1 2 4"),
    ("(`f` x)", "right section 1 3 6"),
    ("(- x)", "operators 2 minus 2 4"),
];

const WORDS: [(&str, &str); 8] = [
    ("f x (y z)", "application 1 1 3 6"),
    ("(x + y) z", "application 1 2 9"),
    ("((e))", "variable 3 3"),
    ("Just", "constructor 1 1"),
    ("\\x _ -> x", "lambda 1 2 4 to 9"),
    ("let { ; x = 1 ; ; y = 2 } in z", "let 1 9 19 in 30"),
    ("let x = 1 in x", "let 1 5 in 14"),
    ("if a then b else c", "if 1 4 11 18"),
];

const CASES: [(&str, &str); 4] = [
    (
        "case x of { A -> 1 ; ; B -> 2 }",
        "case 1 6; 13 right 15 is 18 local; 24 right 26 is 29 local",
    ),
    ("fcase x of A -> 1", "fcase 1 7; 12 right 14 is 17 local"),
    (
        "case x of A | b -> 1 | c -> 2",
        "case 1 6; 11 right 13 guard 13 15 20 guard 22 24 29 local",
    ),
    (
        "case x of { A -> y where { y = 1 } }",
        "case 1 6; 13 right 15 is 18 local 28",
    ),
];

const BRACKETS: [(&str, &str); 8] = [
    ("()", "tuple 1"),
    ("(a, b, c)", "tuple 1 2 5 8"),
    ("(,,)", "constructor of 3 1"),
    ("[]", "list 1"),
    ("[a, b]", "list 1 2 5"),
    ("\"abc\"", "literal 1 string 3"),
    ("'a'", "literal 1 character 97"),
    ("17", "literal 1 number 17"),
];

const LISTS: [(&str, &str); 5] = [
    ("[1, 3 .. 9]", "enumeration 1 from 2 then 5 to 10"),
    ("[1, 3 ..]", "enumeration 1 from 2 then 5"),
    ("[1 .. 9]", "enumeration 1 from 2 to 7"),
    ("[1 ..]", "enumeration 1 from 2"),
    (
        "[x | C x <- xs, let { y = x }, y]",
        "comprehension 1 2; generator 6 6 13; let 17 23; condition 32 32",
    ),
];

const PATTERNS: [(&str, &str); 12] = [
    ("x : y : zs", "operators 1 1 3 5 7 9"),
    ("xs@(x : _)", "alias 1 5"),
    ("- 17", "negative 1 17"),
    ("C x (D y)", "constructed 1 1 3 6"),
    ("(C)", "constructed 2 2"),
    ("x", "variable 1"),
    ("_", "wildcard 1"),
    ("'a'", "literal 1 character 97"),
    ("[]", "list 1"),
    ("[a, b]", "list 1 2 5"),
    ("()", "tuple 1"),
    ("(a, b)", "tuple 1 2 5"),
];

const TYPES: [(&str, &str); 8] = [
    ("a -> [b] -> Maybe (a, b)", "function 1 6 to 13"),
    ("(a -> b) -> c", "function 2 to 13"),
    ("Either (a, b) c", "named 1 8 15"),
    ("(M.T)", "named 2"),
    ("(a, b)", "tuple 1 2 5"),
    ("()", "tuple 1"),
    ("[b]", "list 1 2"),
    ("b", "variable 1"),
];

/// Goals, and what they declare free.
const FREE_VARIABLES: [(&str, &str); 3] = [
    ("x", "free"),
    ("x where x, y free", "free 9 12"),
    ("x where { x, y free ; z free }", "free 11 14 23"),
];

const DECLARATIONS: [(&str, &str); 8] = [
    ("x, y free", "free 1 1 4"),
    ("x, (+) :: a", "signature 1 1 5 of 11"),
    ("(x, y) = z", "binding 1 1 right 8 is 10 local"),
    ("x = 1", "rule 1 1 right 3 is 5 local"),
    ("(x) = 1", "rule 1 2 right 5 is 7 local"),
    // rules with parameters
    (
        "f x | a = b | c = d where { g = 1 ; h = 2 }",
        "rule 1 1 3 right 5 guard 5 7 11 guard 13 15 19 local 29 37",
    ),
    ("x `op` y = z", "rule 1 4 1 8 right 10 is 12 local"),
    (
        "((x ++ y) z u) w = v",
        "rule 1 5 3 8 11 13 16 right 18 is 20 local",
    ),
];

#[test]
fn views_of_expressions(rt: HostRuntime) {
    let alloc = rt.alloc();
    expect_all(&rt, alloc, Part::Expression, &OPERATORS);
    expect_all(&rt, alloc, Part::Expression, &WORDS);
    expect_all(&rt, alloc, Part::Expression, &CASES);
    expect_all(&rt, alloc, Part::Expression, &BRACKETS);
    expect_all(&rt, alloc, Part::Expression, &LISTS);
}

#[test]
fn views_of_other_parts(rt: HostRuntime) {
    let alloc = rt.alloc();
    expect_all(&rt, alloc, Part::Pattern, &PATTERNS);
    expect_all(&rt, alloc, Part::Type, &TYPES);
    expect_all(&rt, alloc, Part::FreeVariables, &FREE_VARIABLES);
    expect_all(&rt, alloc, Part::Declaration, &DECLARATIONS);
}

/// The header of a module, and its items.
fn told_module(alloc: Global, module: &Module) -> Told {
    let mut told = match module.header() {
        Some(header) => Told::new(alloc).and(header),
        None => Told::new(alloc).word("no header"),
    };
    for item in module.items() {
        told = match item.node(alloc) {
            Ok(node) => told.word("; ").and(&node),
            Err(_) => told,
        };
    }
    told
}

fn expect_module<R: Abort>(rt: &R, alloc: Global, text: &str, expected: &str) {
    match module(alloc, text) {
        Some(module) => expect_line(rt, &told_module(alloc, &module), expected, text),
        None => panic!(rt; "{text}"),
    }
}

const HEADERS: [(&str, &str); 5] = [
    ("x = 1", "no header; declaration 1"),
    ("module M where { }", "header 1 8"),
    ("module M () where { }", "header 1 8 exports"),
    (
        "module M (f, T(..), module A, U(A, (:+)), V(), W) where { }",
        "header 1 8 exports variable 11 11 type 14 14 all module 21 28 type 31 31 with 33 37 type 43 43 with type 48 48",
    ),
    (
        "module M where { import A ; ; x = 1 ; y = 2 }",
        "header 1 8; import 18 25; declaration 31; declaration 39",
    ),
];

const IMPORTS: [(&str, &str); 5] = [
    (
        "import qualified Data.List as L hiding (map, T(..))",
        "no header; qualified import 1 18 as 31 hiding variable 41 41 type 46 46 all",
    ),
    (
        "import A (T(C))",
        "no header; import 1 8 only type 11 11 with 13",
    ),
    (
        "import A ((:+), (+))",
        "no header; import 1 8 only type 11 12 variable 17 18",
    ),
    ("import A ()", "no header; import 1 8 only"),
    ("import A", "no header; import 1 8"),
];

const ITEMS: [(&str, &str); 7] = [
    ("infixr 5 ++, :+", "no header; fixity 1 right 5 of 10 14"),
    ("infix `op`", "no header; fixity 1 neither 9 of 8"),
    ("infixl 0 `op`", "no header; fixity 1 left 0 of 11"),
    (
        "data T a b = A a | b :+ a | C",
        "no header; data 1 6 8 10; 14 14 16; 20 22 20 25; 29 29",
    ),
    ("data T", "no header; data 1 6"),
    ("newtype N = N Int", "no header; data 1 9; 13 13 15"),
    ("type S a = [a]", "no header; synonym 1 6 8 is 12"),
];

/// Expects what the header and the items of each module say.
fn expect_modules<R: Abort>(rt: &R, alloc: Global, texts: &[(&str, &str)]) {
    for (text, expected) in texts {
        expect_module(rt, alloc, text, expected);
    }
}

#[test]
fn views_of_modules(rt: HostRuntime) {
    let alloc = rt.alloc();
    expect_modules(&rt, alloc, &HEADERS);
    expect_modules(&rt, alloc, &IMPORTS);
    expect_modules(&rt, alloc, &ITEMS);
}

/// The name of a variable.
fn name(alloc: Global, expression: Expression<'_>) -> Option<Name> {
    match expression.node(alloc) {
        Ok(ExpressionNode::Variable(_, name)) => Some(name),
        _ => None,
    }
}

/// The name of a variable on the second line.
fn expected(names: &Names, whole: &str, qualifier: Option<&str>, base: &str) -> Option<Name> {
    Some(Name {
        text: names.find(whole)?,
        qualifier: match qualifier {
            Some(qualifier) => Some(names.find(qualifier)?),
            None => None,
        },
        base: names.find(base)?,
        place: Place {
            module: NameId(0),
            line: 2,
            column: 3,
        },
    })
}

fn expect_name<R: Abort>(rt: &R, alloc: Global, text: &str, qualifier: Option<&str>, base: &str) {
    let mut names = Names::new(alloc);
    match goal(alloc, &mut names, "(\n  ", text, ")") {
        Some(goal) => {
            let found = name(alloc, goal.expression());
            assert_eq!(rt; found, expected(&names, text, qualifier, base), "{text}");
        }
        None => panic!(rt; "{text}"),
    }
}

#[test]
fn names_of_variables(rt: HostRuntime) {
    let alloc = rt.alloc();
    expect_name(&rt, alloc, "x", None, "x");
    expect_name(&rt, alloc, "List.map", Some("List"), "map");
    expect_name(&rt, alloc, "Data.List.map", Some("Data.List"), "map");
}
