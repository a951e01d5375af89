//! Tokens of texts, worked out by hand.
use cu_int::Int;
use cu_lex::{Keyword, LexFault, Mark, ReservedOperator, Token, TokenKind, lex};
use cu_names::{NameId, Names, Place};
use std::alloc::{AllocError, Global};
use std::process::Abort;

/// The tokens of a text, whose module has the number 0.
pub(crate) fn tokens_of(alloc: Global, text: &[u8]) -> Result<Vec<Token>, LexFault> {
    let mut names = Names::new(alloc);
    let module = names.intern("M")?;
    lex(alloc, &mut names, module, text)
}

fn shown(alloc: Global, token: &Token) -> Result<String, AllocError> {
    let class = class_of(&token.kind);
    let line = token.place.line;
    let column = token.place.column;
    format!(in alloc; "{class} {line}:{column};")
}

/// The class of each token and its place.
fn classes(alloc: Global, tokens: &[Token]) -> Result<String, AllocError> {
    let mut text = String::new(alloc);
    for token in tokens {
        let one = shown(alloc, token)?;
        text.push_str(one.as_str())?;
    }
    Ok(text)
}

fn class_of(kind: &TokenKind) -> &'static str {
    match kind {
        TokenKind::VarId(_) => "VarId",
        TokenKind::ConId(_) => "ConId",
        TokenKind::VarOp(_) => "VarOp",
        TokenKind::ConOp(_) => "ConOp",
        TokenKind::Keyword(_) => "keyword",
        TokenKind::Reserved(_) => "reserved",
        TokenKind::Mark(_) => "mark",
        TokenKind::Int(_) => "Int",
        TokenKind::Char(_) => "Char",
        TokenKind::String(_) => "String",
        TokenKind::Layout(_) => "layout",
    }
}

/// Texts, and the class and the place of each of their tokens.
const CLASSES: [(&str, &str); 21] = [
    ("", ""),
    ("x'--y", "VarId 1:1;"),
    ("__x1' X'", "VarId 1:1;ConId 1:7;"),
    (
        "__ _A _1 ___a",
        "mark 1:1;mark 1:2;mark 1:4;ConId 1:5;mark 1:7;Int 1:8;VarId 1:10;",
    ),
    ("A.B.x A.B.C A.+", "VarId 1:1;ConId 1:7;VarOp 1:13;"),
    ("A.of", "ConId 1:1;VarOp 1:2;keyword 1:3;"),
    ("A.= A.--", "ConId 1:1;VarOp 1:2;ConId 1:5;VarOp 1:6;"),
    ("case fcase where", "keyword 1:1;keyword 1:6;keyword 1:12;"),
    (
        "+ - :+ : \\\\",
        "VarOp 1:1;VarOp 1:3;ConOp 1:5;ConOp 1:8;VarOp 1:10;",
    ),
    (
        ".. :: = \\ | <- -> @ ~",
        "reserved 1:1;reserved 1:4;reserved 1:7;reserved 1:9;reserved 1:11;reserved 1:13;reserved 1:16;reserved 1:19;reserved 1:21;",
    ),
    (
        "()[]{},;`_",
        "mark 1:1;mark 1:2;mark 1:3;mark 1:4;mark 1:5;mark 1:6;mark 1:7;mark 1:8;mark 1:9;mark 1:10;",
    ),
    ("007 0x1F 0o17 0b11", "Int 1:1;Int 1:5;Int 1:10;Int 1:15;"),
    ("1..2", "Int 1:1;reserved 1:2;Int 1:4;"),
    ("0X1", "Int 1:1;ConId 1:2;"),
    (
        "'a' '\\'' \"\" \"a\\&b\"",
        "Char 1:1;Char 1:5;String 1:10;String 1:13;",
    ),
    ("-- x\ny", "VarId 2:1;"),
    ("--> x", "VarOp 1:1;VarId 1:5;"),
    ("{- {- -} -} x", "VarId 1:13;"),
    ("x\ty\n\tz", "VarId 1:1;VarId 1:9;VarId 2:9;"),
    ("\u{feff}x", "VarId 1:1;"),
    ("\"\u{e9}\" x", "String 1:1;VarId 1:5;"),
];

fn shown_classes(alloc: Global, text: &str) -> Result<String, LexFault> {
    let tokens = tokens_of(alloc, text.as_bytes())?;
    Ok(classes(alloc, tokens.as_slice())?)
}

fn expect_classes<R: Abort>(rt: &R, alloc: Global, text: &str, expected: &str) {
    match shown_classes(alloc, text) {
        Ok(found) => assert_eq!(rt; found.as_str(), expected, "{text}"),
        Err(fault) => panic!(rt; "{text}: {fault:?}"),
    }
}

#[test]
fn classes_of_tokens(rt: HostRuntime) {
    let alloc = rt.alloc();
    for (text, expected) in &CLASSES {
        expect_classes(&rt, alloc, text, expected);
    }
}

/// The kind of the only token of a text, if it has one token.
fn only_kind(alloc: Global, text: &str) -> Result<Option<TokenKind>, LexFault> {
    let mut tokens = tokens_of(alloc, text.as_bytes())?;
    match tokens.pop() {
        Some(token) if tokens.is_empty() => Ok(Some(token.kind)),
        _ => Ok(None),
    }
}

fn only_keyword(alloc: Global, text: &str) -> Option<Keyword> {
    match only_kind(alloc, text) {
        Ok(Some(TokenKind::Keyword(word))) => Some(word),
        _ => None,
    }
}

fn only_operator(alloc: Global, text: &str) -> Option<ReservedOperator> {
    match only_kind(alloc, text) {
        Ok(Some(TokenKind::Reserved(word))) => Some(word),
        _ => None,
    }
}

fn only_mark(alloc: Global, text: &str) -> Option<Mark> {
    match only_kind(alloc, text) {
        Ok(Some(TokenKind::Mark(mark))) => Some(mark),
        _ => None,
    }
}

const KEYWORDS: [(&str, Keyword); 21] = [
    ("case", Keyword::Case),
    ("data", Keyword::Data),
    ("do", Keyword::Do),
    ("else", Keyword::Else),
    ("external", Keyword::External),
    ("fcase", Keyword::Fcase),
    ("foreign", Keyword::Foreign),
    ("free", Keyword::Free),
    ("if", Keyword::If),
    ("import", Keyword::Import),
    ("in", Keyword::In),
    ("infix", Keyword::Infix),
    ("infixl", Keyword::Infixl),
    ("infixr", Keyword::Infixr),
    ("let", Keyword::Let),
    ("module", Keyword::Module),
    ("newtype", Keyword::Newtype),
    ("of", Keyword::Of),
    ("then", Keyword::Then),
    ("type", Keyword::Type),
    ("where", Keyword::Where),
];

const RESERVED_OPERATORS: [(&str, ReservedOperator); 9] = [
    ("..", ReservedOperator::DotDot),
    ("::", ReservedOperator::DoubleColon),
    ("=", ReservedOperator::Equals),
    ("\\", ReservedOperator::Backslash),
    ("|", ReservedOperator::Bar),
    ("<-", ReservedOperator::LeftArrow),
    ("->", ReservedOperator::RightArrow),
    ("@", ReservedOperator::At),
    ("~", ReservedOperator::Tilde),
];

const MARKS: [(&str, Mark); 10] = [
    ("(", Mark::OpenParen),
    (")", Mark::CloseParen),
    ("[", Mark::OpenSquare),
    ("]", Mark::CloseSquare),
    ("{", Mark::OpenBrace),
    ("}", Mark::CloseBrace),
    (",", Mark::Comma),
    (";", Mark::Semicolon),
    ("`", Mark::Backquote),
    ("_", Mark::Underscore),
];

#[test]
fn every_keyword(rt: HostRuntime) {
    let alloc = rt.alloc();
    for (text, expected) in &KEYWORDS {
        assert_eq!(rt; only_keyword(alloc, text), Some(*expected), "{text}");
    }
}

#[test]
fn every_reserved_operator(rt: HostRuntime) {
    let alloc = rt.alloc();
    for (text, expected) in &RESERVED_OPERATORS {
        assert_eq!(rt; only_operator(alloc, text), Some(*expected), "{text}");
    }
}

#[test]
fn every_mark(rt: HostRuntime) {
    let alloc = rt.alloc();
    for (text, expected) in &MARKS {
        assert_eq!(rt; only_mark(alloc, text), Some(*expected), "{text}");
    }
}

fn only_int(alloc: Global, text: &str) -> Option<Int> {
    match only_kind(alloc, text) {
        Ok(Some(TokenKind::Int(number))) => Some(number),
        _ => None,
    }
}

/// Numbers, up to the greatest.
const NUMBERS: [(&str, Int); 4] = [
    ("0b101", 5),
    ("9223372036854775808", 9_223_372_036_854_775_808),
    ("170141183460469231731687303715884105727", Int::MAX),
    ("0x7fffffffffffffffffffffffffffffff", Int::MAX),
];

#[test]
fn numbers(rt: HostRuntime) {
    let alloc = rt.alloc();
    for (text, expected) in &NUMBERS {
        assert_eq!(rt; only_int(alloc, text), Some(*expected), "{text}");
    }
}

fn fault_of(alloc: Global, text: &[u8]) -> Option<LexFault> {
    match tokens_of(alloc, text) {
        Ok(_) => None,
        Err(fault) => Some(fault),
    }
}

fn expect_fault<R: Abort>(rt: &R, alloc: Global, text: &[u8], expected: LexFault) {
    assert_eq!(rt; fault_of(alloc, text), Some(expected));
}

fn at(line: u32, column: u32) -> Place {
    Place {
        module: NameId(0),
        line,
        column,
    }
}

/// Texts, and the line and the column where no token begins.
const BAD_TOKENS: [(&str, u32, u32); 8] = [
    ("\"ab", 1, 1),
    ("1.5", 1, 1),
    ("x {- y", 1, 3),
    ("'ab'", 1, 1),
    ("\"a\\q\"", 1, 1),
    ("\"\\1114112\t\"", 1, 1),
    ("\"a\n\"", 1, 1),
    ("x\n \u{e9}", 2, 2),
];

/// Texts, and the line and the column of a literal that is out of range.
const LARGE_LITERALS: [(&str, u32, u32); 3] = [
    ("170141183460469231731687303715884105728", 1, 1),
    ("0x80000000000000000000000000000000", 1, 1),
    ("\"a\\1114112\"", 1, 3),
];

#[test]
fn first_faults(rt: HostRuntime) {
    let alloc = rt.alloc();
    for (text, line, column) in &BAD_TOKENS {
        let expected = LexFault::BadToken(at(*line, *column));
        expect_fault(&rt, alloc, text.as_bytes(), expected);
    }
    for (text, line, column) in &LARGE_LITERALS {
        let expected = LexFault::LiteralRange(at(*line, *column));
        expect_fault(&rt, alloc, text.as_bytes(), expected);
    }
}

#[test]
fn bytes_that_are_no_text(rt: HostRuntime) {
    let alloc = rt.alloc();
    expect_fault(&rt, alloc, &[255, 0], LexFault::NotUtf8(0));
    expect_fault(&rt, alloc, &[97, 0xC3], LexFault::NotUtf8(2));
    expect_fault(&rt, alloc, &[97, 0xE0, 0x80, 0x80], LexFault::NotUtf8(2));
    expect_fault(&rt, alloc, &[97, 0xED, 0xA0], LexFault::NotUtf8(2));
}
