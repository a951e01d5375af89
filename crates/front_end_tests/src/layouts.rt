//! Layouts of texts, worked out by hand.
use crate::grammar::modules::{PERM, QUEENS};
use crate::grammar::repeated;
use crate::tokens::tokens_of;
use cu_layout::{TooDeep, block};
use cu_lex::{LayoutMark, Mark, Token, TokenKind};
use cu_names::{NameId, Place};
use std::alloc::{AllocError, Global};
use std::test::Fail;

/// The tokens of a text with its layout.
fn laid(alloc: Global, whole: bool, text: &str) -> Result<Vec<Token>, Fail> {
    let tokens = tokens_of(alloc, text.as_bytes())?;
    Ok(block(alloc, tokens, whole)?)
}

/// Tokens as `Debug` shows their kinds, with layout written as in a text.
fn shown(alloc: Global, tokens: &[Token]) -> Result<String, AllocError> {
    let mut text = String::new(alloc);
    for token in tokens {
        let one = shown_kind(alloc, &token.kind)?;
        text.push_str(one.as_str())?;
    }
    Ok(text)
}

fn shown_kind(alloc: Global, kind: &TokenKind) -> Result<String, AllocError> {
    match kind {
        TokenKind::Layout(mark) => {
            let mark = written(*mark);
            format!(in alloc; "Mark({mark:?}) ")
        }
        _ => format!(in alloc; "{kind:?} "),
    }
}

fn written(mark: LayoutMark) -> Mark {
    match mark {
        LayoutMark::Open => Mark::OpenBrace,
        LayoutMark::Close => Mark::CloseBrace,
        LayoutMark::Separator => Mark::Semicolon,
    }
}

fn shown_layout(alloc: Global, whole: bool, text: &str) -> Result<String, Fail> {
    let found = laid(alloc, whole, text)?;
    Ok(shown(alloc, found.as_slice())?)
}

fn shown_text(alloc: Global, text: &str) -> Result<String, Fail> {
    let tokens = tokens_of(alloc, text.as_bytes())?;
    Ok(shown(alloc, tokens.as_slice())?)
}

/// How many marks of one kind there are.
fn count(tokens: &[Token], mark: LayoutMark) -> usize {
    tokens
        .iter()
        .filter(|token| matches!(token.kind, TokenKind::Layout(found) if found == mark))
        .count()
}

/// Texts, whether each is a whole module, and the texts with their layout
/// written out.
const TEXTS: [(bool, &str, &str); 36] = [
    // a block before `in`
    (false, "let x = 1 in x", "let { x = 1 } in x"),
    // a comma that belongs outside a block
    (false, "[y | let y = 1, y]", "[y | let { y = 1 }, y]"),
    // a comma between variables
    (
        false,
        "(let a, b free in a, 1)",
        "(let { a, b free } in a, 1)",
    ),
    // operators in parentheses among them
    (
        false,
        "(let (+), (`f`), a free in a, 1)",
        "(let { (+), (`f`), a free } in a, 1)",
    ),
    // the operators in parentheses begin anew after a semicolon
    (
        false,
        "(let a = 1; b, c free in a, 2)",
        "(let { a = 1; b, c free } in a, 2)",
    ),
    // a name in parentheses is no operator
    (
        false,
        "(let (a), b free in a, 1)",
        "(let { (a) }, b free in a, 1)",
    ),
    // no text
    (false, "", ""),
    // a module without tokens
    (true, "", "{ }"),
    // a module without a header
    (true, "x = 1\ny = 2", "{ x = 1; y = 2 }"),
    // a header
    (
        true,
        "module M where\nx = 1\n  + 2\ny = 2",
        "module M where { x = 1 + 2; y = 2 }",
    ),
    // a block due at the end
    (true, "module M where", "module M where { }"),
    // a brace of the text at the start
    (true, "{ x = 1\n}", "{ x = 1 }"),
    // where in where
    (
        true,
        "f = a\n  where a = b\n          where b = 1\ng = 2",
        "{ f = a where { a = b where { b = 1 } }; g = 2 }",
    ),
    // `where` on a block's own column
    (
        true,
        "f = case x of\n  A -> y\n  where y = 1",
        "{ f = case x of { A -> y } where { y = 1 } }",
    ),
    // `then` and `else` on a block's own column
    (
        true,
        "f = let\n  x = if a\n  then b\n  else c\n in x",
        "{ f = let { x = if a then b else c } in x }",
    ),
    // a brace of the text inside a block
    (
        true,
        "f = let { a = 1\n; b = 2 } in a\ng = 1",
        "{ f = let { a = 1; b = 2 } in a; g = 1 }",
    ),
    // a block inside a brace of the text
    (
        false,
        "case x of { A -> let y = 1 }",
        "case x of { A -> let { y = 1 } }",
    ),
    // a block in parentheses
    (
        true,
        "f x = (case x of A -> 1) + 2",
        "{ f x = (case x of { A -> 1 }) + 2 }",
    ),
    // a due block that is not further right
    (true, "f = x where\ng = 1", "{ f = x where { }; g = 1 }"),
    // blocks at the end
    (
        false,
        "let f x = case x of A -> let y = 1",
        "let { f x = case x of { A -> let { y = 1 } } }",
    ),
    // a block before `then` and one before `else`
    (
        false,
        "if case a of B -> True then case b of B -> 1 else 2",
        "if case a of { B -> True } then case b of { B -> 1 } else 2",
    ),
    // `of` ends its `case`
    (
        false,
        "case let x = 1 in x of y -> y",
        "case let { x = 1 } in x of { y -> y }",
    ),
    // a block before the `of` of an outer `case`
    (
        false,
        "case fcase a of B -> 1 of C -> 2",
        "case fcase a of { B -> 1 } of { C -> 2 }",
    ),
    // the outer `let`'s `in`
    (
        false,
        "let f = let g = 1 in g in f",
        "let { f = let { g = 1 } in g } in f",
    ),
    // an open lambda
    (
        false,
        "(\\x -> let y = x in y, 2)",
        "(\\x -> let { y = x } in y, 2)",
    ),
    // two blocks before one bracket
    (
        false,
        "[case a of B -> let y = 1]",
        "[case a of { B -> let { y = 1 } }]",
    ),
    // brackets without partners
    (true, "x = ) ] , in }", "{ x = ) ] , in } }"),
    // a block before its first token's own end
    (false, "(let)", "(let { })"),
    // a brace hides the block around it
    (
        true,
        "{ f = let a = 1\n in a }",
        "{ f = let { a = 1 } in a }",
    ),
    // no tokens in a block are names alone
    (false, "[x | let, y]", "[x | let { , y }]"),
    // a `where` block that is not further right
    (
        true,
        "f = x where\n  x = y where\n  y = 1",
        "{ f = x where { x = y where { }; y = 1 } }",
    ),
    // `where` on the column of the block of another
    (
        true,
        "f = g\n  where g = h\n        where h = 1",
        "{ f = g where { g = h } where { h = 1 } }",
    ),
    // a `}` of the text without its `{`
    (true, "f = 1 }\ng = 2", "{ f = 1 }; g = 2 }"),
    // a `}` of the text where a block is due
    (false, "let }", "let { } }"),
    // an `in` left of the block
    (false, "let x = 1\n in x", "let { x = 1 } in x"),
    // a comma inside brackets of a block
    (
        false,
        "(let t = (1, 2) in t, 3)",
        "(let { t = (1, 2) } in t, 3)",
    ),
];

#[test]
fn texts_with_their_layout(rt: HostRuntime) -> Result<(), Fail> {
    let alloc = rt.alloc();
    for (whole, text, expected) in &TEXTS {
        let found = shown_layout(alloc, *whole, text)?;
        let laid_out = shown_text(alloc, expected)?;
        assert_eq!(rt; found.as_str(), laid_out.as_str(), "{text}");
    }
    Ok(())
}

#[test]
fn marks_of_modules(rt: HostRuntime) -> Result<(), Fail> {
    let alloc = rt.alloc();
    for (text, blocks, separators) in &[(QUEENS, 4, 10), (PERM, 2, 3)] {
        let found = laid(alloc, true, text)?;
        assert_eq!(rt; count(found.as_slice(), LayoutMark::Open), *blocks);
        assert_eq!(rt; count(found.as_slice(), LayoutMark::Close), *blocks);
        assert_eq!(rt; count(found.as_slice(), LayoutMark::Separator), *separators);
    }
    Ok(())
}

/// Why a text has no layout, if it has none. A text without tokens or without
/// memory gives `NoMemory`.
fn text_fault(alloc: Global, whole: bool, text: &str) -> Option<TooDeep> {
    match tokens_of(alloc, text.as_bytes()) {
        Ok(tokens) => block(alloc, tokens, whole).err(),
        Err(_) => Some(TooDeep::NoMemory),
    }
}

/// What so many opening parentheses after a prefix give.
fn parentheses(alloc: Global, whole: bool, prefix: &str, count: usize) -> Option<TooDeep> {
    match repeated(alloc, [prefix, "(", ""], count) {
        Ok(text) => text_fault(alloc, whole, text.as_str()),
        Err(_) => Some(TooDeep::NoMemory),
    }
}

/// The fault of the token in a column of the first line.
fn too_deep(column: u32) -> TooDeep {
    TooDeep::At(Place {
        module: NameId(0),
        line: 1,
        column,
    })
}

/// Whether a text is a whole module, its prefix, how many parentheses may follow
/// that, and the column of one more.
const DEPTHS: [(bool, &str, usize, u32); 2] = [(false, "", 256, 257), (true, "f = ", 255, 260)];

#[test]
fn entries_of_the_stack(rt: HostRuntime) {
    let alloc = rt.alloc();
    for (whole, prefix, most, column) in &DEPTHS {
        let more = most.saturating_add(1);
        assert_eq!(rt; parentheses(alloc, *whole, prefix, *most), None);
        assert_eq!(rt;
            parentheses(alloc, *whole, prefix, more),
            Some(too_deep(*column))
        );
    }
}

/// The marks with their places.
fn shown_marks(alloc: Global, tokens: &[Token]) -> Result<String, AllocError> {
    let mut shown = String::new(alloc);
    for token in tokens {
        if let TokenKind::Layout(mark) = token.kind {
            let one = shown_mark(alloc, mark, token.place)?;
            shown.push_str(one.as_str())?;
        }
    }
    Ok(shown)
}

fn shown_mark(alloc: Global, mark: LayoutMark, place: Place) -> Result<String, AllocError> {
    let line = place.line;
    let column = place.column;
    format!(in alloc; "{mark:?} {line}:{column};")
}

/// The marks of the layout of a module, with their places.
fn marks_of(alloc: Global, text: &str) -> Result<String, Fail> {
    let found = laid(alloc, true, text)?;
    Ok(shown_marks(alloc, found.as_slice())?)
}

#[test]
fn places_of_marks(rt: HostRuntime) -> Result<(), Fail> {
    let shown = marks_of(rt.alloc(), "x = 1\ny = let")?;
    let expected = "Open 1:1;Separator 2:1;Open 2:5;Close 2:5;Close 2:5;";
    assert_eq!(rt; shown.as_str(), expected);
    Ok(())
}
