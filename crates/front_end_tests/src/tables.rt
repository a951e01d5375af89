//! Grammars and texts, worked out by hand.
use crate::tokens::tokens_of;
use cu_lex::{Keyword, LayoutMark, LexFault, Mark, ReservedOperator, Special, Token, TokenKind};
use cu_names::{NameId, Place};
use cu_peg::{
    BadGrammar, Class, Form, Grammar, NameKind, Row, RowNumbers, Tree, each_row_decides, is_closed,
    matches, one_tree,
};
use std::alloc::{AllocError, Global};
use std::process::Abort;
use std::test::Fail;

/// Lower-case names.
const NAME: Class = Class::Unqualified(NameKind::VarId);

/// A row as a table writes it: the numbers of a sequence or a choice are a slice.
#[derive(Clone, Copy)]
enum Plain {
    Token(Class),
    Sequence(&'static [u32]),
    Choice(&'static [u32]),
    Optional(u32),
    Many(u32),
    AtLeastOne(u32),
    SeparatedBy(u32, u32),
    Ahead(u32),
    NotAhead(u32),
}

/// The row that is written so.
fn row(alloc: Global, plain: Plain) -> Result<Row, AllocError> {
    match plain {
        Plain::Token(class) => Ok(Row::Token(class)),
        Plain::Sequence(parts) => Ok(Row::Sequence(numbers(alloc, parts)?)),
        Plain::Choice(parts) => Ok(Row::Choice(numbers(alloc, parts)?)),
        Plain::Optional(part) => Ok(Row::Optional(part)),
        Plain::Many(part) => Ok(Row::Many(part)),
        Plain::AtLeastOne(part) => Ok(Row::AtLeastOne(part)),
        Plain::SeparatedBy(part, separator) => Ok(Row::SeparatedBy(part, separator)),
        Plain::Ahead(part) => Ok(Row::Ahead(part)),
        Plain::NotAhead(part) => Ok(Row::NotAhead(part)),
    }
}

/// The numbers of rows in a slice.
fn numbers(alloc: Global, parts: &[u32]) -> Result<RowNumbers, AllocError> {
    Ok(RowNumbers::new(Vec::from_slice(alloc, parts)?))
}

/// The rows that are written so, in order.
fn rows(alloc: Global, plain: &[Plain]) -> Result<Vec<Row>, AllocError> {
    let mut rows = Vec::new(alloc);
    for one in plain {
        rows.push(row(alloc, *one)?)?;
    }
    Ok(rows)
}

/// The nodes of a tree, each with its size.
fn shown(alloc: Global, tree: &Tree) -> Result<String, AllocError> {
    let mut text = String::new(alloc);
    for node in tree.nodes() {
        let size = node.size;
        let piece = match node.form {
            Form::Leaf(n) => format!(in alloc; "{n};")?,
            Form::Parts => format!(in alloc; "p{size};")?,
            Form::Chosen(n) => format!(in alloc; "c{n}/{size};")?,
        };
        text.push_str(piece.as_str())?;
    }
    Ok(text)
}

/// The grammar of rows, if each names rows.
fn grammar(alloc: Global, plain: &[Plain]) -> Result<Grammar, BadGrammar> {
    let rows = rows(alloc, plain)?;
    if is_closed(rows.as_slice()) {
        return Grammar::new(alloc, rows);
    }
    Err(BadGrammar::NoMemory)
}

/// The tree of tokens by the first row of a grammar, or a dash.
fn tree(alloc: Global, grammar: &Grammar, tokens: &[Token]) -> Result<String, AllocError> {
    if grammar.rows().is_empty() {
        return Ok(String::new(alloc));
    }
    match matches(alloc, grammar, 0, tokens)? {
        Some(tree) => shown(alloc, &tree),
        None => String::from_str(alloc, "-"),
    }
}

/// The tree of a text by the first row of a grammar, or a dash.
fn text_tree(alloc: Global, grammar: &Grammar, text: &str) -> Result<String, LexFault> {
    let tokens = tokens_of(alloc, text.as_bytes())?;
    Ok(tree(alloc, grammar, tokens.as_slice())?)
}

/// Expects the tree of a text by the first row of a grammar.
fn expect_tree<R: Abort>(rt: &R, alloc: Global, grammar: &Grammar, text: &str, expected: &str) {
    match text_tree(alloc, grammar, text) {
        Ok(found) => assert_eq!(rt; found.as_str(), expected, "{text}"),
        Err(fault) => panic!(rt; "{text}: {fault:?}"),
    }
}

/// Expects the trees of texts by the first of some rows. A dash is none.
fn expect_trees<R: Abort>(rt: &R, alloc: Global, rows: &[Plain], trees: &[(&str, &str)]) {
    match grammar(alloc, rows) {
        Ok(grammar) => {
            for (text, expected) in trees {
                expect_tree(rt, alloc, &grammar, text, expected);
            }
        }
        Err(bad) => panic!(rt; "{bad}"),
    }
}

/// Names between commas.
const LIST: [Plain; 3] = [
    Plain::SeparatedBy(1, 2),
    Plain::Token(NAME),
    Plain::Token(Class::Mark(Mark::Comma)),
];

const LISTS: [(&str, &str); 7] = [
    ("a", "p2;0;"),
    ("a,b,c", "p4;0;2;4;"),
    ("a,", "-"),
    ("a,b,", "-"),
    (",a", "-"),
    ("a a", "-"),
    ("", "-"),
];

/// Maybe a name, then numbers, and then at least one character.
const PARTS: [Plain; 7] = [
    Plain::Sequence(&[1, 3, 5]),
    Plain::Optional(2),
    Plain::Token(NAME),
    Plain::Many(4),
    Plain::Token(Class::Int),
    Plain::AtLeastOne(6),
    Plain::Token(Class::Char),
];

const WITH_PARTS: [(&str, &str); 4] = [
    ("x 1 2 'a'", "p8;p2;0;p3;1;2;p2;3;"),
    ("'a' 'b'", "p6;p1;p1;p3;0;1;"),
    ("x 1", "-"),
    ("x x 'a'", "-"),
];

/// A name that no Int follows, or an Int before another one, or a name.
const CHOICE: [Plain; 7] = [
    Plain::Choice(&[1, 2, 3]),
    Plain::Sequence(&[3, 4]),
    Plain::Sequence(&[5, 6, 5]),
    Plain::Token(NAME),
    Plain::NotAhead(5),
    Plain::Token(Class::Int),
    Plain::Ahead(5),
];

const CHOICES: [(&str, &str); 5] = [
    ("a", "c0/4;p3;0;p1;"),
    ("1 2", "c1/5;p4;0;p1;1;"),
    ("a 1", "-"),
    ("1", "-"),
    ("1 a", "-"),
];

/// A single name: all tokens of a text are to be matched.
const ONE_NAME: [Plain; 1] = [Plain::Token(NAME)];

const ONE_NAMES: [(&str, &str); 3] = [("a a", "-"), ("a", "0;"), ("", "-")];

#[test]
fn trees_of_texts(rt: HostRuntime) {
    let alloc = rt.alloc();
    expect_trees(&rt, alloc, &LIST, &LISTS);
    expect_trees(&rt, alloc, &PARTS, &WITH_PARTS);
    expect_trees(&rt, alloc, &CHOICE, &CHOICES);
    expect_trees(&rt, alloc, &ONE_NAME, &ONE_NAMES);
}

/// Rows, and the number of the first that may match without end.
const ENDLESS: [(&[Plain], usize); 5] = [
    // a row that is itself
    (&[Plain::Sequence(&[0])], 0),
    // a row that calls itself over another, after an optional part
    (
        &[
            Plain::Token(NAME),
            Plain::Sequence(&[2, 3]),
            Plain::Optional(0),
            Plain::Choice(&[0, 1]),
        ],
        1,
    ),
    // a row that reaches an endless one isn't endless itself
    (
        &[
            Plain::Sequence(&[1]),
            Plain::Many(2),
            Plain::Optional(3),
            Plain::Token(NAME),
        ],
        1,
    ),
    // a separator and a part that both may be empty
    (
        &[
            Plain::AtLeastOne(3),
            Plain::SeparatedBy(2, 2),
            Plain::Optional(3),
            Plain::Token(NAME),
        ],
        1,
    ),
    // looking ahead counts as taking nothing
    (
        &[Plain::AtLeastOne(1), Plain::NotAhead(2), Plain::Token(NAME)],
        0,
    ),
];

/// Rows of which only the separator may be empty.
const EMPTY_SEPARATOR: [Plain; 3] = [
    Plain::SeparatedBy(1, 2),
    Plain::Optional(2),
    Plain::Token(NAME),
];

#[test]
fn endless_rows(rt: HostRuntime) {
    let alloc = rt.alloc();
    for (rows, number) in &ENDLESS {
        assert_eq!(rt; grammar(alloc, rows).err(), Some(BadGrammar::Row(*number)));
    }
    assert_eq!(rt; grammar(alloc, &EMPTY_SEPARATOR).err(), None);
}

/// Classes, and a digit for each token of a text: one where the class has it.
const CLASSES: [(Class, &str); 15] = [
    (NAME, "100000010000000"),
    (Class::Name(NameKind::VarId), "110000010000000"),
    (Class::Unqualified(NameKind::ConId), "001000000000000"),
    (Class::Name(NameKind::ConId), "001100000000000"),
    (Class::Unqualified(NameKind::VarOp), "000010100000000"),
    (Class::Unqualified(NameKind::ConOp), "000001000000000"),
    (Class::Special(Special::Minus), "000000100000000"),
    (Class::Special(Special::As), "000000010000000"),
    (Class::Int, "000000001100000"),
    (Class::Digit, "000000001000000"),
    (Class::Char, "000000000010000"),
    (Class::String, "000000000001000"),
    (Class::Keyword(Keyword::Of), "000000000000100"),
    (Class::Reserved(ReservedOperator::Equals), "000000000000010"),
    (Class::Mark(Mark::OpenBrace), "000000000000001"),
];

/// The digits of a class for tokens.
fn digits(alloc: Global, class: Class, tokens: &[Token]) -> Result<String, AllocError> {
    let mut digits = String::new(alloc);
    for token in tokens {
        digits.push(if class.has(token) { '1' } else { '0' })?;
    }
    Ok(digits)
}

#[test]
fn classes(rt: HostRuntime) -> Result<(), Fail> {
    let alloc = rt.alloc();
    let tokens = tokens_of(alloc, b"x M.x C M.C + :+ - as 7 70 'c' \"s\" of = {")?;
    for (class, expected) in &CLASSES {
        let found = digits(alloc, *class, tokens.as_slice())?;
        assert_eq!(rt; found.as_str(), *expected, "{class:?}");
    }
    Ok(())
}

/// A token that the layout puts in.
fn laid(layout: LayoutMark) -> Token {
    Token {
        kind: TokenKind::Layout(layout),
        place: Place {
            module: NameId(0),
            line: 1,
            column: 1,
        },
    }
}

/// Marks that the layout puts in, and those of a text.
const MARKS: [(LayoutMark, Mark); 3] = [
    (LayoutMark::Open, Mark::OpenBrace),
    (LayoutMark::Close, Mark::CloseBrace),
    (LayoutMark::Separator, Mark::Semicolon),
];

#[test]
fn marks_of_the_layout(rt: HostRuntime) {
    for (layout, mark) in &MARKS {
        let token = laid(*layout);
        assert!(rt; Class::Mark(*mark).has(&token));
        assert!(rt; !Class::Mark(Mark::Comma).has(&token));
    }
}

#[test]
fn laws_hold_of_tokens() {
    one_tree::<Token>();
    each_row_decides::<Token>();
}
