//! Displays of values, by the names of the sample program.
ghost use Rattle.cu_values.specs.Cells.{IsOneSpelled};

use crate::kernel_sample::{call, functions, marks, parts_by};
use cu_kernel::{ConId, FunId, Head, Int, Lit, Program};
use cu_names::Names;
use cu_values::{Cell, Value, Workspace, show};
use std::alloc::{AllocError, Global};
use std::process::Abort;
use std::test::Fail;

const NIL: Cell = Cell::Con(ConId(0), 0);

const CONS: Cell = Cell::Con(ConId(1), 2);

const UNIT: Cell = Cell::Con(ConId(2), 0);

const PAIR: Cell = Cell::Con(ConId(3), 2);

const TRIPLE: Cell = Cell::Con(ConId(4), 3);

const LONGEST: Cell = Cell::Con(ConId(16), 15);

const FALSE: Cell = Cell::Con(ConId(17), 0);

const JUST: Cell = Cell::Con(ConId(19), 1);

/// The constructor of a module's own that is called as that of pairs.
const OWN_PAIR: Cell = Cell::Con(ConId(20), 2);

/// A constructor that is called `+`.
const SUM: Cell = Cell::Con(ConId(21), 1);

const COLON_PLUS: Cell = Cell::Con(ConId(22), 2);

const TREE: Cell = Cell::Con(ConId(23), 3);

const ONE: Cell = Cell::Lit(Lit::Int(1));

const TWO: Cell = Cell::Lit(Lit::Int(2));

const MINUS_ONE: Cell = Cell::Lit(Lit::Int(-1));

const LEAST: Cell = Cell::Lit(Lit::Int(Int::MIN));

const A: Cell = Cell::Lit(Lit::Char('a'));

const X: Cell = Cell::LVar(1);

const Y: Cell = Cell::LVar(2);

/// What displays need.
#[derive(Drop)]
struct Shower<'a> {
    alloc: Global,
    program: &'a Program,
    names: &'a Names,
    workspace: Workspace,
    out: Vec<u8>,
}

impl Shower<'_> {
    /// Expects the display of a value.
    fn expect_value<R: Abort>(&mut self, rt: &R, value: &Value, text: &str) -> Result<(), Fail> {
        self.out.clear();
        self.workspace
            .show(value, self.program, self.names, &mut self.out)?;
        assert_eq!(rt; self.out.as_slice(), text.as_bytes());
        Ok(())
    }

    /// Expects the display of the value that cells spell.
    fn expect<R: Abort>(&mut self, rt: &R, cells: &[Cell], text: &str) -> Result<(), Fail>
        requires { IsOneSpelled cells.now }
    {
        let value = Value::spelled(Vec::from_slice(self.alloc, cells)?);
        self.expect_value(rt, &value, text)
    }
}

fn expect_numbers<R: Abort>(rt: &R, shower: &mut Shower) -> Result<(), Fail> {
    shower.expect(rt, &[ONE], "1")?;
    shower.expect(rt, &[MINUS_ONE], "-1")?;
    shower.expect(rt, &[LEAST], "-170141183460469231731687303715884105728")?;
    shower.expect(rt, &[X], "_1")
}

/// Characters, and their displays.
const CHARACTERS: [(char, &str); 8] = [
    ('a', "'a'"),
    ('\n', "'\\n'"),
    ('\'', "'\\''"),
    ('"', "'\"'"),
    ('\\', "'\\\\'"),
    ('\u{1f}', "'\\31'"),
    ('\u{7f}', "'\\127'"),
    ('\u{e9}', "'\u{e9}'"),
];

fn expect_characters<R: Abort>(rt: &R, shower: &mut Shower) -> Result<(), Fail> {
    for (character, text) in &CHARACTERS {
        shower.expect(rt, &[Cell::Lit(Lit::Char(*character))], text)?;
    }
    Ok(())
}

fn expect_applications<R: Abort>(rt: &R, shower: &mut Shower) -> Result<(), Fail> {
    shower.expect(rt, &[FALSE], "False")?;
    shower.expect(rt, &[JUST, ONE], "Just 1")?;
    shower.expect(rt, &[JUST, MINUS_ONE], "Just (-1)")?;
    shower.expect(rt, &[JUST, JUST, UNIT], "Just (Just ())")?;
    shower.expect(rt, &[COLON_PLUS, ONE, TWO], "(:+) 1 2")?;
    let tree = [TREE, JUST, MINUS_ONE, FALSE, X];
    shower.expect(rt, &tree, "Tree (Just (-1)) False _1")
}

fn expect_partial<R: Abort>(rt: &R, shower: &mut Shower) -> Result<(), Fail> {
    let function = Cell::Part(Head::Fun(FunId(0)), 0);
    shower.expect(rt, &[function], "<f>")?;
    let function = Cell::Part(Head::Fun(FunId(1)), 1);
    shower.expect(rt, &[JUST, function, ONE], "Just <f>")?;
    let constructor = Cell::Part(Head::Con(ConId(1)), 1);
    shower.expect(rt, &[constructor, ONE], "<:>")?;
    let set_function = Cell::Part(Head::Set(FunId(1)), 1);
    shower.expect(rt, &[set_function, JUST, ONE], "<set2>")
}

fn expect_lists<R: Abort>(rt: &R, shower: &mut Shower) -> Result<(), Fail> {
    shower.expect(rt, &[NIL], "[]")?;
    shower.expect(rt, &[JUST, NIL], "Just []")?;
    shower.expect(rt, &[CONS, MINUS_ONE, NIL], "[-1]")?;
    shower.expect(rt, &[CONS, ONE, CONS, TWO, NIL], "[1,2]")?;
    shower.expect(rt, &[CONS, A, CONS, ONE, NIL], "['a',1]")?;
    shower.expect(rt, &[JUST, CONS, ONE, NIL], "Just [1]")?;
    let lists = [CONS, CONS, ONE, NIL, CONS, NIL, NIL];
    shower.expect(rt, &lists, "[[1],[]]")
}

/// Lists that end in variables, and a `:` that is no list.
fn expect_open_lists<R: Abort>(rt: &R, shower: &mut Shower) -> Result<(), Fail> {
    shower.expect(rt, &[CONS, ONE, CONS, TWO, X], "1:2:_1")?;
    shower.expect(rt, &[CONS, A, X], "'a':_1")?;
    shower.expect(rt, &[CONS, CONS, ONE, X, X], "(1:_1):_1")?;
    shower.expect(rt, &[CONS, CONS, ONE, NIL, Y], "[1]:_2")?;
    shower.expect(rt, &[JUST, CONS, ONE, X], "Just (1:_1)")?;
    shower.expect(rt, &[JUST, CONS, ONE, TWO], "Just ((:) 1 2)")?;
    let applied = [CONS, MINUS_ONE, CONS, JUST, ONE, X];
    shower.expect(rt, &applied, "(-1):(Just 1):_1")?;
    let inner = [CONS, JUST, ONE, CONS, CONS, ONE, X, NIL];
    shower.expect(rt, &inner, "[Just 1,1:_1]")
}

fn expect_tuples<R: Abort>(rt: &R, shower: &mut Shower) -> Result<(), Fail> {
    shower.expect(rt, &[UNIT], "()")?;
    shower.expect(rt, &[PAIR, ONE, MINUS_ONE], "(1,-1)")?;
    shower.expect(rt, &[JUST, PAIR, ONE, TWO], "Just (1,2)")?;
    shower.expect(rt, &[CONS, PAIR, ONE, TWO, X], "(1,2):_1")?;
    let pair = [PAIR, JUST, ONE, CONS, MINUS_ONE, X];
    shower.expect(rt, &pair, "(Just 1,(-1):_1)")?;
    let triple = [TRIPLE, A, CONS, A, NIL, COLON_PLUS, ONE, TWO];
    shower.expect(rt, &triple, "('a',\"a\",(:+) 1 2)")
}

/// Strings, by their characters.
const STRINGS: [(&str, &str); 9] = [
    ("a", "\"a\""),
    ("it's", "\"it's\""),
    ("\"", "\"\\\"\""),
    ("\u{7f}4", "\"\\127\\&4\""),
    ("\u{7f}a", "\"\\127a\""),
    ("\u{1}9'", "\"\\1\\&9'\""),
    ("\n5\t\r\\", "\"\\n5\\t\\r\\\\\""),
    ("\u{1f}\u{1f}", "\"\\31\\31\""),
    ("\u{e9}\u{1f600}", "\"\u{e9}\u{1f600}\""),
];

/// A character before a list.
fn longer(alloc: Global, c: char, list: Value) -> Result<Value, AllocError> {
    let character = Value::literal(alloc, Lit::Char(c))?;
    Value::constructed(alloc, ConId(1), &[character, list])
}

/// The list of a text's characters.
fn string(alloc: Global, text: &str) -> Result<Value, AllocError> {
    let mut list = Value::constructed(alloc, ConId(0), &[])?;
    for c in text.chars().rev() {
        list = longer(alloc, c, list)?;
    }
    Ok(list)
}

fn expect_strings<R: Abort>(rt: &R, shower: &mut Shower) -> Result<(), Fail> {
    for (characters, text) in &STRINGS {
        let value = string(shower.alloc, characters)?;
        shower.expect_value(rt, &value, text)?;
    }
    Ok(())
}

/// The tuple of 15 components.
fn expect_longest<R: Abort>(rt: &R, shower: &mut Shower) -> Result<(), Fail> {
    let cells = [
        LONGEST, ONE, ONE, ONE, ONE, ONE, ONE, ONE, ONE, ONE, ONE, ONE, ONE, ONE, ONE, TWO,
    ];
    shower.expect(rt, &cells, "(1,1,1,1,1,1,1,1,1,1,1,1,1,1,2)")
}

/// Constructors of a module's own, called as a tuple's and as an operator.
fn expect_own<R: Abort>(rt: &R, shower: &mut Shower) -> Result<(), Fail> {
    shower.expect(rt, &[OWN_PAIR, ONE, MINUS_ONE], "(,) 1 (-1)")?;
    shower.expect(rt, &[SUM, ONE], "(+) 1")?;
    shower.expect(rt, &[JUST, OWN_PAIR, ONE, TWO], "Just ((,) 1 2)")
}

fn expect_all<R: Abort>(rt: &R, shower: &mut Shower) -> Result<(), Fail> {
    expect_numbers(rt, shower)?;
    expect_characters(rt, shower)?;
    expect_applications(rt, shower)?;
    expect_partial(rt, shower)?;
    expect_lists(rt, shower)?;
    expect_open_lists(rt, shower)?;
    expect_tuples(rt, shower)?;
    expect_longest(rt, shower)?;
    expect_own(rt, shower)?;
    expect_strings(rt, shower)
}

#[test]
fn displays(rt: HostRuntime) -> Result<(), Fail> {
    let alloc = rt.alloc();
    let mut names = Names::new(alloc);
    names.intern("f")?;
    let parts = parts_by(
        alloc,
        &mut names,
        functions(alloc, call(alloc)),
        marks(alloc),
    )?;
    let valid = parts.valid()?;
    assert!(rt; valid);
    let program = Program::new(parts);
    let mut shower = Shower {
        alloc,
        program: &program,
        names: &names,
        workspace: Workspace::with_room(alloc)?,
        out: Vec::new(alloc),
    };
    expect_all(&rt, &mut shower)?;
    let mut out = Vec::from_slice(alloc, b"> ")?;
    show(alloc, &string(alloc, "ab")?, &program, &names, &mut out)?;
    assert_eq!(rt; out.as_slice(), b"> \"ab\"".as_slice());
    Ok(())
}
