//! The text of a module as FlatCurry, and modules that are refused.
use crate::runs::{expect, failing, whole};
use cu_cmd::Status;
use std::process::Abort;

/// A module, and its text or the line of its refusal.
type Case = (&'static str, &'static str);

const COIN: &str = "coin = 0\ncoin = 1";

const COIN_TEXT: &str = concat!(
    "Prog \"M\" [\"Prelude\"] [] [\n",
    "Func (\"M\",\"coin\") 0 Public (TCons (\"Prelude\",\"Int\") []) ",
    "(Rule [] (Or (Lit (Intc 0)) (Lit (Intc 1))))] []\n",
);

const TEXTS: [Case; 7] = [
    ("", "Prog \"M\" [\"Prelude\"] [] [] []\n"),
    (COIN, COIN_TEXT),
    (
        "f 0 = 1\nf x = 2",
        concat!(
            "Prog \"M\" [\"Prelude\"] [] [\n",
            "Func (\"M\",\"f\") 1 Public ",
            "(FuncType (TCons (\"Prelude\",\"Int\") []) (TCons (\"Prelude\",\"Int\") [])) (Rule [1] ",
            "(Or (Case Flex (Var 1) [Branch (LPattern (Intc 0)) (Lit (Intc 1))]) ",
            "(Lit (Intc 2))))] []\n",
        ),
    ),
    (
        "module M (g) where\nh = 'a'\ng = h",
        concat!(
            "Prog \"M\" [\"Prelude\"] [] [\n",
            "Func (\"M\",\"h\") 0 Private (TCons (\"Prelude\",\"Char\") []) ",
            "(Rule [] (Lit (Charc 97))),\n",
            "Func (\"M\",\"g\") 0 Public (TCons (\"Prelude\",\"Char\") []) ",
            "(Rule [] (Comb FuncCall (\"M\",\"h\") []))] []\n",
        ),
    ),
    // a local function takes what it captures first
    (
        "f x = g 1 where g y = x : [y]",
        concat!(
            "Prog \"M\" [\"Prelude\"] [] [\n",
            "Func (\"M\",\"f\") 1 Public (FuncType (TCons (\"Prelude\",\"Int\") []) ",
            "(TCons (\"Prelude\",\"[]\") [TCons (\"Prelude\",\"Int\") []])) ",
            "(Rule [1] (Comb FuncCall (\"M\",\"f#1\") [Var 1,Lit (Intc 1)])),\n",
            "Func (\"M\",\"f#1\") 2 Private (FuncType (TVar 0) (FuncType (TVar 0) ",
            "(TCons (\"Prelude\",\"[]\") [TVar 0]))) ",
            "(Rule [1,2] (Comb ConsCall (\"Prelude\",\":\") [Var 1,",
            "Comb ConsCall (\"Prelude\",\":\") [Var 2,",
            "Comb ConsCall (\"Prelude\",\"[]\") []]]))] []\n",
        ),
    ),
    // variables are numbered as they come
    (
        "later f x y = f y",
        concat!(
            "Prog \"M\" [\"Prelude\"] [] [\n",
            "Func (\"M\",\"later\") 3 Public (FuncType (FuncType (TVar 0) (TVar 1)) ",
            "(FuncType (TVar 2) (FuncType (TVar 0) (TVar 1)))) ",
            "(Rule [1,2,3] (Comb FuncCall (\"Prelude\",\"apply\") [Var 1,Var 3]))] []\n",
        ),
    ),
    // synonyms are expanded in the types of functions
    (
        "type Pair b a = (a, b)\nswap :: Pair a b -> Pair b a\nswap (x, y) = (y, x)",
        concat!(
            "Prog \"M\" [\"Prelude\"] [\n",
            "TypeSyn (\"M\",\"Pair\") Public [0,1] ",
            "(TCons (\"Prelude\",\"(,)\") [TVar 1,TVar 0])] [\n",
            "Func (\"M\",\"swap\") 1 Public ",
            "(FuncType (TCons (\"Prelude\",\"(,)\") [TVar 0,TVar 1]) ",
            "(TCons (\"Prelude\",\"(,)\") [TVar 1,TVar 0])) ",
            "(Rule [1] (Case Flex (Var 1) [Branch (Pattern (\"Prelude\",\"(,)\") [2,3]) ",
            "(Comb ConsCall (\"Prelude\",\"(,)\") [Var 3,Var 2])]))] []\n",
        ),
    ),
];

const REFUSALS: [Case; 9] = [
    ("f x = (x", "refused 6 Syntax M:1\n"),
    ("module N where", "refused 10 HeaderName M\n"),
    ("f = y", "refused 12 UnknownName M:1:5 y\n"),
    ("f = 1 == 2 == 3", "refused 7 FixityClash M:1:5\n"),
    ("f x x = 1", "refused 16 NonLinear M:1:5\n"),
    ("f :: Int Int\nf = 0", "refused 22 TypeArity M:1:6\n"),
    ("type A = [A]", "refused 23 SynonymCycle A\n"),
    ("f = g 'a'\ng x = x + 1", "refused 20 TypeClash M.f\n"),
    ("f :: a -> Int\nf x = x", "refused 21 Signature M.f\n"),
];

const WORDS: [&str; 2] = ["compile", "M"];

#[test]
fn modules_have_their_texts(rt: HostRuntime) {
    for (module, text) in &TEXTS {
        expect(&rt, module, &WORDS, whole(rt.alloc()), text, Status::Done);
    }
    let words = ["compile", "--", "M"];
    expect(
        &rt,
        COIN,
        &words,
        whole(rt.alloc()),
        COIN_TEXT,
        Status::Done,
    );
}

#[test]
fn modules_are_refused(rt: HostRuntime) {
    for (module, line) in &REFUSALS {
        expect(
            &rt,
            module,
            &WORDS,
            whole(rt.alloc()),
            line,
            Status::Refused,
        );
    }
    let words = ["compile", "A"];
    let line = "refused 8 MissingModule A\n";
    expect(&rt, COIN, &words, whole(rt.alloc()), line, Status::Refused);
    let words = ["compile", "M", "--goal", "coin"];
    let line = "bad command line\n";
    expect(&rt, COIN, &words, whole(rt.alloc()), line, Status::Usage);
}

#[test]
fn texts_break_off(rt: HostRuntime) {
    let output = failing(rt.alloc(), 0, 6);
    expect(&rt, COIN, &WORDS, output, "Prog \"", Status::WriteFault);
}
