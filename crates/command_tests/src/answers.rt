//! Goals in modules, and what is listed of them or why they are refused. What is
//! expected was worked out by hand from what the language means.
use crate::runs::{expect, whole, written};
use cu_cmd::Status;
use std::alloc::{AllocError, Global};
use std::process::Abort;
use std::thread::Threads;

/// The text of the module `M`, a goal in it, and what is expected.
pub(crate) type Case = (&'static str, &'static str, &'static str);

const COINS: &str = "coin = 0 ? 1\ndouble x = x + x";

const SET_COINS: &str = "import SetFunctions\ncoin = 0 ? 1\ndouble x = x + x";

/// Listings with their rounds. Each call, each case distinction, each choice
/// and each operation is a step.
const LISTINGS: [Case; 13] = [
    (COINS, "coin", "[4] 0\n[4] 1\nno more\n"),
    (
        COINS,
        "coin + coin",
        "[8] 0\n[8] 1\n[8] 1\n[8] 2\nno more\n",
    ),
    // an argument has one value
    (COINS, "double coin", "[6] 0\n[6] 2\nno more\n"),
    (
        "",
        "let x = 0 ? 1 in (x, x)",
        "[3] (0,0)\n[3] (1,1)\nno more\n",
    ),
    (
        "",
        "not x where x free",
        "[4] {x=False} True\n[4] {x=True} False\nno more\n",
    ),
    (
        "",
        "xs ++ [x] =:= [1,2,3] where xs, x free",
        "[20] {xs=[1,2], x=3} True\nno more\n",
    ),
    (
        "end xs | ys ++ [y] =:= xs = y where ys, y free",
        "end [1,2]",
        "[16] 2\nno more\n",
    ),
    (
        "",
        "case Just 3 of { Nothing -> 0; Just n -> n + 1 }",
        "[3] 4\nno more\n",
    ),
    ("f x = g 1 where g y = x + y", "f 2", "[4] 3\nno more\n"),
    (
        "import qualified Sides as S\npair = (S.side, 2)",
        "pair",
        "[5] (0,2)\n[6] (1,2)\nno more\n",
    ),
    (SET_COINS, "sortValues (set0 coin)", "[9] [0,1]\nno more\n"),
    // choices of an argument lie outside
    (
        SET_COINS,
        "sortValues (set1 double coin)",
        "[11] [0]\n[11] [2]\nno more\n",
    ),
    ("", "[x | x <- [5]]", "[19] [5]\nno more\n"),
];

/// Branches that wait.
const WAITS: [Case; 3] = [
    (
        "",
        "x + 1 where x free",
        "[1] waits on x\nno more; 1 floundered\n",
    ),
    (
        "",
        "case x of { True -> 1; False -> 2 } where x free",
        "[1] waits on x\nno more; 1 floundered\n",
    ),
    (
        "import SetFunctions\np = y + 1 where y free",
        "sortValues (set0 p)",
        "[5] waits inside a set function\nno more; 1 floundered\n",
    ),
];

const INSERT: &str = "insert x ys = x : ys\ninsert x (y : ys) = y : insert x ys";

const SIGN: &str = "sign n | n < 0 = -1\n       | n == 0 = 0\n       | otherwise = 1";

const PATH: &str = "infixr 5 :+\n\
data Path = End | Int :+ Path\n\
steps End = 0\n\
steps (_ :+ rest) = 1 + steps rest";

const COUNT: &str = "count xs = go 0 xs where\n  go n [] = n\n  go n (_ : ys) = go (n + 1) ys";

/// Listings without their rounds.
const VALUES: [Case; 14] = [
    ("", "[x * 10 | x <- [1 .. 3], x > 1]", "[20,30]\nno more\n"),
    (
        "",
        "[(x, y) | x <- [1, 2], let y = x + x]",
        "[(1,2),(2,4)]\nno more\n",
    ),
    (
        INSERT,
        "insert 0 [1, 2]",
        "[0,1,2]\n[1,0,2]\n[1,2,0]\nno more\n",
    ),
    (SIGN, "map sign [-5, 0, 7]", "[-1,0,1]\nno more\n"),
    (PATH, "steps (3 :+ 4 :+ End)", "2\nno more\n"),
    (COUNT, "count \"abc\"", "3\nno more\n"),
    (
        "swap p = (y, x) where (x, y) = p",
        "swap (1, 'a')",
        "('a',1)\nno more\n",
    ),
    ("ones = 1 : ones", "take 2 ones", "[1,1]\nno more\n"),
    ("", "foldr (\\x n -> n - x) 0 [1, 2]", "-3\nno more\n"),
    ("", "map (10 -) [1, 2]", "[9,8]\nno more\n"),
    (
        "",
        "zipWith (,) [1, 2] \"ab\"",
        "[(1,'a'),(2,'b')]\nno more\n",
    ),
    ("", "\"ab\" ++ ['c']", "\"abc\"\nno more\n"),
    ("", "if 1 < 2 then 7 else failed", "7\nno more\n"),
    ("", "failed ? 2 * 3 + 4", "10\nno more\n"),
];

const PARITY: &str =
    "parity xs = e xs where\n  e [] = True\n  e (_:ys) = o ys\n  o [] = False\n  o (_:ys) = e ys";

const OPERATORS: &str = "infixl 6 |>\n\
x |> f = f x\n\
infixr 4 :*\n\
data Pair = Int :* Int\n\
swap (a :* b) = b :* a\n\
first (a :* _) = a";

const DEEP: &str = "f a b = g 1 where\n  g n = h (n + a) where\n    h m = m * b + n + s\n  s = 100";

const PATTERNS: &str = "g all@(x : _) = (x, all)\n\
h (-1) = 'm'\n\
h 2 = 't'\n\
k \"ab\" = 1\n\
k ['c', _] = 2\n\
m (Just (x, [y])) = x + y";

/// More forms of the language, without rounds.
const FORMS: [Case; 13] = [
    (
        PARITY,
        "(parity [1,2], parity [1])",
        "(True,False)\nno more\n",
    ),
    (
        OPERATORS,
        "first (swap (3 :* 4)) |> negate |> (\\x -> x - 1)",
        "-5\nno more\n",
    ),
    (DEEP, "f 2 10", "131\nno more\n"),
    (PATTERNS, "g [7, 8]", "(7,[7,8])\nno more\n"),
    (PATTERNS, "[h (-1), h 2]", "\"mt\"\nno more\n"),
    (
        PATTERNS,
        "(k \"ab\", k \"cd\", m (Just (3, [4])))",
        "(1,2,7)\nno more\n",
    ),
    (
        "",
        "[x | (x, 'a') <- [(1, 'a'), (2, 'b'), (3, 'a')]]",
        "[1,3]\nno more\n",
    ),
    (
        "",
        "[1, 3 .. 7] ++ [3, 2 .. 1]",
        "[1,3,5,7,3,2,1]\nno more\n",
    ),
    (
        "",
        "let (a, b) = (1 ? 2, 3); c = a + b in (c, a)",
        "(4,1)\n(5,2)\nno more\n",
    ),
    (
        "",
        "let even n = n == 0 || odd (n - 1); odd n = n > 0 && even (n - 1) in even 4",
        "True\nno more\n",
    ),
    (
        "",
        "fcase x of { True -> 1; False -> 2 } where x free",
        "{x=False} 2\n{x=True} 1\nno more\n",
    ),
    (
        "import qualified Prelude as P\ntwice f x = f (f x)",
        "(P.negate P.. twice (P.+ 3)) 1",
        "-7\nno more\n",
    ),
    (
        "import SetFunctions\nd n | n > 0 = n ? 0",
        "(valueOf 5 (set1 d 5), isEmpty (set1 d 0), foldValues (+) 0 (set1 d 5))",
        "(True,True,5)\nno more\n",
    ),
];

/// Refusals. Types are looked at after names, and before operators; operators
/// that can't be grouped are told before other faults, and modules before the
/// goal.
const REFUSALS: [Case; 37] = [
    ("x = 1 == 2 == 3", "1", "refused 7 FixityClash M:1:5\n"),
    (
        "f x x = 1\ng = 1 < 2 < 3",
        "1",
        "refused 7 FixityClash M:2:5\n",
    ),
    ("f 0 = 1\nf 1 2 = 3", "1", "refused 15 Arity M:2:1\n"),
    ("f (Just 1 2) = 3", "1", "refused 15 Arity M:1:4\n"),
    ("f x (y, x) = y", "1", "refused 16 NonLinear M:1:9\n"),
    (
        "f = xs where xs = 1 : xs",
        "1",
        "refused 17 RecursiveLocal M:1:14\n",
    ),
    (
        "import SetFunctions\nf = set0",
        "1",
        "refused 18 SetName M:2:5\n",
    ),
    (
        "import SetFunctions",
        "set0 (1 + 2)",
        "refused 18 SetName goal:1:1\n",
    ),
    ("import Wrong", "1", "refused 16 NonLinear Wrong:2:8\n"),
    (
        "import Wrong\nx = 1 == 2 == 3",
        "1",
        "refused 7 FixityClash M:2:5\n",
    ),
    (
        "import SetFunctions",
        "sortValues (set1 (\\x -> x) 1)",
        "refused 18 SetName goal:1:13\n",
    ),
    (
        "import SetFunctions\nh x = sortValues (set1 h x)",
        "True",
        "refused 19 SetRecursion M.h\n",
    ),
    ("f x = (x", "1", "refused 6 Syntax M:1\n"),
    ("", "", "refused 6 Syntax goal:1\n"),
    ("", "1 == 2 == 3", "refused 7 FixityClash goal:1:1\n"),
    ("", "'a", "refused 2 BadToken goal:1:1\n"),
    ("x = '\\x110000'", "1", "refused 3 LiteralRange M:1:6\n"),
    ("import Nowhere", "1", "refused 8 MissingModule Nowhere\n"),
    ("import M", "1", "refused 9 ImportCycle M\n"),
    ("module N where", "1", "refused 10 HeaderName M\n"),
    (
        "import Sides (hidden)",
        "1",
        "refused 11 NotExported M:1:15 hidden\n",
    ),
    ("y = q", "1", "refused 12 UnknownName M:1:5 q\n"),
    ("", "q + 1", "refused 12 UnknownName goal:1:1 q\n"),
    ("x = 1\ny = 2\nx = 3", "1", "refused 14 Duplicate M:3:1 x\n"),
    ("y = q", "1 == 2 == 3", "refused 12 UnknownName M:1:5 q\n"),
    (
        "",
        "let xs = 1 : xs in xs",
        "refused 17 RecursiveLocal goal:1:5\n",
    ),
    (
        "data T a = C a\nf :: T -> Int\nf _ = 0",
        "1",
        "refused 22 TypeArity M:2:6\n",
    ),
    ("type A = B\ntype B = A", "1", "refused 23 SynonymCycle A\n"),
    (
        "",
        "let f :: Maybe -> Int; f _ = 0 in f Nothing",
        "refused 22 TypeArity goal:1:10\n",
    ),
    ("f :: Maybe\nf = q", "1", "refused 12 UnknownName M:2:5 q\n"),
    (
        "x = 1 == 2 == 3\nf :: Int Int\nf = 0",
        "1",
        "refused 22 TypeArity M:2:6\n",
    ),
    (
        "import Wrong\ntype A = A",
        "1",
        "refused 23 SynonymCycle A\n",
    ),
    (
        "type B = [A]\ntype A = Maybe A\nf :: Maybe\nf = Nothing",
        "1",
        "refused 23 SynonymCycle A\n",
    ),
    (
        "f :: Maybe\nf = Nothing\ntype A = A",
        "1",
        "refused 22 TypeArity M:1:6\n",
    ),
    (
        "",
        "let f :: Maybe; f = q in f",
        "refused 12 UnknownName goal:1:21 q\n",
    ),
    (
        "",
        "let f :: Maybe; f = 1 == 2 == 3 in f",
        "refused 22 TypeArity goal:1:10\n",
    ),
    (
        "import SetFunctions\nh x = sortValues (set1 h x)",
        "let f :: Maybe; f = h in f",
        "refused 19 SetRecursion M.h\n",
    ),
];

/// A listing without the rounds of its lines.
fn without_rounds(alloc: Global, listing: &str) -> Result<String, AllocError> {
    let mut values = String::new(alloc);
    for line in listing.split_inclusive('\n') {
        match line.split_once("] ") {
            Some((_, value)) => values.push_str(value)?,
            None => values.push_str(line)?,
        }
    }
    Ok(values)
}

/// The words for a goal in the module `M`.
fn words(goal: &'static str) -> [&'static str; 4] {
    ["solve", "M", "--goal", goal]
}

/// Expects this outcome of a goal.
pub(crate) fn expect_case<R: Threads + Abort + AllocGlobal + Sync>(
    rt: &R,
    case: &Case,
    status: Status,
) {
    let output = whole(rt.alloc());
    expect(rt, case.0, &words(case.1), output, case.2, status);
}

/// Expects these values of a goal, in whatever rounds.
pub(crate) fn expect_values<R: Threads + Abort + AllocGlobal + Sync>(rt: &R, case: &Case) {
    let text = written(rt, case.0, &words(case.1));
    let values = without_rounds(rt.alloc(), text.as_str()).expect(rt, "memory");
    assert_eq!(rt; values.as_str(), case.2);
}

#[test]
fn listings(rt: HostRuntime) {
    for case in &LISTINGS {
        expect_case(&rt, case, Status::Done);
    }
    for case in &WAITS {
        expect_case(&rt, case, Status::Floundered);
    }
}

#[test]
fn values(rt: HostRuntime) {
    for case in &VALUES {
        expect_values(&rt, case);
    }
}

#[test]
fn forms(rt: HostRuntime) {
    for case in &FORMS {
        expect_values(&rt, case);
    }
}

#[test]
fn refusals(rt: HostRuntime) {
    for case in &REFUSALS {
        expect_case(&rt, case, Status::Refused);
    }
}
