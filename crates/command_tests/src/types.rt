//! Programs with types and programs without, and the types of the Prelude. What is
//! expected was worked out by hand from the rules of type inference.
use crate::answers::{Case, expect_case, expect_values};
use crate::runs::{expect, whole, written};
use cu_cmd::Status;
use std::alloc::{AllocError, Global};
use std::process::Abort;
use std::thread::Threads;

/// A local function that depends on the function around it is of that one's group.
const OUTER: &str = "f xs = (g 1, g 'a') where\n  g y = const y (f [])";

/// A local function whose type is declared has an instance at each use, also in
/// the function around it.
const DECLARED_INNER: &str = "f xs = (g 1, g 'a') where\n  g :: b -> b\n  g y = const y (f [])";

/// Lists of pairs of pairs, whose type changes at the recursion.
const NEST: &str = "data Nest a = Nil | More a (Nest (a, a))\n\
size :: Nest a -> Int\n\
size Nil = 0\n\
size (More _ rest) = 1 + 2 * size rest";

const UNDECLARED_NEST: &str = "data Nest a = Nil | More a (Nest (a, a))\n\
size Nil = 0\n\
size (More _ rest) = 1 + 2 * size rest";

const PARITY: &str = "isEven n = if n == 0 then True else isOdd (n - 1)\n\
isOdd n = if n == 0 then False else isEven (n - 1)";

const SYNONYMS: &str = "type Pair a = (a, a)\n\
type Test a = a -> Bool\n\
both :: Test a -> Pair a -> Bool\n\
both p (x, y) = p x && p y\n\
positive :: Test Int\n\
positive n = n > 0";

/// A function that is declared lends its variables to one that isn't.
const MIXED: &str = "f :: a -> Int\nf x = g x\ng y = f y";

const BOX: &str = "data Box = Box (Bool -> Bool)\nopen (Box f) = f";

const PAIRS: &str = "import SetFunctions\npair x y = (x, y)";

/// Programs that have types, and values of goals in them.
const TYPED: [Case; 19] = [
    ("", "let f x = x in (f 1, f 'a')", "(1,'a')\nno more\n"),
    (
        "f x = (g 1, g 'a') where g y = (x, y)",
        "f True",
        "((True,1),(True,'a'))\nno more\n",
    ),
    (DECLARED_INNER, "f \"\"", "(1,'a')\nno more\n"),
    (
        "f x = (g 1, g 'a') where\n  g :: b -> b\n  g y = const y x",
        "f (f ())",
        "(1,'a')\nno more\n",
    ),
    (PARITY, "(isEven 3, isOdd 3)", "(False,True)\nno more\n"),
    (NEST, "size (More 1 (More (2, 3) Nil))", "3\nno more\n"),
    (
        SYNONYMS,
        "both positive (1, 0) || both not (False, False)",
        "True\nno more\n",
    ),
    (
        "type Number a = Int\nf :: Number a -> Int\nf x = x",
        "f 1",
        "1\nno more\n",
    ),
    ("f :: Int -> Int\nf x = x", "f 1", "1\nno more\n"),
    (MIXED, "1", "1\nno more\n"),
    (
        BOX,
        "(open (Box not) True, Box not)",
        "(False,Box <not>)\nno more\n",
    ),
    (
        "",
        "id id 1 ? length [id, const 1, \\x -> x + 1]",
        "1\n3\nno more\n",
    ),
    (
        PAIRS,
        "(sortValues (set2 pair 1 'a'), sortValues (set2 pair () [()]))",
        "([(1,'a')],[((),[()])])\nno more\n",
    ),
    (
        PAIRS,
        "foldValues (\\p n -> snd p + n) 0 (set2 pair 'a' 2)",
        "2\nno more\n",
    ),
    ("", "(1, 'a') == (1, 'b')", "False\nno more\n"),
    ("", "(x, x) where x free", "{x=_1} (_1,_1)\nno more\n"),
    ("", "x =:= [] where x free", "{x=[]} True\nno more\n"),
    ("f xs = (n, n) where n = []", "f 1", "([],[])\nno more\n"),
    // a local variable's signature has no effect
    ("f = n where\n  n :: Int\n  n = 'a'", "f", "'a'\nno more\n"),
];

/// Goals without types, in the empty module.
const GOALS: [&str; 19] = [
    "not 'a'",
    "1 + 'a'",
    "'a' < 'b'",
    "\"a\" == 1",
    "[1, 'a']",
    "1 : 2",
    "1 2",
    "(1, 2) == (1, 2, 3)",
    "if 1 then 2 else 3",
    "if True then 2 else 'a'",
    "case 1 of { 'a' -> 2; _ -> 3 }",
    "case [] of { Nothing -> 1; _ -> 2 }",
    "let n = [] in (1 : n, 'a' : n)",
    "let { (f, n) = (id, 1) } in (f n, f 'a')",
    "(x + 1, not x) where x free",
    "x =:= [x] where x free",
    "(\\f -> f 1) 'a'",
    "length (1, 2)",
    "['a' .. 'c']",
];

/// Modules with a group of functions that has no types, and the first function of
/// the first such group.
const CLASHES: [Case; 23] = [
    ("f x = x x", "1", "refused 20 TypeClash M.f\n"),
    ("f x = f", "1", "refused 20 TypeClash M.f\n"),
    ("f 'a' = 1\nf 1 = 2", "1", "refused 20 TypeClash M.f\n"),
    ("f 1 = 'a'\nf _ = 2", "1", "refused 20 TypeClash M.f\n"),
    ("f x | 1 = x", "1", "refused 20 TypeClash M.f\n"),
    (
        "data T = T Int\nf (T 'a') = 1",
        "1",
        "refused 20 TypeClash M.f\n",
    ),
    (
        "data T = T Int\nf = T not",
        "1",
        "refused 20 TypeClash M.f\n",
    ),
    (OUTER, "1", "refused 20 TypeClash M.f\n"),
    (UNDECLARED_NEST, "1", "refused 20 TypeClash M.size\n"),
    // one type for each function in its own group
    (
        "f x = (g 1, g 'a')\ng y = const y (f y)",
        "1",
        "refused 20 TypeClash M.f\n",
    ),
    // a captured parameter has one type
    (
        "f x = (g 1, x 'a') where g y = x y",
        "1",
        "refused 20 TypeClash M.f\n",
    ),
    (
        "f x = 1 where g y = x + not y",
        "1",
        "refused 20 TypeClash M.f#1\n",
    ),
    // a type with too few arrows, or too many
    ("f :: Int\nf x = x", "1", "refused 20 TypeClash M.f\n"),
    ("f :: Int -> Int\nf = 1", "1", "refused 20 TypeClash M.f\n"),
    (
        "f :: Bool -> Int\nf x = x",
        "1",
        "refused 20 TypeClash M.f\n",
    ),
    // the first of two groups, the first function of a group, a callee
    ("f = not 'a'\ng = not 1", "1", "refused 20 TypeClash M.f\n"),
    (
        "f x = g x\ng x = not (f x) + 1",
        "1",
        "refused 20 TypeClash M.f\n",
    ),
    ("f = g + 1\ng = not 'a'", "1", "refused 20 TypeClash M.g\n"),
    (
        "f = h 'a'\nh x = x + 1\ng = not 'b'",
        "1",
        "refused 20 TypeClash M.f\n",
    ),
    (
        "",
        "(\\f -> (f 1, f 'a')) id",
        "refused 20 TypeClash goal#1\n",
    ),
    // functions that a module imports
    (
        "import Sides\nf = side ++ \"\"",
        "1",
        "refused 20 TypeClash M.f\n",
    ),
    (
        PAIRS,
        "foldValues (\\p n -> fst p + n) 0 (set2 pair 'a' 2)",
        "refused 20 TypeClash goal\n",
    ),
    (
        PAIRS,
        "valueOf 'a' (set2 pair 1 2)",
        "refused 20 TypeClash goal\n",
    ),
];

/// Declared types that are too general.
const SIGNATURES: [Case; 10] = [
    ("f :: a -> Int\nf x = x", "1", "refused 21 Signature M.f\n"),
    ("f :: a -> b\nf x = x", "1", "refused 21 Signature M.f\n"),
    ("f :: a\nf x = x", "1", "refused 21 Signature M.f\n"),
    (
        "f, g :: a -> a\nf x = x\ng = not",
        "1",
        "refused 21 Signature M.g\n",
    ),
    (
        "type Test a = a -> Bool\nf :: Test a\nf = not",
        "1",
        "refused 21 Signature M.f\n",
    ),
    // a variable of a declared type is in the type of what is captured
    (
        "f x = g 1 where\n  g :: a -> a\n  g y = const y (x == y)",
        "1",
        "refused 21 Signature M.f#1\n",
    ),
    // variables of two declared types in one group
    (
        "f :: a -> Int\nf x = g x\ng y = f y + h y\nh :: b -> Int\nh x = g x",
        "1",
        "refused 21 Signature M.f\n",
    ),
    // a local variable's type is of the function around it
    (
        "f :: a -> a\nf x = y where y = not x",
        "1",
        "refused 21 Signature M.f\n",
    ),
    (
        "",
        "let { f :: a -> a; f x = x + 1 } in f 1",
        "refused 21 Signature goal#1\n",
    ),
    (
        "import SetFunctions\nf :: Values a -> [Int]\nf = sortValues",
        "1",
        "refused 21 Signature M.f\n",
    ),
];

/// Goals that are functions or hold some, or have such a variable, in the empty
/// module.
const FUNCTIONAL: [&str; 9] = [
    "not",
    "(&&) True",
    "map not",
    "\\x -> 1",
    "[not]",
    "Just (1, const 'a')",
    "f 1 where f free",
    "f =:= not where f free",
    "case x of { Just f -> f 1; Nothing -> 2 } where x free",
];

/// Which of two refusals is told.
const ORDER: [Case; 17] = [
    (
        "f :: Maybe -> Int\nf x = not 'a'",
        "1",
        "refused 22 TypeArity M:1:6\n",
    ),
    (
        "type A = A\nf = not 'a'",
        "1",
        "refused 23 SynonymCycle A\n",
    ),
    (
        "f = not 'a'\ng = 1 == 2 == 3",
        "1",
        "refused 7 FixityClash M:2:5\n",
    ),
    (
        "f = not 'a'\ng x x = 1",
        "1",
        "refused 16 NonLinear M:2:5\n",
    ),
    (
        "import SetFunctions\nf = not 'a'\nh x = sortValues (set1 h x)",
        "1",
        "refused 19 SetRecursion M.h\n",
    ),
    // groups in their order
    (
        "f :: a -> Int\nf x = x\ng = not 'a'",
        "1",
        "refused 21 Signature M.f\n",
    ),
    (
        "g = not 'a'\nf :: a -> Int\nf x = x",
        "1",
        "refused 20 TypeClash M.g\n",
    ),
    // a group without types is told so, though its declared types are too general
    (
        "f :: a -> Int\nf x = x + not x",
        "1",
        "refused 20 TypeClash M.f\n",
    ),
    // modules before the goal
    ("f = not 'a'", "1 == 2 == 3", "refused 20 TypeClash M.f\n"),
    ("f = not 'a'", "q", "refused 20 TypeClash M.f\n"),
    ("f = not 'a'", "not", "refused 20 TypeClash M.f\n"),
    (
        "f :: a -> Int\nf x = x",
        "not 'a'",
        "refused 21 Signature M.f\n",
    ),
    // a goal in the order of its stages
    ("", "q + not 'a'", "refused 12 UnknownName goal:1:1 q\n"),
    (
        "",
        "let f :: Maybe; f = not 'a' in f",
        "refused 22 TypeArity goal:1:10\n",
    ),
    ("", "(not, not 'a')", "refused 20 TypeClash goal\n"),
    (
        "",
        "let { f :: a -> Int; f x = x } in not",
        "refused 21 Signature goal#1\n",
    ),
    (
        "",
        "let xs = 1 : xs in not",
        "refused 17 RecursiveLocal goal:1:5\n",
    ),
];

/// How many rules a function has whose definitional tree is too big.
const LARGE_RULES: usize = 100;

/// How many characters the text of each of its rules has.
const LARGE_TEXTS: usize = 340;

/// A function for each of the Prelude, with the type that it has in the Curry
/// Report's Prelude. Without type classes numbers are integers.
const PRELUDE: &str = "\
(+) :: Int -> Int -> Int; (+) = failed
(-) :: Int -> Int -> Int; (-) = failed
(*) :: Int -> Int -> Int; (*) = failed
div :: Int -> Int -> Int; div = failed
mod :: Int -> Int -> Int; mod = failed
(<) :: Int -> Int -> Bool; (<) = failed
(<=) :: Int -> Int -> Bool; (<=) = failed
(>) :: Int -> Int -> Bool; (>) = failed
(>=) :: Int -> Int -> Bool; (>=) = failed
(==) :: a -> a -> Bool; (==) = failed
(=:=) :: a -> a -> Success; (=:=) = failed
(&) :: Success -> Success -> Success; (&) = failed
ord :: Char -> Int; ord = failed
chr :: Int -> Char; chr = failed
failed :: a; failed = failed
(?) :: a -> a -> a; (?) = failed
(&>) :: Success -> a -> a; (&>) = failed
success :: Success; success = failed
otherwise :: Bool; otherwise = failed
(&&) :: Bool -> Bool -> Bool; (&&) = failed
(||) :: Bool -> Bool -> Bool; (||) = failed
not :: Bool -> Bool; not = failed
(/=) :: a -> a -> Bool; (/=) = failed
($) :: (a -> b) -> a -> b; ($) = failed
(.) :: (b -> c) -> (a -> b) -> a -> c; (.) = failed
id :: a -> a; id = failed
const :: a -> b -> a; const = failed
flip :: (a -> b -> c) -> b -> a -> c; flip = failed
curry :: ((a, b) -> c) -> a -> b -> c; curry = failed
uncurry :: (a -> b -> c) -> (a, b) -> c; uncurry = failed
fst :: (a, b) -> a; fst = failed
snd :: (a, b) -> b; snd = failed
negate :: Int -> Int; negate = failed
abs :: Int -> Int; abs = failed
min :: Int -> Int -> Int; min = failed
max :: Int -> Int -> Int; max = failed
compare :: Int -> Int -> Ordering; compare = failed
maybe :: b -> (a -> b) -> Maybe a -> b; maybe = failed
either :: (a -> c) -> (b -> c) -> Either a b -> c; either = failed
head :: [a] -> a; head = failed
tail :: [a] -> [a]; tail = failed
null :: [a] -> Bool; null = failed
(++) :: [a] -> [a] -> [a]; (++) = failed
length :: [a] -> Int; length = failed
(!!) :: [a] -> Int -> a; (!!) = failed
map :: (a -> b) -> [a] -> [b]; map = failed
filter :: (a -> Bool) -> [a] -> [a]; filter = failed
foldr :: (a -> b -> b) -> b -> [a] -> b; foldr = failed
foldl :: (a -> b -> a) -> a -> [b] -> a; foldl = failed
concat :: [[a]] -> [a]; concat = failed
concatMap :: (a -> [b]) -> [a] -> [b]; concatMap = failed
zip :: [a] -> [b] -> [(a, b)]; zip = failed
zipWith :: (a -> b -> c) -> [a] -> [b] -> [c]; zipWith = failed
reverse :: [a] -> [a]; reverse = failed
take :: Int -> [a] -> [a]; take = failed
drop :: Int -> [a] -> [a]; drop = failed
takeWhile :: (a -> Bool) -> [a] -> [a]; takeWhile = failed
dropWhile :: (a -> Bool) -> [a] -> [a]; dropWhile = failed
lookup :: a -> [(a, b)] -> Maybe b; lookup = failed
and :: [Bool] -> Bool; and = failed
or :: [Bool] -> Bool; or = failed
any :: (a -> Bool) -> [a] -> Bool; any = failed
all :: (a -> Bool) -> [a] -> Bool; all = failed
elem :: a -> [a] -> Bool; elem = failed
notElem :: a -> [a] -> Bool; notElem = failed
iterate :: (a -> a) -> a -> [a]; iterate = failed
repeat :: a -> [a]; repeat = failed
replicate :: Int -> a -> [a]; replicate = failed
sum :: [Int] -> Int; sum = failed
product :: [Int] -> Int; product = failed
enumFrom :: Int -> [Int]; enumFrom = failed
enumFromThen :: Int -> Int -> [Int]; enumFromThen = failed
enumFromTo :: Int -> Int -> [Int]; enumFromTo = failed
enumFromThenTo :: Int -> Int -> Int -> [Int]; enumFromThenTo = failed
anyOf :: [a] -> a; anyOf = failed
";

/// How many functions the Prelude has.
const PRELUDE_COUNT: usize = 75;

/// The name of the function of a line of FlatCurry, where the module exports it, and
/// its type.
fn exported(line: &str) -> Option<(&str, &str)> {
    let (prefix, suffix) = line.split_once(" Public (")?;
    let (_, rest) = prefix.split_once("Func (\"")?;
    let (_, name) = rest.split_once("\",\"")?;
    let (name, _) = name.split_once("\") ")?;
    let (kind, _) = match suffix.split_once(") (Rule ") {
        Some(parts) => parts,
        None => suffix.split_once(") (External ")?,
    };
    Some((name, kind))
}

/// The type of an exported function of this name in a text of FlatCurry.
fn type_of<'t>(text: &'t str, name: &str) -> Option<&'t str> {
    for line in text.split_inclusive('\n') {
        if let Some((found, kind)) = exported(line) {
            if found == name {
                return Some(kind);
            }
        }
    }
    None
}

/// How many exported functions a text of FlatCurry has.
fn count(text: &str) -> usize {
    let mut count: usize = 0;
    for line in text.split_inclusive('\n') {
        if exported(line).is_some() {
            count = count.saturating_add(1);
        }
    }
    count
}

#[test]
fn programs_with_types_run(rt: HostRuntime) {
    for case in &TYPED {
        expect_values(&rt, case);
    }
}

/// Expects this refusal of each goal in the empty module.
fn expect_goals<R: Threads + Abort + AllocGlobal + Sync>(
    rt: &R,
    goals: &[&'static str],
    line: &'static str,
) {
    for goal in goals {
        expect_case(rt, &("", *goal, line), Status::Refused);
    }
}

#[test]
fn programs_without_types_are_refused(rt: HostRuntime) {
    expect_goals(&rt, &GOALS, "refused 20 TypeClash goal\n");
    for case in &CLASHES {
        expect_case(&rt, case, Status::Refused);
    }
}

#[test]
fn types_that_are_too_general_are_refused(rt: HostRuntime) {
    for case in &SIGNATURES {
        expect_case(&rt, case, Status::Refused);
    }
}

#[test]
fn functional_goals_are_refused(rt: HostRuntime) {
    expect_goals(&rt, &FUNCTIONAL, "refused 24 GoalFunctional\n");
}

#[test]
fn the_first_refusal_is_told(rt: HostRuntime) {
    for case in &ORDER {
        expect_case(&rt, case, Status::Refused);
    }
}

/// A module with a function whose definitional tree has more than 65,536
/// expressions, and more after it.
fn large_module(alloc: Global, after: &str) -> Result<String, AllocError> {
    let mut text = String::new(alloc);
    for _ in 0..LARGE_RULES {
        text.push_str("f = \"")?;
        for _ in 0..LARGE_TEXTS {
            text.push('a')?;
        }
        text.push_str("\"\n")?;
    }
    text.push_str(after)?;
    Ok(text)
}

/// Expects this refusal where the module with the large function is compiled.
fn expect_large<R: Threads + Abort + AllocGlobal + Sync>(rt: &R, after: &str, line: &str) {
    let module = large_module(rt.alloc(), after).expect(rt, "memory");
    let output = whole(rt.alloc());
    let words = ["compile", "M"];
    expect(rt, module.as_str(), &words, output, line, Status::Refused);
}

#[test]
fn types_come_before_trees_that_are_too_big(rt: HostRuntime) {
    expect_large(&rt, "", "refused 31 TreeTooBig M.f\n");
    expect_large(&rt, "g = not 'a'", "refused 20 TypeClash M.g\n");
}

#[test]
fn the_prelude_has_the_types_of_the_report(rt: HostRuntime) {
    let prelude = written(&rt, "", &["compile", "Prelude"]);
    let report = written(&rt, PRELUDE, &["compile", "M"]);
    assert_eq!(rt; count(prelude.as_str()), PRELUDE_COUNT);
    assert_eq!(rt; count(report.as_str()), PRELUDE_COUNT);
    for line in prelude.as_str().split_inclusive('\n') {
        if let Some((name, kind)) = exported(line) {
            assert_eq!(rt; type_of(report.as_str(), name), Some(kind), "{name}");
        }
    }
}
