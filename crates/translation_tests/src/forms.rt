//! Each form of the language, and the kernel program that it stands for. What is
//! expected of each text was worked out by hand from the table of translation.
use crate::programs::translated;
use std::alloc::Global;
use std::process::Abort;

/// The text of a module, and the lines of its functions.
type Form = (&'static str, &'static str);

/// Heads with as many arguments as they take, with fewer and with more, and other
/// terms with arguments.
const APPLICATIONS: [Form; 10] = [
    ("f = not True", "f = not(True)"),
    ("f = (not) True", "f = not(True)"),
    ("f = Just 1", "f = Just(1)"),
    ("f = (&&) True", "f = &&[True]"),
    ("f = Just", "f = Just[]"),
    ("f = g 1\ng x y = x", "f = g[1]\ng x0 x1 = x0"),
    ("f = id not True", "f = (id(not[]) @ True)"),
    (
        "f = flip const 1 not True",
        "f = (flip(const[],1,not[]) @ True)",
    ),
    ("f = (id not) True", "f = (id(not[]) @ True)"),
    ("f g = g 1 2", "f x0 = ((x0 @ 1) @ 2)"),
];

/// Set functions, with all arguments and with fewer.
const SET_FUNCTIONS: [Form; 4] = [
    (
        "import SetFunctions\nk x y = x + y\nf = set2 k 1 2",
        "k x0 x1 = +(x0,x1)\nf = set k(1,2)",
    ),
    (
        "import SetFunctions\nk x y = x + y\nf = set2 (k) 1",
        "k x0 x1 = +(x0,x1)\nf = set k[1]",
    ),
    ("import SetFunctions\nf = set2 (+)", "f = set +[]"),
    (
        "import SetFunctions\nk = 1 ? 2\nf = set0 k",
        "k = ?(1,2)\nf = set k",
    ),
];

/// Texts, lists and tuples.
const LISTS: [Form; 6] = [
    ("f = \"ab\"", "f = :('a',:('b',[]))"),
    ("f = \"\"", "f = []"),
    ("f = [1, 2]", "f = :(1,:(2,[]))"),
    ("f = 1 : []", "f = :(1,[])"),
    ("f = (1, 'a')", "f = (,)(1,'a')"),
    ("f = (,) 1", "f = (,)[1]"),
];

/// A minus before a number, and before other terms.
const MINUS: [Form; 6] = [
    ("f = - 5", "f = -5"),
    ("f = - (5)", "f = -5"),
    ("f = - 5 + 2", "f = +(-5,2)"),
    ("f = - 5 * 2", "f = negate(*(5,2))"),
    ("f x = - x", "f x0 = negate(x0)"),
    ("f = 1 - 2 - 3", "f = -(-(1,2),3)"),
];

/// Sections with an operand on the left and on the right.
const SECTIONS: [Form; 4] = [
    ("f = (1 +)", "f = +[1]"),
    ("f = (+ 1)", "f = flip[+[],1]"),
    ("f = (1 `id`)", "f = id(1)"),
    ("f = (`const` 1)", "f = flip[const[],1]"),
];

/// Conditions, case distinctions and guards.
const DISTINCTIONS: [Form; 7] = [
    (
        "f x = if x then 1 else 2",
        "f x0 = case x0 of {True -> 1; False -> 2}",
    ),
    (
        "f x = case x of { 0 -> 2; _ -> 3 }",
        "f x0 = case x0 of {0 -> 2; x1 -> 3}",
    ),
    (
        "f x = fcase x of { True -> 1 }",
        "f x0 = fcase x0 of {True -> 1}",
    ),
    (
        "f x = case x of { y | y -> 1 }",
        "f x0 = case x0 of {x1 -> case x1 of {True -> 1; False -> failed}}",
    ),
    (
        "f x | x = 1 | True = 2",
        "f x0 = case x0 of {True -> 1; False -> case True of {True -> 2; False -> failed}}",
    ),
    (
        "f True | False = 1\nf x = 2",
        "f True = case False of {True -> 1; False -> failed}\nf x0 = 2",
    ),
    (
        "f x | y = 1 where y = x",
        "f x0 = let x1 = x0 in case x1 of {True -> 1; False -> failed}",
    ),
];

/// Functions without names.
const LAMBDAS: [Form; 4] = [
    ("f = \\x y -> x", "f = f#1[]\nf#1 x0 x1 = x0"),
    ("f = \\(Just x) -> x", "f = f#1[]\nf#1 Just(x0) = x0"),
    (
        "f = \\x -> \\y -> x",
        "f = f#1[]\nf#1 x0 = f#2[x0]\nf#2 x0 x1 = x0",
    ),
    (
        "f = (\\x -> x, \\y -> y)",
        "f = (,)(f#1[],f#2[])\nf#1 x0 = x0\nf#2 x1 = x1",
    ),
];

/// Lists of numbers. What they are made of is the Prelude's, whatever is in scope.
const ENUMERATIONS: [Form; 5] = [
    ("f = [1 ..]", "f = enumFrom(1)"),
    ("f = [1 .. 9]", "f = enumFromTo(1,9)"),
    ("f = [1, 3 ..]", "f = enumFromThen(1,3)"),
    ("f = [1, 3 .. 9]", "f = enumFromThenTo(1,3,9)"),
    ("import Prelude ()\nf = [1 .. 2]", "f = enumFromTo(1,2)"),
];

/// Conditions, local names and generators, of which a pattern may fail.
const COMPREHENSIONS: [Form; 7] = [
    (
        "f = [1 | True]",
        "f = case True of {True -> :(1,[]); False -> []}",
    ),
    ("f = [x | let x = 1]", "f = let x0 = 1 in :(x0,[])"),
    (
        "f = [x | x <- \"a\"]",
        "f = concatMap(f#1[],:('a',[]))\nf#1 x0 = :(x0,[])",
    ),
    (
        "f = [1 | True <- []]",
        "f = concatMap(f#1[],[])\nf#1 x0 = case x0 of {True -> :(1,[]); x1 -> []}",
    ),
    (
        "f = [x | (x, 'a') <- []]",
        "f = concatMap(f#1[],[])\nf#1 x0 = case x0 of {(,)(x2,'a') -> :(x2,[]); x1 -> []}",
    ),
    (
        "f = [x | x <- [], True]",
        "f = concatMap(f#1[],[])\nf#1 x0 = case True of {True -> :(x0,[]); False -> []}",
    ),
    (
        "f = [x | x <- [], y <- x]",
        "f = concatMap(f#1[],[])\nf#1 x0 = concatMap(f#2[x0],x0)\nf#2 x0 x1 = :(x0,[])",
    ),
];

/// Free variables, local variables in the order of their dependencies, the variables
/// of patterns, and local functions.
const BLOCKS: [Form; 9] = [
    (
        "f = let { x, y free; z = x } in z",
        "f = free x0 in free x1 in let x2 = x0 in x2",
    ),
    ("f = let x = 1 in x", "f = let x0 = 1 in x0"),
    ("f = let (x) = 1 in x", "f = let x0 = 1 in x0"),
    ("f = let _ = 1 in 2", "f = let x0 = 1 in 2"),
    (
        "f = let { a = 1; b = 2 } in a",
        "f = let x0 = 1 in let x1 = 2 in x0",
    ),
    (
        "f = let { a = b; b = 1 } in a",
        "f = let x1 = 1 in let x0 = x1 in x0",
    ),
    (
        "f = let { a = g 1; g x = b; b = 2 } in a",
        "f = let x2 = 2 in let x0 = f#1(x2,1) in x0\nf#1 x2 x1 = x2",
    ),
    (
        "f p = let (x, y) = p in y",
        "f x0 = let x1 = x0 in let x2 = f#1(x1) in let x3 = f#2(x1) in x3\nf#1 (,)(x4,x5) = x4\nf#2 (,)(x6,x7) = x7",
    ),
    (
        "f = let { g 0 = 1; g 1 = 2 } in g 0",
        "f = f#1(0)\nf#1 0 = 1\nf#1 1 = 2",
    ),
];

/// What local functions capture stands before their own parameters.
const CAPTURES: [Form; 4] = [
    (
        "f x = g 1 where g y = x + y",
        "f x0 = f#1(x0,1)\nf#1 x0 x1 = +(x0,x1)",
    ),
    (
        "f = let { g y = (w + y) + z; z = 1; w = 2 } in g 3",
        "f = let x1 = 1 in let x2 = 2 in f#1(x1,x2,3)\nf#1 x1 x2 x0 = +(+(x2,x0),x1)",
    ),
    (
        "f = let { g x y = z; z = 1 } in g 2",
        "f = let x2 = 1 in f#1[x2,2]\nf#1 x2 x0 x1 = x2",
    ),
    (
        "f x y = g 1 where { g a = h a; h b = if x then g y else b }",
        "f x0 x1 = f#1(x0,x1,1)\nf#1 x0 x1 x2 = f#2(x0,x1,x2)\nf#2 x0 x1 x3 = case x0 of {True -> f#1(x0,x1,x1); False -> x3}",
    ),
];

/// Patterns of rules.
const PATTERNS: [Form; 8] = [
    ("f _ = 1", "f x0 = 1"),
    ("f a@(Just _) = a", "f x0@Just(x1) = x0"),
    ("f (-1) = 2", "f -1 = 2"),
    ("f \"a\" = 1", "f :('a',[]) = 1"),
    ("f [x] = x", "f :(x0,[]) = x0"),
    ("f (x : y : _) = y", "f :(x0,:(x1,x2)) = x1"),
    ("f (x, y) = x", "f (,)(x0,x1) = x0"),
    ("x `f` y = x", "f x0 x1 = x0"),
];

/// Goals in an empty module. Their own variables come last.
const GOALS: [Form; 4] = [
    ("not True", "goal = not(True)"),
    ("x where y, x free", "goal x0 x1 = x1"),
    ("let z = x in z where x free", "goal x1 = let x0 = x1 in x0"),
    (
        "map (\\y -> x) \"a\" where x free",
        "goal x1 = map(goal#1[x1],:('a',[]))\ngoal#1 x1 x0 = x1",
    ),
];

/// Expects these lines of a module, after which its goal stands.
fn expect<R: Abort + AllocGlobal>(rt: &R, forms: &[Form]) {
    for (text, lines) in forms {
        let alloc = rt.alloc();
        let whole = format!(in alloc; "{lines}\ngoal = ()\n").expect(rt, "memory");
        let found = translated(alloc, text, "()").expect(rt, text);
        assert_eq!(rt; found.as_str(), whole.as_str());
    }
}

#[test]
fn applications(rt: HostRuntime) {
    expect(&rt, &APPLICATIONS);
    expect(&rt, &SET_FUNCTIONS);
    expect(&rt, &MINUS);
    expect(&rt, &SECTIONS);
}

#[test]
fn data(rt: HostRuntime) {
    expect(&rt, &LISTS);
    expect(&rt, &ENUMERATIONS);
    expect(&rt, &COMPREHENSIONS);
}

#[test]
fn distinctions(rt: HostRuntime) {
    expect(&rt, &DISTINCTIONS);
    expect(&rt, &PATTERNS);
}

#[test]
fn functions(rt: HostRuntime) {
    expect(&rt, &LAMBDAS);
    expect(&rt, &BLOCKS);
    expect(&rt, &CAPTURES);
}

#[test]
fn goals(rt: HostRuntime) {
    let alloc = rt.alloc();
    for (goal, lines) in &GOALS {
        let whole = format!(in alloc; "{lines}\n").expect(&rt, "memory");
        let found = translated(alloc, "", goal).expect(&rt, goal);
        assert_eq!(rt; found.as_str(), whole.as_str());
    }
}
