//! The productions of the grammar.

/// A production of the grammar, with texts that it accepts, and texts that are
/// refused at line 1.
pub(super) struct Production {
    pub(super) accepted: &'static [&'static str],
    pub(super) refused: &'static [&'static str],
}

/// Headers, and what they export.
pub(super) const HEADERS: [Production; 4] = [
    // headers
    Production {
        accepted: &[
            "module M where",
            "module m where x = 1",
            "module M () where",
            "module M (f, T) where",
            "",
        ],
        refused: &[
            "module where",
            "module M",
            "M where",
            "module M ( where",
            "module M (f g) where",
            "module M (f,) where",
            "module M (,) where",
            "module M (\nwhere\nx = (",
            "module M ;\n where { }",
        ],
    },
    // names of modules
    Production {
        accepted: &["module A.B where", "module as where"],
        refused: &["module M.m where", "module 1 where", "module M.+ where"],
    },
    // exports
    Production {
        accepted: &["module M (module X, module A.B, module x) where"],
        refused: &["module M (module) where", "module M (1) where"],
    },
    // entities
    Production {
        accepted: &[
            "module M (f, (+), (`g`), A.h, (A.+)) where",
            "module M (T, A.T, T(..), T(), T(A, (:+)), (:+)(A)) where",
        ],
        refused: &[
            "module M (+) where",
            "module M (`f`) where",
            "module M (T U) where",
            "module M (T(.., A)) where",
            "module M (T(A.B)) where",
            "module M (T(a)) where",
            "module M (T(A,)) where",
        ],
    },
];

/// Imports.
pub(super) const IMPORTS: [Production; 1] = [
    // imports
    Production {
        accepted: &[
            "import qualified A.B",
            "import a as B.C",
            "import A hiding (f)",
            "import A (f, T(..), (+))",
            "import A ()",
            "import qualified A as B hiding (T(C), (`g`))",
            "import as as hiding",
            "import A\nimport B\nx = 1",
        ],
        refused: &[
            "import",
            "import qualified",
            "import A.b",
            "import A as",
            "import A hiding",
            "import A hiding f",
            "import A (f,)",
            "import A (f g)",
            "import A (module B)",
            "import A; import (B)",
        ],
    },
];

/// Items, and fixities.
pub(super) const ITEMS: [Production; 2] = [
    // items
    Production {
        accepted: &[
            "import A",
            "infixl 6 +",
            "data T",
            "type S = T",
            "f :: T",
            "f = 1",
        ],
        refused: &[
            "x",
            "(x, y) = z",
            "Just x = y",
            "[x] = y",
            "_ = 1",
            "x@y = 1",
            "1 = 2",
            "x, y free",
            "case x of { }",
        ],
    },
    // fixities
    Production {
        accepted: &[
            "infixr 0 $",
            "infix `f`",
            "infixr 5 :+, `C`, -",
            "infixl 9 `f`, `g`",
            "infixr 9 .; infixl 9 !!",
        ],
        refused: &[
            "infixl 10 +",
            "infixl 6",
            "infixl 6 M.+",
            "infix 3 f",
            "infixl -1 +",
            "infixl 6 + -",
            "infixr 5 +,",
            "infix 4 =",
        ],
    },
];

/// Data types and synonyms.
pub(super) const DATA_TYPES: [Production; 3] = [
    // data types
    Production {
        accepted: &[
            "data T a b = A | B a (T a b) [a]",
            "newtype N = N Int | M",
            "data T = A Int; type S = T",
        ],
        refused: &[
            "data t",
            "data M.T",
            "data T A",
            "data T =",
            "data T = A |",
            "newtype",
        ],
    },
    // declarations of constructors
    Production {
        accepted: &[
            "data L a = a :+ L a | a `C` a",
            "data T a = [a] :+ (a, a)",
            "data T = (:+) Int Int | (`C`) ()",
            "data T = A (Int -> Int)",
        ],
        refused: &[
            "data T = a",
            "data T = A -> B",
            "data T = a M.:+ b",
            "data T = a + b",
            "data T = a `c` b",
            "data T = (+) Int",
        ],
    },
    // synonyms
    Production {
        accepted: &[
            "type S = [Char]",
            "type F a b = (a, b) -> [a] -> ()",
            "type S = M.T",
        ],
        refused: &[
            "type S",
            "type s = Int",
            "type S =",
            "type M.S = Int",
            "type S A = Int",
        ],
    },
];

/// Signatures and types.
pub(super) const SIGNATURES: [Production; 4] = [
    // signatures
    Production {
        accepted: &[
            "f, g :: a -> b -> c",
            "(+), (`h`) :: M.T a (N.S b) -> (Int)",
        ],
        refused: &[
            "f ::",
            "F :: Int",
            "f, :: Int",
            "f g :: Int",
            "+ :: Int",
            "M.f :: Int",
        ],
    },
    // types
    Production {
        accepted: &["f :: (a -> b) -> [a] -> [b]"],
        refused: &["f :: Int ->", "f :: -> Int", "f :: a = b"],
    },
    // type constructors on arguments
    Production {
        accepted: &["f :: T (S a) [b] ()", "f :: M.T a"],
        refused: &["f :: a b", "f :: (T) a"],
    },
    // types that are arguments
    Production {
        accepted: &["f :: ((a, b), ()) -> [[T a]]"],
        refused: &[
            "f :: (,)",
            "f :: (a,)",
            "f :: []",
            "f :: [a, b]",
            "f :: M.a",
            "f :: 1",
            "f :: (->)",
        ],
    },
];

/// Rules.
pub(super) const RULES: [Production; 2] = [
    // left-hand sides
    Production {
        accepted: &[
            "f x (y, _) = x",
            "(+) x y = x",
            "x + y = x",
            "x `g` y = y",
            "x : xs + ys = xs",
            "(x + y) z = z",
            "((x + y) z) w = z",
        ],
        refused: &[
            "f x",
            "f (x + y) = x",
            "x M.+ y = x",
            "x + = y",
            "+ x = y",
            "(f x) y = x",
            "(x + y) = z",
            "(:+) x y = x",
            "M.f x = x",
            "f x -> x",
        ],
    },
    // right-hand sides
    Production {
        accepted: &["f x | x = 1 | True = 2", "f x = y where y = x"],
        refused: &[
            "f x =",
            "f x | x",
            "f x | = 1",
            "f | x -> 1",
            "f = 1 | x = 2",
            "f where x = 1",
            "f = x where { } where { }",
        ],
    },
];

/// Local declarations.
pub(super) const BLOCKS: [Production; 3] = [
    // blocks
    Production {
        accepted: &[
            "f x | x = x where { y = x ; ; }",
            "f x = y where { }",
            "f x = y where { ; ; y = 1 }",
        ],
        refused: &[
            "f = x where {",
            "f = x where { x = 1 y = 2 }",
            "f = x where { = }",
        ],
    },
    // local declarations
    Production {
        accepted: &[
            "f x = y where\n  y = x\n  z :: Int\n  z = 1\n  a, b free\n  (c, d) = e\n  g (C h) = h",
        ],
        refused: &[
            "f = x where x",
            "f x = y where { import A }",
            "f x = y where { data T }",
            "f x = y where { type S = T }",
            "f x = y where { infixl 6 + }",
        ],
    },
    // free variables
    Production {
        accepted: &["f = x where x, y free"],
        refused: &[
            "f = x where x y free",
            "f = x where x, free",
            "f = x where X free",
            "f = x where (x) free",
            "f = x where free",
        ],
    },
];

/// Expressions and their operands.
pub(super) const EXPRESSIONS: [Production; 3] = [
    // expressions
    Production {
        accepted: &[
            "1",
            "- x",
            "x + y * - z",
            "x - - y",
            "x M.+ y `M.f` z `C` a",
            "x :+ y M.:+ z",
        ],
        refused: &[
            "x +", "+ x", "- - x", "x - + y", "x `f y", "x = 1", "x @ y", "x :: Int", "x ; y",
        ],
    },
    // operands
    Production {
        accepted: &[
            "\\x (C y) -> x",
            "x + \\y -> y",
            "if a then b else c",
            "f x (y z)",
        ],
        refused: &[
            "f \\x -> x",
            "\\ -> x",
            "\\x y",
            "if a then b",
            "if a else b",
            "do { x }",
        ],
    },
    // local declarations of an expression
    Production {
        accepted: &[
            "let x = 1 in x",
            "let { ; ; x = 1 ; } in x",
            "let x, y free in x",
            "let { } in 1",
            "let (x, _) = y in x",
            "let (x `f` y) z = x in f",
        ],
        refused: &[
            "let x = 1",
            "let x = 1 in",
            "let { data T } in 1",
            "let { infixl 6 + } in 1",
        ],
    },
];

/// Case distinctions.
pub(super) const CASES: [Production; 2] = [
    // case distinctions
    Production {
        accepted: &[
            "case x of { C y -> y; _ | a -> b | c -> d where { e = 1 } }",
            "fcase x of { }",
            "case x of\n  C -> 1\n  D -> 2",
        ],
        refused: &["case x", "case x { }", "fcase of { }", "case x of C -> 1 }"],
    },
    // alternatives
    Production {
        accepted: &["case x of { C -> y ; ; D | y -> z }"],
        refused: &[
            "case x of { C = 1 }",
            "case x of { C }",
            "case x of { C -> }",
            "case x of { C | a = 1 }",
            "case x of { C where { y = 1 } }",
            "case x of { -> 1 }",
        ],
    },
];

/// Names, literals and parentheses.
pub(super) const ATOMS: [Production; 3] = [
    // names and literals
    Production {
        accepted: &[
            "'a'", "\"abc\"", "M.f M.C", "(+)", "(-)", "(M.+)", "(:)", "(`f`)", "(M.:+)",
        ],
        refused: &["_", "x@y", "(=)", "(`f)", "(+"],
    },
    // parentheses
    Production {
        accepted: &["()", "(,)", "(,,)", "(x)", "(x, y)"],
        refused: &["(", ")", "(,x)", "(x,)", "(x y"],
    },
    // sections
    Production {
        accepted: &[
            "(+ x)",
            "(+ x + y)",
            "(`f` x)",
            "(x +)",
            "(x + y +)",
            "(x `M.f`)",
            "(- x)",
            "(x -)",
            "(- x +)",
        ],
        refused: &["(+ )x)", "(x + -)", "(f +", "(+ -)", "(x + +)", "(+ x +)"],
    },
];

/// Lists.
pub(super) const LISTS: [Production; 3] = [
    // lists
    Production {
        accepted: &[
            "[]",
            "[x, y]",
            "[1 ..]",
            "[1 .. 9]",
            "[1, 3 ..]",
            "[1, 3 .. 9]",
        ],
        refused: &[
            "[",
            "[x,]",
            "[x y",
            "[..]",
            "[.. 9]",
            "[1, 2, 3 ..]",
            "[1 .. 2 ..]",
            "[1 .. ,]",
        ],
    },
    // list comprehensions
    Production {
        accepted: &["[(x, y) | (x, C y) <- xs, let z = x, z]"],
        refused: &["[x |]", "[x | y <-]", "[x | , x]", "[x | x <- y,]"],
    },
    // qualifiers
    Production {
        accepted: &[
            "[x | let { y = 1 } in y]",
            "[x | let x = 1]",
            "[x | x, y <- z]",
        ],
        refused: &[
            "[x | f y <- z]",
            "[x | let { 1 }]",
            "[x | let { x = 1 } in]",
        ],
    },
];

/// Patterns.
pub(super) const PATTERNS: [Production; 2] = [
    // patterns
    Production {
        accepted: &[
            "case x of { y : ys -> y }",
            "case x of { C a b :+ D -> a }",
            "case x of { a `C` b -> a }",
            "\\(x : y : zs) -> x",
        ],
        refused: &[
            "case x of { a M.:+ b -> a }",
            "case x of { a + b -> a }",
            "case x of { a : -> a }",
            "\\x : y -> x",
        ],
    },
    // constructor patterns
    Production {
        accepted: &[
            "case x of { -1 -> 2; 1 -> 3 }",
            "case x of { (M.:+) a M.C -> a }",
        ],
        refused: &[
            "case x of { f a -> a }",
            "case x of { - y -> 2 }",
            "case x of { -'a' -> 2 }",
            "\\(- x) -> x",
            "\\ -1 -> x",
        ],
    },
];

/// Patterns that are arguments.
pub(super) const ARGUMENTS: [Production; 2] = [
    // patterns that are arguments
    Production {
        accepted: &[
            "\\x _ -> x",
            "\\x@(y, z) -> x",
            "\\x@y@z -> x",
            "\\C (C x) -> x",
            "\\M.C (M.:+) -> x",
            "\\1 'a' \"s\" -> x",
        ],
        refused: &[
            "\\x@ -> x",
            "\\C@x -> x",
            "\\M.x -> x",
            "\\(f x) -> x",
            "\\(M.+) -> x",
            "\\ ~x -> x",
        ],
    },
    // tuples and lists of patterns
    Production {
        accepted: &["\\[] [x] [x, y] -> x", "\\() (x) (x, y) -> x"],
        refused: &["\\( -> x", "\\(x,) -> x", "\\[ -> x", "\\[x,] -> x"],
    },
];

/// Goals.
pub(super) const WHOLE_GOALS: [Production; 2] = [
    // goals
    Production {
        accepted: &["x where x free", "f x y where x, y free"],
        refused: &["", "x where x", "x where y = 1", "where x free"],
    },
    // declarations of a goal
    Production {
        accepted: &["f x where { x free; y free }"],
        refused: &[
            "x where { }",
            "x where { x free; }",
            "x where { ; x free }",
            "x where x free where y free",
        ],
    },
];
