//! Inference: the types of programs, and why there are none, worked by hand.
//! A comment gives each program in the source language.

use crate::answers::{expect_after, table_size};
use crate::sample_types::BEFORE;
use std::alloc::Global;
use std::process::Abort;

/// Expects these types of the functions that are written down, or this fault.
fn expect<R: Abort>(rt: &R, alloc: Global, line: &str, expected: &str) {
    expect_after(rt, alloc, BEFORE, line, expected);
}

fn plain_functions<R: Abort>(rt: &R, alloc: Global) {
    // f x = x
    expect(rt, alloc, "fun/1 rule/1 .x0 x0", "(0 -> 0)");
    // f x _ = x
    expect(rt, alloc, "fun/2 rule/2 .x0 .x1 x0", "(0 -> (1 -> 0))");
    // f = 5; g = 'a'
    expect(rt, alloc, "fun/0 rule/0 5 fun/0 rule/0 'a", "Int; Char");
    // f False = True; f True = False
    let not = "fun/1 rule/1 .False True rule/1 .True False";
    expect(rt, alloc, not, "(Bool -> Bool)");
    // f x = case x of { False -> True; True -> False }
    let not = "fun/1 rule/1 .x0 case/2 x0 .False True .True False";
    expect(rt, alloc, not, "(Bool -> Bool)");
    // f g x y = g (x y)
    let composed = "fun/3 rule/3 .x0 .x1 .x2 apply x0 apply x1 x2";
    expect(rt, alloc, composed, "((0 -> 1) -> ((2 -> 0) -> (2 -> 1)))");
    // f _ [] = []; f g (x : xs) = g x : f g xs
    let map = "fun/2 rule/2 .x0 .Nil Nil rule/2 .x0 .Cons/2 .x1 .x2 \
        Cons/2 apply x0 x1 f/2 x0 x2";
    expect(rt, alloc, map, "((0 -> 1) -> ((List 0) -> (List 1)))");
    // a function of two parameters without rules
    expect(rt, alloc, "fun/2", "(0 -> (1 -> 2))");
}

fn groups<R: Abort>(rt: &R, alloc: Global) {
    // f Z = True; f (S n) = g n; g Z = False; g (S n) = f n
    let even = "fun/1 rule/1 .Z True rule/1 .S/1 .x0 g/1 x0 \
        fun/1 rule/1 .Z False rule/1 .S/1 .x0 f/1 x0";
    expect(rt, alloc, even, "(Nat -> Bool); (Nat -> Bool)");
    // f 0 = True; f n = g (n - 1); g 0 = False; g n = f (n - 1)
    let even = "fun/1 rule/1 .0 True rule/1 .x0 g/1 -/2 x0 1 \
        fun/1 rule/1 .0 False rule/1 .x0 f/1 -/2 x0 1";
    expect(rt, alloc, even, "(Int -> Bool); (Int -> Bool)");
    // f x = x; g = (f 1, f 'a')
    let earlier = "fun/1 rule/1 .x0 x0 fun/0 rule/0 Pair/2 f/1 1 f/1 'a";
    expect(rt, alloc, earlier, "(0 -> 0); (Pair Int Char)");
    // f = (g 1, g 'a'); g x = x
    let later = "fun/0 rule/0 Pair/2 g/1 1 g/1 'a fun/1 rule/1 .x0 x0";
    expect(rt, alloc, later, "(Pair Int Char); (0 -> 0)");
    // f x = let y = (f 1, f 'a') in x
    let own = "fun/1 rule/1 .x0 let/1 Pair/2 f/1 1 f/1 'a x0";
    expect(rt, alloc, own, "clash f");
    // f x = x; g x = h x; h x = g 'a' ? g 1
    let member = "fun/1 rule/1 .x0 x0 fun/1 rule/1 .x0 h/1 x0 \
        fun/1 rule/1 .x0 or g/1 'a g/1 1";
    expect(rt, alloc, member, "clash g");
    // f x = g x; g x = f x
    let free = "fun/1 rule/1 .x0 g/1 x0 fun/1 rule/1 .x0 f/1 x0";
    expect(rt, alloc, free, "(0 -> 1); (0 -> 1)");
    // f x = set1 f x, whose type would be that of its own values
    expect(rt, alloc, "fun/1 rule/1 .x0 $f/1 x0", "clash f");
}

fn clashes<R: Abort>(rt: &R, alloc: Global) {
    // f x = x x
    expect(rt, alloc, "fun/1 rule/1 .x0 apply x0 x0", "clash f");
    // f x = x =:= [x]
    let inside = "fun/1 rule/1 .x0 =:=/2 x0 Cons/2 x0 Nil";
    expect(rt, alloc, inside, "clash f");
    // f = 1 + 'a'
    expect(rt, alloc, "fun/0 rule/0 +/2 1 'a", "clash f");
    // f = 1; g x = h x; h x = g x ? (1 + 'a')
    let second = "fun/0 rule/0 1 fun/1 rule/1 .x0 h/1 x0 \
        fun/1 rule/1 .x0 or g/1 x0 +/2 1 'a";
    expect(rt, alloc, second, "clash g");
    // f = 1 2
    expect(rt, alloc, "fun/0 rule/0 apply 1 2", "clash f");
    // f 1 = True; f 'a' = False
    let patterns = "fun/1 rule/1 .1 True rule/1 .'a False";
    expect(rt, alloc, patterns, "clash f");
    // f = 1 + 'a'; g = 2 + 'a'
    let apart = "fun/0 rule/0 +/2 1 'a fun/0 rule/0 +/2 2 'a";
    expect(rt, alloc, apart, "clash f");
    // f = g + 'a'; g = 2 + 'a'
    let needed = "fun/0 rule/0 +/2 g 'a fun/0 rule/0 +/2 2 'a";
    expect(rt, alloc, needed, "clash g");
}

fn declared_types<R: Abort>(rt: &R, alloc: Global) {
    // f :: Int -> Int; f x = x
    let narrow = "fun/1 :-> :Int :Int rule/1 .x0 x0";
    expect(rt, alloc, narrow, "(Int -> Int)");
    // f :: Text -> Texts; f x = [x]
    let texts = "fun/1 :-> :Text :Texts rule/1 .x0 Cons/2 x0 Nil";
    expect(rt, alloc, texts, "((List Char) -> (List (List Char)))");
    // f :: Twice b -> b; f (x, y) = x
    let twice = "fun/1 :-> :Twice/1 :1 :1 rule/1 .Pair/2 .x0 .x1 x0";
    expect(rt, alloc, twice, "((Pair 0 0) -> 0)");
    // f :: First a b; f x y = x
    let first = "fun/2 :First/2 :0 :1 rule/2 .x0 .x1 x0";
    expect(rt, alloc, first, "(0 -> (1 -> 0))");
    // f :: First Int Text; f = g; g x y = x
    let used = "fun/0 :First/2 :Int :Text rule/0 g~0 fun/2 rule/2 .x0 .x1 x0";
    expect(
        rt,
        alloc,
        used,
        "(Int -> ((List Char) -> Int)); (0 -> (1 -> 0))",
    );
    // f :: d -> c; f x = failed
    expect(rt, alloc, "fun/1 :-> :3 :2 rule/1 .x0 failed", "(0 -> 1)");
    // f :: Nest a -> Int; f End = 0; f (Nest x n) = 1 + f n
    let nested = "fun/1 :-> :Nest/1 :0 :Int rule/1 .End 0 rule/1 .Nest/2 .x0 .x1 +/2 1 f/1 x1";
    expect(rt, alloc, nested, "((Nest 0) -> Int)");
    // f :: a -> a; f x = g x; g x = f x
    let partly = "fun/1 :-> :0 :0 rule/1 .x0 g/1 x0 fun/1 rule/1 .x0 f/1 x0";
    expect(rt, alloc, partly, "(0 -> 0); (0 -> 0)");
}

fn declared_clashes<R: Abort>(rt: &R, alloc: Global) {
    // f :: Int; f = 'a'
    expect(rt, alloc, "fun/0 :Int rule/0 'a", "clash f");
    // f :: Int; f x = x
    expect(rt, alloc, "fun/1 :Int rule/1 .x0 x0", "clash f");
    // f :: Int -> Int; f x = x; g = f 'a'
    let narrow = "fun/1 :-> :Int :Int rule/1 .x0 x0 fun/0 rule/0 f/1 'a";
    expect(rt, alloc, narrow, "clash g");
    // f :: Text; f = [1]
    expect(rt, alloc, "fun/0 :Text rule/0 Cons/2 1 Nil", "clash f");
    // f End = 0; f (Nest x n) = 1 + f n
    let nested = "fun/1 rule/1 .End 0 rule/1 .Nest/2 .x0 .x1 +/2 1 f/1 x1";
    expect(rt, alloc, nested, "clash f");
    // f :: a -> Int; f x = x 1
    expect(
        rt,
        alloc,
        "fun/1 :-> :0 :Int rule/1 .x0 apply x0 1",
        "signature f",
    );
    // f :: a -> Int; f x = 1; g :: Int; g = f 'a' ? g
    let instances = "fun/1 :-> :0 :Int rule/1 .x0 1 fun/0 :Int rule/0 or f/1 'a g";
    expect(rt, alloc, instances, "(0 -> Int); Int");
}

fn signatures<R: Abort>(rt: &R, alloc: Global) {
    // f :: a -> Int; f x = x
    expect(rt, alloc, "fun/1 :-> :0 :Int rule/1 .x0 x0", "signature f");
    // f :: a; f = 1
    expect(rt, alloc, "fun/0 :0 rule/0 1", "signature f");
    // f :: a -> b -> a; f x y = x ? y
    let same = "fun/2 :-> :0 :-> :1 :0 rule/2 .x0 .x1 or x0 x1";
    expect(rt, alloc, same, "signature f");
    // f :: a -> b; f x = x
    expect(rt, alloc, "fun/1 :-> :0 :1 rule/1 .x0 x0", "signature f");
    // f = 1; g x = h x; h :: a -> Int; h x = g x ? x
    let second = "fun/0 rule/0 1 fun/1 rule/1 .x0 h/1 x0 \
        fun/1 :-> :0 :Int rule/1 .x0 or g/1 x0 x0";
    expect(rt, alloc, second, "signature g");
    // f :: a -> a; f x = h x; g :: a -> a; g x = h x; h x = f x ? g x
    let joined = "fun/1 :-> :0 :0 rule/1 .x0 h/1 x0 fun/1 :-> :0 :0 rule/1 .x0 h/1 x0 \
        fun/1 rule/1 .x0 or f/1 x0 g/1 x0";
    expect(rt, alloc, joined, "signature f");
    // f :: a -> a; f x = g x; g :: a -> a; g x = f x
    let apart = "fun/1 :-> :0 :0 rule/1 .x0 g/1 x0 fun/1 :-> :0 :0 rule/1 .x0 f/1 x0";
    expect(rt, alloc, apart, "(0 -> 0); (0 -> 0)");
    // f :: a -> Int; f x = x; g = 1 + 'a'
    let both = "fun/1 :-> :0 :Int rule/1 .x0 x0 fun/0 rule/0 +/2 1 'a";
    expect(rt, alloc, both, "signature f");
}

/// Functions with captured parameters, which come first.
fn captured_parameters<R: Abort>(rt: &R, alloc: Global) {
    // f x = g 1 where g y = x
    let plain = "fun/1 rule/1 .x0 g/2 x0 1 fun/2 local/1 rule/2 .x0 .x1 x0";
    expect(rt, alloc, plain, "(0 -> 0); (0 -> (1 -> 0))");
    // g :: b -> b; g y = y, which captured x
    let declared = "fun/2 local/1 :-> :0 :0 rule/2 .x0 .x1 let/2 x0 x1";
    expect(rt, alloc, declared, "(0 -> (1 -> 1))");
    // g :: b -> b; g y = y ? x, which captured x
    let same = "fun/2 local/1 :-> :0 :0 rule/2 .x0 .x1 or x1 x0";
    expect(rt, alloc, same, "signature f");
    // g :: b -> b; g z = let u = x y in z, which captured x and y
    let two = "fun/3 local/2 :-> :0 :0 rule/3 .x0 .x1 .x2 let/3 apply x0 x1 x2";
    expect(rt, alloc, two, "((0 -> 1) -> (0 -> (2 -> 2)))");
    // g :: b -> b; g z = let u = y ? [z] in z, which captured x and y
    let inside = "fun/3 local/2 :-> :0 :0 rule/3 .x0 .x1 .x2 let/3 or x1 Cons/2 x2 Nil x2";
    expect(rt, alloc, inside, "signature f");
    // g :: Nest b -> Int; g End = x; g (Nest y n) = x + g n, which captured x
    let nested = "fun/2 local/1 :-> :Nest/1 :0 :Int rule/2 .x0 .End x0 \
        rule/2 .x0 .Nest/2 .x1 .x2 +/2 x0 f/2 x0 x2";
    expect(rt, alloc, nested, "(Int -> ((Nest 0) -> Int))");
    // the function that captured x, as if a call could pass (x, x) for x
    let changed = "fun/2 local/1 :-> :Nest/1 :0 :Int rule/2 .x0 .End 0 \
        rule/2 .x0 .Nest/2 .x1 .x2 f/2 Pair/2 x0 x0 x2";
    expect(rt, alloc, changed, "clash f");
    // g :: Int; g = x, which captured x
    expect(
        rt,
        alloc,
        "fun/1 local/1 :Int rule/1 .x0 x0",
        "(Int -> Int)",
    );
}

/// A local function that calls the function that it stands in: they are one
/// group.
fn captured_in_groups<R: Abort>(rt: &R, alloc: Global) {
    // f :: a -> a; f x = g 1 where g y = x ? f x
    let inner = "fun/1 :-> :0 :0 rule/1 .x0 g/2 x0 1 \
        fun/2 local/1 rule/2 .x0 .x1 or x0 f/1 x0";
    expect(rt, alloc, inner, "(0 -> 0); (0 -> (Int -> 0))");
    // f :: a -> a; f x = g x where { g :: b -> b; g y = let u = f x in y }
    let both = "fun/1 :-> :0 :0 rule/1 .x0 g/2 x0 x0 \
        fun/2 local/1 :-> :0 :0 rule/2 .x0 .x1 let/2 f/1 x0 x1";
    expect(rt, alloc, both, "(0 -> 0); (0 -> (1 -> 1))");
    // f x = let u = g True in g 'a' where { g :: b -> b; g y = let u = f x in y }
    let instances = "fun/1 rule/1 .x0 let/1 g/2 x0 True g/2 x0 'a \
        fun/2 local/1 :-> :0 :0 rule/2 .x0 .x1 let/2 f/1 x0 x1";
    expect(rt, alloc, instances, "(0 -> Char); (0 -> (1 -> 1))");
    // f x = let u = g True in g 'a' where g y = let u = f x in y
    let single = "fun/1 rule/1 .x0 let/1 g/2 x0 True g/2 x0 'a \
        fun/2 local/1 rule/2 .x0 .x1 let/2 f/1 x0 x1";
    expect(rt, alloc, single, "clash f");
}

fn set_functions<R: Abort>(rt: &R, alloc: Global) {
    // f Z = True; g x = set1 f x
    let one = "fun/1 rule/1 .Z True fun/1 rule/1 .x0 $f/1 x0";
    expect(rt, alloc, one, "(Nat -> Bool); (Nat -> (Values Bool))");
    // f Z = True; g = set1 f
    let part = "fun/1 rule/1 .Z True fun/0 rule/0 $f~0";
    expect(rt, alloc, part, "(Nat -> Bool); (Nat -> (Values Bool))");
    // f = 1; g = set0 f
    expect(
        rt,
        alloc,
        "fun/0 rule/0 1 fun/0 rule/0 $f",
        "Int; (Values Int)",
    );
    // f x = x; g = (set1 f 1, set1 f 'a')
    let twice = "fun/1 rule/1 .x0 x0 fun/0 rule/0 Pair/2 $f/1 1 $f/1 'a";
    expect(
        rt,
        alloc,
        twice,
        "(0 -> 0); (Pair (Values Int) (Values Char))",
    );
    // f = set1 g; g x = h x; h x y = x
    let inside = "fun/0 rule/0 $g~0 fun/1 rule/1 .x0 h~1 x0 fun/2 rule/2 .x0 .x1 x0";
    let expected = "(0 -> (Values (1 -> 0))); (0 -> (1 -> 0)); (0 -> (1 -> 0))";
    expect(rt, alloc, inside, expected);
    // f x y = x + y; g = set2 (+) 1
    let two = "fun/2 rule/2 .x0 .x1 +/2 x0 x1 fun/0 rule/0 $+~1 1";
    expect(
        rt,
        alloc,
        two,
        "(Int -> (Int -> Int)); (Int -> (Values Int))",
    );
    // f Z = True; g = set1 f 'a'
    let clash = "fun/1 rule/1 .Z True fun/0 rule/0 $f/1 'a";
    expect(rt, alloc, clash, "clash g");
    // f Z = True; g x = f x && set1 f x
    let other = "fun/1 rule/1 .Z True fun/1 rule/1 .x0 &&/2 f/1 x0 $f/1 x0";
    expect(rt, alloc, other, "clash g");
}

fn built_in<R: Abort>(rt: &R, alloc: Global) {
    // `&&`, and what is built in
    let expected = "(Bool -> (Bool -> Bool)); (Int -> (Int -> Int)); (Int -> (Int -> Int)); \
        (Int -> (Int -> Int)); (Int -> (Int -> Int)); (Int -> (Int -> Int)); \
        (Int -> (Int -> Bool)); (Int -> (Int -> Bool)); (Int -> (Int -> Bool)); \
        (Int -> (Int -> Bool)); (0 -> (0 -> Bool)); (0 -> (0 -> Bool)); \
        (Bool -> (Bool -> Bool)); (Char -> Int); (Int -> Char); 0; Unit";
    expect_after(rt, alloc, 0, "fun/0 rule/0 Unit", expected);
    // f x y = x == y & y =:= x
    let equations = "fun/2 rule/2 .x0 .x1 &/2 ==/2 x0 x1 =:=/2 x1 x0";
    expect(rt, alloc, equations, "(0 -> (0 -> Bool))");
    // f = (1 == 2, 'a' =:= 'b')
    let twice = "fun/0 rule/0 Pair/2 ==/2 1 2 =:=/2 'a 'b";
    expect(rt, alloc, twice, "(Pair Bool Bool)");
    // f x = ord (chr (x * 2))
    expect(
        rt,
        alloc,
        "fun/1 rule/1 .x0 ord/1 chr/1 */2 x0 2",
        "(Int -> Int)",
    );
    // f x = x < 1 & 'a'
    expect(rt, alloc, "fun/1 rule/1 .x0 &/2 </2 x0 1 'a", "clash f");
    // f = 1 == 'a'
    expect(rt, alloc, "fun/0 rule/0 ==/2 1 'a", "clash f");
    // f = 'a' <= 'b'
    expect(rt, alloc, "fun/0 rule/0 <=/2 'a 'b", "clash f");
    // f True = failed; f False = 1
    let failed = "fun/1 rule/1 .True failed rule/1 .False 1";
    expect(rt, alloc, failed, "(Bool -> Int)");
}

fn constructors<R: Abort>(rt: &R, alloc: Global) {
    // f = [1, 2]
    expect(
        rt,
        alloc,
        "fun/0 rule/0 Cons/2 1 Cons/2 2 Nil",
        "(List Int)",
    );
    // f = [1, 'a']
    expect(rt, alloc, "fun/0 rule/0 Cons/2 1 Cons/2 'a Nil", "clash f");
    // f = (1, 'a', ())
    let triple = "fun/0 rule/0 Triple/3 1 'a Unit";
    expect(rt, alloc, triple, "(Triple Int Char Unit)");
    // f (x, y) = (y, x)
    let swap = "fun/1 rule/1 .Pair/2 .x0 .x1 Pair/2 x1 x0";
    expect(rt, alloc, swap, "((Pair 0 1) -> (Pair 1 0))");
    // f = (:); g = (:) 1
    let parts = "fun/0 rule/0 Cons~0 fun/0 rule/0 Cons~1 1";
    let expected = "(0 -> ((List 0) -> (List 0))); ((List Int) -> (List Int))";
    expect(rt, alloc, parts, expected);
    // f = Fun; g (Fun h) = h
    let fields = "fun/0 rule/0 Fun~0 fun/1 rule/1 .Fun/1 .x0 x0";
    expect(
        rt,
        alloc,
        fields,
        "((0 -> 0) -> (Fun 0)); ((Fun 0) -> (0 -> 0))",
    );
    // f (Note x) = x
    expect(
        rt,
        alloc,
        "fun/1 rule/1 .Note/1 .x0 x0",
        "(Note -> (List Char))",
    );
    // f (Just (Just x)) = x
    let deep = "fun/1 rule/1 .Just/1 .Just/1 .x0 x0";
    expect(rt, alloc, deep, "((Maybe (Maybe 0)) -> 0)");
}

fn case_distinctions<R: Abort>(rt: &R, alloc: Global) {
    // f x = case x of { 0 -> 'a'; y -> 'b' }
    let numbers = "fun/1 rule/1 .x0 case/2 x0 .0 'a .x1 'b";
    expect(rt, alloc, numbers, "(Int -> Char)");
    // f x = fcase x of { 'a' -> 1; 'b' -> 2 }
    let characters = "fun/1 rule/1 .x0 fcase/2 x0 .'a 1 .'b 2";
    expect(rt, alloc, characters, "(Char -> Int)");
    // f x = case x of { 0 -> 1; 'a' -> 2 }
    let mixed = "fun/1 rule/1 .x0 case/2 x0 .0 1 .'a 2";
    expect(rt, alloc, mixed, "clash f");
    // f x = case x of { True -> 1; False -> 'a' }
    let sides = "fun/1 rule/1 .x0 case/2 x0 .True 1 .False 'a";
    expect(rt, alloc, sides, "clash f");
    // f x = case x of { y@(_ : _) -> y }
    let alias = "fun/1 rule/1 .x0 case/1 x0 .as/1 .Cons/2 .x2 .x3 x1";
    expect(rt, alloc, alias, "((List 0) -> (List 0))");
    // f x = case x of { y@1 -> ord y }
    expect(
        rt,
        alloc,
        "fun/1 rule/1 .x0 case/1 x0 .as/1 .1 ord/1 x1",
        "clash f",
    );
    // f x = case x of { True -> case 1 of y -> y + 1; False -> case 'a' of y -> ord y }
    let apart = "fun/1 rule/1 .x0 case/2 x0 .True case/1 1 .x1 +/2 x1 1 \
        .False case/1 'a .x1 ord/1 x1";
    expect(rt, alloc, apart, "(Bool -> Int)");
    // f x = case x of {}
    expect(rt, alloc, "fun/1 rule/1 .x0 case/0 x0", "(0 -> 1)");
}

fn forms<R: Abort>(rt: &R, alloc: Global) {
    // f x = let y = x in (y, y)
    let shared = "fun/1 rule/1 .x0 let/1 x0 Pair/2 x1 x1";
    expect(rt, alloc, shared, "(0 -> (Pair 0 0))");
    // f = let h = g in (h 1, h 'a'); g x = x
    let single = "fun/0 rule/0 let/0 g~0 Pair/2 apply x0 1 apply x0 'a fun/1 rule/1 .x0 x0";
    expect(rt, alloc, single, "clash f");
    // f = x =:= 1 where x free; g = x where x free
    let free = "fun/0 rule/0 free/0 =:=/2 x0 1 fun/0 rule/0 free/0 x0";
    expect(rt, alloc, free, "Bool; 0");
    // f = (x + 1, ord x) where x free
    let twice = "fun/0 rule/0 free/0 Pair/2 +/2 x0 1 ord/1 x0";
    expect(rt, alloc, twice, "clash f");
    // f = 1 ? 2; g x = x ? 'a'
    let choices = "fun/0 rule/0 or 1 2 fun/1 rule/1 .x0 or x0 'a";
    expect(rt, alloc, choices, "Int; (Char -> Char)");
    // f = 1 ? 'a'
    expect(rt, alloc, "fun/0 rule/0 or 1 'a", "clash f");
    // f = (+) 1; g = h 'a'; h x y = (y, x)
    let parts = "fun/0 rule/0 +~1 1 fun/0 rule/0 h~1 'a fun/2 rule/2 .x0 .x1 Pair/2 x1 x0";
    let expected = "(Int -> Int); (0 -> (Pair 0 Char)); (0 -> (1 -> (Pair 1 0)))";
    expect(rt, alloc, parts, expected);
    // f g = g (+) 1
    let higher = "fun/1 rule/1 .x0 apply apply x0 +~0 1";
    expect(
        rt,
        alloc,
        higher,
        "(((Int -> (Int -> Int)) -> (Int -> 0)) -> 0)",
    );
}

fn goals<R: Abort>(rt: &R, alloc: Global) {
    // True
    expect(rt, alloc, "fun/0 goal rule/0 True", "Bool");
    // not, which is g
    let not = "fun/0 goal rule/0 g~0 fun/1 rule/1 .False True rule/1 .True False";
    expect(rt, alloc, not, "functional goal");
    // not 'a'
    let clash = "fun/0 goal rule/0 g/1 'a fun/1 rule/1 .False True rule/1 .True False";
    expect(rt, alloc, clash, "clash f");
    // x 1, where x is a variable of the goal
    expect(
        rt,
        alloc,
        "fun/1 goal rule/1 .x0 apply x0 1",
        "functional goal",
    );
    // x == 1
    expect(
        rt,
        alloc,
        "fun/1 goal rule/1 .x0 ==/2 x0 1",
        "(Int -> Bool)",
    );
    // x
    expect(rt, alloc, "fun/1 goal rule/1 .x0 x0", "(0 -> 0)");
    // [(+)]
    expect(
        rt,
        alloc,
        "fun/0 goal rule/0 Cons/2 +~0 Nil",
        "functional goal",
    );
    // Just x, after functions: f x = g x; g x y = x
    let last = "fun/1 rule/1 .x0 g~1 x0 fun/2 rule/2 .x0 .x1 x0 fun/1 goal rule/1 .x0 Just/1 x0";
    expect(
        rt,
        alloc,
        last,
        "(0 -> (1 -> 0)); (0 -> (1 -> 0)); (0 -> (Maybe 0))",
    );
}

fn functional_goals<R: Abort>(rt: &R, alloc: Global) {
    // (x, y 1) of two variables
    let second = "fun/2 goal rule/2 .x0 .x1 Pair/2 x0 apply x1 1";
    expect(rt, alloc, second, "functional goal");
    // 1 of a variable y with Just y =:= Just (+)
    let inside = "fun/1 goal rule/1 .x0 case/1 Cons/2 x0 Cons/2 Just/1 +~0 Nil .x1 1";
    expect(rt, alloc, inside, "functional goal");
    // g 1, where the result takes an argument more
    let partial = "fun/1 goal rule/1 .x0 g~1 x0 fun/2 rule/2 .x0 .x1 x0";
    expect(rt, alloc, partial, "functional goal");
    // Fun (&& True): the type itself names no function
    let field = "fun/0 goal rule/0 Fun/1 &&~1 True";
    expect(rt, alloc, field, "(Fun Bool)");
    // not, where g has no type
    let both = "fun/0 goal rule/0 &&~1 True fun/0 rule/0 +/2 1 'a";
    expect(rt, alloc, both, "clash g");
    // not, where g is declared too generally
    let both = "fun/0 goal rule/0 &&~1 True fun/0 :0 rule/0 1";
    expect(rt, alloc, both, "signature g");
    // 1, beside functions that take functions
    let beside = "fun/0 goal rule/0 1 fun/1 rule/1 .x0 apply x0 1";
    expect(rt, alloc, beside, "Int; ((Int -> 0) -> 0)");
}

/// g (g (.. x)), with twenty calls of a function that gives its argument
/// twice: a tree of a million pairs.
const DOUBLED: &str = "fun/1 rule/1 .x0 g/1 g/1 g/1 g/1 g/1 g/1 g/1 g/1 g/1 g/1 \
    g/1 g/1 g/1 g/1 g/1 g/1 g/1 g/1 g/1 g/1 x0 fun/1 rule/1 .x0 Pair/2 x0 x0";

#[test]
fn functions_have_their_most_general_types(rt: HostRuntime) {
    let alloc = rt.alloc();
    plain_functions(&rt, alloc);
    groups(&rt, alloc);
    clashes(&rt, alloc);
    set_functions(&rt, alloc);
    built_in(&rt, alloc);
    constructors(&rt, alloc);
    case_distinctions(&rt, alloc);
    forms(&rt, alloc);
}

#[test]
fn declared_types_are_kept(rt: HostRuntime) {
    let alloc = rt.alloc();
    declared_types(&rt, alloc);
    declared_clashes(&rt, alloc);
    signatures(&rt, alloc);
    captured_parameters(&rt, alloc);
    captured_in_groups(&rt, alloc);
}

#[test]
fn goals_are_data(rt: HostRuntime) {
    let alloc = rt.alloc();
    goals(&rt, alloc);
    functional_goals(&rt, alloc);
}

/// The variable, the twenty pairs and the function.
#[test]
fn types_that_double_are_shared(rt: HostRuntime) {
    let size = table_size(rt.alloc(), DOUBLED, BEFORE);
    assert_eq!(rt; size, Some(22));
}
