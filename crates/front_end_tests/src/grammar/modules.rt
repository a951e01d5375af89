//! Modules and goals that are read.

pub(crate) const QUEENS: &str = "module Queens (queens, boards) where
import Perm
import SetFunctions

infix 4 `attacks`

attacks :: (Int, Int) -> (Int, Int) -> Bool
(c, r) `attacks` (d, s) = abs (c - d) == abs (r - s)

safe :: [Int] -> Bool
safe qs = and [not (p `attacks` q) | p <- places, q <- places, fst p < fst q]
  where places = zip [1 ..] qs

queens :: Int -> [Int]
queens n | safe qs = qs
  where qs = permute [1 .. n]

boards :: Int -> [[Int]]
boards n = let found = set1 queens n in sortValues found
";

pub(crate) const PERM: &str = "module Perm (permute) where

permute :: [a] -> [a]
permute []     = []
permute (x:xs) = insert x (permute xs)
  where insert y ys     = y : ys
        insert y (z:zs) = z : insert y zs
";

pub(super) const PRELUDE: &str =
    "infixr 9 .; infixl 9 !!; infixl 7 *, `div`, `mod`; infixl 6 +, -; infixr 5 ++
infix 4 ==, /=, <, >, <=, >=, =:=, `elem`, `notElem`
infixr 3 &&; infixr 2 ||; infixr 0 $, &, &>, ?
data Bool = False | True; data Ordering = LT | EQ | GT
data Maybe a = Nothing | Just a; data Either a b = Left a | Right b
type String = [Char]; type Success = Bool
x ? _ = x; _ ? y = y
True &> x = x; success = True; otherwise = True
True && x = x; False && _ = False; True || _ = True; False || x = x
not True = False; not False = True; x /= y = not (x == y)
f $ x = f x; f . g = \\x -> f (g x)
id x = x; const x _ = x; flip f x y = f y x
curry f a b = f (a, b); uncurry f (a, b) = f a b
fst (x, _) = x; snd (_, y) = y
negate x = 0 - x; abs x = if x < 0 then 0 - x else x
min x y = if x <= y then x else y; max x y = if x <= y then y else x
compare x y = if x < y then LT else if x == y then EQ else GT
maybe n _ Nothing = n; maybe _ f (Just x) = f x
either f _ (Left x) = f x; either _ g (Right x) = g x
head (x:_) = x; tail (_:xs) = xs; null [] = True; null (_:_) = False
[] ++ ys = ys; (x:xs) ++ ys = x : (xs ++ ys)
length [] = 0; length (_:xs) = 1 + length xs
(x:xs) !! n = if n == 0 then x else if n > 0 then xs !! (n - 1) else failed
map _ [] = []; map f (x:xs) = f x : map f xs
filter _ [] = []; filter p (x:xs) = if p x then x : filter p xs else filter p xs
foldr _ z [] = z; foldr f z (x:xs) = f x (foldr f z xs)
foldl _ z [] = z; foldl f z (x:xs) = foldl f (f z x) xs
concat xs = foldr (++) [] xs; concatMap f xs = concat (map f xs)
zip [] _ = []; zip (_:_) [] = []; zip (x:xs) (y:ys) = (x, y) : zip xs ys
zipWith _ [] _ = []; zipWith _ (_:_) [] = []; zipWith f (x:xs) (y:ys) = f x y : zipWith f xs ys
reverse xs = foldl (flip (:)) [] xs
take n xs = if n <= 0 then [] else case xs of { [] -> []; y:ys -> y : take (n - 1) ys }
drop n xs = if n <= 0 then xs else case xs of { [] -> []; _:ys -> drop (n - 1) ys }
takeWhile _ [] = []; takeWhile p (x:xs) = if p x then x : takeWhile p xs else []
dropWhile _ [] = []; dropWhile p (x:xs) = if p x then dropWhile p xs else x : xs
lookup _ [] = Nothing; lookup k ((a, b):xs) = if k == a then Just b else lookup k xs
and xs = foldr (&&) True xs; or xs = foldr (||) False xs
any p xs = or (map p xs); all p xs = and (map p xs)
elem x ys = any (\\y -> x == y) ys; notElem x ys = not (elem x ys)
iterate f x = x : iterate f (f x); repeat x = x : repeat x
replicate n x = take n (repeat x); sum xs = foldl (+) 0 xs; product xs = foldl (*) 1 xs
enumFrom n = n : enumFrom (n + 1); enumFromThen a b = iterate (\\x -> x + (b - a)) a
enumFromTo a b = if a > b then [] else a : enumFromTo (a + 1) b
enumFromThenTo a b c = takeWhile (\\x -> if b >= a then x <= c else x >= c) (enumFromThen a b)
anyOf xs = foldr (?) failed xs
";

pub(super) const SET_FUNCTIONS: &str = "data Values a = Values [a]
sortValues (Values xs) = xs; isEmpty (Values xs) = null xs; notEmpty v = not (isEmpty v)
valueOf x (Values xs) = elem x xs; foldValues f z (Values xs) = foldr f z xs
";

pub(super) const GOALS: [&str; 10] = [
    "coin",
    "loop ? 7",
    "xs ++ ys =:= [1] where xs, ys free",
    "(x + 1 =:= 3) & (x =:= 2) where x free",
    "case x of { True -> 1; False -> 2 } where x free",
    "case (2, failed) of (1, 1) -> 0; _ -> 5",
    "let len [] = 0; len (_:ys) = 1 + len ys in len \"ab\"",
    "sortValues (set1 (\\x -> x) coin)",
    "(\"\\1\\&9'\", Just (-1), [-2])",
    "1 == 2 == 3",
];
