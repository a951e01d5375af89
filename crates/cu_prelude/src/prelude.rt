//! The standard prelude.

/// The text of `Prelude` (Curry Report, "Standard Prelude"), without type
/// classes. Its external operations, which have no rule, belong to the module
/// and have no line in it.
pub const PRELUDE: &str = "\
-- How tightly operators bind.
infixr 9 .
infixl 9 !!
infixl 7 *, `div`, `mod`
infixl 6 +, -
infixr 5 ++
infix 4 ==, /=, <, >, <=, >=, =:=, `elem`, `notElem`
infixr 3 &&
infixr 2 ||
infixr 0 $, &, &>, ?

-- Truth values, orders, optional and alternative values.
data Bool = False | True

data Ordering = LT | EQ | GT

data Maybe a = Nothing | Just a

data Either a b = Left a | Right b

-- Texts, and the outcome of constraints.
type String = [Char]

type Success = Bool

-- A choice between two values, and a value under a constraint.
x ? _ = x
_ ? y = y

True &> x = x

-- Truth values.
success = True

otherwise = True

True && x = x
False && _ = False

True || _ = True
False || x = x

not True = False
not False = True

x /= y = not (x == y)

-- Functions and their arguments.
f $ x = f x

f . g = \\x -> f (g x)

id x = x

const x _ = x

flip f x y = f y x

curry f a b = f (a, b)

uncurry f (a, b) = f a b

-- Pairs.
fst (x, _) = x

snd (_, y) = y

-- Integers.
negate x = 0 - x

abs x = if x < 0 then 0 - x else x

-- Comparison.
min x y = if x <= y then x else y

max x y = if x <= y then y else x

compare x y = if x < y then LT else if x == y then EQ else GT

-- Optional and alternative values.
maybe n _ Nothing = n
maybe _ f (Just x) = f x

either f _ (Left x) = f x
either _ g (Right x) = g x

-- Lists and their elements.
head (x:_) = x

tail (_:xs) = xs

null [] = True
null (_:_) = False

[] ++ ys = ys
(x:xs) ++ ys = x : (xs ++ ys)

length [] = 0
length (_:xs) = 1 + length xs

(x:xs) !! n = if n == 0 then x else if n > 0 then xs !! (n - 1) else failed

-- Each element, some elements, all elements in turn.
map _ [] = []
map f (x:xs) = f x : map f xs

filter _ [] = []
filter p (x:xs) = if p x then x : filter p xs else filter p xs

foldr _ z [] = z
foldr f z (x:xs) = f x (foldr f z xs)

foldl _ z [] = z
foldl f z (x:xs) = foldl f (f z x) xs

-- Lists of lists.
concat xs = foldr (++) [] xs

concatMap f xs = concat (map f xs)

-- Two lists side by side.
zip [] _ = []
zip (_:_) [] = []
zip (x:xs) (y:ys) = (x, y) : zip xs ys

zipWith _ [] _ = []
zipWith _ (_:_) [] = []
zipWith f (x:xs) (y:ys) = f x y : zipWith f xs ys

-- Fronts and ends of lists.
reverse xs = foldl (flip (:)) [] xs

take n xs = if n <= 0 then [] else case xs of { [] -> []; y:ys -> y : take (n - 1) ys }

drop n xs = if n <= 0 then xs else case xs of { [] -> []; _:ys -> drop (n - 1) ys }

takeWhile _ [] = []
takeWhile p (x:xs) = if p x then x : takeWhile p xs else []

dropWhile _ [] = []
dropWhile p (x:xs) = if p x then dropWhile p xs else x : xs

-- Search, and truth of all or some elements.
lookup _ [] = Nothing
lookup k ((a, b):xs) = if k == a then Just b else lookup k xs

and xs = foldr (&&) True xs

or xs = foldr (||) False xs

any p xs = or (map p xs)

all p xs = and (map p xs)

elem x ys = any (\\y -> x == y) ys

notElem x ys = not (elem x ys)

-- Lists that repeat.
iterate f x = x : iterate f (f x)

repeat x = x : repeat x

replicate n x = take n (repeat x)

-- Sums and products.
sum xs = foldl (+) 0 xs

product xs = foldl (*) 1 xs

-- Lists of numbers, which `[a ..]` and its kin stand for.
enumFrom n = n : enumFrom (n + 1)

enumFromThen a b = iterate (\\x -> x + (b - a)) a

enumFromTo a b = if a > b then [] else a : enumFromTo (a + 1) b

enumFromThenTo a b c = takeWhile (\\x -> if b >= a then x <= c else x >= c) (enumFromThen a b)

-- Some element of a list.
anyOf xs = foldr (?) failed xs
";
