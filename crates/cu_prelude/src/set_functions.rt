//! The module of set functions.

/// The text of `SetFunctions`, which exports the type of sets of values without
/// its constructor. The functions `set0` to `set7`, which give such sets, belong
/// to the module and have no line in it.
pub const SET_FUNCTIONS: &str = "\
module SetFunctions
  ( Values
  , set0, set1, set2, set3, set4, set5, set6, set7
  , sortValues, isEmpty, notEmpty, valueOf, foldValues
  ) where

-- The values of a call, each once and in their order.
data Values a = Values [a]

-- The values as a list.
sortValues (Values xs) = xs

-- Whether there is a value.
isEmpty (Values xs) = null xs

notEmpty v = not (isEmpty v)

-- Whether something is among the values, and all values in turn.
valueOf x (Values xs) = elem x xs

foldValues f z (Values xs) = foldr f z xs
";
