//! Worked examples of what is printed. The function does nothing: its contract
//! is the law.
ghost use Rattle.std.specs.Prelude.{◌≡◌};
ghost use Rattle.cu_flatlaws.specs.Example.{example, some_expression, some_term};
ghost use Rattle.cu_flatlaws.specs.Printed.{printed};
ghost use Rattle.cu_flatlaws.specs.PrintedExpressions.{printed_expression};
ghost use Rattle.cu_flattext.specs.ExpressionTexts.{no_numbers};
ghost use Rattle.cu_flattext.specs.Worked.{worked};

/// What is printed of a module, and of an expression with a partial
/// application, a set function and an application of a variable, written out
/// by hand.
pub fn an_example_is_printed()
    ensures whole { printed worked 1 ≡ example }
    ensures expression { printed_expression worked 1 no_numbers some_term ≡ some_expression }
{}
