//! Laws of flat code.
ghost use Rattle.std.specs.Prelude.{◌≡◌, ℕ, ◌≤◌, List, Some, IsTrue, length, option_map, slice_get};
ghost use Rattle.cu_calculus.specs.declared.ExprId.{ExprId};
ghost use Rattle.cu_calculus.specs.declared.FunId.{FunId};
ghost use Rattle.cu_calculus.specs.declared.Head.{Head};
ghost use Rattle.cu_calculus.specs.Code.{Code, arity_of, expr_of};
ghost use Rattle.cu_calculus.specs.Flat.{is_flat};
ghost use Rattle.cu_calculus.specs.FlatProgram.{function_in, program_of, term_of, term_over, term_within};
ghost use Rattle.cu_calculus.specs.Program.{arity_in, function_of};
ghost use Rattle.cu_calculus.specs.Valid.{IsValid};
ghost use Rattle.cu_calculus.specs.WellFormed.{fits, is_well_formed};

/// The term of an expression that fits is the same within any bound on its
/// depth within which it fits, and is put together of the terms of its parts.
pub fn expressions_are_terms()
    ensures any_bound { (program : Code) (scope : List ℕ) (depth more : ℕ) (e : ExprId)
        → depth ≤ more
        → IsTrue (fits depth program scope e) → term_within depth program e
        ≡ term_within more program e }
    ensures of_parts { (program : Code) (scope : List ℕ) (e : ExprId)
        → IsTrue (fits (length program.expressions) program scope e)
        → term_of program e ≡ term_over (term_of program) (expr_of program e) }
{}

/// The program of well-formed flat code is valid and flat. Its heads take as
/// many arguments as those of the code, and its functions are the code's.
pub fn flat_code_is_a_program()
    ensures valid { (program : Code) → IsTrue (is_well_formed program)
        → IsValid (program_of program) }
    ensures flat { (program : Code) → IsTrue (is_well_formed program)
        → IsTrue (is_flat (program_of program)) }
    ensures arities { (program : Code) (h : Head)
        → arity_in (program_of program) h ≡ arity_of program h }
    ensures functions { (program : Code) (f : FunId)
        → function_of (program_of program) f
        ≡ option_map (function_in program) (slice_get program.functions f.0) }
{}
