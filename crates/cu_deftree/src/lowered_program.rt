//! The flat program of a program.
ghost use Rattle.std.specs.Prelude.{◌≡◌, ◌↔◌, ℕ, List, Ok, IfOk, IfErr, map};
ghost use Rattle.cu_calculus.specs.Calls.{call_statement};
ghost use Rattle.cu_calculus.specs.Claims.{AreLeastLevels, AreLevels};
ghost use Rattle.cu_calculus.specs.FlatProgram as code;
ghost use Rattle.cu_calculus.specs.Gives.{Claim};
ghost use Rattle.cu_calculus.specs.Proved.{IsProved};
ghost use Rattle.cu_calculus.specs.Value.{Value, Values};
ghost use Rattle.cu_calculus.specs.declared.FunId.{FunId};
ghost use Rattle.cu_deftree.specs.Inside.OtherFunctions.{with_functions};
ghost use Rattle.cu_deftree.specs.LoweredProgram.{Lowering};
ghost use Rattle.cu_deftree.specs.Lowering.{HasOperations};
ghost use Rattle.cu_deftree.specs.NotLowered.{IsLowerFault};
ghost use Rattle.cu_flat.specs.Layout.{laid_out};
ghost use Rattle.cu_kernel.specs.Kernel.{program_of};
ghost use Rattle.cu_kernel.specs.KernelOf.{function_meaning, kernel_of};
ghost use Rattle.cu_kernel.specs.Valid.{IsValid};

use crate::copies::{copy_data_types, copy_goal, copy_marks, copy_modules, copy_synonyms};
use crate::functions::{LowerFault, lowered_functions};
use cu_flat::FlatProgram;
use cu_kernel::{Function, Program, ProgramParts};
use std::alloc::{AllocError, Global};

/// What a program is made of, with these functions in place of its own.
fn with_functions(
    alloc: Global,
    program: &Program,
    functions: Vec<Function>,
) -> Result<ProgramParts, AllocError>
    ensures { IfOk result (λ parts. kernel_of parts
        ≡ with_functions program.now (map function_meaning functions.items)) }
{
    let types = copy_data_types(alloc, program.types())?;
    let synonyms = copy_synonyms(alloc, program.synonyms())?;
    let modules = copy_modules(alloc, program.modules())?;
    let marks = copy_marks(alloc, program.marks())?;
    let goal = copy_goal(alloc, program.goal())?;
    Ok(ProgramParts {
        types,
        functions,
        synonyms,
        modules,
        marks,
        goal,
        special: *program.special(),
    })
}

/// The flat program of a program, in the form that has names and types.
fn lowered_program(alloc: Global, program: &Program) -> Result<Program, LowerFault>
    requires { HasOperations (program_of program.now) }
    ensures flat { IfOk result (λ lowered.
        Lowering (program_of program.now) (Ok (program_of lowered))) }
    ensures rest { IfOk result (λ lowered. lowered
        ≡ with_functions program.now lowered.functions) }
    ensures fault { IfErr result (IsLowerFault (program_of program.now)) }
    ensures valid { IsValid program.now }
{
    let functions = lowered_functions(alloc, program)?;
    let parts = with_functions(alloc, program, functions)?;
    Ok(Program::new(parts))
}

/// The flat program of a program, by definitional trees: a function with rules
/// gets one, whose right side is the tree of its rules, and the case
/// distinctions in right sides become such as look at one constructor or
/// literal at a time (Antoy, Definitional trees, 1992). The program has to
/// have the operations `failed` and `==`, which lowering puts into right
/// sides; [`has_operations`](crate::has_operations) tells whether it has.
///
/// The answer says what the program says: over any claims some proof over the
/// one concludes a statement on a call exactly where some proof over the other
/// does. At most 65,536 expressions are made for one function.
pub fn lower(alloc: Global, program: &Program) -> Result<FlatProgram, LowerFault>
    requires { HasOperations (program_of program.now) }
    ensures flat { IfOk result (λ flat.
        Lowering (program_of program.now) (Ok (code.program_of flat))) }
    ensures layout { IfOk result (λ flat. flat ≡ laid_out (code.program_of flat)) }
    ensures meaning { IfOk result (λ flat.
        (claims : List Claim) (f : FunId) (vs : Values) (v : Value)
        → IsProved (program_of program.now) claims (call_statement f vs v)
        ↔ IsProved (code.program_of flat) claims (call_statement f vs v)) }
    ensures levels { IfOk result (λ flat. (levels : List ℕ)
        → AreLeastLevels (program_of program.now) levels
        → AreLevels (code.program_of flat) levels) }
    ensures fault { IfErr result (IsLowerFault (program_of program.now)) }
{
    let lowered = lowered_program(alloc, program)?;
    let flat = FlatProgram::of(alloc, &lowered)?;
    Ok(flat)
}
