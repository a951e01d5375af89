//! Flat functions: each is lowered by the definitional tree of its rules.
ghost use Rattle.std.specs.Prelude.{◌≡◌, ◌≢◌, ◌↔◌, ◌∷◌, [], IfOk, IfErr, IsFalse, IsTrue, length, map};
ghost use Rattle.cu_calculus.specs.Program as calculus;
ghost use Rattle.cu_calculus.specs.Program.{External, Rules};
ghost use Rattle.cu_calculus.specs.declared.FunId.{FunId};
ghost use Rattle.cu_deftree.specs.Inside.Functions.{AreLowered, IsFound, LowersFunction, LowersRules};
ghost use Rattle.cu_deftree.specs.Inside.Outcome.{AreLoweredOrTooBig};
ghost use Rattle.cu_deftree.specs.Inside.Ready.{IsReady, program_in};
ghost use Rattle.cu_deftree.specs.NotLowered.{IsLowerFault};
ghost use Rattle.cu_deftree.specs.LoweredProgram.{most_expressions};
ghost use Rattle.cu_deftree.specs.Lowering.{HasOperations, IsOperation};
ghost use Rattle.cu_deftree.specs.declared.functions.LowerFault.TheVariants.{NoMemory};
ghost use Rattle.cu_kernel.specs.Heads.{heads_program};
ghost use Rattle.cu_kernel.specs.Kernel.{plain_function, program_of};
ghost use Rattle.cu_kernel.specs.KernelOf.{body_meaning, function_meaning, rule_meaning};
ghost use Rattle.cu_kernel.specs.Valid.{IsValid};

use crate::names::Names;
use crate::patterns::variables;
use crate::rows::rule_rows;
use crate::tasks::{Manner, Matrix, Stop, Task};
use crate::trees::{Lowerer, fresh_numbers};
use cu_kernel::{Body, FunId, Function, Heads, Prim, Program, Rule};
use std::alloc::{AllocError, Global};
use thiserror::Error;

/// Why a program isn't lowered.
#[derive(Debug, Drop, Error)]
pub enum LowerFault {
    /// The right side of the flat rule of this function, the first such one
    /// in program order, would be of more than 65,536 expressions.
    #[error("a definitional tree is too big")]
    TreeTooBig(FunId),
    /// There is no memory left.
    #[error("no memory left")]
    NoMemory,
}

impl From<AllocError> for LowerFault {
    ghost from_gives = { λ _ fault. fault ≡ NoMemory };

    fn from(_error: AllocError) -> LowerFault {
        LowerFault::NoMemory
    }
}

/// The most expressions of one body.
fn most_expressions() -> u32
    ensures { result ≡ most_expressions }
{
    65_536
}

/// Whether a function is this operation.
fn is_operation(function: &Function, operation: Prim) -> bool
    ensures holds { IsTrue result → body_meaning function.now.body ≡ External operation }
    ensures fails { IsFalse result → body_meaning function.now.body ≢ External operation }
{
    match &function.body {
        Body::Rules(_) => false,
        Body::External(other) => *other == operation,
    }
}

/// The first function that is this operation, where there is one.
fn find_operation(functions: &[Function], operation: Prim) -> Option<FunId>
    ensures { (program : calculus.Program)
        → program.functions ≡ map plain_function (map function_meaning functions.now)
        → IsFound program operation result }
{
    for (index, function) in functions.iter().enumerate() {
        if is_operation(function, operation) {
            return Some(FunId(index));
        }
    }
    None
}

/// The first function that is this operation.
fn operation(heads: &Heads, operation: Prim) -> FunId
    requires { (f : FunId) × IsOperation (heads_program heads.now) operation f }
    ensures { IsOperation (heads_program heads.now) operation result }
{
    match find_operation(heads.functions, operation) {
        Some(f) => f,
        None => unreachable!(),
    }
}

/// Whether a program has the operations that lowering puts into right sides,
/// `failed` and `==`.
pub fn has_operations(program: &Program) -> bool
    ensures { IsTrue result ↔ HasOperations (program_of program.now) }
{
    let functions = program.functions();
    let equal = find_operation(functions, Prim::Equal);
    match find_operation(functions, Prim::Failed) {
        Some(_) => equal.is_some(),
        None => false,
    }
}

/// The function of this name with this only rule.
fn with_rule(alloc: Global, function: &Function, rule: Rule) -> Result<Function, AllocError>
    ensures { IfOk result (λ made. function_meaning made ≡ record {
      name = function.now.name;
      arity = function.now.arity;
      body = Rules (rule_meaning rule ∷ []);
    }) }
{
    let mut rules = Vec::new(alloc);
    rules.push(rule)?;
    Ok(Function {
        name: function.name,
        arity: function.arity,
        body: Body::Rules(rules),
    })
}

impl<'a> Lowerer<'a> {
    /// The only rule that the rules of a function become.
    fn only_rule(&self, arity: u32, rules: &[Rule]) -> Result<Rule, Stop>
        requires { IsReady self.now }
        ensures { LowersRules (program_in self.now) arity (map rule_meaning rules.now) result }
    {
        let (numbers, next) = fresh_numbers(self.alloc, 1, arity as usize)?;
        let numbers = numbers.as_slice();
        let rows = rule_rows(self.alloc, rules, numbers, &Names::Nothing)?;
        let params = variables(self.alloc, numbers)?;
        let matrix = Matrix {
            positions: numbers,
            next,
            rows: rows.as_slice(),
        };
        let mut left = most_expressions();
        let body = self.lower(&Task::Rows(Manner::Rules, matrix), &mut left)?;
        Ok(Rule { params, body })
    }

    /// The flat function of a function.
    fn function(&self, function: &Function) -> Result<Function, Stop>
        requires { IsReady self.now }
        ensures { LowersFunction (program_in self.now) (function_meaning function.now) result }
    {
        match &function.body {
            Body::External(operation) => Ok(Function {
                name: function.name,
                arity: function.arity,
                body: Body::External(*operation),
            }),
            Body::Rules(rules) => {
                let rule = self.only_rule(function.arity, rules)?;
                let lowered = with_rule(self.alloc, function, rule)?;
                Ok(lowered)
            }
        }
    }

    /// The flat functions of these functions, or the first whose body would be
    /// too big.
    fn functions(&self, functions: &[Function]) -> Result<Result<Vec<Function>, FunId>, AllocError>
        requires { IsReady self.now }
        ensures { IfOk result (AreLoweredOrTooBig (program_in self.now)
            (map function_meaning functions.now)) }
    {
        let mut lowered = Vec::new(self.alloc);
        for (index, function) in functions.iter().enumerate() {
            match self.function(function) {
                Ok(one) => lowered.push(one)?,
                Err(Stop::TooBig) => return Ok(Err(FunId(index))),
                Err(Stop::NoMemory) => return Err(AllocError),
            }
        }
        Ok(Ok(lowered))
    }
}

/// The flat functions of a program, or the first whose body would be too big.
fn functions_or_too_big(
    alloc: Global,
    program: &Program,
) -> Result<Result<Vec<Function>, FunId>, AllocError>
    requires { HasOperations (program_of program.now) }
    ensures lowered { IfOk result
        (AreLoweredOrTooBig (program_of program.now) program.now.functions) }
    ensures valid { IsValid program.now }
{
    let functions = program.functions();
    let heads = Heads::of(alloc, program)?;
    let failed = operation(&heads, Prim::Failed);
    let equal = operation(&heads, Prim::Equal);
    let lowerer = Lowerer {
        alloc,
        heads: &heads,
        failed,
        equal,
    };
    lowerer.functions(functions)
}

/// The functions of the flat program of a program.
pub(crate) fn lowered_functions(
    alloc: Global,
    program: &Program,
) -> Result<Vec<Function>, LowerFault>
    requires { HasOperations (program_of program.now) }
    ensures lowered { IfOk result (λ lowered. AreLowered (program_of program.now)
        program.now.functions (length program.now.functions)
        (map function_meaning lowered.items)) }
    ensures fault { IfErr result (IsLowerFault (program_of program.now)) }
    ensures valid { IsValid program.now }
{
    match functions_or_too_big(alloc, program) {
        Ok(Ok(functions)) => Ok(functions),
        Ok(Err(f)) => Err(LowerFault::TreeTooBig(f)),
        Err(_) => Err(LowerFault::NoMemory),
    }
}
