//! From a flat program to its code.
ghost use Rattle.std.specs.Prelude.{◌≡◌, ◌++◌, [], ◌∷◌, IfOk, OnOk, IsTrue, length, map};
ghost use Rattle.std.specs.List.{list_all};
ghost use Rattle.cu_calculus.specs.Flat.{is_flat, is_flat_body};
ghost use Rattle.cu_calculus.specs.FlatProgram as flat_program;
ghost use Rattle.cu_calculus.specs.Program.{Rules};
ghost use Rattle.cu_calculus.specs.Valid.{is_arity};
ghost use Rattle.cu_kernel.specs.Kernel.{constructors_from, constructors_of, plain_function, program_of};
ghost use Rattle.cu_kernel.specs.KernelOf as kernel;
ghost use Rattle.cu_flat.specs.Inside.Laid.{AreFunctionsLaid, IsBodyLaid};
ghost use Rattle.cu_flat.specs.Inside.Written.{written};
ghost use Rattle.cu_flat.specs.Layout.{laid_out};
ghost use Rattle.cu_flat.specs.Meaning.{body_meaning, constructor_meaning, function_meaning};

use crate::arena::Arena;
use crate::scope::variables;
use crate::{FlatBody, FlatConstructor, FlatFunction, FlatProgram};
use cu_kernel::{Body, Constructor, DataType, Function, Program, Rule};
use std::alloc::{AllocError, Global};

impl FlatProgram {
    /// The code of a flat program, in time in proportion to its terms times the
    /// variables in their scopes. The expressions stand as the layout says:
    /// parts before the whole, and the bodies one after the other. The one
    /// error is an allocation failure.
    #[tactic(auto, unfolding(cu_kernel::specs::Kernel::program_of))]
    pub fn of(alloc: Global, program: &Program) -> Result<FlatProgram, AllocError>
        requires { IsTrue (is_flat (program_of program.now)) }
        ensures code { IfOk result (λ flat. flat_program.program_of flat ≡ program_of program.now) }
        ensures layout { IfOk result (λ flat. flat ≡ laid_out (program_of program.now)) }
    {
        let mut arena = Arena {
            alloc,
            entries: Vec::new(alloc),
        };
        let functions = arena.push_functions(program.functions())?;
        let constructors = constructors(alloc, program.types())?;
        Ok(FlatProgram::new(functions, constructors, *program.special(), arena.entries))
    }
}

impl Arena {
    /// Lays out the rule of a function.
    fn push_rule(&mut self, rule: &Rule) -> Result<FlatBody, AllocError>
        requires { IsTrue (is_flat_body (Rules (kernel.rule_meaning rule.now ∷ []))) }
        ensures { IfOk result (λ made. IsBodyLaid (Rules (kernel.rule_meaning rule.now ∷ []))
            (written self.old) (written self.new) (body_meaning made)) }
    {
        let params = variables(self.alloc, rule.params.as_slice())?;
        let laid = self.push_term(params.as_slice(), &rule.body)?;
        Ok(FlatBody::Rule(params, laid.place))
    }

    /// Lays out the body of a function.
    fn push_body(&mut self, body: &Body) -> Result<FlatBody, AllocError>
        requires { IsTrue (is_flat_body (kernel.body_meaning body.now)) }
        ensures { IfOk result (λ made. IsBodyLaid (kernel.body_meaning body.now)
            (written self.old) (written self.new) (body_meaning made)) }
    {
        match body {
            Body::Rules(rules) => match rules.as_slice() {
                [rule] => self.push_rule(rule),
                _ => unreachable!(),
            },
            Body::External(operation) => Ok(FlatBody::External(*operation)),
        }
    }

    /// Lays out functions, one after the other.
    fn push_functions(&mut self, functions: &[Function]) -> Result<Vec<FlatFunction>, AllocError>
        requires { IsTrue (list_all (λ f. is_flat_body f.body)
            (map plain_function (map kernel.function_meaning functions.now))) }
        ensures { IfOk result (λ made. AreFunctionsLaid
            (map plain_function (map kernel.function_meaning functions.now))
            (written self.old) (written self.new)
            (map function_meaning made.items)) }
    {
        let mut made = Vec::new(self.alloc);
        for function in functions {
            let body = self.push_body(&function.body)?;
            made.push(FlatFunction {
                arity: function.arity,
                body,
            })?;
        }
        Ok(made)
    }
}

/// Pushes the constructors of the type with an index.
fn push_constructors(
    made: &mut Vec<FlatConstructor>,
    place: usize,
    constructors: &[Constructor],
) -> Result<(), AllocError>
    requires { IsTrue (list_all (λ c. is_arity c.arity)
        (constructors_of place (map kernel.constructor_meaning constructors.now))) }
    ensures { OnOk result (map constructor_meaning made.new.items
        ≡ map constructor_meaning made.old.items
        ++ constructors_of place (map kernel.constructor_meaning constructors.now)) }
{
    for constructor in constructors {
        made.push(FlatConstructor {
            of_type: place,
            arity: constructor.fields.len() as u32,
        })?;
    }
    Ok(())
}

/// The constructors of all types, in the order of the types.
fn constructors(alloc: Global, types: &[DataType]) -> Result<Vec<FlatConstructor>, AllocError>
    requires { IsTrue (list_all (λ c. is_arity c.arity)
        (constructors_from 0 (map kernel.type_meaning types.now))) }
    ensures { IfOk result (λ made. map constructor_meaning made.items
        ≡ constructors_from 0 (map kernel.type_meaning types.now)) }
{
    let mut made = Vec::new(alloc);
    for (place, data_type) in types.iter().enumerate() {
        push_constructors(&mut made, place, data_type.constructors.as_slice())?;
    }
    Ok(made)
}
