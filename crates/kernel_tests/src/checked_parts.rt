//! Which parts of programs before lifting are right, and which fit together;
//! and the lifting of one that is right.
ghost use Rattle.std.specs.Prelude.{◌≡◌, IsTrue, map};
ghost use Rattle.std.specs.List.{list_all};
ghost use Rattle.cu_kernel.specs.LocalKernelOf.{top_function_meaning};
ghost use Rattle.cu_lift.specs.Lifting.{AreNamed};
ghost use Rattle.kernel_tests.specs.Inside.Naming.{has_name};

use crate::local_programs::{Fault, JoinFault, parts};
use cu_kernel::{Body, Function, LocalProgram, Pattern, Program, TopFunction};
use cu_lift::lift;
use cu_names::Names;
use cu_parts::{checked, is_joined, is_part};
use std::alloc::{AllocError, Global};
use std::process::Abort;

const FAULTS: [Fault; 10] = [
    Fault::BoundTwice,
    Fault::BoundNowhere,
    Fault::LetOfItself,
    Fault::ArgumentTooMany,
    Fault::ArgumentTooFew,
    Fault::UseOfAnInnerVariable,
    Fault::MarkTooFew,
    Fault::CountedCapture,
    Fault::VariableOfASynonym,
    Fault::RuleWithoutPattern,
];

const JOIN_FAULTS: [JoinFault; 6] = [
    JoinFault::TypesBefore,
    JoinFault::FalseAfterTrue,
    JoinFault::OtherRules,
    JoinFault::NoSuchModule,
    JoinFault::NoSuchFunction,
    JoinFault::OtherList,
];

/// Whether parts with this fault are right by themselves.
fn right(alloc: Global, fault: Fault) -> Result<bool, AllocError> {
    let parts = parts(alloc, fault, JoinFault::Nothing)?;
    is_part(alloc, &parts)
}

/// Whether parts with this fault fit together.
fn fits(alloc: Global, fault: JoinFault) -> Result<bool, AllocError> {
    let parts = parts(alloc, Fault::Nothing, fault)?;
    match checked(alloc, parts)? {
        Some(program) => is_joined(alloc, &program),
        None => Ok(false),
    }
}

/// Whether the names of these functions are among the first so many.
fn have_names(count: usize, functions: &[TopFunction]) -> bool
    ensures { result ≡ list_all (has_name count) (map top_function_meaning functions.now) }
{
    for function in functions {
        if function.name.0 >= count {
            return false;
        }
    }
    true
}

/// Whether the names of the top-level functions have texts.
fn are_named(names: &Names, program: &LocalProgram) -> bool
    ensures { IsTrue result → AreNamed names.now program.now }
{
    let parts = program.parts();
    have_names(names.count(), parts.functions.as_slice())
}

/// The right program, lifted.
fn lifted(alloc: Global) -> Result<Option<Program>, AllocError> {
    let mut names = Names::new(alloc);
    names.intern("f")?;
    let Some(program) = checked(alloc, parts(alloc, Fault::Nothing, JoinFault::Nothing)?)? else {
        return Ok(None);
    };
    if !is_joined(alloc, &program)? || !are_named(&names, &program) {
        return Ok(None);
    }
    Ok(Some(lift(alloc, &mut names, program)?))
}

/// Whether a function's first rule has these variables for its parameters.
fn has_parameters(function: &Function, variables: &[u32]) -> bool {
    let Body::Rules(rules) = &function.body else {
        return false;
    };
    let Some(rule) = rules.as_slice().first() else {
        return false;
    };
    rule.params.len() == variables.len() && are_variables(rule.params.as_slice(), variables)
}

/// Whether these patterns are variables of the list.
fn are_variables(patterns: &[Pattern], variables: &[u32]) -> bool {
    match (patterns, variables) {
        ([Pattern::Var(a), Pattern::Var(b), Pattern::Var(c)], [x, y, z]) => {
            a == x && b == y && c == z
        }
        _ => false,
    }
}

#[test]
fn parts_are_right_or_have_a_fault(rt: HostRuntime) {
    let alloc = rt.alloc();
    assert!(rt; right(alloc, Fault::Nothing).ok() == Some(true));
    for fault in &FAULTS {
        assert!(rt; right(alloc, *fault).ok() == Some(false));
    }
}

#[test]
fn joined_parts_fit_or_have_a_fault(rt: HostRuntime) {
    let alloc = rt.alloc();
    assert!(rt; fits(alloc, JoinFault::Nothing).ok() == Some(true));
    for fault in &JOIN_FAULTS {
        assert!(rt; fits(alloc, *fault).ok() == Some(false));
    }
}

/// The lifted function takes z and w, in the order of their declaration, and
/// then its own parameter.
#[test]
fn captured_variables_come_first(rt: HostRuntime) {
    match lifted(rt.alloc()) {
        Ok(Some(program)) => match program.functions() {
            [_, _, inner, _] => assert!(rt; has_parameters(inner, &[1, 2, 0])),
            _ => panic!(rt; "another number of functions"),
        },
        _ => panic!(rt; "not lifted"),
    }
}
