//! The variables that local functions capture.
ghost use Rattle.std.specs.Prelude.{◌≡◌, IfOk};
ghost use Rattle.cu_kernel.specs.LocalKernelOf.{local_function_meaning, local_rule_meaning, top_function_meaning};
ghost use Rattle.cu_kernel.specs.LocalTermsOf.{local_term_of};
ghost use Rattle.cu_kernel.specs.LocalValid.{IsScoped};
ghost use Rattle.kernel_tests.specs.Inside.CapturingSample as sample;

use cu_kernel::{LocalBody, LocalFunction, LocalHead, LocalRule, LocalTerm, Pattern, TopFunction};
use cu_lift::captured;
use cu_names::{NameId, Place};
use std::alloc::{AllocError, Global};
use std::process::Abort;

/// A rule of a function of one parameter, a variable.
#[tactic(auto, using(cu_kernel::specs::TermsOf::patterns_of_variants))]
fn rule_of_one(alloc: Global, x: u32, body: LocalTerm) -> Result<LocalRule, AllocError>
    ensures { IfOk result (λ rule. local_rule_meaning rule
        ≡ sample.rule_of_one x (local_term_of body)) }
{
    let mut params = Vec::new(alloc);
    params.push(Pattern::Var(x))?;
    Ok(LocalRule { params, body })
}

/// g x
#[tactic(auto, using(cu_kernel::specs::LocalTermsOf::local_terms_of_variants))]
fn inner_call(alloc: Global) -> Result<LocalTerm, AllocError>
    ensures { IfOk result (λ term. local_term_of term ≡ sample.inner_call) }
{
    let mut arguments = Vec::new(alloc);
    arguments.push(LocalTerm::Var(0))?;
    Ok(LocalTerm::Whole(LocalHead::Local(0), arguments))
}

/// g y = x
#[tactic(auto, using(cu_kernel::specs::LocalTermsOf::local_terms_of_variants))]
fn inner_function(alloc: Global) -> Result<LocalFunction, AllocError>
    ensures { IfOk result (λ f. local_function_meaning f ≡ sample.inner_function) }
{
    let mut rules = Vec::new(alloc);
    rules.push(rule_of_one(alloc, 1, LocalTerm::Var(0))?)?;
    Ok(LocalFunction {
        place: Place {
            module: NameId(0),
            line: 1,
            column: 1,
        },
        declared: None,
        arity: 1,
        rules,
    })
}

/// f x = g x where g y = x
fn outer_function(alloc: Global) -> Result<TopFunction, AllocError>
    ensures { IfOk result (λ f. top_function_meaning f ≡ sample.outer_function) }
{
    let mut rules = Vec::new(alloc);
    let call = inner_call(alloc)?;
    rules.push(rule_of_one(alloc, 0, call)?)?;
    let mut locals = Vec::new(alloc);
    locals.push(inner_function(alloc)?)?;
    Ok(TopFunction {
        name: NameId(0),
        arity: 1,
        body: LocalBody::Rules(rules),
        locals,
    })
}

/// What the local functions of `f x = g x where g y = x` capture.
fn captured_inside(alloc: Global) -> Result<Vec<Vec<u32>>, AllocError> {
    let function = outer_function(alloc)?;
    captured(alloc, &function)
}

fn expect<R: Abort>(rt: &R, found: Result<Vec<Vec<u32>>, AllocError>, expected: &[u32]) {
    match found {
        Ok(sets) => match sets.as_slice() {
            [set] => assert!(rt; set.as_slice() == expected),
            _ => panic!(rt; "another number of local functions"),
        },
        Err(_) => panic!(rt; "out of memory"),
    }
}

#[test]
fn a_parameter_outside_is_captured(rt: HostRuntime) {
    expect(&rt, captured_inside(rt.alloc()), &[0]);
}
