//! Lifted functions.
ghost use Rattle.std.specs.Prelude.{◌≡◌, ℕ, ◌+◌, ◌++◌, Some, IfOk, OnOk, length, map, slice_get};
ghost use Rattle.cu_kernel.specs.KernelOf.{body_meaning, function_meaning};
ghost use Rattle.cu_kernel.specs.LocalKernelOf.{local_body_meaning, local_function_meaning, top_function_meaning};
ghost use Rattle.cu_kernel.specs.declared.local.TopFunction.{TopFunction};
ghost use Rattle.cu_lift.specs.Inside.LiftedPlaces.{functions_by, lifting_meaning, name_in, numbered, ordered_numbers};
ghost use Rattle.cu_lift.specs.Lifting.{lifted_body, lifted_group, lifted_local, lifted_top};
ghost use Rattle.cu_lift.specs.declared.placement.Placement.{Placement};

use crate::placement::Placement;
use crate::renaming::{Renaming, captured_by, lift_rules};
use cu_kernel::{Body, Function, LocalBody, LocalFunction, TopFunction};
use cu_names::NameId;
use std::alloc::{AllocError, Global};

/// How many parameters a function has with the variables that it captures.
fn total_arity(captured: usize, own: u32) -> Result<u32, AllocError>
    ensures { IfOk result (λ arity. arity ≡ captured + own) }
{
    let Some(total) = captured.checked_add(own as usize) else {
        return Err(AllocError);
    };
    match u32::try_from(total) {
        Ok(arity) => Ok(arity),
        Err(_) => Err(AllocError),
    }
}

/// The name of a local function in the lifted program.
fn name_of(placement: &Placement, number: usize) -> NameId
    ensures { result ≡ name_in placement.now number }
{
    match placement.names.get(number) {
        Some(name) => *name,
        None => NameId(0),
    }
}

/// The lifted body of a top-level function.
fn lift_body(renaming: &Renaming, body: &LocalBody) -> Result<Body, AllocError>
    ensures { IfOk result (λ lifted. body_meaning lifted
        ≡ lifted_body (lifting_meaning renaming.now) (local_body_meaning body.now)) }
{
    match body {
        LocalBody::Rules(rules) => {
            let lifted = lift_rules(renaming, &[], rules)?;
            Ok(Body::Rules(lifted))
        }
        LocalBody::External(operation) => Ok(Body::External(*operation)),
    }
}

/// A lifted top-level function.
fn lift_top(renaming: &Renaming, function: &TopFunction) -> Result<Function, AllocError>
    ensures { IfOk result (λ lifted. function_meaning lifted
        ≡ lifted_top (lifting_meaning renaming.now) (top_function_meaning function.now)) }
{
    let body = lift_body(renaming, &function.body)?;
    Ok(Function {
        name: function.name,
        arity: function.arity,
        body,
    })
}

/// A lifted local function.
fn lift_local(
    renaming: &Renaming,
    number: usize,
    function: &LocalFunction,
) -> Result<Function, AllocError>
    ensures { IfOk result (λ lifted. function_meaning lifted
        ≡ lifted_local (lifting_meaning renaming.now) (name_in renaming.now.placement.now)
        (numbered number (local_function_meaning function.now))) }
{
    let variables = captured_by(renaming.placement, number);
    let arity = total_arity(variables.len(), function.arity)?;
    let rules = lift_rules(renaming, variables, &function.rules)?;
    Ok(Function {
        name: name_of(renaming.placement, number),
        arity,
        body: Body::Rules(rules),
    })
}

/// Pushes a top-level function and its local functions.
fn push_group(
    lifted: &mut Vec<Function>,
    renaming: &Renaming,
    function: &TopFunction,
) -> Result<(), AllocError>
    requires ordered { renaming.now.placement.now.ordered.items
        ≡ ordered_numbers (map local_function_meaning function.now.locals.items) }
    ensures { OnOk result (map function_meaning lifted.new.items
        ≡ map function_meaning lifted.old.items
        ++ lifted_group (lifting_meaning renaming.now) (name_in renaming.now.placement.now)
        (top_function_meaning function.now)) }
{
    lifted.push(lift_top(renaming, function)?)?;
    for number in &renaming.placement.ordered {
        let local = &function.locals[*number];
        lifted.push(lift_local(renaming, *number, local)?)?;
    }
    Ok(())
}

/// The functions of the lifted program.
pub(crate) fn lift_functions(
    alloc: Global,
    tops: &[usize],
    placements: &[Placement],
    functions: &[TopFunction],
) -> Result<Vec<Function>, AllocError>
    requires many { length placements.now ≡ length functions.now }
    requires ordered { (i : ℕ) (f : TopFunction) (p : Placement)
        → slice_get functions.now i ≡ Some f → slice_get placements.now i ≡ Some p
        → p.ordered.items ≡ ordered_numbers (map local_function_meaning f.locals.items) }
    ensures { IfOk result (λ lifted. map function_meaning lifted.items
        ≡ functions_by tops.now placements.now (map top_function_meaning functions.now)) }
{
    let mut lifted = Vec::new(alloc);
    for (index, function) in functions.iter().enumerate() {
        let renaming = Renaming {
            alloc,
            tops,
            placement: &placements[index],
        };
        push_group(&mut lifted, &renaming, function)?;
    }
    Ok(lifted)
}
