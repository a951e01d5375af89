//! Where functions go when local functions are lifted.
ghost use Rattle.std.specs.Prelude.{◌≡◌, ℕ, ◌+◌, ◌<◌, ◌++◌, Some, IfOk, codes, decimal, length, map, slice_get};
ghost use Rattle.cu_kernel.specs.LocalKernelOf.{top_function_meaning};
ghost use Rattle.cu_kernel.specs.LocalValid.{IsScoped};
ghost use Rattle.cu_kernel.specs.declared.local.TopFunction.{TopFunction};
ghost use Rattle.cu_lift.specs.Inside.LiftedPlaces.{ArePlaced, AreNames, IsPlacement};
ghost use Rattle.cu_lift.specs.Lifting.{top_numbers};
ghost use Rattle.cu_names.specs.Texts.{Extends, IsKnown, text_of};

use crate::captures::captured;
use crate::local_order::{in_order, last_first, lifted_numbers};
use crate::placement::Placement;
use cu_kernel::TopFunction;
use cu_names::{NameId, Names};
use std::alloc::{AllocError, Global};

/// The number after a function and its local functions.
fn after(number: usize, locals: usize) -> Result<usize, AllocError>
    ensures { IfOk result (λ next. next ≡ number + 1 + locals) }
{
    let Some(first) = number.checked_add(1) else {
        return Err(AllocError);
    };
    match first.checked_add(locals) {
        Some(next) => Ok(next),
        None => Err(AllocError),
    }
}

/// The numbers of top-level functions in the lifted program.
pub(crate) fn lifted_tops(
    alloc: Global,
    functions: &[TopFunction],
) -> Result<Vec<usize>, AllocError>
    ensures { IfOk result (λ numbers. numbers.items
        ≡ top_numbers 0 (map top_function_meaning functions.now)) }
{
    let mut numbers = Vec::new(alloc);
    let mut next = 0;
    for function in functions {
        numbers.push(next)?;
        next = after(next, function.locals.len())?;
    }
    Ok(numbers)
}

/// The name of the local function that stands so many places after its
/// top-level function.
fn local_name(
    alloc: Global,
    names: &mut Names,
    function: NameId,
    after: usize,
) -> Result<NameId, AllocError>
    requires known { IsKnown names.old function }
    ensures table { Extends names.old names.new }
    ensures known { IfOk result (λ id. IsKnown names.new id) }
    ensures text { IfOk result (λ id. text_of names.new id
        ≡ text_of names.old function ++ (codes "#" ++ decimal after)) }
{
    let text = format!(in alloc; "{}#{after}", names.text(function))?;
    names.intern(text.as_str())
}

/// The names of local functions with these numbers in the lifted program.
fn local_names(
    alloc: Global,
    names: &mut Names,
    function: NameId,
    number: usize,
    numbers: &[usize],
) -> Result<Vec<NameId>, AllocError>
    requires known { IsKnown names.old function }
    requires after { (k n : ℕ) → slice_get numbers.now k ≡ Some n → number < n }
    ensures table { Extends names.old names.new }
    ensures names { IfOk result (λ ids.
        AreNames names.new (text_of names.old function) number numbers.now ids.items) }
{
    let mut ids = Vec::new(alloc);
    for lifted in numbers {
        let id = local_name(alloc, names, function, *lifted - number)?;
        ids.push(id)?;
    }
    Ok(ids)
}

/// Where the local functions of a top-level function go.
fn placement(
    alloc: Global,
    names: &mut Names,
    number: usize,
    function: &TopFunction,
) -> Result<Placement, AllocError>
    requires known { IsKnown names.old function.now.name }
    requires scoped { IsScoped (top_function_meaning function.now) }
    ensures table { Extends names.old names.new }
    ensures placement { IfOk result (λ placement.
        IsPlacement names.new number (top_function_meaning function.now) placement) }
{
    let locals = function.locals.as_slice();
    let order = last_first(alloc, locals)?;
    let end = after(number, order.len())?;
    let ordered = in_order(alloc, order.as_slice())?;
    let numbers = lifted_numbers(alloc, order.as_slice(), number + 1)?;
    let captured = captured(alloc, function)?;
    let ids = local_names(alloc, names, function.name, number, numbers.as_slice())?;
    Ok(Placement {
        ordered,
        numbers,
        end,
        captured,
        names: ids,
    })
}

/// Where the local functions of all top-level functions go.
pub(crate) fn placements(
    alloc: Global,
    names: &mut Names,
    numbers: &[usize],
    functions: &[TopFunction],
) -> Result<Vec<Placement>, AllocError>
    requires numbers { numbers.now ≡ top_numbers 0 (map top_function_meaning functions.now) }
    requires known { (i : ℕ) (f : TopFunction) → slice_get functions.now i ≡ Some f
        → IsKnown names.old f.name }
    requires scoped { (i : ℕ) (f : TopFunction) → slice_get functions.now i ≡ Some f
        → IsScoped (top_function_meaning f) }
    ensures table { Extends names.old names.new }
    ensures many { IfOk result (λ placements. length placements.items ≡ length functions.now) }
    ensures placed { IfOk result (λ placements.
        ArePlaced names.new (map top_function_meaning functions.now) placements.items) }
{
    let mut placements = Vec::new(alloc);
    for (index, function) in functions.iter().enumerate() {
        placements.push(placement(alloc, names, numbers[index], function)?)?;
    }
    Ok(placements)
}
