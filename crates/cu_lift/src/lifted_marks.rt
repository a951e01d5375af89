//! Marks of lifted functions.
ghost use Rattle.std.specs.Prelude.{◌≡◌, ℕ, ◌++◌, Some, IfOk, OnOk, length, map, slice_get};
ghost use Rattle.cu_kernel.specs.KernelOf.{mark_meaning};
ghost use Rattle.cu_kernel.specs.LocalKernelOf.{local_function_meaning, top_function_meaning};
ghost use Rattle.cu_kernel.specs.declared.local.TopFunction.{TopFunction};
ghost use Rattle.cu_lift.specs.Inside.LiftedPlaces.{captured_in, marks_by, numbered, ordered_numbers};
ghost use Rattle.cu_lift.specs.Lifting.{local_mark, mark_group};
ghost use Rattle.cu_lift.specs.declared.placement.Placement.{Placement};

use crate::placement::Placement;
use crate::renaming::captured_by;
use cu_kernel::{LocalFunction, Mark, TopFunction, copy_declared, copy_mark};
use std::alloc::{AllocError, Global};

/// The mark of a local function.
fn local_mark(
    alloc: Global,
    mark: &Mark,
    placement: &Placement,
    number: usize,
    function: &LocalFunction,
) -> Result<Mark, AllocError>
    ensures { IfOk result (λ made. mark_meaning made ≡ local_mark (mark_meaning mark.now)
        (captured_in placement.now) (numbered number (local_function_meaning function.now))) }
{
    let declared = copy_declared(alloc, &function.declared)?;
    match u32::try_from(captured_by(placement, number).len()) {
        Ok(captured) => Ok(Mark {
            module: mark.module,
            public: false,
            declared,
            captured,
            place: function.place,
        }),
        Err(_) => Err(AllocError),
    }
}

/// Pushes the marks of a top-level function and its local functions.
fn push_marks(
    alloc: Global,
    marks: &mut Vec<Mark>,
    mark: &Mark,
    placement: &Placement,
    function: &TopFunction,
) -> Result<(), AllocError>
    requires ordered { placement.now.ordered.items
        ≡ ordered_numbers (map local_function_meaning function.now.locals.items) }
    ensures { OnOk result (map mark_meaning marks.new.items ≡ map mark_meaning marks.old.items
        ++ mark_group (captured_in placement.now) (mark_meaning mark.now)
        (top_function_meaning function.now)) }
{
    marks.push(copy_mark(alloc, mark)?)?;
    for number in &placement.ordered {
        let local = &function.locals[*number];
        marks.push(local_mark(alloc, mark, placement, *number, local)?)?;
    }
    Ok(())
}

/// The marks of the lifted program.
pub(crate) fn lift_marks(
    alloc: Global,
    placements: &[Placement],
    marks: &[Mark],
    functions: &[TopFunction],
) -> Result<Vec<Mark>, AllocError>
    requires many { length placements.now ≡ length functions.now }
    requires marks { length marks.now ≡ length functions.now }
    requires ordered { (i : ℕ) (f : TopFunction) (p : Placement)
        → slice_get functions.now i ≡ Some f → slice_get placements.now i ≡ Some p
        → p.ordered.items ≡ ordered_numbers (map local_function_meaning f.locals.items) }
    ensures { IfOk result (λ lifted. map mark_meaning lifted.items ≡ marks_by placements.now
        (map mark_meaning marks.now) (map top_function_meaning functions.now)) }
{
    let mut lifted = Vec::new(alloc);
    for (index, function) in functions.iter().enumerate() {
        push_marks(
            alloc,
            &mut lifted,
            &marks[index],
            &placements[index],
            function,
        )?;
    }
    Ok(lifted)
}
