//! The operations that are built in.
ghost use Rattle.std.specs.Prelude.{◌≡◌, ◌++◌, List, ℕ, IfOk, OnOk, map};
ghost use Rattle.std.specs.List.{All, Contains};
ghost use Rattle.cu_kernel.specs.KernelOf.{mark_meaning};
ghost use Rattle.cu_kernel.specs.LocalKernelOf.{top_function_meaning};
ghost use Rattle.cu_names.specs.Texts.{AllDiffer, IsKnown, text_of};
ghost use Rattle.cu_toplevel.specs.Inside.Given as given;
ghost use Rattle.cu_toplevel.specs.Inside.Given.{external_meaning, external_text};
ghost use Rattle.cu_toplevel.specs.Listings.{IsListing};
ghost use Rattle.cu_toplevel.specs.Readings.{IsReading};
ghost use Rattle.cu_translation.specs.Externals.{external, externals};
ghost use Rattle.cu_translation.specs.Functions.{external_function};
ghost use Rattle.cu_translation.specs.ModuleTypes as meant;
ghost use Rattle.cu_translation.specs.Numbered as numbers;
ghost use Rattle.cu_translation.specs.Numbered.{only_in_prelude};
ghost use Rattle.cu_translation.specs.Parts.{external_mark};

use crate::Reading;
use crate::built_in::{named, number_of};
use crate::external_types::external_type;
use crate::given::found;
use crate::listing::{Declared, Listing};
use cu_entities::Space;
use cu_kernel::{LocalBody, Mark, Prim, TopFunction, external_arity};
use cu_names::{NameId, Names, Place};
use std::alloc::{AllocError, Global};

/// The operations that are built in, in the order in which the Prelude has them.
pub(crate) const EXTERNALS: [(&str, Prim); 15] = [
    ("+", Prim::Add),
    ("-", Prim::Sub),
    ("*", Prim::Mul),
    ("div", Prim::Div),
    ("mod", Prim::Mod),
    ("<", Prim::Less),
    ("<=", Prim::AtMost),
    (">", Prim::Greater),
    (">=", Prim::AtLeast),
    ("==", Prim::Equal),
    ("=:=", Prim::Unify),
    ("&", Prim::And),
    ("ord", Prim::Ord),
    ("chr", Prim::Chr),
    ("failed", Prim::Failed),
];

/// Adds operations to what a module declares.
///
/// # Errors
///
/// An allocation failure. The listing is of no use then.
pub(crate) fn add_externals(
    names: &Names,
    owner: NameId,
    externals: &[(&str, Prim)],
    listing: &mut Listing,
) -> Result<(), AllocError>
    requires there { All (Contains names.now) (map external_text externals.now) }
    requires known { IsKnown names.now owner }
    ensures { (before : List numbers.Declared)
        → AllDiffer names.now → IsListing names.now before listing.old
        → OnOk result (IsListing names.now
        (before ++ map (given.operation_meaning (text_of names.now owner)) externals.now)
        listing.new) }
{
    'externals: for (text, operation) in externals {
        let name = found(names, text);
        listing.add(Declared {
            owner,
            name,
            arity: external_arity(*operation) as usize,
        })?;
    }
    Ok(())
}

/// An operation as a function.
fn function(alloc: Global, names: &Names, text: &str, operation: Prim) -> TopFunction
    ensures { top_function_meaning result
        ≡ external_function names.now (external text.now operation) }
{
    TopFunction {
        name: number_of(names, named(names, text)),
        arity: external_arity(operation),
        body: LocalBody::External(operation),
        locals: Vec::new(alloc),
    }
}

/// The operations that are built in, as functions.
fn functions(
    alloc: Global,
    names: &Names,
    externals: &[(&str, Prim)],
) -> Result<Vec<TopFunction>, AllocError>
    ensures { IfOk result (λ found. map top_function_meaning found.items
        ≡ map (external_function names.now) (map external_meaning externals.now)) }
{
    let mut functions = Vec::new(alloc);
    'externals: for (text, operation) in externals {
        functions.push(function(alloc, names, text, *operation))?;
    }
    Ok(functions)
}

/// What is known of an operation beside what it computes. What is built in
/// stands at the first place of a text.
fn mark(
    alloc: Global,
    reading: &Reading<'_>,
    text: &str,
    operation: Prim,
) -> Result<Mark, AllocError>
    ensures { (names : List (List ℕ)) (r : meant.Reading) → IsReading names r reading.now
        → IfOk result (λ found. mark_meaning found
        ≡ external_mark r (external text.now operation)) }
{
    let names = reading.top.names;
    let name = number_of(names, named(names, text));
    let declared = external_type(alloc, &reading.top, operation)?;
    Ok(Mark {
        module: reading.number,
        public: reading.is_public(Space::Values, name),
        declared: Some(declared),
        captured: 0,
        place: Place {
            module: reading.top.owner(),
            line: 1,
            column: 1,
        },
    })
}

/// What is known of the operations that are built in, beside what they compute.
fn marks(
    alloc: Global,
    reading: &Reading<'_>,
    externals: &[(&str, Prim)],
) -> Result<Vec<Mark>, AllocError>
    ensures { (names : List (List ℕ)) (r : meant.Reading) → IsReading names r reading.now
        → IfOk result (λ found. map mark_meaning found.items
        ≡ map (external_mark r) (map external_meaning externals.now)) }
{
    let mut marks = Vec::new(alloc);
    'externals: for (text, operation) in externals {
        marks.push(mark(alloc, reading, text, *operation)?)?;
    }
    Ok(marks)
}

/// The functions that a module has without rules: those of the Prelude are the
/// operations that are built in.
///
/// # Errors
///
/// An allocation failure.
pub(crate) fn external_functions(
    alloc: Global,
    reading: &Reading<'_>,
) -> Result<Vec<TopFunction>, AllocError>
    ensures { (names : List (List ℕ)) (r : meant.Reading) → IsReading names r reading.now
        → IfOk result (λ found. map top_function_meaning found.items
        ≡ only_in_prelude r.m.name (map (external_function r.table) externals)) }
{
    if reading.is_prelude() {
        functions(alloc, reading.top.names, &EXTERNALS)
    } else {
        Ok(Vec::new(alloc))
    }
}

/// What is known of the functions that a module has without rules, beside what
/// they compute.
///
/// # Errors
///
/// An allocation failure.
pub(crate) fn external_marks(alloc: Global, reading: &Reading<'_>) -> Result<Vec<Mark>, AllocError>
    ensures { (names : List (List ℕ)) (r : meant.Reading) → IsReading names r reading.now
        → IfOk result (λ found. map mark_meaning found.items
        ≡ only_in_prelude r.m.name (map (external_mark r) externals)) }
{
    if reading.is_prelude() {
        marks(alloc, reading, &EXTERNALS)
    } else {
        Ok(Vec::new(alloc))
    }
}
