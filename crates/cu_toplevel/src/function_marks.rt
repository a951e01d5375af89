//! What is known of functions beside their rules.
ghost use Rattle.std.specs.Prelude.{◌≡◌, ◌++◌, List, ℕ, IfOk, IfSome, OnOk, map};
ghost use Rattle.std.specs.List.{All};
ghost use Rattle.std.specs.Option.{option_map};
ghost use Rattle.cu_kernel.specs.KernelOf.{mark_meaning};
ghost use Rattle.cu_kernel.specs.TypesOf as kernel;
ghost use Rattle.cu_names.specs.declared.names.NameId.{NameId};
ghost use Rattle.cu_syntax.specs.Owners.{TypeIsOf};
ghost use Rattle.cu_syntax.specs.Syntax as syntax;
ghost use Rattle.cu_syntax.specs.Types.{type_meaning};
ghost use Rattle.cu_toplevel.specs.Heads.{HeadIsOf, head_meaning};
ghost use Rattle.cu_toplevel.specs.Inside.Marks.{head_mark};
ghost use Rattle.cu_toplevel.specs.Readings.{IsReading};
ghost use Rattle.cu_toplevel.specs.Inside.SignatureTables.{AreSignatures};
ghost use Rattle.cu_toplevel.specs.Surrounding.{TellsNames};
ghost use Rattle.cu_translation.specs.Around as around;
ghost use Rattle.cu_translation.specs.Externals.{externals};
ghost use Rattle.cu_translation.specs.ModuleTypes as meant;
ghost use Rattle.cu_translation.specs.Numbered.{groups_in, only_in_prelude};
ghost use Rattle.cu_translation.specs.Parts.{external_mark, function_mark, signature_of};
ghost use Rattle.cu_translation.specs.TypeTable.{signature_type};

use crate::externals::external_marks;
use crate::function_heads::{FunctionHead, heads};
use crate::signature_table::Signatures;
use crate::signatures::signature_type;
use crate::{Reading, TopNames};
use cu_entities::Space;
use cu_kernel::{Mark, TypeTerm};
use cu_syntax as syntax;
use std::alloc::{AllocError, Global};

/// The type that a signature declares, if there is one.
fn declared(
    alloc: Global,
    top: &TopNames<'_>,
    signature: Option<syntax::TypeTerm<'_>>,
) -> Result<Option<TypeTerm>, AllocError>
    ensures { (owner : NameId) (names : List (List ℕ)) (around : around.Names)
        → TellsNames names around top.now → IfSome signature.entry (TypeIsOf owner names)
        → IfOk result (λ found. option_map kernel.type_of found
        ≡ option_map (signature_type around) (option_map (type_meaning names) signature.entry)) }
{
    match signature {
        Some(t) => Ok(Some(signature_type(alloc, top, t)?)),
        None => Ok(None),
    }
}

/// What is known of a function of a module, which has these signatures.
fn function_mark(
    alloc: Global,
    reading: &Reading<'_>,
    signatures: &Signatures<'_>,
    head: FunctionHead,
) -> Result<Mark, AllocError>
    ensures { (names : List (List ℕ)) (r : meant.Reading)
        → IsReading names r reading.now → HeadIsOf reading.now.«module».now.name names head
        → AreSignatures reading.now.«module».now.name names
        (λ text. signature_of text r.m.syntax.items) signatures.now
        → IfOk result (λ found. mark_meaning found ≡ head_mark r (head_meaning names head)) }
{
    let declared = declared(alloc, &reading.top, signatures.find(head.name))?;
    Ok(Mark {
        module: reading.number,
        public: reading.is_public(Space::Values, head.name),
        declared,
        captured: 0,
        place: head.place,
    })
}

/// Adds what is known of each of these functions of a module, which has these
/// signatures.
fn add_marks(
    alloc: Global,
    reading: &Reading<'_>,
    signatures: &Signatures<'_>,
    functions: &[FunctionHead],
    marks: &mut Vec<Mark>,
) -> Result<(), AllocError>
    ensures { (names : List (List ℕ)) (r : meant.Reading) → IsReading names r reading.now
        → All (HeadIsOf reading.now.«module».now.name names) functions.now
        → AreSignatures reading.now.«module».now.name names
        (λ text. signature_of text r.m.syntax.items) signatures.now
        → OnOk result (map mark_meaning marks.new.items ≡ map mark_meaning marks.old.items
        ++ map (λ head. head_mark r (head_meaning names head)) functions.now) }
{
    'functions: for head in functions {
        marks.push(function_mark(alloc, reading, signatures, *head)?)?;
    }
    Ok(())
}

/// Adds what is known of the functions of a module that have rules.
fn add_functions(
    alloc: Global,
    reading: &Reading<'_>,
    marks: &mut Vec<Mark>,
) -> Result<(), AllocError>
    ensures { (names : List (List ℕ)) (r : meant.Reading) → IsReading names r reading.now
        → OnOk result (map mark_meaning marks.new.items
        ≡ map mark_meaning marks.old.items ++ map (function_mark r) (groups_in r.m)) }
{
    let functions = heads(alloc, reading.module)?;
    let signatures = Signatures::of(alloc, reading.module)?;
    add_marks(alloc, reading, &signatures, functions.as_slice(), marks)
}

/// What is known of the functions of a module beside their rules, in the order
/// of their numbers.
///
/// # Errors
///
/// An allocation failure.
pub(crate) fn marks(alloc: Global, reading: &Reading<'_>) -> Result<Vec<Mark>, AllocError>
    ensures { (names : List (List ℕ)) (r : meant.Reading) → IsReading names r reading.now
        → IfOk result (λ found. map mark_meaning found.items
        ≡ only_in_prelude r.m.name (map (external_mark r) externals)
        ++ map (function_mark r) (groups_in r.m)) }
{
    let mut marks = external_marks(alloc, reading)?;
    add_functions(alloc, reading, &mut marks)?;
    Ok(marks)
}
