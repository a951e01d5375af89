//! Copies of types, patterns and marks.
ghost use Rattle.std.specs.Prelude.{◌≡◌, IfOk, map, option_map};
ghost use Rattle.cu_kernel.specs.KernelOf.{mark_meaning};
ghost use Rattle.cu_kernel.specs.TermsOf.{pattern_of, patterns_of};
ghost use Rattle.cu_kernel.specs.TypesOf.{type_of, types_of};

use crate::{Mark, Pattern, TypeTerm};
use std::alloc::{AllocError, Global};

/// A copy of a type.
#[cycle(types)]
#[tactic(auto, using(crate::specs::TypesOf::types_of_variants))]
pub fn copy_type(alloc: Global, term: &TypeTerm) -> Result<TypeTerm, AllocError>
    ensures { IfOk result (λ copy. type_of copy ≡ type_of term.now) }
{
    match term {
        TypeTerm::Var(variable) => Ok(TypeTerm::Var(*variable)),
        TypeTerm::Arrow(from, to) => {
            let first = copy_boxed(alloc, from)?;
            let second = copy_boxed(alloc, to)?;
            Ok(TypeTerm::Arrow(first, second))
        }
        TypeTerm::Named(name, terms) => {
            let copies = copy_types(alloc, terms)?;
            Ok(TypeTerm::Named(*name, copies))
        }
    }
}

/// A copy of a type, in a box.
#[cycle(types)]
fn copy_boxed(alloc: Global, term: &TypeTerm) -> Result<Box<TypeTerm>, AllocError>
    ensures { IfOk result (λ copy. type_of copy.value ≡ type_of term.now) }
{
    let copy = copy_type(alloc, term)?;
    let boxed = Box::new(alloc, copy)?;
    Ok(boxed)
}

/// Copies of types.
#[cycle(types)]
pub fn copy_types(alloc: Global, terms: &[TypeTerm]) -> Result<Vec<TypeTerm>, AllocError>
    ensures each { IfOk result (λ copies. map type_of copies.items ≡ map type_of terms.now) }
    ensures whole { IfOk result (λ copies. types_of copies.items ≡ types_of terms.now) }
{
    let mut copies = Vec::new(alloc);
    for term in terms {
        copies.push(copy_type(alloc, term)?)?;
    }
    Ok(copies)
}

/// A copy of a declared type, if there is one.
pub fn copy_declared(
    alloc: Global,
    declared: &Option<TypeTerm>,
) -> Result<Option<TypeTerm>, AllocError>
    ensures { IfOk result (λ copy. option_map type_of copy ≡ option_map type_of declared.now) }
{
    match declared {
        Some(term) => {
            let copy = copy_type(alloc, term)?;
            Ok(Some(copy))
        }
        None => Ok(None),
    }
}

/// A copy of a mark.
pub fn copy_mark(alloc: Global, mark: &Mark) -> Result<Mark, AllocError>
    ensures { IfOk result (λ copy. mark_meaning copy ≡ mark_meaning mark.now) }
{
    let declared = copy_declared(alloc, &mark.declared)?;
    Ok(Mark {
        module: mark.module,
        public: mark.public,
        declared,
        captured: mark.captured,
        place: mark.place,
    })
}

/// A copy of a pattern.
#[cycle(patterns)]
#[tactic(auto, using(crate::specs::TermsOf::patterns_of_variants))]
pub fn copy_pattern(alloc: Global, pattern: &Pattern) -> Result<Pattern, AllocError>
    ensures { IfOk result (λ copy. pattern_of copy ≡ pattern_of pattern.now) }
{
    match pattern {
        Pattern::Var(variable) => Ok(Pattern::Var(*variable)),
        Pattern::Lit(literal) => Ok(Pattern::Lit(*literal)),
        Pattern::Con(constructor, patterns) => {
            let copies = copy_patterns(alloc, patterns)?;
            Ok(Pattern::Con(*constructor, copies))
        }
        Pattern::Alias(variable, pattern) => {
            let copy = copy_pattern(alloc, pattern)?;
            let boxed = Box::new(alloc, copy)?;
            Ok(Pattern::Alias(*variable, boxed))
        }
    }
}

/// Copies of patterns.
#[cycle(patterns)]
pub fn copy_patterns(alloc: Global, patterns: &[Pattern]) -> Result<Vec<Pattern>, AllocError>
    ensures { IfOk result (λ copies. patterns_of copies.items ≡ patterns_of patterns.now) }
{
    let mut copies = Vec::new(alloc);
    for pattern in patterns {
        copies.push(copy_pattern(alloc, pattern)?)?;
    }
    Ok(copies)
}
