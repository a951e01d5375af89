//! The types of the operations that are built in.
ghost use Rattle.std.specs.Prelude.{◌≡◌, List, ℕ, IfOk};
ghost use Rattle.cu_kernel.specs.TypeExpr as expr;
ghost use Rattle.cu_kernel.specs.TypesOf.{type_of};
ghost use Rattle.cu_toplevel.specs.Surrounding.{TellsNames, type_text};
ghost use Rattle.cu_translation.specs.Around as meant;
ghost use Rattle.cu_translation.specs.Externals.{external_type, from_to, on_any, type_called};

use crate::types::arrow;
use crate::{BuiltInType, TopNames};
use cu_calculus::Primitive;
use cu_kernel::TypeTerm;
use std::alloc::{AllocError, Global};

/// A type of the Prelude without arguments.
fn called(alloc: Global, top: &TopNames<'_>, what: BuiltInType) -> TypeTerm
    ensures { (names : List (List ℕ)) (around : meant.Names) → TellsNames names around top.now
        → type_of result ≡ type_called around (type_text what) }
{
    let name = top.prelude_type(what);
    TypeTerm::Named(name, Vec::new(alloc))
}

/// The type of functions from one of these types to the other.
fn from_to(
    alloc: Global,
    top: &TopNames<'_>,
    from: BuiltInType,
    to: BuiltInType,
) -> Result<TypeTerm, AllocError>
    ensures { (names : List (List ℕ)) (around : meant.Names) → TellsNames names around top.now
        → IfOk result (λ made. type_of made ≡ from_to around (type_text from) (type_text to)) }
{
    arrow(alloc, called(alloc, top, from), called(alloc, top, to))
}

/// The type of functions from two values of one of these types to the other.
fn from_two_to(
    alloc: Global,
    top: &TopNames<'_>,
    from: BuiltInType,
    to: BuiltInType,
) -> Result<TypeTerm, AllocError>
    ensures { (names : List (List ℕ)) (around : meant.Names) → TellsNames names around top.now
        → IfOk result (λ made. type_of made ≡ expr.Arrow (type_called around (type_text from))
        (from_to around (type_text from) (type_text to))) }
{
    let from_second = from_to(alloc, top, from, to)?;
    arrow(alloc, called(alloc, top, from), from_second)
}

/// The type of the tests that compare two values of any type.
fn on_any(alloc: Global, top: &TopNames<'_>) -> Result<TypeTerm, AllocError>
    ensures { (names : List (List ℕ)) (around : meant.Names) → TellsNames names around top.now
        → IfOk result (λ made. type_of made ≡ on_any around) }
{
    let truth = called(alloc, top, BuiltInType::Bool);
    let from_second = arrow(alloc, TypeTerm::Var(0), truth)?;
    arrow(alloc, TypeTerm::Var(0), from_second)
}

/// The type of an operation that is built in.
///
/// # Errors
///
/// An allocation failure.
#[tactic(auto, using(cu_kernel::specs::TypesOf::types_of_variants))]
pub fn external_type(
    alloc: Global,
    top: &TopNames<'_>,
    operation: Primitive,
) -> Result<TypeTerm, AllocError>
    ensures { (names : List (List ℕ)) (around : meant.Names) → TellsNames names around top.now
        → IfOk result (λ made. type_of made ≡ external_type around operation) }
{
    match operation {
        Primitive::Add | Primitive::Sub | Primitive::Mul | Primitive::Div | Primitive::Mod =>
            from_two_to(alloc, top, BuiltInType::Int, BuiltInType::Int),
        Primitive::Less | Primitive::AtMost | Primitive::Greater | Primitive::AtLeast => {
            from_two_to(alloc, top, BuiltInType::Int, BuiltInType::Bool)
        }
        Primitive::Equal | Primitive::Unify => on_any(alloc, top),
        Primitive::And => from_two_to(alloc, top, BuiltInType::Bool, BuiltInType::Bool),
        Primitive::Ord => from_to(alloc, top, BuiltInType::Char, BuiltInType::Int),
        Primitive::Chr => from_to(alloc, top, BuiltInType::Int, BuiltInType::Char),
        Primitive::Failed => Ok(TypeTerm::Var(0)),
    }
}
