//! Walks over patterns.
ghost use Rattle.std.specs.Prelude.{◌≡◌, OnOk, Some};
ghost use Rattle.std.specs.List.{All};
ghost use Rattle.cu_syntax.specs.Owners.{ConstructorItemIsOf, NameIsOf, PatItemsAreOf, PatternIsOf};
ghost use Rattle.cu_translation.specs.Faults.{takes};
ghost use Rattle.cu_translation.specs.Meaning.{Setting, referent_meaning};
ghost use Rattle.cu_faults.specs.Inside.Patterns.{constructed_told, operands_told, operators_told, pattern_told, patterns_told};
ghost use Rattle.cu_faults.specs.Telling.{Told};

use crate::clashes::tell_clash;
use crate::first::First;
use cu_syntax::{ConstructorItem, Name, PatItems, Pattern, PatternNode};
use cu_translation::{Fault, Referent, Surroundings, Wrong};
use std::alloc::{AllocError, Global};

/// Which faults of patterns are told.
#[derive(Clone, Copy, PartialEq, Eq)]
pub(crate) enum Sought {
    /// Constructor operators between patterns that have no grouped tree.
    Clashes,
    /// Constructors with a wrong number of patterns.
    Counts,
}

/// Whether what a name refers to takes so many arguments. A name that is no
/// function and no constructor is told elsewhere.
fn takes(referent: Referent, count: usize) -> bool
    ensures { result ≡ takes (Some (referent_meaning referent)) count }
{
    match referent {
        Referent::Callable(_, arity) => arity == count,
        _ => true,
    }
}

impl Sought {
    /// Tells what is wrong with a constructor on so many patterns.
    fn constructed<A: Surroundings>(self, around: &A, name: Name, count: usize, first: &mut First)
        ensures { (w : Setting) → A.tells around.now w → NameIsOf w.owner w.names name
            → Told w.owner first.old (constructed_told self w name count) first.new }
    {
        if self == Sought::Counts && !takes(around.value(name), count) {
            first.tell(Fault {
                wrong: Wrong::Arity,
                place: name.place,
            });
        }
    }

    /// Tells what is wrong with patterns with constructor operators between
    /// them, faults in these patterns apart.
    fn operators<A: Surroundings>(
        self,
        alloc: Global,
        around: &A,
        items: &PatItems<'_>,
        first: &mut First,
    ) -> Result<(), AllocError>
        ensures { (w : Setting) → A.tells around.now w → PatItemsAreOf w.owner w.names items.now
            → OnOk result (Told w.owner first.old (operators_told self w items.now) first.new) }
    {
        match self {
            Sought::Clashes => tell_clash(alloc, around, items, first),
            Sought::Counts => Ok(()),
        }
    }
}

/// Tells what is wrong with a pattern.
#[cycle(patterns)]
pub(crate) fn pattern<A: Surroundings>(
    alloc: Global,
    around: &A,
    sought: Sought,
    p: Pattern<'_>,
    first: &mut First,
) -> Result<(), AllocError>
    ensures { (w : Setting) → A.tells around.now w → PatternIsOf w.owner w.names p.entry
        → OnOk result (Told w.owner first.old (pattern_told sought w p.entry) first.new) }
{
    match p.node(alloc)? {
        PatternNode::Variable(_) => Ok(()),
        PatternNode::Wildcard(_) => Ok(()),
        PatternNode::Literal(_, _) => Ok(()),
        PatternNode::Negative(_, _) => Ok(()),
        PatternNode::Alias(_, inner) => pattern(alloc, around, sought, inner, first),
        PatternNode::Constructed(_, name, arguments) => {
            sought.constructed(around, name, arguments.len(), first);
            patterns(alloc, around, sought, arguments.as_slice(), first)
        }
        PatternNode::Tuple(_, components) => {
            patterns(alloc, around, sought, components.as_slice(), first)
        }
        PatternNode::List(_, elements) => {
            patterns(alloc, around, sought, elements.as_slice(), first)
        }
        PatternNode::Operators(items) => {
            sought.operators(alloc, around, &items, first)?;
            pattern(alloc, around, sought, items.first, first)?;
            operands(alloc, around, sought, items.rest.as_slice(), first)
        }
    }
}

/// Tells what is wrong with several patterns.
#[cycle(patterns)]
pub(crate) fn patterns<A: Surroundings>(
    alloc: Global,
    around: &A,
    sought: Sought,
    ps: &[Pattern<'_>],
    first: &mut First,
) -> Result<(), AllocError>
    ensures { (w : Setting) → A.tells around.now w → All (PatternIsOf w.owner w.names) ps.now
        → OnOk result (Told w.owner first.old (patterns_told sought w ps.now) first.new) }
{
    for p in ps {
        pattern(alloc, around, sought, *p, first)?;
    }
    Ok(())
}

/// Tells what is wrong with the patterns after constructor operators, and with
/// these operators.
#[cycle(patterns)]
fn operands<A: Surroundings>(
    alloc: Global,
    around: &A,
    sought: Sought,
    items: &[ConstructorItem<'_>],
    first: &mut First,
) -> Result<(), AllocError>
    ensures { (w : Setting) → A.tells around.now w
        → All (ConstructorItemIsOf w.owner w.names) items.now
        → OnOk result (Told w.owner first.old (operands_told sought w items.now) first.new) }
{
    for item in items {
        sought.constructed(around, item.operator, 2, first);
        pattern(alloc, around, sought, item.operand, first)?;
    }
    Ok(())
}
