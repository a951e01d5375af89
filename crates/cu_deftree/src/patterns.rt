//! What demands choose, and what patterns bind.
ghost use Rattle.std.specs.Prelude.{◌≡◌, ◌+◌, ◌<◌, ◌^◌, ◌++◌, IfOk, OnOk};
ghost use Rattle.cu_calculus.specs.Choose.{list_patterns};
ghost use Rattle.cu_deftree.specs.Inside.Groups.{demanded_choice, key_of};
ghost use Rattle.cu_deftree.specs.Inside.RowsOf.{keeps, list_from_option, demands_choice};
ghost use Rattle.cu_deftree.specs.Lowering.{variables};
ghost use Rattle.cu_deftree.specs.Rows.{argument_names, literal_in, names_at, names_at_all, numbers};
ghost use Rattle.cu_kernel.specs.TermsOf.{pattern_of, patterns_of};
ghost use Rattle.cu_matrix.specs.Meaning.{demand_meaning};

use cu_int::Int;
use cu_kernel::{ConId, Lit, Pattern};
use cu_matrix::Demand;
use std::alloc::{AllocError, Global};

/// The constructor or literal for which a branch of a case distinction is
/// taken.
#[derive(Clone, Copy)]
pub(crate) enum Choice {
    /// A constructor.
    Constructor(ConId),
    /// A literal.
    Literal(Lit),
}

/// A choice as the key of a map: two choices have the same key exactly if each
/// pattern that demands the one demands the other.
#[derive(Clone, Copy, PartialEq, Eq, Hash)]
pub(crate) enum Key {
    /// A constructor, by its index among the program's constructors.
    Constructor(usize),
    /// An integer.
    Integer(Int),
    /// A character.
    Character(char),
}

/// Which rows are kept, by what they demand at a position.
#[derive(Clone, Copy)]
pub(crate) enum Keep {
    /// Rows that demand something are kept.
    Demanding,
    /// Rows that demand nothing are kept.
    Undemanding,
    /// Rows that don't demand this literal are kept.
    OtherThan(Lit),
    /// Rows that demand this choice are kept and, where the flag is set, those
    /// that demand nothing too.
    Branch(Choice, bool),
}

/// The literal that is demanded, if it is one.
pub(crate) fn demanded_literal(demand: Demand) -> Option<Lit>
    ensures { list_from_option result ≡ literal_in (demand_meaning demand) }
{
    match demand {
        Demand::Nothing => None,
        Demand::Literal(literal) => Some(literal),
        Demand::Constructor(_) => None,
    }
}

impl Choice {
    /// The choice that is demanded, if something is demanded.
    pub(crate) fn of(demand: Demand) -> Option<Choice>
        ensures { demanded_choice result ≡ demand_meaning demand }
    {
        match demand {
            Demand::Nothing => None,
            Demand::Literal(literal) => Some(Choice::Literal(literal)),
            Demand::Constructor(constructor) => Some(Choice::Constructor(constructor)),
        }
    }

    /// This choice as the key of a map.
    pub(crate) fn key(self) -> Key
        ensures { result ≡ key_of self }
    {
        match self {
            Choice::Constructor(constructor) => Key::Constructor(constructor.0),
            Choice::Literal(Lit::Int(number)) => Key::Integer(number),
            Choice::Literal(Lit::Char(character)) => Key::Character(character),
        }
    }

    /// Whether this choice is what is demanded.
    pub(crate) fn is_demanded(self, demand: Demand) -> bool
        ensures { result ≡ demands_choice self (demand_meaning demand) }
    {
        match (self, demand) {
            (Choice::Constructor(constructor), Demand::Constructor(other)) => constructor.0
                == other.0,
            (Choice::Constructor(_), Demand::Nothing) => false,
            (Choice::Constructor(_), Demand::Literal(_)) => false,
            (Choice::Literal(literal), Demand::Literal(other)) => literal == other,
            (Choice::Literal(_), Demand::Nothing) => false,
            (Choice::Literal(_), Demand::Constructor(_)) => false,
        }
    }
}

impl Keep {
    /// Whether a row with this demand is kept.
    pub(crate) fn admits(self, demand: Demand) -> bool
        ensures { result ≡ keeps self (demand_meaning demand) }
    {
        match self {
            Keep::Demanding => demand.is_some(),
            Keep::Undemanding => !demand.is_some(),
            Keep::OtherThan(literal) => !Choice::Literal(literal).is_demanded(demand),
            Keep::Branch(choice, has_variables) => {
                choice.is_demanded(demand) || (has_variables && !demand.is_some())
            }
        }
    }
}

/// Adds the names of the variables of a pattern that stand for the whole
/// value, which are a variable as the pattern and aliases. Each is called as
/// the position is.
#[tactic(auto, using(cu_kernel::specs::TermsOf::patterns_of_variants))]
pub(crate) fn push_names(
    names: &mut Vec<(u32, u32)>,
    position: u32,
    pattern: &Pattern,
) -> Result<(), AllocError>
    ensures { OnOk result (names.new.items
        ≡ names.old.items ++ names_at position (pattern_of pattern.now)) }
{
    match pattern {
        Pattern::Var(x) => {
            names.push((*x, position))?;
            Ok(())
        }
        Pattern::Lit(_) => Ok(()),
        Pattern::Con(_, _) => Ok(()),
        Pattern::Alias(x, part) => {
            names.push((*x, position))?;
            push_names(names, position, part)
        }
    }
}

/// Adds the names of the variables that stand for the whole value at one of
/// these positions.
pub(crate) fn push_all_names(
    names: &mut Vec<(u32, u32)>,
    positions: &[u32],
    patterns: &[Pattern],
) -> Result<(), AllocError>
    ensures { OnOk result (names.new.items ≡ names.old.items
        ++ names_at_all positions.now (list_patterns (patterns_of patterns.now))) }
{
    let count = positions.len().min(patterns.len());
    for i in 0..count {
        push_names(names, positions[i], &patterns[i])?;
    }
    Ok(())
}

/// Adds the names of the variables that stand for a whole argument of the
/// constructor that a pattern demands. The arguments have these positions.
#[tactic(auto, using(cu_kernel::specs::TermsOf::patterns_of_variants))]
pub(crate) fn push_argument_names(
    names: &mut Vec<(u32, u32)>,
    positions: &[u32],
    pattern: &Pattern,
) -> Result<(), AllocError>
    ensures { OnOk result (names.new.items ≡ names.old.items
        ++ argument_names positions.now (pattern_of pattern.now)) }
{
    match pattern {
        Pattern::Var(_) => Ok(()),
        Pattern::Lit(_) => Ok(()),
        Pattern::Con(_, arguments) => push_all_names(names, positions, arguments),
        Pattern::Alias(_, part) => push_argument_names(names, positions, part),
    }
}

/// The numbers from `from` on, as many as `count` says.
pub(crate) fn numbers(alloc: Global, from: u32, count: u32) -> Result<Vec<u32>, AllocError>
    requires { from + count < 2 ^ 32 }
    ensures { IfOk result (λ all. all.items ≡ numbers from count) }
{
    let mut all = Vec::new(alloc);
    for x in from..from + count {
        all.push(x)?;
    }
    Ok(all)
}

/// A variable as a pattern, for each of these variables.
pub(crate) fn variables(alloc: Global, names: &[u32]) -> Result<Vec<Pattern>, AllocError>
    ensures { IfOk result (λ all. patterns_of all.items ≡ variables names.now) }
{
    let mut all = Vec::new(alloc);
    for name in names {
        all.push(Pattern::Var(*name))?;
    }
    Ok(all)
}
