//! What the rules of functions mention.
ghost use Rattle.std.specs.Prelude.{◌≡◌, ◌<◌, ◌++◌, ℕ, Some, IfOk, OnOk, length, map, flat_map, slice_get};
ghost use Rattle.cu_calculus.specs.Claims.{all_mentions, alternative_mentions, body_mentions, head_mentions, mentions};
ghost use Rattle.cu_kernel.specs.Kernel.{program_of};
ghost use Rattle.cu_kernel.specs.KernelOf.{body_meaning, rule_meaning};
ghost use Rattle.cu_kernel.specs.TermsOf.{alternatives_of, term_of, terms_of};
ghost use Rattle.cu_cycles.specs.Graph.{IsWhole, rows_in};
ghost use Rattle.cu_lift.specs.Inside.MentionsOf.{IsRow, graph_of, mention_meanings, rows_of, targets, targets_in};

use cu_kernel::{Body, FunId, Head, Pattern, Program, Rule, Term};
use std::alloc::{AllocError, Global};

/// A mention of a function in a rule.
#[derive(Clone, Copy)]
pub(crate) struct Mention {
    /// The function.
    pub function: FunId,
    /// Whether the function is mentioned in a set call.
    pub collected: bool,
}

/// Pushes what a head mentions.
fn push_head(found: &mut Vec<Mention>, head: Head) -> Result<(), AllocError>
    ensures { OnOk result (mention_meanings found.new.items
        ≡ mention_meanings found.old.items ++ head_mentions head) }
{
    let (function, collected) = match head {
        Head::Con(_) => return Ok(()),
        Head::Fun(function) => (function, false),
        Head::Set(function) => (function, true),
    };
    found.push(Mention {
        function,
        collected,
    })?;
    Ok(())
}

/// Pushes what a term mentions, from left to right.
#[cycle(mentions)]
#[tactic(auto, using(cu_kernel::specs::TermsOf::terms_of_variants))]
fn push_term(found: &mut Vec<Mention>, term: &Term) -> Result<(), AllocError>
    ensures { OnOk result (mention_meanings found.new.items
        ≡ mention_meanings found.old.items ++ mentions (term_of term.now)) }
{
    match term {
        Term::Var(_) => Ok(()),
        Term::Lit(_) => Ok(()),
        Term::Whole(head, arguments) => push_call(found, *head, arguments),
        Term::Part(head, arguments) => push_call(found, *head, arguments),
        Term::Apply(function, argument) => push_two(found, function, argument),
        Term::Let(_, value, body) => push_two(found, value, body),
        Term::Free(_, body) => push_term(found, body),
        Term::Or(left, right) => push_two(found, left, right),
        Term::Case(_, scrutinee, alternatives) => {
            push_term(found, scrutinee)?;
            push_alternatives(found, alternatives)
        }
    }
}

/// Pushes what a head and its arguments mention.
#[cycle(mentions)]
fn push_call(found: &mut Vec<Mention>, head: Head, arguments: &[Term]) -> Result<(), AllocError>
    ensures { OnOk result (mention_meanings found.new.items
        ≡ mention_meanings found.old.items
        ++ (head_mentions head ++ all_mentions (terms_of arguments.now))) }
{
    push_head(found, head)?;
    push_terms(found, arguments)
}

/// Pushes what two terms mention.
#[cycle(mentions)]
fn push_two(found: &mut Vec<Mention>, first: &Term, second: &Term) -> Result<(), AllocError>
    ensures { OnOk result (mention_meanings found.new.items
        ≡ mention_meanings found.old.items
        ++ (mentions (term_of first.now) ++ mentions (term_of second.now))) }
{
    push_term(found, first)?;
    push_term(found, second)
}

/// Pushes what these terms mention.
#[cycle(mentions)]
fn push_terms(found: &mut Vec<Mention>, terms: &[Term]) -> Result<(), AllocError>
    ensures { OnOk result (mention_meanings found.new.items
        ≡ mention_meanings found.old.items ++ all_mentions (terms_of terms.now)) }
{
    for term in terms {
        push_term(found, term)?;
    }
    Ok(())
}

/// Pushes what the right sides of alternatives mention.
#[cycle(mentions)]
fn push_alternatives(
    found: &mut Vec<Mention>,
    alternatives: &[(Pattern, Term)],
) -> Result<(), AllocError>
    ensures { OnOk result (mention_meanings found.new.items
        ≡ mention_meanings found.old.items
        ++ alternative_mentions (alternatives_of alternatives.now)) }
{
    for (_, body) in alternatives {
        push_term(found, body)?;
    }
    Ok(())
}

/// Pushes what the right sides of rules mention.
fn push_rules(found: &mut Vec<Mention>, rules: &[Rule]) -> Result<(), AllocError>
    ensures { OnOk result (mention_meanings found.new.items
        ≡ mention_meanings found.old.items
        ++ flat_map (λ rule. mentions rule.body) (map rule_meaning rules.now)) }
{
    for rule in rules {
        push_term(found, &rule.body)?;
    }
    Ok(())
}

/// What a function's rules mention.
fn mentions_of(alloc: Global, body: &Body) -> Result<Vec<Mention>, AllocError>
    ensures { IfOk result (λ found. mention_meanings found.items
        ≡ body_mentions (body_meaning body.now)) }
{
    let mut found = Vec::new(alloc);
    match body {
        Body::Rules(rules) => push_rules(&mut found, rules)?,
        Body::External(_) => {}
    }
    Ok(found)
}

/// For each function of a program, what its rules mention.
pub(crate) fn graph(alloc: Global, program: &Program) -> Result<Vec<Vec<Mention>>, AllocError>
    ensures graph { IfOk result (λ rows. rows_of rows.items ≡ graph_of (program_of program.now)) }
    ensures whole { IfOk result (λ rows. IsWhole (targets_in rows.items)) }
{
    let mut rows = Vec::new(alloc);
    let functions = program.functions();
    for function in functions {
        rows.push(mentions_of(alloc, &function.body)?)?;
    }
    Ok(rows)
}

/// The row of a function.
pub(crate) fn row_of(rows: &[Vec<Mention>], function: usize) -> &[Mention]
    requires { function < length rows.now }
    ensures { IsRow rows.now function result.now }
{
    rows[function].as_slice()
}

/// The functions that a row mentions.
fn row_targets(alloc: Global, row: &[Mention]) -> Result<Vec<usize>, AllocError>
    ensures { IfOk result (λ found. found.items ≡ targets row.now) }
{
    let mut found = Vec::new(alloc);
    for mention in row {
        found.push(mention.function.0)?;
    }
    Ok(found)
}

/// The graph of mentions: for each function those that its row mentions.
pub(crate) fn edges(alloc: Global, rows: &[Vec<Mention>]) -> Result<Vec<Vec<usize>>, AllocError>
    ensures { IfOk result (λ edges. rows_in edges.items ≡ targets_in rows.now) }
{
    let mut edges = Vec::new(alloc);
    for row in rows {
        let found = row_targets(alloc, row.as_slice())?;
        edges.push(found)?;
    }
    Ok(edges)
}
