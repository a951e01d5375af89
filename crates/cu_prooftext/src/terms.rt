//! What is written of patterns and terms. A term is as deep as it was written,
//! and is walked by recursion.
ghost use Rattle.std.specs.Prelude.{◌≡◌, ◌∷◌, ◌++◌, OnOk};
ghost use Rattle.cu_prooftext.specs.Text.{alternatives_after, pattern_text, patterns_after, term_text, terms_after};
ghost use Rattle.cu_kernel.specs.TermsOf.{alternatives_of, pattern_of, patterns_of, term_of, terms_of};

use crate::parts::{write_case, write_count, write_head, write_literal, write_number};
use cu_kernel::{Pattern, Term};
use std::alloc::AllocError;

/// Writes a pattern.
#[cycle(patterns)]
#[tactic(auto, using(std::proofs::lemmas::Grind::common_steps, crate::proofs::TermTexts::pattern_texts))]
fn write_pattern(out: &mut Vec<u8>, pattern: &Pattern) -> Result<(), AllocError>
    ensures { OnOk result (out.new.items
        ≡ out.old.items ++ pattern_text (pattern_of pattern.now)) }
{
    match pattern {
        Pattern::Var(variable) => {
            out.extend_from_slice(b"x")?;
            write_number(out, *variable as usize)
        }
        Pattern::Lit(literal) => write_literal(out, *literal),
        Pattern::Con(constructor, patterns) => {
            out.extend_from_slice(b"k")?;
            write_number(out, constructor.0)?;
            write_count(out, patterns.len())?;
            write_patterns_after(out, patterns)
        }
        Pattern::Alias(variable, inner) => {
            out.extend_from_slice(b"a")?;
            write_number(out, *variable as usize)?;
            out.extend_from_slice(b" ")?;
            write_pattern(out, inner)
        }
    }
}

/// Writes patterns, each after a space.
#[cycle(patterns)]
fn write_patterns_after(out: &mut Vec<u8>, patterns: &[Pattern]) -> Result<(), AllocError>
    ensures { OnOk result (out.new.items
        ≡ out.old.items ++ patterns_after (patterns_of patterns.now)) }
{
    for pattern in patterns {
        out.extend_from_slice(b" ")?;
        write_pattern(out, pattern)?;
    }
    Ok(())
}

/// Writes a term.
#[cycle(terms)]
#[tactic(auto, using(std::proofs::lemmas::Grind::common_steps, crate::proofs::TermTexts::term_texts))]
pub(crate) fn write_term(out: &mut Vec<u8>, term: &Term) -> Result<(), AllocError>
    ensures { OnOk result (out.new.items ≡ out.old.items ++ term_text (term_of term.now)) }
{
    match term {
        Term::Var(variable) => {
            out.extend_from_slice(b"x")?;
            write_number(out, *variable as usize)
        }
        Term::Lit(literal) => write_literal(out, *literal),
        Term::Whole(head, terms) => {
            out.extend_from_slice(b"w")?;
            write_head(out, *head)?;
            write_count(out, terms.len())?;
            write_terms_after(out, terms)
        }
        Term::Part(head, terms) => {
            out.extend_from_slice(b"q")?;
            write_head(out, *head)?;
            write_count(out, terms.len())?;
            write_terms_after(out, terms)
        }
        Term::Apply(function, argument) => {
            out.extend_from_slice(b"@")?;
            write_term_after(out, function)?;
            write_term_after(out, argument)
        }
        Term::Let(variable, definition, body) => {
            out.extend_from_slice(b"l")?;
            write_number(out, *variable as usize)?;
            write_term_after(out, definition)?;
            write_term_after(out, body)
        }
        Term::Free(variable, body) => {
            out.extend_from_slice(b"n")?;
            write_number(out, *variable as usize)?;
            write_term_after(out, body)
        }
        Term::Or(left, right) => {
            out.extend_from_slice(b"o")?;
            write_term_after(out, left)?;
            write_term_after(out, right)
        }
        Term::Case(mode, scrutinee, alternatives) => {
            write_case(out, *mode, alternatives.len())?;
            write_term_after(out, scrutinee)?;
            write_alternatives_after(out, alternatives)
        }
    }
}

/// Writes a term after a space.
#[cycle(terms)]
fn write_term_after(out: &mut Vec<u8>, term: &Term) -> Result<(), AllocError>
    ensures { OnOk result (out.new.items
        ≡ out.old.items ++ (32 ∷ term_text (term_of term.now))) }
{
    out.extend_from_slice(b" ")?;
    write_term(out, term)
}

/// Writes terms, each after a space.
#[cycle(terms)]
fn write_terms_after(out: &mut Vec<u8>, terms: &[Term]) -> Result<(), AllocError>
    ensures { OnOk result (out.new.items ≡ out.old.items ++ terms_after (terms_of terms.now)) }
{
    for term in terms {
        write_term_after(out, term)?;
    }
    Ok(())
}

/// Writes alternatives, a pattern and a term, each of them after a space.
#[cycle(terms)]
fn write_alternatives_after(
    out: &mut Vec<u8>,
    alternatives: &[(Pattern, Term)],
) -> Result<(), AllocError>
    ensures { OnOk result (out.new.items
        ≡ out.old.items ++ alternatives_after (alternatives_of alternatives.now)) }
{
    for alternative in alternatives {
        out.extend_from_slice(b" ")?;
        write_pattern(out, &alternative.0)?;
        write_term_after(out, &alternative.1)?;
    }
    Ok(())
}
