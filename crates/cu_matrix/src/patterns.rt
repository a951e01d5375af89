//! The patterns of a row, and those of a specialized one.
ghost use Rattle.std.specs.Prelude.{◌≡◌, ◌<◌, ◌++◌, IfOk, OnOk, length, map, replicate};
ghost use Rattle.cu_calculus.specs.Choose.{arguments_of, spliced};
ghost use Rattle.cu_kernel.specs.TermsOf.{pattern_of};
ghost use Rattle.cu_matrix.specs.Meaning.{arguments_at, patterns_at};

use cu_kernel::Pattern;
use std::alloc::{AllocError, Global};

/// The patterns of a row that is specialized to a constructor or literal at a
/// position: what the pattern there has for the arguments takes its place. A
/// constructor takes as many arguments as `count` says, a literal none.
pub fn opened_patterns<'a>(
    alloc: Global,
    patterns: &[&'a Pattern],
    position: usize,
    count: usize,
) -> Result<Vec<&'a Pattern>, AllocError>
    requires { position < length patterns.now }
    ensures { IfOk result (λ opened. patterns_at opened.items
        ≡ spliced position (arguments_at count position (patterns_at patterns.now))
        (patterns_at patterns.now)) }
{
    let mut opened = Vec::new(alloc);
    opened.extend_from_slice(&patterns[..position])?;
    push_arguments(&mut opened, patterns[position], count)?;
    opened.extend_from_slice(&patterns[position + 1..])?;
    Ok(opened)
}

/// Adds what a pattern has for the arguments of a constructor that takes so
/// many: the patterns that it has under a constructor, or its variable once
/// for each argument.
#[tactic(auto, using(cu_kernel::specs::TermsOf::patterns_of_variants))]
fn push_arguments<'a>(
    patterns: &mut Vec<&'a Pattern>,
    pattern: &'a Pattern,
    count: usize,
) -> Result<(), AllocError>
    ensures { OnOk result (patterns_at patterns.new.items
        ≡ patterns_at patterns.old.items ++ arguments_of count (pattern_of pattern.now)) }
{
    match pattern {
        Pattern::Var(_) => push_repeated(patterns, pattern, count),
        Pattern::Lit(_) => Ok(()),
        Pattern::Con(_, arguments) => push_all(patterns, arguments),
        Pattern::Alias(_, pattern) => push_arguments(patterns, pattern, count),
    }
}

/// Adds one pattern as often as `count` says.
fn push_repeated<'a>(
    patterns: &mut Vec<&'a Pattern>,
    pattern: &'a Pattern,
    count: usize,
) -> Result<(), AllocError>
    ensures { OnOk result (patterns_at patterns.new.items
        ≡ patterns_at patterns.old.items ++ replicate count (pattern_of pattern.now)) }
{
    for _ in 0..count {
        patterns.push(pattern)?;
    }
    Ok(())
}

/// Adds these patterns, in order.
pub fn push_all<'a>(
    patterns: &mut Vec<&'a Pattern>,
    arguments: &'a [Pattern],
) -> Result<(), AllocError>
    ensures { OnOk result (patterns_at patterns.new.items
        ≡ patterns_at patterns.old.items ++ map pattern_of arguments.now) }
{
    for argument in arguments {
        patterns.push(argument)?;
    }
    Ok(())
}
