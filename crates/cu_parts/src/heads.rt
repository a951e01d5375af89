//! Which heads, literals and patterns may stand in terms before lifting.
ghost use Rattle.std.specs.Prelude.{◌≡◌, ◌&&◌, map};
ghost use Rattle.std.specs.List.{list_all};
ghost use Rattle.cu_calculus.specs.Literal.{is_literal};
ghost use Rattle.cu_kernel.specs.Heads.{heads_program};
ghost use Rattle.cu_kernel.specs.LocalKernelOf.{local_function_meaning, local_rule_meaning};
ghost use Rattle.cu_kernel.specs.LocalTermsOf.{local_alternatives_of, local_term_of, local_terms_of};
ghost use Rattle.cu_kernel.specs.LocalValid.{alternatives_pass, builds, local_arity, pattern_passes, patterns_pass, rule_passes, takes_globally, takes_locally, takes_more_globally, takes_more_locally, term_passes, terms_pass};
ghost use Rattle.cu_kernel.specs.TermsOf.{pattern_of, patterns_of};
ghost use Rattle.cu_parts.specs.Inside.KnownHeads.{known_heads};

use cu_kernel::{ConId, Head, Heads, Lit, LocalFunction, LocalHead, LocalRule, LocalTerm, Pattern};

/// The heads of which it is known how many arguments they take.
#[derive(Clone, Copy)]
pub(crate) enum Known<'a> {
    /// The local functions of one top-level function. Nothing is known of other
    /// heads, so that any may stand.
    Locals(&'a [LocalFunction]),
    /// The functions and constructors of a program. Any local function may
    /// stand.
    Program(&'a Heads<'a>),
}

/// How many parameters the local function at a place has, if there is one.
fn local_arity(locals: &[LocalFunction], place: u32) -> Option<usize>
    ensures { result ≡ local_arity (map local_function_meaning locals.now) place }
{
    match locals.get(place as usize) {
        Some(function) => Some(function.arity as usize),
        None => None,
    }
}

/// Whether a head takes exactly so many arguments, if it is a local function.
fn takes_locally(locals: &[LocalFunction], head: LocalHead, count: usize) -> bool
    ensures { result ≡ takes_locally (map local_function_meaning locals.now) head count }
{
    match head {
        LocalHead::Global(_) => true,
        LocalHead::Local(place) => match local_arity(locals, place) {
            Some(arity) => arity == count,
            None => false,
        },
    }
}

/// Whether a head takes more arguments than so many, if it is a local
/// function.
fn takes_more_locally(locals: &[LocalFunction], head: LocalHead, count: usize) -> bool
    ensures { result ≡ takes_more_locally (map local_function_meaning locals.now) head count }
{
    match head {
        LocalHead::Global(_) => true,
        LocalHead::Local(place) => match local_arity(locals, place) {
            Some(arity) => count < arity,
            None => false,
        },
    }
}

/// Whether a head takes exactly so many arguments, unless it is a local
/// function.
fn takes_globally(heads: &Heads, head: LocalHead, count: usize) -> bool
    ensures { result ≡ takes_globally (heads_program heads.now) head count }
{
    match head {
        LocalHead::Local(_) => true,
        LocalHead::Global(head) => heads.allows(head) && heads.takes(head, count),
    }
}

/// Whether a head takes more arguments than so many, unless it is a local
/// function.
fn takes_more_globally(heads: &Heads, head: LocalHead, count: usize) -> bool
    ensures { result ≡ takes_more_globally (heads_program heads.now) head count }
{
    match head {
        LocalHead::Local(_) => true,
        LocalHead::Global(head) => heads.allows(head) && heads.takes_more(head, count),
    }
}

/// Whether a constructor takes exactly so many arguments.
pub(crate) fn builds(heads: &Heads, constructor: ConId, count: usize) -> bool
    ensures { result ≡ builds (heads_program heads.now) constructor count }
{
    heads.takes(Head::Con(constructor), count)
}

impl Known<'_> {
    /// Whether a head may stand with all of so many arguments.
    fn takes(self, head: LocalHead, count: usize) -> bool
        ensures { result ≡ (known_heads self.entry).whole head count }
    {
        match self {
            Known::Locals(locals) => takes_locally(locals, head, count),
            Known::Program(heads) => takes_globally(heads, head, count),
        }
    }

    /// Whether a head may stand with fewer arguments than it takes.
    fn takes_more(self, head: LocalHead, count: usize) -> bool
        ensures { result ≡ (known_heads self.entry).part head count }
    {
        match self {
            Known::Locals(locals) => takes_more_locally(locals, head, count),
            Known::Program(heads) => takes_more_globally(heads, head, count),
        }
    }

    /// Whether a constructor may stand in a pattern with so many arguments.
    fn builds(self, constructor: ConId, count: usize) -> bool
        ensures { result ≡ (known_heads self.entry).built constructor count }
    {
        match self {
            Known::Locals(_) => true,
            Known::Program(heads) => builds(heads, constructor, count),
        }
    }
}

/// Whether a literal is one of the language, which its type makes sure of.
fn literal_passes(literal: Lit) -> bool
    ensures { result ≡ is_literal literal }
{
    match literal {
        Lit::Int(_) => true,
        Lit::Char(_) => true,
    }
}

/// Whether the literals and constructors of a pattern may stand there.
#[cycle(patterns)]
#[tactic(auto, using(cu_kernel::specs::TermsOf::patterns_of_variants, cu_kernel::proofs::ListCounts::counts))]
fn pattern_passes(known: Known, pattern: &Pattern) -> bool
    ensures { result ≡ pattern_passes (known_heads known.entry) (pattern_of pattern.now) }
{
    match pattern {
        Pattern::Var(_) => true,
        Pattern::Lit(literal) => literal_passes(*literal),
        Pattern::Con(constructor, parts) => {
            known.builds(*constructor, parts.len()) && patterns_pass(known, parts)
        }
        Pattern::Alias(_, part) => pattern_passes(known, part),
    }
}

/// Whether the literals and constructors of all of these patterns may stand
/// there.
#[cycle(patterns)]
fn patterns_pass(known: Known, patterns: &[Pattern]) -> bool
    ensures { result ≡ patterns_pass (known_heads known.entry) (patterns_of patterns.now) }
{
    for pattern in patterns {
        if !pattern_passes(known, pattern) {
            return false;
        }
    }
    true
}

/// Whether the heads, literals and patterns of a term may stand there.
#[cycle(terms)]
#[tactic(auto, using(cu_kernel::specs::LocalTermsOf::local_terms_of_variants, crate::proofs::Counts::counts))]
fn term_passes(known: Known, term: &LocalTerm) -> bool
    ensures { result ≡ term_passes (known_heads known.entry) (local_term_of term.now) }
{
    match term {
        LocalTerm::Var(_) => true,
        LocalTerm::Lit(literal) => literal_passes(*literal),
        LocalTerm::Whole(head, arguments) => {
            known.takes(*head, arguments.len()) && terms_pass(known, arguments)
        }
        LocalTerm::Part(head, arguments) => {
            known.takes_more(*head, arguments.len()) && terms_pass(known, arguments)
        }
        LocalTerm::Apply(function, argument) => {
            term_passes(known, function) && term_passes(known, argument)
        }
        LocalTerm::Let(_, value, body) => term_passes(known, value) && term_passes(known, body),
        LocalTerm::Free(_, body) => term_passes(known, body),
        LocalTerm::Or(left, right) => term_passes(known, left) && term_passes(known, right),
        LocalTerm::Case(_, scrutinee, alternatives) => {
            term_passes(known, scrutinee) && alternatives_pass(known, alternatives)
        }
    }
}

/// Whether the heads, literals and patterns of all of these terms may stand
/// there.
#[cycle(terms)]
fn terms_pass(known: Known, terms: &[LocalTerm]) -> bool
    ensures { result ≡ terms_pass (known_heads known.entry) (local_terms_of terms.now) }
{
    for term in terms {
        if !term_passes(known, term) {
            return false;
        }
    }
    true
}

/// Whether the heads, literals and patterns of all of these alternatives may
/// stand there.
#[cycle(terms)]
fn alternatives_pass(known: Known, alternatives: &[(Pattern, LocalTerm)]) -> bool
    ensures { result ≡ alternatives_pass (known_heads known.entry)
        (local_alternatives_of alternatives.now) }
{
    for (pattern, body) in alternatives {
        if !pattern_passes(known, pattern) || !term_passes(known, body) {
            return false;
        }
    }
    true
}

/// Whether the heads, literals and patterns of a rule may stand there.
fn rule_passes(known: Known, rule: &LocalRule) -> bool
    ensures { result ≡ rule_passes (known_heads known.entry) (local_rule_meaning rule.now) }
{
    patterns_pass(known, rule.params.as_slice()) && term_passes(known, &rule.body)
}

/// Whether the heads, literals and patterns of all of these rules may stand
/// there.
pub(crate) fn rules_pass(known: Known, rules: &[LocalRule]) -> bool
    ensures { result ≡ list_all (rule_passes (known_heads known.entry))
        (map local_rule_meaning rules.now) }
{
    for rule in rules {
        if !rule_passes(known, rule) {
            return false;
        }
    }
    true
}
