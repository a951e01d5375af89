//! Which variables local functions capture.
ghost use Rattle.std.specs.Prelude.{◌≡◌, ◌<◌, ◌≤◌, ◌++◌, ◌∷◌, ℕ, List, [], Some, true, false, IsTrue, IsFalse, IfOk, OnOk, length, map, replicate, slice_get};
ghost use Rattle.std.specs.declared.alloc.Global.{Global};
ghost use Rattle.std.specs.declared.vec.Vec.{Vec};
ghost use Rattle.cu_calculus.specs.Valid.{all_variables, variables_of};
ghost use Rattle.cu_kernel.specs.Captures.{AreCaptured};
ghost use Rattle.cu_kernel.specs.LocalKernelOf.{local_function_meaning, local_rule_meaning, top_function_meaning};
ghost use Rattle.cu_kernel.specs.LocalTermsOf.{local_alternatives_of, local_term_of, local_terms_of};
ghost use Rattle.cu_kernel.specs.LocalValid.{IsScoped};
ghost use Rattle.cu_kernel.specs.TermsOf.{pattern_of, patterns_of};
ghost use Rattle.cu_lift.specs.Groups.{IsIn};
ghost use Rattle.cu_lift.specs.Inside.Capturing.{Adds, AllOwned, AreLocals, AreMet, AreSeeded, AreUsers, IsLocal, Met, Owns, Pushes, Spreads, Stays, all_parts, alternative_parts, bound, head_parts, left, parts, rules_parts};

use crate::components::empty_rows;
use cu_kernel::{LocalFunction, LocalHead, LocalRule, LocalTerm, Pattern, TopFunction};
use std::alloc::{AllocError, Global};
use std::collections::BTreeSet;

/// What stands in the rules of a local function, as far as it matters to what
/// the function captures.
#[derive(Clone, Copy)]
enum Part {
    /// A variable that is used.
    Uses(u32),
    /// A local function that is used.
    Calls(u32),
    /// A variable that is bound.
    Binds(u32),
}

/// Pushes what a head uses.
fn push_head(found: &mut Vec<Part>, head: LocalHead) -> Result<(), AllocError>
    ensures { OnOk result (found.new.items ≡ found.old.items ++ head_parts head) }
{
    match head {
        LocalHead::Global(_) => Ok(()),
        LocalHead::Local(function) => {
            found.push(Part::Calls(function))?;
            Ok(())
        }
    }
}

/// Pushes the variables that a pattern binds.
#[cycle(bound)]
#[tactic(auto, using(cu_kernel::specs::TermsOf::patterns_of_variants))]
fn push_pattern(found: &mut Vec<Part>, pattern: &Pattern) -> Result<(), AllocError>
    ensures { OnOk result (found.new.items
        ≡ found.old.items ++ bound (variables_of (pattern_of pattern.now))) }
{
    match pattern {
        Pattern::Var(x) => {
            found.push(Part::Binds(*x))?;
            Ok(())
        }
        Pattern::Lit(_) => Ok(()),
        Pattern::Con(_, parts) => push_patterns(found, parts),
        Pattern::Alias(x, part) => {
            found.push(Part::Binds(*x))?;
            push_pattern(found, part)
        }
    }
}

/// Pushes the variables that these patterns bind.
#[cycle(bound)]
fn push_patterns(found: &mut Vec<Part>, patterns: &[Pattern]) -> Result<(), AllocError>
    ensures { OnOk result (found.new.items
        ≡ found.old.items ++ bound (all_variables (patterns_of patterns.now))) }
{
    for pattern in patterns {
        push_pattern(found, pattern)?;
    }
    Ok(())
}

/// Pushes what a term uses and binds.
#[cycle(parts)]
#[tactic(auto, using(cu_kernel::specs::LocalTermsOf::local_terms_of_variants))]
fn push_term(found: &mut Vec<Part>, term: &LocalTerm) -> Result<(), AllocError>
    ensures { OnOk result (found.new.items ≡ found.old.items ++ parts (local_term_of term.now)) }
{
    match term {
        LocalTerm::Var(x) => {
            found.push(Part::Uses(*x))?;
            Ok(())
        }
        LocalTerm::Lit(_) => Ok(()),
        LocalTerm::Whole(head, arguments) => push_call(found, *head, arguments),
        LocalTerm::Part(head, arguments) => push_call(found, *head, arguments),
        LocalTerm::Apply(function, argument) => push_two(found, function, argument),
        LocalTerm::Let(x, value, body) => {
            found.push(Part::Binds(*x))?;
            push_two(found, value, body)
        }
        LocalTerm::Free(x, body) => {
            found.push(Part::Binds(*x))?;
            push_term(found, body)
        }
        LocalTerm::Or(left, right) => push_two(found, left, right),
        LocalTerm::Case(_, scrutinee, alternatives) => {
            push_term(found, scrutinee)?;
            push_alternatives(found, alternatives)
        }
    }
}

/// Pushes what a head and its arguments use and bind.
#[cycle(parts)]
fn push_call(
    found: &mut Vec<Part>,
    head: LocalHead,
    arguments: &[LocalTerm],
) -> Result<(), AllocError>
    ensures { OnOk result (found.new.items
        ≡ found.old.items ++ (head_parts head ++ all_parts (local_terms_of arguments.now))) }
{
    push_head(found, head)?;
    push_terms(found, arguments)
}

/// Pushes what two terms use and bind.
#[cycle(parts)]
fn push_two(found: &mut Vec<Part>, first: &LocalTerm, second: &LocalTerm) -> Result<(), AllocError>
    ensures { OnOk result (found.new.items
        ≡ found.old.items ++ (parts (local_term_of first.now)
        ++ parts (local_term_of second.now))) }
{
    push_term(found, first)?;
    push_term(found, second)
}

/// Pushes what these terms use and bind.
#[cycle(parts)]
fn push_terms(found: &mut Vec<Part>, terms: &[LocalTerm]) -> Result<(), AllocError>
    ensures { OnOk result (found.new.items
        ≡ found.old.items ++ all_parts (local_terms_of terms.now)) }
{
    for term in terms {
        push_term(found, term)?;
    }
    Ok(())
}

/// Pushes what an alternative uses and binds.
#[cycle(parts)]
fn push_alternative(
    found: &mut Vec<Part>,
    pattern: &Pattern,
    body: &LocalTerm,
) -> Result<(), AllocError>
    ensures { OnOk result (found.new.items ≡ found.old.items
        ++ (bound (variables_of (pattern_of pattern.now)) ++ parts (local_term_of body.now))) }
{
    push_pattern(found, pattern)?;
    push_term(found, body)
}

/// Pushes what alternatives use and bind.
#[cycle(parts)]
fn push_alternatives(
    found: &mut Vec<Part>,
    alternatives: &[(Pattern, LocalTerm)],
) -> Result<(), AllocError>
    ensures { OnOk result (found.new.items
        ≡ found.old.items ++ alternative_parts (local_alternatives_of alternatives.now)) }
{
    for (pattern, body) in alternatives {
        push_alternative(found, pattern, body)?;
    }
    Ok(())
}

/// What these rules use and bind.
fn parts_of(alloc: Global, rules: &[LocalRule]) -> Result<Vec<Part>, AllocError>
    ensures { IfOk result (λ found. found.items ≡ rules_parts (map local_rule_meaning rules.now)) }
{
    let mut found = Vec::new(alloc);
    for rule in rules {
        push_patterns(&mut found, rule.params.as_slice())?;
        push_term(&mut found, &rule.body)?;
    }
    Ok(found)
}

/// What the rules of a local function use, call and bind.
#[derive(Drop)]
struct Local {
    uses: BTreeSet<u32>,
    binds: BTreeSet<u32>,
    calls: Vec<u32>,
}

impl Local {
    /// Notes what stands in a rule.
    fn note(&mut self, part: Part) -> Result<(), AllocError>
        ensures { OnOk result ((ps : List Part) → IsLocal ps self.old
            → IsLocal (ps ++ part ∷ []) self.new) }
    {
        match part {
            Part::Uses(x) => {
                self.uses.insert(x)?;
            }
            Part::Calls(function) => self.calls.push(function)?,
            Part::Binds(x) => {
                self.binds.insert(x)?;
            }
        }
        Ok(())
    }

    /// What stands in rules.
    fn of(alloc: Global, parts: &[Part]) -> Result<Local, AllocError>
        ensures { IfOk result (IsLocal parts.now) }
    {
        let mut local = Local {
            uses: BTreeSet::new(alloc),
            binds: BTreeSet::new(alloc),
            calls: Vec::new(alloc),
        };
        for part in parts {
            local.note(*part)?;
        }
        Ok(local)
    }

    /// Whether the rules of this local function bind a variable.
    fn binds(&self, x: u32) -> bool
        ensures holds { IsTrue result → IsIn self.now.binds.keys x }
        ensures fails { IsFalse result → IsIn self.now.binds.keys x → ⊥ }
    {
        self.binds.contains(&x)
    }

    /// Whether the rules of this local function use a variable and don't bind it.
    fn owns(&self, x: u32) -> bool
        ensures holds { IsTrue result → Owns self.now x }
        ensures fails { IsFalse result → Owns self.now x → ⊥ }
    {
        if self.binds(x) {
            return false;
        }
        self.uses.contains(&x)
    }
}

/// Whether a variable is bound in the local function at a place.
fn is_bound(locals: &[Local], place: usize, x: u32) -> bool
    requires { place < length locals.now }
    ensures holds { IsTrue result → (l : Local) → slice_get locals.now place ≡ Some l
        → IsIn l.binds.keys x }
    ensures fails { IsFalse result → (l : Local) → slice_get locals.now place ≡ Some l
        → IsIn l.binds.keys x → ⊥ }
{
    locals[place].binds(x)
}

/// Adds the variables that a local function uses and doesn't bind.
fn add_owned(variables: &mut BTreeSet<u32>, local: &Local, parts: &[Part]) -> Result<(), AllocError>
    requires { IsLocal parts.now local.now }
    ensures keeps { OnOk result ((x : ℕ) → IsIn variables.old.keys x → IsIn variables.new.keys x) }
    ensures owned { OnOk result ((x : ℕ) → Owns local.now x → IsIn variables.new.keys x) }
{
    for part in parts {
        let Part::Uses(x) = *part else {
            continue;
        };
        if !local.binds(x) {
            variables.insert(x)?;
        }
    }
    Ok(())
}

/// All local functions, and the variables that are captured.
#[derive(Drop)]
struct Survey {
    locals: Vec<Local>,
    variables: BTreeSet<u32>,
}

/// Goes through the rules of these local functions.
fn survey_of(alloc: Global, functions: &[LocalFunction]) -> Result<Survey, AllocError>
    ensures sized { IfOk result (λ found. length found.locals.items ≡ length functions.now) }
    ensures locals { IfOk result (λ found. AreLocals functions.now found.locals.items) }
    ensures owned { IfOk result (λ found. AllOwned found.locals.items found.variables.keys) }
{
    let mut locals = Vec::new(alloc);
    let mut variables = BTreeSet::new(alloc);
    for function in functions {
        let parts = parts_of(alloc, function.rules.as_slice())?;
        let local = Local::of(alloc, parts.as_slice())?;
        add_owned(&mut variables, &local, parts.as_slice())?;
        locals.push(local)?;
    }
    Ok(Survey { locals, variables })
}

/// Adds a local function to those that use these.
fn add_user(users: &mut Vec<Vec<usize>>, calls: &[u32], user: usize) -> Result<(), AllocError>
    ensures { OnOk result (Adds calls.now user users.old.items users.new.items) }
{
    for call in calls {
        let callee = *call as usize;
        if callee < users.len() {
            users[callee].push(user)?;
        }
    }
    Ok(())
}

/// For each local function those that use it.
fn users(alloc: Global, locals: &[Local]) -> Result<Vec<Vec<usize>>, AllocError>
    ensures { IfOk result (λ users. AreUsers locals.now (length locals.now) users.items) }
{
    let mut users = empty_rows(alloc, locals.len())?;
    for (user, local) in locals.iter().enumerate() {
        add_user(&mut users, local.calls.as_slice(), user)?;
    }
    Ok(users)
}

/// A search for the local functions that capture a variable.
#[derive(Drop)]
struct Spreading {
    met: Vec<bool>,
    pending: Vec<usize>,
}

impl Spreading {
    /// No local function is met.
    fn new(alloc: Global, count: usize) -> Result<Spreading, AllocError>
        ensures met { IfOk result (λ s. s.met.items ≡ replicate count false) }
        ensures pending { IfOk result (λ s. s.pending.items ≡ []) }
    {
        Ok(Spreading {
            met: vec![in alloc; false; count]?,
            pending: Vec::new(alloc),
        })
    }

    /// Marks a local function as met, and leaves it to be gone on from, unless it was met before.
    fn meet(&mut self, function: usize) -> Result<(), AllocError>
        requires { function < length self.old.met.items }
        ensures { OnOk result (Met function self.old self.new) }
    {
        if !self.met[function] {
            self.met[function] = true;
            self.pending.push(function)?;
        }
        Ok(())
    }

    /// Meets the local functions that use a variable themselves.
    fn seed(&mut self, locals: &[Local], x: u32) -> Result<(), AllocError>
        requires { Spreads locals.now x [] self.old }
        ensures spreads { OnOk result (Spreads locals.now x [] self.new) }
        ensures seeded { OnOk result (AreSeeded locals.now x (length locals.now) self.new) }
    {
        for (function, local) in locals.iter().enumerate() {
            if local.owns(x) {
                self.meet(function)?;
            }
        }
        Ok(())
    }

    /// Meets the users of a local function, but those that bind the variable.
    fn widen(
        &mut self,
        locals: &[Local],
        users: &[Vec<usize>],
        x: u32,
        callee: usize,
    ) -> Result<(), AllocError>
        requires users { AreUsers locals.now (length locals.now) users.now }
        requires spreads { Spreads locals.now x (callee ∷ []) self.old }
        requires met { slice_get self.old.met.items callee ≡ Some true }
        ensures spreads { OnOk result (Spreads locals.now x [] self.new) }
        ensures stays { OnOk result (Stays self.old self.new) }
        ensures left { OnOk result (left self.new ≤ left self.old) }
    {
        let row = users[callee].as_slice();
        for user in row {
            if !is_bound(locals, *user, x) {
                self.meet(*user)?;
            }
        }
        Ok(())
    }

    /// Meets the users of all that is met.
    fn run(&mut self, locals: &[Local], users: &[Vec<usize>], x: u32) -> Result<(), AllocError>
        requires users { AreUsers locals.now (length locals.now) users.now }
        requires spreads { Spreads locals.now x [] self.old }
        ensures spreads { OnOk result (Spreads locals.now x [] self.new) }
        ensures stays { OnOk result (Stays self.old self.new) }
        ensures done { OnOk result (self.new.pending.items ≡ []) }
    {
        while let Some(callee) = self.pending.pop() {
            self.widen(locals, users, x, callee)?;
        }
        Ok(())
    }
}

/// Which local functions capture a variable.
fn capturing(
    alloc: Global,
    locals: &[Local],
    users: &[Vec<usize>],
    x: u32,
) -> Result<Vec<bool>, AllocError>
    requires { AreUsers locals.now (length locals.now) users.now }
    ensures { IfOk result (λ met. AreMet locals.now x met.items) }
{
    let mut spreading = Spreading::new(alloc, locals.len())?;
    spreading.seed(locals, x)?;
    spreading.run(locals, users, x)?;
    let Spreading { met, pending: _ } = spreading;
    Ok(met)
}

/// Pushes a variable to the sets of those that capture it.
fn push_captured(sets: &mut Vec<Vec<u32>>, met: &[bool], x: u32) -> Result<(), AllocError>
    requires { length met.now ≡ length sets.old.items }
    ensures { OnOk result (Pushes met.now x (length met.now) sets.old.items sets.new.items) }
{
    for (function, captures) in met.iter().enumerate() {
        if *captures {
            sets[function].push(x)?;
        }
    }
    Ok(())
}

/// The variables that the local functions of a top-level function capture,
/// for each in the order of their numbers: a local function captures what its
/// rules use and don't bind, and what the local functions that its rules use
/// capture. Takes time in proportion to the number of local functions and
/// their uses of one another, for each captured variable, and to the size of
/// the rules, up to a logarithm.
pub fn captured(alloc: Global, function: &TopFunction) -> Result<Vec<Vec<u32>>, AllocError>
    requires { IsScoped (top_function_meaning function.now) }
    ensures sized { IfOk result (λ sets. length sets.items ≡ length function.now.locals.items) }
    ensures captured { IfOk result (λ sets. (k : ℕ) (set : Vec ℕ Global)
        → slice_get sets.items k ≡ Some set
        → AreCaptured (map local_function_meaning function.now.locals.items) k set.items) }
{
    let Survey {
        locals,
        mut variables,
    } = survey_of(alloc, function.locals.as_slice())?;
    let users = users(alloc, locals.as_slice())?;
    let mut sets = empty_rows(alloc, locals.len())?;
    while let Some(x) = variables.pop_first() {
        let met = capturing(alloc, locals.as_slice(), users.as_slice(), x)?;
        push_captured(&mut sets, met.as_slice(), x)?;
    }
    Ok(sets)
}
