//! Reading equations off the patterns and terms of rules.
ghost use Rattle.std.specs.Prelude.{◌≡◌, ◌<◌, ◌+◌, ◌^◌, IfOk, OnOk, length};
ghost use Rattle.cu_kernel.specs.TermsOf.{alternatives_of, pattern_of, patterns_of, term_of, terms_of};
ghost use Rattle.cu_calculus.specs.Term as clean;
ghost use Rattle.cu_kernel.specs.TypeExpr.{TypeExpr};
ghost use Rattle.cu_types.specs.Equations.{alternatives_ask, asking_same, bind, call_asks, head_asks, pattern_asks, patterns_ask, set_asks, term_asks, terms_ask};
ghost use Rattle.cu_types.specs.Inside.Asking.{StandsAt};
ghost use Rattle.cu_types.specs.Inside.Reading.{IsReader};
ghost use Rattle.cu_types.specs.Inside.Walking.{Walks, alternative_asks, application_asks, heads, scope};

use crate::asking::{Asking, VariableRange};
use crate::known::Signing;
use crate::variables::Variables;
use cu_kernel::{FunId, Head, Pattern, Term, push_variables};
use std::alloc::{AllocError, Global};

/// A walk that reads off equations, with the variables that are bound where it
/// stands.
#[derive(Drop)]
pub(crate) struct Walk<'p> {
    /// The allocator.
    pub(crate) alloc: Global,
    /// What is known of the heads of terms.
    pub(crate) signing: Signing<'p>,
    /// The type variables of the variables that are bound.
    pub(crate) variables: Variables,
    /// The equations that were read off.
    pub(crate) asking: Asking,
}

impl Walk<'_> {
    /// Asks that the type of a variable is this type variable.
    fn variable(&mut self, x: u32, t: u32) -> Result<(), AllocError>
        requires { IsReader self.old.asking.reader }
        ensures { OnOk result (Walks self.old self.new (asking_same (scope self.old x) t)) }
    {
        let own = self.variables.number(x);
        self.asking.same(own, t)?;
        Ok(())
    }

    /// Asks that the type of a set function is the type at a place.
    fn set(&mut self, f: FunId, whole: usize) -> Result<(), AllocError>
        requires { IsReader self.old.asking.reader }
        ensures { OnOk result ((t : TypeExpr) → StandsAt self.old.asking whole t
            → Walks self.old self.new (set_asks (heads self.old) f t)) }
    {
        let arity = self.signing.arity(f);
        let Some(count) = arity.checked_add(1) else {
            return Err(AllocError);
        };
        let first = self.asking.take(count)?;
        let Some(last) = first.checked_add(arity) else {
            return Err(AllocError);
        };
        let right = self.asking.variable(last)?;
        let given = self.asking.values(self.alloc, self.signing.values, right)?;
        let parameters = VariableRange {
            first,
            count: arity,
        };
        let left = self.asking.arrows_to(self.alloc, parameters, given)?;
        self.asking.ask(left, whole)?;
        let own = self.asking.arrows_to(self.alloc, parameters, right)?;
        let scheme = self.signing.function(f);
        self.asking.scheme(self.alloc, scheme, own)?;
        Ok(())
    }

    /// Asks that the type of a head is the type at a place.
    fn head(&mut self, head: Head, whole: usize) -> Result<(), AllocError>
        requires { IsReader self.old.asking.reader }
        ensures { OnOk result ((t : TypeExpr) → StandsAt self.old.asking whole t
            → Walks self.old self.new (head_asks (heads self.old) head t)) }
    {
        match head {
            Head::Fun(f) => {
                let scheme = self.signing.function(f);
                self.asking.scheme(self.alloc, scheme, whole)?;
                Ok(())
            }
            Head::Con(c) => {
                let scheme = self.signing.constructor(c);
                self.asking.scheme(self.alloc, scheme, whole)?;
                Ok(())
            }
            Head::Set(f) => self.set(f, whole),
        }
    }

    /// Asks that a head on arguments of so many type variables, from `first`
    /// on, gives the type variable t.
    fn call(&mut self, head: Head, first: u32, count: u32, t: u32) -> Result<(), AllocError>
        requires { IsReader self.old.asking.reader }
        ensures { OnOk result (Walks self.old self.new
            (call_asks (heads self.old) head first count t)) }
    {
        let right = self.asking.variable(t)?;
        let arguments = VariableRange { first, count };
        let whole = self.asking.arrows_to(self.alloc, arguments, right)?;
        self.head(head, whole)?;
        Ok(())
    }

    /// Reads off the equations of a pattern, whose type is this type variable.
    #[cycle(patterns)]
    #[tactic(auto, using(cu_kernel::specs::TermsOf::patterns_of_variants))]
    fn pattern(&mut self, t: u32, pattern: &Pattern) -> Result<(), AllocError>
        requires { IsReader self.old.asking.reader }
        ensures { OnOk result (Walks self.old self.new
            (pattern_asks (heads self.old) (scope self.old) t (pattern_of pattern.now))) }
    {
        match pattern {
            Pattern::Var(x) => self.variable(*x, t),
            Pattern::Lit(literal) => {
                self.asking.literal(self.alloc, *literal, t)?;
                Ok(())
            }
            Pattern::Con(constructor, arguments) => {
                let Ok(count) = u32::try_from(arguments.len()) else {
                    return Err(AllocError);
                };
                let first = self.asking.take(count)?;
                self.call(Head::Con(*constructor), first, count, t)?;
                self.patterns(first, arguments)
            }
            Pattern::Alias(x, inner) => {
                self.variable(*x, t)?;
                self.pattern(t, inner)
            }
        }
    }

    /// Reads off the equations of patterns, whose types are type variables one
    /// after another.
    #[cycle(patterns)]
    pub(crate) fn patterns(&mut self, first: u32, patterns: &[Pattern]) -> Result<(), AllocError>
        requires { IsReader self.old.asking.reader }
        ensures { OnOk result (Walks self.old self.new
            (patterns_ask (heads self.old) (scope self.old) first (patterns_of patterns.now))) }
    {
        let mut t = first;
        for pattern in patterns {
            self.pattern(t, pattern)?;
            let Some(next) = t.checked_add(1) else {
                return Err(AllocError);
            };
            t = next;
        }
        Ok(())
    }

    /// Reads off the equations of a term, whose type is this type variable.
    #[cycle(terms)]
    #[tactic(auto, using(cu_kernel::specs::TermsOf::terms_of_variants))]
    pub(crate) fn term(&mut self, t: u32, term: &Term) -> Result<(), AllocError>
        requires { IsReader self.old.asking.reader }
        ensures { OnOk result (Walks self.old self.new
            (term_asks (heads self.old) (scope self.old) t (term_of term.now))) }
    {
        match term {
            Term::Var(x) => self.variable(*x, t),
            Term::Lit(literal) => {
                self.asking.literal(self.alloc, *literal, t)?;
                Ok(())
            }
            Term::Whole(head, arguments) => self.applied(t, *head, arguments),
            Term::Part(head, arguments) => self.applied(t, *head, arguments),
            Term::Apply(function, argument) => self.apply(t, function, argument),
            Term::Let(x, value, body) => {
                let own = self.asking.take(1)?;
                self.term(own, value)?;
                self.scoped(t, *x, own, body)
            }
            Term::Free(x, body) => {
                let own = self.asking.take(1)?;
                self.scoped(t, *x, own, body)
            }
            Term::Or(left, right) => {
                self.term(t, left)?;
                self.term(t, right)
            }
            Term::Case(_, scrutinee, alternatives) => {
                let own = self.asking.take(1)?;
                self.term(own, scrutinee)?;
                self.alternatives(own, t, alternatives)
            }
        }
    }

    /// Reads off the equations of a head on arguments, whose type is this type
    /// variable.
    #[cycle(terms)]
    fn applied(&mut self, t: u32, head: Head, arguments: &[Term]) -> Result<(), AllocError>
        requires { IsReader self.old.asking.reader }
        ensures { OnOk result (Walks self.old self.new (application_asks (heads self.old)
            (scope self.old) t head (terms_of arguments.now))) }
    {
        let Ok(count) = u32::try_from(arguments.len()) else {
            return Err(AllocError);
        };
        let first = self.asking.take(count)?;
        self.call(head, first, count, t)?;
        self.terms(first, arguments)
    }

    /// Reads off the equations of a term applied to another one, where the
    /// result's type is this type variable.
    #[cycle(terms)]
    fn apply(&mut self, t: u32, function: &Term, argument: &Term) -> Result<(), AllocError>
        requires { IsReader self.old.asking.reader }
        ensures { OnOk result (Walks self.old self.new (term_asks (heads self.old)
            (scope self.old) t (clean.Apply (term_of function.now) (term_of argument.now)))) }
    {
        let first = self.asking.take(2)?;
        let Some(second) = first.checked_add(1) else {
            return Err(AllocError);
        };
        self.asking.function(self.alloc, first, t, second)?;
        self.term(second, function)?;
        self.term(first, argument)
    }

    /// Reads off the equations of a term in which one more variable is bound.
    #[cycle(terms)]
    fn scoped(&mut self, t: u32, x: u32, own: u32, body: &Term) -> Result<(), AllocError>
        requires { IsReader self.old.asking.reader }
        ensures { OnOk result (Walks self.old self.new (term_asks (heads self.old)
            (bind (scope self.old) x own) t (term_of body.now))) }
    {
        let before = self.variables.bind(x, own)?;
        self.term(t, body)?;
        self.variables.bind(x, before)?;
        Ok(())
    }

    /// Reads off the equations of terms, whose types are type variables one
    /// after another.
    #[cycle(terms)]
    fn terms(&mut self, first: u32, terms: &[Term]) -> Result<(), AllocError>
        requires { IsReader self.old.asking.reader }
        ensures { OnOk result (Walks self.old self.new
            (terms_ask (heads self.old) (scope self.old) first (terms_of terms.now))) }
    {
        let mut t = first;
        for term in terms {
            self.term(t, term)?;
            let Some(next) = t.checked_add(1) else {
                return Err(AllocError);
            };
            t = next;
        }
        Ok(())
    }

    /// Reads off the equations of an alternative: its pattern has one type
    /// variable, and its term another one.
    #[cycle(terms)]
    fn alternative(
        &mut self,
        s: u32,
        t: u32,
        pattern: &Pattern,
        body: &Term,
    ) -> Result<(), AllocError>
        requires { IsReader self.old.asking.reader }
        ensures { OnOk result (Walks self.old self.new (alternative_asks (heads self.old)
            (scope self.old) s t (pattern_of pattern.now) (term_of body.now))) }
    {
        let mut variables = Vec::new(self.alloc);
        push_variables(&mut variables, pattern)?;
        let Ok(count) = u32::try_from(variables.len()) else {
            return Err(AllocError);
        };
        let first = self.asking.take(count)?;
        let bindings = self
            .variables
            .bind_all(self.alloc, variables.as_slice(), first)?;
        self.pattern(s, pattern)?;
        self.term(t, body)?;
        self.variables.undo(bindings)?;
        Ok(())
    }

    /// Reads off the equations of alternatives: their patterns have one type
    /// variable, and their terms another one.
    #[cycle(terms)]
    fn alternatives(
        &mut self,
        s: u32,
        t: u32,
        alternatives: &[(Pattern, Term)],
    ) -> Result<(), AllocError>
        requires { IsReader self.old.asking.reader }
        ensures { OnOk result (Walks self.old self.new (alternatives_ask (heads self.old)
            (scope self.old) s t (alternatives_of alternatives.now))) }
    {
        for (pattern, body) in alternatives {
            self.alternative(s, t, pattern, body)?;
        }
        Ok(())
    }
}
