//! Terms of flat programs, laid out as expressions: each after its parts.
ghost use Rattle.std.specs.Prelude.{◌≡◌, ℕ, Bool, ◌||◌, [], ◌++◌, IfOk, OnOk, IsTrue, filter, map};
ghost use Rattle.cu_calculus.specs.Code as code;
ghost use Rattle.cu_calculus.specs.Flat.{are_flat_alternatives, are_flat_terms, is_flat_term, is_shallow};
ghost use Rattle.cu_calculus.specs.WellFormed.{bound_by};
ghost use Rattle.cu_kernel.specs.TermsOf as terms;
ghost use Rattle.cu_kernel.specs.TermsOf.{alternatives_of, term_of, terms_of};
ghost use Rattle.cu_flat.specs.Inside.Laid.{AreLaid, BranchesAreLaid, IsLaid, IsLaidUnder, IsPushed};
ghost use Rattle.cu_flat.specs.Layout.{shallow_of};
ghost use Rattle.cu_flat.specs.Inside.Written.{written};
ghost use Rattle.cu_flat.specs.Meaning.{branch_meaning, expr_meaning, pattern_meaning};

use crate::scope::{beside, binding, in_scope, merged, variables};
use crate::{Entry, Expr, ExprId, Mode, Pattern};
use cu_kernel::Term;
use std::alloc::{AllocError, Global};

/// The expressions that were laid out so far.
#[derive(Drop)]
pub(crate) struct Arena {
    pub(crate) alloc: Global,
    pub(crate) entries: Vec<Entry>,
}

/// What is known of a term that was laid out.
#[derive(Drop)]
pub(crate) struct Laid {
    /// The index of the term's expression.
    pub(crate) place: ExprId,
    /// The variables of its scope that the term uses, in the scope's order.
    pub(crate) used: Vec<u32>,
}

/// What is known of several terms that were laid out, one after the other.
#[derive(Drop)]
pub(crate) struct LaidTerms {
    pub(crate) places: Vec<ExprId>,
    pub(crate) used: Vec<u32>,
}

/// The branches of a case distinction that were laid out, and the variables
/// that they use beside their patterns' own.
#[derive(Drop)]
pub(crate) struct LaidBranches {
    pub(crate) branches: Vec<(Pattern, ExprId)>,
    pub(crate) used: Vec<u32>,
}

/// The pattern of a branch, as flat code has it.
#[tactic(auto, using(cu_kernel::specs::TermsOf::patterns_of_variants))]
fn shallow(alloc: Global, pattern: &cu_kernel::Pattern) -> Result<Pattern, AllocError>
    requires { IsTrue (is_shallow (terms.pattern_of pattern.now)) }
    ensures { IfOk result (λ made.
        pattern_meaning made ≡ shallow_of (terms.pattern_of pattern.now)) }
{
    match pattern {
        cu_kernel::Pattern::Lit(literal) => Ok(Pattern::Lit(*literal)),
        cu_kernel::Pattern::Con(constructor, parts) => {
            Ok(Pattern::Con(*constructor, variables(alloc, parts)?))
        }
        cu_kernel::Pattern::Var(_) => unreachable!(),
        cu_kernel::Pattern::Alias(_, _) => unreachable!(),
    }
}

/// The variables that a branch's pattern binds.
fn bound_by(pattern: &Pattern) -> &[u32]
    ensures { result.now ≡ bound_by (pattern_meaning pattern.now) }
{
    match pattern {
        Pattern::Lit(_) => &[],
        Pattern::Con(_, variables) => variables.as_slice(),
    }
}

impl Arena {
    /// Writes an expression after the others, with the variables that it
    /// keeps.
    fn write(&mut self, expr: Expr, kept: Vec<u32>) -> Result<ExprId, AllocError>
        ensures { IfOk result (λ e. IsPushed (expr_meaning kept.items expr)
            (written self.old) (written self.new) e) }
    {
        let place = ExprId(self.entries.len());
        self.entries.push(Entry { expr, kept })?;
        Ok(place)
    }

    /// Writes an expression that keeps no variables, for a term that uses
    /// these.
    fn push(&mut self, expr: Expr, used: Vec<u32>) -> Result<Laid, AllocError>
        ensures used { IfOk result (λ laid. laid.used.items ≡ used.items) }
        ensures pushed { IfOk result (λ laid. IsPushed (expr_meaning [] expr)
            (written self.old) (written self.new) laid.place) }
    {
        let place = self.write(expr, Vec::new(self.alloc))?;
        Ok(Laid { place, used })
    }

    /// Writes an expression over two parts, which use these variables of the
    /// scope.
    fn push_over(
        &mut self,
        scope: &[u32],
        expr: Expr,
        left: Vec<u32>,
        right: Vec<u32>,
    ) -> Result<Laid, AllocError>
        ensures used { (p q : ℕ → Bool)
            → left.items ≡ filter p scope.now → right.items ≡ filter q scope.now
            → IfOk result (λ laid. laid.used.items ≡ filter (λ x. p x || q x) scope.now) }
        ensures pushed { IfOk result (λ laid. IsPushed (expr_meaning [] expr)
            (written self.old) (written self.new) laid.place) }
    {
        let used = merged(self.alloc, scope, left.as_slice(), right.as_slice())?;
        self.push(expr, used)
    }

    /// Writes a case distinction, which keeps what its branches use.
    fn push_case(
        &mut self,
        scope: &[u32],
        mode: Mode,
        scrutinee: Laid,
        branches: LaidBranches,
    ) -> Result<Laid, AllocError>
        ensures used { (p q : ℕ → Bool)
            → scrutinee.used.items ≡ filter p scope.now → branches.used.items ≡ filter q scope.now
            → IfOk result (λ laid. laid.used.items ≡ filter (λ x. p x || q x) scope.now) }
        ensures pushed { IfOk result (λ laid. IsPushed
            (code.Case mode branches.used.items scrutinee.place
            (map branch_meaning branches.branches.items))
            (written self.old) (written self.new) laid.place) }
    {
        let LaidBranches {
            branches,
            used: kept,
        } = branches;
        let used = merged(
            self.alloc,
            scope,
            scrutinee.used.as_slice(),
            kept.as_slice(),
        )?;
        let place = self.write(Expr::Case(mode, scrutinee.place, branches), kept)?;
        Ok(Laid { place, used })
    }

    /// Lays out a term in a scope.
    #[cycle(terms)]
    #[tactic(auto, using(cu_kernel::specs::TermsOf::terms_of_variants))]
    pub(crate) fn push_term(&mut self, scope: &[u32], term: &Term) -> Result<Laid, AllocError>
        requires { IsTrue (is_flat_term (term_of term.now)) }
        ensures { IfOk result (λ laid. IsLaid scope.now (term_of term.now)
            (written self.old) (written self.new) laid.place laid.used.items) }
    {
        match term {
            Term::Var(x) => {
                let used = in_scope(self.alloc, scope, *x)?;
                self.push(Expr::Var(*x), used)
            }
            Term::Lit(literal) => self.push(Expr::Lit(*literal), Vec::new(self.alloc)),
            Term::Whole(head, arguments) => {
                let arguments = self.push_terms(scope, arguments)?;
                self.push(Expr::Whole(*head, arguments.places), arguments.used)
            }
            Term::Part(head, arguments) => {
                let arguments = self.push_terms(scope, arguments)?;
                self.push(Expr::Part(*head, arguments.places), arguments.used)
            }
            Term::Apply(function, argument) => {
                let function = self.push_term(scope, function)?;
                let argument = self.push_term(scope, argument)?;
                let expr = Expr::Apply(function.place, argument.place);
                self.push_over(scope, expr, function.used, argument.used)
            }
            Term::Let(x, bound, body) => {
                let bound = self.push_term(scope, bound)?;
                let body = self.push_under(scope, &[*x], body)?;
                let expr = Expr::Let(*x, bound.place, body.place);
                self.push_over(scope, expr, bound.used, body.used)
            }
            Term::Free(x, body) => {
                let body = self.push_under(scope, &[*x], body)?;
                self.push(Expr::Free(*x, body.place), body.used)
            }
            Term::Or(left, right) => {
                let left = self.push_term(scope, left)?;
                let right = self.push_term(scope, right)?;
                let expr = Expr::Or(left.place, right.place);
                self.push_over(scope, expr, left.used, right.used)
            }
            Term::Case(mode, scrutinee, rows) => {
                let scrutinee = self.push_term(scope, scrutinee)?;
                let branches = self.push_branches(scope, rows)?;
                self.push_case(scope, *mode, scrutinee, branches)
            }
        }
    }

    /// Lays out a term where variables are bound, and says which variables of
    /// the scope around it uses beside these.
    #[cycle(terms)]
    fn push_under(&mut self, scope: &[u32], bound: &[u32], term: &Term) -> Result<Laid, AllocError>
        requires { IsTrue (is_flat_term (term_of term.now)) }
        ensures { IfOk result (λ laid. IsLaidUnder scope.now bound.now (term_of term.now)
            (written self.old) (written self.new) laid.place laid.used.items) }
    {
        let inner = binding(self.alloc, bound, scope)?;
        let laid = self.push_term(inner.as_slice(), term)?;
        let used = beside(self.alloc, laid.used.as_slice(), bound)?;
        Ok(Laid {
            place: laid.place,
            used,
        })
    }

    /// Lays out terms in a scope, one after the other.
    #[cycle(terms)]
    fn push_terms(&mut self, scope: &[u32], terms: &[Term]) -> Result<LaidTerms, AllocError>
        requires { IsTrue (are_flat_terms (terms_of terms.now)) }
        ensures { IfOk result (λ laid. AreLaid scope.now (terms_of terms.now)
            (written self.old) (written self.new) laid.places.items laid.used.items) }
    {
        let mut places = Vec::new(self.alloc);
        let mut used = Vec::new(self.alloc);
        for term in terms {
            let laid = self.push_term(scope, term)?;
            places.push(laid.place)?;
            used = merged(self.alloc, scope, used.as_slice(), laid.used.as_slice())?;
        }
        Ok(LaidTerms { places, used })
    }

    /// Lays out the branches of a case distinction.
    #[cycle(terms)]
    fn push_branches(
        &mut self,
        scope: &[u32],
        rows: &[(cu_kernel::Pattern, Term)],
    ) -> Result<LaidBranches, AllocError>
        requires { IsTrue (are_flat_alternatives (alternatives_of rows.now)) }
        ensures { IfOk result (λ laid. BranchesAreLaid scope.now (alternatives_of rows.now)
            (written self.old) (written self.new)
            (map branch_meaning laid.branches.items) laid.used.items) }
    {
        let mut branches = Vec::new(self.alloc);
        let mut used = Vec::new(self.alloc);
        for (pattern, body) in rows {
            let pattern = shallow(self.alloc, pattern)?;
            let laid = self.push_under(scope, bound_by(&pattern), body)?;
            branches.push((pattern, laid.place))?;
            used = merged(self.alloc, scope, used.as_slice(), laid.used.as_slice())?;
        }
        Ok(LaidBranches { branches, used })
    }
}
