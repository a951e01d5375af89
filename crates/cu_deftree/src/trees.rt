//! Definitional trees: what terms and clause matrices are lowered to.
ghost use Rattle.std.specs.Prelude.{◌≡◌, ◌<◌, ◌+◌, IfOk, MatchOption, false, length, map};
ghost use Rattle.cu_calculus.specs.Choose.{spliced};
ghost use Rattle.cu_calculus.specs.Choose as calculus;
ghost use Rattle.cu_calculus.specs.Term as clean;
ghost use Rattle.cu_deftree.specs.declared.tasks.Manner.TheVariants as manner;
ghost use Rattle.cu_deftree.specs.Inside.Groups.{AreAt};
ghost use Rattle.cu_deftree.specs.Inside.RowsOf.{all_rows, demands_choice};
ghost use Rattle.cu_deftree.specs.Inside.Tasks.{BothLower, BranchLowers, CaseLowers, Each, FirstDemands, IsFree, IsMixed, IsOpened, IsSplit, MatrixLowers, RowsLower, TaskLowers, TermLowers, Within, both_of, both_size, branch_of, branch_pattern, branch_size, branches_of, opened_count, terms_in, total};
ghost use Rattle.cu_deftree.specs.LoweredProgram.{size};
ghost use Rattle.cu_deftree.specs.Lowering.{failure, goes_on, is_variable, literal_case, test_of};
ghost use Rattle.cu_deftree.specs.Rows.{constructor_arity, numbers, specialize};
ghost use Rattle.cu_kernel.specs.TermsOf.{alternatives_of, pattern_of, term_of};

use crate::choices::{demanded_choices, siblings};
use crate::groups::Groups;
use crate::names::Names;
use crate::patterns::{Choice, Keep, numbers, variables};
use crate::rows::{
    Candidates, Row, alternative_rows, branch_rows, demanded_by_all, kept, some_is_free, spliced,
};
use crate::tasks::{
    Branching, CaseTerm, Column, LetTerm, Manner, Matrix, Scope, Stop, Task, spend,
};
use cu_kernel::{ConId, FunId, Head, Heads, Lit, Mode, Pattern, Term};
use cu_matrix::{Demand, leftmost};
use std::alloc::{AllocError, Global};

/// What is needed to lower the terms of a program.
#[derive(Drop)]
pub(crate) struct Lowerer<'a> {
    pub(crate) alloc: Global,
    /// The functions and constructors of the program.
    pub(crate) heads: &'a Heads<'a>,
    /// The operation without a value.
    pub(crate) failed: FunId,
    /// The operation `==`.
    pub(crate) equal: FunId,
}

/// The clause matrix of a branch, with the positions of a constructor's
/// arguments in place of the position that is looked at.
#[derive(Drop)]
struct Opened<'a> {
    arguments: Vec<u32>,
    positions: Vec<u32>,
    next: u32,
    rows: Vec<Row<'a>>,
}

/// The numbers from `next` on, as many as `count` says, and the number after
/// them.
pub(crate) fn fresh_numbers(
    alloc: Global,
    next: u32,
    count: usize,
) -> Result<(Vec<u32>, u32), AllocError>
    ensures { IfOk result (λ both. (both.0.items ≡ numbers next count) × (both.1 ≡ next + count)) }
{
    if count >= (u32::MAX - next) as usize {
        return Err(AllocError);
    }
    let count = count as u32;
    let all = numbers(alloc, next, count)?;
    Ok((all, next + count))
}

/// The variable that a term is, if it is one.
#[tactic(auto, using(cu_kernel::specs::TermsOf::terms_of_variants))]
fn variable_of(term: &Term) -> Option<u32>
    ensures { MatchOption result (is_variable (term_of term.now) ≡ false)
        (λ x. term_of term.now ≡ clean.Variable x) }
{
    match term {
        Term::Var(x) => Some(*x),
        Term::Lit(_) => None,
        Term::Whole(_, _) => None,
        Term::Part(_, _) => None,
        Term::Apply(_, _) => None,
        Term::Let(_, _, _) => None,
        Term::Free(_, _) => None,
        Term::Or(_, _) => None,
        Term::Case(_, _, _) => None,
    }
}

/// The pattern of the branch of a choice: the constructor over these
/// variables, or the literal.
#[tactic(auto, using(cu_kernel::specs::TermsOf::patterns_of_variants))]
fn pattern_for(alloc: Global, choice: Choice, arguments: &[u32]) -> Result<Pattern, AllocError>
    ensures { IfOk result (λ pattern. pattern_of pattern ≡ branch_pattern choice arguments.now) }
{
    match choice {
        Choice::Constructor(constructor) => {
            let parts = variables(alloc, arguments)?;
            Ok(Pattern::Con(constructor, parts))
        }
        Choice::Literal(literal) => Ok(Pattern::Lit(literal)),
    }
}

impl<'a> Lowerer<'a> {
    ghost use Rattle.cu_deftree.specs.Inside.Ready.{IsReady, program_in};

    /// How many positions take the place of the one that is looked at in the
    /// branch of a choice: as many as its constructor takes arguments.
    fn opened_count(&self, choice: Choice) -> usize
        ensures { result ≡ opened_count (program_in self.now) choice }
    {
        match choice {
            Choice::Constructor(constructor) => match self.heads.constructor(constructor) {
                Some(shape) => shape.arity,
                None => 0,
            },
            Choice::Literal(_) => 0,
        }
    }

    /// The clause matrix of the branch of a choice. Where rows that demand
    /// nothing go on into it, all rows are looked through; otherwise those
    /// that go on have these indices.
    fn open<'b>(
        &self,
        has_variables: bool,
        column: &Column<'b>,
        indices: &[usize],
        choice: Choice,
    ) -> Result<Opened<'b>, AllocError>
        requires within { column.now.position < length column.now.matrix.now.positions.now }
        requires indices { has_variables ≡ false → AreAt column.now.position choice indices.now
            (all_rows column.now.matrix.now.rows.now) }
        ensures arguments { IfOk result (λ opened. opened.arguments.items
            ≡ numbers column.now.matrix.now.next (opened_count (program_in self.now) choice)) }
        ensures positions { IfOk result (λ opened. opened.positions.items
            ≡ spliced column.now.position opened.arguments.items
            column.now.matrix.now.positions.now) }
        ensures next { IfOk result (λ opened. opened.next
            ≡ column.now.matrix.now.next + opened_count (program_in self.now) choice) }
        ensures rows { IfOk result (λ opened. all_rows opened.rows.items
            ≡ specialize column.now.position opened.arguments.items
            (goes_on has_variables (demands_choice choice))
            (all_rows column.now.matrix.now.rows.now)) }
    {
        let matrix = column.matrix;
        let position = column.position;
        let (arguments, next) = fresh_numbers(self.alloc, matrix.next, self.opened_count(choice))?;
        let positions = spliced(self.alloc, matrix.positions, position, arguments.as_slice())?;
        let candidates = Candidates {
            rows: matrix.rows,
            indices,
            has_variables,
        };
        let rows = branch_rows(
            self.alloc,
            &candidates,
            position,
            arguments.as_slice(),
            choice,
        )?;
        Ok(Opened {
            arguments,
            positions,
            next,
            rows,
        })
    }

    /// Lowers a term or a clause matrix. Takes the expressions that it makes
    /// from those that are left.
    #[tactic(none)]
    #[cycle(lowering)]
    pub(crate) fn lower(&self, task: &Task, left: &mut u32) -> Result<Term, Stop>
        requires { IsReady self.now }
        ensures { Within term_of size
            (TaskLowers (program_in self.now) task.now) left.old left.new result }
    {
        match task {
            Task::Term(scope, term) => self.term(scope, term, left),
            Task::Rows(Manner::Rules, matrix) => self.tree(matrix, left),
            Task::Rows(Manner::Alternatives(mode), matrix) => self.distinction(*mode, matrix, left),
        }
    }

    /// Lowers two tasks, one after the other.
    #[tactic(none)]
    #[cycle(lowering)]
    fn two(
        &self,
        first: &Task,
        second: &Task,
        left: &mut u32,
    ) -> Result<(Box<Term>, Box<Term>), Stop>
        requires { IsReady self.now }
        ensures { Within both_of both_size
            (BothLower (program_in self.now) first.now second.now) left.old left.new result }
    {
        let one = self.lower(first, left)?;
        let two = self.lower(second, left)?;
        let one = Box::new(self.alloc, one)?;
        let two = Box::new(self.alloc, two)?;
        Ok((one, two))
    }

    /// Lowers the arguments of a head.
    #[tactic(none)]
    #[cycle(lowering)]
    fn terms<'b>(
        &self,
        scope: &Scope<'b>,
        terms: &'b [Term],
        left: &mut u32,
    ) -> Result<Vec<Term>, Stop>
        requires { IsReady self.now }
        ensures { Within terms_in (total size)
            (Each (λ t u. TermLowers (program_in self.now) scope.now (term_of t) u) terms.now)
            left.old left.new result }
    {
        let mut all = Vec::new(self.alloc);
        for term in terms {
            let one = self.lower(&Task::Term(*scope, term), left)?;
            all.push(one)?;
        }
        Ok(all)
    }

    /// Lowers a term in its scope.
    #[tactic(none)]
    #[cycle(lowering)]
    fn term<'b>(&self, scope: &Scope<'b>, term: &'b Term, left: &mut u32) -> Result<Term, Stop>
        requires { IsReady self.now }
        ensures { Within term_of size
            (TermLowers (program_in self.now) scope.now (term_of term.now)) left.old left.new
            result }
    {
        match term {
            Term::Var(x) => {
                spend(left, 1)?;
                Ok(Term::Var(scope.names.name(*x)))
            }
            Term::Lit(literal) => {
                spend(left, 1)?;
                Ok(Term::Lit(*literal))
            }
            Term::Whole(head, arguments) => {
                spend(left, 1)?;
                let all = self.terms(scope, arguments, left)?;
                Ok(Term::Whole(*head, all))
            }
            Term::Part(head, arguments) => {
                spend(left, 1)?;
                let all = self.terms(scope, arguments, left)?;
                Ok(Term::Part(*head, all))
            }
            Term::Apply(function, argument) => {
                spend(left, 1)?;
                let both = self.two(
                    &Task::Term(*scope, function),
                    &Task::Term(*scope, argument),
                    left,
                )?;
                Ok(Term::Apply(both.0, both.1))
            }
            Term::Or(first, second) => {
                spend(left, 1)?;
                let both = self.two(
                    &Task::Term(*scope, first),
                    &Task::Term(*scope, second),
                    left,
                )?;
                Ok(Term::Or(both.0, both.1))
            }
            Term::Let(x, value, body) => self.binding(
                scope,
                &LetTerm {
                    variable: *x,
                    value,
                    body,
                },
                left,
            ),
            Term::Free(x, body) => self.free(scope, *x, body, left),
            Term::Case(mode, scrutinee, alternatives) => self.case(
                scope,
                &CaseTerm {
                    mode: *mode,
                    scrutinee,
                    alternatives,
                },
                left,
            ),
        }
    }

    /// Lowers a term that binds a variable to the value of another.
    #[tactic(none)]
    #[cycle(lowering)]
    fn binding<'b>(
        &self,
        scope: &Scope<'b>,
        definition: &LetTerm<'b>,
        left: &mut u32,
    ) -> Result<Term, Stop>
        requires { IsReady self.now }
        ensures { Within term_of size (TermLowers (program_in self.now) scope.now
            (clean.Let definition.now.variable (term_of definition.now.value.now)
            (term_of definition.now.body.now))) left.old left.new result }
    {
        let Some(next) = scope.next.checked_add(1) else {
            return Err(Stop::NoMemory);
        };
        spend(left, 1)?;
        let names = Names::With(definition.variable, scope.next, scope.names);
        let inner = Scope {
            names: &names,
            next,
        };
        let both = self.two(
            &Task::Term(*scope, definition.value),
            &Task::Term(inner, definition.body),
            left,
        )?;
        Ok(Term::Let(scope.next, both.0, both.1))
    }

    /// Lowers a term with a free variable.
    #[tactic(none)]
    #[cycle(lowering)]
    fn free<'b>(
        &self,
        scope: &Scope<'b>,
        x: u32,
        body: &'b Term,
        left: &mut u32,
    ) -> Result<Term, Stop>
        requires { IsReady self.now }
        ensures { Within term_of size (TermLowers (program_in self.now) scope.now
            (clean.Free x (term_of body.now))) left.old left.new result }
    {
        let Some(next) = scope.next.checked_add(1) else {
            return Err(Stop::NoMemory);
        };
        spend(left, 1)?;
        let names = Names::With(x, scope.next, scope.names);
        let inner = Scope {
            names: &names,
            next,
        };
        let one = self.lower(&Task::Term(inner, body), left)?;
        let one = Box::new(self.alloc, one)?;
        Ok(Term::Free(scope.next, one))
    }

    /// Lowers a case distinction.
    #[tactic(none)]
    #[cycle(lowering)]
    fn case<'b>(
        &self,
        scope: &Scope<'b>,
        distinction: &CaseTerm<'b>,
        left: &mut u32,
    ) -> Result<Term, Stop>
        requires { IsReady self.now }
        ensures { Within term_of size (TermLowers (program_in self.now) scope.now
            (clean.Case distinction.now.mode (term_of distinction.now.scrutinee.now)
            (alternatives_of distinction.now.alternatives.now))) left.old left.new result }
    {
        let Some(x) = variable_of(distinction.scrutinee) else {
            return self.case_on_term(scope, distinction, left);
        };
        let position = scope.names.name(x);
        let rows = alternative_rows(self.alloc, distinction.alternatives, position, scope.names)?;
        let positions = [position];
        let matrix = Matrix {
            positions: &positions,
            next: scope.next,
            rows: rows.as_slice(),
        };
        self.lower(
            &Task::Rows(Manner::Alternatives(distinction.mode), matrix),
            left,
        )
    }

    /// Lowers a case distinction on a term that is no variable: a new
    /// variable stands for it.
    #[tactic(none)]
    #[cycle(lowering)]
    fn case_on_term<'b>(
        &self,
        scope: &Scope<'b>,
        distinction: &CaseTerm<'b>,
        left: &mut u32,
    ) -> Result<Term, Stop>
        requires ready { IsReady self.now }
        requires other { is_variable (term_of distinction.now.scrutinee.now) ≡ false }
        ensures { Within term_of size (TermLowers (program_in self.now) scope.now
            (clean.Case distinction.now.mode (term_of distinction.now.scrutinee.now)
            (alternatives_of distinction.now.alternatives.now))) left.old left.new result }
    {
        let Some(next) = scope.next.checked_add(1) else {
            return Err(Stop::NoMemory);
        };
        let rows = alternative_rows(
            self.alloc,
            distinction.alternatives,
            scope.next,
            scope.names,
        )?;
        let positions = [scope.next];
        let matrix = Matrix {
            positions: &positions,
            next,
            rows: rows.as_slice(),
        };
        spend(left, 1)?;
        let both = self.two(
            &Task::Term(*scope, distinction.scrutinee),
            &Task::Rows(Manner::Alternatives(distinction.mode), matrix),
            left,
        )?;
        Ok(Term::Let(scope.next, both.0, both.1))
    }

    /// The branch of a choice in a case distinction on a column.
    #[tactic(none)]
    #[cycle(lowering)]
    fn branch(
        &self,
        branching: &Branching,
        indices: &[usize],
        choice: Choice,
        left: &mut u32,
    ) -> Result<(Pattern, Term), Stop>
        requires ready { IsReady self.now }
        requires opened { IsOpened branching.now.column.position
            (all_rows branching.now.column.matrix.now.rows.now) }
        requires within { branching.now.column.position
            < length branching.now.column.matrix.now.positions.now }
        requires indices { branching.now.has_variables ≡ false
            → AreAt branching.now.column.position choice indices.now
            (all_rows branching.now.column.matrix.now.rows.now) }
        ensures { Within branch_of branch_size
            (BranchLowers (program_in self.now) branching.now.manner branching.now.has_variables
            branching.now.column.matrix.now branching.now.column.position choice)
            left.old left.new result }
    {
        let opened = self.open(branching.has_variables, &branching.column, indices, choice)?;
        let pattern = pattern_for(self.alloc, choice, opened.arguments.as_slice())?;
        let inner = Matrix {
            positions: opened.positions.as_slice(),
            next: opened.next,
            rows: opened.rows.as_slice(),
        };
        let body = self.lower(&Task::Rows(branching.manner, inner), left)?;
        Ok((pattern, body))
    }

    /// The branches of these choices in a case distinction on a column.
    #[tactic(none)]
    #[cycle(lowering)]
    fn branches(
        &self,
        branching: &Branching,
        choices: &[Choice],
        left: &mut u32,
    ) -> Result<Vec<(Pattern, Term)>, Stop>
        requires ready { IsReady self.now }
        requires opened { IsOpened branching.now.column.position
            (all_rows branching.now.column.matrix.now.rows.now) }
        requires within { branching.now.column.position
            < length branching.now.column.matrix.now.positions.now }
        ensures { Within branches_of (total branch_size) (Each (BranchLowers (program_in self.now)
            branching.now.manner branching.now.has_variables branching.now.column.matrix.now
            branching.now.column.position) choices.now)
            left.old left.new result }
    {
        let mut all = Vec::new(self.alloc);
        let groups = Groups::new(
            self.alloc,
            branching.column.matrix.rows,
            branching.column.position,
        )?;
        for choice in choices {
            let indices = groups.of(*choice);
            let one = self.branch(branching, indices, *choice, left)?;
            all.push(one)?;
        }
        Ok(all)
    }

    /// A case distinction on a column.
    #[tactic(none)]
    #[cycle(lowering)]
    fn case_at(
        &self,
        branching: &Branching,
        choices: &[Choice],
        left: &mut u32,
    ) -> Result<Term, Stop>
        requires ready { IsReady self.now }
        requires opened { IsOpened branching.now.column.position
            (all_rows branching.now.column.matrix.now.rows.now) }
        ensures { Within term_of size
            (CaseLowers (program_in self.now) branching.now.manner branching.now.has_variables
            branching.now.column.matrix.now branching.now.column.position choices.now)
            left.old left.new result }
    {
        let matrix = branching.column.matrix;
        let position = branching.column.position;
        if position >= matrix.positions.len() {
            return Err(Stop::NoMemory);
        }
        let scrutinee = Term::Var(matrix.positions[position]);
        spend(left, 2)?;
        let branches = self.branches(branching, choices, left)?;
        let scrutinee = Box::new(self.alloc, scrutinee)?;
        Ok(Term::Case(branching.manner.mode(), scrutinee, branches))
    }

    /// A call of `failed`, the operation without a value.
    fn failure(&self, left: &mut u32) -> Result<Term, Stop>
        ensures { Within term_of size (λ t. t ≡ failure self.now.failed) left.old left.new result }
    {
        spend(left, 1)?;
        Ok(Term::Whole(Head::Fun(self.failed), Vec::new(self.alloc)))
    }
}

impl<'a> Lowerer<'a> {
    ghost use Rattle.cu_deftree.specs.Inside.Ready.{IsReady, program_in};

    /// The definitional tree of rules.
    #[tactic(none)]
    #[cycle(lowering)]
    fn tree(&self, matrix: &Matrix, left: &mut u32) -> Result<Term, Stop>
        requires { IsReady self.now }
        ensures { Within term_of size
            (MatrixLowers (program_in self.now) manner.Rules matrix.now) left.old left.new result }
    {
        let rows = matrix.rows;
        if rows.is_empty() {
            return self.failure(left);
        }
        let Some(position) = leftmost(rows[0].patterns.as_slice()) else {
            return self.overlap(matrix, left);
        };
        match demanded_by_all(rows) {
            Some(common) => {
                let choices = demanded_choices(self.alloc, self.heads, rows, common)?;
                self.case_at(
                    &Branching {
                        column: Column {
                            matrix: &*matrix,
                            position: common,
                        },
                        manner: Manner::Rules,
                        has_variables: false,
                    },
                    choices.as_slice(),
                    left,
                )
            }
            None => self.split(matrix, position, left),
        }
    }

    /// The definitional tree of rules of which the first demands nothing.
    #[tactic(none)]
    #[cycle(lowering)]
    fn overlap(&self, matrix: &Matrix, left: &mut u32) -> Result<Term, Stop>
        requires ready { IsReady self.now }
        requires free { IsFree (all_rows matrix.now.rows.now) }
        ensures { Within term_of size
            (MatrixLowers (program_in self.now) manner.Rules matrix.now) left.old left.new result }
    {
        let rows = matrix.rows;
        let row = &rows[0];
        let names = Names::WithAll(row.own.as_slice(), row.around);
        let scope = Scope {
            names: &names,
            next: matrix.next,
        };
        let body = Task::Term(scope, row.body);
        if rows.len() == 1 {
            return self.lower(&body, left);
        }
        let rest = Matrix {
            positions: matrix.positions,
            next: matrix.next,
            rows: &rows[1..],
        };
        spend(left, 1)?;
        let both = self.two(&body, &Task::Rows(Manner::Rules, rest), left)?;
        Ok(Term::Or(both.0, both.1))
    }

    /// The definitional tree of rules that demand no position in common: that
    /// of the rules that demand a position, or that of the others.
    #[tactic(none)]
    #[cycle(lowering)]
    fn split(&self, matrix: &Matrix, position: usize, left: &mut u32) -> Result<Term, Stop>
        requires ready { IsReady self.now }
        requires split { IsSplit position (all_rows matrix.now.rows.now) }
        ensures { Within term_of size
            (MatrixLowers (program_in self.now) manner.Rules matrix.now) left.old left.new result }
    {
        let demanding = kept(self.alloc, matrix.rows, position, Keep::Demanding)?;
        let others = kept(self.alloc, matrix.rows, position, Keep::Undemanding)?;
        let first = Matrix {
            positions: matrix.positions,
            next: matrix.next,
            rows: demanding.as_slice(),
        };
        let second = Matrix {
            positions: matrix.positions,
            next: matrix.next,
            rows: others.as_slice(),
        };
        spend(left, 1)?;
        let both = self.two(
            &Task::Rows(Manner::Rules, first),
            &Task::Rows(Manner::Rules, second),
            left,
        )?;
        Ok(Term::Or(both.0, both.1))
    }

    /// Lowers the alternatives of a case distinction, of which the first that
    /// matches counts.
    #[tactic(none)]
    #[cycle(lowering)]
    fn distinction(&self, mode: Mode, matrix: &Matrix, left: &mut u32) -> Result<Term, Stop>
        requires { IsReady self.now }
        ensures { Within term_of size
            (MatrixLowers (program_in self.now) (manner.Alternatives mode) matrix.now) left.old
            left.new result }
    {
        let rows = matrix.rows;
        if rows.is_empty() {
            return self.failure(left);
        }
        let Some(position) = leftmost(rows[0].patterns.as_slice()) else {
            return self.first_right_side(mode, matrix, left);
        };
        if some_is_free(rows, position) {
            return self.by_first(mode, matrix, position, left);
        }
        let choices = demanded_choices(self.alloc, self.heads, rows, position)?;
        self.case_at(
            &Branching {
                column: Column {
                    matrix: &*matrix,
                    position,
                },
                manner: Manner::Alternatives(mode),
                has_variables: false,
            },
            choices.as_slice(),
            left,
        )
    }

    /// The right side of the first alternative, which demands nothing.
    #[tactic(none)]
    #[cycle(lowering)]
    fn first_right_side(&self, mode: Mode, matrix: &Matrix, left: &mut u32) -> Result<Term, Stop>
        requires ready { IsReady self.now }
        requires free { IsFree (all_rows matrix.now.rows.now) }
        ensures { Within term_of size
            (MatrixLowers (program_in self.now) (manner.Alternatives mode) matrix.now) left.old
            left.new result }
    {
        let row = &matrix.rows[0];
        let names = Names::WithAll(row.own.as_slice(), row.around);
        let scope = Scope {
            names: &names,
            next: matrix.next,
        };
        self.lower(&Task::Term(scope, row.body), left)
    }

    /// Lowers alternatives of which some has a variable where the first
    /// demands something.
    #[tactic(none)]
    #[cycle(lowering)]
    fn by_first(
        &self,
        mode: Mode,
        matrix: &Matrix,
        position: usize,
        left: &mut u32,
    ) -> Result<Term, Stop>
        requires ready { IsReady self.now }
        requires mixed { IsMixed position (all_rows matrix.now.rows.now) }
        ensures { Within term_of size
            (MatrixLowers (program_in self.now) (manner.Alternatives mode) matrix.now) left.old
            left.new result }
    {
        match matrix.rows[0].demand_at(position) {
            Demand::Nothing => unreachable!(),
            Demand::Constructor(constructor) => {
                let choices = siblings(self.alloc, self.heads, constructor)?;
                self.case_at(
                    &Branching {
                        column: Column {
                            matrix: &*matrix,
                            position,
                        },
                        manner: Manner::Alternatives(mode),
                        has_variables: true,
                    },
                    choices.as_slice(),
                    left,
                )
            }
            Demand::Literal(literal) => {
                self.literal_test(
                    mode,
                    &Column {
                        matrix: &*matrix,
                        position,
                    },
                    literal,
                    left,
                )
            }
        }
    }

    /// A test by `==` for the literal that the first alternative demands.
    #[tactic(none)]
    #[cycle(lowering)]
    fn literal_test(
        &self,
        mode: Mode,
        column: &Column,
        literal: Lit,
        left: &mut u32,
    ) -> Result<Term, Stop>
        requires ready { IsReady self.now }
        requires mixed { IsMixed column.now.position (all_rows column.now.matrix.now.rows.now) }
        requires literal { FirstDemands column.now.position (calculus.ALiteral literal)
            (all_rows column.now.matrix.now.rows.now) }
        ensures { Within term_of size
            (MatrixLowers (program_in self.now) (manner.Alternatives mode) column.now.matrix.now)
            left.old left.new result }
    {
        let matrix = column.matrix;
        let position = column.position;
        if position >= matrix.positions.len() {
            return Err(Stop::NoMemory);
        }
        let tested = matrix.positions[position];
        let opened = self.open(true, column, &[], Choice::Literal(literal))?;
        let others = kept(self.alloc, matrix.rows, position, Keep::OtherThan(literal))?;
        let first = Matrix {
            positions: opened.positions.as_slice(),
            next: opened.next,
            rows: opened.rows.as_slice(),
        };
        let second = Matrix {
            positions: matrix.positions,
            next: matrix.next,
            rows: others.as_slice(),
        };
        spend(left, 4)?;
        let both = self.two(
            &Task::Rows(Manner::Alternatives(mode), first),
            &Task::Rows(Manner::Alternatives(mode), second),
            left,
        )?;
        let same = Box::into_inner(both.0);
        let other = Box::into_inner(both.1);
        let test = self.tested(tested, literal, same, other)?;
        Ok(test)
    }

    /// The call of `==` on a variable and a literal.
    #[tactic(auto, using(cu_kernel::specs::TermsOf::terms_of_variants))]
    fn test(&self, variable: u32, literal: Lit) -> Result<Box<Term>, AllocError>
        ensures { IfOk result (λ test. term_of test.value
            ≡ test_of self.now.equal variable literal) }
    {
        let mut sides = Vec::new(self.alloc);
        sides.push(Term::Var(variable))?;
        sides.push(Term::Lit(literal))?;
        let test = Box::new(self.alloc, Term::Whole(Head::Fun(self.equal), sides))?;
        Ok(test)
    }

    /// The case distinction on whether `==` holds of a variable and a literal.
    fn tested(
        &self,
        variable: u32,
        literal: Lit,
        same: Term,
        other: Term,
    ) -> Result<Term, AllocError>
        ensures { IfOk result (λ t. term_of t ≡ literal_case (program_in self.now) self.now.equal
            variable literal (term_of same) (term_of other)) }
    {
        let test = self.test(variable, literal)?;
        let truth = Pattern::Con(self.heads.special.truth, Vec::new(self.alloc));
        let falsity = Pattern::Con(self.heads.special.falsity, Vec::new(self.alloc));
        let mut branches = Vec::new(self.alloc);
        branches.push((truth, same))?;
        branches.push((falsity, other))?;
        Ok(Term::Case(Mode::Rigid, test, branches))
    }
}
