//! Writing expressions.
use crate::calls::{
    call_kind, missing, mode_word, push_apply, push_function, push_head, push_kind, push_pattern,
};
use crate::numbers::VariableNumbers;
use crate::page::Page;
use crate::task::Task;
use crate::wording::Wording;
use cu_flat::{Expr, ExprId, Head, Lit, Mode, Pattern};
use std::alloc::{AllocError, Global};

/// An expression, and how deep its parts nest.
#[derive(Clone, Copy)]
struct Looked<'p> {
    expr: &'p Expr,
    depth: usize,
}

/// The arguments of a head, and how deep each may nest.
#[derive(Clone, Copy)]
struct Arguments<'p> {
    es: &'p [ExprId],
    depth: usize,
}

/// A variable with the expression in which it is bound, and how deep that may
/// nest.
#[derive(Clone, Copy)]
struct Scoped {
    x: u32,
    body: ExprId,
    depth: usize,
}

/// A case distinction.
#[derive(Clone, Copy)]
struct Distinction<'p> {
    mode: Mode,
    scrutinee: ExprId,
    branches: &'p [(Pattern, ExprId)],
}

/// The tasks that are left while an expression is written, as a stack.
#[derive(Drop)]
pub(crate) struct Expressions<'p> {
    pub(crate) wording: Wording<'p>,
    pub(crate) tasks: Vec<Task<'p>>,
    pub(crate) numbers: VariableNumbers,
    /// The number of the next variable that is bound.
    pub(crate) next: u64,
}

impl<'p> Expressions<'p> {
    ghost use Rattle.std.specs.Prelude.{◌≡◌, ◌+◌, [], IfOk, OnOk, Some, length, map};
    ghost use Rattle.cu_calculus.specs.FlatProgram.{alternatives_of, no_term, pattern_of, term_over, term_within, terms_of};
    ghost use Rattle.cu_calculus.specs.Term.{Apply, Case, Free, Let, Literal, NoAlternative, Or, Part, Variable, Whole};
    ghost use Rattle.cu_calculus.specs.Valid.{variables_of};
    ghost use Rattle.cu_flat.specs.Meaning.{branch_meaning, expr_meaning, pattern_meaning};
    ghost use Rattle.cu_flattext.specs.ExpressionTexts.{all_numbered, no_numbers, numbered};
    ghost use Rattle.cu_flattext.specs.Inside.LineTasks.{rule_expression};
    ghost use Rattle.cu_flattext.specs.Inside.Stands.{lowered_of, numbers_of};
    ghost use Rattle.cu_flattext.specs.Inside.Tasks.{Leaves, Restores, Scopes, Writes, left_of, left_with, left_with_arguments, left_with_branch, left_with_part, left_with_term, looked_term};
    ghost use Rattle.cu_flattext.specs.declared.task.Task.TheVariants as task;

    /// The state in which no task is left.
    pub(crate) fn none(alloc: Global, wording: Wording<'p>) -> Expressions<'p>
        ensures tasks { result.tasks.items ≡ [] }
        ensures numbers { numbers_of result.numbers ≡ no_numbers }
        ensures next { result.next ≡ 1 }
        ensures wording { result.wording ≡ wording.entry }
    {
        Expressions {
            wording,
            tasks: Vec::new(alloc),
            numbers: VariableNumbers::new(alloc),
            next: 1,
        }
    }

    /// The state in which the expression of a rule is to be written, whose
    /// parameters have the numbers from 1 on. No expression nests deeper than
    /// there are expressions.
    pub(crate) fn of_rule(
        alloc: Global,
        wording: Wording<'p>,
        parameters: &[u32],
        e: ExprId,
    ) -> Result<Expressions<'p>, AllocError>
        ensures { IfOk result (λ made. left_of made ≡ rule_expression
            (lowered_of wording.entry) wording.entry.flat.now parameters.now e) }
    {
        let mut made = Expressions::none(alloc, wording);
        made.bind_all(parameters)?;
        let depth = made.wording.flat.expr_count();
        made.tasks.push(Task::Expression(e, depth))?;
        Ok(made)
    }

    /// Writes what a task begins with, and pushes the tasks that it leaves.
    pub(crate) fn step(&mut self, task: Task<'p>, page: &mut Page) -> Result<(), AllocError>
        ensures { OnOk result (Writes page.old.text.items (left_with task.entry self.old)
            page.new.text.items (left_of self.new)) }
    {
        match task {
            Task::Expression(e, depth) => self.expression(e, depth, page),
            Task::Expressions(es, depth) => self.expressions(es, depth),
            Task::Further(es, depth) => self.further(es, depth, page),
            Task::Branches(branches, depth) => self.branches(branches, depth, page),
            Task::FurtherBranches(branches, depth) => self.further_branches(branches, depth, page),
            Task::Text(text) => page.push_str(text),
            Task::Number(x, number) => {
                self.numbers.set(x, number)?;
                Ok(())
            }
        }
    }

    /// The form of an expression, and how deep its parts may nest; none where
    /// the expression isn't there or nests deeper.
    fn look(&self, e: ExprId, depth: usize) -> Option<Looked<'p>>
        ensures { term_within depth self.now.wording.flat.now e
            ≡ looked_term self.now.wording.flat.now result }
    {
        if depth == 0 {
            return None;
        }
        match self.wording.flat.find(e) {
            Some(expr) => Some(Looked {
                expr,
                depth: depth - 1,
            }),
            None => None,
        }
    }

    /// Writes an expression. One that isn't there, or nests deeper, has the
    /// text of a case distinction without branches; a program has none.
    fn expression(&mut self, e: ExprId, depth: usize, page: &mut Page) -> Result<(), AllocError>
        ensures { OnOk result (Writes
            page.old.text.items
            (left_with_term (term_within depth self.old.wording.flat.now e) self.old)
            page.new.text.items (left_of self.new)) }
    {
        match self.look(e, depth) {
            Some(looked) => self.form(looked.expr, looked.depth, page),
            None => self.nothing(page),
        }
    }

    /// Writes the text for an expression that there isn't.
    fn nothing(&mut self, page: &mut Page) -> Result<(), AllocError>
        ensures { OnOk result (Writes page.old.text.items (left_with_term no_term self.old)
            page.new.text.items (left_of self.new)) }
    {
        self.without_branches(Mode::Rigid, page)
    }

    /// Writes a case distinction on the variable 0, without branches.
    fn without_branches(&mut self, mode: Mode, page: &mut Page) -> Result<(), AllocError>
        ensures { OnOk result (Writes page.old.text.items
            (left_with_term (Case mode (Variable 0) NoAlternative) self.old)
            page.new.text.items (left_of self.new)) }
    {
        page.push_str("Case ")?;
        page.push_str(mode_word(mode))?;
        page.push_str(" (Var ")?;
        page.push_number(self.numbers.number(0))?;
        page.push_str(") []")
    }

    /// Writes an expression, by its form.
    fn form(&mut self, expr: &'p Expr, depth: usize, page: &mut Page) -> Result<(), AllocError>
        ensures { OnOk result (Writes
            page.old.text.items
            (left_with_term (term_over (term_within depth self.old.wording.flat.now)
            (Some (expr_meaning [] expr.now))) self.old)
            page.new.text.items (left_of self.new)) }
    {
        match expr {
            Expr::Var(x) => self.variable(*x, page),
            Expr::Lit(literal) => self.literal(*literal, page),
            Expr::Whole(head, es) => {
                let es = es.as_slice();
                self.whole(*head, Arguments { es, depth }, page)
            }
            Expr::Part(head, es) => {
                let es = es.as_slice();
                self.part(*head, Arguments { es, depth }, page)
            }
            Expr::Apply(function, argument) => self.application(*function, *argument, depth, page),
            Expr::Let(x, bound, body) => {
                let scoped = Scoped {
                    x: *x,
                    body: *body,
                    depth,
                };
                self.binding(*bound, scoped, page)
            }
            Expr::Free(x, body) => {
                let scoped = Scoped {
                    x: *x,
                    body: *body,
                    depth,
                };
                self.free(scoped, page)
            }
            Expr::Or(left, right) => self.choice(*left, *right, depth, page),
            Expr::Case(mode, e, branches) => {
                let distinction = Distinction {
                    mode: *mode,
                    scrutinee: *e,
                    branches: branches.as_slice(),
                };
                self.distinction(distinction, depth, page)
            }
        }
    }

    /// Writes a variable.
    fn variable(&mut self, x: u32, page: &mut Page) -> Result<(), AllocError>
        ensures { OnOk result (Writes page.old.text.items (left_with_term (Variable x) self.old)
            page.new.text.items (left_of self.new)) }
    {
        page.push_str("Var ")?;
        page.push_number(self.numbers.number(x))
    }

    /// Writes a literal.
    fn literal(&mut self, literal: Lit, page: &mut Page) -> Result<(), AllocError>
        ensures { OnOk result (Writes page.old.text.items
            (left_with_term (Literal literal) self.old)
            page.new.text.items (left_of self.new)) }
    {
        page.push_str("Lit (")?;
        page.push_literal(literal)?;
        page.push_str(")")
    }

    /// Writes an application of a functional value.
    fn application(
        &mut self,
        function: ExprId,
        argument: ExprId,
        depth: usize,
        page: &mut Page,
    ) -> Result<(), AllocError>
        ensures { OnOk result (Writes
            page.old.text.items
            (left_with_term (Apply (term_within depth self.old.wording.flat.now function)
            (term_within depth self.old.wording.flat.now argument)) self.old)
            page.new.text.items (left_of self.new)) }
    {
        page.push_str("Comb ")?;
        push_apply(page)?;
        page.push_str(" [")?;
        self.tasks.push(Task::Text("]"))?;
        self.tasks.push(Task::Expression(argument, depth))?;
        self.tasks.push(Task::Text(","))?;
        self.tasks.push(Task::Expression(function, depth))?;
        Ok(())
    }

    /// Gives a variable the next number, and answers the number that it had.
    fn bind(&mut self, x: u32) -> Result<u64, AllocError>
        ensures before { IfOk result (λ before. before ≡ numbers_of self.old.numbers x) }
        ensures numbers { OnOk result (numbers_of self.new.numbers
            ≡ numbered x self.old.next (numbers_of self.old.numbers)) }
        ensures next { OnOk result (self.new.next ≡ self.old.next + 1) }
        ensures tasks { OnOk result (self.new.tasks.items ≡ self.old.tasks.items) }
        ensures wording { OnOk result (self.new.wording ≡ self.old.wording) }
    {
        let before = self.numbers.set(x, self.next)?;
        self.next = self.next.checked_add(1).ok_or(AllocError)?;
        Ok(before)
    }

    /// Pushes the tasks for what is in the scope of a variable, which gets its
    /// old number back then.
    fn leave(&mut self, scoped: Scoped, before: u64) -> Result<(), AllocError>
        ensures tasks { OnOk result
            (Leaves scoped.x before scoped.body scoped.depth self.old self.new) }
        ensures numbers { OnOk result (numbers_of self.new.numbers ≡ numbers_of self.old.numbers) }
        ensures next { OnOk result (self.new.next ≡ self.old.next) }
        ensures wording { OnOk result (self.new.wording ≡ self.old.wording) }
    {
        self.tasks.push(Task::Number(scoped.x, before))?;
        self.tasks.push(Task::Text(")"))?;
        self.tasks
            .push(Task::Expression(scoped.body, scoped.depth))?;
        Ok(())
    }

    /// Binds a variable, and pushes the tasks for what is in its scope.
    fn scope(&mut self, scoped: Scoped) -> Result<(), AllocError>
        ensures tasks { OnOk result
            (Scopes scoped.x scoped.body scoped.depth self.old self.new) }
        ensures numbers { OnOk result (numbers_of self.new.numbers
            ≡ numbered scoped.x self.old.next (numbers_of self.old.numbers)) }
        ensures next { OnOk result (self.new.next ≡ self.old.next + 1) }
        ensures wording { OnOk result (self.new.wording ≡ self.old.wording) }
    {
        let before = self.bind(scoped.x)?;
        self.leave(scoped, before)?;
        Ok(())
    }

    /// Writes a local definition, whose right side may nest as deep as what the
    /// variable is bound in.
    fn binding(&mut self, bound: ExprId, scoped: Scoped, page: &mut Page) -> Result<(), AllocError>
        ensures { OnOk result (Writes
            page.old.text.items
            (left_with_term
            (Let scoped.x (term_within scoped.depth self.old.wording.flat.now bound)
            (term_within scoped.depth self.old.wording.flat.now scoped.body)) self.old)
            page.new.text.items (left_of self.new)) }
    {
        page.push_str("Let [(")?;
        page.push_number(self.next)?;
        page.push_str(",")?;
        self.scope(scoped)?;
        self.tasks.push(Task::Text(")] ("))?;
        self.tasks.push(Task::Expression(bound, scoped.depth))?;
        Ok(())
    }

    /// Writes an expression with a free variable.
    fn free(&mut self, scoped: Scoped, page: &mut Page) -> Result<(), AllocError>
        ensures { OnOk result (Writes
            page.old.text.items
            (left_with_term
            (Free scoped.x (term_within scoped.depth self.old.wording.flat.now scoped.body))
            self.old)
            page.new.text.items (left_of self.new)) }
    {
        page.push_str("Free [")?;
        page.push_number(self.next)?;
        page.push_str("] (")?;
        self.scope(scoped)?;
        Ok(())
    }

    /// Writes a choice.
    fn choice(
        &mut self,
        left: ExprId,
        right: ExprId,
        depth: usize,
        page: &mut Page,
    ) -> Result<(), AllocError>
        ensures { OnOk result (Writes
            page.old.text.items
            (left_with_term (Or (term_within depth self.old.wording.flat.now left)
            (term_within depth self.old.wording.flat.now right)) self.old)
            page.new.text.items (left_of self.new)) }
    {
        page.push_str("Or (")?;
        self.tasks.push(Task::Text(")"))?;
        self.tasks.push(Task::Expression(right, depth))?;
        self.tasks.push(Task::Text(") ("))?;
        self.tasks.push(Task::Expression(left, depth))?;
        Ok(())
    }

    /// Writes a case distinction, whose parts may nest so deep.
    fn distinction(
        &mut self,
        distinction: Distinction<'p>,
        depth: usize,
        page: &mut Page,
    ) -> Result<(), AllocError>
        ensures { OnOk result (Writes
            page.old.text.items
            (left_with_term (Case distinction.entry.mode
            (term_within depth self.old.wording.flat.now distinction.entry.scrutinee)
            (alternatives_of (term_within depth self.old.wording.flat.now)
            (map branch_meaning distinction.entry.branches.now))) self.old)
            page.new.text.items (left_of self.new)) }
    {
        page.push_str("Case ")?;
        page.push_str(mode_word(distinction.mode))?;
        page.push_str(" (")?;
        self.tasks.push(Task::Text("]"))?;
        self.tasks
            .push(Task::Branches(distinction.branches, depth))?;
        self.tasks.push(Task::Text(") ["))?;
        self.tasks
            .push(Task::Expression(distinction.scrutinee, depth))?;
        Ok(())
    }

    /// Writes a head with all its arguments.
    fn whole(
        &mut self,
        head: Head,
        arguments: Arguments<'p>,
        page: &mut Page,
    ) -> Result<(), AllocError>
        ensures { OnOk result (Writes
            page.old.text.items
            (left_with_term (Whole head
            (terms_of (term_within arguments.entry.depth self.old.wording.flat.now)
            arguments.entry.es.now)) self.old)
            page.new.text.items (left_of self.new)) }
    {
        page.push_str("Comb ")?;
        page.push_str(call_kind(head))?;
        page.push_str(" ")?;
        self.arguments(head, arguments, page)
    }

    /// Writes a head with some of its arguments.
    fn part(
        &mut self,
        head: Head,
        arguments: Arguments<'p>,
        page: &mut Page,
    ) -> Result<(), AllocError>
        ensures { OnOk result (Writes
            page.old.text.items
            (left_with_term (Part head
            (terms_of (term_within arguments.entry.depth self.old.wording.flat.now)
            arguments.entry.es.now)) self.old)
            page.new.text.items (left_of self.new)) }
    {
        self.counted_part(head, arguments.es.len(), arguments, page)
    }

    /// Writes the partial application of a head to so many arguments.
    fn counted_part(
        &mut self,
        head: Head,
        count: usize,
        arguments: Arguments<'p>,
        page: &mut Page,
    ) -> Result<(), AllocError>
        ensures { OnOk result (Writes
            page.old.text.items
            (left_with_part head count
            (terms_of (term_within arguments.entry.depth self.old.wording.flat.now)
            arguments.entry.es.now) self.old)
            page.new.text.items (left_of self.new)) }
    {
        page.push_str("Comb ")?;
        push_kind(page, head, missing(&self.wording, head, count))?;
        page.push_str(" ")?;
        self.arguments(head, arguments, page)
    }

    /// Writes a head and its arguments.
    fn arguments(
        &mut self,
        head: Head,
        arguments: Arguments<'p>,
        page: &mut Page,
    ) -> Result<(), AllocError>
        ensures { OnOk result (Writes
            page.old.text.items
            (left_with_arguments head
            (terms_of (term_within arguments.entry.depth self.old.wording.flat.now)
            arguments.entry.es.now) self.old)
            page.new.text.items (left_of self.new)) }
    {
        let es = arguments.es;
        let depth = arguments.depth;
        push_head(page, &self.wording, head)?;
        page.push_str(" [")?;
        self.tasks.push(Task::Text("]"))?;
        match head {
            Head::Set(f) => {
                push_function(page, &self.wording, f)?;
                self.tasks.push(Task::Further(es, depth))?;
            }
            _ => self.tasks.push(Task::Expressions(es, depth))?,
        }
        Ok(())
    }

    /// Writes expressions, with commas between them.
    fn expressions(&mut self, es: &'p [ExprId], depth: usize) -> Result<(), AllocError>
        ensures { OnOk result (left_of self.new
            ≡ left_with (task.Expressions es.entry depth) self.old) }
    {
        match es {
            [] => Ok(()),
            [first, others @ ..] => {
                self.tasks.push(Task::Further(others, depth))?;
                self.tasks.push(Task::Expression(*first, depth))?;
                Ok(())
            }
        }
    }

    /// Writes expressions, each after a comma.
    fn further(&mut self, es: &'p [ExprId], depth: usize, page: &mut Page) -> Result<(), AllocError>
        ensures { OnOk result (Writes page.old.text.items
            (left_with (task.Further es.entry depth) self.old)
            page.new.text.items (left_of self.new)) }
    {
        match es {
            [] => Ok(()),
            [first, others @ ..] => {
                page.push_str(",")?;
                self.tasks.push(Task::Further(others, depth))?;
                self.tasks.push(Task::Expression(*first, depth))?;
                Ok(())
            }
        }
    }

    /// Writes branches, with commas between them.
    fn branches(
        &mut self,
        branches: &'p [(Pattern, ExprId)],
        depth: usize,
        page: &mut Page,
    ) -> Result<(), AllocError>
        ensures { OnOk result (Writes page.old.text.items
            (left_with (task.Branches branches.entry depth) self.old)
            page.new.text.items (left_of self.new)) }
    {
        match branches {
            [] => Ok(()),
            [first, others @ ..] => {
                self.tasks.push(Task::FurtherBranches(others, depth))?;
                self.branch(&first.0, first.1, depth, page)?;
                Ok(())
            }
        }
    }

    /// Writes branches, each after a comma.
    fn further_branches(
        &mut self,
        branches: &'p [(Pattern, ExprId)],
        depth: usize,
        page: &mut Page,
    ) -> Result<(), AllocError>
        ensures { OnOk result (Writes page.old.text.items
            (left_with (task.FurtherBranches branches.entry depth) self.old)
            page.new.text.items (left_of self.new)) }
    {
        match branches {
            [] => Ok(()),
            [first, others @ ..] => {
                page.push_str(",")?;
                self.tasks.push(Task::FurtherBranches(others, depth))?;
                self.branch(&first.0, first.1, depth, page)?;
                Ok(())
            }
        }
    }

    /// Writes a branch.
    fn branch(
        &mut self,
        pattern: &Pattern,
        body: ExprId,
        depth: usize,
        page: &mut Page,
    ) -> Result<(), AllocError>
        ensures { OnOk result (Writes page.old.text.items
            (left_with_branch (pattern_of (pattern_meaning pattern.now))
            (term_within depth self.old.wording.flat.now body) self.old)
            page.new.text.items (left_of self.new)) }
    {
        page.push_str("Branch (")?;
        push_pattern(page, &self.wording, self.next, pattern)?;
        page.push_str(") (")?;
        self.bind_pattern(pattern)?;
        self.tasks.push(Task::Text(")"))?;
        self.tasks.push(Task::Expression(body, depth))?;
        Ok(())
    }

    /// Gives the variables of a pattern the next numbers, up to the tasks that
    /// there are.
    #[tactic(auto, using(cu_calculus::proofs::FlatFitting::any_variables))]
    fn bind_pattern(&mut self, pattern: &Pattern) -> Result<(), AllocError>
        ensures numbers { OnOk result (numbers_of self.new.numbers
            ≡ all_numbered (variables_of (pattern_of (pattern_meaning pattern.now)))
            self.old.next (numbers_of self.old.numbers)) }
        ensures next { OnOk result (self.new.next
            ≡ self.old.next + length (variables_of (pattern_of (pattern_meaning pattern.now)))) }
        ensures wording { OnOk result (self.new.wording ≡ self.old.wording) }
        ensures tasks { OnOk result (Restores self.old self.new) }
    {
        match pattern {
            Pattern::Lit(_) => Ok(()),
            Pattern::Con(_, variables) => self.bind_all(variables.as_slice()),
        }
    }

    /// Gives variables the next numbers, up to the tasks that there are.
    fn bind_all(&mut self, variables: &[u32]) -> Result<(), AllocError>
        ensures numbers { OnOk result (numbers_of self.new.numbers
            ≡ all_numbered variables.now self.old.next (numbers_of self.old.numbers)) }
        ensures next { OnOk result (self.new.next ≡ self.old.next + length variables.now) }
        ensures wording { OnOk result (self.new.wording ≡ self.old.wording) }
        ensures tasks { OnOk result (Restores self.old self.new) }
    {
        for x in variables {
            let before = self.bind(*x)?;
            self.tasks.push(Task::Number(*x, before))?;
        }
        Ok(())
    }
}
