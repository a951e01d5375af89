//! Expressions in a text.
ghost use Rattle.std.specs.Prelude.{◌≡◌, ◌∷◌, [], ◌++◌, ◌<◌, ◌≤◌, All, IfErr, IfOk, OnOk, length, map, reverse, List, ℕ};
ghost use Rattle.cu_names.specs.Texts.{Extends};
ghost use Rattle.cu_flatread.specs.Cells.{spell_pattern, spell_variables};
ghost use Rattle.cu_flatread.specs.FlatText.{most_nested};
ghost use Rattle.cu_flatread.specs.Inside.Expressions.{branch_pattern_at, expression_at, expression_words, kind_at, kind_words, missing_at, mode_words, pattern_at, pattern_words};
ghost use Rattle.cu_flatread.specs.Inside.ExpressionTasks.{Goes, HasCell, element_opening, following_tasks, label, opened, opening_at, opening_of_form, pattern_tree, steps_left, tasks_at};
ghost use Rattle.cu_flatread.specs.Inside.Words.{Gives};
ghost use Rattle.cu_flatread.specs.Meaning.{HasExpression, HasPattern, expression_of, pattern_of};
ghost use Rattle.cu_flatread.specs.declared.expressions.Form.TheVariants as the_form;
ghost use Rattle.cu_flatread.specs.declared.expressions.Task.TheVariants as task;
ghost use Rattle.cu_flatread.specs.declared.stop.Stop.TheVariants.{NoMemory};

use crate::cells::{CombKind, ExpressionCell, FlatEntity};
use crate::cursor::Cursor;
use crate::mark::Mark;
use crate::stop::Stop;
use crate::trees::FlatExpression;
use crate::types::MOST_NESTED;
use cu_calculus::{Lit, Mode};
use cu_names::Names;
use std::alloc::Global;

/// Of what a list has its elements.
#[derive(Clone, Copy)]
enum ListOf {
    /// The arguments of a Comb.
    Arguments,
    /// The branches of a case distinction.
    Branches,
}

/// What is still to be read of an expression.
#[derive(Clone, Copy)]
enum Task {
    /// An expression, nested at most so deep.
    Expression(u32),
    /// What stands after an expression.
    Mark(Mark),
    /// The pattern of a branch, with the words round it.
    Pattern,
    /// The end of a list after its opening bracket, or its first element.
    First(ListOf, u32),
    /// The end of a list after an element in it, or a comma and the next one.
    Next(ListOf, u32),
}

/// What follows a cell in the text.
#[derive(Clone, Copy)]
enum Following {
    Nothing,
    /// The arguments of a Comb.
    Arguments,
    /// An expression and the end of its parentheses.
    One,
    /// Two expressions with this between them.
    Two(Mark),
    /// An expression and the branches.
    Branches,
    /// An argument, and the others.
    Element,
    /// The pattern and the expression of a branch, and the other branches.
    Branch,
}

/// A cell, and what follows it in the text.
#[derive(Clone, Copy)]
struct Opening {
    cell: ExpressionCell,
    following: Following,
}

/// The pattern of a branch: a constructor over variables, or a literal.
#[derive(Drop)]
enum BranchPattern {
    Built(FlatEntity, Vec<u64>),
    Exactly(Lit),
}

/// The forms of an expression.
#[derive(Clone, Copy)]
enum Form {
    Var,
    Literal,
    Comb,
    Let,
    Free,
    Or,
    Case,
}

const FORMS: [(&[u8], Form); 7] = [
    (b"Var ", Form::Var),
    (b"Lit (", Form::Literal),
    (b"Comb ", Form::Comb),
    (b"Let [(", Form::Let),
    (b"Free [", Form::Free),
    (b"Or (", Form::Or),
    (b"Case ", Form::Case),
];

/// The forms of an expression that need no expression in them.
const LEAVES: [(&[u8], Form); 3] = [
    (b"Var ", Form::Var),
    (b"Lit (", Form::Literal),
    (b"Comb ", Form::Comb),
];

/// The forms of a pattern.
#[derive(Clone, Copy)]
enum PatternForm {
    Built,
    Exactly,
}

const PATTERNS: [(&[u8], PatternForm); 2] = [
    (b"Pattern ", PatternForm::Built),
    (b"LPattern (", PatternForm::Exactly),
];

/// The words of a pattern.
fn pattern_words() -> &'static [(&'static [u8], PatternForm)]
    ensures { map (λ w. (w.0.now, w.1)) result.now ≡ pattern_words }
{
    &PATTERNS
}

const MODES: [(&[u8], Mode); 2] = [(b"Flex (", Mode::Flex), (b"Rigid (", Mode::Rigid)];

/// The words of a mode.
fn mode_words() -> &'static [(&'static [u8], Mode)]
    ensures { map (λ w. (w.0.now, w.1)) result.now ≡ mode_words }
{
    &MODES
}

/// The forms of a Comb's kind.
#[derive(Clone, Copy)]
enum KindForm {
    Func,
    Cons,
    FuncPart,
    ConsPart,
}

const KINDS: [(&[u8], KindForm); 4] = [
    (b"FuncCall ", KindForm::Func),
    (b"ConsCall ", KindForm::Cons),
    (b"(FuncPartCall ", KindForm::FuncPart),
    (b"(ConsPartCall ", KindForm::ConsPart),
];

/// The words of a Comb's kind.
fn kind_words() -> &'static [(&'static [u8], KindForm)]
    ensures { map (λ w. (w.0.now, w.1)) result.now ≡ kind_words }
{
    &KINDS
}

/// The kind of a Comb.
#[tactic(auto, unfolding(crate::specs::Inside::Expressions::kind_at))]
fn kind(cursor: &mut Cursor<'_>) -> Result<CombKind, Stop>
    ensures gives { Gives (λ k. k) result cursor.new.rest.now (kind_at cursor.old.rest.now) }
    ensures shorter { OnOk result (length cursor.new.rest.now ≤ length cursor.old.rest.now) }
{
    match cursor.one_of(kind_words())? {
        KindForm::Func => Ok(CombKind::FuncCall),
        KindForm::Cons => Ok(CombKind::ConsCall),
        KindForm::FuncPart => Ok(CombKind::FuncPartCall(missing(cursor)?)),
        KindForm::ConsPart => Ok(CombKind::ConsPartCall(missing(cursor)?)),
    }
}

/// How many arguments are missing, and the end of the kind.
#[tactic(auto, unfolding(crate::specs::Inside::Expressions::missing_at))]
fn missing(cursor: &mut Cursor<'_>) -> Result<u64, Stop>
    ensures gives { Gives (λ n. n) result cursor.new.rest.now (missing_at cursor.old.rest.now) }
    ensures shorter { OnOk result (length cursor.new.rest.now < length cursor.old.rest.now) }
{
    let missing = cursor.number()?;
    cursor.word(b") ")?;
    Ok(missing)
}

/// The forms of an expression that is nested at most so deep.
fn forms(depth: u32) -> &'static [(&'static [u8], Form)]
    ensures { map (λ w. (w.0.now, w.1)) result.now ≡ expression_words depth }
{
    match depth {
        0 => &[],
        1 => &LEAVES,
        _ => &FORMS,
    }
}

/// The cell of an element of a list or of its end, and what follows it.
fn element(of: ListOf, more: bool) -> Opening
    ensures { result ≡ element_opening of more }
{
    match of {
        ListOf::Arguments => {
            if more {
                return Opening {
                    cell: ExpressionCell::More,
                    following: Following::Element,
                };
            }
            Opening {
                cell: ExpressionCell::End,
                following: Following::Nothing,
            }
        }
        ListOf::Branches => {
            if more {
                return Opening {
                    cell: ExpressionCell::Branch,
                    following: Following::Branch,
                };
            }
            Opening {
                cell: ExpressionCell::EndOfBranches,
                following: Following::Nothing,
            }
        }
    }
}

/// A Comb whose word was read, up to the bracket of its arguments.
fn comb(alloc: Global, cursor: &mut Cursor<'_>, names: &mut Names) -> Result<Opening, Stop>
    ensures gives { Gives (opened names.new) result cursor.new.rest.now
        (opening_of_form the_form.Comb cursor.old.rest.now) }
    ensures known { IfOk result (λ opening. HasCell names.new opening.cell) }
    ensures names { Extends names.old names.new }
    ensures shorter { OnOk result (length cursor.new.rest.now ≤ length cursor.old.rest.now) }
{
    let kind = kind(cursor)?;
    let entity = cursor.entity(alloc, names)?;
    cursor.word(b" [")?;
    Ok(Opening {
        cell: ExpressionCell::Comb(kind, entity),
        following: Following::Arguments,
    })
}

/// A variable that is bound, whose word was read, up to what it is bound to.
fn binding(cursor: &mut Cursor<'_>) -> Result<Opening, Stop>
    ensures gives { (names : List (List ℕ)) → Gives (opened names) result cursor.new.rest.now
        (opening_of_form the_form.Let cursor.old.rest.now) }
    ensures known { (names : List (List ℕ)) → IfOk result (λ opening. HasCell names opening.cell) }
    ensures shorter { OnOk result (length cursor.new.rest.now ≤ length cursor.old.rest.now) }
{
    let number = cursor.number()?;
    cursor.word(b",")?;
    Ok(Opening {
        cell: ExpressionCell::Let(number),
        following: Following::Two(Mark::Body),
    })
}

/// A free variable, whose word was read, up to the expression that it is in.
fn free(cursor: &mut Cursor<'_>) -> Result<Opening, Stop>
    ensures gives { (names : List (List ℕ)) → Gives (opened names) result cursor.new.rest.now
        (opening_of_form the_form.Free cursor.old.rest.now) }
    ensures known { (names : List (List ℕ)) → IfOk result (λ opening. HasCell names opening.cell) }
    ensures shorter { OnOk result (length cursor.new.rest.now ≤ length cursor.old.rest.now) }
{
    let number = cursor.number()?;
    cursor.word(b"] (")?;
    Ok(Opening {
        cell: ExpressionCell::Free(number),
        following: Following::One,
    })
}

/// A form whose word was read, up to the first expression in it.
fn opening_of(
    form: Form,
    alloc: Global,
    cursor: &mut Cursor<'_>,
    names: &mut Names,
) -> Result<Opening, Stop>
    ensures gives { Gives (opened names.new) result cursor.new.rest.now
        (opening_of_form form cursor.old.rest.now) }
    ensures known { IfOk result (λ opening. HasCell names.new opening.cell) }
    ensures names { Extends names.old names.new }
    ensures shorter { OnOk result (length cursor.new.rest.now ≤ length cursor.old.rest.now) }
{
    match form {
        Form::Var => {
            let number = cursor.number()?;
            Ok(Opening {
                cell: ExpressionCell::Var(number),
                following: Following::Nothing,
            })
        }
        Form::Literal => {
            let literal = cursor.literal()?;
            cursor.word(b")")?;
            Ok(Opening {
                cell: ExpressionCell::Literal(literal),
                following: Following::Nothing,
            })
        }
        Form::Comb => comb(alloc, cursor, names),
        Form::Let => binding(cursor),
        Form::Free => free(cursor),
        Form::Or => Ok(Opening {
            cell: ExpressionCell::Or,
            following: Following::Two(Mark::Between),
        }),
        Form::Case => {
            let mode = cursor.one_of(mode_words())?;
            Ok(Opening {
                cell: ExpressionCell::Case(mode),
                following: Following::Branches,
            })
        }
    }
}

/// The beginning of an expression that is nested at most so deep, up to the
/// first expression in it.
#[tactic(auto, unfolding(crate::specs::Inside::ExpressionTasks::opening_at))]
fn begin_expression(
    depth: u32,
    alloc: Global,
    cursor: &mut Cursor<'_>,
    names: &mut Names,
) -> Result<Opening, Stop>
    ensures gives { Gives (opened names.new) result cursor.new.rest.now
        (opening_at depth cursor.old.rest.now) }
    ensures known { IfOk result (λ opening. HasCell names.new opening.cell) }
    ensures names { Extends names.old names.new }
    ensures shorter { OnOk result (length cursor.new.rest.now ≤ length cursor.old.rest.now) }
{
    let form = cursor.one_of(forms(depth))?;
    opening_of(form, alloc, cursor, names)
}

/// A pattern.
#[tactic(auto, unfolding(crate::specs::Inside::Expressions::pattern_at))]
fn pattern(alloc: Global, cursor: &mut Cursor<'_>, names: &mut Names) -> Result<BranchPattern, Stop>
    ensures gives { Gives (λ p. pattern_of names.new (pattern_tree p)) result cursor.new.rest.now
        (pattern_at cursor.old.rest.now) }
    ensures known { IfOk result (λ p. HasPattern names.new (pattern_tree p)) }
    ensures names { Extends names.old names.new }
    ensures shorter { OnOk result (length cursor.new.rest.now ≤ length cursor.old.rest.now) }
{
    match cursor.one_of(pattern_words())? {
        PatternForm::Built => {
            let entity = cursor.entity(alloc, names)?;
            cursor.word(b" ")?;
            let variables = cursor.numbers(alloc)?;
            Ok(BranchPattern::Built(entity, variables))
        }
        PatternForm::Exactly => {
            let literal = cursor.literal()?;
            cursor.word(b")")?;
            Ok(BranchPattern::Exactly(literal))
        }
    }
}

/// The pattern of a branch, with the words round it.
#[tactic(auto, unfolding(crate::specs::Inside::Expressions::branch_pattern_at))]
fn branch_pattern(
    alloc: Global,
    cursor: &mut Cursor<'_>,
    names: &mut Names,
) -> Result<BranchPattern, Stop>
    ensures gives { Gives (λ p. pattern_of names.new (pattern_tree p)) result cursor.new.rest.now
        (branch_pattern_at cursor.old.rest.now) }
    ensures known { IfOk result (λ p. HasPattern names.new (pattern_tree p)) }
    ensures names { Extends names.old names.new }
    ensures shorter { OnOk result (length cursor.new.rest.now ≤ length cursor.old.rest.now) }
{
    cursor.word(b"Branch (")?;
    let pattern = pattern(alloc, cursor, names)?;
    cursor.word(b") (")?;
    Ok(pattern)
}

/// The reading of an expression: its cells up to now, and what is still to be
/// read.
#[derive(Drop)]
struct Expressions {
    alloc: Global,
    cells: Vec<ExpressionCell>,
    tasks: Vec<Task>,
}

impl Expressions {
    /// Adds tasks, of which the last one is done first.
    fn expect(&mut self, tasks: &[Task]) -> Result<(), Stop>
        ensures cells { OnOk result (self.new.cells.items ≡ self.old.cells.items) }
        ensures tasks { OnOk result (self.new.tasks.items ≡ self.old.tasks.items ++ tasks.now) }
        ensures err { IfErr result (λ stop. stop ≡ NoMemory) }
    {
        self.tasks.extend_from_slice(tasks)?;
        Ok(())
    }

    /// Adds what follows a cell; what stands in it may be nested at most so
    /// deep.
    fn follow(&mut self, following: Following, inner: u32) -> Result<(), Stop>
        ensures cells { OnOk result (self.new.cells.items ≡ self.old.cells.items) }
        ensures tasks { OnOk result (self.new.tasks.items
            ≡ self.old.tasks.items ++ following_tasks inner following) }
        ensures err { IfErr result (λ stop. stop ≡ NoMemory) }
    {
        let expression = Task::Expression(inner);
        let close = Task::Mark(Mark::Close);
        match following {
            Following::Nothing => self.expect(&[]),
            Following::Arguments => self.expect(&[Task::First(ListOf::Arguments, inner)]),
            Following::One => self.expect(&[close, expression]),
            Following::Two(between) => {
                self.expect(&[close, expression, Task::Mark(between), expression])
            }
            Following::Branches => self.expect(&[
                Task::First(ListOf::Branches, inner),
                Task::Mark(Mark::Branches),
                expression,
            ]),
            Following::Element => self.expect(&[Task::Next(ListOf::Arguments, inner), expression]),
            Following::Branch => self.expect(&[
                Task::Next(ListOf::Branches, inner),
                close,
                expression,
                Task::Pattern,
            ]),
        }
    }

    /// Adds a cell and what follows it.
    fn put(&mut self, opening: Opening, inner: u32) -> Result<(), Stop>
        ensures cells { OnOk result (self.new.cells.items
            ≡ self.old.cells.items ++ opening.cell ∷ []) }
        ensures tasks { OnOk result (self.new.tasks.items
            ≡ self.old.tasks.items ++ following_tasks inner opening.following) }
        ensures err { IfErr result (λ stop. stop ≡ NoMemory) }
    {
        self.cells.push(opening.cell)?;
        self.follow(opening.following, inner)
    }

    /// Adds the variables of a pattern.
    fn put_variables(&mut self, variables: &[u64]) -> Result<(), Stop>
        ensures cells { OnOk result (self.new.cells.items
            ≡ self.old.cells.items ++ spell_variables variables.now) }
        ensures tasks { OnOk result (self.new.tasks.items ≡ self.old.tasks.items) }
        ensures err { IfErr result (λ stop. stop ≡ NoMemory) }
    {
        let mut left = variables;
        while let [first, others @ ..] = left {
            self.cells.push(ExpressionCell::Bound(*first))?;
            left = others;
        }
        self.cells.push(ExpressionCell::EndOfVariables)?;
        Ok(())
    }

    /// Adds a pattern.
    fn put_pattern(&mut self, pattern: &BranchPattern) -> Result<(), Stop>
        ensures cells { OnOk result (self.new.cells.items
            ≡ self.old.cells.items ++ spell_pattern (pattern_tree pattern.now)) }
        ensures tasks { OnOk result (self.new.tasks.items ≡ self.old.tasks.items) }
        ensures err { IfErr result (λ stop. stop ≡ NoMemory) }
    {
        match pattern {
            BranchPattern::Built(entity, variables) => {
                self.cells.push(ExpressionCell::Pattern(*entity))?;
                self.put_variables(variables.as_slice())
            }
            BranchPattern::Exactly(literal) => {
                self.cells.push(ExpressionCell::LPattern(*literal))?;
                Ok(())
            }
        }
    }

    /// Does a task.
    fn step(&mut self, task: Task, cursor: &mut Cursor<'_>, names: &mut Names) -> Result<(), Stop>
        ensures gives { Goes result names.new self.old.cells.items
            (task ∷ reverse self.old.tasks.items) cursor.old.rest.now self.new.cells.items
            self.new.tasks.items cursor.new.rest.now }
        ensures known { OnOk result (All (HasCell names.old) self.old.cells.items
            → All (HasCell names.new) self.new.cells.items) }
        ensures names { Extends names.old names.new }
        ensures shorter { OnOk result (length cursor.new.rest.now ≤ length cursor.old.rest.now) }
        ensures fewer { OnOk result (steps_left self.new.tasks.items cursor.new.rest.now
            < steps_left (task ∷ self.old.tasks.items) cursor.old.rest.now) }
    {
        match task {
            Task::Expression(depth) => self.expression(depth, cursor, names),
            Task::Mark(mark) => cursor.word(mark.text()),
            Task::Pattern => self.branch(cursor, names),
            Task::First(of, depth) => self.first(of, depth, cursor),
            Task::Next(of, depth) => self.next(of, depth, cursor),
        }
    }

    /// Begins an expression, nested at most so deep.
    fn expression(
        &mut self,
        depth: u32,
        cursor: &mut Cursor<'_>,
        names: &mut Names,
    ) -> Result<(), Stop>
        ensures gives { Goes result names.new self.old.cells.items
            (task.Expression depth ∷ reverse self.old.tasks.items) cursor.old.rest.now
            self.new.cells.items self.new.tasks.items cursor.new.rest.now }
        ensures known { OnOk result (All (HasCell names.old) self.old.cells.items
            → All (HasCell names.new) self.new.cells.items) }
        ensures names { Extends names.old names.new }
        ensures shorter { OnOk result (length cursor.new.rest.now ≤ length cursor.old.rest.now) }
        ensures fewer { OnOk result (steps_left self.new.tasks.items cursor.new.rest.now
            < steps_left (task.Expression depth ∷ self.old.tasks.items) cursor.old.rest.now) }
    {
        let found = begin_expression(depth, self.alloc, cursor, names)?;
        self.put(found, depth.saturating_sub(1))
    }

    /// Reads the pattern of a branch.
    fn branch(&mut self, cursor: &mut Cursor<'_>, names: &mut Names) -> Result<(), Stop>
        ensures gives { Goes result names.new self.old.cells.items
            (task.Pattern ∷ reverse self.old.tasks.items) cursor.old.rest.now
            self.new.cells.items self.new.tasks.items cursor.new.rest.now }
        ensures known { OnOk result (All (HasCell names.old) self.old.cells.items
            → All (HasCell names.new) self.new.cells.items) }
        ensures names { Extends names.old names.new }
        ensures shorter { OnOk result (length cursor.new.rest.now ≤ length cursor.old.rest.now) }
        ensures fewer { OnOk result (steps_left self.new.tasks.items cursor.new.rest.now
            < steps_left (task.Pattern ∷ self.old.tasks.items) cursor.old.rest.now) }
    {
        let pattern = branch_pattern(self.alloc, cursor, names)?;
        self.put_pattern(&pattern)
    }

    /// Begins the elements of a list.
    fn first(&mut self, of: ListOf, depth: u32, cursor: &mut Cursor<'_>) -> Result<(), Stop>
        ensures gives { (names : List (List ℕ)) → Goes result names self.old.cells.items
            (task.First of depth ∷ reverse self.old.tasks.items) cursor.old.rest.now
            self.new.cells.items self.new.tasks.items cursor.new.rest.now }
        ensures known { (names : List (List ℕ)) → OnOk result
            (All (HasCell names) self.old.cells.items → All (HasCell names) self.new.cells.items) }
        ensures shorter { OnOk result (length cursor.new.rest.now ≤ length cursor.old.rest.now) }
        ensures fewer { OnOk result (steps_left self.new.tasks.items cursor.new.rest.now
            < steps_left (task.First of depth ∷ self.old.tasks.items) cursor.old.rest.now) }
    {
        let more = cursor.begins()?;
        self.put(element(of, more), depth)
    }

    /// Goes on with the elements of a list.
    fn next(&mut self, of: ListOf, depth: u32, cursor: &mut Cursor<'_>) -> Result<(), Stop>
        ensures gives { (names : List (List ℕ)) → Goes result names self.old.cells.items
            (task.Next of depth ∷ reverse self.old.tasks.items) cursor.old.rest.now
            self.new.cells.items self.new.tasks.items cursor.new.rest.now }
        ensures known { (names : List (List ℕ)) → OnOk result
            (All (HasCell names) self.old.cells.items → All (HasCell names) self.new.cells.items) }
        ensures shorter { OnOk result (length cursor.new.rest.now ≤ length cursor.old.rest.now) }
        ensures fewer { OnOk result (steps_left self.new.tasks.items cursor.new.rest.now
            < steps_left (task.Next of depth ∷ self.old.tasks.items) cursor.old.rest.now) }
    {
        let more = cursor.goes_on()?;
        self.put(element(of, more), depth)
    }
}

/// The cells that a task reads.
fn cells(
    alloc: Global,
    task: Task,
    cursor: &mut Cursor<'_>,
    names: &mut Names,
) -> Result<Vec<ExpressionCell>, Stop>
    ensures gives { Gives (λ cells. map (label names.new) cells.items) result
        cursor.new.rest.now (tasks_at (task ∷ []) cursor.old.rest.now) }
    ensures known { IfOk result (λ cells. All (HasCell names.new) cells.items) }
    ensures names { Extends names.old names.new }
    ensures shorter { OnOk result (length cursor.new.rest.now ≤ length cursor.old.rest.now) }
{
    let tasks = vec![in alloc; task]?;
    let mut expressions = Expressions {
        alloc,
        cells: Vec::new(alloc),
        tasks,
    };
    while let Some(next) = expressions.tasks.pop() {
        expressions.step(next, cursor, names)?;
    }
    Ok(expressions.cells)
}

/// An expression.
pub(crate) fn expression_at(
    alloc: Global,
    cursor: &mut Cursor<'_>,
    names: &mut Names,
) -> Result<FlatExpression, Stop>
    ensures gives { Gives (expression_of names.new) result cursor.new.rest.now
        (expression_at most_nested cursor.old.rest.now) }
    ensures known { IfOk result (HasExpression names.new) }
    ensures names { Extends names.old names.new }
    ensures shorter { OnOk result (length cursor.new.rest.now ≤ length cursor.old.rest.now) }
{
    let cells = cells(alloc, Task::Expression(MOST_NESTED), cursor, names)?;
    Ok(FlatExpression::spelled(cells))
}
