//! The walk over a value that displays it.
use crate::Cell;
use crate::labels::ProgramNames;
use crate::literals::{push_literal, push_variable};
use crate::names::{push_constructor, push_partial};
use crate::shape::Shape;
use crate::string::push_string;
use crate::task::{Pen, Task};
use crate::walk::end_of;
use cu_kernel::ConId;
use std::alloc::AllocError;

/// The cells of a value, and the shapes of the values that begin at them.
#[derive(Clone, Copy)]
pub(crate) struct Layout<'a> {
    pub(crate) names: &'a ProgramNames<'a>,
    pub(crate) cells: &'a [Cell],
    pub(crate) shapes: &'a [Shape],
}

impl Layout<'_> {
    ghost use Rattle.std.specs.Prelude.{◌≡◌, true, IfOk, slice_index_or};
    ghost use Rattle.cu_values.specs.Inside.Layouts.{Awaits, Begun, IsShaped};
    ghost use Rattle.cu_values.specs.Inside.Shapes.{is_no_list};

    /// Writes a part of the display, whose values begin at the cell `at`, pushes
    /// what it leaves to do onto the pen's tasks, and answers the index of the
    /// cell that was reached.
    pub(crate) fn step(&self, at: usize, task: Task, pen: &mut Pen) -> Result<usize, AllocError>
        requires shapes { IsShaped self.now }
        requires ready { Awaits self.now at pen.old task }
        ensures { IfOk result (λ next. Begun self.now 1 at task pen.old next pen.new) }
    {
        match task {
            Task::Alone => self.value(at, pen),
            Task::Argument => self.argument(at, pen),
            Task::Arguments(count) => self.arguments(at, count, pen),
            Task::Components(count) => self.components(at, count, pen),
            Task::Elements => self.elements(at, pen),
            Task::OpenRest => self.open_rest(at, pen),
            Task::ClosingParenthesis => {
                pen.text.push_str(")")?;
                Ok(at)
            }
            Task::ClosingBracket => {
                pen.text.push_str("]")?;
                Ok(at)
            }
        }
    }

    /// Begins the display of the value that begins at the cell `at`.
    fn value(&self, at: usize, pen: &mut Pen) -> Result<usize, AllocError>
        requires shapes { IsShaped self.now }
        requires ready { Awaits self.now at pen.old Task.Alone }
        ensures { IfOk result (λ next. Begun self.now 6 at Task.Alone pen.old next pen.new) }
    {
        match self.cells[at] {
            Cell::Bottom => Ok(at + 1),
            Cell::LVar(number) => {
                push_variable(&mut pen.text, number)?;
                Ok(at + 1)
            }
            Cell::Lit(literal) => {
                push_literal(&mut pen.text, literal)?;
                Ok(at + 1)
            }
            Cell::Con(constructor, arity) => self.constructed(at, constructor, arity, pen),
            Cell::Part(head, _) => {
                push_partial(&mut pen.text, self.names, head)?;
                Ok(end_of(self.cells, at))
            }
        }
    }

    /// Begins the display of a constructor with arguments.
    fn constructed(
        &self,
        at: usize,
        constructor: ConId,
        arity: u32,
        pen: &mut Pen,
    ) -> Result<usize, AllocError>
        requires shapes { IsShaped self.now }
        requires ready { Awaits self.now at pen.old Task.Alone }
        requires cell { slice_index_or self.now.cells.now at Cell.Bottom
            ≡ Cell.Con constructor arity }
        ensures { IfOk result (λ next. Begun self.now 6 at Task.Alone pen.old next pen.new) }
    {
        match self.shapes[at] {
            Shape::Text => self.string(at, pen),
            Shape::Empty => {
                pen.text.push_str("[]")?;
                Ok(at + 1)
            }
            Shape::List => {
                pen.text.push_str("[")?;
                pen.tasks.push(Task::ClosingBracket)?;
                pen.tasks.push(Task::Elements)?;
                pen.tasks.push(Task::Alone)?;
                Ok(at + 1)
            }
            Shape::Open => {
                pen.tasks.push(Task::OpenRest)?;
                pen.tasks.push(Task::Argument)?;
                Ok(at + 1)
            }
            _ => self.other(at, constructor, arity, pen),
        }
    }

    /// Writes the list of characters that begins at the cell `at` as a string in
    /// quotes.
    fn string(&self, at: usize, pen: &mut Pen) -> Result<usize, AllocError>
        requires shapes { IsShaped self.now }
        requires ready { Awaits self.now at pen.old Task.Alone }
        requires shape { slice_index_or self.now.shapes.now at Shape.Character ≡ Shape.Text }
        ensures { IfOk result (λ next. Begun self.now 6 at Task.Alone pen.old next pen.new) }
    {
        pen.text.push_str("\"")?;
        let next = push_string(&mut pen.text, self.cells, at)?;
        pen.text.push_str("\"")?;
        Ok(next)
    }

    /// Begins the display of a constructor with arguments that is no list.
    fn other(
        &self,
        at: usize,
        constructor: ConId,
        arity: u32,
        pen: &mut Pen,
    ) -> Result<usize, AllocError>
        requires shapes { IsShaped self.now }
        requires ready { Awaits self.now at pen.old Task.Alone }
        requires cell { slice_index_or self.now.cells.now at Cell.Bottom
            ≡ Cell.Con constructor arity }
        requires shape { is_no_list (slice_index_or self.now.shapes.now at Shape.Character) ≡ true }
        ensures { IfOk result (λ next. Begun self.now 6 at Task.Alone pen.old next pen.new) }
    {
        if self.names.is_tuple(constructor) {
            pen.text.push_str("(")?;
            pen.tasks.push(Task::ClosingParenthesis)?;
            if arity == 0 {
                return Ok(at + 1);
            }
            pen.tasks.push(Task::Components(arity - 1))?;
            pen.tasks.push(Task::Alone)?;
            return Ok(at + 1);
        }
        push_constructor(&mut pen.text, self.names.constructor(constructor))?;
        pen.tasks.push(Task::Arguments(arity))?;
        Ok(at + 1)
    }

    /// Begins the display of an argument, in parentheses where it takes them.
    fn argument(&self, at: usize, pen: &mut Pen) -> Result<usize, AllocError>
        requires shapes { IsShaped self.now }
        requires ready { Awaits self.now at pen.old Task.Argument }
        ensures { IfOk result (λ next. Begun self.now 5 at Task.Argument pen.old next pen.new) }
    {
        if !self.shapes[at].takes_parentheses() {
            return self.value(at, pen);
        }
        pen.text.push_str("(")?;
        pen.tasks.push(Task::ClosingParenthesis)?;
        self.value(at, pen)
    }

    /// Begins the first of the arguments that are left, after a space.
    fn arguments(&self, at: usize, count: u32, pen: &mut Pen) -> Result<usize, AllocError>
        requires shapes { IsShaped self.now }
        requires ready { Awaits self.now at pen.old (Task.Arguments count) }
        ensures { IfOk result (λ next.
            Begun self.now 1 at (Task.Arguments count) pen.old next pen.new) }
    {
        if count == 0 {
            return Ok(at);
        }
        pen.text.push_str(" ")?;
        pen.tasks.push(Task::Arguments(count - 1))?;
        self.argument(at, pen)
    }

    /// Begins the first of the components of a tuple that are left, after a
    /// comma.
    fn components(&self, at: usize, count: u32, pen: &mut Pen) -> Result<usize, AllocError>
        requires shapes { IsShaped self.now }
        requires ready { Awaits self.now at pen.old (Task.Components count) }
        ensures { IfOk result (λ next.
            Begun self.now 1 at (Task.Components count) pen.old next pen.new) }
    {
        if count == 0 {
            return Ok(at);
        }
        pen.text.push_str(",")?;
        pen.tasks.push(Task::Components(count - 1))?;
        self.value(at, pen)
    }

    /// Begins what follows an element of a list that has an end: a comma and
    /// the next element, or nothing.
    fn elements(&self, at: usize, pen: &mut Pen) -> Result<usize, AllocError>
        requires shapes { IsShaped self.now }
        requires ready { Awaits self.now at pen.old Task.Elements }
        ensures { IfOk result (λ next. Begun self.now 1 at Task.Elements pen.old next pen.new) }
    {
        if self.cells[at].arity() == 0 {
            return Ok(at + 1);
        }
        pen.text.push_str(",")?;
        pen.tasks.push(Task::Elements)?;
        pen.tasks.push(Task::Alone)?;
        Ok(at + 1)
    }

    /// Begins what follows an element of a list that ends in a variable: a
    /// colon, and the next element or the variable.
    fn open_rest(&self, at: usize, pen: &mut Pen) -> Result<usize, AllocError>
        requires shapes { IsShaped self.now }
        requires ready { Awaits self.now at pen.old Task.OpenRest }
        ensures { IfOk result (λ next. Begun self.now 1 at Task.OpenRest pen.old next pen.new) }
    {
        pen.text.push_str(":")?;
        if let Cell::LVar(number) = self.cells[at] {
            push_variable(&mut pen.text, number)?;
            return Ok(at + 1);
        }
        pen.tasks.push(Task::OpenRest)?;
        pen.tasks.push(Task::Argument)?;
        Ok(at + 1)
    }
}
