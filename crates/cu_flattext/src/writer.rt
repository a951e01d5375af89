//! The writing of a module, a piece of its text at a time.
ghost use Rattle.std.specs.Prelude.{◌≡◌, ◌++◌, IfOk, OnErr, OnOk};
ghost use Rattle.cu_flattext.specs.Inside.LineTasks.{all_left};
ghost use Rattle.cu_flattext.specs.Written.{Adds, AddsPrefix, HasCause};

use crate::expressions::Expressions;
use crate::fault::PrintFault;
use crate::inferred::InferredType;
use crate::line::Work;
use crate::module_text::ModuleText;
use crate::page::Page;
use crate::types::Types;
use cu_io::Sink;
use std::alloc::AllocError;

/// What is left to be written: tasks for expressions, then for types, then for
/// inferred types, and then lines. The next line is begun where no task is
/// left.
#[derive(Drop)]
pub(crate) struct Writer<'p> {
    pub(crate) expressions: Expressions<'p>,
    pub(crate) types: Types<'p>,
    pub(crate) inferred: InferredType<'p>,
    pub(crate) lines: ModuleText<'p>,
}

impl<'p> Writer<'p> {
    ghost use Rattle.std.specs.Prelude.{◌≡◌, [], false, IfOk, OnOk};
    ghost use Rattle.cu_flattext.specs.Inside.LineTasks.{all_left, left_after};
    ghost use Rattle.cu_flattext.specs.Inside.Tasks.{Writes};

    /// Writes a task. Answers whether there was one.
    pub(crate) fn step(&mut self, page: &mut Page) -> Result<bool, AllocError>
        ensures writes { OnOk result (Writes page.old.text.items (all_left self.old)
            page.new.text.items (all_left self.new)) }
        ensures ends { IfOk result (λ goes_on. goes_on ≡ false → all_left self.new ≡ []) }
    {
        let Some(task) = self.expressions.tasks.pop() else {
            return self.step_type(page);
        };
        self.expressions.step(task, page)?;
        Ok(true)
    }

    /// Writes a task for types, inferred types or lines, where no expression is
    /// left. Answers whether there was one.
    fn step_type(&mut self, page: &mut Page) -> Result<bool, AllocError>
        requires { self.old.expressions.tasks.items ≡ [] }
        ensures writes { OnOk result (Writes page.old.text.items (all_left self.old)
            page.new.text.items (all_left self.new)) }
        ensures ends { IfOk result (λ goes_on. goes_on ≡ false → all_left self.new ≡ []) }
    {
        let Some(task) = self.types.tasks.pop() else {
            return self.step_inferred(page);
        };
        self.types.step(task, page)?;
        Ok(true)
    }

    /// Writes a task for inferred types or lines, where neither expressions nor
    /// types of declarations are left. Answers whether there was one.
    fn step_inferred(&mut self, page: &mut Page) -> Result<bool, AllocError>
        requires expressions { self.old.expressions.tasks.items ≡ [] }
        requires types { self.old.types.tasks.items ≡ [] }
        ensures writes { OnOk result (Writes page.old.text.items (all_left self.old)
            page.new.text.items (all_left self.new)) }
        ensures ends { IfOk result (λ goes_on. goes_on ≡ false → all_left self.new ≡ []) }
    {
        let Some(task) = self.inferred.tasks.pop() else {
            return self.step_line(page);
        };
        self.inferred.step(task, page)?;
        Ok(true)
    }

    /// Writes a part of a line, where neither expressions nor types are left.
    /// Answers whether there was one.
    fn step_line(&mut self, page: &mut Page) -> Result<bool, AllocError>
        requires expressions { self.old.expressions.tasks.items ≡ [] }
        requires types { self.old.types.tasks.items ≡ [] }
        requires inferred { self.old.inferred.tasks.items ≡ [] }
        ensures writes { OnOk result (Writes page.old.text.items (all_left self.old)
            page.new.text.items (all_left self.new)) }
        ensures ends { IfOk result (λ goes_on. goes_on ≡ false → all_left self.new ≡ []) }
    {
        let Some(part) = self.lines.lines.pop() else {
            return Ok(false);
        };
        let work = self.lines.step(part, page)?;
        self.begin(work);
        Ok(true)
    }

    /// Begins what is to be written before the next line.
    fn begin(&mut self, work: Work<'p>)
        requires expressions { self.old.expressions.tasks.items ≡ [] }
        requires types { self.old.types.tasks.items ≡ [] }
        requires inferred { self.old.inferred.tasks.items ≡ [] }
        ensures { all_left self.new ≡ left_after work.entry self.old.lines }
    {
        match work {
            Work::Nothing => {}
            Work::Types(types) => self.types = types,
            Work::Inferred(inferred) => self.inferred = inferred,
            Work::Expressions(expressions) => self.expressions = expressions,
        }
    }
}

/// Writes all that is left. More tasks than a `u64` counts count as an
/// allocation failure.
pub(crate) fn write_all<S: Sink>(
    writer: &mut Writer<'_>,
    page: &mut Page,
    sink: &mut S,
) -> Result<(), PrintFault>
    ensures whole { OnOk result (Adds (S.written sink.old) (S.written sink.new)
        (page.old.text.items ++ all_left writer.old)) }
    ensures prefix { OnErr result (AddsPrefix (S.written sink.old) (S.written sink.new)
        (page.old.text.items ++ all_left writer.old)) }
    ensures cause { HasCause result (S.fault_count sink.old) (S.fault_count sink.new) }
{
    'tasks: for _ in 0..u64::MAX {
        if !writer.step(page)? {
            return page.flush(sink);
        }
        page.flush_long(sink)?;
    }
    Err(PrintFault::NoMemory)
}
