//! The writing of inferred types.
ghost use Rattle.std.specs.Prelude.{◌≡◌, option_map, slice_get};

use crate::page::Page;
use crate::type_table::TypeTable;
use crate::types::push_parameter;
use crate::wording::Wording;
use cu_kernel::{FunId, TypeName};
use cu_types::{Interface, Node, SharedType, TypeHead};
use std::alloc::{AllocError, Global};

/// A part of the text of an inferred type that is still to be written. Types
/// are named by their indices in the table.
#[derive(Clone, Copy)]
pub(crate) enum InferredTask<'p> {
    /// The text of a type.
    Type(usize),
    /// The texts of types, with whether an element stands before them.
    Types(&'p [usize], bool),
    /// A text as it is.
    Text(&'static str),
}

/// The tasks that are left while an inferred type is written, as a stack.
#[derive(Drop)]
pub(crate) struct InferredType<'p> {
    pub(crate) wording: Wording<'p>,
    pub(crate) table: TypeTable<'p>,
    /// How many type variables the type has, with the numbers from 0 on.
    pub(crate) count: usize,
    pub(crate) tasks: Vec<InferredTask<'p>>,
}

impl<'p> InferredType<'p> {
    ghost use Rattle.std.specs.Prelude.{◌≡◌, ◌++◌, [], IfOk, OnOk, map};
    ghost use Rattle.cu_kernel.specs.TypeExpr as type;
    ghost use Rattle.cu_types.specs.Inference.{type_in};
    ghost use Rattle.cu_types.specs.Table.{shape_of};
    ghost use Rattle.cu_types.specs.declared.node.TypeHead.TheVariants as head;
    ghost use Rattle.cu_flattext.specs.Inside.InferredTasks.{inferred_left, inferred_left_after, inferred_left_with, text_at, text_of_type, type_at, type_of_shape, type_with};
    ghost use Rattle.cu_flattext.specs.Inside.Stands.{lowered_of};
    ghost use Rattle.cu_flattext.specs.Inside.Tasks.{Writes};
    ghost use Rattle.cu_flattext.specs.Naming.{type_entity};
    ghost use Rattle.cu_flattext.specs.TypeTexts.{constructed_text, inferred_type_text};
    ghost use Rattle.cu_flattext.specs.declared.inferred.InferredTask.TheVariants as task;

    /// The state in which no task is left.
    pub(crate) fn none(alloc: Global, wording: Wording<'p>) -> InferredType<'p>
        ensures { result.tasks.items ≡ [] }
    {
        InferredType {
            wording,
            table: TypeTable::empty(),
            count: 0,
            tasks: Vec::new(alloc),
        }
    }

    /// The state in which the type of a function is to be written; a type
    /// variable where none is known.
    pub(crate) fn of_function(
        alloc: Global,
        wording: Wording<'p>,
        f: FunId,
    ) -> Result<InferredType<'p>, AllocError>
        ensures { IfOk result (λ made. inferred_left made
            ≡ inferred_type_text (lowered_of wording.entry)
            (type_in wording.entry.interface.now f)) }
    {
        match type_of_function(wording.interface, f) {
            Some(inferred) => InferredType::of(alloc, wording, inferred),
            None => InferredType::unknown(alloc, wording),
        }
    }

    /// The state in which a type that was inferred is to be written.
    fn of(
        alloc: Global,
        wording: Wording<'p>,
        inferred: &'p SharedType,
    ) -> Result<InferredType<'p>, AllocError>
        ensures { IfOk result (λ made. inferred_left made
            ≡ inferred_type_text (lowered_of wording.entry) inferred.now) }
    {
        let count = inferred.breadth(alloc)?;
        let opened = inferred.open();
        let mut tasks = Vec::new(alloc);
        tasks.push(InferredTask::Type(opened.place))?;
        Ok(InferredType {
            wording,
            table: TypeTable::new(opened.types),
            count,
            tasks,
        })
    }

    /// The state in which a type variable is to be written.
    fn unknown(alloc: Global, wording: Wording<'p>) -> Result<InferredType<'p>, AllocError>
        ensures { IfOk result (λ made. inferred_left made
            ≡ inferred_type_text (lowered_of wording.entry) (type.Variable 0)) }
    {
        let mut tasks = Vec::new(alloc);
        tasks.push(InferredTask::Type(0))?;
        Ok(InferredType {
            wording,
            table: TypeTable::empty(),
            count: 1,
            tasks,
        })
    }

    /// Writes what a task begins with, and pushes the tasks that it leaves.
    pub(crate) fn step(&mut self, task: InferredTask<'p>, page: &mut Page) -> Result<(), AllocError>
        ensures { OnOk result (Writes page.old.text.items (inferred_left_with task.entry self.old)
            page.new.text.items (inferred_left self.new)) }
    {
        match task {
            InferredTask::Type(place) => self.form(place, page),
            InferredTask::Types(places, follows) => self.types(places, follows, page),
            InferredTask::Text(text) => page.push_str(text),
        }
    }

    /// Writes the type with an index; a type variable where there is none.
    fn form(&mut self, place: usize, page: &mut Page) -> Result<(), AllocError>
        ensures { OnOk result (Writes page.old.text.items
            (inferred_left_after (text_at self.old place) self.old)
            page.new.text.items (inferred_left self.new)) }
    {
        match self.table.get(place) {
            Some(node) => self.node(node, page),
            None => push_parameter(page, 0, self.count),
        }
    }

    /// Writes a type, by its form.
    fn node(&mut self, node: &'p Node, page: &mut Page) -> Result<(), AllocError>
        ensures { OnOk result (Writes page.old.text.items
            (inferred_left_after (text_of_type self.old
            (type_of_shape self.old (shape_of node.now))) self.old)
            page.new.text.items (inferred_left self.new)) }
    {
        match node {
            Node::Variable(x) => push_parameter(page, *x, self.count),
            Node::Applied(head, arguments) => self.applied(*head, arguments.as_slice(), page),
        }
    }

    /// Writes a head with its arguments.
    fn applied(
        &mut self,
        head: TypeHead,
        arguments: &'p [usize],
        page: &mut Page,
    ) -> Result<(), AllocError>
        ensures { OnOk result (Writes page.old.text.items
            (inferred_left_after (text_of_type self.old (type_with self.old head arguments.now))
            self.old)
            page.new.text.items (inferred_left self.new)) }
    {
        match head {
            TypeHead::Arrow => self.arrow(arguments, page),
            TypeHead::Named(name) => self.named(name, arguments, page),
        }
    }

    /// Writes a type of functions; a type variable where there are not two
    /// arguments.
    fn arrow(&mut self, arguments: &[usize], page: &mut Page) -> Result<(), AllocError>
        ensures { OnOk result (Writes page.old.text.items
            (inferred_left_after (text_of_type self.old
            (type_with self.old head.Arrow arguments.now)) self.old)
            page.new.text.items (inferred_left self.new)) }
    {
        if arguments.len() != 2 {
            return push_parameter(page, 0, self.count);
        }
        self.functions(arguments[0], arguments[1], page)
    }

    /// Writes the type of functions from the type with one index to the type
    /// with another.
    fn functions(
        &mut self,
        argument: usize,
        value: usize,
        page: &mut Page,
    ) -> Result<(), AllocError>
        ensures { OnOk result (Writes page.old.text.items
            (inferred_left_after (text_of_type self.old
            (type.Arrow (type_at self.old.table argument) (type_at self.old.table value))) self.old)
            page.new.text.items (inferred_left self.new)) }
    {
        page.push_str("FuncType (")?;
        self.tasks.push(InferredTask::Text(")"))?;
        self.tasks.push(InferredTask::Type(value))?;
        self.tasks.push(InferredTask::Text(") ("))?;
        self.tasks.push(InferredTask::Type(argument))?;
        Ok(())
    }

    /// Writes a name with its arguments.
    fn named(
        &mut self,
        name: TypeName,
        arguments: &'p [usize],
        page: &mut Page,
    ) -> Result<(), AllocError>
        ensures { OnOk result (Writes page.old.text.items
            (inferred_left_after (constructed_text
            (type_entity (lowered_of self.old.wording) name)
            (map (text_at self.old) arguments.now)) self.old)
            page.new.text.items (inferred_left self.new)) }
    {
        page.push_str("TCons ")?;
        page.push_entity(self.wording.named_type(name))?;
        page.push_str(" [")?;
        self.tasks.push(InferredTask::Text("]"))?;
        self.tasks.push(InferredTask::Types(arguments, false))?;
        Ok(())
    }

    /// Writes types.
    #[tactic(auto, using(crate::proofs::ElementLemmas::element_steps))]
    fn types(
        &mut self,
        places: &'p [usize],
        follows: bool,
        page: &mut Page,
    ) -> Result<(), AllocError>
        ensures { OnOk result (Writes page.old.text.items
            (inferred_left_with (task.Types places.entry follows) self.old)
            page.new.text.items (inferred_left self.new)) }
    {
        match places {
            [] => Ok(()),
            [first, others @ ..] => {
                page.push_comma(follows)?;
                self.tasks.push(InferredTask::Types(others, true))?;
                self.tasks.push(InferredTask::Type(*first))?;
                Ok(())
            }
        }
    }
}

/// The type of a function, where the interface has one.
fn type_of_function(interface: &Interface, f: FunId) -> Option<&SharedType>
    ensures { option_map (λ t. t.now) result ≡ slice_get interface.now f.0 }
{
    interface.types().get(f.0)
}
