//! Reading a type with a stack of its own, so that no type is too deep.
ghost use Rattle.std.specs.Prelude.{◌≡◌, ◌≤◌, ◌++◌, ◌∷◌, [], IfOk, List, OnOk, drop, length, map, reverse, take};
ghost use Rattle.cu_kernel.specs.TypeExpr.{TypeExpr};
ghost use Rattle.cu_kernel.specs.TypesOf.{type_of};
ghost use Rattle.cu_types.specs.Inside.Reading.{IsReader, Reads, shapes};
ghost use Rattle.cu_types.specs.Inside.Tasks as step;
ghost use Rattle.cu_types.specs.Inside.Tasks.{ReaderProceeds, ReaderReads, step_of, steps_of};
ghost use Rattle.cu_types.specs.Table.{Shape};

use crate::TypeHead;
use crate::reader::Reader;
use cu_kernel::TypeTerm;
use std::alloc::{AllocError, Global};

/// What is still to do of a type that is read.
#[derive(Clone, Copy)]
pub(crate) enum Reading<'t> {
    /// To read a type.
    Read(&'t TypeTerm),
    /// To apply a head to the types that were made last, so many of them.
    Apply(TypeHead, usize),
}

/// Adds the tasks to read these types.
fn push_types<'t>(tasks: &mut Vec<Reading<'t>>, types: &'t [TypeTerm]) -> Result<(), AllocError>
    ensures { OnOk result (map step_of tasks.new.items
        ≡ map step_of tasks.old.items ++ map (λ t. step.Read (type_of t)) types.now) }
{
    for term in types {
        tasks.push(Reading::Read(term))?;
    }
    Ok(())
}

/// Takes off the places that were added last, so many of them, the last one
/// first.
fn take_last(alloc: Global, places: &mut Vec<usize>, count: usize) -> Result<Vec<usize>, AllocError>
    requires { count ≤ length places.old.items }
    ensures taken { IfOk result (λ taken. taken.items ≡ take count (reverse places.old.items)) }
    ensures left { OnOk result (reverse places.new.items ≡ drop count (reverse places.old.items)) }
{
    let mut taken = Vec::with_capacity(alloc, count)?;
    for index in 0..count {
        taken.push(places[places.len() - 1 - index])?;
    }
    places.truncate(places.len() - count);
    Ok(taken)
}

impl Reader {
    /// Reads a type down to its arguments.
    #[tactic(auto, using(cu_kernel::specs::TypesOf::types_of_variants))]
    fn begin<'t>(
        &mut self,
        tasks: &mut Vec<Reading<'t>>,
        places: &mut Vec<usize>,
        term: &'t TypeTerm,
    ) -> Result<(), AllocError>
        requires { IsReader self.old }
        ensures { OnOk result ((before : List Shape) (t : TypeExpr)
            → ReaderReads before t self.old
            (step.Read (type_of term.now) ∷ steps_of tasks.old.items)
            places.old.items
            → ReaderProceeds before t (step.Read (type_of term.now) ∷ steps_of tasks.old.items)
            self.new tasks.new.items places.new.items) }
    {
        match term {
            TypeTerm::Var(x) => {
                let place = self.variable(*x)?;
                places.push(place)?;
                Ok(())
            }
            TypeTerm::Arrow(argument, result_type) => {
                tasks.push(Reading::Apply(TypeHead::Arrow, 2))?;
                tasks.push(Reading::Read(argument))?;
                tasks.push(Reading::Read(result_type))?;
                Ok(())
            }
            TypeTerm::Named(name, arguments) => {
                tasks.push(Reading::Apply(TypeHead::Named(*name), arguments.len()))?;
                push_types(tasks, arguments)?;
                Ok(())
            }
        }
    }

    /// Applies a head to the types that were made last.
    fn finish(
        &mut self,
        alloc: Global,
        places: &mut Vec<usize>,
        head: TypeHead,
        count: usize,
    ) -> Result<(), AllocError>
        requires { (before : List Shape) × (t : TypeExpr) × (steps : List step.Step)
            × ReaderReads before t self.old (step.Apply head count ∷ steps) places.old.items }
        ensures { OnOk result ((before : List Shape) (t : TypeExpr) (steps : List step.Step)
            → ReaderReads before t self.old (step.Apply head count ∷ steps) places.old.items
            → ReaderReads before t self.new steps places.new.items) }
    {
        let arguments = take_last(alloc, places, count)?;
        let place = self.apply(head, arguments)?;
        places.push(place)?;
        Ok(())
    }

    /// Does one task of reading.
    fn go_on<'t>(
        &mut self,
        alloc: Global,
        tasks: &mut Vec<Reading<'t>>,
        places: &mut Vec<usize>,
        task: Reading<'t>,
    ) -> Result<(), AllocError>
        requires { (before : List Shape) × (t : TypeExpr)
            × ReaderReads before t self.old (step_of task ∷ steps_of tasks.old.items)
            places.old.items }
        ensures { OnOk result ((before : List Shape) (t : TypeExpr)
            → ReaderReads before t self.old (step_of task.entry ∷ steps_of tasks.old.items)
            places.old.items
            → ReaderProceeds before t (step_of task.entry ∷ steps_of tasks.old.items) self.new
            tasks.new.items places.new.items) }
    {
        match task {
            Reading::Read(part) => {
                self.begin(tasks, places, part)?;
                Ok(())
            }
            Reading::Apply(head, count) => {
                self.finish(alloc, places, head, count)?;
                Ok(())
            }
        }
    }

    /// Reads a type into the table. Gives its place.
    pub(crate) fn read(&mut self, alloc: Global, term: &TypeTerm) -> Result<usize, AllocError>
        requires { IsReader self.old }
        ensures reader { OnOk result (IsReader self.new) }
        ensures read { IfOk result (Reads (shapes self.old) (shapes self.new) (type_of term.now)) }
    {
        let mut tasks = Vec::new(alloc);
        let mut places = Vec::new(alloc);
        tasks.push(Reading::Read(term))?;
        while let Some(task) = tasks.pop() {
            self.go_on(alloc, &mut tasks, &mut places, task)?;
        }
        Ok(places[0])
    }
}
