//! Types whose variables are numbered in the order in which they come first.
ghost use Rattle.std.specs.Prelude.{◌≡◌, ◌<◌, ◌≤◌, ◌++◌, ◌∷◌, [], ℕ, IfOk, List, None, OnOk, Some, length, map, nat_eq, reverse, slice_get};
ghost use Rattle.std.specs.List.{position_or_len};
ghost use Rattle.indexmap.specs.IndexMap.{get};
ghost use Rattle.cu_kernel.specs.TypeExpr as type;
ghost use Rattle.cu_types.specs.Inside.Numbering.{Goes, Joins, Proceeds, Pushes};
ghost use Rattle.cu_types.specs.Inside.Reading.{IsReader, shapes};
ghost use Rattle.cu_types.specs.Numbered.{all_noted, noted, numbered, variables_in};
ghost use Rattle.cu_types.specs.Table.{IsFull, IsTable, at, shape_of, trees};
ghost use Rattle.cu_types.specs.declared.order.Task.{Task};
ghost use Rattle.cu_types.specs.declared.order.Task.TheVariants as step;

use crate::order::Task;
use crate::reader::Reader;
use crate::{Node, SharedType, TypeHead};
use indexmap::{IndexMap, IndexSet};
use std::alloc::{AllocError, Global};

/// A walk over types of a table, in which the variables that it meets are
/// numbered.
#[derive(Drop)]
pub(crate) struct Numbering {
    /// The variables, in the order of their numbers.
    pub(crate) variables: IndexSet<u32>,
    /// The types with their variables numbered.
    pub(crate) made: Reader,
    /// Where the type of a place was made.
    pub(crate) known: IndexMap<usize, usize>,
    /// The places of the types that were made and don't stand in others yet.
    pub(crate) places: Vec<usize>,
}

/// Adds the tasks to enter the arguments of a type, in order, and to leave it
/// then.
fn push_tasks(tasks: &mut Vec<Task>, place: usize, arguments: &[usize]) -> Result<(), AllocError>
    ensures { OnOk result (reverse tasks.new.items ≡ map (λ a. step.Enter a) arguments.now
        ++ step.Leave place ∷ reverse tasks.old.items) }
{
    tasks.push(Task::Leave(place))?;
    let mut left = arguments.len();
    while left > 0 {
        left -= 1;
        tasks.push(Task::Enter(arguments[left]))?;
    }
    Ok(())
}

impl Numbering {
    /// The walk before it begins, in which no variable has a number.
    fn new(alloc: Global) -> Numbering
        ensures made { IsReader result.made }
        ensures variables { result.variables.keys ≡ [] }
        ensures known { (p : ℕ) → get nat_eq result.known p ≡ None }
        ensures places { result.places.items ≡ [] }
    {
        Numbering {
            variables: IndexSet::new(alloc),
            made: Reader::new(alloc),
            known: IndexMap::new(alloc),
            places: Vec::new(alloc),
        }
    }

    /// Makes the type of a variable by its number.
    fn variable(&mut self, x: u32) -> Result<(), AllocError>
        requires { IsReader self.old.made }
        ensures pushes { OnOk result (Pushes self.old self.new self.old.places.items
            (type.Variable (position_or_len (nat_eq x) self.old.variables.keys))) }
        ensures keys { OnOk result (self.new.variables.keys ≡ noted self.old.variables.keys x) }
        ensures known { OnOk result (self.new.known ≡ self.old.known) }
    {
        let inserted = self.variables.insert_full(x)?;
        let Ok(number) = u32::try_from(inserted.0) else {
            return Err(AllocError);
        };
        let made = self.made.variable(number)?;
        self.places.push(made)?;
        Ok(())
    }

    /// Makes the type of a place of the types that were made last, `count` of
    /// them.
    fn join(&mut self, place: usize, head: TypeHead, count: usize) -> Result<(), AllocError>
        requires reader { IsReader self.old.made }
        requires count { count ≤ length self.old.places.items }
        requires full { IsFull head count }
        requires within { (k m : ℕ) → slice_get self.old.places.items k ≡ Some m
            → m < length (shapes self.old.made) }
        ensures { OnOk result (Joins self.old self.new place head count) }
    {
        let found = self.places.split_off(self.places.len() - count)?;
        let made = self.made.apply(head, found)?;
        self.known.insert(place, made)?;
        self.places.push(made)?;
        Ok(())
    }

    /// Enters a place: its type was made before, is a variable, or is made
    /// after its arguments.
    fn enter(
        &mut self,
        tasks: &mut Vec<Task>,
        types: &[Node],
        place: usize,
    ) -> Result<(), AllocError>
        requires table { IsTable (map shape_of types.now) }
        requires goes { (root : ℕ) × (final : List ℕ) × Goes (map shape_of types.now) root final
            self.old (step.Enter place ∷ reverse tasks.old.items) }
        ensures { OnOk result ((root : ℕ) (final : List ℕ) → Goes (map shape_of types.now) root
            final self.old (step.Enter place ∷ reverse tasks.old.items)
            → Proceeds (map shape_of types.now) root final self.new
            (step.Enter place ∷ reverse tasks.old.items) (reverse tasks.new.items)) }
    {
        if let Some(made) = self.known.get(&place) {
            self.places.push(*made)?;
            return Ok(());
        }
        match &types[place] {
            Node::Variable(x) => {
                self.variable(*x)?;
                Ok(())
            }
            Node::Applied(_, arguments) => {
                push_tasks(tasks, place, arguments.as_slice())?;
                Ok(())
            }
        }
    }

    /// Leaves a place, whose arguments were made.
    fn leave(&mut self, types: &[Node], place: usize) -> Result<(), AllocError>
        requires table { IsTable (map shape_of types.now) }
        requires goes { (root : ℕ) × (final : List ℕ) × (tasks : List Task)
            × Goes (map shape_of types.now) root final self.old (step.Leave place ∷ tasks) }
        ensures { OnOk result ((root : ℕ) (final : List ℕ) (tasks : List Task)
            → Goes (map shape_of types.now) root final self.old (step.Leave place ∷ tasks)
            → Goes (map shape_of types.now) root final self.new tasks) }
    {
        match &types[place] {
            Node::Variable(_) => Ok(()),
            Node::Applied(head, arguments) => {
                self.join(place, *head, arguments.len())?;
                Ok(())
            }
        }
    }

    /// Does one task of the walk.
    fn step(&mut self, tasks: &mut Vec<Task>, types: &[Node], task: Task) -> Result<(), AllocError>
        requires table { IsTable (map shape_of types.now) }
        requires goes { (root : ℕ) × (final : List ℕ) × Goes (map shape_of types.now) root final
            self.old (task ∷ reverse tasks.old.items) }
        ensures { OnOk result ((root : ℕ) (final : List ℕ) → Goes (map shape_of types.now) root
            final self.old (task ∷ reverse tasks.old.items)
            → Proceeds (map shape_of types.now) root final self.new
            (task ∷ reverse tasks.old.items) (reverse tasks.new.items)) }
    {
        match task {
            Task::Enter(place) => {
                self.enter(tasks, types, place)?;
                Ok(())
            }
            Task::Leave(place) => {
                self.leave(types, place)?;
                Ok(())
            }
        }
    }
}

/// A type of a table with its variables numbered.
pub(crate) fn numbered(
    alloc: Global,
    types: &[Node],
    place: usize,
) -> Result<SharedType, AllocError>
    requires table { IsTable (map shape_of types.now) }
    requires within { place < length (map shape_of types.now) }
    ensures { IfOk result (λ shared. shared
        ≡ numbered (at (trees (map shape_of types.now)) place)) }
{
    let mut walk = Numbering::new(alloc);
    let mut tasks = Vec::new(alloc);
    tasks.push(Task::Enter(place))?;
    while let Some(task) = tasks.pop() {
        walk.step(&mut tasks, types, task)?;
    }
    let root = walk.places[0];
    Ok(walk.made.into_shared(root))
}
