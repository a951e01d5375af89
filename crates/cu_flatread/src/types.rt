//! Types in a text.
ghost use Rattle.std.specs.Prelude.{◌≡◌, ◌∷◌, [], ◌++◌, ◌<◌, ◌≤◌, All, IfErr, IfOk, OnOk, length, map, reverse, List, ℕ};
ghost use Rattle.cu_names.specs.Texts.{Extends};
ghost use Rattle.cu_flatread.specs.FlatText.{most_nested};
ghost use Rattle.cu_flatread.specs.Inside.Types.{type_at, type_words, types_at};
ghost use Rattle.cu_flatread.specs.Inside.TypeTasks.{Goes, HasCell, label, steps_left, tasks_at};
ghost use Rattle.cu_flatread.specs.Inside.Words.{Gives};
ghost use Rattle.cu_flatread.specs.declared.cells.TypeCell.TheVariants as type;
ghost use Rattle.cu_flatread.specs.declared.mark.Mark.TheVariants as mark;
ghost use Rattle.cu_flatread.specs.declared.stop.Stop.TheVariants.{NoMemory};
ghost use Rattle.cu_flatread.specs.declared.types.Task.TheVariants as task;
ghost use Rattle.cu_flatread.specs.Meaning.{HasType, HasTypes, type_of, types_of};

use crate::cells::TypeCell;
use crate::cursor::Cursor;
use crate::mark::Mark;
use crate::stop::Stop;
use crate::trees::{FlatType, FlatTypes};
use cu_names::Names;
use std::alloc::Global;

/// How deep types and expressions are nested at most.
pub(crate) const MOST_NESTED: u32 = 16_384;

/// What is still to be read of types.
#[derive(Clone, Copy)]
enum Task {
    /// A type, nested at most so deep.
    Type(u32),
    /// What stands after a type.
    Mark(Mark),
    /// The end of a list after its opening bracket, or its first type.
    First(u32),
    /// The end of a list after a type in it, or a comma and the next one.
    Next(u32),
}

/// The forms of a type.
#[derive(Clone, Copy)]
enum TypeForm {
    Variable,
    Arrow,
    Named,
}

const TYPES: [(&[u8], TypeForm); 3] = [
    (b"TVar ", TypeForm::Variable),
    (b"FuncType (", TypeForm::Arrow),
    (b"TCons ", TypeForm::Named),
];

/// The forms of a type that need no type in them.
const LEAVES: [(&[u8], TypeForm); 2] = [
    (b"TVar ", TypeForm::Variable),
    (b"TCons ", TypeForm::Named),
];

/// The forms of a type that is nested at most so deep.
fn forms(depth: u32) -> &'static [(&'static [u8], TypeForm)]
    ensures { map (λ w. (w.0.now, w.1)) result.now ≡ type_words depth }
{
    match depth {
        0 => &[],
        1 => &LEAVES,
        _ => &TYPES,
    }
}

/// The reading of types: their cells up to now, and what is still to be read.
#[derive(Drop)]
struct Types {
    alloc: Global,
    cells: Vec<TypeCell>,
    tasks: Vec<Task>,
}

impl Types {
    /// Does a task.
    fn step(&mut self, task: Task, cursor: &mut Cursor<'_>, names: &mut Names) -> Result<(), Stop>
        ensures gives { Goes result names.new self.old.cells.items
            (task ∷ reverse self.old.tasks.items) cursor.old.rest.now self.new.cells.items
            self.new.tasks.items cursor.new.rest.now }
        ensures known { OnOk result (All (HasCell names.old) self.old.cells.items
            → All (HasCell names.new) self.new.cells.items) }
        ensures names { Extends names.old names.new }
        ensures shorter { OnOk result (length cursor.new.rest.now ≤ length cursor.old.rest.now) }
        ensures fewer { OnOk result (steps_left self.new.tasks.items cursor.new.rest.now
            < steps_left (task ∷ self.old.tasks.items) cursor.old.rest.now) }
    {
        match task {
            Task::Type(depth) => self.one_type(depth, cursor, names),
            Task::Mark(mark) => cursor.word(mark.text()),
            Task::First(depth) => self.first(depth, cursor),
            Task::Next(depth) => self.next(depth, cursor),
        }
    }

    /// Begins a type, nested at most so deep.
    fn one_type(
        &mut self,
        depth: u32,
        cursor: &mut Cursor<'_>,
        names: &mut Names,
    ) -> Result<(), Stop>
        ensures gives { Goes result names.new self.old.cells.items
            (task.Type depth ∷ reverse self.old.tasks.items) cursor.old.rest.now
            self.new.cells.items self.new.tasks.items cursor.new.rest.now }
        ensures known { OnOk result (All (HasCell names.old) self.old.cells.items
            → All (HasCell names.new) self.new.cells.items) }
        ensures names { Extends names.old names.new }
        ensures shorter { OnOk result (length cursor.new.rest.now ≤ length cursor.old.rest.now) }
        ensures fewer { OnOk result (steps_left self.new.tasks.items cursor.new.rest.now
            < steps_left (task.Type depth ∷ self.old.tasks.items) cursor.old.rest.now) }
    {
        match cursor.one_of(forms(depth))? {
            TypeForm::Variable => {
                let number = cursor.number()?;
                self.cells.push(TypeCell::Variable(number))?;
                Ok(())
            }
            TypeForm::Arrow => self.arrow(depth.saturating_sub(1)),
            TypeForm::Named => {
                let entity = cursor.entity(self.alloc, names)?;
                cursor.word(b" [")?;
                self.cells.push(TypeCell::Named(entity))?;
                self.tasks.push(Task::First(depth.saturating_sub(1)))?;
                Ok(())
            }
        }
    }

    /// Begins a type of functions, whose parts are nested at most so deep.
    fn arrow(&mut self, inner: u32) -> Result<(), Stop>
        ensures cells { OnOk result (self.new.cells.items
            ≡ self.old.cells.items ++ type.Arrow ∷ []) }
        ensures tasks { OnOk result (self.new.tasks.items
            ≡ (((self.old.tasks.items ++ task.Mark mark.Close ∷ []) ++ task.Type inner ∷ [])
            ++ task.Mark mark.Between ∷ []) ++ task.Type inner ∷ []) }
        ensures err { IfErr result (λ stop. stop ≡ NoMemory) }
    {
        self.cells.push(TypeCell::Arrow)?;
        self.tasks.push(Task::Mark(Mark::Close))?;
        self.tasks.push(Task::Type(inner))?;
        self.tasks.push(Task::Mark(Mark::Between))?;
        self.tasks.push(Task::Type(inner))?;
        Ok(())
    }

    /// Begins the types of a list.
    fn first(&mut self, depth: u32, cursor: &mut Cursor<'_>) -> Result<(), Stop>
        ensures gives { (names : List (List ℕ)) → Goes result names self.old.cells.items
            (task.First depth ∷ reverse self.old.tasks.items) cursor.old.rest.now
            self.new.cells.items self.new.tasks.items cursor.new.rest.now }
        ensures known { (names : List (List ℕ)) → OnOk result
            (All (HasCell names) self.old.cells.items → All (HasCell names) self.new.cells.items) }
        ensures shorter { OnOk result (length cursor.new.rest.now ≤ length cursor.old.rest.now) }
        ensures fewer { OnOk result (steps_left self.new.tasks.items cursor.new.rest.now
            < steps_left (task.First depth ∷ self.old.tasks.items) cursor.old.rest.now) }
    {
        if cursor.is_at(b']') {
            cursor.word(b"]")?;
            self.cells.push(TypeCell::End)?;
            return Ok(());
        }
        self.element(depth)
    }

    /// Goes on with the types of a list.
    fn next(&mut self, depth: u32, cursor: &mut Cursor<'_>) -> Result<(), Stop>
        ensures gives { (names : List (List ℕ)) → Goes result names self.old.cells.items
            (task.Next depth ∷ reverse self.old.tasks.items) cursor.old.rest.now
            self.new.cells.items self.new.tasks.items cursor.new.rest.now }
        ensures known { (names : List (List ℕ)) → OnOk result
            (All (HasCell names) self.old.cells.items → All (HasCell names) self.new.cells.items) }
        ensures shorter { OnOk result (length cursor.new.rest.now ≤ length cursor.old.rest.now) }
        ensures fewer { OnOk result (steps_left self.new.tasks.items cursor.new.rest.now
            < steps_left (task.Next depth ∷ self.old.tasks.items) cursor.old.rest.now) }
    {
        if cursor.goes_on()? {
            return self.element(depth);
        }
        self.cells.push(TypeCell::End)?;
        Ok(())
    }

    /// Begins a type in a list.
    fn element(&mut self, depth: u32) -> Result<(), Stop>
        ensures cells { OnOk result (self.new.cells.items
            ≡ self.old.cells.items ++ type.More ∷ []) }
        ensures tasks { OnOk result (self.new.tasks.items
            ≡ (self.old.tasks.items ++ task.Next depth ∷ []) ++ task.Type depth ∷ []) }
        ensures err { IfErr result (λ stop. stop ≡ NoMemory) }
    {
        self.cells.push(TypeCell::More)?;
        self.tasks.push(Task::Next(depth))?;
        self.tasks.push(Task::Type(depth))?;
        Ok(())
    }
}

/// The cells that a task reads.
fn cells(
    alloc: Global,
    task: Task,
    cursor: &mut Cursor<'_>,
    names: &mut Names,
) -> Result<Vec<TypeCell>, Stop>
    ensures gives { Gives (λ cells. map (label names.new) cells.items) result
        cursor.new.rest.now (tasks_at (task ∷ []) cursor.old.rest.now) }
    ensures known { IfOk result (λ cells. All (HasCell names.new) cells.items) }
    ensures names { Extends names.old names.new }
    ensures shorter { OnOk result (length cursor.new.rest.now ≤ length cursor.old.rest.now) }
{
    let tasks = vec![in alloc; task]?;
    let mut types = Types {
        alloc,
        cells: Vec::new(alloc),
        tasks,
    };
    while let Some(next) = types.tasks.pop() {
        types.step(next, cursor, names)?;
    }
    Ok(types.cells)
}

/// A type.
pub(crate) fn type_at(
    alloc: Global,
    cursor: &mut Cursor<'_>,
    names: &mut Names,
) -> Result<FlatType, Stop>
    ensures gives { Gives (type_of names.new) result cursor.new.rest.now
        (type_at most_nested cursor.old.rest.now) }
    ensures known { IfOk result (HasType names.new) }
    ensures names { Extends names.old names.new }
    ensures shorter { OnOk result (length cursor.new.rest.now ≤ length cursor.old.rest.now) }
{
    let cells = cells(alloc, Task::Type(MOST_NESTED), cursor, names)?;
    Ok(FlatType::spelled(cells))
}

/// A list of types.
#[tactic(auto, unfolding(crate::specs::Inside::Types::types_at))]
pub(crate) fn types_at(
    alloc: Global,
    cursor: &mut Cursor<'_>,
    names: &mut Names,
) -> Result<FlatTypes, Stop>
    ensures gives { Gives (types_of names.new) result cursor.new.rest.now
        (types_at cursor.old.rest.now) }
    ensures known { IfOk result (HasTypes names.new) }
    ensures names { Extends names.old names.new }
    ensures shorter { OnOk result (length cursor.new.rest.now < length cursor.old.rest.now) }
{
    cursor.word(b"[")?;
    let cells = cells(alloc, Task::First(MOST_NESTED), cursor, names)?;
    Ok(FlatTypes::spelled(cells))
}
