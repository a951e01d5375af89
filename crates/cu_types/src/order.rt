//! Classes in an order in which each stands after the classes of its arguments,
//! where there is such an order.
ghost use Rattle.std.specs.Prelude.{◌≡◌, ◌<◌, ◌++◌, ◌∷◌, [], ℕ, IfOk, MatchOption, None, OnOk, Some, length, map, replicate, reverse, slice_get, slice_set};
ghost use Rattle.cu_types.specs.Inside.Ordering.{AreWithin, IsCyclic, IsWalk, Steps, class_of, place_of, placed_shape, state_of};
ghost use Rattle.cu_types.specs.Table.{IsTable, places, shape_of};
ghost use Rattle.cu_types.specs.declared.order.State.TheVariants as state;
ghost use Rattle.cu_types.specs.declared.order.Task.TheVariants as task;

use crate::Node;
use std::alloc::{AllocError, Global};

/// The state of a class in the walk.
#[derive(Clone, Copy, PartialEq, Eq)]
pub(crate) enum State {
    /// The class wasn't visited yet.
    Unseen,
    /// The class's arguments are being placed.
    Open,
    /// The class stands at this place.
    Placed(usize),
}

/// What a walk has still to do.
#[derive(Clone, Copy, PartialEq, Eq)]
pub(crate) enum Task {
    /// To place the class of a type.
    Enter(usize),
    /// To place a class whose arguments are placed.
    Leave(usize),
}

/// A walk over the classes of a table.
#[derive(Drop)]
pub(crate) struct Walk {
    /// What is known of each class, by its representative.
    pub(crate) states: Vec<State>,
    /// What is still to do; the last comes next.
    pub(crate) tasks: Vec<Task>,
    /// The types that were placed.
    pub(crate) solved: Vec<Node>,
}

/// Where a class was placed.
fn place_in(state: State) -> usize
    ensures { result ≡ place_of state }
{
    match state {
        State::Unseen => 0,
        State::Open => 0,
        State::Placed(place) => place,
    }
}

impl Walk {
    /// The types that were placed.
    pub(crate) fn into_solved(self) -> Vec<Node>
        ensures { result ≡ self.solved }
    {
        self.solved
    }

    /// The places of the classes of arguments.
    pub(crate) fn places_of(
        &self,
        alloc: Global,
        classes: &[usize],
        arguments: &[usize],
    ) -> Result<Vec<usize>, AllocError>
        requires arguments { (k a : ℕ) → slice_get arguments.now k ≡ Some a
            → a < length classes.now }
        requires classes { (a : ℕ) → a < length classes.now
            → class_of classes.now a < length self.now.states.items }
        ensures { IfOk result (λ found. found.items ≡ map (λ a. place_of
            (state_of self.now.states.items (class_of classes.now a))) arguments.now) }
    {
        let mut found = Vec::with_capacity(alloc, arguments.len())?;
        for argument in arguments {
            let class = classes[*argument];
            found.push(place_in(self.states[class]))?;
        }
        Ok(found)
    }

    /// The type of a class, whose arguments are placed.
    fn placed(&self, alloc: Global, classes: &[usize], node: &Node) -> Result<Node, AllocError>
        requires arguments { (k a : ℕ) → slice_get (places (shape_of node.now)) k ≡ Some a
            → a < length classes.now }
        requires classes { (a : ℕ) → a < length classes.now
            → class_of classes.now a < length self.now.states.items }
        ensures { IfOk result (λ made. shape_of made
            ≡ placed_shape self.now.states.items classes.now (shape_of node.now)) }
    {
        match node {
            Node::Variable(x) => Ok(Node::Variable(*x)),
            Node::Applied(head, arguments) => {
                let places = self.places_of(alloc, classes, arguments.as_slice())?;
                Ok(Node::Applied(*head, places))
            }
        }
    }

    /// Adds the task to enter each of these places.
    fn enter_all(&mut self, arguments: &[usize]) -> Result<(), AllocError>
        ensures states { self.new.states ≡ self.old.states }
        ensures solved { self.new.solved ≡ self.old.solved }
        ensures tasks { OnOk result (self.new.tasks.items
            ≡ self.old.tasks.items ++ map (λ a. task.Enter a) arguments.now) }
    {
        for argument in arguments {
            self.tasks.push(Task::Enter(*argument))?;
        }
        Ok(())
    }

    /// A walk that is to place all classes.
    pub(crate) fn start(alloc: Global, classes: &[usize]) -> Result<Walk, AllocError>
        ensures states { IfOk result (λ walk. walk.states.items
            ≡ replicate (length classes.now) state.Unseen) }
        ensures tasks { IfOk result (λ walk. walk.tasks.items
            ≡ map (λ a. task.Enter a) classes.now) }
        ensures solved { IfOk result (λ walk. walk.solved.items ≡ []) }
    {
        let mut walk = Walk {
            states: vec![in alloc; State::Unseen; classes.len()]?,
            tasks: Vec::new(alloc),
            solved: Vec::new(alloc),
        };
        walk.enter_all(classes)?;
        Ok(walk)
    }

    /// Begins to place a class: its arguments are entered first.
    fn open(&mut self, class: usize, node: &Node) -> Result<(), AllocError>
        requires { class < length self.old.states.items }
        ensures states { OnOk result (self.new.states.items
            ≡ slice_set self.old.states.items class state.Open) }
        ensures solved { OnOk result (self.new.solved ≡ self.old.solved) }
        ensures tasks { OnOk result (self.new.tasks.items
            ≡ (self.old.tasks.items ++ task.Leave class ∷ [])
            ++ map (λ a. task.Enter a) (places (shape_of node.now))) }
    {
        self.states[class] = State::Open;
        self.tasks.push(Task::Leave(class))?;
        self.enter_all(node.arguments())
    }

    /// Places a class after its arguments.
    fn place(
        &mut self,
        alloc: Global,
        classes: &[usize],
        class: usize,
        node: &Node,
    ) -> Result<(), AllocError>
        requires class { class < length self.old.states.items }
        requires arguments { (k a : ℕ) → slice_get (places (shape_of node.now)) k ≡ Some a
            → a < length classes.now }
        requires classes { (a : ℕ) → a < length classes.now
            → class_of classes.now a < length self.old.states.items }
        ensures states { OnOk result (self.new.states.items
            ≡ slice_set self.old.states.items class (state.Placed (length self.old.solved.items))) }
        ensures solved { OnOk result (map shape_of self.new.solved.items
            ≡ map shape_of self.old.solved.items
            ++ placed_shape self.old.states.items classes.now (shape_of node.now) ∷ []) }
        ensures tasks { OnOk result (self.new.tasks ≡ self.old.tasks) }
    {
        let made = self.placed(alloc, classes, node)?;
        self.states[class] = State::Placed(self.solved.len());
        self.solved.push(made)?;
        Ok(())
    }

    /// Enters a place. Answers the place where its class uses itself.
    fn enter(
        &mut self,
        nodes: &[Node],
        classes: &[usize],
        place: usize,
    ) -> Result<Option<usize>, AllocError>
        requires table { IsTable (map shape_of nodes.now) }
        requires classes { AreWithin (map shape_of nodes.now) classes.now }
        requires walk { IsWalk (map shape_of nodes.now) classes.now self.old.states.items
            (map shape_of self.old.solved.items) (task.Enter place ∷ reverse self.old.tasks.items) }
        ensures { IfOk result (Steps (map shape_of nodes.now) classes.now self.old.states.items
            self.old.tasks.items self.new.states.items
            (map shape_of self.new.solved.items) self.new.tasks.items) }
    {
        let class = classes[place];
        match self.states[class] {
            State::Unseen => {
                self.open(class, &nodes[class])?;
                Ok(None)
            }
            State::Open => Ok(Some(place)),
            State::Placed(_) => Ok(None),
        }
    }

    /// Leaves a class: places it, since its arguments are placed.
    fn leave(
        &mut self,
        alloc: Global,
        nodes: &[Node],
        classes: &[usize],
        class: usize,
    ) -> Result<(), AllocError>
        requires table { IsTable (map shape_of nodes.now) }
        requires classes { AreWithin (map shape_of nodes.now) classes.now }
        requires walk { IsWalk (map shape_of nodes.now) classes.now self.old.states.items
            (map shape_of self.old.solved.items) (task.Leave class ∷ reverse self.old.tasks.items) }
        ensures { OnOk result (Steps (map shape_of nodes.now) classes.now self.old.states.items
            self.old.tasks.items self.new.states.items
            (map shape_of self.new.solved.items) self.new.tasks.items None) }
    {
        self.place(alloc, classes, class, &nodes[class])?;
        Ok(())
    }

    /// Does one task. Answers a place whose class uses itself, if the task
    /// meets one.
    fn step(
        &mut self,
        alloc: Global,
        nodes: &[Node],
        classes: &[usize],
        task: Task,
    ) -> Result<Option<usize>, AllocError>
        requires table { IsTable (map shape_of nodes.now) }
        requires classes { AreWithin (map shape_of nodes.now) classes.now }
        requires walk { IsWalk (map shape_of nodes.now) classes.now self.old.states.items
            (map shape_of self.old.solved.items) (task ∷ reverse self.old.tasks.items) }
        ensures { IfOk result (Steps (map shape_of nodes.now) classes.now self.old.states.items
            self.old.tasks.items self.new.states.items
            (map shape_of self.new.solved.items) self.new.tasks.items) }
    {
        match task {
            Task::Enter(place) => self.enter(nodes, classes, place),
            Task::Leave(class) => {
                self.leave(alloc, nodes, classes, class)?;
                Ok(None)
            }
        }
    }

    /// Places all classes. Answers a place whose class uses itself, if there is
    /// one.
    pub(crate) fn run(
        &mut self,
        alloc: Global,
        nodes: &[Node],
        classes: &[usize],
    ) -> Result<Option<usize>, AllocError>
        requires table { IsTable (map shape_of nodes.now) }
        requires classes { AreWithin (map shape_of nodes.now) classes.now }
        requires walk { IsWalk (map shape_of nodes.now) classes.now self.old.states.items
            (map shape_of self.old.solved.items) (reverse self.old.tasks.items) }
        ensures { IfOk result (λ found. MatchOption found
            (IsWalk (map shape_of nodes.now) classes.now self.new.states.items
            (map shape_of self.new.solved.items) [])
            (IsCyclic (map shape_of nodes.now) classes.now (reverse self.new.tasks.items))) }
    {
        while let Some(task) = self.tasks.pop() {
            if let Some(place) = self.step(alloc, nodes, classes, task)? {
                return Ok(Some(place));
            }
        }
        Ok(None)
    }
}
