//! Building the graph of an expression. What is left to do stands in a list of
//! tasks, so that the depth of an expression takes no stack.
ghost use Rattle.std.specs.Prelude.{◌≡◌, ◌<◌, [], ◌∷◌, ◌++◌, ◌+◌, ◌-◌, IfOk, OnOk, length, map, reverse, slice_get, true, zip};
ghost use Rattle.cu_calculus.specs.Code.{body_of, expr_of};
ghost use Rattle.cu_calculus.specs.WellFormed.{bound_by};
ghost use Rattle.cu_flat.specs.Meaning.{pattern_meaning};
ghost use Rattle.cu_machine.specs.Build.{kind_of_call, kind_of_whole, place_in, write};
ghost use Rattle.cu_machine.specs.Graph.{Graph};
ghost use Rattle.cu_machine.specs.Rewrite.{alone_follows};
ghost use Rattle.cu_step.specs.Inside.Building.{argument, begun, bound_last, finished, left_by, nests, node_tasks, performed, state_of, tasks_of, with_free, with_node, with_value};
ghost use Rattle.cu_step.specs.Inside.Moved.{move_of};

use crate::moved::Moved;
use crate::node;
use crate::redex::Redex;
use cu_flat::{Expr, ExprId, FlatBody, FlatProgram, FunId, Head, Pattern, Prim};
use cu_graph::{Kind, Store};
use std::alloc::{AllocError, Global};

/// The kind of a function's call. A built-in operation has a kind of its own.
pub(crate) fn kind_of_call(program: &FlatProgram, f: FunId) -> Kind
    ensures { result ≡ kind_of_call f (body_of program.now f) }
{
    match program.body(f) {
        None => Kind::Stuck,
        Some(FlatBody::Rule(_, _)) => Kind::Call(f),
        Some(FlatBody::External(Prim::Failed)) => Kind::Fail,
        Some(FlatBody::External(operation)) => Kind::Prim(*operation),
    }
}

/// The kind of a node for a head with all its arguments.
pub(crate) fn kind_of_whole(program: &FlatProgram, head: Head) -> Kind
    ensures { result ≡ kind_of_whole program.now head }
{
    match head {
        Head::Con(c) => Kind::Cons(c),
        Head::Fun(f) => kind_of_call(program, f),
        Head::Set(f) => Kind::SetCall(f),
    }
}

/// The index of a variable's value in a scope, where the last binding counts.
fn place_in(scope: &[(u32, u32)], x: u32) -> Option<u32>
    ensures { result ≡ place_in scope.now x }
{
    let mut place = None;
    for (y, id) in scope {
        if x == *y {
            place = Some(*id);
        }
    }
    place
}

/// What a value is built for.
#[derive(Clone, Copy)]
enum Target {
    /// The value is an argument of a node that is made later.
    Argument,
    /// The value is written over the root.
    Root,
}

/// A task of a building.
#[derive(Clone, Copy)]
enum Task {
    /// Build an expression.
    Build(ExprId, Target),
    /// Take the value of a variable as an argument.
    Take(u32),
    /// Make a node of this kind over the last arguments, so many.
    Finish(Kind, usize, Target),
    /// Bind a variable to the last argument.
    Bind(u32),
    /// End the last binding.
    Unbind,
}

/// Pushes the tasks to build arguments, the first one on top.
fn push_arguments(tasks: &mut Vec<Task>, parts: &[ExprId]) -> Result<(), AllocError>
    ensures { OnOk result (tasks.new.items ≡ tasks.old.items ++ reverse (map argument parts.now)) }
{
    let mut i = parts.len();
    while i > 0 {
        i -= 1;
        tasks.push(Task::Build(parts[i], Target::Argument))?;
    }
    Ok(())
}

/// Pushes the tasks to take the values of variables as arguments, the first one
/// on top.
fn push_variables(tasks: &mut Vec<Task>, variables: &[u32]) -> Result<(), AllocError>
    ensures { OnOk result (tasks.new.items
        ≡ tasks.old.items ++ reverse (map Task.Take variables.now)) }
{
    let mut i = variables.len();
    while i > 0 {
        i -= 1;
        tasks.push(Task::Take(variables[i]))?;
    }
    Ok(())
}

/// The lists that steps build expressions with, kept from one step to the next.
/// They take no memory at first, and then as much as the largest step so far
/// asked for. What is in them between two steps counts for nothing.
#[derive(Drop)]
pub struct Workspace {
    /// The node that the expression is written over.
    root: u32,
    /// The tasks that are left, as a stack: the last one is on top.
    tasks: Vec<Task>,
    /// The indices of the values that are arguments of nodes to come.
    ids: Vec<u32>,
    /// The variables in scope and the indices of their values. The last binding
    /// of a variable counts.
    pub(crate) scope: Vec<(u32, u32)>,
}

impl Workspace {
    /// A workspace that was not used yet.
    pub fn new(alloc: Global) -> Workspace {
        Workspace {
            root: 0,
            tasks: Vec::new(alloc),
            ids: Vec::new(alloc),
            scope: Vec::new(alloc),
        }
    }

    /// Begins a scope in which each variable has the value at the index beside
    /// it.
    pub(crate) fn begin_scope(
        &mut self,
        variables: &[u32],
        places: &[u32],
    ) -> Result<(), AllocError>
        ensures { OnOk result (self.new.scope.items ≡ zip variables.now places.now) }
    {
        self.scope.clear();
        self.extend_scope(variables, places)
    }

    /// Adds variables to the scope, each with the value at the index beside it.
    fn extend_scope(&mut self, variables: &[u32], places: &[u32]) -> Result<(), AllocError>
        ensures { OnOk result (self.new.scope.items
            ≡ self.old.scope.items ++ zip variables.now places.now) }
    {
        let bindings = variables.iter().copied().zip(places.iter().copied());
        self.scope.extend(bindings)
    }

    /// Adds the variables of a pattern to the scope. They have the arguments of
    /// the head that matches the pattern as their values.
    pub(crate) fn bind_pattern(&mut self, pattern: &Pattern, args: &[u32]) -> Result<(), AllocError>
        ensures { OnOk result (self.new.scope.items ≡ self.old.scope.items
            ++ zip (bound_by (pattern_meaning pattern.now)) args.now) }
    {
        match pattern {
            Pattern::Lit(_) => Ok(()),
            Pattern::Con(_, variables) => self.extend_scope(variables.as_slice(), args),
        }
    }

    /// Begins the building of an expression over a node. Nothing is left of the
    /// building before but the scope, which is the one of this building.
    fn start_at(&mut self, root: u32, e: ExprId) -> Result<(), AllocError>
        ensures state { (graph : Graph) → OnOk result (state_of graph self.new ≡ record
            { graph = graph; root = root; ids = []; scope = self.old.scope.items }) }
        ensures tasks { OnOk result (self.new.tasks.items ≡ Task.Build e Target.Root ∷ []) }
    {
        self.root = root;
        self.ids.clear();
        self.tasks.clear();
        self.tasks.push(Task::Build(e, Target::Root))?;
        Ok(())
    }

    /// Makes a node without arguments.
    fn make<S: Store>(
        &mut self,
        store: &mut S,
        kind: Kind,
        target: Target,
    ) -> Result<(), AllocError>
        requires { self.old.root < length (S.content store.old) }
        ensures state { OnOk result (state_of (S.content store.new) self.new
            ≡ with_node target (state_of (S.content store.old) self.old)
            (record { kind = kind; args = [] })) }
        ensures tasks { OnOk result (self.new.tasks.items ≡ self.old.tasks.items) }
    {
        match target {
            Target::Argument => {
                let id = node::push(store, kind, &[])?;
                self.ids.push(id)?;
                Ok(())
            }
            Target::Root => store.put(self.root, kind, &[]),
        }
    }

    /// Makes a node over the last arguments, so many.
    fn finish<S: Store>(
        &mut self,
        store: &mut S,
        kind: Kind,
        count: usize,
        target: Target,
    ) -> Result<(), AllocError>
        requires { self.old.root < length (S.content store.old) }
        ensures state { OnOk result (state_of (S.content store.new) self.new
            ≡ finished (state_of (S.content store.old) self.old) kind count target) }
        ensures tasks { OnOk result (self.new.tasks.items ≡ self.old.tasks.items) }
    {
        let first = self.ids.len().saturating_sub(count);
        match target {
            Target::Argument => {
                let id = node::push(store, kind, &self.ids[first..])?;
                self.ids.truncate(first);
                self.ids.push(id)?;
            }
            Target::Root => {
                store.put(self.root, kind, &self.ids[first..])?;
                self.ids.truncate(first);
            }
        }
        Ok(())
    }

    /// Uses the value of a variable. Where it has none, that is a stuck node.
    fn take<S: Store>(&mut self, store: &mut S, x: u32, target: Target) -> Result<(), AllocError>
        requires { self.old.root < length (S.content store.old) }
        ensures state { OnOk result (state_of (S.content store.new) self.new
            ≡ with_value target (state_of (S.content store.old) self.old)
            (place_in self.old.scope.items x)) }
        ensures tasks { OnOk result (self.new.tasks.items ≡ self.old.tasks.items) }
    {
        let Some(id) = place_in(self.scope.as_slice(), x) else {
            return self.make(store, Kind::Stuck, target);
        };
        match target {
            Target::Argument => {
                self.ids.push(id)?;
                Ok(())
            }
            Target::Root => store.put(self.root, Kind::Ind, &[id]),
        }
    }

    /// Binds a variable to the last argument.
    fn bind(&mut self, x: u32) -> Result<(), AllocError>
        ensures state { (graph : Graph) → OnOk result (state_of graph self.new
            ≡ bound_last x (state_of graph self.old)
            (slice_get self.old.ids.items (length self.old.ids.items - 1))) }
        ensures tasks { OnOk result (self.new.tasks.items ≡ self.old.tasks.items) }
    {
        if let Some(id) = self.ids.pop() {
            self.scope.push((x, id))?;
        }
        Ok(())
    }

    /// Pushes the tasks to make a node over parts.
    fn begin_node(&mut self, kind: Kind, parts: &[ExprId], target: Target) -> Result<(), AllocError>
        ensures state { (graph : Graph)
            → OnOk result (state_of graph self.new ≡ state_of graph self.old) }
        ensures tasks { OnOk result (self.new.tasks.items ≡ self.old.tasks.items
            ++ reverse (node_tasks (map argument parts.now) kind (length parts.now) target)) }
    {
        self.tasks.push(Task::Finish(kind, parts.len(), target))?;
        push_arguments(&mut self.tasks, parts)
    }

    /// Pushes the tasks to make a case distinction over a scrutinee and the
    /// variables that it keeps.
    fn begin_case(
        &mut self,
        kind: Kind,
        scrutinee: ExprId,
        kept: &[u32],
        target: Target,
    ) -> Result<(), AllocError>
        ensures state { (graph : Graph)
            → OnOk result (state_of graph self.new ≡ state_of graph self.old) }
        ensures tasks { OnOk result (self.new.tasks.items ≡ self.old.tasks.items
            ++ reverse (node_tasks (argument scrutinee ∷ map Task.Take kept.now) kind
            (length kept.now + 1) target)) }
    {
        self.tasks.push(Task::Finish(kind, kept.len() + 1, target))?;
        push_variables(&mut self.tasks, kept)?;
        self.tasks.push(Task::Build(scrutinee, Target::Argument))?;
        Ok(())
    }

    /// Pushes the tasks to build a body in which one variable more is bound.
    fn begin_body(&mut self, body: ExprId, target: Target) -> Result<(), AllocError>
        ensures state { (graph : Graph)
            → OnOk result (state_of graph self.new ≡ state_of graph self.old) }
        ensures tasks { OnOk result (self.new.tasks.items ≡ self.old.tasks.items
            ++ reverse (Task.Build body target ∷ Task.Unbind ∷ [])) }
    {
        self.tasks.push(Task::Unbind)?;
        self.tasks.push(Task::Build(body, target))?;
        Ok(())
    }

    /// Pushes the tasks to bind a variable to an expression's value, and then
    /// to build the body.
    fn begin_let(
        &mut self,
        x: u32,
        bound: ExprId,
        body: ExprId,
        target: Target,
    ) -> Result<(), AllocError>
        ensures state { (graph : Graph)
            → OnOk result (state_of graph self.new ≡ state_of graph self.old) }
        ensures tasks { OnOk result (self.new.tasks.items ≡ self.old.tasks.items
            ++ reverse (argument bound ∷ Task.Bind x ∷ Task.Build body target ∷ Task.Unbind ∷ [])) }
    {
        self.begin_body(body, target)?;
        self.tasks.push(Task::Bind(x))?;
        self.tasks.push(Task::Build(bound, Target::Argument))?;
        Ok(())
    }

    /// Makes a free variable, and pushes the tasks to build the body in which
    /// it is bound.
    fn begin_free<S: Store>(
        &mut self,
        store: &mut S,
        x: u32,
        body: ExprId,
        target: Target,
    ) -> Result<(), AllocError>
        ensures state { OnOk result (state_of (S.content store.new) self.new
            ≡ with_free (state_of (S.content store.old) self.old) x) }
        ensures tasks { OnOk result (self.new.tasks.items ≡ self.old.tasks.items
            ++ reverse (Task.Build body target ∷ Task.Unbind ∷ [])) }
    {
        let id = node::push(store, Kind::Free, &[])?;
        self.scope.push((x, id))?;
        self.begin_body(body, target)
    }

    /// Builds an expression as far as it has no parts, and pushes the tasks for
    /// its parts.
    fn begin<S: Store>(
        &mut self,
        program: &FlatProgram,
        store: &mut S,
        e: ExprId,
        target: Target,
    ) -> Result<(), AllocError>
        requires { self.old.root < length (S.content store.old) }
        ensures state { OnOk result (state_of (S.content store.new) self.new
            ≡ begun target (state_of (S.content store.old) self.old) (expr_of program.now e)) }
        ensures tasks { OnOk result (self.new.tasks.items ≡ self.old.tasks.items
            ++ reverse (tasks_of program.now e target (expr_of program.now e))) }
    {
        match program.find(e) {
            None => self.make(store, Kind::Stuck, target),
            Some(Expr::Var(x)) => self.take(store, *x, target),
            Some(Expr::Lit(literal)) => self.make(store, Kind::Lit(*literal), target),
            Some(Expr::Whole(head, parts)) => {
                self.begin_node(kind_of_whole(program, *head), parts.as_slice(), target)
            }
            Some(Expr::Part(head, parts)) => {
                self.begin_node(Kind::Part(*head), parts.as_slice(), target)
            }
            Some(Expr::Apply(function, argument)) => {
                self.begin_node(Kind::Apply, &[*function, *argument], target)
            }
            Some(Expr::Or(left, right)) => self.begin_node(Kind::Or, &[*left, *right], target),
            Some(Expr::Let(x, bound, body)) => self.begin_let(*x, *bound, *body, target),
            Some(Expr::Free(x, body)) => self.begin_free(store, *x, *body, target),
            Some(Expr::Case(mode, scrutinee, _)) => {
                self.begin_case(Kind::Case(*mode, e.0), *scrutinee, program.kept(e), target)
            }
        }
    }

    /// Does the task on top.
    fn perform<S: Store>(
        &mut self,
        program: &FlatProgram,
        store: &mut S,
        task: Task,
    ) -> Result<(), AllocError>
        requires { self.old.root < length (S.content store.old) }
        ensures state { OnOk result (state_of (S.content store.new) self.new
            ≡ performed program.now (state_of (S.content store.old) self.old) task) }
        ensures tasks { OnOk result (self.new.tasks.items
            ≡ self.old.tasks.items ++ reverse (left_by program.now task)) }
    {
        match task {
            Task::Build(e, target) => self.begin(program, store, e, target),
            Task::Take(x) => self.take(store, x, Target::Argument),
            Task::Finish(kind, count, target) => self.finish(store, kind, count, target),
            Task::Bind(x) => self.bind(x),
            Task::Unbind => {
                let _ = self.scope.pop();
                Ok(())
            }
        }
    }
}

impl<S: Store> Redex<S> {
    /// The step in which an expression is built over the redex. Its variables
    /// have values at the indices that the scope of the workspace says.
    pub(crate) fn building_step(
        self,
        program: &FlatProgram,
        workspace: &mut Workspace,
        e: ExprId,
    ) -> Result<Moved<S>, AllocError>
        requires id { self.id < length (S.content self.store) }
        requires nests { nests program.now e ≡ true }
        ensures { IfOk result (λ moved. move_of S.content moved
            ≡ alone_follows
            (write program.now workspace.old.scope.items (S.content self.store) self.id e)) }
    {
        let Redex { mut store, id, .. } = self;
        workspace.start_at(id, e)?;
        while let Some(task) = workspace.tasks.pop() {
            workspace.perform(program, &mut store, task)?;
        }
        Ok(Moved::Alone(store))
    }
}
