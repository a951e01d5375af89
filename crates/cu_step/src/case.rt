//! Case distinctions.
ghost use Rattle.std.specs.Prelude.{◌≡◌, ◌<◌, IfOk, IsTrue, length, map, option_map, true};
ghost use Rattle.cu_calculus.specs.Literal.{same_literal};
ghost use Rattle.cu_calculus.specs.WellFormed.{is_well_formed};
ghost use Rattle.cu_flat.specs.Meaning.{branch_meaning, pattern_meaning};
ghost use Rattle.cu_machine.specs.declared.Kind.TheVariants as kind;
ghost use Rattle.cu_machine.specs.Graph.{head_at, head_of, node_at};
ghost use Rattle.cu_machine.specs.Rewrite.{bound_to, branch_for, narrowing_step, rewrite_step, scrutinee_step};
ghost use Rattle.cu_step.specs.Inside.Building.{branches_nest};
ghost use Rattle.cu_step.specs.Inside.Matching.{takes_pattern};
ghost use Rattle.cu_step.specs.Inside.Moved.{move_of};

use crate::build::Workspace;
use crate::moved::Moved;
use crate::redex::Redex;
use crate::{free, head};
use cu_flat::{Expr, ExprId, FlatProgram, Lit, Mode, Pattern};
use cu_graph::{Kind, Store};
use std::alloc::{AllocError, Global};

/// Whether two literals are the same.
pub(crate) fn is_same_literal(l: Lit, m: Lit) -> bool
    ensures { result ≡ same_literal l m }
{
    match l {
        Lit::Int(a) => match m {
            Lit::Int(b) => a == b,
            Lit::Char(_) => false,
        },
        Lit::Char(a) => match m {
            Lit::Int(_) => false,
            Lit::Char(b) => a == b,
        },
    }
}

/// Whether a head has the constructor of a pattern or is its literal.
fn takes_pattern(kind: Kind, pattern: &Pattern) -> bool
    ensures { result ≡ takes_pattern kind (pattern_meaning pattern.now) }
{
    match pattern {
        Pattern::Lit(m) => match kind {
            Kind::Lit(l) => is_same_literal(l, *m),
            _ => false,
        },
        Pattern::Con(d, _) => match kind {
            Kind::Cons(c) => c == *d,
            _ => false,
        },
    }
}

/// The branch that a head matches, if there is one.
fn branch_for(branches: &[(Pattern, ExprId)], kind: Kind) -> Option<&(Pattern, ExprId)>
    ensures { option_map (λ branch. branch_meaning branch.now) result
        ≡ branch_for (takes_pattern kind) (map branch_meaning branches.now) }
{
    for branch in branches {
        if takes_pattern(kind, &branch.0) {
            return Some(branch);
        }
    }
    None
}

/// The graph in which a free variable became what a pattern asks for.
fn bound_to<S: Store>(
    alloc: Global,
    mut store: S,
    variable: u32,
    pattern: &Pattern,
) -> Result<S, AllocError>
    requires { variable < length (S.content store) }
    ensures { IfOk result (λ after. S.content after
        ≡ bound_to (S.content store) variable (pattern_meaning pattern.now)) }
{
    match pattern {
        Pattern::Lit(l) => store.put(variable, Kind::Lit(*l), &[])?,
        Pattern::Con(c, variables) => {
            let _ = free::to_constructor(alloc, &mut store, variable, *c, variables.len())?;
        }
    }
    Ok(store)
}

/// The step of narrowing: the free variable becomes what each branch asks for,
/// in the branches' order.
fn narrowing_step<S: Store>(
    alloc: Global,
    store: S,
    variable: u32,
    branches: &[(Pattern, ExprId)],
) -> Result<Moved<S>, AllocError>
    requires { variable < length (S.content store) }
    ensures { IfOk result (λ moved. move_of S.content moved
        ≡ narrowing_step (S.content store) variable (map branch_meaning branches.now)) }
{
    if branches.is_empty() {
        return Ok(Moved::Become(Vec::new(alloc)));
    }
    if let [(pattern, _)] = branches {
        let after = bound_to(alloc, store, variable, pattern)?;
        return Ok(Moved::Alone(after));
    }
    let Ok(count) = u32::try_from(branches.len()) else {
        return Err(AllocError);
    };
    let mut copies = store.fork(count)?;
    let mut stores = Vec::with_capacity(alloc, branches.len())?;
    for (pattern, _) in branches {
        let copy = copies.pop().unwrap();
        let after = bound_to(alloc, copy, variable, pattern)?;
        stores.push(after)?;
    }
    Ok(Moved::Become(stores))
}

impl<S: Store> Redex<S> {
    /// The step of a case distinction, by the head of its scrutinee. It goes
    /// into the branch that the head matches, where the variables of the
    /// pattern stand for the head's arguments.
    fn scrutinee_step(
        self,
        program: &FlatProgram,
        workspace: &mut Workspace,
        branches: &[(Pattern, ExprId)],
        scrutinee: u32,
    ) -> Result<Moved<S>, AllocError>
        requires id { self.id < length (S.content self.store) }
        requires nest { branches_nest program.now (map branch_meaning branches.now) ≡ true }
        ensures { IfOk result (λ moved. move_of S.content moved
            ≡ scrutinee_step program.now workspace.old.scope.items (S.content self.store) self.id
            (map branch_meaning branches.now) (head_of (S.content self.store) scrutinee)
            (head_at (S.content self.store) scrutinee).kind
            (head_at (S.content self.store) scrutinee).args) }
    {
        let (head, node) = head::read(&self.store, scrutinee);
        match node.kind {
            Kind::Free => narrowing_step(self.alloc, self.store, head, branches),
            Kind::Lit(l) => match branch_for(branches, Kind::Lit(l)) {
                Some(branch) => self.building_step(program, workspace, branch.1),
                None => self.failing_step(),
            },
            Kind::Cons(c) => match branch_for(branches, Kind::Cons(c)) {
                Some(branch) => {
                    workspace.bind_pattern(&branch.0, node.args)?;
                    self.building_step(program, workspace, branch.1)
                }
                None => self.failing_step(),
            },
            Kind::Part(_) => self.failing_step(),
            _ => self.stuck_step(),
        }
    }

    /// The step of a case distinction.
    pub(crate) fn case_step(
        self,
        program: &FlatProgram,
        workspace: &mut Workspace,
        mode: Mode,
        e: usize,
    ) -> Result<Moved<S>, AllocError>
        requires code { IsTrue (is_well_formed program.now) }
        requires id { self.id < length (S.content self.store) }
        ensures { IfOk result (λ moved. move_of S.content moved
            ≡ rewrite_step program.now (S.content self.store) self.id (kind.Case mode e)
            (node_at (S.content self.store) self.id).args) }
    {
        let [scrutinee, values @ ..] = self.store.node(self.id).args else {
            return self.stuck_step();
        };
        let Some(Expr::Case(_, _, branches)) = program.find(ExprId(e)) else {
            return self.stuck_step();
        };
        workspace.begin_scope(program.kept(ExprId(e)), values)?;
        let scrutinee = *scrutinee;
        self.scrutinee_step(program, workspace, branches.as_slice(), scrutinee)
    }
}
