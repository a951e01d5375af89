//! One step of a branch of the search.
#![tactic(auto)]

mod aim;
mod apply;
mod branch;
mod build;
mod call;
mod case;
mod equal;
mod focus;
mod free;
mod head;
mod moved;
mod need;
mod node;
mod number;
mod numbering;
mod occurs;
mod operand;
mod pairs;
mod pending;
mod push;
mod read;
mod redex;
mod rewrite;
mod set_call;
mod unify;
mod waited;

ghost use Rattle.std.specs.Prelude.{◌≡◌, ◌<◌, ℕ, IfOk, IsFalse, IsTrue, length, map, true};
ghost use Rattle.std.specs.List.{All, list_any};
ghost use Rattle.cu_calculus.specs.Code.{Code, body_of, is_rule};
ghost use Rattle.cu_calculus.specs.WellFormed.{is_well_formed};
ghost use Rattle.cu_machine.specs.Graph.{Graph};
ghost use Rattle.cu_machine.specs.Need.{need_all};
ghost use Rattle.cu_machine.specs.Next.{Stops, answered, is_above, moved, next, next_by, too_large};
ghost use Rattle.cu_machine.specs.Rewrite.{move};
ghost use Rattle.cu_machine.specs.Sets.{IsWithoutSets};
ghost use Rattle.cu_machine.specs.State as state;
ghost use Rattle.cu_machine.specs.State.{Idle, start_of};
ghost use Rattle.cu_machine.specs.Validity.{ArgumentsThere, IsAcyclic, IsValid, are_places};
ghost use Rattle.cu_machine.specs.Need.{At};
ghost use Rattle.cu_step.specs.Inside.Kept.{AllMayGoOn, MayGoOn, StandsAtNode};
ghost use Rattle.cu_step.specs.Inside.Moved.{move_of};
ghost use Rattle.cu_step.specs.Outcome.{branches_of, is_inner, is_running, next_of, state_of};
ghost use Rattle.cu_step.specs.declared.Outcome.TheVariants.{Inner};

use aim::Aim;
use branch::Search;
pub use branch::{Branch, BranchOver, Running};
pub use build::Workspace;
use cu_flat::{FlatProgram, FunId, Head};
use cu_graph::{Kind, Store};
pub use cu_machine::{Limits, SearchLimits, Stop, Waited};
pub use focus::Focus;
use moved::Moved;
use need::Demand;
pub use push::push_value;
pub use read::Reading;
use redex::Redex;
use set_call::SetCall;
use std::alloc::{AllocError, Global};

/// What becomes of a branch in one step.
#[derive(Drop)]
pub enum Outcome<S: Store> {
    /// The branch goes on as this one alone.
    On(Branch<S>),
    /// The branch goes on otherwise, as these branches, from left to right.
    Go(Vec<Branch<S>>),
    /// The branch's value is there.
    Answer(Reading),
    /// The branch has no value.
    Fail,
    /// The branch waits for these variables, or for ever where there are none.
    Wait(Vec<Waited>),
    /// A limit or an overflow ends the search.
    Stop(Stop),
    /// The branch is given back: a search for all values runs in it, whose
    /// level is to be stepped.
    Inner(Branch<S>),
}

/// The branch in which the search for a goal begins: a free variable for each
/// of the goal's parameters, and the call of the goal on them.
pub fn start<S: Store>(
    alloc: Global,
    program: &FlatProgram,
    goal: FunId,
) -> Result<Branch<S>, AllocError>
    requires { IsTrue (is_rule (body_of program.now goal)) }
    ensures next { IfOk result (λ branch. state_of S.content branch ≡ start_of program.now goal) }
    ensures valid { IfOk result (λ branch. IsValid program.now (state_of S.content branch)) }
    ensures sets { IfOk result (λ branch. IsWithoutSets (state_of S.content branch)) }
{
    let count = program.arity(Head::Fun(goal)) as usize;
    let kind = build::kind_of_call(program, goal);
    let mut store = S::empty(alloc)?;
    let goals = free::push(alloc, &mut store, count)?;
    let root = node::push(&mut store, kind, goals.as_slice())?;
    Ok(BranchOver {
        focus: Focus::new(store, root),
        goals,
        search: Search::Idle,
    })
}

/// Whether a graph has more nodes than the limit.
fn is_too_large<S: Store>(store: &S, limits: &Limits) -> bool
    ensures { result ≡ is_above limits.now (length (S.content store.now)) }
{
    limits.nodes < store.len()
}

/// The stop for too many nodes or cells, whose count ends at one more than the
/// limit.
fn too_large(limits: &Limits) -> Stop
    ensures { Stops result ≡ too_large limits.now }
{
    Stop::TooLarge(u64::from(limits.nodes) + 1)
}

/// Whether one of the graphs has more nodes than the limit.
fn any_too_large<S: Store>(stores: &[S], limits: &Limits) -> bool
    ensures { result
        ≡ list_any (λ store. is_above limits.now (length (S.content store))) stores.now }
{
    stores.iter().any(|store| is_too_large(store, limits))
}

/// What is read off a branch whose value is there, unless it is too large.
fn answered<S: Store>(
    alloc: Global,
    store: &S,
    root: u32,
    goals: &[u32],
    limits: &Limits,
) -> Result<Outcome<S>, AllocError>
    requires root { root < length (S.content store.now) }
    requires goals { are_places (length (S.content store.now)) goals.now ≡ true }
    requires arguments { ArgumentsThere (S.content store.now) }
    requires acyclic { IsAcyclic (S.content store.now) }
    ensures next { IfOk result (λ outcome. next_of S.content outcome
        ≡ answered limits.now (S.content store.now) root goals.now) }
    ensures inner { IfOk result (λ outcome. IsFalse (is_inner outcome)) }
{
    match read::read(alloc, store, root, goals, limits.nodes)? {
        Some(reading) => Ok(Outcome::Answer(reading)),
        None => Ok(Outcome::Stop(too_large(limits))),
    }
}

/// The branches with these graphs, in which the same is sought.
fn branches<S: Store>(alloc: Global, stores: Vec<S>, aim: Aim) -> Result<Vec<Branch<S>>, AllocError>
    requires { All (λ store. MayGoOn (S.content store) aim.root aim.walk) stores.items }
    ensures { IfOk result (λ branches. map (state_of S.content) branches.items
        ≡ map (λ store. state.Branch (S.content store) aim.root aim.goals.items Idle)
        stores.items) }
{
    let mut branches = Vec::with_capacity(alloc, stores.len())?;
    for store in stores {
        let aim = aim.copied(alloc)?;
        branches.push(aim.in_graph(store))?;
    }
    Ok(branches)
}

/// What becomes of a branch whose graph becomes one of these.
fn following<S: Store>(
    alloc: Global,
    graphs: Moved<S>,
    aim: Aim,
    limits: &Limits,
) -> Result<Outcome<S>, AllocError>
    requires walk { AllMayGoOn aim.root aim.walk (move_of S.content graphs) }
    ensures next { IfOk result (λ outcome. (program : Code) (graph : Graph) (id : ℕ)
        → next_of S.content outcome
        ≡ moved program limits.now aim.root aim.goals.items graph id
        (move_of S.content graphs)) }
    ensures inner { IfOk result (λ outcome. IsFalse (is_inner outcome)) }
{
    match graphs {
        Moved::Alone(store) => {
            if is_too_large(&store, limits) {
                return Ok(Outcome::Stop(too_large(limits)));
            }
            Ok(Outcome::On(aim.in_graph(store)))
        }
        Moved::Become(stores) => {
            if any_too_large(stores.as_slice(), limits) {
                return Ok(Outcome::Stop(too_large(limits)));
            }
            let branches = branches(alloc, stores, aim)?;
            Ok(Outcome::Go(branches))
        }
        Moved::Overflow(operation, m, n) => Ok(Outcome::Stop(Stop::Overflow(operation, m, n))),
    }
}

/// What becomes of a branch where the node with this index is rewritten.
fn rewrite_step<S: Store>(
    alloc: Global,
    program: &FlatProgram,
    workspace: &mut Workspace,
    store: S,
    aim: Aim,
    id: u32,
    limits: &Limits,
) -> Result<Outcome<S>, AllocError>
    requires code { IsTrue (is_well_formed program.now) }
    requires valid { IsValid program.now
        (state.Branch (S.content store) aim.root aim.goals.items Idle) }
    requires need { need_all program.now.special.truth (S.content store) aim.root ≡ At id }
    requires stands { StandsAtNode program.now.special.truth id aim.walk }
    requires walk { MayGoOn (S.content store) aim.root aim.walk }
    ensures next { IfOk result (λ outcome. next_of S.content outcome
        ≡ moved program.now limits.now aim.root aim.goals.items (S.content store) id
        (move program.now (S.content store) id)) }
    ensures inner { IfOk result (λ outcome. IsFalse (is_inner outcome)) }
{
    match store.kind(id) {
        Kind::SetCall(function) => {
            let call = SetCall { id, function };
            set_call::begin(alloc, program, store, aim, call, limits)
        }
        _ => {
            let redex = Redex { alloc, store, id };
            let graphs = redex.rewrite_step(program, workspace)?;
            following(alloc, graphs, aim, limits)
        }
    }
}

/// What becomes of a branch that is not too large and in which no search runs,
/// by what its value needs.
#[tactic(auto, using(crate::proofs::StepLemmas::steps))]
fn by_need<S: Store>(
    alloc: Global,
    program: &FlatProgram,
    workspace: &mut Workspace,
    store: S,
    aim: Aim,
    limits: &Limits,
) -> Result<Outcome<S>, AllocError>
    requires valid { IsValid program.now
        (state.Branch (S.content store) aim.root aim.goals.items Idle) }
    requires walk { MayGoOn (S.content store) aim.root aim.walk }
    ensures well_formed { IsTrue (is_well_formed program.now) }
    ensures next { IfOk result (λ outcome. next_of S.content outcome
        ≡ next_by program.now limits.now (S.content store) aim.root aim.goals.items
        (need_all program.now.special.truth (S.content store) aim.root)) }
    ensures inner { IfOk result (λ outcome. IsFalse (is_inner outcome)) }
{
    let truth = program.special().truth;
    let Aim { root, goals, walk } = aim;
    match need::find(alloc, &store, truth, root, walk)? {
        Demand::There(id) => answered(alloc, &store, id, goals.as_slice(), limits),
        Demand::Dead => Ok(Outcome::Fail),
        Demand::Wait(ids) => {
            let names = waited::names(alloc, &store, goals.as_slice(), ids.as_slice())?;
            Ok(Outcome::Wait(names))
        }
        Demand::Rewrite(id, walk) => {
            let aim = Aim { root, goals, walk };
            rewrite_step(alloc, program, workspace, store, aim, id, limits)
        }
    }
}

/// One step of a branch in which no search runs. A branch in which a search
/// runs is given back as it was. An `Err` says that memory ran out, or that a
/// graph has 4,294,967,295 nodes and needs one more.
pub fn step<S: Store>(
    alloc: Global,
    program: &FlatProgram,
    branch: Branch<S>,
    limits: &Limits,
) -> Result<Outcome<S>, AllocError>
    requires valid { IsValid program.now (state_of S.content branch) }
    ensures inner { IfOk result (λ outcome. is_inner outcome
        ≡ is_running (state_of S.content branch)) }
    ensures same { IfOk result (λ outcome. IsTrue (is_running (state_of S.content branch))
        → outcome ≡ Inner branch) }
    ensures next { IfOk result (λ outcome. IsFalse (is_running (state_of S.content branch))
        → next_of S.content outcome ≡ next program.now limits.now (state_of S.content branch)) }
    ensures valid { IfOk result
        (λ outcome. All (λ branch. IsValid program.now (state_of S.content branch))
        (branches_of outcome)) }
{
    let mut workspace = Workspace::new(alloc);
    step_with(alloc, program, &mut workspace, branch, limits)
}

/// One step as by [`step`], with the lists of a workspace, which may have been
/// used by other steps before.
pub fn step_with<S: Store>(
    alloc: Global,
    program: &FlatProgram,
    workspace: &mut Workspace,
    branch: Branch<S>,
    limits: &Limits,
) -> Result<Outcome<S>, AllocError>
    requires valid { IsValid program.now (state_of S.content branch) }
    ensures inner { IfOk result (λ outcome. is_inner outcome
        ≡ is_running (state_of S.content branch)) }
    ensures same { IfOk result (λ outcome. IsTrue (is_running (state_of S.content branch))
        → outcome ≡ Inner branch) }
    ensures next { IfOk result (λ outcome. IsFalse (is_running (state_of S.content branch))
        → next_of S.content outcome ≡ next program.now limits.now (state_of S.content branch)) }
    ensures valid { IfOk result
        (λ outcome. All (λ branch. IsValid program.now (state_of S.content branch))
        (branches_of outcome)) }
{
    if branch.is_running() {
        return Ok(Outcome::Inner(branch));
    }
    if is_too_large(&branch.focus.store, limits) {
        return Ok(Outcome::Stop(too_large(limits)));
    }
    let BranchOver {
        focus,
        goals,
        search: _,
    } = branch;
    let Focus { store, root, walk } = focus;
    by_need(
        alloc,
        program,
        workspace,
        store,
        Aim { root, goals, walk },
        limits,
    )
}
