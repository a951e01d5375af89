//! The walk that finds what the value of a node needs.
ghost use Rattle.std.specs.Prelude.{◌≡◌, ◌<◌, ℕ, [], IfOk, IfSome, IfNone, OnOk, length, option_map, slice_set, false};
ghost use Rattle.cu_calculus.specs.declared.ConId.{ConId};
ghost use Rattle.cu_machine.specs.Graph.{Graph, head_at, head_of};
ghost use Rattle.cu_machine.specs.Need as need;
ghost use Rattle.cu_machine.specs.Need.{need_all};
ghost use Rattle.cu_machine.specs.Validity.{ArgumentsThere, IsAcyclic};
ghost use Rattle.cu_step.specs.declared.need.Ask.TheVariants as ask;
ghost use Rattle.cu_step.specs.Inside.Kept.{DemandFits, Ends, EndsAt, IsKept, MayGoOn, Stands, StandsAtNode, ends_with, first_node, last_ask, last_node, resumed, without_own};
ghost use Rattle.cu_step.specs.Inside.Needed.{need_in, need_of};
ghost use Rattle.cu_step.specs.Inside.Walk.{Fits, Goes, Marked, asked_of, at_once, entered_at, found, is_inside, left, left_answer, look_all, look_bound, look_first, look_head, look_inside, look_true, looked, mark_at, mark_of, met, outcome, outside_of, so_far, unseen_all, waited, waited_for, with_frame, with_mark};

use crate::head;
use cu_flat::{ConId, Mode, Prim};
use cu_graph::{Kind, Store};
use indexmap::IndexSet;
use std::alloc::{AllocError, Global};

/// For how many frames more a copy of a walk has room.
const MORE_FRAMES: usize = 8;

/// What the whole value of a node needs next.
#[derive(Drop)]
pub(crate) enum Demand {
    /// The value needs nothing: it is there, and this node has it too.
    There(u32),
    /// The node has no value.
    Dead,
    /// The value needs that one of these free variables is bound.
    Wait(IndexSet<u32>),
    /// The value needs that the node with this index is rewritten. The walk to
    /// it is kept where nothing that was met waits.
    Rewrite(u32, Option<KeptWalk>),
}

/// A walk that is kept: the frames that were open when it found a node to be
/// rewritten. The next walk goes on from them, at that node.
#[derive(Drop)]
pub(crate) struct KeptWalk {
    /// The constructor that the sides of a conjunction are to have.
    pub(crate) truth: ConId,
    pub(crate) frames: Vec<Frame>,
    /// The node that was to be rewritten.
    pub(crate) place: u32,
}

/// What a walk finds before all nodes are looked at.
#[derive(Clone, Copy)]
enum Needed {
    /// The node has no value.
    Dead,
    /// The value needs that the node with this index is rewritten.
    At(u32),
}

/// What a node asks of its arguments.
#[derive(Clone, Copy)]
pub(crate) enum Ask {
    /// The arguments are to have their heads.
    Head,
    /// The arguments are to have their heads, and these are to be no free
    /// variables.
    Bound,
    /// The arguments are to be True.
    Truth,
    /// The whole values of the arguments are to be there.
    All,
    /// The arguments of a set function, whose values are there, are to have no
    /// free variables in them.
    Ground,
    /// A part of a set function's argument is to have no free variables in it.
    Inside,
}

/// What is known of a node's need.
#[derive(Clone, Copy)]
enum Mark {
    /// Nothing is known of the node yet.
    Unseen,
    /// What is asked of the node is there.
    There,
    /// The node waits. A node whose arguments are still looked at is held to
    /// wait.
    Waits,
}

/// A frame of the walk: a node whose arguments are looked at from left to
/// right.
#[derive(Clone, Copy)]
pub(crate) struct Frame {
    node: u32,
    ask: Ask,
    /// The number of the argument that is looked at next.
    next: u32,
    /// Whether one of the arguments before the next one waits.
    waits: bool,
}

/// What a look at an argument shows.
#[derive(Clone, Copy)]
enum Look {
    /// What is asked is there.
    There,
    /// The argument waits for ever.
    Stuck,
    /// The argument is the free variable with this index, which is waited for.
    Free(u32),
    /// The node with this index asks something of its arguments.
    Node(u32, Ask),
    /// The argument has no value.
    Dead,
    /// The node with this index is to be rewritten.
    At(u32),
}

/// What a walk found so far.
#[derive(Drop)]
struct Walk {
    /// The nodes whose arguments are being looked at, each below the one
    /// before it.
    frames: Vec<Frame>,
    /// What is known of each node with regard to its whole value. The list is
    /// empty as long as no marks are kept.
    whole: Vec<Mark>,
    /// What is known of each node with regard to free variables in its value.
    /// The list is empty as long as no marks are kept.
    inside: Vec<Mark>,
    /// Whether anything waits.
    waits: bool,
    /// The variables that are waited for, in the order in which they were met.
    ids: IndexSet<u32>,
}

/// How many looks there are for each node where no node is met twice: at the
/// node, and at the way to it, once for all of its value and once for the free
/// variables in it.
const LOOKS_PER_NODE: usize = 4;

/// What the whole value of a node needs. The walk goes on from the one that is
/// kept, where there is one, and begins at the node otherwise.
pub(crate) fn find<S: Store>(
    alloc: Global,
    store: &S,
    truth: ConId,
    root: u32,
    kept: Option<KeptWalk>,
) -> Result<Demand, AllocError>
    requires root { root < length (S.content store.now) }
    requires arguments { ArgumentsThere (S.content store.now) }
    requires acyclic { IsAcyclic (S.content store.now) }
    requires kept { MayGoOn (S.content store.now) root kept }
    ensures need { IfOk result (λ demand. need_in demand
        ≡ need_all truth (S.content store.now) root) }
    ensures fits { IfOk result (λ demand.
        DemandFits truth (S.content store.now) root demand) }
{
    let KeptWalk {
        truth: _,
        frames,
        place,
    } = going_on(alloc, truth, root, kept);
    let start = first_node(frames.as_slice(), place);
    let mut walk = Walk::from_frames(alloc, frames);
    match walk.search(store, truth, root, place)? {
        Some(Needed::Dead) => Ok(Demand::Dead),
        Some(Needed::At(id)) => Ok(Demand::Rewrite(id, walk.kept(truth, id))),
        None => Ok(walk.demand(start)),
    }
}

/// The walk that goes on: the one that is kept, if it asks for the same truth,
/// or else the one that begins at the root.
fn going_on(alloc: Global, truth: ConId, root: u32, kept: Option<KeptWalk>) -> KeptWalk
    ensures { (graph : Graph) → root < length graph → MayGoOn graph root kept
        → (result.place < length graph)
        × IsKept truth graph root result.frames.items result.place }
{
    if let Some(walk) = kept {
        if walk.truth.0 == truth.0 {
            return walk;
        }
    }
    KeptWalk {
        truth,
        frames: Vec::new(alloc),
        place: root,
    }
}

/// The node at which frames begin, or else the place of the walk.
fn first_node(frames: &[Frame], place: u32) -> u32
    ensures { result ≡ first_node place frames.now }
{
    match frames {
        [frame, ..] => frame.node,
        [] => place,
    }
}

/// Leaves the last frame, where it is one of this node.
fn leave_own(frames: &mut Vec<Frame>, id: u32)
    ensures { frames.new.items ≡ without_own id frames.old.items }
{
    if ends_with(frames.as_slice(), id) {
        frames.pop();
    }
}

/// Whether the last frame is one of this node.
fn ends_with(frames: &[Frame], id: u32) -> bool
    ensures { result ≡ ends_with id frames.now }
{
    match frames {
        [.., frame] => frame.node == id,
        [] => false,
    }
}

/// A look at an argument of a node.
fn look_at<S: Store>(store: &S, truth: ConId, node: u32, ask: Ask, arg: u32) -> Look
    ensures { result ≡ looked truth node ask (head_of (S.content store.now) arg)
        (head_at (S.content store.now) arg).kind (head_at (S.content store.now) arg).args }
{
    let (id, head) = head::read(store, arg);
    match ask {
        Ask::Head => at_head(id, head.kind, head.args),
        Ask::Bound => bound(id, head.kind, head.args),
        Ask::Truth => true_side(truth, node, id, head.kind, head.args),
        Ask::All => all(id, head.kind, head.args),
        Ask::Ground | Ask::Inside => inside(id, head.kind),
    }
}

/// A look at a node that is to have its head.
fn at_head(id: u32, kind: Kind, args: &[u32]) -> Look
    ensures { result ≡ look_head id kind args.now }
{
    match kind {
        Kind::Cons(_) | Kind::Lit(_) | Kind::Part(_) | Kind::Free => Look::There,
        Kind::Call(_) | Kind::Or => Look::At(id),
        Kind::Prim(Prim::Unify) => Look::Node(id, Ask::Head),
        Kind::Prim(Prim::And) => Look::Node(id, Ask::Truth),
        Kind::Prim(_) => Look::Node(id, Ask::Bound),
        Kind::Apply | Kind::Case(Mode::Rigid, _) => at_first(id, Ask::Bound, args),
        Kind::Case(Mode::Flex, _) => at_first(id, Ask::Head, args),
        Kind::SetCall(_) => Look::Node(id, Ask::All),
        Kind::Fail => Look::Dead,
        Kind::Ind | Kind::Stuck => Look::Stuck,
    }
}

/// A look at a node that asks something of its first argument.
fn at_first(id: u32, ask: Ask, args: &[u32]) -> Look
    ensures { result ≡ look_first id ask args.now }
{
    match args.first() {
        Some(_) => Look::Node(id, ask),
        None => Look::Stuck,
    }
}

/// A look at a node that is to have its head, and this is to be no free
/// variable.
fn bound(id: u32, kind: Kind, args: &[u32]) -> Look
    ensures { result ≡ look_bound id kind args.now }
{
    match kind {
        Kind::Free => Look::Free(id),
        _ => at_head(id, kind, args),
    }
}

/// A look at a side of the conjunction at `node`.
fn true_side(truth: ConId, node: u32, id: u32, kind: Kind, args: &[u32]) -> Look
    ensures { result ≡ look_true truth node id kind args.now }
{
    match kind {
        Kind::Cons(c) if c.0 == truth.0 => Look::There,
        Kind::Cons(_) | Kind::Lit(_) | Kind::Part(_) => Look::At(node),
        _ => bound(id, kind, args),
    }
}

/// A look at a node whose whole value is to be there.
fn all(id: u32, kind: Kind, args: &[u32]) -> Look
    ensures { result ≡ look_all id kind args.now }
{
    match kind {
        Kind::Cons(_) | Kind::Part(_) => Look::Node(id, Ask::All),
        _ => at_head(id, kind, args),
    }
}

/// A look at a node that is to have no free variables in its value.
fn inside(id: u32, kind: Kind) -> Look
    ensures { result ≡ look_inside id kind }
{
    match kind {
        Kind::Cons(_) | Kind::Part(_) => Look::Node(id, Ask::Inside),
        Kind::Free => Look::Free(id),
        _ => Look::There,
    }
}

/// What is known of a node by these marks.
fn mark_at(marks: &[Mark], id: u32) -> Mark
    ensures { result ≡ mark_at marks.now id }
{
    match marks.get(id as usize) {
        Some(mark) => *mark,
        None => Mark::Unseen,
    }
}

/// Keeps what is known of a node, where marks are kept.
fn put_mark(marks: &mut Vec<Mark>, id: u32, mark: Mark)
    ensures { marks.new.items ≡ slice_set marks.old.items id mark }
{
    if (id as usize) < marks.len() {
        marks[id as usize] = mark;
    }
}

/// The number of its arguments of which a node of this kind asks something.
fn looked_at_count(kind: Kind, args: &[u32]) -> usize
    ensures { result ≡ length (asked_of kind args.now) }
{
    match kind {
        Kind::Apply | Kind::Case(_, _) if !args.is_empty() => 1,
        _ => args.len(),
    }
}

impl Walk {
    /// A walk that goes on from these frames, keeps no marks, and has found
    /// nothing that waits.
    fn from_frames(alloc: Global, frames: Vec<Frame>) -> Walk
        ensures { found result
            ≡ record { frames = frames.items; whole = []; inside = []; waits = false; ids = [] } }
    {
        Walk {
            frames,
            whole: Vec::new(alloc),
            inside: Vec::new(alloc),
            waits: false,
            ids: IndexSet::new(alloc),
        }
    }

    /// Looks on from a place until it is known what is needed, or nothing is
    /// left to look at. Marks are kept from when a node must have been met
    /// twice. From then on a node's arguments are looked at once for its whole
    /// value, and once for the free variables in it where a set function asks
    /// for them.
    fn search<S: Store>(
        &mut self,
        store: &S,
        truth: ConId,
        root: u32,
        place: u32,
    ) -> Result<Option<Needed>, AllocError>
        requires root { root < length (S.content store.now) }
        requires place { place < length (S.content store.now) }
        requires arguments { ArgumentsThere (S.content store.now) }
        requires acyclic { IsAcyclic (S.content store.now) }
        requires begins { found self.old ≡ resumed (found self.old).frames }
        requires kept { IsKept truth (S.content store.now) root (found self.old).frames place }
        ensures answer { IfOk result (λ answer. IfSome answer (λ needed.
            need_of needed ≡ need_all truth (S.content store.now) root)) }
        ensures none { IfOk result (λ answer. IfNone answer (
            so_far (found self.new) ≡ need_all truth (S.content store.now) root)) }
        ensures ends { IfOk result (λ answer. IfSome answer (λ needed.
            EndsAt truth (S.content store.now) root (found self.new) (need_of needed))) }
    {
        let (node, ask) = self.innermost(root);
        let first = look_at(store, truth, node, ask, place);
        if let Some(needed) = self.meet(first)? {
            return Ok(Some(needed));
        }
        'unmarked: for _ in 0..LOOKS_PER_NODE * store.len() as usize {
            let Some(frame) = self.innermost_frame() else {
                return Ok(None);
            };
            if let Some(needed) = self.advance(store, truth, frame)? {
                return Ok(Some(needed));
            }
        }
        self.keep_marks(store.len())?;
        self.finish(store, truth)
    }

    /// The innermost node and what it asks, or the root, of which the whole
    /// value is asked.
    fn innermost(&self, root: u32) -> (u32, Ask)
        ensures node { result.0 ≡ last_node root (found self.now).frames }
        ensures ask { result.1 ≡ last_ask ask.All (found self.now).frames }
    {
        match self.frames.as_slice() {
            [.., frame] => (frame.node, frame.ask),
            [] => (root, Ask::All),
        }
    }

    /// Keeps marks of so many nodes, of which nothing is known yet.
    fn keep_marks(&mut self, count: u32) -> Result<(), AllocError>
        ensures { OnOk result (found self.new ≡ unseen_all (found self.old) count) }
    {
        self.whole.clear();
        self.whole.resize(count as usize, Mark::Unseen)?;
        self.inside.clear();
        self.inside.resize(count as usize, Mark::Unseen)?;
        Ok(())
    }

    /// Looks on until it is known what is needed, or nothing is left to look
    /// at.
    fn finish<S: Store>(&mut self, store: &S, truth: ConId) -> Result<Option<Needed>, AllocError>
        requires arguments { ArgumentsThere (S.content store.now) }
        requires acyclic { IsAcyclic (S.content store.now) }
        requires fits { Fits truth (S.content store.now) (found self.old) need.Done }
        requires marked { Marked (S.content store.now) (found self.old) }
        ensures answer { IfOk result (λ answer. IfSome answer (λ needed. need_of needed
            ≡ outcome truth (S.content store.now) (found self.old) need.Done)) }
        ensures none { IfOk result (λ answer. IfNone answer (so_far (found self.new)
            ≡ outcome truth (S.content store.now) (found self.old) need.Done)) }
        ensures ends { IfOk result (λ answer. IfSome answer (λ needed. (root : ℕ)
            → Stands truth (S.content store.now) root (found self.old)
            → EndsAt truth (S.content store.now) root (found self.new) (need_of needed))) }
    {
        while let Some(frame) = self.innermost_frame() {
            if let Some(needed) = self.advance(store, truth, frame)? {
                return Ok(Some(needed));
            }
        }
        Ok(None)
    }

    /// Takes what a look shows to the node that asked for it.
    fn meet(&mut self, look: Look) -> Result<Option<Needed>, AllocError>
        ensures answer { IfOk result (λ answer. option_map need_of answer ≡ at_once look) }
        ensures found { OnOk result (found self.new ≡ met (found self.old) look) }
    {
        match look {
            Look::There => Ok(None),
            Look::Stuck => {
                self.wait();
                Ok(None)
            }
            Look::Free(id) => {
                self.wait_for(id)?;
                Ok(None)
            }
            Look::Node(id, ask) => {
                self.enter(id, ask)?;
                Ok(None)
            }
            Look::Dead => Ok(Some(Needed::Dead)),
            Look::At(id) => Ok(Some(Needed::At(id))),
        }
    }

    /// Notes that the node that asked waits.
    fn wait(&mut self)
        ensures { found self.new ≡ waited (found self.old) }
    {
        self.waits = true;
        if let Some(frame) = self.innermost_frame() {
            self.put_innermost(Frame {
                waits: true,
                ..frame
            });
        }
    }

    /// Notes that the node that asked waits for a variable.
    #[tactic(auto, using(crate::proofs::Ordinals::numberings))]
    fn wait_for(&mut self, id: u32) -> Result<(), AllocError>
        ensures { OnOk result (found self.new ≡ waited_for (found self.old) id) }
    {
        self.ids.insert(id)?;
        self.wait();
        Ok(())
    }

    /// Looks at a node's arguments next. Where what it asks of them is known,
    /// the node that asked for it waits if this one does.
    fn enter(&mut self, id: u32, ask: Ask) -> Result<(), AllocError>
        ensures { OnOk result (found self.new
            ≡ entered_at (found self.old) id ask (mark_of (found self.old) (is_inside ask) id)) }
    {
        match self.mark(id, ask) {
            Mark::There => Ok(()),
            Mark::Waits => {
                self.wait();
                Ok(())
            }
            Mark::Unseen => {
                self.set_mark(id, ask, Mark::Waits);
                self.frames.push(Frame {
                    node: id,
                    ask,
                    next: 0,
                    waits: false,
                })?;
                Ok(())
            }
        }
    }

    /// What is known of a node with regard to what it asks of its arguments.
    fn mark(&self, id: u32, ask: Ask) -> Mark
        ensures { result ≡ mark_of (found self.now) (is_inside ask) id }
    {
        let marks = match ask {
            Ask::Inside => self.inside.as_slice(),
            _ => self.whole.as_slice(),
        };
        mark_at(marks, id)
    }

    /// Keeps what is known of a node with regard to what it asks, where marks
    /// are kept.
    fn set_mark(&mut self, id: u32, ask: Ask, mark: Mark)
        ensures { found self.new ≡ with_mark (found self.old) (is_inside ask) id mark }
    {
        match ask {
            Ask::Inside => put_mark(&mut self.inside, id, mark),
            _ => put_mark(&mut self.whole, id, mark),
        }
    }

    /// Looks at the next argument of the innermost node, or leaves the node
    /// where there is none.
    fn advance<S: Store>(
        &mut self,
        store: &S,
        truth: ConId,
        frame: Frame,
    ) -> Result<Option<Needed>, AllocError>
        requires arguments { ArgumentsThere (S.content store.now) }
        requires acyclic { IsAcyclic (S.content store.now) }
        requires innermost { found self.old ≡ with_frame (outside_of (found self.old)) frame }
        requires fits { Fits truth (S.content store.now) (found self.old) need.Done }
        ensures answer { IfOk result (λ answer. IfSome answer (λ needed. need_of needed
            ≡ outcome truth (S.content store.now) (found self.old) need.Done)) }
        ensures goes { IfOk result (λ answer. IfNone answer
            (Goes truth (S.content store.now) (found self.old) (found self.new))) }
        ensures stands { IfOk result (λ answer. IfNone answer ((root : ℕ)
            → Stands truth (S.content store.now) root (found self.old)
            → Stands truth (S.content store.now) root (found self.new))) }
        ensures ends { IfOk result (λ answer. IfSome answer (λ needed. (root : ℕ)
            → Stands truth (S.content store.now) root (found self.old)
            → EndsAt truth (S.content store.now) root (found self.new) (need_of needed))) }
    {
        let node = store.node(frame.node);
        let next = frame.next as usize;
        if next == looked_at_count(node.kind, node.args) {
            return Ok(self.leave(frame, node.kind));
        }
        let arg = node.args[next];
        self.put_innermost(Frame {
            next: frame.next + 1,
            ..frame
        });
        self.meet(look_at(store, truth, frame.node, frame.ask, arg))
    }

    /// Leaves the innermost node, which has this frame and is of this kind, and
    /// whose arguments were all looked at.
    fn leave(&mut self, frame: Frame, kind: Kind) -> Option<Needed>
        requires { 0 < length (found self.old).frames }
        ensures answer { option_map need_of result ≡ left_answer frame kind frame.waits }
        ensures found { found self.new
            ≡ left (outside_of (found self.old)) frame kind frame.waits }
    {
        match (kind, frame.ask) {
            _ if frame.waits => {
                self.drop_innermost();
                self.wait();
                None
            }
            (Kind::Cons(_) | Kind::Part(_), ask) => {
                self.drop_innermost();
                self.set_mark(frame.node, ask, Mark::There);
                None
            }
            (Kind::SetCall(_), Ask::All) => {
                self.put_innermost(Frame {
                    ask: Ask::Ground,
                    next: 0,
                    ..frame
                });
                None
            }
            _ => {
                self.drop_innermost();
                Some(Needed::At(frame.node))
            }
        }
    }

    /// The innermost frame, where there is one.
    fn innermost_frame(&self) -> Option<Frame>
        ensures some { IfSome result (λ frame.
            found self.now ≡ with_frame (outside_of (found self.now)) frame) }
        ensures none { IfNone result ((found self.now).frames ≡ []) }
    {
        match self.frames.as_slice() {
            [.., frame] => Some(*frame),
            [] => None,
        }
    }

    /// Puts a frame in the place of the innermost one.
    fn put_innermost(&mut self, frame: Frame)
        requires { 0 < length (found self.old).frames }
        ensures { found self.new ≡ with_frame (outside_of (found self.old)) frame }
    {
        let last = self.frames.len() - 1;
        self.frames[last] = frame;
    }

    /// Takes the innermost frame off.
    fn drop_innermost(&mut self)
        ensures { found self.new ≡ outside_of (found self.old) }
    {
        self.frames.pop();
    }

    /// What is needed where nothing is left to look at: the value is there, and
    /// the node at which the walk began has it, or something waits.
    fn demand(self, start: u32) -> Demand
        ensures need { need_in result ≡ so_far (found self) }
        ensures fits { (truth : ConId) (graph : Graph) (root : ℕ) → start < length graph
            → head_of graph root ≡ head_of graph start → DemandFits truth graph root result }
    {
        if self.waits {
            Demand::Wait(self.ids)
        } else {
            Demand::There(start)
        }
    }

    /// The walk that is kept where the node with this index is to be rewritten:
    /// none where something waits.
    fn kept(self, truth: ConId, id: u32) -> Option<KeptWalk>
        ensures { (graph : Graph) (root : ℕ) → id < length graph
            → Ends truth graph root (found self) id
            → StandsAtNode truth id result × MayGoOn graph root result }
    {
        if self.waits {
            return None;
        }
        let mut frames = self.frames;
        leave_own(&mut frames, id);
        Some(KeptWalk {
            truth,
            frames,
            place: id,
        })
    }
}

impl KeptWalk {
    /// A walk of its own that goes on as this one does.
    pub(crate) fn copied(&self, alloc: Global) -> Result<KeptWalk, AllocError>
        ensures { IfOk result (λ copy. (copy.truth ≡ self.now.truth)
            × (copy.frames.items ≡ self.now.frames.items) × (copy.place ≡ self.now.place)) }
    {
        let mut frames = Vec::with_capacity(alloc, self.frames.len().saturating_add(MORE_FRAMES))?;
        frames.extend_from_slice(self.frames.as_slice())?;
        Ok(KeptWalk {
            truth: self.truth,
            frames,
            place: self.place,
        })
    }
}
