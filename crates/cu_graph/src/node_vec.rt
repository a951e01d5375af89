//! Lists of nodes in flat arrays.
ghost use Rattle.std.specs.Prelude.{◌≡◌, ◌<◌, [], ◌∷◌, ◌++◌, ◌^◌, IfOk, OnErr, OnOk, length, slice_set};
ghost use Rattle.cu_machine.specs.Graph.{node_at};
ghost use Rattle.cu_graph.specs.Inside.Packing.{IsEntryOf, KeepsNodes};

use crate::node_ref::NodeRef;
use crate::small::SmallKind;
use cu_machine::Kind;
use std::alloc::{AllocError, Global};
use std::marker::Model;
use std::mem::size_of;

/// For how many elements more there is room at least in a list that was moved.
const LEAST_ROOM: usize = 4;

/// The most elements that a list has that is moved to have more room.
const MOST_MOVED: usize = 1_024;

/// A node: what it is, and where its arguments stand among those of all nodes.
#[derive(Clone, Copy)]
struct Entry {
    kind: SmallKind,
    start: u32,
    arity: u32,
}

const _: () = prove!(size_of::<Entry>() == 16);

/// A list of nodes in flat arrays. One has an entry of 16 bytes for each node:
/// its kind, and where its arguments begin. Another one has the arguments of
/// all nodes, and a third one the kinds that don't fit in an entry. Nodes are
/// named by their indices.
///
/// A node that is put in the place of another has its arguments written after
/// those of all nodes, and its kind after the others if it is wide; the old
/// ones become stale. Before that, `put` drops what is stale if that is more
/// than there are nodes, and more than the arguments and wide kinds in use. So
/// a `put` begins to write with no more stale than there are nodes, or
/// arguments and wide kinds in use, whichever is more, and what calls take is
/// amortised in proportion to what they write. What a call wrote before it
/// found no more memory isn't counted.
#[derive(Drop)]
pub struct NodeVec {
    alloc: Global,
    entries: Vec<Entry>,
    args: Vec<u32>,
    /// The kinds of nodes that don't fit in an entry.
    wide: Vec<Kind>,
    /// How many of the arguments and wide kinds are stale.
    stale: usize,
}

impl Model for NodeVec {
    ghost use Rattle.cu_machine.specs.Graph.{Graph};

    ghost Value = { Graph };

    ghost use Rattle.cu_graph.specs.FlatArrays.{AreWithin, nodes_of};

    ghost view = { λ v. nodes_of v.wide.items v.args.items v.entries.items };

    ghost invariant = { λ v. AreWithin v.wide.items v.args.items v.entries.items };
}

impl Entry {
    /// How many arguments and wide kinds are written for the node.
    fn written(self) -> usize {
        let arguments = self.arity as usize;
        match self.kind {
            SmallKind::Wide(_) => arguments + 1,
            _ => arguments,
        }
    }
}

/// Makes room in a list for so many elements more, if it is small. A large one
/// makes room by itself.
#[inline(always)]
fn make_room<T: Copy>(list: &mut Vec<T>, more: usize) -> Result<(), AllocError>
    ensures { list.new.items ≡ list.old.items }
{
    let count = list.len();
    if more <= list.capacity().saturating_sub(count) || count > MOST_MOVED {
        return Ok(());
    }
    move_to_room(list, more)
}

/// Moves a list to memory that is taken anew, with room for so many elements
/// more. A list by itself makes its memory larger where it is. There glibc holds
/// the lock of the arena that the memory is from, for which other threads wait.
#[inline(never)]
fn move_to_room<T: Copy>(list: &mut Vec<T>, more: usize) -> Result<(), AllocError>
    ensures { list.new.items ≡ list.old.items }
{
    let count = list.len();
    let room = count.saturating_add(more.max(count).max(LEAST_ROOM));
    let mut moved = Vec::with_capacity(*list.allocator(), room)?;
    moved.extend_from_slice(list.as_slice())?;
    *list = moved;
    Ok(())
}

/// Writes a node's arguments after those of all nodes, and its kind after the
/// wide ones if it is wide. An `Err` changes no node.
fn append(
    wide: &mut Vec<Kind>,
    all: &mut Vec<u32>,
    kind: Kind,
    args: &[u32],
) -> Result<Entry, AllocError>
    ensures ok { IfOk result (λ entry. IsEntryOf wide.new.items all.new.items entry
        (record { kind = kind; args = args.now })) }
    ensures kept { KeepsNodes wide.old.items all.old.items wide.new.items all.new.items }
{
    let start = all.len();
    if start > u32::MAX as usize || args.len() > u32::MAX as usize {
        return Err(AllocError);
    }
    let kind = SmallKind::pack(wide, kind)?;
    make_room(all, args.len())?;
    all.extend_from_slice(args)?;
    Ok(Entry {
        kind,
        start: start as u32,
        arity: args.len() as u32,
    })
}

impl NodeVec {
    /// The list without nodes. It takes no memory yet.
    pub fn new(alloc: Global) -> NodeVec
        ensures { result ≡ [] }
    {
        NodeVec {
            alloc,
            entries: Vec::new(alloc),
            args: Vec::new(alloc),
            wide: Vec::new(alloc),
            stale: 0,
        }
    }

    /// How many nodes there are.
    pub fn len(&self) -> usize
        ensures { result ≡ length self.now }
    {
        self.entries.len()
    }

    /// A node: what it is, and the indices of its arguments.
    #[inline(always)]
    pub fn node(&self, index: usize) -> NodeRef<'_>
        requires { index < length self.now }
        ensures kind { result.kind ≡ (node_at self.now index).kind }
        ensures args { result.args.now ≡ (node_at self.now index).args }
        ensures few { length result.args.now < 2 ^ 32 }
    {
        let entry = self.entries[index];
        let start = entry.start as usize;
        NodeRef {
            kind: entry.kind.kind(&self.wide),
            args: &self.args[start..start + entry.arity as usize],
        }
    }

    /// Adds a node after the others. An `Err` changes nothing; a node of more
    /// than 4,294,967,295 arguments gives one too, and any node after so many
    /// arguments or wide kinds, also stale ones.
    pub fn push(&mut self, kind: Kind, args: &[u32]) -> Result<(), AllocError>
        ensures ok { OnOk result (self.new
            ≡ self.old ++ record { kind = kind; args = args.now } ∷ []) }
        ensures err { OnErr result (self.new ≡ self.old) }
    {
        make_room(&mut self.entries, 1)?;
        let entry = append(&mut self.wide, &mut self.args, kind, args)?;
        self.entries.push(entry)?;
        Ok(())
    }

    /// Puts another node in the place of one. An `Err` changes nothing; what
    /// gives one in `push` gives one here too.
    pub fn put(&mut self, index: usize, kind: Kind, args: &[u32]) -> Result<(), AllocError>
        requires { index < length self.old }
        ensures ok { OnOk result (self.new
            ≡ slice_set self.old index (record { kind = kind; args = args.now })) }
        ensures err { OnErr result (self.new ≡ self.old) }
    {
        if self.is_sparse() {
            self.compact()?;
        }
        self.write(index, kind, args)
    }

    /// A copy of the list: of each array as it is.
    pub fn copied(&self) -> Result<NodeVec, AllocError>
        ensures { IfOk result (λ copy. copy ≡ self.now) }
    {
        let entries = Vec::from_slice(self.alloc, self.entries.as_slice())?;
        let args = Vec::from_slice(self.alloc, self.args.as_slice())?;
        let wide = Vec::from_slice(self.alloc, self.wide.as_slice())?;
        Ok(NodeVec {
            alloc: self.alloc,
            entries,
            args,
            wide,
            stale: self.stale,
        })
    }

    /// Whether so much is stale that it pays to copy the rest.
    fn is_sparse(&self) -> bool {
        let written = self.args.len() + self.wide.len();
        self.stale > self.entries.len() && self.stale > written / 2
    }

    /// Drops what is stale.
    fn compact(&mut self) -> Result<(), AllocError>
        ensures { self.new ≡ self.old }
    {
        *self = self.compacted()?;
        Ok(())
    }

    /// A copy of the list without what is stale.
    fn compacted(&self) -> Result<NodeVec, AllocError>
        ensures { IfOk result (λ copy. copy ≡ self.now) }
    {
        let mut copy = NodeVec::new(self.alloc);
        for index in 0..self.len() {
            let node = self.node(index);
            copy.push(node.kind, node.args)?;
        }
        Ok(copy)
    }

    /// Writes another node in the place of one, and its arguments and its kind
    /// after the others as `append` does. The old ones become stale.
    fn write(&mut self, index: usize, kind: Kind, args: &[u32]) -> Result<(), AllocError>
        requires { index < length self.old }
        ensures ok { OnOk result (self.new
            ≡ slice_set self.old index (record { kind = kind; args = args.now })) }
        ensures err { OnErr result (self.new ≡ self.old) }
    {
        let entry = append(&mut self.wide, &mut self.args, kind, args)?;
        let old = self.entries[index].written();
        self.stale = self.stale.saturating_add(old);
        self.entries[index] = entry;
        Ok(())
    }
}
