//! What a graph can do, however it is kept.
ghost use Rattle.std.specs.Prelude.{◌≡◌, ◌<◌, ◌+◌, ◌-◌, ◌^◌, List, [], ◌∷◌, ◌++◌, IfOk, OnErr, OnOk, length, map, replicate, slice_index, slice_set};
ghost use Rattle.cu_machine.specs.Graph.{Node, node_at};

use crate::node_ref::NodeRef;
use cu_machine::Kind;
use std::alloc::{AllocError, Global};

/// A graph that is kept as a list of nodes. Nodes are named by their indices,
/// and none is ever taken away.
pub trait Store: Sized + Send + Drop {
    /// The nodes of the graph, however they are kept.
    ghost content: { Self → List Node };

    /// A graph without nodes.
    fn empty(alloc: Global) -> Result<Self, AllocError>
        ensures { IfOk result (λ store. content store ≡ []) };

    /// How many nodes there are.
    fn len(&self) -> u32
        ensures { result ≡ length (content self.now) };

    /// A node: what it is, and the indices of its arguments.
    fn node(&self, id: u32) -> NodeRef<'_>
        requires { id < length (content self.now) }
        ensures kind { result.kind ≡ (node_at (content self.now) id).kind }
        ensures args { result.args.now ≡ (node_at (content self.now) id).args }
        ensures few { length result.args.now < 2 ^ 32 };

    /// What a node is.
    fn kind(&self, id: u32) -> Kind
        requires { id < length (content self.now) }
        ensures { result ≡ (node_at (content self.now) id).kind };

    /// How many arguments a node has.
    fn arity(&self, id: u32) -> u32
        requires { id < length (content self.now) }
        ensures { result ≡ length (node_at (content self.now) id).args };

    /// The index of the node that is a node's argument; arguments are counted
    /// from 0.
    fn arg(&self, id: u32, i: u32) -> u32
        requires node { id < length (content self.now) }
        requires argument { i < length (node_at (content self.now) id).args }
        ensures { result ≡ slice_index (node_at (content self.now) id).args i };

    /// Adds a node, and answers its index. An `Err` changes nothing; a node of
    /// more than 4,294,967,295 arguments gives one too, and so may any node of
    /// a graph that has so many in all.
    fn push(&mut self, kind: Kind, args: &[u32]) -> Result<u32, AllocError>
        requires { length (content self.old) < 2 ^ 32 - 1 }
        ensures place { IfOk result (λ id. id ≡ length (content self.old)) }
        ensures ok { OnOk result (content self.new
            ≡ content self.old ++ record { kind = kind; args = args.now } ∷ []) }
        ensures err { OnErr result (content self.new ≡ content self.old) };

    /// Puts another node in the place of one. An `Err` changes nothing; what
    /// gives one where a node is added gives one here too.
    fn put(&mut self, id: u32, kind: Kind, args: &[u32]) -> Result<(), AllocError>
        requires { id < length (content self.old) }
        ensures ok { OnOk result (content self.new
            ≡ slice_set (content self.old) id (record { kind = kind; args = args.now })) }
        ensures err { OnErr result (content self.new ≡ content self.old) };

    /// As many graphs as asked for, with the same nodes. Later writes to one
    /// of them are not seen in the others.
    fn fork(self, count: u32) -> Result<Vec<Self>, AllocError>
        requires { 0 < count }
        ensures { IfOk result (λ stores. map content stores.items
            ≡ replicate count (content self)) };
}
