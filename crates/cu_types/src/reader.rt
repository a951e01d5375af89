//! Reading types into a table by hash consing.
ghost use Rattle.std.specs.Prelude.{◌≡◌, ◌<◌, ℕ, IfOk, IfSome, OnOk, Some, length, map, slice_get};
ghost use Rattle.cu_kernel.specs.TypeExpr as type;
ghost use Rattle.cu_kernel.specs.TypesOf.{type_of};
ghost use Rattle.cu_types.specs.Inside.Reading.{AllRead, IsReader, Reads, shapes};
ghost use Rattle.cu_types.specs.Table as shape;
ghost use Rattle.cu_types.specs.Table.{IsFull, at, built, trees};

use crate::{Node, TypeHead};
use cu_kernel::{TypeName, TypeTerm};
use indexmap::IndexMap;
use std::alloc::{AllocError, Global};

/// A number to multiply by: 2^64 divided by the golden ratio, made odd. It
/// keeps the hashes of pairs of small numbers apart.
const FACTOR: usize = 0x9E37_79B9_7F4A_7C15;

/// The number of a head.
fn head_number(head: TypeHead) -> usize {
    match head {
        TypeHead::Arrow => 0,
        TypeHead::Named(TypeName::Data(data)) => data.0.wrapping_mul(2).wrapping_add(1),
        TypeHead::Named(TypeName::Synonym(synonym)) => synonym.0.wrapping_mul(2).wrapping_add(2),
    }
}

/// A hash of a head with arguments at these places. Nothing is claimed of it:
/// equal hashes only lead to a comparison.
fn hash_of(head: TypeHead, arguments: &[usize]) -> usize {
    let mut hash = head_number(head);
    for argument in arguments {
        hash = hash.wrapping_mul(FACTOR).wrapping_add(*argument);
    }
    hash
}

/// Types that are read into a table by hash consing. A type with a head is
/// looked for by a hash of its head and of its arguments' places before it is
/// added, so that equal types share one place, unless another type with the
/// hash was added since.
#[derive(Drop)]
pub(crate) struct Reader {
    /// The table.
    pub(crate) nodes: Vec<Node>,
    /// Where each variable stands.
    pub(crate) variables: IndexMap<u32, usize>,
    /// Where the last type with a hash was added. This is a hint: the type
    /// there is compared with the one that is looked for.
    pub(crate) added: IndexMap<usize, usize>,
}

impl Reader {
    /// The reader of an empty table.
    pub(crate) fn new(alloc: Global) -> Reader
        ensures { IsReader result }
    {
        Reader {
            nodes: Vec::new(alloc),
            variables: IndexMap::new(alloc),
            added: IndexMap::new(alloc),
        }
    }

    /// The place of a type variable, which is added where the table lacks it.
    pub(crate) fn variable(&mut self, x: u32) -> Result<usize, AllocError>
        requires { IsReader self.old }
        ensures reader { OnOk result (IsReader self.new) }
        ensures read { IfOk result (Reads (shapes self.old) (shapes self.new) (type.Variable x)) }
    {
        if let Some(place) = self.variables.get(&x) {
            return Ok(*place);
        }
        let place = self.nodes.len();
        self.variables.insert(x, place)?;
        self.nodes.push(Node::Variable(x))?;
        Ok(place)
    }

    /// The place of a type with this head and these arguments, if the last type
    /// with this hash is such a type.
    fn place_of(&self, hash: usize, head: TypeHead, arguments: &[usize]) -> Option<usize>
        ensures { IfSome result (λ place. slice_get (shapes self.now) place
            ≡ Some (shape.Applied head arguments.now)) }
    {
        let place = *self.added.get(&hash)?;
        let node = self.nodes.get(place)?;
        if node.has_arguments(head, arguments) {
            Some(place)
        } else {
            None
        }
    }

    /// The place of a type that has its arguments in the table. It is added
    /// where no equal type is found there.
    pub(crate) fn apply(
        &mut self,
        head: TypeHead,
        arguments: Vec<usize>,
    ) -> Result<usize, AllocError>
        requires reader { IsReader self.old }
        requires full { IsFull head (length arguments.items) }
        requires within { (k a : ℕ) → slice_get arguments.items k ≡ Some a
            → a < length (shapes self.old) }
        ensures reader { OnOk result (IsReader self.new) }
        ensures read { IfOk result (Reads (shapes self.old) (shapes self.new)
            (built head (map (at (trees (shapes self.old))) arguments.items))) }
    {
        let hash = hash_of(head, arguments.as_slice());
        if let Some(place) = self.place_of(hash, head, arguments.as_slice()) {
            return Ok(place);
        }
        let place = self.nodes.len();
        self.added.insert(hash, place)?;
        self.nodes.push(Node::Applied(head, arguments))?;
        Ok(place)
    }
}
