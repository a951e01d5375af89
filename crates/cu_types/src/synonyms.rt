//! What synonyms stand for, and types in which they are expanded.
ghost use Rattle.std.specs.Prelude.{◌≡◌, ◌<◌, ◌↔◌, ℕ, IfOk, IsTrue, OnOk, Some, length, map, slice_get, slice_index};
ghost use Rattle.cu_kernel.specs.KernelOf.{synonym_meaning};
ghost use Rattle.cu_kernel.specs.TypeExpr.{TypeExpr};
ghost use Rattle.cu_kernel.specs.TypesOf.{type_of};
ghost use Rattle.cu_types.specs.Inside.Expanding.{IsVariable, head_expanded, name_expanded, shape_expanded};
ghost use Rattle.cu_types.specs.Inside.Reading.{AllRead, IsReader, Reads, shapes};
ghost use Rattle.cu_types.specs.Synonyms.{bodies, expanded_by, for_parameters};
ghost use Rattle.cu_types.specs.Table.{IsFull, IsTable, MayStand, at, shape_of, tree_over, trees};
ghost use Rattle.cu_types.specs.Types.{apply};

use crate::reader::Reader;
use crate::replacing::{Replacing, places_at};
use crate::{Node, SharedType, TypeHead};
use cu_kernel::{Program, Synonym, SynonymId, TypeName, TypeTerm};
use std::alloc::{AllocError, Global};

impl Reader {
    /// Adds what a synonym on arguments stands for.
    fn expand_synonym(
        &mut self,
        alloc: Global,
        synonyms: &[SharedType],
        synonym: SynonymId,
        arguments: &[usize],
    ) -> Result<usize, AllocError>
        requires reader { IsReader self.old }
        requires within { (k a : ℕ) → slice_get arguments.now k ≡ Some a
            → a < length (shapes self.old) }
        ensures reader { OnOk result (IsReader self.new) }
        ensures read { IfOk result (Reads (shapes self.old) (shapes self.new)
            (apply (for_parameters (map (at (trees (shapes self.old))) arguments.now))
            (at synonyms.now synonym.0))) }
    {
        match synonyms.get(synonym.0) {
            Some(shared) => {
                let place = self.add(alloc, shared, Replacing::Parameters(arguments))?;
                Ok(place)
            }
            None => {
                let place = self.parameter(0, arguments)?;
                Ok(place)
            }
        }
    }

    /// Adds the type of a name on arguments that name no synonym, with the name
    /// expanded if it is a synonym.
    fn expand_name(
        &mut self,
        alloc: Global,
        synonyms: &[SharedType],
        name: TypeName,
        arguments: Vec<usize>,
    ) -> Result<usize, AllocError>
        requires reader { IsReader self.old }
        requires within { (k a : ℕ) → slice_get arguments.items k ≡ Some a
            → a < length (shapes self.old) }
        ensures reader { OnOk result (IsReader self.new) }
        ensures read { IfOk result (Reads (shapes self.old) (shapes self.new)
            (name_expanded (at synonyms.now) name
            (map (at (trees (shapes self.old))) arguments.items))) }
    {
        match name {
            TypeName::Data(_) => {
                let place = self.apply(TypeHead::Named(name), arguments)?;
                Ok(place)
            }
            TypeName::Synonym(synonym) => {
                let place = self.expand_synonym(alloc, synonyms, synonym, arguments.as_slice())?;
                Ok(place)
            }
        }
    }

    /// Adds the type of a head on arguments that name no synonym, with the head
    /// expanded if it is a synonym.
    fn expand_head(
        &mut self,
        alloc: Global,
        synonyms: &[SharedType],
        head: TypeHead,
        arguments: Vec<usize>,
    ) -> Result<usize, AllocError>
        requires reader { IsReader self.old }
        requires full { IsFull head (length arguments.items) }
        requires within { (k a : ℕ) → slice_get arguments.items k ≡ Some a
            → a < length (shapes self.old) }
        ensures reader { OnOk result (IsReader self.new) }
        ensures read { IfOk result (Reads (shapes self.old) (shapes self.new)
            (head_expanded (at synonyms.now) head
            (map (at (trees (shapes self.old))) arguments.items))) }
    {
        match head {
            TypeHead::Arrow => {
                let place = self.apply(head, arguments)?;
                Ok(place)
            }
            TypeHead::Named(name) => {
                let place = self.expand_name(alloc, synonyms, name, arguments)?;
                Ok(place)
            }
        }
    }

    /// Adds a type of another table with synonyms expanded. The places are
    /// known at which the types before it were added.
    fn expand_node(
        &mut self,
        alloc: Global,
        synonyms: &[SharedType],
        node: &Node,
        places: &[usize],
    ) -> Result<usize, AllocError>
        requires reader { IsReader self.old }
        requires may { MayStand (length places.now) (shape_of node.now) }
        requires within { (k p : ℕ) → slice_get places.now k ≡ Some p
            → p < length (shapes self.old) }
        ensures reader { OnOk result (IsReader self.new) }
        ensures read { IfOk result (Reads (shapes self.old) (shapes self.new)
            (shape_expanded (at synonyms.now)
            (λ a. at (trees (shapes self.old)) (slice_index places.now a)) (shape_of node.now))) }
    {
        match node {
            Node::Variable(x) => {
                let place = self.variable(*x)?;
                Ok(place)
            }
            Node::Applied(head, arguments) => {
                let found = places_at(alloc, places, arguments.as_slice())?;
                let place = self.expand_head(alloc, synonyms, *head, found)?;
                Ok(place)
            }
        }
    }

    /// Adds the types of a table with synonyms expanded, where it is told what
    /// these stand for.
    pub(crate) fn expand_all(
        &mut self,
        alloc: Global,
        synonyms: &[SharedType],
        types: &[Node],
    ) -> Result<Vec<usize>, AllocError>
        requires reader { IsReader self.old }
        requires table { IsTable (map shape_of types.now) }
        ensures reader { OnOk result (IsReader self.new) }
        ensures read { IfOk result (λ places. AllRead (shapes self.old) (shapes self.new)
            (map (expanded_by (at synonyms.now)) (trees (map shape_of types.now))) places.items) }
    {
        let mut places = Vec::with_capacity(alloc, types.len())?;
        for node in types {
            let place = self.expand_node(alloc, synonyms, node, places.as_slice())?;
            places.push(place)?;
        }
        Ok(places)
    }

    /// Adds a type with synonyms expanded, where it is told what these stand
    /// for.
    pub(crate) fn expand(
        &mut self,
        alloc: Global,
        synonyms: &[SharedType],
        term: &TypeTerm,
    ) -> Result<usize, AllocError>
        requires { IsReader self.old }
        ensures reader { OnOk result (IsReader self.new) }
        ensures read { IfOk result (Reads (shapes self.old) (shapes self.new)
            (expanded_by (at synonyms.now) (type_of term.now))) }
    {
        let mut source = Reader::new(alloc);
        let place = source.read(alloc, term)?;
        let places = self.expand_all(alloc, synonyms, source.nodes.as_slice())?;
        Ok(places[place])
    }

    /// The type at a place of the table that was read.
    pub(crate) fn into_shared(self, place: usize) -> SharedType
        requires reader { IsReader self }
        requires within { place < length (shapes self) }
        ensures { result ≡ at (trees (shapes self)) place }
    {
        SharedType::new(self.nodes, place)
    }
}

/// A type with synonyms expanded, where it is told what these stand for.
pub(crate) fn expanded(
    alloc: Global,
    synonyms: &[SharedType],
    term: &TypeTerm,
) -> Result<SharedType, AllocError>
    ensures { IfOk result (λ shared.
        shared ≡ expanded_by (at synonyms.now) (type_of term.now)) }
{
    let mut reader = Reader::new(alloc);
    let place = reader.expand(alloc, synonyms, term)?;
    Ok(reader.into_shared(place))
}

/// What synonyms stand for, where it is told what the synonyms named by them
/// stand for.
fn expanded_bodies(
    alloc: Global,
    declared: &[Synonym],
    synonyms: &[SharedType],
) -> Result<Vec<SharedType>, AllocError>
    ensures { IfOk result (λ next. next.items ≡ map
        (λ s. expanded_by (at synonyms.now) (synonym_meaning s).body) declared.now) }
{
    let mut next = Vec::with_capacity(alloc, declared.len())?;
    for synonym in declared {
        let shared = expanded(alloc, synonyms, &synonym.body)?;
        next.push(shared)?;
    }
    Ok(next)
}

/// What the synonyms of a program stand for: they are expanded in one
/// another until nothing changes.
pub(crate) fn synonym_types(alloc: Global, program: &Program) -> Result<Vec<SharedType>, AllocError>
    ensures { IfOk result (λ types.
        at types.items ≡ bodies program.now (length program.now.synonyms)) }
{
    let declared = program.synonyms();
    let mut types = Vec::new(alloc);
    for depth in 0..declared.len() {
        let next = expanded_bodies(alloc, declared, types.as_slice())?;
        if are_same(types.as_slice(), next.as_slice()) {
            return Ok(next);
        }
        types = next;
    }
    Ok(types)
}

/// Whether a type of a table is this variable.
fn is_variable(node: &Node, x: u32) -> bool
    ensures { IsTrue result ↔ IsVariable (shape_of node.now) x }
{
    match node {
        Node::Variable(own) => *own == x,
        Node::Applied(_, _) => false,
    }
}

/// Whether two types of tables have the same head, and arguments at the same
/// places.
fn is_same_node(left: &Node, right: &Node) -> bool
    ensures { IsTrue result → shape_of left.now ≡ shape_of right.now }
{
    match right {
        Node::Variable(x) => is_variable(left, *x),
        Node::Applied(head, arguments) => left.has_arguments(*head, arguments.as_slice()),
    }
}

/// Whether two tables have the same types at the same places.
fn is_same_table(left: &[Node], right: &[Node]) -> bool
    ensures { IsTrue result → map shape_of left.now ≡ map shape_of right.now }
{
    if left.len() != right.len() {
        return false;
    }
    for (index, node) in left.iter().enumerate() {
        if !is_same_node(node, &right[index]) {
            return false;
        }
    }
    true
}

/// Whether two types stand at the same place of the same table.
fn is_same(left: &SharedType, right: &SharedType) -> bool
    ensures { IsTrue result → left.now ≡ right.now }
{
    let one = left.open();
    let other = right.open();
    if one.place != other.place {
        return false;
    }
    is_same_table(one.types, other.types)
}

/// Whether these are the same types, in the same tables.
fn are_same(left: &[SharedType], right: &[SharedType]) -> bool
    ensures { IsTrue result → left.now ≡ right.now }
{
    if left.len() != right.len() {
        return false;
    }
    for (index, shared) in left.iter().enumerate() {
        if !is_same(shared, &right[index]) {
            return false;
        }
    }
    true
}
