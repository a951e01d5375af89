//! Adding types of another table, in which each variable is replaced.
ghost use Rattle.std.specs.Prelude.{◌≡◌, ◌<◌, ◌+◌, ℕ, IfOk, OnOk, Some, length, map, slice_get, slice_index};
ghost use Rattle.cu_kernel.specs.TypeExpr as type;
ghost use Rattle.cu_kernel.specs.TypeExpr.{TypeExpr};
ghost use Rattle.cu_types.specs.Synonyms.{for_parameters};
ghost use Rattle.cu_types.specs.Inside.Reading.{AllRead, IsReader, Reads, shapes};
ghost use Rattle.cu_types.specs.Inside.Replacing.{Stands, replaced_by};
ghost use Rattle.cu_types.specs.Table.{IsTable, MayStand, at, shape_of, tree_over, trees};
ghost use Rattle.cu_types.specs.Types.{apply};

use crate::reader::Reader;
use crate::{Node, SharedType};
use std::alloc::{AllocError, Global};

/// What a type variable is replaced by.
#[derive(Clone, Copy)]
pub(crate) enum Replacing<'r> {
    /// The variable whose number is greater by so much.
    Shift(u32),
    /// The type at the place that a list has for the variable, or the variable
    /// itself where it has none.
    Parameters(&'r [usize]),
}

/// The places that a list has for arguments.
pub(crate) fn places_at(
    alloc: Global,
    places: &[usize],
    arguments: &[usize],
) -> Result<Vec<usize>, AllocError>
    requires { (k a : ℕ) → slice_get arguments.now k ≡ Some a → a < length places.now }
    ensures { IfOk result (λ found. found.items
        ≡ map (λ a. slice_index places.now a) arguments.now) }
{
    let mut found = Vec::with_capacity(alloc, arguments.len())?;
    for argument in arguments {
        found.push(places[*argument])?;
    }
    Ok(found)
}

impl Reader {
    /// Adds the variable whose number is greater by so much.
    fn shifted(&mut self, x: u32, next: u32) -> Result<usize, AllocError>
        requires { IsReader self.old }
        ensures reader { OnOk result (IsReader self.new) }
        ensures read { IfOk result (Reads (shapes self.old) (shapes self.new)
            (type.Variable (next + x))) }
    {
        let Some(number) = next.checked_add(x) else {
            return Err(AllocError);
        };
        let place = self.variable(number)?;
        Ok(place)
    }

    /// Adds the type at the place that a list has for a variable, or the
    /// variable itself where it has none.
    pub(crate) fn parameter(&mut self, x: u32, places: &[usize]) -> Result<usize, AllocError>
        requires reader { IsReader self.old }
        requires stands { (k p : ℕ) → slice_get places.now k ≡ Some p
            → p < length (shapes self.old) }
        ensures reader { OnOk result (IsReader self.new) }
        ensures read { IfOk result (Reads (shapes self.old) (shapes self.new)
            (for_parameters (map (at (trees (shapes self.old))) places.now) x)) }
    {
        if let Some(place) = places.get(x as usize) {
            return Ok(*place);
        }
        let place = self.variable(x)?;
        Ok(place)
    }

    /// Adds what a variable is replaced by.
    fn replaced(&mut self, x: u32, by: Replacing<'_>) -> Result<usize, AllocError>
        requires reader { IsReader self.old }
        requires stands { Stands (shapes self.old) by }
        ensures reader { OnOk result (IsReader self.new) }
        ensures read { IfOk result (Reads (shapes self.old) (shapes self.new)
            (replaced_by (shapes self.old) by.entry x)) }
    {
        match by {
            Replacing::Shift(next) => self.shifted(x, next),
            Replacing::Parameters(places) => self.parameter(x, places),
        }
    }

    /// Adds a type of another table. The places are known at which the types
    /// before it were added.
    fn add_node(
        &mut self,
        alloc: Global,
        node: &Node,
        places: &[usize],
        by: Replacing<'_>,
    ) -> Result<usize, AllocError>
        requires reader { IsReader self.old }
        requires stands { Stands (shapes self.old) by }
        requires may { MayStand (length places.now) (shape_of node.now) }
        requires within { (k p : ℕ) → slice_get places.now k ≡ Some p
            → p < length (shapes self.old) }
        ensures reader { OnOk result (IsReader self.new) }
        ensures read { IfOk result (λ place. (tree : ℕ → TypeExpr)
            → ((a : ℕ) → a < length places.now
            → at (trees (shapes self.old)) (slice_index places.now a)
            ≡ apply (replaced_by (shapes self.old) by.entry) (tree a))
            → Reads (shapes self.old) (shapes self.new)
            (apply (replaced_by (shapes self.old) by.entry) (tree_over tree (shape_of node.now)))
            place) }
    {
        match node {
            Node::Variable(x) => {
                let place = self.replaced(*x, by)?;
                Ok(place)
            }
            Node::Applied(head, arguments) => {
                let found = places_at(alloc, places, arguments.as_slice())?;
                let place = self.apply(*head, found)?;
                Ok(place)
            }
        }
    }

    /// Adds the types of a table.
    pub(crate) fn add_all(
        &mut self,
        alloc: Global,
        types: &[Node],
        by: Replacing<'_>,
    ) -> Result<Vec<usize>, AllocError>
        requires reader { IsReader self.old }
        requires stands { Stands (shapes self.old) by }
        requires table { IsTable (map shape_of types.now) }
        ensures reader { OnOk result (IsReader self.new) }
        ensures read { IfOk result (λ places. AllRead (shapes self.old) (shapes self.new)
            (map (apply (replaced_by (shapes self.old) by.entry)) (trees (map shape_of types.now)))
            places.items) }
    {
        let mut places = Vec::with_capacity(alloc, types.len())?;
        for node in types {
            let place = self.add_node(alloc, node, places.as_slice(), by)?;
            places.push(place)?;
        }
        Ok(places)
    }

    /// Adds a type of another table.
    pub(crate) fn add(
        &mut self,
        alloc: Global,
        shared: &SharedType,
        by: Replacing<'_>,
    ) -> Result<usize, AllocError>
        requires reader { IsReader self.old }
        requires stands { Stands (shapes self.old) by }
        ensures reader { OnOk result (IsReader self.new) }
        ensures read { IfOk result (Reads (shapes self.old) (shapes self.new)
            (apply (replaced_by (shapes self.old) by.entry) shared.now)) }
    {
        let opened = shared.open();
        let places = self.add_all(alloc, opened.types, by)?;
        Ok(places[opened.place])
    }
}
