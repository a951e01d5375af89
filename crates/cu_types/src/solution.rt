//! Types that are added to the table of a solution.
ghost use Rattle.std.specs.Prelude.{◌≡◌, ◌<◌, ◌+◌, ◌^◌, IfOk, length, map};
ghost use Rattle.cu_kernel.specs.TypeExpr as type;
ghost use Rattle.cu_types.specs.BuiltInTypes.{arrows, variables_from};
ghost use Rattle.cu_types.specs.Inside.Growing.{Grows};
ghost use Rattle.cu_types.specs.Meaning.{HasPlaces, subst_of, types_of_subst};
ghost use Rattle.cu_types.specs.Table.{IsTable, MayStand, at, shape_of, tree_over, trees};
ghost use Rattle.cu_types.specs.Types.{apply};

use crate::{Node, Subst, TypeHead};
use std::alloc::{AllocError, Global};

impl Subst {
    /// Adds a type whose arguments stand in the table.
    fn add(&mut self, node: Node) -> Result<usize, AllocError>
        requires table { IsTable (types_of_subst self.old) }
        requires places { HasPlaces self.old }
        requires may { MayStand (length (types_of_subst self.old)) (shape_of node) }
        ensures { IfOk result (Grows self.old self.new
            (tree_over (at (trees (types_of_subst self.old))) (shape_of node))) }
    {
        let place = self.types.len();
        self.types.push(node)?;
        Ok(place)
    }

    /// The place of a variable's type, which is added where the variable stands
    /// for itself.
    pub(crate) fn place_or_add(&mut self, x: u32) -> Result<usize, AllocError>
        requires table { IsTable (types_of_subst self.old) }
        requires places { HasPlaces self.old }
        ensures { IfOk result (Grows self.old self.new (subst_of self.old x)) }
    {
        match self.place(x) {
            Some(place) => Ok(place),
            None => {
                let place = self.add(Node::Variable(x))?;
                Ok(place)
            }
        }
    }

    /// Adds the type of functions from one type to another.
    fn arrow(&mut self, alloc: Global, left: usize, right: usize) -> Result<usize, AllocError>
        requires table { IsTable (types_of_subst self.old) }
        requires places { HasPlaces self.old }
        requires left { left < length (types_of_subst self.old) }
        requires right { right < length (types_of_subst self.old) }
        ensures { IfOk result (Grows self.old self.new (type.Arrow
            (at (trees (types_of_subst self.old)) left)
            (at (trees (types_of_subst self.old)) right))) }
    {
        let mut arguments = Vec::new(alloc);
        arguments.push(left)?;
        arguments.push(right)?;
        let place = self.add(Node::Applied(TypeHead::Arrow, arguments))?;
        Ok(place)
    }

    /// Adds the type of functions from a variable's type to the type at a
    /// place.
    fn taking(&mut self, alloc: Global, x: u32, place: usize) -> Result<usize, AllocError>
        requires table { IsTable (types_of_subst self.old) }
        requires places { HasPlaces self.old }
        requires within { place < length (types_of_subst self.old) }
        ensures { IfOk result (Grows self.old self.new (type.Arrow (subst_of self.old x)
            (at (trees (types_of_subst self.old)) place))) }
    {
        let left = self.place_or_add(x)?;
        let whole = self.arrow(alloc, left, place)?;
        Ok(whole)
    }

    /// Adds the type of functions of the types of so many variables, from a
    /// number on, to the type at a place.
    fn arrows(
        &mut self,
        alloc: Global,
        first: u32,
        count: u32,
        place: usize,
    ) -> Result<usize, AllocError>
        requires table { IsTable (types_of_subst self.old) }
        requires places { HasPlaces self.old }
        requires within { place < length (types_of_subst self.old) }
        requires fits { first + count < 2 ^ 32 }
        ensures { IfOk result (Grows self.old self.new
            (arrows (map (apply (subst_of self.old)) (variables_from first count))
            (at (trees (types_of_subst self.old)) place))) }
    {
        let mut whole = place;
        let mut left = count;
        while left > 0 {
            left -= 1;
            whole = self.taking(alloc, first + left, whole)?;
        }
        Ok(whole)
    }

    /// Adds the type of a function whose parameters have the variables from
    /// a number on, and whose result has the next one.
    pub(crate) fn function_type(
        &mut self,
        alloc: Global,
        first: u32,
        arity: u32,
    ) -> Result<usize, AllocError>
        requires table { IsTable (types_of_subst self.old) }
        requires places { HasPlaces self.old }
        ensures { IfOk result (Grows self.old self.new (apply (subst_of self.old)
            (arrows (variables_from first arity) (type.Variable (first + arity))))) }
    {
        match first.checked_add(arity) {
            Some(last) => {
                let right = self.place_or_add(last)?;
                let whole = self.arrows(alloc, first, arity, right)?;
                Ok(whole)
            }
            None => Err(AllocError),
        }
    }
}
