//! Types in tables of their own, and interfaces.
ghost use Rattle.std.specs.Prelude.{◌≡◌, ◌<◌, length, map};
ghost use Rattle.cu_types.specs.Table.{IsTable, at, shape_of, trees};

use crate::Node;
use std::marker::Model;

/// A type in a table of its own that was made by hash consing, so that a type
/// that stands at several places is kept once as a rule. Contracts see the
/// type.
#[derive(Drop)]
pub struct SharedType {
    types: Vec<Node>,
    place: usize,
}

impl Model for SharedType {
    ghost use Rattle.cu_kernel.specs.TypeExpr.{TypeExpr};
    ghost use Rattle.cu_kernel.specs.TypeStored.{type_code};

    ghost Value = { TypeExpr };

    ghost coded = { type_code };

    ghost use Rattle.cu_types.specs.SharedTypes.{IsShared, shared};

    ghost view = { shared };

    ghost invariant = { IsShared };
}

/// A table of types, and the place of one type in it.
#[derive(Clone, Copy, Debug)]
pub struct Opened<'t> {
    /// The table. The arguments of each type stand before it.
    pub types: &'t [Node],
    /// The place of the type in the table.
    pub place: usize,
}

impl SharedType {
    /// The type at a place of a table.
    pub(crate) fn new(types: Vec<Node>, place: usize) -> SharedType
        requires table { IsTable (map shape_of types.items) }
        requires within { place < length (map shape_of types.items) }
        ensures { result ≡ at (trees (map shape_of types.items)) place }
    {
        SharedType { types, place }
    }

    /// The table, and the type's place there.
    pub fn open(&self) -> Opened<'_>
        ensures table { IsTable (map shape_of result.types.now) }
        ensures within { result.place < length (map shape_of result.types.now) }
        ensures value { at (trees (map shape_of result.types.now)) result.place ≡ self.now }
    {
        Opened {
            types: self.types.as_slice(),
            place: self.place,
        }
    }
}

/// A type for each function of a program, in the order of the functions.
/// Contracts see a list of types.
#[derive(Drop)]
pub struct Interface {
    types: Vec<SharedType>,
}

impl Model for Interface {
    ghost use Rattle.std.specs.Prelude.{List};
    ghost use Rattle.std.specs.Coded.{coded_list};
    ghost use Rattle.cu_kernel.specs.TypeExpr.{TypeExpr};
    ghost use Rattle.cu_kernel.specs.TypeStored.{type_code};

    ghost Value = { List TypeExpr };

    ghost coded = { coded_list type_code };

    ghost view = { λ i. i.types.items };
}

impl Interface {
    /// The interface with these types.
    pub(crate) fn new(types: Vec<SharedType>) -> Interface
        ensures { result ≡ types.items }
    {
        Interface { types }
    }

    /// The types of the functions.
    pub fn types(&self) -> &[SharedType]
        ensures { result.now ≡ self.now }
    {
        self.types.as_slice()
    }
}
