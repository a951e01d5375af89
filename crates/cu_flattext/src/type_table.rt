//! Tables of inferred types.
ghost use Rattle.std.specs.Prelude.{map};
ghost use Rattle.cu_types.specs.Table.{IsTable, shape_of};

use cu_types::Node;

/// A table of types, each of which is made of types that stand before it.
#[derive(Clone, Copy)]
pub(crate) struct TypeTable<'p> {
    pub(crate) types: &'p [Node],
    ghost is_table: { ∥ IsTable (map shape_of types.now) ∥₁ },
}

impl<'p> TypeTable<'p> {
    ghost use Rattle.std.specs.Prelude.{◌≡◌, [], map, option_map, slice_get};
    ghost use Rattle.cu_types.specs.Table.{IsTable, shape_of};

    /// The table of these types.
    pub(crate) fn new(types: &'p [Node]) -> TypeTable<'p>
        requires { IsTable (map shape_of types.now) }
        ensures { result.types.now ≡ types.now }
    {
        TypeTable { types }
    }

    /// A table without types.
    pub(crate) fn empty() -> TypeTable<'p>
        ensures { result.types.now ≡ [] }
    {
        TypeTable { types: &[] }
    }

    /// The type with an index.
    pub(crate) fn get(self, place: usize) -> Option<&'p Node>
        ensures { option_map (λ node. node.now) result ≡ slice_get self.entry.types.now place }
    {
        self.types.get(place)
    }
}
