//! What the declarations of modules make.
ghost use Rattle.std.specs.Prelude.{◌≡◌};
ghost use Rattle.cu_entities.specs.EntityMeaning.{is_constructor_in, is_function_sort};
ghost use Rattle.cu_entities.specs.EntityMeaning.{is_type_sort};
ghost use Rattle.cu_entities.specs.EntityMeaning.{same_entities, sort_in};

use cu_names::NameId;

/// Types are one name space; functions, constructors and variables are another.
#[derive(Clone, Copy, Debug, PartialEq, Eq, Hash)]
pub enum Space {
    Types,
    Values,
}

/// What sort of thing an entity is.
#[derive(Clone, Copy, Debug, PartialEq, Eq)]
pub enum Sort {
    Function,
    /// The function that gives all values of calls of functions of so many
    /// parameters.
    SetFunction(usize),
    /// A constructor of the data type of this name, in the same module.
    Constructor(NameId),
    DataType,
    Synonym,
}

/// An entity: the module that declares it, its name there, and its sort.
#[derive(Clone, Copy, Debug, PartialEq, Eq)]
pub struct Entity {
    pub owner: NameId,
    pub name: NameId,
    pub sort: Sort,
}

impl Sort {
    /// The name space of entities of this sort.
    pub fn space(self) -> Space
        ensures { result ≡ sort_in self }
    {
        match self {
            Sort::DataType | Sort::Synonym => Space::Types,
            Sort::Function | Sort::SetFunction(_) | Sort::Constructor(_) => Space::Values,
        }
    }

    /// Whether an entity of this sort is a function.
    pub fn is_function(self) -> bool
        ensures { result ≡ is_function_sort self }
    {
        matches!(self, Sort::Function | Sort::SetFunction(_))
    }

    /// Whether an entity of this sort is a type.
    pub fn is_type(self) -> bool
        ensures { result ≡ is_type_sort self }
    {
        matches!(self, Sort::DataType | Sort::Synonym)
    }
}

impl Entity {
    /// Whether two entities are one. A name that a module declares twice in one
    /// name space is one entity.
    pub fn is(self, other: Entity) -> bool
        ensures { result ≡ same_entities self other }
    {
        self.owner == other.owner
            && self.name == other.name
            && self.sort.space() == other.sort.space()
    }

    /// Whether this is a constructor of the type `t`.
    pub fn is_constructor_of(self, t: Entity) -> bool
        ensures { result ≡ is_constructor_in self t }
    {
        match self.sort {
            Sort::Constructor(name) => {
                t.sort.is_type() && self.owner == t.owner && name == t.name
            }
            _ => false,
        }
    }
}
