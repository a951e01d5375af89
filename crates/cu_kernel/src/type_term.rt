//! Types of functions and of constructors' arguments.
ghost use Rattle.std.specs.Prelude.{◌≡◌, map};
ghost use Rattle.cu_kernel.specs.TypesOf.{type_of};

use std::marker::Model;

/// A data type, by its index among the program's types.
#[derive(Clone, Copy, Debug, PartialEq, Eq)]
pub struct TypeId(pub usize);

/// A type synonym, by its index among the program's synonyms.
#[derive(Clone, Copy, Debug, PartialEq, Eq)]
pub struct SynonymId(pub usize);

/// What a name in a type stands for.
#[derive(Clone, Copy, Debug, PartialEq, Eq)]
pub enum TypeName {
    /// A data type. Lists, tuples, `Int` and `Char` are data types too.
    Data(TypeId),
    /// A synonym.
    Synonym(SynonymId),
}

/// A type.
#[derive(Drop)]
pub enum TypeTerm {
    /// A type variable, by its number. The parameters of a declared type have
    /// the numbers from 0.
    Var(u32),
    /// The type of functions from one type to another.
    Arrow(Box<TypeTerm>, Box<TypeTerm>),
    /// A named type with its arguments.
    Named(TypeName, Vec<TypeTerm>),
}

/// A type for each function of a program, in the order of the functions.
/// Contracts see a list.
#[derive(Drop)]
pub struct Interface {
    types: Vec<TypeTerm>,
}

impl Model for Interface {
    ghost use Rattle.std.specs.Prelude.{List, map};
    ghost use Rattle.std.specs.Coded.{coded_list};
    ghost use Rattle.cu_kernel.specs.TypeExpr.{TypeExpr};
    ghost use Rattle.cu_kernel.specs.TypeStored.{type_code};

    ghost Value = { List TypeExpr };

    ghost coded = { coded_list type_code };

    ghost use Rattle.cu_kernel.specs.TypesOf.{type_of};

    ghost view = { λ i. map type_of i.types.items };
}

impl Interface {
    /// The interface with these types.
    pub fn new(types: Vec<TypeTerm>) -> Interface
        ensures { result ≡ map type_of types.items }
    {
        Interface { types }
    }

    /// The types of the functions.
    pub fn types(&self) -> &[TypeTerm]
        ensures { map type_of result.now ≡ self.now }
    {
        self.types.as_slice()
    }
}
