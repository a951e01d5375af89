//! The types of programs that are written down, and the names that they have
//! there and in the answers.

use cu_kernel::{
    ConId, Constructor, DataType, Special, Synonym, SynonymId, TypeId, TypeName, TypeTerm,
};
use cu_names::Names;
use samples::{NAME, and, boxed, one, variables};
use std::alloc::{AllocError, Global};

/// The names of the types, in their order. `Values` is what set functions
/// give.
pub(crate) const TYPES: [&str; 25] = [
    "List", "Unit", "Pair", "Triple", "T4", "T5", "T6", "T7", "T8", "T9", "T10", "T11", "T12",
    "T13", "T14", "T15", "Int", "Char", "Bool", "Values", "Maybe", "Nat", "Fun", "Nest", "Note",
];

/// The names of the constructors, in their order.
pub(crate) const CONSTRUCTORS: [&str; 28] = [
    "Nil", "Cons", "Unit", "Pair", "Triple", "T4", "T5", "T6", "T7", "T8", "T9", "T10", "T11",
    "T12", "T13", "T14", "T15", "False", "True", "Values", "Nothing", "Just", "Z", "S", "Fun",
    "End", "Nest", "Note",
];

/// The names of the synonyms, in their order.
pub(crate) const SYNONYMS: [&str; 4] = ["Text", "Twice", "Texts", "First"];

/// The names of the functions, in their order. Those that are written down
/// begin with `f`.
pub(crate) const FUNCTIONS: [&str; 22] = [
    "&&", "+", "-", "*", "div", "mod", "<", "<=", ">", ">=", "==", "=:=", "&", "ord", "chr",
    "failed", "f", "g", "h", "p", "q", "r",
];

/// How many functions stand before those that are written down.
pub(crate) const BEFORE: usize = 16;

pub(crate) const ENTITIES: Special = Special {
    values: Some(ConId(19)),
    ..samples::ENTITIES
};

/// The functions from one type to another.
fn arrow(
    alloc: Global,
    argument: Result<TypeTerm, AllocError>,
    value: Result<TypeTerm, AllocError>,
) -> Result<TypeTerm, AllocError> {
    let argument = boxed(alloc, argument)?;
    Ok(TypeTerm::Arrow(argument, boxed(alloc, value)?))
}

/// A data type with arguments, by its index.
fn named(
    place: usize,
    arguments: Result<Vec<TypeTerm>, AllocError>,
) -> Result<TypeTerm, AllocError> {
    Ok(TypeTerm::Named(TypeName::Data(TypeId(place)), arguments?))
}

/// The lists of a type.
fn list_of(alloc: Global, item: Result<TypeTerm, AllocError>) -> Result<TypeTerm, AllocError> {
    named(0, one(alloc, item))
}

/// `(a, a)`
fn twice(alloc: Global) -> Result<TypeTerm, AllocError> {
    named(
        2,
        and(one(alloc, Ok(TypeTerm::Var(0))), Ok(TypeTerm::Var(0))),
    )
}

/// The synonym `Text`.
fn text(alloc: Global) -> TypeTerm {
    TypeTerm::Named(TypeName::Synonym(SynonymId(0)), Vec::new(alloc))
}

fn constructor(fields: Result<Vec<TypeTerm>, AllocError>) -> Result<Constructor, AllocError> {
    samples::constructor(Ok(NAME), fields)
}

fn data_type(
    arity: u32,
    constructors: Result<Vec<Constructor>, AllocError>,
) -> Result<DataType, AllocError> {
    samples::data_type(Ok(NAME), arity, constructors)
}

/// A type of one constructor with these fields.
fn single(
    alloc: Global,
    arity: u32,
    fields: Result<Vec<TypeTerm>, AllocError>,
) -> Result<DataType, AllocError> {
    data_type(arity, one(alloc, constructor(fields)))
}

/// A type of a constructor without fields, and one with these.
fn ended(
    alloc: Global,
    arity: u32,
    fields: Result<Vec<TypeTerm>, AllocError>,
) -> Result<DataType, AllocError> {
    let end = one(alloc, constructor(Ok(Vec::new(alloc))));
    data_type(arity, and(end, constructor(fields)))
}

/// The types that every program begins with, `data Bool = False | True`, `data
/// Values a = Values [a]` and `data Maybe a = Nothing | Just a`.
fn plain_types(alloc: Global) -> Result<Vec<DataType>, AllocError> {
    let mut names = Names::new(alloc);
    let plain = samples::plain_types(alloc, &mut names);
    let values = samples::values_type(alloc, &mut names);
    and(and(plain, values), ended(alloc, 1, variables(alloc, 1)))
}

/// The plain types, `data Nat = Z | S Nat`, `data Fun a = Fun (a -> a)`, `data
/// Nest a = End | Nest a (Nest (a, a))` and `data Note = Note Text`.
pub(crate) fn types(alloc: Global) -> Result<Vec<DataType>, AllocError> {
    let nat = ended(alloc, 0, one(alloc, named(21, Ok(Vec::new(alloc)))));
    let endo = arrow(alloc, Ok(TypeTerm::Var(0)), Ok(TypeTerm::Var(0)));
    let fun = single(alloc, 1, one(alloc, endo));
    let rest = named(23, one(alloc, twice(alloc)));
    let nest = ended(alloc, 1, and(one(alloc, Ok(TypeTerm::Var(0))), rest));
    let note = single(alloc, 0, one(alloc, Ok(text(alloc))));
    and(and(and(and(plain_types(alloc), nat), fun), nest), note)
}

fn synonym(arity: u32, body: Result<TypeTerm, AllocError>) -> Result<Synonym, AllocError> {
    Ok(Synonym {
        name: NAME,
        module: 0,
        public: true,
        arity,
        body: body?,
    })
}

/// `type Text = [Char]`, `type Twice a = (a, a)`, `type Texts = [Text]` and
/// `type First a b = a -> b -> a`.
pub(crate) fn synonyms(alloc: Global) -> Result<Vec<Synonym>, AllocError> {
    let text_body = list_of(alloc, named(17, Ok(Vec::new(alloc))));
    let texts = list_of(alloc, Ok(text(alloc)));
    let backward = arrow(alloc, Ok(TypeTerm::Var(1)), Ok(TypeTerm::Var(0)));
    let first = arrow(alloc, Ok(TypeTerm::Var(0)), backward);
    let two = and(one(alloc, synonym(0, text_body)), synonym(1, twice(alloc)));
    and(and(two, synonym(0, texts)), synonym(2, first))
}
