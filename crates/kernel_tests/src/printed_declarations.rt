//! What the modules `Prelude`, `B` and `A` declare beside their functions. `A`
//! imports first `B` and then the Prelude.
use crate::printed_functions::none;
use cu_kernel::{
    ConId, Constructor, DataType, ModuleInfo, Operator, Side, Special, Synonym, SynonymId, TypeId,
    TypeName, TypeTerm,
};
use cu_names::{NameId, Names};
use samples::{and, one, plain_types};
use std::alloc::{AllocError, Global};

/// The texts of the names, by their numbers.
const TEXTS: [&str; 34] = [
    "Prelude", "B", "A", "[]", ":", "()", "(,)", "Int", "Char", "Bool", "False", "True", "&&",
    "failed", "==", "b", "\\\\", "p", "q", "r", "s", "t", "u", "T", "C", "D", "E", "L", "X", "Y",
    "Z", "V", "v", "w",
];

pub(crate) const ENTITIES: Special = Special {
    values: Some(ConId(22)),
    ..samples::ENTITIES
};

/// The table of names.
pub(crate) fn names(alloc: Global) -> Result<Names, AllocError> {
    let mut names = Names::new(alloc);
    for text in &TEXTS {
        let _ = names.intern(text)?;
    }
    Ok(names)
}

fn variable(x: u32) -> Result<TypeTerm, AllocError> {
    Ok(TypeTerm::Var(x))
}

fn data(place: usize, types: Result<Vec<TypeTerm>, AllocError>) -> Result<TypeTerm, AllocError> {
    Ok(TypeTerm::Named(TypeName::Data(TypeId(place)), types?))
}

fn synonym(place: usize, types: Result<Vec<TypeTerm>, AllocError>) -> Result<TypeTerm, AllocError> {
    Ok(TypeTerm::Named(TypeName::Synonym(SynonymId(place)), types?))
}

fn arrow(alloc: Global, from: u32, to: u32) -> Result<TypeTerm, AllocError> {
    let from = Box::new(alloc, TypeTerm::Var(from))?;
    let to = Box::new(alloc, TypeTerm::Var(to))?;
    Ok(TypeTerm::Arrow(from, to))
}

fn constructor(
    name: usize,
    public: bool,
    fields: Result<Vec<TypeTerm>, AllocError>,
) -> Result<Constructor, AllocError> {
    Ok(Constructor {
        name: NameId(name),
        public,
        fields: fields?,
    })
}

fn data_type(
    name: usize,
    module: u32,
    arity: u32,
    constructors: Result<Vec<Constructor>, AllocError>,
) -> Result<DataType, AllocError> {
    Ok(DataType {
        name: NameId(name),
        module,
        arity,
        public: true,
        constructors: constructors?,
    })
}

/// `data T a b = C b (L a) | D (Z Int) | E (L a b) (a -> b)`, of which `D`
/// isn't exported, and `L` has one argument too many in `E`.
fn own_type(alloc: Global) -> Result<DataType, AllocError> {
    let list = synonym(0, one(alloc, variable(0)));
    let c = constructor(24, true, and(one(alloc, variable(1)), list));
    let integer = data(16, none(alloc));
    let d = constructor(25, false, one(alloc, synonym(3, one(alloc, integer))));
    let both = and(one(alloc, variable(0)), variable(1));
    let e = constructor(
        26,
        true,
        and(one(alloc, synonym(0, both)), arrow(alloc, 0, 1)),
    );
    data_type(23, 2, 2, and(and(one(alloc, c), d), e))
}

/// `data V a = V [a]`, which stands for the values of a set function.
fn values_type(alloc: Global) -> Result<DataType, AllocError> {
    let list = data(0, one(alloc, variable(0)));
    let values = constructor(31, true, one(alloc, list));
    data_type(31, 1, 1, one(alloc, values))
}

/// The types of the Prelude, whose names the table has, then those of `A` and
/// `B`.
pub(crate) fn types(alloc: Global, names: &mut Names) -> Result<Vec<DataType>, AllocError> {
    let plain = plain_types(alloc, names);
    and(and(plain, own_type(alloc)), values_type(alloc))
}

fn declared_synonym(
    name: usize,
    public: bool,
    arity: u32,
    body: Result<TypeTerm, AllocError>,
) -> Result<Synonym, AllocError> {
    Ok(Synonym {
        name: NameId(name),
        module: 2,
        public,
        arity,
        body: body?,
    })
}

/// `type L a = [a]`, `type X = Y`, `type Y = X` and `type Z a = (X, a)`. The
/// second and the third stand on a cycle, the last one only leads there.
pub(crate) fn synonyms(alloc: Global) -> Result<Vec<Synonym>, AllocError> {
    let list = declared_synonym(27, true, 1, data(0, one(alloc, variable(0))));
    let first = declared_synonym(28, false, 0, synonym(2, none(alloc)));
    let second = declared_synonym(29, false, 0, synonym(1, none(alloc)));
    let components = and(one(alloc, synonym(1, none(alloc))), variable(0));
    let pair = declared_synonym(30, true, 1, data(2, components));
    and(and(and(one(alloc, list), first), second), pair)
}

fn module(
    alloc: Global,
    name: usize,
    imports: Result<Vec<NameId>, AllocError>,
    operator: Operator,
) -> Result<ModuleInfo, AllocError> {
    Ok(ModuleInfo {
        name: NameId(name),
        imports: imports?,
        operators: one(alloc, Ok(operator))?,
    })
}

fn operator(name: usize, side: Side, level: u32) -> Operator {
    Operator {
        name: NameId(name),
        side,
        level,
    }
}

pub(crate) fn modules(alloc: Global) -> Result<Vec<ModuleInfo>, AllocError> {
    let prelude = module(alloc, 0, none(alloc), operator(12, Side::Right, 3));
    let only = one(alloc, Ok(NameId(0)));
    let b = module(alloc, 1, only, operator(15, Side::Neither, 4));
    let imports = and(one(alloc, Ok(NameId(1))), Ok(NameId(0)));
    let a = module(alloc, 2, imports, operator(16, Side::Left, 6));
    and(and(one(alloc, prelude), b), a)
}
