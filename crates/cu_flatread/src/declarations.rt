//! What a module in FlatCurry has.
use crate::cells::FlatEntity;
use crate::trees::{FlatExpression, FlatType, FlatTypes};
use cu_kernel::Side;
use cu_names::NameId;

/// A constructor of a data type.
#[derive(Drop)]
pub struct FlatConstructor {
    pub entity: FlatEntity,
    /// How many arguments the text says that it has.
    pub arity: u64,
    /// Whether the module exports it.
    pub public: bool,
    /// The types of its arguments.
    pub fields: FlatTypes,
}

/// The right side of a declaration of a type.
#[derive(Drop)]
pub enum FlatRightSide {
    /// A data type, with its constructors.
    Type(Vec<FlatConstructor>),
    /// A synonym of a type.
    TypeSyn(FlatType),
}

/// A declaration of a type.
#[derive(Drop)]
pub struct FlatDeclaration {
    pub entity: FlatEntity,
    /// Whether the module exports it.
    pub public: bool,
    /// The numbers of its parameters.
    pub parameters: Vec<u64>,
    pub right_side: FlatRightSide,
}

/// The rule of a function.
#[derive(Drop)]
pub enum FlatRule {
    /// Parameters, and an expression.
    Rule(Vec<u64>, FlatExpression),
    /// The function is built in, under a name.
    External(NameId),
}

/// A function.
#[derive(Drop)]
pub struct FlatFunction {
    pub entity: FlatEntity,
    /// How many arguments the text says that it takes.
    pub arity: u64,
    /// Whether the module exports it.
    pub public: bool,
    pub of_type: FlatType,
    pub rule: FlatRule,
}

/// The fixity of an operator.
#[derive(Clone, Copy, PartialEq, Eq)]
pub struct FlatOperator {
    pub entity: FlatEntity,
    pub side: Side,
    /// The precedence.
    pub level: u32,
}

/// A module. Variables have the numbers that the text has for them, and names
/// stand in the table of names.
#[derive(Drop)]
pub struct FlatModule {
    pub name: NameId,
    pub imports: Vec<NameId>,
    /// The data types and synonyms, in the text's order.
    pub types: Vec<FlatDeclaration>,
    pub functions: Vec<FlatFunction>,
    pub operators: Vec<FlatOperator>,
}
