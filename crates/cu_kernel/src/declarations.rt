//! What a program declares beside its functions.
use crate::{FunId, TypeTerm};
use cu_names::{NameId, Place};

/// A constructor of a data type.
#[derive(Drop)]
pub struct Constructor {
    /// The constructor's name, without its module's.
    pub name: NameId,
    /// Whether the constructor's module exports it.
    pub public: bool,
    /// The types of the constructor's arguments, fewer than 2^32 - 1.
    pub fields: Vec<TypeTerm>,
}

/// A data type.
#[derive(Drop)]
pub struct DataType {
    /// The type's name, without its module's.
    pub name: NameId,
    /// The number of the type's module among the program's modules.
    pub module: u32,
    /// How many parameters the type has.
    pub arity: u32,
    /// Whether the type's module exports it.
    pub public: bool,
    /// The type's constructors, in the order of their declaration.
    pub constructors: Vec<Constructor>,
}

/// A type synonym.
#[derive(Drop)]
pub struct Synonym {
    /// The synonym's name, without its module's.
    pub name: NameId,
    /// The number of the synonym's module among the program's modules.
    pub module: u32,
    /// Whether the synonym's module exports it.
    pub public: bool,
    /// How many parameters the synonym has.
    pub arity: u32,
    /// The type that the synonym stands for.
    pub body: TypeTerm,
}

/// On which side operators of one precedence associate.
#[derive(Clone, Copy, Debug, PartialEq, Eq)]
pub enum Side {
    /// Operators of this fixity associate to the left, as `infixl` declares.
    Left,
    /// Operators of this fixity associate to the right, as `infixr` declares.
    Right,
    /// Operators of this fixity don't associate, as `infix` declares.
    Neither,
}

/// A fixity declaration.
#[derive(Clone, Copy, Debug, PartialEq, Eq)]
pub struct Operator {
    /// The operator.
    pub name: NameId,
    /// To which side the operator associates.
    pub side: Side,
    /// The operator's precedence: a higher one binds tighter.
    pub level: u32,
}

/// A module.
#[derive(Drop)]
pub struct ModuleInfo {
    /// The module's name.
    pub name: NameId,
    /// The names of the modules that the module imports, in order.
    pub imports: Vec<NameId>,
    /// The module's fixity declarations, in order.
    pub operators: Vec<Operator>,
}

/// A function's mark: what is known of it beside its rules.
#[derive(Drop)]
pub struct Mark {
    /// The number of the function's module among the program's modules.
    pub module: u32,
    /// Whether the function's module exports it.
    pub public: bool,
    /// The function's declared type, if it has one.
    pub declared: Option<TypeTerm>,
    /// How many of the function's first parameters are variables that it
    /// captured as a local function.
    pub captured: u32,
    /// Where the function is declared.
    pub place: Place,
}

/// A goal: a function, whose parameters are the goal's free variables.
#[derive(Drop)]
pub struct Goal {
    /// The function whose parameters are the goal's free variables.
    pub function: FunId,
    /// The names of the goal's free variables, in the order of the parameters.
    pub names: Vec<NameId>,
}
