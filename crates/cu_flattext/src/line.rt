//! The parts of a module's text that are left while it is written.
use crate::expressions::Expressions;
use crate::inferred::InferredType;
use crate::types::Types;
use cu_flat::FunId;
use cu_kernel::{Constructor, DataType, Operator, Synonym};
use cu_names::NameId;

/// A part of the text of a module that is still to be written. The elements of
/// a list come with whether an element stands before them.
#[derive(Clone, Copy)]
pub(crate) enum Line<'p> {
    /// A text as it is.
    Text(&'static str),
    /// Imported modules of the module.
    Imports(&'p [NameId], bool),
    /// The data types among these that are the module's, and then its synonyms.
    DataTypes(&'p [DataType], bool),
    /// The synonyms among these that are the module's.
    Synonyms(&'p [Synonym], bool),
    /// Constructors of a data type with so many parameters.
    Constructors(&'p [Constructor], u32, bool),
    /// The functions from an index on that are the module's.
    Functions(usize, bool),
    /// The rule of a function, or what stands for it where the function is
    /// built in.
    Body(FunId),
    /// Operators of the module.
    Operators(&'p [Operator], bool),
}

/// What is to be written before the next line.
#[derive(Drop)]
pub(crate) enum Work<'p> {
    /// Nothing is to be written.
    Nothing,
    /// Types of declarations are to be written.
    Types(Types<'p>),
    /// An inferred type is to be written.
    Inferred(InferredType<'p>),
    /// An expression is to be written.
    Expressions(Expressions<'p>),
}
