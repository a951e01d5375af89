//! Items of modules as they are written.
use crate::declarations::Declaration;
use crate::types::TypeTerm;
use crate::{ModuleName, Name};
use cu_names::Place;

/// What an item of a module is, with what is in it.
#[derive(Debug, Drop)]
pub enum ItemNode<'t> {
    Import(Import),
    Fixity(Place, Side, u32, Vec<Name>),
    Data(Place, Name, Vec<Name>, Vec<ConstructorDeclaration<'t>>),
    Synonym(Place, Name, Vec<Name>, TypeTerm<'t>),
    /// A signature or a rule.
    Declaration(Declaration<'t>),
}

#[derive(Debug, Drop)]
pub struct Import {
    pub place: Place,
    pub qualified: bool,
    pub name: ModuleName,
    pub alias: Option<ModuleName>,
    pub list: Option<ImportList>,
}

/// The entities that an import names, or those that it hides.
#[derive(Debug, Drop)]
pub struct ImportList {
    pub hides: bool,
    pub entities: Vec<Entity>,
}

#[derive(Debug, Drop)]
pub enum Export {
    Module(Place, ModuleName),
    Entity(Entity),
}

#[derive(Debug, Drop)]
pub enum Entity {
    Variable(Place, Name),
    Type(Place, Name, Constructors),
}

/// Which constructors an import or export list names with a type.
#[derive(Debug, Drop)]
pub enum Constructors {
    None,
    All,
    Only(Vec<Name>),
}

/// To which side operators of one level are grouped: `infixl` to the left,
/// `infixr` to the right, and `infix` to neither.
#[derive(Clone, Copy, Debug, PartialEq, Eq)]
pub enum Side {
    Left,
    Right,
    Neither,
}

#[derive(Debug, Drop)]
pub struct ConstructorDeclaration<'t> {
    pub place: Place,
    pub name: Name,
    pub fields: Vec<TypeTerm<'t>>,
}
