//! The syntax of Curry modules and goals. A caller gives the tokens of a text,
//! with its layout, to `parse_module` or `parse_goal`, then asks the `Module` or
//! the `GoalText` for its items or its expression, and each of these for its
//! `node`: one level, with names, places and views of what is inside.
#![tactic(auto)]

mod declaration_forms;
mod declarations;
mod expression_forms;
mod expressions;
mod fault;
mod item_forms;
mod items;
mod laws;
mod name;
mod parsing;
mod pattern_forms;
mod patterns;
mod readers;
mod rows;
mod rule;
mod rules;
mod scanning;
mod subtree;
mod symbol;
mod text;
mod type_forms;
mod types;

pub use declarations::{Body, Declaration, DeclarationNode, Guard, RightSide, RightSideNode};
pub use expressions::{
    Alternative, CaseWord, Enumeration, Expression, ExpressionNode, Items, OperatorItem, Qualifier,
};
pub use fault::ParseFault;
pub use items::{
    ConstructorDeclaration, Constructors, Entity, Export, Import, ImportList, ItemNode, Side,
};
pub use laws::{one_reading, places_rise};
pub use name::{Literal, ModuleName, Name};
pub use parsing::{parse_goal, parse_module};
pub use patterns::{ConstructorItem, PatItems, Pattern, PatternNode};
pub use rows::grammar;
pub use text::{GoalText, Header, Item, Module};
pub use types::{TypeNode, TypeTerm};
