//! Parsing expression grammars over tokens: tables of rows, and the trees that
//! they give of lists of tokens.
#![tactic(auto)]

mod calls;
mod class;
mod closure;
mod ends;
mod grammar;
mod laws;
mod matching;
mod node;
mod places;
mod reached;
mod reading;
mod row;
mod table;
mod tree;

pub use class::{Class, NameKind};
pub use grammar::{BadGrammar, Grammar, is_closed};
pub use laws::{each_row_decides, one_tree};
pub use matching::matches;
pub use node::{Form, Node};
pub use row::{Row, RowNumbers};
pub use tree::Tree;
