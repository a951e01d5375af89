//! The tokens of a module's text.
#![tactic(auto)]

mod characters;
mod class;
mod comment;
mod cursor;
mod decoding;
mod fault;
mod laws;
mod lexer;
mod literal;
mod number;
mod token;
mod word;
mod words;

pub use characters::Characters;
pub use fault::LexFault;
pub use laws::{beginnings_of_texts, maximal_munch};
pub use lexer::lex;
pub use token::{Keyword, LayoutMark, Mark, Name, ReservedOperator, Special, Token, TokenKind};
