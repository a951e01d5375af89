//! Layout: the braces and semicolons that indentation stands for.
#![tactic(auto)]

mod begun;
mod fault;
mod form;
mod laws;
mod layout;
mod stack;

pub use fault::TooDeep;
pub use laws::{reading_is_alike, text_is_kept};
pub use layout::block;
