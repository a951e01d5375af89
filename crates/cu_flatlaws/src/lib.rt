//! Laws of the text of FlatCurry: what is printed is read again. The crate
//! computes nothing.
#![tactic(auto)]

mod examples;
mod laws;

pub use examples::an_example_is_printed;
pub use laws::{printed_texts_agree, printed_texts_are_read};
