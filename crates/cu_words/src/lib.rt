//! The words of the command line: what they ask for, by a grammar that is the
//! library `clap`'s for five commands, which `specs/Command.antt` writes out. And
//! the lines of a session: what they ask for, by a table that
//! `specs/Requests.antt` writes out.
#![tactic(auto)]

mod asked;
mod check;
mod command;
mod compile;
mod laws;
mod names;
mod numbers;
mod reader;
mod requests;
mod setting;
mod solve;
mod trial;

pub use asked::Asked;
pub use check::Check;
pub use compile::Compile;
pub use laws::{
    all_can_be_asked, all_can_be_checked, all_can_be_compiled, all_can_be_tried, one_reading,
    sessions_can_be_asked,
};
pub use reader::read_words;
pub use requests::{Request, read_line};
pub use setting::{Setting, default_limits};
pub use solve::Solve;
pub use trial::Trial;
