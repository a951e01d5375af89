//! A session by lines, over any input, any output and anything that replies:
//! each line is answered by a reply before the next one is read.
#![tactic(auto)]

mod asker;
mod end;
mod laws;
mod lines;
mod serving;

pub use asker::{Asker, Turn};
pub use end::SessionEnd;
pub use laws::sessions_begin;
pub use serving::serve;
