//! The search for a goal's values, in rounds: each round steps all branches of
//! a level side by side, and writes a line for each answer and each branch
//! that waits. What all rounds write together is the goal's listing.
#![tactic(auto)]

mod answers;
mod calls;
mod counted;
mod counting;
mod fault;
mod laws;
mod level;
mod lines;
mod next;
mod outcomes;
mod pace;
mod page;
mod paused;
mod search;
mod tally;
mod totals;
mod wording;

pub use answers::answer_text;
pub use cu_machine::{End, SearchLimits};
pub use fault::SearchFault;
pub use laws::{a_round_may_be_last, rounds_follow};
pub use paused::Paused;
pub use search::{Round, Search, write_last_line};
pub use totals::Totals;
