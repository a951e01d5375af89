//! A round's workers: a job over each item of a list, where workers that run
//! side by side draw the items, each once.
#![tactic(auto)]

mod bound;
mod claims;
mod gate;
mod job;
mod rounds;
mod seat;
mod worker;

pub use bound::claim_word_is_bounded;
pub use claims::Claims;
pub use gate::{Gate, OpenGate};
pub use job::Job;
pub use rounds::round;
pub use seat::{ClaimRule, Seat, SeatView, Start};
pub use worker::{Worker, work};
