//! Partial values: what is known of what an expression is worth, their orders
//! and their display.
#![tactic(auto)]

mod cell;
mod display;
mod labels;
mod layout;
mod literals;
mod names;
mod shape;
mod string;
mod task;
mod value;
mod view;
mod views;
mod walk;

pub use cell::Cell;
pub use display::{Workspace, show};
pub use value::Value;
pub use views::{ValueRef, ValuesRef};
