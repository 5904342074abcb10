//! Unit propagation over live forms by occurrence lists and by watched literals, with counted
//! visits.
#![tactic(auto)]

mod assignment;
mod clause;
mod clauses;
mod column;
mod engine;
mod free;
mod heads;
pub mod laws;
mod lists;
mod mark;
mod open_sums;
mod parts;
mod rests;
mod run;
mod slots;
mod store;
mod term;
mod waiting;
mod walk;

pub use column::{Column, Zero};
pub use engine::Engine;
