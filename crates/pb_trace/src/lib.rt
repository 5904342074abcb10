//! What a check shows on the way: a trace of its statements with the reasons of a rejection, and
//! counts.
#![tactic(auto)]

mod broken;
mod derived;
mod explained;
mod facts;
mod instance_text;
pub mod laws;
mod line;
mod named;
mod open_sums;
mod piece;
mod propagation;
mod reasons;
mod rejected;
mod stats;
mod stored;
mod trace;
mod uses;
mod write;

pub use explained::Explained;
pub use instance_text::InstanceText;
pub use stats::Stats;
pub use trace::Trace;
