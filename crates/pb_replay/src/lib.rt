//! Replay of proofs: the statements of a proof over an instance, and what their verdicts mean.
#![tactic(auto)]

mod fault;
pub mod laws;
mod loading;
mod replay;
mod state;
mod step;
mod verdict;

pub use fault::Fault;
pub use loading::Loading;
pub use replay::Replay;
pub use verdict::Verdict;
