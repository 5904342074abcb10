//! What a replay stores.

pub(crate) mod constraints;
pub(crate) mod find;
mod listed;
pub(crate) mod literals;
pub(crate) mod live;
pub(crate) mod load;
pub(crate) mod objective;
mod removed;
pub(crate) mod solution;

use crate::state::constraints::Constraints;
use crate::verdict::Verdict;
use pb_normal::{Memory, Names};
use pb_proof::Stage;
use pb_sums::Linear;
use pb_text::Limits;
use std::alloc::Global;

/// The instance as forms, and the state of its replay.
#[derive(Drop)]
pub(crate) struct Running {
    pub(crate) alloc: Global,
    pub(crate) limits: Limits,
    /// The names of the instance, and after them those that statements mentioned.
    pub(crate) names: Names,
    /// How many names the instance has.
    pub(crate) own: usize,
    /// The constraints of the instance, and the live ones. The live one with id i has number i - 1.
    pub(crate) constraints: Constraints,
    /// The objective's terms. Its relation and degree have no meaning.
    pub(crate) objective: Option<Linear>,
    /// The least value of a logged solution.
    pub(crate) best: Option<i128>,
    pub(crate) next: Stage,
    pub(crate) concluded: Option<Verdict>,
    /// The number of visits of the last `rup`.
    pub(crate) visits: u64,
    /// Memory for the forms of the words of `pol`.
    pub(crate) memory: Memory,
}
