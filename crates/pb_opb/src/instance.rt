//! Instances.

use pb_sums::{Linear, Term};
use pb_text::{Bytes, Sequence};

/// A comment and its position among the statements.
#[derive(Drop)]
pub struct Comment {
    /// How many statements ended before it, among the objective and the constraints.
    pub before: u64,
    /// The bytes between its `*` and its line feed.
    pub text: Bytes,
}

/// An instance in OPB, as written. White space is not stored, and a comment after the last
/// constraint is not part of it.
#[derive(Drop)]
pub struct Instance {
    /// The first count of the header, as declared. The second is the number of constraints.
    pub variables: u64,
    /// The bytes of the header between its second count and its line feed.
    pub tail: Bytes,
    /// The terms of the objective.
    pub objective: Option<Sequence<Term>>,
    /// The comments in order.
    pub comments: Sequence<Comment>,
    /// The constraints in order.
    pub constraints: Sequence<Linear>,
}
