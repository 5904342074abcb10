//! The statements of an instance.

use pb_sums::{Linear, Term};
use pb_text::{Bytes, Sequence};

/// A statement of an instance in OPB, as it is read.
#[derive(Drop)]
pub enum OpbEvent {
    /// The first line: how many variables and constraints it declares, and the bytes after the
    /// second count.
    Header {
        variables: u64,
        constraints: u64,
        tail: Bytes,
    },
    /// The bytes of a comment between its `*` and its line feed.
    Comment(Bytes),
    /// The terms of the objective.
    Objective(Sequence<Term>),
    /// A constraint as written.
    Constraint(Linear),
}
