//! The conclusion of a proof.

use pb_sums::Literal;
use pb_text::Sequence;

/// A bound on the objective's value.
#[derive(Clone, Copy, Debug, PartialEq, Eq)]
pub enum Bound {
    Finite(i128),
    /// `INF`.
    Infinite,
}

/// The conclusion of a proof.
#[derive(Drop)]
pub enum Conclusion {
    /// Nothing is claimed.
    NoClaim,
    /// There is no solution. If an id is given, this is by the constraint with that id.
    Unsat(Option<i64>),
    /// There is a solution: the one of these literals, if they are given.
    Sat(Option<Sequence<Literal>>),
    /// The objective's least value lies between two bounds. If an id is given, the lower bound is
    /// by the constraint with that id. If literals are given, the upper bound is by the solution of
    /// these literals.
    Bounds {
        lower: Bound,
        id: Option<i64>,
        upper: Bound,
        shown: Option<Sequence<Literal>>,
    },
}
