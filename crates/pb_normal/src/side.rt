//! The two sides of a constraint.

/// Which form of a constraint is meant.
#[derive(Clone, Copy, Debug, PartialEq, Eq)]
pub enum Side {
    /// The sum is at least the degree.
    AtLeast,
    /// The reverse: the sum is at most the degree.
    AtMost,
}
