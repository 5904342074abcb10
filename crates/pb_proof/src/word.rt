//! The words of a postfix expression.

use pb_sums::{Literal, Name};

/// A word of a postfix expression of cutting planes.
#[derive(Drop)]
pub enum PolWord {
    /// The constraint with this id. A negative id counts back from the newest constraint.
    Id(i64),
    /// The axiom that a literal is at least 0.
    Axiom(Literal),
    /// The sum of the last two constraints.
    Add,
    /// The last constraint times a factor.
    Multiply(i128),
    /// The last constraint divided by a divisor, rounded up.
    Divide(i128),
    /// The last constraint with no coefficient above its degree.
    Saturate,
    /// The last constraint, weakened so that this variable is gone.
    Weaken(Name),
}
