//! Terms as the engine stores them, and their positions.

ghost use Rattle.std.specs.Prelude.{◌≡◌};

use pb_normal::NumberedLiteral;

/// A literal with its coefficient.
#[derive(Clone, Copy)]
pub struct Term {
    pub literal: NumberedLiteral,
    pub coefficient: u128,
}

/// The position of a form's term, and its coefficient.
#[derive(Clone, Copy)]
pub struct Rank {
    pub place: usize,
    pub coefficient: u128,
}
