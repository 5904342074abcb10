//! What a machine reads.

/// Which bytes are space. `White` is a blank or a line feed; `Blank` is a space, tab or carriage
/// return.
#[derive(Clone, Copy, Debug, PartialEq, Eq)]
pub enum Spaces {
    White,
    Blank,
}

/// What a machine reads: a sum and `;`, a linear text, or one with `>=`.
#[derive(Clone, Copy, Debug, PartialEq, Eq)]
pub enum Part {
    Sum,
    Linear,
    AtLeast,
}
