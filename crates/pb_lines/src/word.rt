//! The words of a line.

/// What stands before the digits of a number.
#[derive(Clone, Copy, Drop, PartialEq, Eq)]
pub enum Sign {
    Nothing,
    Plus,
    Minus,
}

/// A word in capital letters.
#[derive(Clone, Copy, Drop)]
pub enum Capital {
    NoClaim,
    Unsat,
    Sat,
    Bounds,
    Infinity,
}

/// A word of a line, without the name of a literal.
#[derive(Clone, Copy, Drop)]
pub enum Word {
    /// Digits with this value.
    Number(Sign, u128),
    /// A literal, negated or not.
    Literal(bool),
    /// This byte.
    Mark(u8),
    Capital(Capital),
}

/// What may come after a word.
#[derive(Clone, Copy, Drop)]
pub struct Follow {
    /// The end of the line.
    pub end: bool,
    /// A `:`.
    pub colon: bool,
}
