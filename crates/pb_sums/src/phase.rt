//! What a machine knows about the text so far, and the kinds of bytes.

use crate::linear::Relation;

/// The kind of a byte in a sum.
#[derive(Clone, Copy)]
pub enum Kind {
    Space,
    /// A digit of a number, by its value.
    Digit(u8),
    /// A byte that may begin a name.
    Start(u8),
    /// Another byte that a name may contain.
    Inner(u8),
    Tilde,
    Plus,
    Minus,
    Greater,
    Equals,
    Semicolon,
    Other,
}

/// What was read last.
#[derive(Clone, Copy)]
pub enum Phase {
    /// Nothing.
    Start,
    /// The sign of a coefficient, or of the degree after a relation.
    Signed(Option<Relation>, bool),
    /// Digits with this value.
    Digits(Option<Relation>, bool, u128),
    /// A coefficient and space.
    Gap(i128),
    /// A coefficient, space and `~`.
    Tilde(i128),
    /// The first byte of a name.
    First(i128, bool),
    /// At least two bytes of a name.
    More(i128, bool),
    /// A term and space.
    Between,
    /// The first byte of `>=`.
    Greater,
    /// The relation, and perhaps space.
    Relation(Relation),
    /// The degree and space.
    Tail(Relation, i128),
    /// Space, and no term.
    Empty,
    /// The whole text.
    Done,
}

/// What a machine does with a byte.
#[derive(Clone, Copy)]
pub enum Action {
    /// Continues. A literal that is complete ends its term.
    To(Phase),
    /// Begins a name with a byte.
    Begin(Phase, u8),
    /// Adds a byte to the name.
    Add(Phase, u8),
    EndSum,
    EndLinear(Relation, i128),
    Stop,
}
