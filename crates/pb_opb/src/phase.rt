//! What a machine has read last, and what it does with a byte.

/// A count of the header.
#[derive(Clone, Copy, Drop)]
pub enum Field {
    Variables,
    Constraints,
}

/// What a machine has read last.
#[derive(Clone, Copy, Drop)]
pub enum Phase {
    /// Nothing.
    Start,
    /// The text before a field's word, and perhaps blanks.
    BeforeWord(Field),
    /// This many bytes of a field's word.
    Word(Field, usize),
    /// A field's word, and perhaps blanks.
    BeforeCount(Field),
    /// Digits of a field's count, with this value.
    Count(Field, u64),
    /// The header's counts, and bytes of its tail.
    Tail,
    /// A whole statement, and perhaps white space. The flag says whether an objective may still
    /// come.
    Between(bool),
    /// The star of a comment, and bytes of it. The flag says whether an objective may come after
    /// it.
    Comment(bool),
    /// This many bytes of `min:`.
    Min(usize),
    /// `min:`, and perhaps white space.
    AfterMin,
    /// A part of the objective's sum.
    Objective,
    /// A part of a constraint.
    Constraint,
    /// The whole instance.
    Done,
}

/// What a machine does with a byte.
#[derive(Clone, Copy, Drop)]
pub enum Action {
    /// Continues.
    To(Phase),
    /// Stores the count of variables.
    Declare(u64),
    /// Stores the count of constraints, and the first byte of the tail.
    BeginTail(u64, u8),
    /// Stores a byte of a tail or a comment.
    Keep(u8),
    /// Ends a header without a tail.
    EndHeader(u64),
    /// Ends a header with a tail.
    EndTail,
    /// Ends a comment.
    EndComment(bool),
    /// Begins the sum of the objective.
    BeginSum,
    /// Gives the byte to the machine of sums.
    Give(Phase),
    Stop,
}
