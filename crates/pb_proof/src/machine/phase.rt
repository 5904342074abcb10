//! What the machine for proofs has read last, and what it does with a byte.

/// How far a proof has come: which statements may come next.
#[derive(Clone, Copy, Drop, PartialEq, Eq)]
pub enum Stage {
    /// The header.
    Opening,
    /// `f`.
    Formula,
    /// A step, or the output.
    Steps,
    /// The conclusion.
    Concluding,
    /// The closing words.
    Closing,
    /// Nothing: the proof is complete.
    Complete,
}

/// The words that a statement begins with.
#[derive(Clone, Copy, Drop)]
pub enum Keyword {
    Header,
    Formula,
    Pol,
    Rup,
    /// `sol`, of `soli` and `solx`.
    Solution,
    Delete,
    Output,
    Conclusion,
    End,
}

/// The rest of a statement after its first word, which a line machine reads.
#[derive(Clone, Copy, Drop)]
pub enum LineKind {
    /// After `f`.
    Formula,
    /// After `pol`.
    Pol,
    /// After `rup`.
    Rup,
    /// After `soli`.
    Soli,
    /// After `solx`.
    Solx,
    /// After `del id`.
    Delete,
    /// After `conclusion`.
    Conclusion,
}

/// What the machine has read last.
#[derive(Clone, Copy, Drop)]
pub enum Phase {
    /// A whole statement, or nothing, and perhaps white space and comments.
    Between(Stage),
    /// The `*` of a comment, and perhaps further bytes of it.
    Comment(Stage),
    /// This many bytes of a statement's words, and perhaps more blanks after a blank.
    Spelling(Keyword, usize),
    /// `sol`.
    Solution,
    /// The words of the header, and perhaps blanks.
    HeaderEnd,
    /// The words of the output, and perhaps blanks. The flag says whether a `;` may still come.
    OutputEnd(bool),
    /// A part of what a line machine reads.
    Inside(LineKind),
}

/// What the machine does with a byte.
#[derive(Clone, Copy, Drop)]
pub enum Action {
    /// Continues in this phase.
    To(Phase),
    /// Starts the line machine.
    Begin(LineKind),
    /// Gives the byte to the line machine.
    Give(LineKind),
    EndHeader,
    EndOutput,
    EndProof,
    Stop,
}
