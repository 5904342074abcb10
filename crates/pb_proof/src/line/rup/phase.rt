//! What the machine for `rup` has read last, and what it does with a byte.

/// What has been read last.
#[derive(Clone, Copy, Drop)]
pub enum RupPhase {
    /// Nothing.
    Start,
    /// Blanks.
    Gap,
    /// A part of the constraint.
    Inside,
    /// The constraint, and perhaps blanks.
    Tail,
    /// The whole line.
    Done,
}

/// What the machine does with a byte.
#[derive(Clone, Copy, Drop)]
pub enum RupAction {
    /// Continues in this phase.
    To(RupPhase),
    /// Gives the byte to the machine for sums.
    Give,
    /// Ends the line.
    Finish,
    Stop,
}
