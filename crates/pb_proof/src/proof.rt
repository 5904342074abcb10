//! Proofs.

use crate::conclusion::Conclusion;
use crate::statement::Statement;
use pb_text::Sequence;

/// A proof in VeriPB 2.0, as written. White space and comments are not stored.
#[derive(Drop)]
pub struct Proof {
    /// The number of constraints that `f` gives, if it gives one.
    pub count: Option<u64>,
    /// The steps in order: `Pol`, `Rup`, `Soli`, `Solx` and `Delete`.
    pub steps: Sequence<Statement>,
    /// What the proof claims.
    pub conclusion: Conclusion,
}
