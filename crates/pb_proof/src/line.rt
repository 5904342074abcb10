//! The line machines: they read the rest of a statement after its first word.

mod conclusion;
pub(crate) mod delete;
mod formula;
mod ids;
mod literals;
pub(crate) mod pol;
pub(crate) mod push;
pub(crate) mod rup;
mod solution;

use crate::line::conclusion::ConclusionWords;
use crate::line::delete::DeleteWords;
use crate::line::formula::FormulaWords;
use crate::line::pol::PolWords;
use crate::line::rup::RupMachine;
use crate::line::solution::SolutionWords;
use pb_lines::WordMachine;

/// A line machine: it reads the rest of a statement after its first word, through the line feed.
#[derive(Drop)]
pub enum LineMachine {
    /// After `f`.
    Formula(WordMachine<FormulaWords>),
    /// After `pol`.
    Pol(WordMachine<PolWords>),
    /// After `rup`.
    Rup(RupMachine),
    /// After `soli`.
    Soli(WordMachine<SolutionWords>),
    /// After `solx`.
    Solx(WordMachine<SolutionWords>),
    /// After `del id`.
    Delete(WordMachine<DeleteWords>),
    /// After `conclusion`.
    Conclusion(WordMachine<ConclusionWords>),
}
