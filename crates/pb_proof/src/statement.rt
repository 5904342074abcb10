//! The statements of a proof.

use crate::conclusion::Conclusion;
use crate::machine::phase::Stage;
use crate::word::PolWord;
use pb_sums::{Linear, Literal};
use pb_text::Sequence;

/// A statement of a proof in VeriPB 2.0, as it is read: a line from its first word through its line
/// feed. The closing words have no line feed.
#[derive(Drop)]
pub enum Statement {
    /// `pseudo-Boolean proof version 2.0`.
    Header,
    /// `f`: the formula's constraints are loaded. If a number is given, there are that many.
    F(Option<u64>),
    /// `pol`: a constraint by the rules of cutting planes, in postfix words.
    Pol(Sequence<PolWord>),
    /// `rup`: a constraint by reverse unit propagation.
    Rup(Linear),
    /// `soli`: a solution, on which the objective has to improve.
    Soli(Sequence<Literal>),
    /// `solx`: a solution, which is excluded.
    Solx(Sequence<Literal>),
    /// `del id`: the constraints of these ids are deleted.
    Delete(Sequence<i64>),
    /// `output NONE`.
    Output,
    /// `conclusion`.
    Conclude(Conclusion),
    /// `end pseudo-Boolean proof`.
    End,
}

impl Statement {
    ghost use Rattle.std.specs.Prelude.{◌≡◌};
    ghost use Rattle.pb_proof.specs.meaning.Order.{stage_of, stage_after};

    /// The stage of a proof at which the statement may come.
    pub fn stage(&self) -> Stage
        ensures { result ≡ stage_of self.now }
    {
        match self {
            Statement::Header => Stage::Opening,
            Statement::F(_) => Stage::Formula,
            Statement::Conclude(_) => Stage::Concluding,
            Statement::End => Stage::Closing,
            _ => Stage::Steps,
        }
    }

    /// The stage of a proof after the statement, if the statement may come.
    pub fn next_stage(&self) -> Stage
        ensures { result ≡ stage_after self.now }
    {
        match self {
            Statement::Header => Stage::Formula,
            Statement::Output => Stage::Concluding,
            Statement::Conclude(_) => Stage::Closing,
            Statement::End => Stage::Complete,
            _ => Stage::Steps,
        }
    }
}
