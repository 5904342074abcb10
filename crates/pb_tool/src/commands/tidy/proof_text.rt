//! The text of a proof, built as its statements come.

ghost use Rattle.std.specs.Prelude.{◌≡◌, ◌++◌, OnErr, OnOk};
ghost use Rattle.pb_text.specs.meaning.Writing.{Writes};
ghost use Rattle.pb_tool.specs.engine.ProofText.{after_steps, before_steps, line, text_of};

use crate::canonical::{Canonical, write_line};
use crate::commands::tidy::page::Page;
use pb_proof::{Conclusion, Statement};
use pb_sums::piece::Piece;
use pb_text::{Failed, Gather, Sink, write_bytes};
use std::alloc::{AllocError, Global};

/// The statements of a proof so far. The steps are stored as text. The count of `f` and the
/// conclusion are stored as values, which allocates nothing.
#[derive(Drop)]
pub(crate) struct ProofText {
    count: Option<u64>,
    steps: Page,
    conclusion: Statement,
}

impl ProofText {
    ghost use Rattle.std.specs.Prelude.{[]};

    /// Before any statement.
    pub(crate) fn new(alloc: Global) -> ProofText
        ensures { result.steps.text ≡ [] }
    {
        ProofText {
            count: None,
            steps: Page::new(alloc),
            conclusion: Statement::Conclude(Conclusion::NoClaim),
        }
    }

    /// Writes the lines before the steps.
    fn write_before_steps<W: Sink>(&self, out: &mut W) -> Result<(), Failed>
        ensures { Writes W.contents W.faults out.old (before_steps self.now) result out.new }
    {
        write_line(&Statement::Header, out)?;
        write_line(&Statement::F(self.count), out)
    }

    /// Writes the lines after the steps.
    fn write_after_steps<W: Sink>(&self, out: &mut W) -> Result<(), Failed>
        ensures { Writes W.contents W.faults out.old (after_steps self.now) result out.new }
    {
        write_line(&Statement::Output, out)?;
        write_line(&self.conclusion, out)?;
        write_line(&Statement::End, out)
    }

    /// Adds a step to the text. If memory ran out, the text is unchanged.
    fn push(&mut self, step: &Statement) -> Result<(), AllocError>
        ensures ok { OnOk result (self.new ≡ record self.old {
          steps = record self.old.steps {
            text = self.old.steps.text ++ line step.now;
          };
        }) }
        ensures unchanged { OnErr result (self.new ≡ self.old) }
    {
        let mark = self.steps.mark();
        match self.steps.write_line(step) {
            Ok(()) => Ok(()),
            Err(Failed) => {
                self.steps.back_to(mark);
                Err(AllocError)
            }
        }
    }
}

impl Canonical for ProofText {
    ghost text = { text_of };

    fn write_text<W: Sink>(&self, out: &mut W) -> Result<(), Failed> {
        self.write_before_steps(out)?;
        write_bytes(self.steps.as_slice(), out)?;
        self.write_after_steps(out)
    }

    // It is stored in full, so it is never put into a piece.
    fn put_text(&self, _piece: &mut Piece) -> bool {
        false
    }
}

impl Gather for ProofText {
    ghost use Rattle.pb_proof.specs.contract.Gather.{asks};
    ghost use Rattle.pb_tool.specs.engine.ProofText.{with};

    type Event = Statement;

    ghost with = { λ t s. with t s };

    ghost asks = { λ t s. asks s };

    fn add(&mut self, statement: Statement) -> Result<Option<Statement>, AllocError> {
        match statement {
            Statement::Header | Statement::Output | Statement::End => Ok(None),
            Statement::F(count) => {
                self.count = count;
                Ok(None)
            }
            Statement::Conclude(_) => {
                self.conclusion = statement;
                Ok(None)
            }
            step => {
                self.push(&step)?;
                Ok(Some(step))
            }
        }
    }
}
