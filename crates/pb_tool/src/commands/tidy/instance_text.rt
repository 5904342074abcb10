//! The text of an instance, built as its statements come.

ghost use Rattle.std.specs.Prelude.{◌≡◌, ◌++◌, None, OnErr, OnOk};
ghost use Rattle.pb_text.specs.meaning.Writing.{Writes};
ghost use Rattle.pb_tool.specs.engine.InstanceText.{line, line_if, text_of};
ghost use Rattle.pb_tool.specs.engine.Page.{WritesPage};

use crate::canonical::{Canonical, write_line};
use crate::commands::tidy::page::Page;
use pb_opb::OpbEvent;
use pb_sums::piece::Piece;
use pb_text::{Failed, Gather, Sink, write_bytes};
use std::alloc::{AllocError, Global};

/// The statements of an instance so far, as text. Two are stored as values, which allocates
/// nothing: the header, and an objective until the next statement comes.
#[derive(Drop)]
pub(crate) struct InstanceText {
    header: Option<OpbEvent>,
    page: Page,
    objective: Option<OpbEvent>,
}

impl InstanceText {
    ghost use Rattle.std.specs.Prelude.{[]};

    /// Before any statement.
    pub(crate) fn new(alloc: Global) -> InstanceText
        ensures header { result.header ≡ None }
        ensures page { result.page.text ≡ [] }
        ensures objective { result.objective ≡ None }
    {
        InstanceText {
            header: None,
            page: Page::new(alloc),
            objective: None,
        }
    }

    /// Adds a statement to the text, after the stored objective, if any. If memory ran out, the
    /// text is unchanged.
    fn push(&mut self, event: &OpbEvent) -> Result<(), AllocError>
        ensures ok { OnOk result (self.new ≡ record self.old {
          page = record self.old.page {
            text = self.old.page.text ++ (line_if self.old.objective ++ line event.now);
          };
          objective = None;
        }) }
        ensures unchanged { OnErr result (self.new ≡ self.old) }
    {
        let mark = self.page.mark();
        match write_after(&self.objective, event, &mut self.page) {
            Ok(()) => {
                self.objective = None;
                Ok(())
            }
            Err(Failed) => {
                self.page.back_to(mark);
                Err(AllocError)
            }
        }
    }
}

/// Writes the line of a statement, if there is one.
pub(crate) fn write_line_if<W: Sink>(event: &Option<OpbEvent>, out: &mut W) -> Result<(), Failed>
    ensures { Writes W.contents W.faults out.old (line_if event.now) result out.new }
{
    match event {
        Some(event) => write_line(event, out),
        None => Ok(()),
    }
}

/// Writes the line of `before`, if there is one, and then the line of `event`.
fn write_after(before: &Option<OpbEvent>, event: &OpbEvent, page: &mut Page) -> Result<(), Failed>
    ensures { WritesPage page.old (line_if before.now ++ line event.now) result page.new }
{
    write_line_if(before, page)?;
    page.write_line(event)
}

impl Canonical for InstanceText {
    ghost text = { text_of };

    fn write_text<W: Sink>(&self, out: &mut W) -> Result<(), Failed> {
        write_line_if(&self.header, out)?;
        write_bytes(self.page.as_slice(), out)?;
        write_line_if(&self.objective, out)
    }

    // It is stored in full, so it is never put into a piece.
    fn put_text(&self, _piece: &mut Piece) -> bool {
        false
    }
}

impl Gather for InstanceText {
    ghost use Rattle.pb_tool.specs.engine.InstanceText.{asks, with};

    type Event = OpbEvent;

    ghost with = { λ t e. with t e };

    ghost asks = { λ t e. asks e };

    fn add(&mut self, event: OpbEvent) -> Result<Option<OpbEvent>, AllocError> {
        match event {
            OpbEvent::Header { .. } => {
                self.header = Some(event);
                Ok(None)
            }
            OpbEvent::Objective(_) => {
                self.objective = Some(event);
                Ok(None)
            }
            OpbEvent::Comment(_) | OpbEvent::Constraint(_) => {
                self.push(&event)?;
                Ok(Some(event))
            }
        }
    }
}
