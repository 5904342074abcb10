//! `pb check --explain`: the reasons of a rejection, and nothing before it.

ghost use Rattle.std.specs.Prelude.{◌≡◌};
ghost use Rattle.pb_trace.specs.Traced.{ExplainsCall};

use crate::instance_text::InstanceText;
use crate::trace::Trace;
use pb_proof::Statement;
use pb_replay::Replay;
use pb_text::{Sink, Spanned};
use pb_tool::{CheckFault, ToolFault, Watch};
use std::alloc::Global;
use std::marker::Model;

/// Writes why a statement is rejected, as a `Trace` does after the line of that statement, and
/// nothing else. It stores what accepted statements add.
#[derive(Drop)]
pub struct Explained<S> {
    trace: Trace<S>,
}

impl<S> Model for Explained<S> {
    ghost use Rattle.pb_trace.specs.Traced.{Tracing};

    ghost Value = { Tracing S };

    ghost view = { λ e. e.trace };
}

impl<S: Sink> Explained<S> {
    ghost use Rattle.std.specs.Prelude.{[]};

    /// Before any statement.
    pub fn new(alloc: Global, out: S) -> Explained<S>
        ensures out { result.out ≡ out }
        ensures stored { result.stored ≡ [] }
        ensures end { result.end ≡ Ok tt }
        ensures lines { result.lines ≡ [] }
    {
        Explained {
            trace: Trace::new(alloc, out, false),
        }
    }

    /// Takes what the text of the instance says. The lines of its constraints are shown from then
    /// on.
    pub fn describe(&mut self, text: InstanceText)
        ensures lines { self.new.lines ≡ text.lines.items }
        ensures out { self.new.out ≡ self.old.out }
        ensures stored { self.new.stored ≡ self.old.stored }
        ensures end { self.new.end ≡ self.old.end }
    {
        self.trace.describe(text);
    }

    /// The sink.
    pub fn into_out(self) -> S
        ensures { result ≡ self.out }
    {
        self.trace.into_out()
    }

    /// Whether all reasons were written. Otherwise memory ran out, or the output could not be
    /// written.
    pub fn end(&self) -> Result<(), ToolFault>
        ensures { result ≡ self.now.end }
    {
        self.trace.end()
    }
}

impl<S: Sink> Watch for Explained<S> {
    ghost got = { ExplainsCall S.contents S.faults };

    fn accepted(&mut self, read: &Spanned<Statement>, replay: &Replay) {
        self.trace.follow(read, replay);
    }

    fn rejected(&mut self, read: &Spanned<Statement>, replay: &Replay, fault: CheckFault) {
        self.trace.explain(read, replay, fault);
    }
}
