//! A statement of an instance or of a proof.

ghost use Rattle.std.specs.Prelude.{◌↔◌, IsTrue};
ghost use Rattle.pb_text.specs.meaning.Blank.{IsInLine};
ghost use Rattle.pb_text.specs.meaning.Limits.{largest, top_of};
ghost use Rattle.pb_text.specs.meaning.Writing.{Writes};
ghost use Rattle.pb_opb.specs.meaning.Instances.{IsTail};
ghost use Rattle.pb_pieces.specs.AnyStatement.{IsAnyValue, IsEventValue, kind_in, line_of, text_in, tokens_in};

use crate::token_sink::TokenSink;
use crate::tokenized::{EventKind, Tokenized};
use pb_opb::{OpbEvent, write_event};
use pb_proof::{Statement, statement_is_value, write_statement};
use pb_sums::{linear_is_value, sum_is_value};
use pb_text::bytes::is_blank;
use pb_text::{Failed, Limits, Sink};
use std::alloc::AllocError;

/// A statement of an instance or of a proof.
#[derive(Drop)]
pub enum AnyStatement {
    Instance(OpbEvent),
    Proof(Statement),
}

impl Tokenized for AnyStatement {
    ghost sort = { kind_in };

    ghost tokens = { tokens_in };

    ghost text = { text_in };

    fn kind(&self) -> EventKind {
        match self {
            AnyStatement::Instance(event) => event.kind(),
            AnyStatement::Proof(statement) => statement.kind(),
        }
    }

    fn put_tokens<T: TokenSink>(&self, into: &mut T) -> Result<(), AllocError> {
        match self {
            AnyStatement::Instance(event) => event.put_tokens(into),
            AnyStatement::Proof(statement) => statement.put_tokens(into),
        }
    }

    fn free_text(&self) -> &[u8] {
        match self {
            AnyStatement::Instance(event) => event.free_text(),
            AnyStatement::Proof(statement) => statement.free_text(),
        }
    }
}

impl AnyStatement {
    /// Whether the statement has a text under the limits.
    pub fn is_value(&self, limits: Limits) -> bool
        ensures { IsTrue result ↔ IsAnyValue (largest limits) (top_of limits) self.now }
    {
        match self {
            AnyStatement::Instance(event) => event_is_value(event, limits),
            AnyStatement::Proof(statement) => statement_is_value(statement, limits),
        }
    }

    /// Writes its canonical text, without a line feed at its end.
    pub fn write<S: Sink>(&self, out: &mut S) -> Result<(), Failed>
        ensures { Writes S.contents S.faults out.old (line_of self.now) result out.new }
    {
        match self {
            AnyStatement::Instance(event) => write_event(event, out),
            AnyStatement::Proof(statement) => write_statement(statement, out),
        }
    }
}

/// Whether a statement of an instance has a text under the limits:
/// - its numbers are within them, and its names are those of the grammar;
/// - what follows the counts of a header is empty, or a blank and then no line feed;
/// - the text of a comment holds no line feed.
fn event_is_value(event: &OpbEvent, limits: Limits) -> bool
    ensures { IsTrue result ↔ IsEventValue (largest limits) (top_of limits) event.now }
{
    match event {
        OpbEvent::Header {
            variables,
            constraints,
            tail,
        } => {
            *variables <= limits.top() && *constraints <= limits.top() && is_tail(tail.as_slice())
        }
        OpbEvent::Comment(text) => is_in_line(text.as_slice()),
        OpbEvent::Objective(terms) => sum_is_value(terms.as_slice(), limits),
        OpbEvent::Constraint(linear) => linear_is_value(linear, limits),
    }
}

/// Whether the bytes may follow the counts of a header.
fn is_tail(bytes: &[u8]) -> bool
    ensures { IsTrue result ↔ IsTail bytes.now }
{
    match bytes {
        [] => true,
        [first, rest @ ..] => is_blank(*first) && is_in_line(rest),
    }
}

/// Whether there is no line feed.
fn is_in_line(bytes: &[u8]) -> bool
    ensures { IsTrue result ↔ IsInLine bytes.now }
{
    for byte in bytes {
        if *byte == b'\n' {
            return false;
        }
    }
    true
}
