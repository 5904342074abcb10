//! Text that is stored until it may be written.

ghost use Rattle.std.specs.Prelude.{◌≡◌, ◌++◌, [], IfOk, OnErr, if◌then◌else◌, length, take};
ghost use Rattle.pb_text.specs.meaning.Writing.{one_more};
ghost use Rattle.pb_tool.specs.contract.Show.{line_of};
ghost use Rattle.pb_tool.specs.engine.Page.{WritesPage};

use crate::canonical::{Canonical, put_line, write_parts};
use pb_sums::piece::Piece;
use pb_text::{Failed, Sink};
use std::alloc::{AllocError, Global};
use std::marker::Model;

/// A text in memory, and a piece in which its short lines are made. Contracts see the bytes of the
/// text.
#[derive(Drop)]
pub(crate) struct Text {
    bytes: Vec<u8>,
    piece: Piece,
}

impl Model for Text {
    ghost use Rattle.std.specs.Prelude.{List, ℕ};

    ghost Value = { List ℕ };

    ghost view = { λ t. t.bytes.items };
}

impl Text {
    /// Adds the line of a statement if it surely fits in the piece, and returns whether it did.
    fn add_short_line<E: Canonical>(&mut self, statement: &E) -> Result<bool, AllocError>
        ensures ok { IfOk result (λ added. self.new ≡
            (if added then self.old ++ line_of E.text statement.now else self.old)) }
        ensures unchanged { OnErr result (self.new ≡ self.old) }
    {
        if !put_line(statement, &mut self.piece) {
            return Ok(false);
        }
        match self.bytes.extend_from_slice(self.piece.as_bytes()) {
            Ok(()) => Ok(true),
            Err(_) => Err(AllocError),
        }
    }
}

/// A sink in memory. It fails if memory ran out.
#[derive(Drop)]
pub(crate) struct Page {
    text: Text,
    failures: u64,
}

/// The state of a page: how many bytes it holds, and how often it has failed.
#[derive(Clone, Copy)]
pub(crate) struct Mark {
    bytes: usize,
    failures: u64,
}

impl Page {
    /// An empty page.
    pub(crate) fn new(alloc: Global) -> Page
        ensures text { result.text ≡ [] }
        ensures failures { result.failures ≡ 0 }
    {
        let text = Text {
            bytes: Vec::new(alloc),
            piece: Piece::new(),
        };
        Page { text, failures: 0 }
    }

    /// Writes the canonical text of a statement, and a line feed.
    pub(crate) fn write_line<E: Canonical>(&mut self, statement: &E) -> Result<(), Failed>
        ensures { WritesPage self.old (line_of E.text statement.now) result self.new }
    {
        match self.text.add_short_line(statement) {
            Ok(true) => Ok(()),
            Ok(false) => write_parts(statement, self),
            Err(AllocError) => Err(self.fail()),
        }
    }

    /// Counts a failure.
    fn fail(&mut self) -> Failed
        ensures { self.new ≡ record self.old { failures = one_more self.old.failures } }
    {
        self.failures = self.failures.saturating_add(1);
        Failed
    }

    /// Its bytes.
    pub(crate) fn as_slice(&self) -> &[u8]
        ensures { result.now ≡ self.now.text }
    {
        self.text.bytes.as_slice()
    }

    /// The current state.
    pub(crate) fn mark(&self) -> Mark
        ensures bytes { result.bytes ≡ length self.now.text }
        ensures failures { result.failures ≡ self.now.failures }
    {
        Mark {
            bytes: self.text.bytes.len(),
            failures: self.failures,
        }
    }

    /// Removes what was written after a mark, and restores the count of failures.
    pub(crate) fn back_to(&mut self, mark: Mark)
        ensures text { self.new.text ≡ take mark.bytes self.old.text }
        ensures failures { self.new.failures ≡ mark.failures }
    {
        self.text.bytes.truncate(mark.bytes);
        self.failures = mark.failures;
    }
}

impl Sink for Page {
    ghost use Rattle.std.specs.Prelude.{Some};

    ghost contents = { λ p. Some p.text };

    ghost faults = { λ p. p.failures };

    fn take(&mut self, piece: &[u8]) -> Result<usize, Failed> {
        if self.text.bytes.extend_from_slice(piece).is_err() {
            return Err(self.fail());
        }
        Ok(piece.len())
    }

    fn failures(&self) -> u64 {
        self.failures
    }
}
