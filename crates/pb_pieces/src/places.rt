//! The positions of statements in arrays.

ghost use Rattle.std.specs.Prelude.{◌≡◌, ◌∷◌, ◌++◌, [], List, OnOk};
ghost use Rattle.pb_pieces.specs.Places.{HoldPlaces};
ghost use Rattle.pb_pieces.specs.declared.places.Span.{Span as ASpan};

use pb_text::Place;
use std::alloc::{AllocError, Global};

/// The positions of statements, in arrays of one length.
#[derive(Drop)]
pub struct Places {
    /// The lines of the first bytes.
    pub lines: Vec<u64>,
    /// The columns of the first bytes.
    pub columns: Vec<u64>,
    /// The offsets of the first bytes.
    pub firsts: Vec<u64>,
    /// The offsets past the last bytes.
    pub pasts: Vec<u64>,
}

/// Where a statement begins, and the position past it.
#[derive(Clone, Copy)]
pub struct Span {
    pub first: Place,
    pub past: Place,
}

impl Places {
    /// No positions. It allocates nothing.
    pub(crate) fn new(alloc: Global) -> Places
        ensures { HoldPlaces [] result }
    {
        Places {
            lines: Vec::new(alloc),
            columns: Vec::new(alloc),
            firsts: Vec::new(alloc),
            pasts: Vec::new(alloc),
        }
    }

    /// The positions of one more statement.
    pub(crate) fn push(&mut self, span: Span) -> Result<(), AllocError>
        ensures { (spans : List ASpan) → HoldPlaces spans self.old →
            OnOk result (HoldPlaces (spans ++ span ∷ []) self.new) }
    {
        self.lines.push(span.first.line)?;
        self.columns.push(span.first.column)?;
        self.firsts.push(span.first.offset)?;
        self.pasts.push(span.past.offset)?;
        Ok(())
    }
}
