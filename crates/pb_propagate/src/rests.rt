//! The state to which a question returns.

ghost use Rattle.std.specs.Prelude.{◌≡◌, [], slice_index_or, IfOk};

use crate::column::Column;
use crate::open_sums::OpenSums;
use std::alloc::{AllocError, Global};

/// The open sum and the candidate of each form between two questions. A form that has none here
/// returns to its total, and to its first term.
#[derive(Drop)]
pub struct Rests {
    pub opens: OpenSums,
    pub starts: Column<usize>,
}

impl Rests {
    /// Each form returns to its total, and to its first term.
    pub fn none(alloc: Global) -> Rests
        ensures opens { result.opens ≡ [] }
        ensures starts { result.starts ≡ [] }
    {
        Rests {
            opens: OpenSums::new(alloc),
            starts: Column::new(alloc),
        }
    }

    /// The same, with memory for this many forms.
    pub fn with_capacity(alloc: Global, forms: usize) -> Result<Rests, AllocError>
        ensures opens { IfOk result (λ rests. rests.opens ≡ []) }
        ensures starts { IfOk result (λ rests. rests.starts ≡ []) }
    {
        let opens = OpenSums::with_capacity(alloc, forms)?;
        let starts = Column::with_capacity(alloc, forms)?;
        Ok(Rests { opens, starts })
    }

    /// The open sum to which a form with this total returns.
    pub fn open(&self, form: usize, total: u128) -> u128
        ensures { result ≡ slice_index_or self.now.opens form total }
    {
        if form < self.opens.len() {
            self.opens.get(form)
        } else {
            total
        }
    }

    /// The candidate to which a form returns.
    pub fn start(&self, form: usize) -> usize
        ensures { result ≡ slice_index_or self.now.starts form 0 }
    {
        if form < self.starts.len() {
            self.starts.get(form)
        } else {
            0
        }
    }
}
