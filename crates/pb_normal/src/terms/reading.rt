//! The terms of a form as they are read.

ghost use Rattle.std.specs.Prelude.{◌≡◌, ◌<◌, IfOk, length, get_or};
ghost use Rattle.pb_normal.specs.engine.Reading.{read_entries};

use crate::entry::Entry;
use crate::terms::code::decoded_all;
use crate::terms::coded_term::CodedTerm;
use crate::terms::listed::Listed;
use std::alloc::{AllocError, Global};

/// The terms of a form, as a slice of what is stored. What reads terms chooses once between these.
#[derive(Clone, Copy)]
pub(crate) enum Reading<'a> {
    Codes(&'a [u32]),
    Narrow(&'a [CodedTerm]),
    Wide(&'a [Entry]),
}

impl<'a> Reading<'a> {
    /// How many there are.
    #[inline]
    pub(crate) fn len(self) -> usize
        ensures length { result ≡ length (read_entries self.entry) }
    {
        match self {
            Reading::Codes(codes) => codes.len(),
            Reading::Narrow(terms) => terms.len(),
            Reading::Wide(terms) => terms.len(),
        }
    }

    /// The term at an index.
    #[inline]
    pub(crate) fn get(self, index: usize) -> Entry
        requires { index < length (read_entries self) }
        ensures read { (d : Entry) → result ≡ get_or (read_entries self.entry) index d }
    {
        match self {
            Reading::Codes(codes) => codes.at(index),
            Reading::Narrow(terms) => terms.at(index),
            Reading::Wide(terms) => terms.at(index),
        }
    }

    /// A list of the terms.
    pub(crate) fn to_entries(self, alloc: Global) -> Result<Vec<Entry>, AllocError>
        ensures same { IfOk result (λ r. r.items ≡ read_entries self.entry) }
    {
        match self {
            Reading::Codes(codes) => decoded_all(alloc, codes),
            Reading::Narrow(terms) => decoded_all(alloc, terms),
            Reading::Wide(terms) => copied(alloc, terms),
        }
    }
}

/// A copy of a slice.
pub(crate) fn copied<T: Copy>(alloc: Global, items: &[T]) -> Result<Vec<T>, AllocError>
    ensures { IfOk result (λ r. r.items ≡ items.now) }
{
    let mut copy = Vec::new(alloc);
    copy.extend_from_slice(items)?;
    Ok(copy)
}
