//! Lists of terms, each in one of the ways in which they are stored.

ghost use Rattle.std.specs.Prelude.{◌≡◌, ◌<◌, ◌≤◌, ◌++◌, List, IfOk, drop, length, get_or, map};
ghost use Rattle.pb_normal.specs.declared.entry.Entry.{Entry};

use crate::entry::Entry;
use crate::terms::code::{Coded, append_decoded};
use std::alloc::AllocError;

/// A list of terms that is read by index. Code over it is compiled for each way in which terms are
/// stored, so its loops do not test which way it is.
pub(crate) trait Listed {
    /// The terms.
    ghost entries: { Self → List Entry };

    /// How many there are.
    fn count(&self) -> usize
        ensures { result ≡ length (entries self.now) };

    /// The term at an index.
    fn at(&self, index: usize) -> Entry
        requires { index < length (entries self.now) }
        ensures { (d : Entry) → result ≡ get_or (entries self.now) index d };

    /// Appends the terms from an index on to a list.
    fn append_rest(&self, from: usize, out: &mut Vec<Entry>) -> Result<(), AllocError>
        requires { from ≤ length (entries self.now) }
        ensures { IfOk result (λ _. out.new.items ≡ out.old.items ++ drop from (entries self.now)) };
}

impl<'a, T: Coded + Copy> Listed for &'a [T] {
    ghost entries = { λ codes. map T.term codes.now };

    #[inline]
    fn count(&self) -> usize {
        self.len()
    }

    #[inline]
    fn at(&self, index: usize) -> Entry {
        self[index].entry()
    }

    fn append_rest(&self, from: usize, out: &mut Vec<Entry>) -> Result<(), AllocError> {
        append_decoded(&self[from..], out)
    }
}

impl<'a> Listed for &'a [Entry] {
    ghost entries = { λ terms. terms.now };

    #[inline]
    fn count(&self) -> usize {
        self.len()
    }

    #[inline]
    fn at(&self, index: usize) -> Entry {
        self[index]
    }

    fn append_rest(&self, from: usize, out: &mut Vec<Entry>) -> Result<(), AllocError> {
        out.extend_from_slice(&self[from..])
    }
}
