//! A handle on a reader, for programs in C.

ghost use Rattle.std.specs.Prelude.{◌≡◌, None, Some, Option};
ghost use Rattle.std.specs.Option.{MatchOption};
ghost use Rattle.pb_pieces.specs.contracts.reader.Reader.{the_row};
ghost use Rattle.pb_pieces.specs.declared.reader.Reader.{Reader as AReader};
ghost use Rattle.pb_c.specs.Handle.{held_owns};

use pb_loose::Loose;
use pb_pieces::Reader;
use std::alloc::Global;
use std::marker::Model;
use std::{mem, ptr};

/// A handle on a reader. It is null, and then it owns nothing, or it owns the reader.
#[repr(C)]
pub struct ReaderHandle {
    at: *mut (),
    alloc: Global,
    ghost value: { Option AReader },
}

impl Model for ReaderHandle {
    ghost also_owns = { λ h. held_owns the_row h.alloc h.at h.value };
}

impl ReaderHandle {
    /// A handle that owns nothing.
    fn empty(alloc: Global) -> ReaderHandle
        ensures { result.value ≡ None }
    {
        ReaderHandle {
            at: ptr::null_mut(),
            alloc,
        }
    }

    fn of_loose(loose: Loose<Reader, Global>) -> ReaderHandle
        ensures { result.value ≡ Some loose.value }
    {
        let Loose { at, alloc } = loose;
        ReaderHandle {
            at: at as *mut (),
            alloc,
        }
    }

    fn into_loose(self) -> Option<Loose<Reader, Global>>
        ensures { MatchOption result (self.value ≡ None) (λ l. self.value ≡ Some l.value) }
    {
        let ReaderHandle { at, alloc } = self;
        if at.is_null() {
            None
        } else {
            Some(Loose {
                at: at as *mut Reader,
                alloc,
            })
        }
    }

    /// A handle that owns a reader.
    pub(crate) fn of(reader: Box<Reader>) -> ReaderHandle
        ensures { result.value ≡ Some reader.value }
    {
        ReaderHandle::of_loose(Loose::of(reader))
    }

    /// The reader that a handle owns.
    fn into_reader(self) -> Option<Box<Reader>>
        ensures { MatchOption result (self.value ≡ None) (λ b. self.value ≡ Some b.value) }
    {
        match self.into_loose() {
            Some(loose) => Some(loose.into_box()),
            None => None,
        }
    }

    /// The same, and the handle owns nothing then.
    pub(crate) fn take(&mut self, alloc: Global) -> Option<Box<Reader>>
        ensures taken { MatchOption result (self.old.value ≡ None) (λ b.
            self.old.value ≡ Some b.value) }
        ensures left { self.new.value ≡ None }
    {
        mem::replace(self, ReaderHandle::empty(alloc)).into_reader()
    }
}

impl Drop for ReaderHandle {
    fn drop(self) {
        drop(self.into_reader());
    }
}
