//! A handle on flat arrays, for programs in C.

ghost use Rattle.std.specs.Prelude.{◌≡◌, None, Some, Option};
ghost use Rattle.std.specs.Option.{MatchOption};
ghost use Rattle.pb_pieces.specs.contracts.instance.Flat.{the_row};
ghost use Rattle.pb_pieces.specs.declared.instance.Flat.{Flat as AFlat};
ghost use Rattle.pb_c.specs.Handle.{held_owns};

use pb_loose::Loose;
use pb_pieces::Flat;
use std::alloc::Global;
use std::marker::Model;
use std::{mem, ptr};

/// A handle on flat arrays. It is null, and then it owns nothing, or it owns the arrays.
#[repr(C)]
pub struct InstanceHandle {
    at: *mut (),
    alloc: Global,
    ghost value: { Option AFlat },
}

impl Model for InstanceHandle {
    ghost also_owns = { λ h. held_owns the_row h.alloc h.at h.value };
}

impl InstanceHandle {
    /// A handle that owns nothing.
    fn empty(alloc: Global) -> InstanceHandle
        ensures { result.value ≡ None }
    {
        InstanceHandle {
            at: ptr::null_mut(),
            alloc,
        }
    }

    fn of_loose(loose: Loose<Flat, Global>) -> InstanceHandle
        ensures { result.value ≡ Some loose.value }
    {
        let Loose { at, alloc } = loose;
        InstanceHandle {
            at: at as *mut (),
            alloc,
        }
    }

    fn into_loose(self) -> Option<Loose<Flat, Global>>
        ensures { MatchOption result (self.value ≡ None) (λ l. self.value ≡ Some l.value) }
    {
        let InstanceHandle { at, alloc } = self;
        if at.is_null() {
            None
        } else {
            Some(Loose {
                at: at as *mut Flat,
                alloc,
            })
        }
    }

    /// A handle that owns flat arrays.
    pub(crate) fn of(flat: Box<Flat>) -> InstanceHandle
        ensures { result.value ≡ Some flat.value }
    {
        InstanceHandle::of_loose(Loose::of(flat))
    }

    /// The arrays that a handle owns.
    fn into_flat(self) -> Option<Box<Flat>>
        ensures { MatchOption result (self.value ≡ None) (λ b. self.value ≡ Some b.value) }
    {
        match self.into_loose() {
            Some(loose) => Some(loose.into_box()),
            None => None,
        }
    }

    /// The same, and the handle owns nothing then.
    pub(crate) fn take(&mut self, alloc: Global) -> Option<Box<Flat>>
        ensures taken { MatchOption result (self.old.value ≡ None) (λ b.
            self.old.value ≡ Some b.value) }
        ensures left { self.new.value ≡ None }
    {
        mem::replace(self, InstanceHandle::empty(alloc)).into_flat()
    }
}

impl Drop for InstanceHandle {
    fn drop(self) {
        drop(self.into_flat());
    }
}
