//! A handle on a session, for programs in C.

ghost use Rattle.std.specs.Prelude.{◌≡◌, IfOk, None, Some, Option};
ghost use Rattle.std.specs.Option.{MatchOption};
ghost use Rattle.pb_pieces.specs.contracts.session.Session.{the_row};
ghost use Rattle.pb_pieces.specs.declared.session.Session.{Session as ASession};
ghost use Rattle.pb_c.specs.Handle.{held_owns};

use pb_loose::Loose;
use pb_pieces::Session;
use std::alloc::{AllocError, Global};
use std::marker::Model;
use std::{mem, ptr};

/// A handle on a session. It is null, and then it owns nothing, or it owns the session.
#[repr(C)]
pub struct CheckerHandle {
    at: *mut (),
    alloc: Global,
    ghost value: { Option ASession },
}

impl Model for CheckerHandle {
    ghost also_owns = { λ h. held_owns the_row h.alloc h.at h.value };
}

impl CheckerHandle {
    /// A handle that owns nothing.
    fn empty(alloc: Global) -> CheckerHandle
        ensures { result.value ≡ None }
    {
        CheckerHandle {
            at: ptr::null_mut(),
            alloc,
        }
    }

    fn of_loose(loose: Loose<Session, Global>) -> CheckerHandle
        ensures { result.value ≡ Some loose.value }
    {
        let Loose { at, alloc } = loose;
        CheckerHandle {
            at: at as *mut (),
            alloc,
        }
    }

    fn into_loose(self) -> Option<Loose<Session, Global>>
        ensures { MatchOption result (self.value ≡ None) (λ l. self.value ≡ Some l.value) }
    {
        let CheckerHandle { at, alloc } = self;
        if at.is_null() {
            None
        } else {
            Some(Loose {
                at: at as *mut Session,
                alloc,
            })
        }
    }

    /// A handle that owns a session, for which it allocates.
    pub(crate) fn owning(alloc: Global, session: Session) -> Result<CheckerHandle, AllocError>
        ensures { IfOk result (λ h. h.value ≡ Some session) }
    {
        let boxed = Box::new(alloc, session)?;
        Ok(CheckerHandle::of(boxed))
    }

    /// A handle that owns a session.
    pub(crate) fn of(session: Box<Session>) -> CheckerHandle
        ensures { result.value ≡ Some session.value }
    {
        CheckerHandle::of_loose(Loose::of(session))
    }

    /// The session that a handle owns.
    fn into_session(self) -> Option<Box<Session>>
        ensures { MatchOption result (self.value ≡ None) (λ b. self.value ≡ Some b.value) }
    {
        match self.into_loose() {
            Some(loose) => Some(loose.into_box()),
            None => None,
        }
    }

    /// The same, and the handle owns nothing then.
    pub(crate) fn take(&mut self, alloc: Global) -> Option<Box<Session>>
        ensures taken { MatchOption result (self.old.value ≡ None) (λ b.
            self.old.value ≡ Some b.value) }
        ensures left { self.new.value ≡ None }
    {
        mem::replace(self, CheckerHandle::empty(alloc)).into_session()
    }
}

impl Drop for CheckerHandle {
    fn drop(self) {
        drop(self.into_session());
    }
}
