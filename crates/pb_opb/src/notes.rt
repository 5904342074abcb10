//! A list of statements that only contracts read.

ghost use Rattle.std.specs.Prelude.{◌≡◌, List, [], ◌∷◌, ◌++◌};
ghost use Rattle.std.specs.Borrow.{ftrue};
ghost use Rattle.pb_opb.specs.declared.event.OpbEvent.{OpbEvent as Event};

use crate::event::OpbEvent;
use std::marker::{Model, PhantomData};

/// The statements so far, seen by contracts only. It takes no memory, and its methods do nothing at
/// run time.
#[derive(Drop)]
pub struct Notes {
    marker: PhantomData<u8>,
    pub ghost events: { List Event },
}

impl Model for Notes {
    ghost also_owns = { λ _. ftrue };
}

impl Notes {
    /// No statements.
    pub fn new() -> Notes
        ensures { result.events ≡ [] }
    {
        Notes {
            marker: PhantomData,
        }
    }

    /// These statements and one more.
    pub fn and(&self, _event: &OpbEvent) -> Notes
        ensures { result.events ≡ self.now.events ++ _event.now ∷ [] }
    {
        Notes {
            marker: PhantomData,
        }
    }
}
