//! A watch of the last check of a program.

use pb_proof::Statement;
use pb_replay::Replay;
use pb_text::Spanned;
use pb_tool::{CheckFault, Watch};

/// Hands each call on to a watch, and leaves the memory of an accepted check to the system: the
/// program ends then, and to free each constraint takes an eighth of the work of a short check.
#[derive(Drop)]
pub(crate) struct Leaving<'a, V> {
    watch: &'a mut V,
}

impl<'a, V> Leaving<'a, V> {
    pub(crate) fn new(watch: &'a mut V) -> Self {
        Leaving { watch }
    }
}

impl<V: Watch> Watch for Leaving<'_, V> {
    // What the watch does is said by its own contract.
    ghost got = { λ _ _ _. Unit {0} };

    fn accepted(&mut self, read: &Spanned<Statement>, replay: &Replay) {
        self.watch.accepted(read, replay);
    }

    fn rejected(&mut self, read: &Spanned<Statement>, replay: &Replay, fault: CheckFault) {
        self.watch.rejected(read, replay, fault);
    }

    fn is_last(&self) -> bool {
        true
    }
}
