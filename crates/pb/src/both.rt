//! Two watches of one check.

use pb_proof::Statement;
use pb_replay::Replay;
use pb_text::Spanned;
use pb_tool::{CheckFault, Watch};

/// Hands each call on to two watches.
#[derive(Drop)]
pub(crate) struct Both<'a, V, W> {
    first: &'a mut V,
    second: &'a mut W,
}

impl<'a, V, W> Both<'a, V, W> {
    pub(crate) fn new(first: &'a mut V, second: &'a mut W) -> Self {
        Both { first, second }
    }
}

impl<V: Watch, W: Watch> Watch for Both<'_, V, W> {
    // What the two do is said by their own contracts.
    ghost got = { λ _ _ _. Unit {0} };

    fn accepted(&mut self, read: &Spanned<Statement>, replay: &Replay) {
        self.first.accepted(read, replay);
        self.second.accepted(read, replay);
    }

    fn rejected(&mut self, read: &Spanned<Statement>, replay: &Replay, fault: CheckFault) {
        self.first.rejected(read, replay, fault);
        self.second.rejected(read, replay, fault);
    }
}
