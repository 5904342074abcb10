//! What sees the statements of a check while it runs.

ghost use Rattle.std.specs.Prelude.{◌≡◌};
ghost use Rattle.pb_tool.specs.contract.Watched.{Accepted, Call, Rejected};

use crate::commands::check::checker::CheckFault;
use pb_proof::Statement;
use pb_replay::Replay;
use pb_text::Spanned;

/// Sees each statement of a check. It only observes, so the result of the check is the same with
/// every watch.
pub trait Watch {
    /// What a call does to the watch: the watch before, the call, the watch after.
    ghost got: { Self → Call → Self → Type 0 };

    /// The statement was accepted, and the replay is in the state after it.
    fn accepted(&mut self, read: &Spanned<Statement>, replay: &Replay)
        ensures { got self.old (Accepted read.now replay.now) self.new };

    /// The statement was rejected with this fault. The replay still has its names.
    fn rejected(&mut self, read: &Spanned<Statement>, replay: &Replay, fault: CheckFault)
        ensures { got self.old (Rejected read.now replay.now fault) self.new };

    /// Whether the program ends after this check. Then the memory of the checker of an accepted
    /// proof is left to the system.
    fn is_last(&self) -> bool {
        false
    }
}

/// Sees nothing.
#[derive(Clone, Copy)]
pub struct Unwatched;

impl Watch for Unwatched {
    ghost got = { λ old call new. new ≡ old };

    fn accepted(&mut self, _read: &Spanned<Statement>, _replay: &Replay) {}

    fn rejected(&mut self, _read: &Spanned<Statement>, _replay: &Replay, _fault: CheckFault) {}
}
