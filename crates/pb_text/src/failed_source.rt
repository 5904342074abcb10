//! A source that fails at once.

ghost use Rattle.std.specs.Prelude.{false, ◌≡◌, ◌<◌, ℕ};
ghost use Rattle.pb_text.specs.contract.Automaton.{AcceptsItems};
ghost use Rattle.pb_text.specs.contract.NothingRead.{ReadsNothing, first_fault};

use crate::machine::Machine;
use crate::place::{Place, Stop, Why};

/// The stop of a read by the machine, from a source that failed before its first byte.
pub fn unread<M: Machine>(machine: &M) -> Stop
    requires between { M.automaton.begun machine.now ≡ false }
    ensures stop { result ≡ first_fault }
    // It is the result of a read of no bytes, if the machine is not done.
    ensures reads { M.automaton.done machine.now ≡ false → (longest : ℕ) → 0 < longest
        → ReadsNothing (AcceptsItems M.automaton machine.now) longest }
{
    let _ = machine.is_done();
    Stop {
        place: Place::START,
        why: Why::Read,
    }
}
