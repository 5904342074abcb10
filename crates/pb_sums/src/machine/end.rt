//! Ends a text at once.

ghost use Rattle.std.specs.Prelude.{◌≡◌, None};
ghost use Rattle.pb_text.specs.contract.Automaton.{Finishes, IsState};
ghost use Rattle.pb_text.specs.contract.Staying.{MayStay};
ghost use Rattle.pb_sums.specs.engine.State.{sums};

use crate::linear::SumEvent;
use crate::machine::SumMachine;
use crate::phase::Kind;
use crate::transition::transition;
use pb_text::Machine;

impl SumMachine {
    /// Ends the text with `;`, if that completes it and no allocation is refused.
    #[inline(always)]
    pub(super) fn end(&mut self) -> Option<SumEvent>
        ensures finishes { Finishes sums self.old 59 result self.new }
        ensures state { IsState sums self.new }
        // It leaves the byte only if that may allocate or ends nothing.
        ensures leaves { result ≡ None → MayStay sums self.old 59 }
    {
        let action = transition(self.part, self.limit, self.phase, Kind::Semicolon);
        let event = self.end_by(action);
        let _ = self.is_done();
        event
    }
}
