//! Ends a statement in one step.

ghost use Rattle.std.specs.Prelude.{◌≡◌};
ghost use Rattle.pb_text.specs.contract.Automaton.{Finishes};
ghost use Rattle.pb_opb.specs.engine.Machine.{transition};
ghost use Rattle.pb_opb.specs.engine.State.{opb};

use crate::event::OpbEvent;
use crate::machine::{OpbMachine, phase_owing, remaining_after, statement_of};
use crate::phase::{Action, Phase};
use crate::transition::transition;
use pb_sums::Part;
use pb_text::{Bytes, Machine};
use std::mem;

impl OpbMachine {
    /// Ends a statement with a byte, if the byte ends one and no allocation is refused.
    #[inline(always)]
    pub(super) fn end(&mut self, byte: u8) -> Option<OpbEvent>
        ensures { Finishes opb self.old byte result self.new }
    {
        match transition(self.limits.top(), self.phase, byte) {
            Action::Give(phase) => self.end_sum(phase, byte),
            Action::EndComment(objective_allowed) => {
                self.phase = phase_owing(objective_allowed, self.remaining);
                Some(OpbEvent::Comment(mem::replace(&mut self.text, Bytes::new(self.alloc))))
            }
            Action::EndTail => {
                self.phase = phase_owing(true, self.remaining);
                Some(OpbEvent::Header {
                    variables: self.variables,
                    constraints: self.remaining,
                    tail: mem::replace(&mut self.text, Bytes::new(self.alloc)),
                })
            }
            Action::EndHeader(constraints) => {
                self.remaining = constraints;
                self.phase = phase_owing(true, constraints);
                Some(OpbEvent::Header {
                    variables: self.variables,
                    constraints,
                    tail: Bytes::new(self.alloc),
                })
            }
            _ => None,
        }
    }

    /// Ends a sum or a linear text with a byte.
    #[inline(always)]
    fn end_sum(&mut self, phase: Phase, byte: u8) -> Option<OpbEvent>
        requires { transition self.old.top self.old.phase byte ≡ Action.Give phase }
        ensures { Finishes opb self.old byte result self.new }
    {
        match self.sums.try_finish(byte) {
            Some(event) => {
                self.remaining = remaining_after(phase, self.remaining);
                self.phase = phase_owing(false, self.remaining);
                self.sums.restart(Part::Linear);
                Some(statement_of(event))
            }
            None => None,
        }
    }
}
