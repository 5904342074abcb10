//! The machine for `rup`.

ghost use Rattle.std.specs.Prelude.{◌≡◌, ◌-◌, ◌^◌, min, ◌≤◌, take, length};
ghost use Rattle.pb_text.specs.meaning.Limits.{largest};
ghost use Rattle.pb_proof.specs.engine.line.Rup.{rup_transition, rup_done, linear_of, units_in, rup_automaton, rup_first};
ghost use Rattle.pb_text.specs.contract.Automaton.{IsState, Pushes, Continues, Runs};

mod phase;

use crate::line::rup::phase::{RupAction, RupPhase};
use pb_sums::{Linear, Part, Relation, Spaces, SumEvent, SumMachine, count_units};
use pb_text::bytes::is_blank;
use pb_text::{Limits, Machine, Push};
use std::alloc::Global;
use std::marker::Model;
use std::mem;

/// A machine that reads the rest of a line after `rup`, through the line feed.
#[derive(Drop)]
pub(crate) struct RupMachine {
    phase: RupPhase,
    sums: SumMachine,
    linear: Option<Linear>,
}

impl Model for RupMachine {
    ghost use Rattle.pb_proof.specs.engine.line.Fields.{rup_state};
    ghost use Rattle.pb_proof.specs.engine.line.Rup.{RupState, IsRupInOrder};

    ghost Value = { RupState };

    ghost view = { rup_state };

    ghost invariant = { λ m. IsRupInOrder (rup_state m) };
}

/// What the machine does with a byte.
fn rup_transition(phase: RupPhase, byte: u8) -> RupAction
    ensures { result ≡ rup_transition phase byte }
{
    match phase {
        RupPhase::Start | RupPhase::Gap if is_blank(byte) => RupAction::To(RupPhase::Gap),
        RupPhase::Start => RupAction::Stop,
        RupPhase::Gap | RupPhase::Inside => RupAction::Give,
        RupPhase::Tail if is_blank(byte) => RupAction::To(RupPhase::Tail),
        RupPhase::Tail if byte == b'\n' => RupAction::Finish,
        RupPhase::Tail | RupPhase::Done => RupAction::Stop,
    }
}

/// Whether the line has ended.
fn is_done(phase: RupPhase) -> bool
    ensures { result ≡ rup_done phase }
{
    matches!(phase, RupPhase::Done)
}

/// The constraint that a machine for sums has read.
fn linear_of(event: SumEvent) -> Linear
    ensures { result ≡ linear_of event }
{
    match event {
        SumEvent::Linear(linear) => linear,
        SumEvent::Sum(terms) => Linear {
            terms,
            relation: Relation::AtLeast,
            degree: 0,
        },
    }
}

/// How much of a constraint is stored.
fn units_in(linear: &Option<Linear>) -> usize
    ensures { result ≡ min (units_in linear.now) (2 ^ 64 - 1) }
{
    match linear {
        Some(linear) => count_units(linear.terms.as_slice()),
        None => 0,
    }
}

impl RupMachine {
    /// A machine at the start of its text. Creating it does not allocate.
    pub(crate) fn new(alloc: Global, limits: Limits) -> Self
        ensures begins { result ≡ rup_first (largest limits) }
    {
        RupMachine {
            phase: RupPhase::Start,
            sums: SumMachine::new(alloc, Spaces::Blank, Part::AtLeast, limits),
            linear: None,
        }
    }

    /// Takes a byte.
    fn take(&mut self, byte: u8) -> Push<Linear>
        ensures { Pushes rup_automaton self.old byte result self.new }
    {
        match rup_transition(self.phase, byte) {
            RupAction::To(phase) => {
                self.phase = phase;
                Push::Go
            }
            RupAction::Give => self.give(byte),
            RupAction::Finish => self.finish(),
            RupAction::Stop => Push::No,
        }
    }

    /// Gives a byte to the machine for sums.
    fn give(&mut self, byte: u8) -> Push<Linear>
        requires { rup_transition self.old.phase byte ≡ RupAction.Give }
        ensures { Pushes rup_automaton self.old byte result self.new }
    {
        match self.sums.push(byte) {
            Push::Go => {
                self.phase = RupPhase::Inside;
                Push::Go
            }
            Push::Event(event) => {
                self.linear = Some(linear_of(event));
                self.phase = RupPhase::Tail;
                Push::Go
            }
            Push::No => Push::No,
            Push::Large => Push::Large,
            Push::Memory => Push::Memory,
        }
    }

    /// Ends the line.
    fn finish(&mut self) -> Push<Linear>
        requires { rup_transition self.old.phase 10 ≡ RupAction.Finish }
        ensures { Pushes rup_automaton self.old 10 result self.new }
    {
        match mem::replace(&mut self.linear, None) {
            Some(linear) => {
                self.phase = RupPhase::Done;
                Push::Event(linear)
            }
            None => Push::No,
        }
    }

    /// Gives a byte to the machine for sums. Returns whether the byte was taken.
    fn gives(&mut self, byte: u8) -> bool
        requires { rup_transition self.old.phase byte ≡ RupAction.Give }
        ensures { Continues rup_automaton self.old byte result self.new }
    {
        match self.give(byte) {
            Push::Go => true,
            _ => false,
        }
    }

    /// Gives bytes at the start of a text to the machine for sums, if a constraint has begun. Returns
    /// how many it took.
    fn give_prefix(&mut self, text: &[u8]) -> usize
        ensures bound { result ≤ length text.now }
        ensures runs { Runs rup_automaton self.old (take result text.now) self.new }
        ensures state { IsState rup_automaton self.new }
    {
        let taken = match self.phase {
            RupPhase::Inside => self.sums.take_run(text),
            _ => 0,
        };
        let _ = self.is_done();
        taken
    }
}

impl Machine for RupMachine {
    type Event = Linear;

    ghost automaton = { rup_automaton };

    fn try_continue(&mut self, byte: u8) -> bool {
        let gone = match rup_transition(self.phase, byte) {
            RupAction::To(phase) => {
                self.phase = phase;
                true
            }
            RupAction::Give => self.gives(byte),
            _ => false,
        };
        let _ = self.is_done();
        gone
    }

    fn take_prefix(&mut self, piece: &[u8]) -> usize {
        let length = self.give_prefix(piece);
        if length > 0 {
            return length;
        }
        if self.try_continue(piece[0]) { 1 } else { 0 }
    }

    fn push(&mut self, byte: u8) -> Push<Linear> {
        let answer = self.take(byte);
        let _ = self.is_done();
        answer
    }

    fn is_done(&self) -> bool {
        is_done(self.phase)
    }

    fn starts(&self, byte: u8) -> bool {
        matches!(self.phase, RupPhase::Start) && is_blank(byte)
    }

    fn held(&self) -> usize {
        units_in(&self.linear).saturating_add(self.sums.held())
    }
}
