//! The machine of instances.

ghost use Rattle.std.specs.Prelude.{◌≡◌, ◌<◌, ◌≤◌, true, false, IfSome, None, get_or, length, take};
ghost use Rattle.pb_text.specs.meaning.Limits.{largest, top_of};
ghost use Rattle.pb_opb.specs.engine.State.{phase_owing, remaining_after, statement_of};

mod end;

use crate::event::OpbEvent;
use crate::line::line_prefix;
use crate::phase::{Action, Field, Phase};
use crate::transition::{is_done, is_within, transition};
use pb_sums::{Part, Spaces, SumEvent, SumMachine, Term, linear_at};
use pb_text::bytes::is_digit;
use pb_text::{Bytes, Limits, Machine, Push, Spare};
use std::alloc::Global;
use std::marker::Model;
use std::mem;

/// A machine that reads one instance, through the `;` of its last constraint. If the first line
/// declares no constraint, it reads that line only.
#[derive(Drop)]
pub struct OpbMachine {
    alloc: Global,
    limits: Limits,
    variables: u64,
    remaining: u64,
    phase: Phase,
    text: Bytes,
    sums: SumMachine,
    // Memory for the terms of the next constraint.
    spare: Spare<Term>,
}

impl Model for OpbMachine {
    ghost use Rattle.pb_opb.specs.engine.State.{OpbState};

    ghost Value = { OpbState };

    ghost use Rattle.pb_opb.specs.contract.Fields.{state_of};
    ghost use Rattle.pb_opb.specs.engine.Order.{IsInOrder};

    ghost view = { state_of };

    ghost invariant = { λ m. IsInOrder (state_of m) };
}

impl OpbMachine {
    ghost use Rattle.std.specs.Prelude.{ℕ, List, Bool, Option, ◌↔◌};
    ghost use Rattle.pb_text.specs.meaning.Asking.{AsksOnly};
    ghost use Rattle.pb_text.specs.contract.Automaton.{AcceptsItems, MayAsk};
    ghost use Rattle.pb_text.specs.meaning.Reading.{Reads};
    ghost use Rattle.pb_text.specs.declared.Place.{Place};
    ghost use Rattle.pb_text.specs.declared.Spanned.{Spanned};
    ghost use Rattle.pb_text.specs.declared.Stop.{Stop};
    ghost use Rattle.pb_text.specs.meaning.Spelling.{Item};
    ghost use Rattle.pb_opb.specs.meaning.Asking.{Asks};
    ghost use Rattle.pb_opb.specs.meaning.Instances.{IsInstance};
    ghost use Rattle.pb_opb.specs.engine.State.{opb, begin};

    /// A machine before an instance, which accepts exactly the instances under the limits. It
    /// allocates nothing.
    pub fn new(alloc: Global, limits: Limits) -> Self
        ensures accepts { (items : List (Item OpbEvent)) →
            AcceptsItems opb result items ↔ IsInstance (largest limits) (top_of limits) items }
        // Whatever `Reads` says of this machine, it says of the instances.
        ensures reads { (longest : ℕ) (input used : List ℕ) (spans : List (Spanned OpbEvent))
            (place : Place) (done : Bool) (stop : Option Stop)
            → Reads (AcceptsItems opb result) longest input used spans place done stop
            → Reads (IsInstance (largest limits) (top_of limits)) longest input used spans place
            done stop }
        // It may allocate only at a byte of a tail or a comment, at one of a name, and at one that
        // ends a literal.
        ensures asks { (used : List ℕ) (b : ℕ) → MayAsk opb result used b →
            AsksOnly (IsInstance (largest limits) (top_of limits)) (Asks (top_of limits)) used b }
        ensures begins { result ≡ begin (largest limits) (top_of limits) }
        ensures between { opb.begun result ≡ false }
    {
        OpbMachine {
            alloc,
            limits,
            variables: 0,
            remaining: 0,
            phase: Phase::Start,
            text: Bytes::new(alloc),
            sums: SumMachine::new(alloc, Spaces::White, Part::Linear, limits),
            spare: Spare::new(alloc),
        }
    }
}

impl OpbMachine {
    ghost use Rattle.pb_text.specs.contract.Automaton.{Pushes};
    ghost use Rattle.pb_opb.specs.engine.State.{opb};
    ghost use Rattle.pb_opb.specs.engine.Machine.{transition};

    /// Takes a byte.
    fn take(&mut self, byte: u8) -> Push<OpbEvent>
        ensures { Pushes opb self.old byte result self.new }
    {
        match transition(self.limits.top(), self.phase, byte) {
            Action::To(phase) => {
                self.phase = phase;
                Push::Go
            }
            Action::Declare(variables) => {
                self.variables = variables;
                self.phase = Phase::BeforeWord(Field::Constraints);
                Push::Go
            }
            Action::BeginTail(constraints, first) => {
                if self.text.push(first).is_err() {
                    return Push::Memory;
                }
                self.remaining = constraints;
                self.phase = Phase::Tail;
                Push::Go
            }
            Action::Keep(next) => {
                if self.text.push(next).is_err() {
                    return Push::Memory;
                }
                Push::Go
            }
            Action::EndHeader(constraints) => {
                self.remaining = constraints;
                self.phase = phase_owing(true, constraints);
                Push::Event(OpbEvent::Header {
                    variables: self.variables,
                    constraints,
                    tail: Bytes::new(self.alloc),
                })
            }
            Action::EndTail => {
                self.phase = phase_owing(true, self.remaining);
                Push::Event(OpbEvent::Header {
                    variables: self.variables,
                    constraints: self.remaining,
                    tail: mem::replace(&mut self.text, Bytes::new(self.alloc)),
                })
            }
            Action::EndComment(objective_allowed) => {
                self.phase = phase_owing(objective_allowed, self.remaining);
                Push::Event(OpbEvent::Comment(mem::replace(&mut self.text, Bytes::new(self.alloc))))
            }
            Action::BeginSum => {
                self.sums.restart(Part::Sum);
                self.phase = Phase::AfterMin;
                Push::Go
            }
            Action::Give(phase) => self.give(phase, byte),
            Action::Stop => {
                if matches!(self.phase, Phase::Count(_, _)) && is_digit(byte) {
                    Push::Large
                } else {
                    Push::No
                }
            }
        }
    }

    /// Gives a byte to the machine of sums.
    fn give(&mut self, phase: Phase, byte: u8) -> Push<OpbEvent>
        requires { transition self.old.top self.old.phase byte ≡ Action.Give phase }
        ensures { Pushes opb self.old byte result self.new }
    {
        match self.sums.push(byte) {
            Push::Go => {
                self.phase = phase;
                Push::Go
            }
            Push::Event(event) => {
                self.remaining = remaining_after(phase, self.remaining);
                self.phase = phase_owing(false, self.remaining);
                self.sums.restart(Part::Linear);
                Push::Event(statement_of(event))
            }
            Push::No => Push::No,
            Push::Large => Push::Large,
            Push::Memory => Push::Memory,
        }
    }
}

impl OpbMachine {
    ghost use Rattle.pb_text.specs.contract.Automaton.{Continues, IsState, Runs};
    ghost use Rattle.pb_opb.specs.engine.Machine.{transition};
    ghost use Rattle.pb_opb.specs.engine.State.{opb, keeps_line};

    /// Takes a byte that is not stored and ends no statement, as far as this is cheap to decide.
    /// Returns whether it took the byte.
    #[inline(always)]
    fn advance(&mut self, byte: u8) -> bool
        ensures { Continues opb self.old byte result self.new }
    {
        match transition(self.limits.top(), self.phase, byte) {
            Action::To(next) => {
                self.phase = next;
                true
            }
            Action::Give(next) => self.continue_sum(next, byte),
            _ => false,
        }
    }

    /// Gives a byte to the machine of sums, if that is cheap. Returns whether it took the byte.
    fn continue_sum(&mut self, phase: Phase, byte: u8) -> bool
        requires { transition self.old.top self.old.phase byte ≡ Action.Give phase }
        ensures { Continues opb self.old byte result self.new }
    {
        if !self.sums.try_continue(byte) {
            return false;
        }
        self.phase = phase;
        true
    }

    /// Stores the bytes before the first line feed and returns how many. If memory runs out, it
    /// stores none and returns `None`.
    fn keep_line(&mut self, piece: &[u8]) -> Option<usize>
        requires { keeps_line self.old.phase ≡ true }
        ensures bound { IfSome result (λ n. n ≤ length piece.now) }
        ensures runs { IfSome result (λ n. Runs opb self.old (take n piece.now) self.new) }
        // It stops only at a line feed or at the end of the piece.
        ensures stops { IfSome result (λ n. n < length piece.now → get_or piece.now n 0 ≡ 10) }
        ensures none { result ≡ None → self.new ≡ self.old }
        ensures state { IsState opb self.new }
    {
        let _ = self.is_done();
        let length = line_prefix(piece);
        if self.text.push_slice(&piece[..length]).is_err() {
            return None;
        }
        Some(length)
    }
}

/// The phase with this many constraints to come.
fn phase_owing(objective_allowed: bool, remaining: u64) -> Phase
    ensures { result ≡ phase_owing objective_allowed remaining }
{
    if remaining == 0 {
        Phase::Done
    } else {
        Phase::Between(objective_allowed)
    }
}

/// How many constraints are to come after an objective, and after a constraint.
fn remaining_after(phase: Phase, remaining: u64) -> u64
    ensures { result ≡ remaining_after phase remaining }
{
    match phase {
        Phase::Objective => remaining,
        _ => remaining.saturating_sub(1),
    }
}

/// The statement for a sum or a linear text.
fn statement_of(event: SumEvent) -> OpbEvent
    ensures { result ≡ statement_of event }
{
    match event {
        SumEvent::Sum(terms) => OpbEvent::Objective(terms),
        SumEvent::Linear(linear) => OpbEvent::Constraint(linear),
    }
}

impl Machine for OpbMachine {
    ghost use Rattle.pb_opb.specs.engine.State.{opb};

    type Event = OpbEvent;

    ghost automaton = { opb };

    #[inline(always)]
    fn try_continue(&mut self, byte: u8) -> bool {
        let went = self.advance(byte);
        let _ = self.is_done();
        went
    }

    #[inline(always)]
    fn try_finish(&mut self, byte: u8) -> Option<OpbEvent> {
        let event = self.end(byte);
        let _ = self.is_done();
        event
    }

    /// Takes a whole constraint at the start of a piece, if one may begin and it is fast to read.
    #[inline(always)]
    fn take_statement(&mut self, piece: &[u8]) -> Option<(usize, OpbEvent)> {
        let _ = self.is_done();
        let Phase::Between(_) = self.phase else {
            return None;
        };
        if piece.is_empty() {
            return None;
        }
        let Action::Give(phase) = transition(self.limits.top(), self.phase, piece[0]) else {
            return None;
        };
        let Some((last, linear)) = linear_at(
            self.alloc,
            self.limits,
            Part::Linear,
            piece,
            &mut self.spare,
        ) else {
            return None;
        };
        let remaining = remaining_after(phase, self.remaining);
        self.remaining = remaining;
        self.phase = phase_owing(false, remaining);
        let _ = self.is_done();
        Some((last, OpbEvent::Constraint(linear)))
    }

    fn take_run(&mut self, piece: &[u8]) -> usize {
        let taken = match self.phase {
            Phase::Constraint | Phase::Objective => self.sums.take_run(piece),
            Phase::Tail | Phase::Comment(_) => self.keep_line(piece).unwrap_or(0),
            _ => 0,
        };
        let _ = self.is_done();
        taken
    }

    fn push(&mut self, byte: u8) -> Push<OpbEvent> {
        let answer = self.take(byte);
        let _ = self.is_done();
        answer
    }

    #[inline(always)]
    fn reuse(&mut self, event: OpbEvent) {
        if let OpbEvent::Constraint(linear) = event {
            self.spare.keep(linear.terms);
        }
    }

    fn is_done(&self) -> bool {
        is_done(self.phase)
    }

    #[inline(always)]
    fn starts(&self, byte: u8) -> bool {
        if is_within(self.phase) {
            return false;
        }
        match transition(self.limits.top(), self.phase, byte) {
            Action::Stop | Action::Keep(_) => false,
            Action::To(next) => is_within(next),
            Action::Give(_) => self.sums.starts(byte),
            _ => true,
        }
    }

    fn held(&self) -> usize {
        self.text.len().saturating_add(self.sums.held())
    }
}
