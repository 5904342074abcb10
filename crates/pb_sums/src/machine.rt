//! The machine of sums.

ghost use Rattle.std.specs.Prelude.{true, false, ◌≡◌, ℕ, ◌+◌, ◌-◌, ◌≤◌, ◌^◌, ◌↔◌, ◌&&◌, if◌then◌else◌, Bool, List, [], ◌∷◌, IfOk, OnOk, OnErr};
ghost use Rattle.pb_text.specs.contract.Automaton.{AcceptsItems, IsState};
ghost use Rattle.pb_text.specs.meaning.Limits.{largest};
ghost use Rattle.pb_text.specs.meaning.Spelling.{Item};
ghost use Rattle.pb_text.specs.meaning.Classes.{is_digit};
ghost use Rattle.pb_sums.specs.engine.Machine.{flushed, is_more, is_in_number};

mod actions;
mod end;
mod fast;

use crate::classes::kind;
use crate::linear::{Linear, Literal, SumEvent, Term};
use crate::name::Name;
use crate::phase::{Action, Phase};
use crate::sum_kind::{Part, Spaces};
use crate::transition::{in_hand, is_done, is_in_number, is_more, is_numeric, transition};
use crate::units::count_units;
use pb_text::bytes::{is_digit, is_name_byte};
use pb_text::{Limits, Machine, Push, Sequence};
use std::alloc::{AllocError, Global};
use std::marker::Model;
use std::mem;

/// A machine that reads one sum or one linear text, through its `;`.
#[derive(Drop)]
pub struct SumMachine {
    alloc: Global,
    spaces: Spaces,
    part: Part,
    limit: u128,
    terms: Sequence<Term>,
    name: Name,
    phase: Phase,
}

impl Model for SumMachine {
    ghost use Rattle.std.specs.Prelude.{◌<◌, ◌^◌};
    ghost use Rattle.pb_sums.specs.engine.State.{SumState, IsInOrder};

    ghost Value = { SumState };

    ghost use Rattle.pb_sums.specs.contract.MachineFields.{state_of};

    ghost view = { state_of };

    ghost invariant = { λ m. (m.limit < 2 ^ 127) ×
        IsInOrder m.limit (record { terms = m.terms; name = m.name; phase = m.phase }) };
}

/// Ends the term whose literal is complete, if there is one.
#[inline(always)]
fn flush(
    alloc: Global,
    terms: &mut Sequence<Term>,
    name: &mut Name,
    phase: Phase,
) -> Result<(), AllocError>
    ensures ok { OnOk result ((terms.new ≡ flushed phase terms.old name.old) × (name.new ≡ [])) }
    ensures err { OnErr result ((is_more phase ≡ true) × (terms.new ≡ terms.old) ×
        (name.new ≡ name.old)) }
{
    if let Phase::More(coefficient, negated) = phase {
        let whole = mem::replace(name, Name::new(alloc));
        let literal = Literal {
            negated,
            name: whole,
        };
        if let Err(failed) = terms.push(Term {
            coefficient,
            literal,
        }) {
            *name = failed.value.literal.name;
            return Err(AllocError);
        }
    }
    if !name.as_bytes().is_empty() {
        *name = Name::new(alloc);
    }
    Ok(())
}

/// Ends the text: returns its terms, and stores nothing of it.
#[inline(always)]
fn finish(
    alloc: Global,
    terms: &mut Sequence<Term>,
    name: &mut Name,
    phase: &mut Phase,
) -> Result<Sequence<Term>, AllocError>
    ensures terms { IfOk result (λ all. all ≡ flushed phase.old terms.old name.old) }
    ensures ok { OnOk result ((terms.new ≡ []) × (name.new ≡ []) × (phase.new ≡ Phase.Done)) }
    ensures err { OnErr result ((is_more phase.old ≡ true) × (terms.new ≡ terms.old) ×
        (name.new ≡ name.old) × (phase.new ≡ phase.old)) }
{
    flush(alloc, terms, name, *phase)?;
    *phase = Phase::Done;
    Ok(mem::replace(terms, Sequence::new(alloc)))
}

/// The result for a byte that is not grammatical.
fn refusal(phase: Phase, byte: u8) -> Push<SumEvent>
    ensures { result ≡ (if is_in_number phase && is_digit byte then Push.Large else Push.No) }
{
    if is_in_number(phase) && is_digit(byte) {
        Push::Large
    } else {
        Push::No
    }
}

impl SumMachine {
    ghost use Rattle.pb_text.specs.meaning.Asking.{AsksOnly};
    ghost use Rattle.pb_text.specs.contract.Automaton.{MayAsk};
    ghost use Rattle.pb_sums.specs.meaning.Asking.{AsksLiteral};
    ghost use Rattle.pb_sums.specs.meaning.Sums.{IsOneText};
    ghost use Rattle.pb_sums.specs.engine.State.{sums, first};

    /// A machine before its text. It does not allocate.
    pub fn new(alloc: Global, spaces: Spaces, part: Part, limits: Limits) -> Self
        ensures begins { result ≡ first spaces part (largest limits) }
        ensures format { (items : List (Item SumEvent)) →
            AcceptsItems sums result items ↔ IsOneText spaces (largest limits) part items }
        // It may allocate only at a byte of a name, and at one that ends a literal.
        ensures asks { (used : List ℕ) (b : ℕ) → MayAsk sums result used b →
            AsksOnly (IsOneText spaces (largest limits) part) (λ _ text next.
            AsksLiteral text next) used b }
        ensures between { sums.begun result ≡ false }
        ensures state { IsState sums result }
    {
        SumMachine {
            alloc,
            spaces,
            part,
            limit: limits.largest(),
            terms: Sequence::new(alloc),
            name: Name::new(alloc),
            phase: Phase::Start,
        }
    }

    /// Starts again, for this part. It does not allocate.
    pub fn restart(&mut self, part: Part)
        ensures begins { self.new ≡ first self.old.spaces part self.old.limit }
        ensures state { IsState sums self.new }
    {
        self.part = part;
        self.terms = Sequence::new(self.alloc);
        self.name = Name::new(self.alloc);
        self.phase = Phase::Start;
    }
}

impl SumMachine {
    ghost use Rattle.pb_text.specs.contract.Automaton.{Continues, Pushes};
    ghost use Rattle.pb_sums.specs.engine.State.{sums};

    /// Takes a byte that ends no text, if no allocation is refused.
    #[inline(always)]
    fn go_on(&mut self, byte: u8) -> bool
        ensures { Continues sums self.old byte result self.new }
    {
        if is_more(self.phase) && is_name_byte(byte) {
            return self.name.push(byte).is_ok();
        }
        let kind = kind(self.spaces, is_numeric(self.phase), byte);
        let action = transition(self.part, self.limit, self.phase, kind);
        self.advance(action)
    }

    /// Takes a byte.
    fn take(&mut self, byte: u8) -> Push<SumEvent>
        ensures { Pushes sums self.old byte result self.new }
    {
        let kind = kind(self.spaces, is_numeric(self.phase), byte);
        let action = transition(self.part, self.limit, self.phase, kind);
        match action {
            Action::Stop => refusal(self.phase, byte),
            Action::EndSum | Action::EndLinear(_, _) => match self.end_by(action) {
                Some(event) => Push::Event(event),
                None => Push::Memory,
            },
            Action::To(_) | Action::Begin(_, _) | Action::Add(_, _) => {
                if self.advance(action) {
                    Push::Go
                } else {
                    Push::Memory
                }
            }
        }
    }
}

impl Machine for SumMachine {
    ghost use Rattle.pb_sums.specs.engine.State.{sums};

    type Event = SumEvent;

    ghost automaton = { sums };

    #[inline(always)]
    fn try_continue(&mut self, byte: u8) -> bool {
        let went = self.go_on(byte);
        let _ = self.is_done();
        went
    }

    #[inline(always)]
    fn try_finish(&mut self, byte: u8) -> Option<SumEvent> {
        let _ = self.is_done();
        if byte == b';' { self.end() } else { None }
    }

    #[inline(always)]
    fn take_prefix(&mut self, piece: &[u8]) -> usize {
        if piece[0] == b' ' {
            return if self.take_space() { 1 } else { 0 };
        }
        self.take_word(piece)
    }

    fn push(&mut self, byte: u8) -> Push<SumEvent> {
        let answer = self.take(byte);
        let _ = self.is_done();
        answer
    }

    fn is_done(&self) -> bool {
        is_done(self.phase)
    }

    fn starts(&self, byte: u8) -> bool {
        if !matches!(self.phase, Phase::Start) {
            return false;
        }
        let kind = kind(self.spaces, true, byte);
        !matches!(
            transition(self.part, self.limit, Phase::Start, kind),
            Action::Stop
        )
    }

    fn held(&self) -> usize {
        count_units(self.terms.as_slice())
            .saturating_add(in_hand(self.phase))
            .saturating_add(self.name.as_bytes().len())
    }
}
