//! The machine for proofs.

ghost use Rattle.std.specs.Prelude.{◌≡◌, false, None, Some, Option, ℕ, List, Bool, ◌↔◌, ◌≤◌, take, length};
ghost use Rattle.pb_text.specs.meaning.Limits.{largest, top_of};
ghost use Rattle.pb_proof.specs.engine.line.Machine.{line_first};
ghost use Rattle.pb_text.specs.meaning.Asking.{AsksOnly};
ghost use Rattle.pb_text.specs.contract.Automaton.{AcceptsItems, MayAsk, Pushes, IsState, Runs};
ghost use Rattle.pb_text.specs.meaning.Reading.{Reads};
ghost use Rattle.pb_text.specs.declared.Place.{Place};
ghost use Rattle.pb_text.specs.declared.Spanned.{Spanned};
ghost use Rattle.pb_text.specs.declared.Stop.{Stop};
ghost use Rattle.pb_text.specs.meaning.Spelling.{Item};
ghost use Rattle.pb_proof.specs.meaning.Asking.{Asks};
ghost use Rattle.pb_proof.specs.meaning.Proofs.{IsProof};
ghost use Rattle.pb_proof.specs.engine.machine.State.{proofs, begin};
ghost use Rattle.pb_proof.specs.engine.machine.Transition.{transition};

pub(crate) mod phase;
mod transition;
mod whole;

use crate::line::LineMachine;
use crate::line::push::line_first;
use crate::machine::phase::{Action, LineKind, Phase, Stage};
use crate::machine::transition::{is_done, is_within, next_stage, transition};
use crate::machine::whole::{delete_at, pol_at, rup_at};
use crate::statement::Statement;
use crate::word::PolWord;
use pb_sums::Term;
use pb_text::{Limits, Machine, Push, Spare};
use std::alloc::Global;
use std::marker::Model;

/// A machine that reads one proof, through the last byte of its closing words.
#[derive(Drop)]
pub struct ProofMachine {
    alloc: Global,
    limits: Limits,
    phase: Phase,
    line: Option<LineMachine>,
    // Memory for the constraint of the next `rup`, for the words of the next `pol`, and for the ids
    // of the next `del id`.
    terms: Spare<Term>,
    words: Spare<PolWord>,
    ids: Spare<i64>,
}

impl Model for ProofMachine {
    ghost use Rattle.pb_proof.specs.contract.Fields.{proof_state};
    ghost use Rattle.pb_proof.specs.engine.machine.State.{ProofState, IsInOrder};

    ghost Value = { ProofState };

    ghost view = { proof_state };

    ghost invariant = { λ m. IsInOrder (proof_state m) };
}

/// Drops a line machine, if there is one.
fn clear(line: &mut Option<LineMachine>)
    ensures { line.new ≡ None }
{
    *line = None;
}

/// Makes the line machine for this kind of line. Creating it does not allocate.
fn start_line(
    line: &mut Option<LineMachine>,
    alloc: Global,
    limits: Limits,
    kind: LineKind,
    spare: &mut Spare<i64>,
)
    ensures { line.new ≡ Some (line_first (largest limits) (top_of limits) kind) }
{
    *line = Some(line_first(alloc, limits, kind, spare));
}

impl ProofMachine {
    /// A machine at the start of a proof. It accepts exactly the proofs under the limits.
    /// Creating it does not allocate.
    #[tactic(auto, using(crate::proofs::lemmas::machine::Exact::reads_proofs))]
    pub fn new(alloc: Global, limits: Limits) -> Self
        ensures accepts { (items : List (Item Statement)) →
            AcceptsItems proofs result items ↔ IsProof (largest limits) (top_of limits) items }
        // What is read by this machine is read of the format of proofs.
        ensures reads { (longest : ℕ) (input used : List ℕ) (spans : List (Spanned Statement))
            (place : Place) (done : Bool) (stop : Option Stop)
            → Reads (AcceptsItems proofs result) longest input used spans place done stop
            → Reads (IsProof (largest limits) (top_of limits)) longest input used spans place done
            stop }
        // It may allocate only at a byte of a name or `pol` operator, or at one that ends a
        // literal, id or `pol` word.
        ensures asks { (used : List ℕ) (b : ℕ) → MayAsk proofs result used b →
            AsksOnly (IsProof (largest limits) (top_of limits)) Asks used b }
        ensures begins { result ≡ begin (largest limits) (top_of limits) }
        ensures between { proofs.begun result ≡ false }
    {
        let _ = limits.largest();
        let _ = limits.top();
        ProofMachine {
            alloc,
            limits,
            phase: Phase::Between(Stage::Opening),
            line: None,
            terms: Spare::new(alloc),
            words: Spare::new(alloc),
            ids: Spare::new(alloc),
        }
    }

    /// Takes a byte.
    fn take(&mut self, byte: u8) -> Push<Statement>
        ensures { Pushes proofs self.old byte result self.new }
    {
        match transition(self.phase, byte) {
            Action::To(phase) => {
                self.phase = phase;
                Push::Go
            }
            Action::Begin(kind) => {
                start_line(&mut self.line, self.alloc, self.limits, kind, &mut self.ids);
                self.phase = Phase::Inside(kind);
                Push::Go
            }
            Action::Give(kind) => self.give(kind, byte),
            Action::EndHeader => {
                self.phase = Phase::Between(Stage::Formula);
                Push::Event(Statement::Header)
            }
            Action::EndOutput => {
                self.phase = Phase::Between(Stage::Concluding);
                Push::Event(Statement::Output)
            }
            Action::EndProof => {
                self.phase = Phase::Between(Stage::Complete);
                Push::Event(Statement::End)
            }
            Action::Stop => Push::No,
        }
    }

    /// Gives a byte to the line machine.
    fn give(&mut self, kind: LineKind, byte: u8) -> Push<Statement>
        requires { transition self.old.phase byte ≡ Action.Give kind }
        ensures { Pushes proofs self.old byte result self.new }
    {
        let Some(line) = &mut self.line else {
            return Push::No;
        };
        match line.push(byte) {
            Push::Go => Push::Go,
            Push::Event(statement) => {
                clear(&mut self.line);
                self.phase = Phase::Between(next_stage(kind));
                Push::Event(statement)
            }
            Push::No => Push::No,
            Push::Large => Push::Large,
            Push::Memory => Push::Memory,
        }
    }

    /// Gives bytes at the start of a text to the line machine, if there is one. Returns how many it
    /// took.
    fn give_prefix(&mut self, text: &[u8]) -> usize
        ensures bound { result ≤ length text.now }
        ensures runs { Runs proofs self.old (take result text.now) self.new }
        ensures state { IsState proofs self.new }
    {
        let taken = match &mut self.line {
            Some(line) => line.take_run(text),
            None => 0,
        };
        let _ = self.is_done();
        taken
    }
}

impl Machine for ProofMachine {
    type Event = Statement;

    ghost automaton = { proofs };

    fn try_continue(&mut self, byte: u8) -> bool {
        let gone = match transition(self.phase, byte) {
            Action::To(phase) => {
                self.phase = phase;
                true
            }
            Action::Begin(kind) => {
                start_line(&mut self.line, self.alloc, self.limits, kind, &mut self.ids);
                self.phase = Phase::Inside(kind);
                true
            }
            _ => false,
        };
        let _ = self.is_done();
        gone
    }

    /// Takes a whole step. It stores nothing, so the machine is the same after it.
    fn take_statement(&mut self, piece: &[u8]) -> Option<(usize, Statement)> {
        let _ = self.is_done();
        let Phase::Between(stage) = self.phase else {
            return None;
        };
        let Stage::Steps = stage else {
            return None;
        };
        if piece.is_empty() {
            return None;
        }
        match piece[0] {
            b'p' => {
                let (last, words) = pol_at(self.alloc, self.limits, piece, &mut self.words)?;
                Some((last, Statement::Pol(words)))
            }
            b'r' => {
                let (last, linear) = rup_at(self.alloc, self.limits, piece, &mut self.terms)?;
                Some((last, Statement::Rup(linear)))
            }
            b'd' => {
                let (last, ids) = delete_at(self.alloc, self.limits, piece, &mut self.ids)?;
                Some((last, Statement::Delete(ids)))
            }
            _ => None,
        }
    }

    fn take_prefix(&mut self, piece: &[u8]) -> usize {
        let length = self.give_prefix(piece);
        if length > 0 {
            return length;
        }
        if self.try_continue(piece[0]) { 1 } else { 0 }
    }

    fn push(&mut self, byte: u8) -> Push<Statement> {
        let answer = self.take(byte);
        let _ = self.is_done();
        answer
    }

    #[inline(always)]
    fn reuse(&mut self, statement: Statement) {
        match statement {
            Statement::Rup(linear) => self.terms.keep(linear.terms),
            Statement::Pol(words) => self.words.keep(words),
            Statement::Delete(ids) => self.ids.keep(ids),
            _ => {}
        }
    }

    fn is_done(&self) -> bool {
        is_done(self.phase)
    }

    fn starts(&self, byte: u8) -> bool {
        if is_within(self.phase) {
            return false;
        }
        match transition(self.phase, byte) {
            Action::Stop | Action::Give(_) => false,
            Action::To(next) => is_within(next),
            _ => true,
        }
    }

    fn held(&self) -> usize {
        match &self.line {
            Some(line) => line.held(),
            None => 0,
        }
    }
}
