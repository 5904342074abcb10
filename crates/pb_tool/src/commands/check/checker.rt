//! Checks a proof whose text comes in pieces of any size.

ghost use Rattle.std.specs.Prelude.{◌≡◌, ◌<◌, ℕ, Err, Result, Some, length};
ghost use Rattle.pb_replay.specs.meaning.Replay.{State};
ghost use Rattle.pb_replay.specs.declared.fault.Fault.{Fault as AFault};
ghost use Rattle.pb_replay.specs.meaning.Meaning.{IsNamePrefix};
ghost use Rattle.pb_tool.specs.contract.Checker.{IsAt, TextsAreRead};
ghost use Rattle.pb_tool.specs.contract.Faults.{check_fault_text};
ghost use Rattle.pb_tool.specs.contract.Seen.{SawText};

use crate::commands::check::step::step_watched;
use crate::commands::check::watch::{Unwatched, Watch};
use pb_proof::ProofMachine;
use pb_proof::laws::values::reads_are_of_proofs;
use pb_proof::laws::{prefix_free, proofs_are_exact};
use pb_replay::laws::whole_proofs_conclude;
use pb_replay::{Fault, Replay, Verdict};
use pb_text::laws::standing_is_reading;
use pb_text::{BYTE_LIMIT, Feeder, Place, Source, Stop, Why, pull};
use std::alloc::Global;
use std::error::Error;
use std::fmt;
use std::marker::Model;

/// Why a proof is rejected.
#[derive(Clone, Copy, Debug, PartialEq, Eq)]
pub enum CheckFault {
    /// The reader stopped at a position of the text.
    Text(Stop),
    /// The statement that begins at the position was rejected.
    Step(Place, Fault),
}

impl fmt::Display for CheckFault {
    ghost output = { λ fault. Some (check_fault_text fault) };

    fn fmt<W: fmt::Write>(&self, f: &mut fmt::Formatter<W>) -> fmt::Result {
        match *self {
            CheckFault::Text(stop) => write!(f, "{stop}"),
            CheckFault::Step(place, fault) => {
                let (line, column) = (place.line, place.column);
                write!(f, "line {line} column {column}: {fault}")
            }
        }
    }
}

impl Error for CheckFault {}

/// How far a step took a piece.
#[derive(Clone, Copy, Debug, PartialEq, Eq)]
pub struct Went {
    /// The number of bytes that it took.
    pub used: usize,
    /// Whether a statement ends there, which was accepted.
    pub accepted: bool,
}

/// Checks a proof whose text comes in pieces of any size. Each statement goes to the replay when
/// its last byte has come.
#[derive(Drop)]
pub struct Checker {
    feeder: Feeder<ProofMachine>,
    replay: Replay,
    fault: Option<CheckFault>,
}

impl Model for Checker {
    ghost use Rattle.pb_tool.specs.contract.Checker.{Checking, IsSomewhere};

    ghost Value = { Checking };

    ghost view = { λ c. record { feeder = c.feeder; replay = c.replay; fault = c.fault } };

    // `ChecksSoFar` holds of the checker for some text.
    ghost invariant = { λ c. IsSomewhere c.feeder c.replay c.fault };
}

impl Checker {
    ghost use Rattle.std.specs.Prelude.{◌+◌, ◌<◌, ◌≤◌, ◌++◌, [], ℕ, OnOk, List, Option, None, Some, Ok, Err, IfErr, IfOk, IfSome, length, slice_get, unwrap_or, true, ◌^◌};
    ghost use Rattle.std.specs.Option.{option_copied};
    ghost use Rattle.pb_text.specs.meaning.Blank.{IsInReach};
    ghost use Rattle.pb_text.specs.declared.Limits.{Limits};
    ghost use Rattle.pb_replay.specs.contract.ReplayModel.{Replaying};
    ghost use Rattle.pb_replay.specs.meaning.Problem.{Problem};
    ghost use Rattle.pb_tool.specs.contract.Checks.{Ends};
    ghost use Rattle.pb_tool.specs.contract.Pieces.{AllocatesAt, ChecksAt, ChecksOnce, CountsAt, CountsOnce, EndsCounted, EndsStatement, HoldsOpen, MayGoOn, IsNoReadFault, OfFed, ReportsKnown, bytes_gone, fault_in, fault_of, held_in, is_whole, place_in, statements_in};
    ghost use Rattle.pb_tool.specs.contract.Runs.{faults_of_text};
    ghost use Rattle.pb_tool.specs.engine.Running.{Begins, HasRun, RunsOn};
    ghost use Rattle.pb_tool.specs.declared.commands.check.checker.CheckFault.{CheckFault as ACheckFault};

    /// A checker of a proof for the replay, in whatever state the replay is. It stops at a
    /// statement that has not ended within its first `longest` bytes, if there is such a limit.
    pub fn new(alloc: Global, replay: Replay, longest: Option<u64>) -> Checker
        requires { IfSome longest (λ n. 0 < n) }
        ensures stands { (first : Result State AFault) → IsAt replay first
            → ChecksAt replay.limits (unwrap_or longest (2 ^ 40)) replay.problem first [] result }
        ensures counts { (first : Result State AFault) → IsAt replay first
            → CountsAt replay.limits (unwrap_or longest (2 ^ 40)) replay.problem first [] 0 result }
        ensures running { fault_of result ≡ None }
        ensures place { place_in result ≡ Place.START }
        ensures replay { result.replay ≡ replay }
    {
        Checker::begin(alloc, replay, longest.unwrap_or(BYTE_LIMIT))
    }

    /// The same, with a limit.
    pub(crate) fn begin(alloc: Global, replay: Replay, longest: u64) -> Checker
        requires { 0 < longest }
        ensures begins { Begins longest replay result }
        ensures running { fault_of result ≡ None }
        ensures place { place_in result ≡ Place.START }
    {
        replay.report_sound();
        let machine = ProofMachine::new(alloc, replay.limits());
        Checker {
            feeder: Feeder::within(machine, longest),
            replay,
            fault: None,
        }
    }

    /// The position of the next byte.
    pub fn place(&self) -> Place
        ensures place { result ≡ place_in self.now }
        ensures reach { IsInReach result }
    {
        self.feeder.place()
    }

    /// The name with a number, also after a fault.
    pub fn name_of(&self, number: usize) -> Option<&str>
        ensures { option_copied result ≡ slice_get self.now.replay.names number }
    {
        self.replay.name_of(number)
    }

    /// How much of the current statement is stored.
    pub fn held(&self) -> usize
        ensures kept { result ≡ held_in self.now }
        ensures few { OfFed self.now (λ limits longest v first input.
            HoldsOpen limits input (place_in self.now) result) }
        // After the last byte of a statement nothing is stored.
        ensures none { OfFed self.now (λ limits longest v first input.
            EndsStatement limits input → result ≡ 0) }
    {
        proofs_are_exact();
        prefix_free();
        texts_are_read();
        self.feeder.held()
    }

    /// Takes a piece of the text and steps through each statement that ends in it. Returns the
    /// number of bytes it used: the whole piece, or the bytes through the last byte of the proof,
    /// and none after that. After a fault it returns that fault again.
    pub fn feed(&mut self, piece: &[u8]) -> Result<usize, CheckFault>
        // What held of the checker for all the text before now holds for that text followed by this
        // piece.
        ensures checks { ChecksOnce self.old piece.now self.new }
        ensures fault { fault_of self.new ≡ fault_in result }
        ensures used { IfOk result (λ n.
            ((place_in self.new).offset ≡ (place_in self.old).offset + n) ×
            (n ≤ length piece.now)) }
        ensures again { (e : ACheckFault) → fault_of self.old ≡ Some e → (result ≡ Err e) ×
            (self.new ≡ self.old) }
        // No name is forgotten, whatever the result is. A name that a rejection gives by its number
        // is there.
        ensures names { IsNamePrefix self.old.replay.names self.new.replay.names }
        ensures reported { ReportsKnown self.old result self.new }
        // There is no reader that could fail.
        ensures unread { fault_of self.old ≡ None → IfErr result IsNoReadFault }
        // Memory for the text runs out only at a byte that may allocate.
        ensures memory { OfFed self.old (λ limits longest v first input.
            IfErr result (AllocatesAt limits (input ++ piece.now))) }
    {
        if let Some(fault) = self.fault {
            return Err(fault);
        }
        let mut used = 0;
        loop {
            match self.advance(&piece[used..]) {
                Ok(went) => {
                    used += went.used;
                    if !went.accepted {
                        return Ok(used);
                    }
                }
                Err(fault) => return Err(fault),
            }
        }
    }

    /// Takes a piece of the text up to the end of the next statement, and steps through that
    /// statement. If none ends in the piece, it takes all bytes of the piece that belong to the
    /// proof. After a fault it returns that fault again.
    pub fn step(&mut self, piece: &[u8]) -> Result<Went, CheckFault>
        // What held of the checker for all the text before now holds for that text followed by the
        // bytes taken. One more statement was accepted if the result says so, and else none.
        ensures counts { CountsOnce self.old (bytes_gone result piece.now)
            (statements_in result) self.new }
        ensures fault { fault_of self.new ≡ fault_in result }
        ensures used { IfOk result (λ w.
            ((place_in self.new).offset ≡ (place_in self.old).offset + w.used) ×
            (w.used ≤ length piece.now)) }
        ensures onward { IfOk result (λ w. w.accepted ≡ true → 0 < w.used) }
        ensures again { (e : ACheckFault) → fault_of self.old ≡ Some e → (result ≡ Err e) ×
            (self.new ≡ self.old) }
        ensures names { IsNamePrefix self.old.replay.names self.new.replay.names }
        ensures reported { ReportsKnown self.old result self.new }
        ensures unread { fault_of self.old ≡ None → IfErr result IsNoReadFault }
        ensures memory { OfFed self.old (λ limits longest v first input.
            IfErr result (AllocatesAt limits (input ++ piece.now))) }
    {
        if let Some(fault) = self.fault {
            return Err(fault);
        }
        self.advance(piece)
    }

    /// The replay, as the accepted statements have left it.
    pub fn replay(&self) -> &Replay
        ensures { result.now ≡ self.now.replay }
    {
        &self.replay
    }

    /// The same as `step`, with no fault before.
    fn advance(&mut self, piece: &[u8]) -> Result<Went, CheckFault>
        requires { fault_of self.old ≡ None }
        ensures counts { (limits : Limits) (longest : ℕ) (v : Problem) (first : Result State AFault)
            (input : List ℕ) (n : ℕ)
            → CountsAt limits longest v first input n self.old
            → CountsAt limits longest v first (input ++ bytes_gone result piece.now)
            (n + statements_in result) self.new }
        ensures open { MayGoOn (fault_of self.new) }
        ensures names { IsNamePrefix self.old.replay.names self.new.replay.names }
        ensures reported { ReportsKnown self.old result self.new }
        ensures fault { fault_of self.new ≡ fault_in result }
        ensures used { IfOk result (λ w.
            ((place_in self.new).offset ≡ (place_in self.old).offset + w.used) ×
            (w.used ≤ length piece.now)) }
        ensures onward { IfOk result (λ w. w.accepted ≡ true → 0 < w.used) }
        ensures unread { IfErr result IsNoReadFault }
        ensures memory { OfFed self.old (λ limits longest v first input.
            IfErr result (AllocatesAt limits (input ++ piece.now))) }
    {
        texts_are_read();
        reads_are_of_proofs();
        let fed = match self.feeder.feed(piece) {
            Ok(fed) => fed,
            Err(stop) => {
                let fault = CheckFault::Text(stop);
                self.fault = Some(fault);
                return Err(fault);
            }
        };
        let used = fed.used;
        let Some(read) = fed.event else {
            return Ok(Went {
                used,
                accepted: false,
            });
        };
        match step_watched(&mut self.replay, &mut self.feeder, read, &mut Unwatched) {
            Ok(()) => Ok(Went {
                used,
                accepted: true,
            }),
            Err(fault) => {
                self.fault = Some(fault);
                Err(fault)
            }
        }
    }

    /// Steps through the next statement of a source, and shows it to the watch. After the last one
    /// it returns what the proof has shown.
    pub(crate) fn pull<S: Source, V: Watch>(
        &mut self,
        input: &mut S,
        watch: &mut V,
    ) -> Result<Option<Verdict>, CheckFault>
        requires { fault_of self.old ≡ None }
        ensures runs { (longest : ℕ) (began : Replaying) (before : Option (List ℕ)) (since : List ℕ)
            (unshown : V)
            → HasRun longest began V.got before since unshown self.old (S.left input.old)
            (S.history input.old) watch.old
            → RunsOn longest began V.got before since unshown result self.new (S.left input.new)
            (S.history input.new) watch.new }
        ensures fault { fault_of self.new ≡ fault_in result }
        ensures onward { result ≡ Ok None →
            (place_in self.old).offset < (place_in self.new).offset }
        ensures within { result ≡ Ok None → (place_in self.new).offset ≤ 2 ^ 40 }
        ensures seen { IfErr result (SawText (S.shown input.new) (S.ended input.new)) }
        ensures faults { S.faults input.new ≡ faults_of_text result (S.faults input.old) }
    {
        proofs_are_exact();
        texts_are_read();
        reads_are_of_proofs();
        whole_proofs_conclude();
        match pull(input, &mut self.feeder) {
            Ok(Some(read)) => match step_watched(&mut self.replay, &mut self.feeder, read, watch) {
                Ok(()) => Ok(None),
                Err(rejected) => {
                    self.fault = Some(rejected);
                    Err(rejected)
                }
            },
            Ok(None) => match self.replay.verdict() {
                Some(verdict) => Ok(Some(verdict)),
                None => unreachable!(),
            },
            Err(stop) => {
                let stopped = CheckFault::Text(stop);
                self.fault = Some(stopped);
                Err(stopped)
            }
        }
    }

    /// Call this at the end of the text: it returns what the proof has shown, or why it is
    /// rejected.
    pub fn finish(&mut self) -> Result<Verdict, CheckFault>
        ensures ends { OfFed self.old (λ limits longest v first input.
            Ends limits longest v first input (place_in self.new) result) }
        ensures counts { EndsCounted self.old (place_in self.new) result }
        ensures fault { fault_of self.new ≡ fault_in result }
        ensures place { place_in self.new ≡ place_in self.old }
        // A success changes nothing, and the replay never changes.
        ensures ok { OnOk result (self.new ≡ self.old) }
        ensures replay { self.new.replay ≡ self.old.replay }
        // It does not allocate. The only fault that first comes here is that the text was cut.
        ensures first { fault_of self.old ≡ None
            → IfErr result (λ e.
            e ≡ CheckFault.Text (record { place = place_in self.old; why = Why.Ended })) }
        ensures again { (e : ACheckFault) → fault_of self.old ≡ Some e → (result ≡ Err e) ×
            (self.new ≡ self.old) }
    {
        if let Some(fault) = self.fault {
            return Err(fault);
        }
        texts_are_read();
        whole_proofs_conclude();
        if self.feeder.is_done() {
            match self.replay.verdict() {
                Some(verdict) => Ok(verdict),
                None => unreachable!(),
            }
        } else {
            let fault = CheckFault::Text(Stop {
                place: self.feeder.place(),
                why: Why::Ended,
            });
            self.fault = Some(fault);
            Err(fault)
        }
    }
}

/// If `StandsAt` holds of a feeder of proofs and an input, the feeder has read that input
/// (`Reads`).
pub(crate) fn texts_are_read()
    ensures { TextsAreRead }
{
    proofs_are_exact();
    standing_is_reading::<ProofMachine>();
}
