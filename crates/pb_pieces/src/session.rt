//! A check of a proof of an instance, in pieces, with the same answer as a check of both texts at
//! once.

ghost use Rattle.std.specs.Prelude.{◌≡◌, ◌+◌, ◌-◌, ◌<◌, ◌≤◌, ◌^◌, ◌++◌, ℕ, List, [], None, Some, Err, IfErr, IfOk, IfSome, OnOk, cond, drop, false, length, min, slice_get, true, unwrap_or};
ghost use Rattle.std.specs.Option.{option_copied};
ghost use Rattle.pb_text.specs.declared.Limits.{Limits as SomeLimits};
ghost use Rattle.pb_tool.specs.contract.Pieces.{HoldsOpen, bytes_gone, fault_in, place_in, statements_in};
ghost use Rattle.pb_proof.specs.contract.Formats.{PrefixFree};
ghost use Rattle.pb_replay.specs.contract.ReplayModel.{constraint_in};
ghost use Rattle.pb_tool.specs.contract.Checker.{TextsAreRead};
ghost use Rattle.pb_tool.specs.meaning.Decided.{AreVerified};
ghost use Rattle.pb_pieces.specs.Session.{HasAccepted, IsInstanceOf, IsNoSession, IsSession, held_in};

use pb_normal::{HashKeys, Normal};
use pb_proof::ProofMachine;
use pb_proof::laws::{prefix_free, proofs_are_exact};
use pb_replay::Verdict;
use pb_text::laws::standing_is_reading;
use pb_text::{BYTE_LIMIT, Limits, Over, Place, Stop, Why, rest_is_blank};
use pb_tool::laws::check::verified_is_true;
use pb_tool::{CheckFault, Checker, ToolFault, Went, replay_of_instance};
use std::alloc::Global;

/// Why there is no session for a text.
#[derive(Clone, Copy, Debug, PartialEq, Eq)]
pub enum OpenFault {
    /// The reader of instances stopped at a position.
    Text(Stop),
    /// A constraint or the objective exceeds the limit.
    Overflow,
    /// Memory ran out at no position.
    Memory,
}

/// A check of a proof of an instance, in pieces.
#[derive(Drop)]
pub struct Session {
    checker: Checker,
    /// The bytes after the last statement of the proof.
    rest: Vec<u8>,
    /// How many statements of the proof were accepted.
    accepted: u64,
    fault: Option<CheckFault>,
}

impl Session {
    /// A session for the instance that is this text. Only white space and comments may follow the
    /// instance. No statement of the instance or of a proof may have more than `longest` bytes, if
    /// there is such a limit.
    pub fn open(
        alloc: Global,
        keys: HashKeys,
        text: &[u8],
        longest: Option<u64>,
        limits: Limits,
    ) -> Result<Session, OpenFault>
        requires { IfSome longest (λ n. 0 < n) }
        ensures opened { IfOk result (IsSession limits (unwrap_or longest (2 ^ 40)) text.now []) }
        ensures running { IfOk result (λ s. s.fault ≡ None) }
        ensures refused { IfErr result (IsNoSession limits (unwrap_or longest (2 ^ 40)) text.now) }
    {
        let mut source = Over::new(text);
        let within = longest.unwrap_or(BYTE_LIMIT);
        match replay_of_instance(alloc, keys, &mut source, within, limits) {
            Ok(replay) => Ok(Session {
                checker: Checker::new(alloc, replay, longest),
                rest: Vec::new(alloc),
                accepted: 0,
                fault: None,
            }),
            Err(ToolFault::Text { input: _, stop }) => Err(OpenFault::Text(stop)),
            Err(ToolFault::Memory(_)) => Err(OpenFault::Memory),
            Err(_) => Err(OpenFault::Overflow),
        }
    }

    /// Takes a piece of the proof. Each statement that ends in it is checked at once. Returns the
    /// number of bytes that belong to the proof: the whole piece, or the bytes through the last
    /// byte of the proof, and none after that. The other bytes are stored for `finish`. After a
    /// fault it returns that fault again, and takes nothing.
    pub fn feed(&mut self, piece: &[u8]) -> Result<usize, CheckFault>
        // What held for all the text before now holds for that text followed by this piece.
        ensures fed { (limits : SomeLimits) (longest : ℕ) (i fed : List ℕ) →
            IsSession limits longest i fed self.old
            → IsSession limits longest i (fed ++ piece.now) self.new }
        ensures fault { self.new.fault ≡ fault_in result }
        ensures used { IfOk result (λ n.
            ((place_in self.new.checker).offset ≡ (place_in self.old.checker).offset + n) ×
            (n ≤ length piece.now)) }
        ensures again { IfSome self.old.fault (λ e. (result ≡ Err e) × (self.new ≡ self.old)) }
    {
        if let Some(fault) = self.fault {
            return Err(fault);
        }
        let mut used = 0;
        loop {
            match self.step(&piece[used..]) {
                Ok(went) => {
                    used += went.used;
                    if !went.accepted {
                        return Ok(used);
                    }
                }
                Err(fault) => return Err(fault),
            }
        }
    }

    /// Takes a piece of the proof up to the end of the next statement, which is checked. If none
    /// ends in the piece, it takes the whole piece, as `feed` does. Returns how many bytes belong
    /// to the proof, and whether a statement ended there and was accepted. After a fault it returns
    /// that fault again, and takes nothing.
    pub fn step(&mut self, piece: &[u8]) -> Result<Went, CheckFault>
        // What held for all the text before now holds for that text followed by the bytes taken.
        ensures fed { (limits : SomeLimits) (longest : ℕ) (i fed : List ℕ) →
            IsSession limits longest i fed self.old
            → IsSession limits longest i (fed ++ bytes_gone result piece.now) self.new }
        ensures fault { self.new.fault ≡ fault_in result }
        ensures used { IfOk result (λ w.
            ((place_in self.new.checker).offset ≡ (place_in self.old.checker).offset + w.used) ×
            (w.used ≤ length piece.now)) }
        ensures onward { IfOk result (λ w. w.accepted ≡ true → 0 < w.used) }
        ensures counts { (limits : SomeLimits) (longest : ℕ) (i fed : List ℕ) →
            IsSession limits longest i fed self.old
            → self.new.accepted ≡ self.old.accepted + statements_in result }
        ensures again { IfSome self.old.fault (λ e. (result ≡ Err e) × (self.new ≡ self.old)) }
    {
        if let Some(earlier) = self.fault {
            return Err(earlier);
        }
        texts_are_read();
        let went = match self.checker.step(piece) {
            Ok(went) => went,
            Err(fault) => {
                self.fault = Some(fault);
                return Err(fault);
            }
        };
        match self.settle(went, piece) {
            Ok(()) => Ok(went),
            Err(fault) => Err(fault),
        }
    }

    /// Counts an accepted statement, or stores what follows the last one.
    fn settle(&mut self, went: Went, piece: &[u8]) -> Result<(), CheckFault>
        requires { went.used ≤ length piece.now }
        ensures checker { self.new.checker ≡ self.old.checker }
        ensures reach { (place_in self.new.checker).offset ≤ 2 ^ 40 }
        ensures kept { OnOk result (self.new.fault ≡ self.old.fault) }
        ensures counts { self.new.accepted ≡ cond went.accepted
            (min (self.old.accepted + 1) (2 ^ 64 - 1)) self.old.accepted }
        ensures stores { OnOk result
            (self.new.rest.items ≡ self.old.rest.items ++ cond went.accepted []
            (drop went.used piece.now)) }
        ensures unstored { IfErr result (λ e. (self.new.fault ≡ Some e) × (went.accepted ≡ false) ×
            (went.used < length piece.now)
            × (e ≡ CheckFault.Text
            (record { place = place_in self.old.checker; why = Why.Memory }))) }
    {
        let place = self.checker.place();
        if went.accepted {
            self.accepted = self.accepted.saturating_add(1);
            return Ok(());
        }
        if went.used == piece.len() {
            return Ok(());
        }
        match self.rest.extend_from_slice(&piece[went.used..]) {
            Ok(()) => Ok(()),
            Err(_) => {
                let fault = CheckFault::Text(Stop {
                    place,
                    why: Why::Memory,
                });
                self.fault = Some(fault);
                Err(fault)
            }
        }
    }

    /// What the proof shows, if it ends here. Only white space and comments may follow its last
    /// statement. After a fault it returns that fault again, and so does each later call.
    pub fn finish(&mut self) -> Result<Verdict, CheckFault>
        // A verdict changes nothing.
        ensures ok { OnOk result (self.new ≡ self.old) }
        ensures counts { self.new.accepted ≡ self.old.accepted }
        // What held for the text still holds. So a fault is one of the text.
        ensures stands { (limits : SomeLimits) (longest : ℕ) (i fed : List ℕ) →
            IsSession limits longest i fed self.old
            → IsSession limits longest i fed self.new }
        ensures fault { self.new.fault ≡ fault_in result }
        ensures again { IfSome self.old.fault (λ e. (result ≡ Err e) × (self.new ≡ self.old)) }
        // The text of the instance and the joined pieces are verified with the verdict, as `check`
        // says of two texts.
        ensures verified { (limits : SomeLimits) (longest : ℕ) (i fed : List ℕ) →
            IsSession limits longest i fed self.old
            → IfOk result (AreVerified limits longest i fed) }
        // The verdict is true of the instance.
        ensures truth { (limits : SomeLimits) (longest : ℕ) (i fed : List ℕ) →
            IsSession limits longest i fed self.old
            → IfOk result (IsInstanceOf limits longest i) }
    {
        if let Some(fault) = self.fault {
            return Err(fault);
        }
        verified_is_true();
        let verdict = match self.checker.finish() {
            Ok(verdict) => verdict,
            Err(fault) => {
                self.fault = Some(fault);
                return Err(fault);
            }
        };
        let mut rest = Over::new(self.rest.as_slice());
        match rest_is_blank(&mut rest, self.checker.place()) {
            Ok(()) => Ok(verdict),
            Err(stop) => {
                let fault = CheckFault::Text(stop);
                self.fault = Some(fault);
                Err(fault)
            }
        }
    }

    /// The position of the next byte of the proof. After its last statement it stays.
    pub fn place(&self) -> Place
        ensures { result ≡ place_in self.now.checker }
    {
        self.checker.place()
    }

    /// How much of the current statement is stored: at most as much as its bytes so far, and
    /// nothing between statements.
    pub fn held(&self) -> usize
        ensures held { result ≡ held_in self.now }
        ensures few { (limits : SomeLimits) (longest : ℕ) (i fed : List ℕ) →
            IsSession limits longest i fed self.now
            → self.now.fault ≡ None → HoldsOpen limits fed (place_in self.now.checker) result }
    {
        self.checker.held()
    }

    /// How many statements of the proof were accepted: all that have ended, or those before the
    /// fault.
    pub fn accepted(&self) -> u64
        ensures accepted { result ≡ self.now.accepted }
        // Before a fault these are all statements that end in the text.
        ensures counts { (limits : SomeLimits) (longest : ℕ) (i fed : List ℕ) →
            IsSession limits longest i fed self.now
            → self.now.fault ≡ None → HasAccepted limits longest i fed result }
    {
        texts_are_read();
        self.accepted
    }

    /// The newest id of a constraint, or 0 if there is none. After a fault it has no meaning.
    pub fn newest(&self) -> u64
        ensures { result ≡ length self.now.checker.replay.live }
    {
        self.checker.replay().newest()
    }

    /// The visits of the last `rup`, or 0 if there was none.
    pub fn visits(&self) -> u64
        ensures { result ≡ self.now.checker.replay.visits }
    {
        self.checker.replay().visits()
    }

    /// The live constraint with this id. After a fault it has no meaning.
    pub fn constraint(&self, id: u64) -> Option<&Normal>
        ensures { option_copied result ≡ constraint_in self.now.checker.replay.live id }
    {
        self.checker.replay().constraint(id)
    }

    /// The name with a number, also after a fault.
    pub fn name_of(&self, number: usize) -> Option<&str>
        ensures { option_copied result ≡ slice_get self.now.checker.replay.names number }
    {
        self.checker.name_of(number)
    }
}

/// If `StandsAt` holds of a feeder of proofs and an input, the feeder has read that input. No proof
/// is a prefix of another.
fn texts_are_read()
    ensures read { TextsAreRead }
    ensures free { PrefixFree }
{
    proofs_are_exact();
    prefix_free();
    standing_is_reading::<ProofMachine>();
}
