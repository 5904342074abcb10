//! Takes bytes of a piece that are fast to take.

ghost use Rattle.std.specs.Prelude.{true, false, ◌≡◌, ℕ, Some, None, ◌+◌, ◌≤◌, List, [], ◌∷◌, ◌++◌, take, if◌then◌else◌, length, is_some};

use crate::feeder::Feeder;
use crate::machine::Machine;
use crate::place::Spanned;

impl<M: Machine> Feeder<M> {
    ghost use Rattle.pb_text.specs.declared.place.Spanned.{Spanned};
    ghost use Rattle.pb_text.specs.contract.Automaton.{IsState};
    ghost use Rattle.pb_text.specs.contract.Feeding.{StandsAt, spans_in, state_of, place_of, halt_of, is_complete};

    /// Takes a byte that ends a statement, if that is fast.
    pub(super) fn try_finish(&mut self, byte: u8) -> Option<Spanned<M::Event>>
        requires unfinished { is_complete self.old ≡ false }
        requires running { halt_of self.old ≡ None }
        requires state { IsState M.automaton (state_of self.old) }
        ensures stands { (longest : ℕ) (start : M) (input : List ℕ) (spans : List (Spanned M.Event))
            → StandsAt longest start input spans self.old
            → StandsAt longest start (input ++ (if is_some result then byte ∷ [] else []))
            (spans ++ spans_in result) self.new }
        ensures offset { (place_of self.new).offset ≡ (place_of self.old).offset + (if is_some
            result then 1 else 0) }
        ensures past { (event : Spanned M.Event) → result ≡ Some event →
            event.past ≡ place_of self.new }
        ensures unfinished { result ≡ None → is_complete self.new ≡ false }
        ensures running { halt_of self.new ≡ None }
        ensures state { IsState M.automaton (state_of self.new) }
    {
        if self.place.offset == self.end {
            return None;
        }
        match self.machine.try_finish(byte) {
            Some(event) => Some(self.span(event, byte)),
            None => None,
        }
    }

    /// Takes a prefix of a piece that is fast to take and ends no statement. It returns the length
    /// of the prefix.
    #[inline(always)]
    pub(crate) fn feed_fast(&mut self, piece: &[u8]) -> usize
        requires unfinished { is_complete self.old ≡ false }
        requires running { halt_of self.old ≡ None }
        requires state { IsState M.automaton (state_of self.old) }
        ensures bound { result ≤ length piece.now }
        ensures stands { (longest : ℕ) (start : M) (input : List ℕ) (spans : List (Spanned M.Event))
            → StandsAt longest start input spans self.old
            → StandsAt longest start (input ++ take result piece.now) spans self.new }
        ensures offset { (place_of self.new).offset ≡ (place_of self.old).offset + result }
        ensures running { halt_of self.new ≡ None }
        ensures unfinished { is_complete self.new ≡ false }
        ensures state { IsState M.automaton (state_of self.new) }
    {
        let entered = self.skip_gap(piece);
        entered + self.feed_body(&piece[entered..])
    }

    /// If no statement has begun, takes a prefix of a piece, at most through the first byte of one.
    /// It returns the length.
    #[inline(always)]
    fn skip_gap(&mut self, piece: &[u8]) -> usize
        requires unfinished { is_complete self.old ≡ false }
        requires running { halt_of self.old ≡ None }
        requires state { IsState M.automaton (state_of self.old) }
        ensures bound { result ≤ length piece.now }
        ensures stands { (longest : ℕ) (start : M) (input : List ℕ) (spans : List (Spanned M.Event))
            → StandsAt longest start input spans self.old
            → StandsAt longest start (input ++ take result piece.now) spans self.new }
        ensures offset { (place_of self.new).offset ≡ (place_of self.old).offset + result }
        ensures running { halt_of self.new ≡ None }
        ensures unfinished { is_complete self.new ≡ false }
        ensures state { IsState M.automaton (state_of self.new) }
    {
        let mut used: usize = 0;
        while used < piece.len() {
            if !self.try_continue(piece[used]) {
                return used;
            }
            used += 1;
        }
        used
    }

    /// Takes a byte between two statements, or the first byte of one, if that is fast. It returns
    /// whether it did.
    #[inline(always)]
    pub(super) fn try_continue(&mut self, byte: u8) -> bool
        requires unfinished { is_complete self.old ≡ false }
        requires running { halt_of self.old ≡ None }
        requires state { IsState M.automaton (state_of self.old) }
        ensures stands { (longest : ℕ) (start : M) (input : List ℕ) (spans : List (Spanned M.Event))
            → StandsAt longest start input spans self.old
            → StandsAt longest start (input ++ (if result then byte ∷ [] else [])) spans self.new }
        ensures offset { (place_of self.new).offset ≡ (place_of self.old).offset + (if
            result then 1 else 0) }
        ensures running { halt_of self.new ≡ None }
        ensures unfinished { is_complete self.new ≡ false }
        ensures state { IsState M.automaton (state_of self.new) }
    {
        if self.first.is_some() || self.place.offset == self.end {
            return false;
        }
        let starts = self.machine.starts(byte);
        if !self.machine.try_continue(byte) {
            return false;
        }
        self.move_on(starts, byte);
        true
    }

    /// Takes a prefix of a piece while the statement that has begun continues. It returns the
    /// length of the prefix.
    #[inline(always)]
    #[tactic(auto, using(crate::proofs::lemmas::machine::Running::runs_unfinished))]
    pub(super) fn feed_body(&mut self, piece: &[u8]) -> usize
        requires unfinished { is_complete self.old ≡ false }
        requires running { halt_of self.old ≡ None }
        requires state { IsState M.automaton (state_of self.old) }
        ensures bound { result ≤ length piece.now }
        ensures stands { (longest : ℕ) (start : M) (input : List ℕ) (spans : List (Spanned M.Event))
            → StandsAt longest start input spans self.old
            → StandsAt longest start (input ++ take result piece.now) spans self.new }
        ensures offset { (place_of self.new).offset ≡ (place_of self.old).offset + result }
        ensures running { halt_of self.new ≡ None }
        ensures unfinished { is_complete self.new ≡ false }
        ensures state { IsState M.automaton (state_of self.new) }
    {
        if self.first.is_none() {
            return 0;
        }
        let room = (self.end - self.place.offset) as usize;
        let prefix = &piece[..piece.len().min(room)];
        let used = self.machine.take_run(prefix);
        self.place = self.place.past(&prefix[..used]);
        used
    }
}
