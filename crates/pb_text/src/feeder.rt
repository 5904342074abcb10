//! Reads a text in pieces.

ghost use Rattle.std.specs.Prelude.{true, false, ◌≡◌, ◌≢◌, ℕ, Some, None, Ok, Err, ◌+◌, ◌^◌, ◌<◌, ◌≤◌, List, [], ◌∷◌, ◌++◌, take, if◌then◌else◌, OnOk, OnErr, IfOk, IfErr, length, is_some};
ghost use Rattle.pb_text.specs.engine.SpentBytes.{end_of};
ghost use Rattle.pb_text.specs.meaning.Spelling.{place_next, place_or};
ghost use Rattle.pb_text.specs.contract.Standing.{opened};
ghost use Rattle.pb_text.specs.meaning.Stopping.{IsShown};

mod fast;
mod statement;

use crate::machine::{Machine, Push};
use crate::place::{Place, Spanned, Stop, Why};

/// The maximum number of bytes read from one input.
pub const BYTE_LIMIT: u64 = 1 << 40;

/// What a feed took: `used` bytes of the piece, and the event that ends with the last of them, if
/// any.
#[derive(Drop)]
pub struct Fed<E> {
    pub used: usize,
    pub event: Option<Spanned<E>>,
}

impl<E> Fed<E> {
    /// What was taken if the last of `used` bytes ends an event.
    fn with_event(used: usize, event: Spanned<E>) -> Self
        ensures { result ≡ record { used = used; event = Some event } }
    {
        Fed {
            used,
            event: Some(event),
        }
    }
}

/// Feeds a text to a machine, in whatever pieces it comes, and stores no byte of it.
#[derive(Drop)]
pub struct Feeder<M: Machine> {
    machine: M,
    place: Place,
    first: Option<Place>,
    longest: u64,
    end: u64,
    stop: Option<Stop>,
    ghost some: { 0 < longest },
    ghost end_is: { end ≡ end_of longest first },
    ghost offset_in_range: { place.offset ≤ end },
    ghost line_in_range: { place.line ≤ place.offset + 1 },
    ghost column_in_range: { place.column ≤ place.offset + 1 },
}

impl<M: Machine> Feeder<M> {
    ghost use Rattle.pb_text.specs.declared.place.Spanned.{Spanned};
    ghost use Rattle.pb_text.specs.declared.place.Stop.{Stop};
    ghost use Rattle.pb_text.specs.meaning.Blank.{IsInReach};
    ghost use Rattle.pb_text.specs.contract.Automaton.{AcceptsItems, IsState};
    ghost use Rattle.pb_text.specs.contract.Standing.{IsOpen};
    ghost use Rattle.pb_text.specs.meaning.Reading.{Reads, EndsAs};
    ghost use Rattle.pb_text.specs.contract.Feeding.{StandsAt, FeedsOnce, EndsEvent, HoldsFew, UsesOf, WantsMemory, WantsNext, stop_of, spans_in, spans_taken, state_of, place_of, halt_of, is_complete};

    /// A feeder for a machine that has begun no statement.
    pub fn new(machine: M) -> Self
        requires between { M.automaton.begun machine ≡ false }
        ensures stands { StandsAt BYTE_LIMIT machine [] [] result }
        ensures running { halt_of result ≡ None }
        ensures place { place_of result ≡ Place.START }
        ensures state { state_of result ≡ machine }
    {
        Feeder::within(machine, BYTE_LIMIT)
    }

    /// A feeder that stops at a statement which has not ended within its first `longest` bytes.
    pub fn within(machine: M, longest: u64) -> Self
        requires between { M.automaton.begun machine ≡ false }
        requires some { 0 < longest }
        ensures stands { StandsAt longest machine [] [] result }
        ensures running { halt_of result ≡ None }
        ensures place { place_of result ≡ Place.START }
        ensures state { state_of result ≡ machine }
    {
        let _ = machine.is_done();
        Feeder {
            machine,
            place: Place::START,
            first: None,
            longest,
            end: BYTE_LIMIT,
            stop: None,
        }
    }

    /// Whether the text is complete.
    pub fn is_done(&self) -> bool
        ensures done { result ≡ is_complete self.now }
        ensures state { IsState M.automaton (state_of self.now) }
        // The spans that were returned, the position, this result and the stop are those of a read
        // of the input.
        ensures reads { (longest : ℕ) (start : M) (input : List ℕ) (spans : List (Spanned M.Event))
            → StandsAt longest start input spans self.now
            → (used : List ℕ) × Reads (AcceptsItems M.automaton start) longest input used spans
            (place_of self.now) result (halt_of self.now) }
    {
        self.machine.is_done()
    }

    /// The position of the next byte.
    pub fn place(&self) -> Place
        ensures place { result ≡ place_of self.now }
        ensures reach { IsInReach result }
    {
        self.place
    }

    /// How much of the current statement is stored.
    pub fn held(&self) -> usize
        ensures kept { result ≡ M.automaton.kept (state_of self.now) }
        ensures few { (longest : ℕ) (start : M) (input : List ℕ) (spans : List (Spanned M.Event))
            → StandsAt longest start input spans self.now
            → HoldsFew start input self.now result }
    {
        self.machine.held()
    }

    /// Takes an event that is no longer needed, so that its memory may be used for a later one.
    #[inline(always)]
    pub fn reuse(&mut self, event: M::Event)
        ensures { self.new ≡ self.old }
    {
        self.machine.reuse(event);
    }

    /// The input has ended: `Ok` if the text is complete, otherwise `Ended`.
    pub fn finish(&mut self) -> Result<(), Stop>
        ensures ends { (longest : ℕ) (start : M) (input : List ℕ) (spans : List (Spanned M.Event))
            → halt_of self.old ≡ None
            → StandsAt longest start input spans self.old
            → (used : List ℕ) × EndsAs (AcceptsItems M.automaton start) longest input used spans
            (place_of self.new) result }
        ensures again { (stop : Stop) → halt_of self.old ≡ Some stop → (result ≡ Err stop) ×
            (self.new ≡ self.old) }
        ensures ok { OnOk result (self.new ≡ self.old) }
        ensures stop { halt_of self.new ≡ stop_of result }
        ensures place { place_of self.new ≡ place_of self.old }
        ensures state { state_of self.new ≡ state_of self.old }
    {
        if let Some(stop) = self.stop {
            return Err(stop);
        }
        if self.machine.is_done() {
            Ok(())
        } else {
            Err(self.halt(Why::Ended))
        }
    }

    /// Takes bytes of the piece through the end of the next event, or all of them. After a stop,
    /// and after the last event, it takes none.
    pub fn feed(&mut self, piece: &[u8]) -> Result<Fed<M::Event>, Stop>
        // If `StandsAt` held for all earlier input, it holds for that input followed by these
        // bytes.
        ensures feeds { FeedsOnce self.old piece.now result self.new }
        ensures stop { halt_of self.new ≡ stop_of result }
        ensures used { IfOk result (UsesOf self.old piece.now self.new) }
        ensures again { (stop : Stop) → halt_of self.old ≡ Some stop → (result ≡ Err stop) ×
            (self.new ≡ self.old) }
        ensures done { is_complete self.old ≡ true → halt_of self.old ≡ None
            → (result ≡ Ok (record { used = 0; event = None })) × (self.new ≡ self.old) }
        // Without an event it takes the whole piece, unless the text was complete before.
        ensures whole { (fed : Fed M.Event) → result ≡ Ok fed → fed.event ≡ None →
            is_complete self.old ≡ false → fed.used ≡ length piece.now }
        // With an event, it takes the bytes through the last one of that event, and at least one.
        ensures past { (fed : Fed M.Event) (event : Spanned M.Event) → result ≡ Ok fed →
            fed.event ≡ Some event → EndsEvent fed event self.new }
        // There is no reader that can fail.
        ensures unread { halt_of self.old ≡ None → IfErr result (λ stop. stop.why ≢ Why.Read) }
        // `Memory` comes only at a byte that may allocate.
        ensures memory { halt_of self.old ≡ None →
            IfErr result (WantsNext self.old piece.now self.new) }
    {
        if let Some(stop) = self.stop {
            return Err(stop);
        }
        if self.machine.is_done() {
            return Ok(Fed {
                used: 0,
                event: None,
            });
        }
        let mut used = self.feed_body(piece);
        while used < piece.len() {
            let fed = self.feed_prefix(&piece[used..]);
            used += fed.used;
            if let Some(event) = fed.event {
                return Ok(Fed::with_event(used, event));
            }
            if used == piece.len() {
                return Ok(Fed { used, event: None });
            }
            match self.take(piece[used]) {
                Ok(None) => used += 1,
                Ok(Some(event)) => return Ok(Fed::with_event(used + 1, event)),
                Err(stop) => return Err(stop),
            }
        }
        Ok(Fed { used, event: None })
    }

    /// Why it stopped, if it did.
    pub(crate) fn stopped(&self) -> Option<Stop>
        ensures { result ≡ halt_of self.now }
    {
        self.stop
    }

    pub(crate) fn halt(&mut self, why: Why) -> Stop
        ensures result { result ≡ record { place = self.old.place; why = why } }
        ensures stop { self.new.stop ≡ Some result }
        ensures machine { self.new.machine ≡ self.old.machine }
        ensures place { self.new.place ≡ self.old.place }
        ensures first { self.new.first ≡ self.old.first }
        ensures longest { self.new.longest ≡ self.old.longest }
    {
        let stop = Stop {
            place: self.place,
            why,
        };
        self.stop = Some(stop);
        stop
    }

    /// Takes one byte.
    pub(crate) fn take(&mut self, byte: u8) -> Result<Option<Spanned<M::Event>>, Stop>
        requires unfinished { is_complete self.old ≡ false }
        requires running { halt_of self.old ≡ None }
        requires state { IsState M.automaton (state_of self.old) }
        ensures stands { (longest : ℕ) (start : M) (input : List ℕ) (spans : List (Spanned M.Event))
            → StandsAt longest start input spans self.old
            → StandsAt longest start (input ++ byte ∷ []) (spans ++ spans_taken result) self.new }
        ensures stop { halt_of self.new ≡ stop_of result }
        ensures counted { IsOpen (halt_of self.new) }
        ensures offset { OnOk result ((place_of self.new).offset ≡ (place_of self.old).offset + 1) }
        ensures past { (event : Spanned M.Event) → result ≡ Ok (Some event) →
            event.past ≡ place_of self.new }
        ensures still { OnErr result ((place_of self.new).offset ≡ (place_of self.old).offset) }
        ensures unfinished { result ≡ Ok None → is_complete self.new ≡ false }
        ensures state { IsState M.automaton (state_of self.new) }
        ensures memory { IfErr result (λ stop. WantsMemory stop self.new byte) }
        ensures unread { IfErr result (λ stop. stop.why ≢ Why.Read) }
        ensures shown { IfErr result (λ stop. IsShown (Some byte) false stop.why) }
    {
        if self.place.offset == self.end {
            return Err(self.halt(Why::TooLong));
        }
        let starts = self.machine.starts(byte);
        match self.machine.push(byte) {
            Push::Go => {
                self.move_on(starts, byte);
                Ok(None)
            }
            Push::Event(event) => Ok(Some(self.span(event, byte))),
            Push::No => Err(self.halt(Why::Byte(byte))),
            Push::Large => Err(self.halt(Why::TooLarge)),
            Push::Memory => Err(self.halt(Why::Memory)),
        }
    }
}

impl<M: Machine> Feeder<M> {
    /// Advances past a byte that ends no statement.
    #[inline(always)]
    fn move_on(&mut self, starts: bool, byte: u8)
        requires room { self.old.place.offset < self.old.end }
        ensures machine { self.new.machine ≡ self.old.machine }
        ensures place { self.new.place ≡ place_next self.old.place byte }
        ensures first { self.new.first ≡ opened self.old.first starts self.old.place }
        ensures longest { self.new.longest ≡ self.old.longest }
        ensures stop { self.new.stop ≡ self.old.stop }
    {
        self.first = opened_at(self.first, starts, self.place);
        self.end = end_at(self.longest, self.first);
        self.place = self.place.after(byte);
    }

    /// Advances past the byte that ends a statement, and returns its event with its positions.
    fn span(&mut self, event: M::Event, byte: u8) -> Spanned<M::Event>
        requires room { self.old.place.offset < self.old.end }
        ensures spans { result ≡ record {
          event = event;
          first = place_or self.old.first self.old.place;
          past = self.new.place;
        } }
        ensures machine { self.new.machine ≡ self.old.machine }
        ensures place { self.new.place ≡ place_next self.old.place byte }
        ensures first { self.new.first ≡ None }
        ensures longest { self.new.longest ≡ self.old.longest }
        ensures stop { self.new.stop ≡ self.old.stop }
    {
        let first = self.first.unwrap_or(self.place);
        let past = self.place.after(byte);
        self.first = None;
        self.end = BYTE_LIMIT;
        self.place = past;
        Spanned { event, first, past }
    }
}

/// The position where the statement of the next byte began, if the byte is in one.
fn opened_at(first: Option<Place>, starts: bool, place: Place) -> Option<Place>
    ensures { result ≡ opened first starts place }
{
    match first {
        Some(first) => Some(first),
        None if starts => Some(place),
        None => None,
    }
}

/// The offset at which the next byte is past the limit.
fn end_at(longest: u64, first: Option<Place>) -> u64
    ensures { result ≡ end_of longest first }
{
    match first {
        Some(first) => first.offset.saturating_add(longest).min(BYTE_LIMIT),
        None => BYTE_LIMIT,
    }
}
