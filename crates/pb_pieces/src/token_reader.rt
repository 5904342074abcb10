//! Reads a text in pieces, and gives one statement at a time as tokens.

ghost use Rattle.std.specs.Prelude.{◌≡◌, ◌+◌, ◌<◌, ◌≤◌, ◌++◌, ◌^◌, ℕ, List, [], None, Some, Err, Ok, Option, IfErr, IfOk, IfSome, OnOk, false, length, slice_get, unwrap_or};
ghost use Rattle.std.specs.Option.{option_copied};
ghost use Rattle.pb_text.specs.declared.place.Spanned.{Spanned as ASpanned};
ghost use Rattle.pb_text.specs.contract.Feeding.{place_of, stop_of};
ghost use Rattle.pb_text.specs.contract.Automaton.{AcceptsItems};
ghost use Rattle.pb_text.specs.meaning.Reading.{EndsAs};
ghost use Rattle.pb_pieces.specs.NamedTokens.{AreTokens, names_of};
ghost use Rattle.pb_pieces.specs.Tokens.{Token};
ghost use Rattle.pb_pieces.specs.TokenReader.{Gives, IsReading, IsShown, Stops};

use crate::named_tokens::NamedTokens;
use crate::tokenized::{EventKind, Tokenized};
use pb_normal::HashKeys;
use pb_text::{BYTE_LIMIT, Feeder, Machine, Place, Spanned, Stop, Why};
use std::alloc::{AllocError, Global};

/// What a statement is, where it begins, and the position past it.
#[derive(Clone, Copy)]
pub struct Event {
    pub kind: EventKind,
    pub first: Place,
    pub past: Place,
}

/// What a feed took: `used` bytes of the piece, and the statement that ends with the last of them,
/// if any.
#[derive(Clone, Copy)]
pub struct Taken {
    pub used: usize,
    pub event: Option<Event>,
}

/// A reader of a text in pieces. It has the tokens and the free text of the last statement.
#[derive(Drop)]
pub struct TokenReader<M: Machine> {
    feeder: Feeder<M>,
    fault: Option<Stop>,
    pub tokens: NamedTokens,
    pub text: Vec<u8>,
}

impl<E: Tokenized + Drop, M: Machine<Event = E> + Drop> TokenReader<M> {
    /// A reader with a machine that has begun no statement. No statement may have more than
    /// `longest` bytes, if there is such a limit.
    pub fn new(alloc: Global, keys: HashKeys, machine: M, longest: Option<u64>) -> Self
        requires between { M.automaton.begun machine ≡ false }
        requires some { IfSome longest (λ n. 0 < n) }
        ensures reading { IsReading E.Tokenized (unwrap_or longest (2 ^ 40)) machine [] [] result }
        ensures running { result.fault ≡ None }
    {
        TokenReader {
            feeder: Feeder::within(machine, longest.unwrap_or(BYTE_LIMIT)),
            fault: None,
            tokens: NamedTokens::new(alloc, keys),
            text: Vec::new(alloc),
        }
    }

    /// The position of the next byte. After the last statement it stays.
    pub fn place(&self) -> Place
        ensures { result ≡ place_of self.now.feeder }
    {
        self.feeder.place()
    }

    /// Takes bytes of the piece through the end of the next statement, or all of them. After the
    /// last statement it takes none. After a fault it returns that fault again.
    pub fn feed(&mut self, piece: &[u8]) -> Result<Taken, Stop>
        // What held for all the text before now holds for that text followed by these bytes.
        ensures gives { (longest : ℕ) (start : M) (fed : List ℕ) (spans : List (ASpanned E))
            → self.old.fault ≡ None → IsReading E.Tokenized longest start fed spans self.old
            → IfOk result (λ t. Gives E.Tokenized longest start fed spans piece.now t self.new) }
        // The first fault is that of the text, or memory ran out for the tokens of a statement.
        ensures stops { (longest : ℕ) (start : M) (fed : List ℕ) (spans : List (ASpanned E))
            → self.old.fault ≡ None → IsReading E.Tokenized longest start fed spans self.old
            → IfErr result (λ s. Stops E.Tokenized longest start fed spans piece.now s self.new) }
        ensures fault { self.new.fault ≡ stop_of result }
        ensures used { IfOk result (λ t.
            ((place_of self.new.feeder).offset ≡ (place_of self.old.feeder).offset + t.used) ×
            (t.used ≤ length piece.now)) }
        ensures again { IfSome self.old.fault (λ s. (result ≡ Err s) × (self.new ≡ self.old)) }
    {
        if let Some(stop) = self.fault {
            return Err(stop);
        }
        let fed = match self.feeder.feed(piece) {
            Ok(fed) => fed,
            Err(stop) => {
                self.fault = Some(stop);
                return Err(stop);
            }
        };
        let used = fed.used;
        match fed.event {
            Some(read) => match self.give(read) {
                Ok(event) => Ok(Taken {
                    used,
                    event: Some(event),
                }),
                Err(stop) => Err(stop),
            },
            None => Ok(Taken { used, event: None }),
        }
    }

    /// Stores a statement that was read in place of the last one, and says what it is.
    fn give(&mut self, read: Spanned<E>) -> Result<Event, Stop>
        ensures shown { IfOk result (λ e. IsShown E.Tokenized read e self.new) }
        ensures stored { (seen : List (List ℕ)) (current : List Token) →
            AreTokens seen current self.old.tokens
            → OnOk result (AreTokens (seen ++ names_of current)
            (E.tokens read.event) self.new.tokens) }
        ensures spent { IfErr result (λ s. (s.why ≡ Why.Memory) × (s.place ≡ read.first)) }
        ensures feeder { self.new.feeder ≡ self.old.feeder }
        ensures ok { OnOk result (self.new.fault ≡ self.old.fault) }
        ensures fault { IfErr result (λ s. self.new.fault ≡ Some s) }
    {
        match self.store(&read) {
            Ok(()) => Ok(Event {
                kind: read.event.kind(),
                first: read.first,
                past: read.past,
            }),
            Err(_) => {
                let stop = Stop {
                    place: read.first,
                    why: Why::Memory,
                };
                self.fault = Some(stop);
                Err(stop)
            }
        }
    }

    /// Call this at the end of the text: whether it may end here. After a fault it returns that
    /// fault again.
    pub fn finish(&mut self) -> Result<(), Stop>
        ensures ends { (longest : ℕ) (start : M) (fed : List ℕ) (spans : List (ASpanned E))
            → self.old.fault ≡ None → IsReading E.Tokenized longest start fed spans self.old
            → (used : List ℕ) × EndsAs (AcceptsItems M.automaton start) longest fed used spans
            (place_of self.new.feeder) result }
        ensures fault { self.new.fault ≡ stop_of result }
        ensures ok { OnOk result (self.new ≡ self.old) }
        ensures again { IfSome self.old.fault (λ s. (result ≡ Err s) × (self.new ≡ self.old)) }
    {
        if let Some(stop) = self.fault {
            return Err(stop);
        }
        match self.feeder.finish() {
            Ok(()) => Ok(()),
            Err(stop) => {
                self.fault = Some(stop);
                Err(stop)
            }
        }
    }

    /// Puts a statement in place of the last one.
    fn store(&mut self, read: &Spanned<E>) -> Result<(), AllocError>
        ensures stored { (seen : List (List ℕ)) (current : List Token) →
            AreTokens seen current self.old.tokens
            → OnOk result (AreTokens (seen ++ names_of current)
            (E.tokens read.now.event) self.new.tokens) }
        ensures text { OnOk result (self.new.text.items ≡ E.text read.now.event) }
        ensures feeder { self.new.feeder ≡ self.old.feeder }
        ensures fault { self.new.fault ≡ self.old.fault }
    {
        self.tokens.clear();
        self.text.clear();
        read.event.put_tokens(&mut self.tokens)?;
        self.text.extend_from_slice(read.event.free_text())?;
        Ok(())
    }
}
