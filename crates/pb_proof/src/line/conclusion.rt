//! The words after `conclusion`.

ghost use Rattle.std.specs.Prelude.{◌≡◌, ◌<◌, ◌^◌, Some, [], IsSome};
ghost use Rattle.pb_text.specs.meaning.Limits.{largest, top_of};
ghost use Rattle.pb_lines.specs.contract.Grammar.{IsNumber};
ghost use Rattle.pb_proof.specs.engine.line.Ids.{IsBelow};
ghost use Rattle.pb_proof.specs.engine.line.Conclusion.{bound_of, first_word, with_word, with_colon, ends, number, capital, showing_value, conclusion_words, conclusion_grammar};

use crate::conclusion::{Bound, Conclusion};
use crate::line::ids::{id_of, is_minus, largest_id};
use crate::line::literals::{add_literal, count_units};
use pb_lines::{Capital, Follow, Sign, Word, WordList};
use pb_sums::{Literal, Name};
use pb_text::decimal::signed;
use pb_text::{Limits, Sequence};
use std::alloc::{AllocError, Global};
use std::mem;

/// A conclusion for which literals may be given.
#[derive(Clone, Copy, Drop)]
pub enum Showing {
    Sat,
    /// The lower bound, its id, and the upper bound.
    Bounds(Bound, Option<i64>, Bound),
}

/// The words so far, without literals.
#[derive(Clone, Copy, Drop)]
pub enum Concluding {
    /// No word.
    Start,
    NoClaim,
    /// `UNSAT`, and perhaps an id.
    Unsat(Option<i64>),
    /// `UNSAT` and `:`.
    UnsatBy,
    /// `BOUNDS`.
    Bounded,
    /// The lower bound, and perhaps an id.
    Lower(Bound, Option<i64>),
    /// The lower bound and `:`.
    LowerBy(Bound),
    /// `SAT`, or both bounds.
    Shows(Showing),
    /// The same, and `:`.
    Shown(Showing),
}

/// The words so far.
#[derive(Drop)]
pub struct ConclusionWords {
    concluding: Concluding,
    literals: Sequence<Literal>,
}

/// The bound that a word is.
fn bound_of(word: Word) -> Option<Bound>
    requires { IsBelow (2 ^ 127) word }
    ensures { result ≡ bound_of word }
{
    match word {
        Word::Number(sign, n) => Some(Bound::Finite(signed(is_minus(sign), n))),
        Word::Capital(Capital::Infinity) => Some(Bound::Infinite),
        _ => None,
    }
}

/// The conclusion, with the literals that are given for it.
fn showing_value(showing: Showing, shown: Option<Sequence<Literal>>) -> Conclusion
    ensures { result ≡ showing_value showing shown }
{
    match showing {
        Showing::Sat => Conclusion::Sat(shown),
        Showing::Bounds(lower, id, upper) => Conclusion::Bounds {
            lower,
            id,
            upper,
            shown,
        },
    }
}

impl Concluding {
    /// The conclusion that begins with this word.
    fn first(word: Word) -> Option<Concluding>
        ensures { result ≡ first_word word }
    {
        match word {
            Word::Capital(Capital::NoClaim) => Some(Concluding::NoClaim),
            Word::Capital(Capital::Unsat) => Some(Concluding::Unsat(None)),
            Word::Capital(Capital::Sat) => Some(Concluding::Shows(Showing::Sat)),
            Word::Capital(Capital::Bounds) => Some(Concluding::Bounded),
            _ => None,
        }
    }

    /// The words with one more, if it may come.
    fn with_word(self, limits: Limits, word: Word) -> Option<Concluding>
        requires { IsNumber (conclusion_grammar (largest limits) (top_of limits))
            (conclusion_words self []) (Some word) }
        ensures { result ≡ with_word self word }
    {
        match self {
            Concluding::Start => Concluding::first(word),
            Concluding::UnsatBy => Some(Concluding::Unsat(Some(id_of(word)?))),
            Concluding::LowerBy(lower) => Some(Concluding::Lower(lower, Some(id_of(word)?))),
            Concluding::Bounded => Some(Concluding::Lower(bound_of(word)?, None)),
            Concluding::Lower(lower, id) => {
                let upper = bound_of(word)?;
                Some(Concluding::Shows(Showing::Bounds(lower, id, upper)))
            }
            Concluding::Shown(_) if matches!(word, Word::Literal(_)) => Some(self),
            _ => None,
        }
    }

    /// The words and a `:`, if it may come.
    fn with_colon(self) -> Option<Concluding>
        ensures { result ≡ with_colon self }
    {
        match self {
            Concluding::Unsat(None) => Some(Concluding::UnsatBy),
            Concluding::Lower(lower, None) => Some(Concluding::LowerBy(lower)),
            Concluding::Shows(showing) => Some(Concluding::Shown(showing)),
            _ => None,
        }
    }

    /// Whether the line may end.
    fn ends(self) -> bool
        ensures { result ≡ ends self }
    {
        matches!(
            self,
            Concluding::NoClaim | Concluding::Unsat(_) | Concluding::Shows(_) | Concluding::Shown(_)
        )
    }

    /// The largest number that may come next with this sign, if one may come.
    fn number(self, limits: Limits, sign: Sign) -> Option<u128>
        ensures { result ≡ number (largest limits) (top_of limits) self sign }
    {
        match (self, sign) {
            (Concluding::UnsatBy | Concluding::LowerBy(_), _) => largest_id(limits, sign),
            (Concluding::Bounded | Concluding::Lower(_, _), _) => Some(limits.largest()),
            _ => None,
        }
    }

    /// The word in capital letters that may come next and begins with this byte.
    fn capital(self, byte: u8) -> Option<Capital>
        ensures { result ≡ capital self byte }
    {
        match (self, byte) {
            (Concluding::Start, b'N') => Some(Capital::NoClaim),
            (Concluding::Start, b'U') => Some(Capital::Unsat),
            (Concluding::Start, b'S') => Some(Capital::Sat),
            (Concluding::Start, b'B') => Some(Capital::Bounds),
            (Concluding::Bounded | Concluding::Lower(_, _), b'I') => Some(Capital::Infinity),
            _ => None,
        }
    }
}

impl ConclusionWords {
    /// No word. This does not allocate.
    pub fn new(alloc: Global) -> Self
        ensures { result ≡ conclusion_words Concluding.Start [] }
    {
        ConclusionWords {
            concluding: Concluding::Start,
            literals: Sequence::new(alloc),
        }
    }
}

impl WordList for ConclusionWords {
    ghost use Rattle.pb_proof.specs.engine.line.Conclusion.{conclusion_grammar, AllGood};
    ghost use Rattle.pb_proof.specs.engine.line.ConclusionLaws.{conclusion_lawful, conclusion_counted};

    type Event = Conclusion;

    ghost grammar = { conclusion_grammar };

    ghost good = { AllGood };

    fn number(&self, limits: Limits, sign: Sign) -> Option<u128> {
        self.concluding.number(limits, sign)
    }

    fn takes_literal(&self) -> bool {
        matches!(self.concluding, Concluding::Shown(_))
    }

    fn capital(&self, byte: u8) -> Option<Capital> {
        self.concluding.capital(byte)
    }

    fn follow(&self, limits: Limits, word: Option<Word>) -> Option<Follow> {
        let concluding = match word {
            None => self.concluding,
            Some(word) => self.concluding.with_word(limits, word)?,
        };
        Some(Follow {
            end: concluding.ends(),
            colon: concluding.with_colon().is_some(),
        })
    }

    fn add(
        &mut self,
        alloc: Global,
        limits: Limits,
        word: Word,
        name: &mut Name,
    ) -> Result<(), AllocError> {
        if let Word::Literal(negated) = word {
            return add_literal(alloc, &mut self.literals, negated, name);
        }
        if let Some(next) = self.concluding.with_word(limits, word) {
            self.concluding = next;
        }
        Ok(())
    }

    fn add_colon(&mut self, limits: Limits) {
        if let Some(next) = self.concluding.with_colon() {
            self.concluding = next;
        }
    }

    fn finish(&mut self, alloc: Global, limits: Limits) -> Conclusion {
        let literals = mem::replace(&mut self.literals, Sequence::new(alloc));
        let concluding = mem::replace(&mut self.concluding, Concluding::Start);
        match concluding {
            Concluding::Unsat(id) => Conclusion::Unsat(id),
            Concluding::Shows(showing) => showing_value(showing, None),
            Concluding::Shown(showing) => showing_value(showing, Some(literals)),
            _ => Conclusion::NoClaim,
        }
    }

    fn held(&self) -> usize {
        count_units(self.literals.as_slice())
    }

    ghost lawful = { conclusion_lawful };

    ghost counted = { conclusion_counted };
}
