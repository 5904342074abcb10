//! The postfix words of a `pol` line.

ghost use Rattle.std.specs.Prelude.{◌≡◌, [], ℕ, List, true, nat_eq, option_map, IsSome, Some, OnOk, OnErr};
ghost use Rattle.pb_text.specs.meaning.Limits.{largest, top_of};
ghost use Rattle.pb_lines.specs.contract.Grammar.{IsNumber};
ghost use Rattle.pb_proof.specs.engine.line.Pol.{bound, no_words, pol_grammar, with_operand, with_number, with_mark, adds_word};

mod change;
mod held;

use crate::line::pol::change::{count_units, make_room, turn_last};
use crate::line::pol::held::{Held, held_name, held_number, is_free, turns};
use crate::word::PolWord;
use pb_lines::{Capital, Follow, Sign, Word, WordList};
use pb_sums::{Literal, Name};
use pb_text::{Limits, Sequence};
use std::alloc::{AllocError, Global};
use std::marker::Model;
use std::mem;

/// The words of one expression so far.
#[derive(Drop)]
pub struct PolWords {
    words: Vec<PolWord>,
    /// How many expressions are finished.
    depth: usize,
    /// What the last word may still become.
    held: Held,
}

impl Model for PolWords {
    ghost use Rattle.std.specs.Prelude.{◌≤◌, vec_len};
    ghost use Rattle.pb_proof.specs.engine.line.Pol.{PolState};
    ghost use Rattle.pb_proof.specs.engine.line.PolFields.{pol_state};

    ghost Value = { PolState };

    ghost view = { pol_state };

    ghost invariant = { λ m. m.depth ≤ vec_len m.words };
}

/// The largest value that digits may have: that of an id or, with an expression before it, of a
/// factor.
fn bound(limits: Limits, depth: usize) -> u128
    ensures { result ≡ bound (largest limits) (top_of limits) depth }
{
    let top = limits.top() as u128;
    if depth == 0 || limits.largest() < top {
        return top;
    }
    limits.largest()
}

impl PolWords {
    /// No words. Creating them does not allocate.
    pub fn new(alloc: Global) -> Self
        ensures { result ≡ no_words }
    {
        PolWords::with_memory(Sequence::new(alloc))
    }

    /// No words, with the memory of this list.
    #[inline(always)]
    pub fn with_memory(list: Sequence<PolWord>) -> Self
        requires { list ≡ [] }
        ensures { result ≡ no_words }
    {
        PolWords {
            words: list.into_vec(),
            depth: 0,
            held: Held::Nothing,
        }
    }

    /// A number that may come as a word, and what it may still become.
    #[tactic(auto, using(crate::proofs::lemmas::pol::Moves::number_fits))]
    #[inline(always)]
    fn number_word(&self, limits: Limits, sign: Sign, value: u128) -> (PolWord, Held)
        requires { IsNumber (pol_grammar (largest limits) (top_of limits)) self.now
            (Some (Word.Number sign value)) }
        ensures { with_operand self.now result.0 result.1 ≡
            with_number (largest limits) (top_of limits) self.now sign value }
    {
        let largest = limits.largest();
        let top = limits.top() as u128;
        if matches!(sign, Sign::Minus) {
            return (PolWord::Id(-(value as i64)), Held::Nothing);
        }
        if value <= top {
            return (
                PolWord::Id(value as i64),
                held_number(largest, self.depth, value),
            );
        }
        (PolWord::Multiply(value as i128), Held::Large)
    }

    /// How many expressions are finished after one more word, if it may come.
    #[inline(always)]
    fn depth_after(&self, word: Word) -> Option<usize>
        ensures { (limit top : ℕ) (name : List ℕ) → result ≡
            option_map (λ s. s.depth) ((pol_grammar limit top).next self.now word name) }
    {
        match word {
            Word::Number(_, value) if value > 0 => Some(self.depth + 1),
            Word::Literal(_) if is_free(self.held) => Some(self.depth + 1),
            Word::Mark(mark) => self.depth_after_mark(mark),
            _ => None,
        }
    }

    /// The same for an operator.
    #[inline(always)]
    fn depth_after_mark(&self, mark: u8) -> Option<usize>
        ensures { result ≡ option_map (λ s. s.depth) (with_mark self.now mark) }
    {
        if turns(self.held, mark) {
            return Some(self.depth.saturating_sub(1));
        }
        if !is_free(self.held) {
            return None;
        }
        match mark {
            b'+' if self.depth >= 2 => Some(self.depth - 1),
            b's' if self.depth >= 1 => Some(self.depth),
            _ => None,
        }
    }

    /// Adds an operator that may come.
    #[inline(always)]
    fn add_mark(&mut self, mark: u8) -> Result<(), AllocError>
        requires { IsSome (with_mark self.old mark) }
        ensures ok { OnOk result (Some self.new ≡ with_mark self.old mark) }
        ensures err { OnErr result ((self.new ≡ self.old) × (adds_word (Word.Mark mark) ≡ true)) }
    {
        if turns(self.held, mark) {
            turn_last(&mut self.words, mark);
            self.depth = self.depth.saturating_sub(1);
        } else {
            make_room(&mut self.words)?;
            if mark == b'+' {
                self.words.push_reserved(PolWord::Add);
                self.depth -= 1;
            } else {
                self.words.push_reserved(PolWord::Saturate);
            }
        }
        self.held = Held::Nothing;
        Ok(())
    }
}

impl WordList for PolWords {
    type Event = Sequence<PolWord>;

    ghost use Rattle.pb_proof.specs.engine.line.PolLaws.{Anyhow, pol_lawful, pol_counted};

    ghost grammar = { pol_grammar };

    ghost good = { Anyhow };

    fn number(&self, limits: Limits, sign: Sign) -> Option<u128> {
        if !is_free(self.held) {
            return None;
        }
        match sign {
            Sign::Nothing => Some(bound(limits, self.depth)),
            Sign::Minus => Some(limits.top() as u128),
            Sign::Plus => None,
        }
    }

    fn takes_literal(&self) -> bool {
        is_free(self.held)
    }

    fn capital(&self, _byte: u8) -> Option<Capital> {
        None
    }

    #[inline(always)]
    fn follow(&self, _limits: Limits, word: Option<Word>) -> Option<Follow> {
        let depth = match word {
            None => self.depth,
            Some(word) => self.depth_after(word)?,
        };
        Some(Follow {
            end: depth == 1,
            colon: false,
        })
    }

    #[inline(always)]
    fn add(
        &mut self,
        alloc: Global,
        limits: Limits,
        word: Word,
        name: &mut Name,
    ) -> Result<(), AllocError> {
        match word {
            Word::Number(sign, value) => {
                let (word, held) = self.number_word(limits, sign, value);
                make_room(&mut self.words)?;
                self.words.push_reserved(word);
                self.depth += 1;
                self.held = held;
            }
            Word::Literal(negated) => {
                make_room(&mut self.words)?;
                let name = mem::replace(name, Name::new(alloc));
                self.words
                    .push_reserved(PolWord::Axiom(Literal { name, negated }));
                self.held = held_name(negated, self.depth);
                self.depth += 1;
            }
            Word::Mark(mark) => self.add_mark(mark)?,
            Word::Capital(_) => {}
        }
        Ok(())
    }

    fn add_colon(&mut self, _limits: Limits) {}

    fn finish(&mut self, alloc: Global, _limits: Limits) -> Sequence<PolWord> {
        self.depth = 0;
        self.held = Held::Nothing;
        Sequence::from_vec(mem::replace(&mut self.words, Vec::new(alloc)))
    }

    fn held(&self) -> usize {
        count_units(self.words.as_slice())
    }

    ghost lawful = { λ limit top l t some. pol_lawful limit top some };

    ghost counted = { pol_counted };
}
