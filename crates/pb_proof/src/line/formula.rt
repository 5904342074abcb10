//! The words after `f`: a number, or none.

ghost use Rattle.std.specs.Prelude.{◌≡◌, None};
ghost use Rattle.pb_proof.specs.engine.line.Formula.{formula_words};

use pb_lines::{Capital, Follow, Sign, Word, WordList};
use pb_sums::Name;
use pb_text::Limits;
use std::alloc::{AllocError, Global};
use std::mem;

/// The number so far.
#[derive(Drop)]
pub struct FormulaWords {
    count: Option<u64>,
}

impl FormulaWords {
    /// No number.
    pub fn new() -> Self
        ensures { result ≡ formula_words None }
    {
        FormulaWords { count: None }
    }
}

impl WordList for FormulaWords {
    ghost use Rattle.pb_proof.specs.engine.line.Formula.{formula_grammar, AllGood};
    ghost use Rattle.pb_proof.specs.engine.line.FormulaLaws.{formula_lawful, formula_counted};

    type Event = Option<u64>;

    ghost grammar = { formula_grammar };

    ghost good = { AllGood };

    fn number(&self, limits: Limits, sign: Sign) -> Option<u128> {
        match (self.count, sign) {
            (None, Sign::Nothing) => Some(limits.top() as u128),
            _ => None,
        }
    }

    fn takes_literal(&self) -> bool {
        false
    }

    fn capital(&self, byte: u8) -> Option<Capital> {
        None
    }

    fn follow(&self, limits: Limits, word: Option<Word>) -> Option<Follow> {
        match (self.count, word) {
            (_, None) | (None, Some(Word::Number(Sign::Nothing, _))) => Some(Follow {
                end: true,
                colon: false,
            }),
            _ => None,
        }
    }

    fn add(
        &mut self,
        alloc: Global,
        limits: Limits,
        word: Word,
        name: &mut Name,
    ) -> Result<(), AllocError> {
        let _ = limits.top();
        if let Word::Number(_, number) = word {
            self.count = Some(number as u64);
        }
        Ok(())
    }

    fn add_colon(&mut self, limits: Limits) {}

    fn finish(&mut self, alloc: Global, limits: Limits) -> Option<u64> {
        mem::replace(&mut self.count, None)
    }

    fn held(&self) -> usize {
        0
    }

    ghost lawful = { formula_lawful };

    ghost counted = { formula_counted };
}
