//! The words after `soli` or `solx`: literals.

ghost use Rattle.std.specs.Prelude.{◌≡◌, []};
ghost use Rattle.pb_proof.specs.engine.line.Solution.{solution_words};

use crate::line::literals::{add_literal, count_units};
use pb_lines::{Capital, Follow, Sign, Word, WordList};
use pb_sums::{Literal, Name};
use pb_text::{Limits, Sequence};
use std::alloc::{AllocError, Global};
use std::mem;

/// The literals so far.
#[derive(Drop)]
pub struct SolutionWords {
    literals: Sequence<Literal>,
}

impl SolutionWords {
    /// No literal. This does not allocate.
    pub fn new(alloc: Global) -> Self
        ensures { result ≡ solution_words [] }
    {
        SolutionWords {
            literals: Sequence::new(alloc),
        }
    }
}

impl WordList for SolutionWords {
    ghost use Rattle.pb_proof.specs.engine.line.Solution.{solution_grammar, AllGood};
    ghost use Rattle.pb_proof.specs.engine.line.SolutionLaws.{solution_lawful, solution_counted};

    type Event = Sequence<Literal>;

    ghost grammar = { solution_grammar };

    ghost good = { AllGood };

    fn number(&self, limits: Limits, sign: Sign) -> Option<u128> {
        None
    }

    fn takes_literal(&self) -> bool {
        true
    }

    fn capital(&self, byte: u8) -> Option<Capital> {
        None
    }

    fn follow(&self, limits: Limits, word: Option<Word>) -> Option<Follow> {
        match word {
            None | Some(Word::Literal(_)) => Some(Follow {
                end: true,
                colon: false,
            }),
            _ => None,
        }
    }

    fn add(
        &mut self,
        alloc: Global,
        limits: Limits,
        word: Word,
        name: &mut Name,
    ) -> Result<(), AllocError> {
        if let Word::Literal(negated) = word {
            add_literal(alloc, &mut self.literals, negated, name)?;
        }
        Ok(())
    }

    fn add_colon(&mut self, limits: Limits) {}

    fn finish(&mut self, alloc: Global, limits: Limits) -> Sequence<Literal> {
        mem::replace(&mut self.literals, Sequence::new(alloc))
    }

    fn held(&self) -> usize {
        count_units(self.literals.as_slice())
    }

    ghost lawful = { solution_lawful };

    ghost counted = { solution_counted };
}
