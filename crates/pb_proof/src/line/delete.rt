//! The words after `del id`: ids.

ghost use Rattle.std.specs.Prelude.{◌≡◌, []};
ghost use Rattle.pb_proof.specs.engine.line.Delete.{delete_words};

use crate::line::ids::{id_of, largest_id};
use pb_lines::{Capital, Follow, Sign, Word, WordList};
use pb_sums::Name;
use pb_text::{Limits, Sequence};
use std::alloc::{AllocError, Global};
use std::mem;

/// The ids so far.
#[derive(Drop)]
pub struct DeleteWords {
    ids: Sequence<i64>,
}

impl DeleteWords {
    /// No id, with an empty list for the ids.
    pub fn new(ids: Sequence<i64>) -> Self
        requires { ids ≡ [] }
        ensures { result ≡ delete_words [] }
    {
        DeleteWords { ids }
    }
}

impl WordList for DeleteWords {
    ghost use Rattle.pb_proof.specs.engine.line.Delete.{delete_grammar, AllGood};
    ghost use Rattle.pb_proof.specs.engine.line.DeleteLaws.{delete_lawful, delete_counted};

    type Event = Sequence<i64>;

    ghost grammar = { delete_grammar };

    ghost good = { AllGood };

    fn number(&self, limits: Limits, sign: Sign) -> Option<u128> {
        largest_id(limits, sign)
    }

    fn takes_literal(&self) -> bool {
        false
    }

    fn capital(&self, byte: u8) -> Option<Capital> {
        None
    }

    fn follow(&self, limits: Limits, word: Option<Word>) -> Option<Follow> {
        let _ = limits.top();
        let end = match word {
            None => !self.ids.is_empty(),
            Some(word) => {
                let _ = id_of(word)?;
                true
            }
        };
        Some(Follow { end, colon: false })
    }

    fn add(
        &mut self,
        alloc: Global,
        limits: Limits,
        word: Word,
        name: &mut Name,
    ) -> Result<(), AllocError> {
        let _ = limits.top();
        if let Some(id) = id_of(word) {
            self.ids.push(id)?;
        }
        Ok(())
    }

    fn add_colon(&mut self, limits: Limits) {}

    fn finish(&mut self, alloc: Global, limits: Limits) -> Sequence<i64> {
        mem::replace(&mut self.ids, Sequence::new(alloc))
    }

    fn held(&self) -> usize {
        self.ids.len()
    }

    ghost lawful = { delete_lawful };

    ghost counted = { delete_counted };
}
