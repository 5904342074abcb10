//! An instance in flat arrays.

ghost use Rattle.std.specs.Prelude.{◌≡◌, ◌∷◌, ◌++◌, [], List, OnOk, length};
ghost use Rattle.pb_sums.specs.declared.Term.{Term as ATerm};
ghost use Rattle.pb_pieces.specs.Flat.{HoldNamed};

use crate::terms::Terms;
use pb_normal::{HashKeys, Names};
use pb_sums::Term;
use pb_text::Sequence;
use std::alloc::{AllocError, Global};

/// Terms with the names that they are numbered by.
#[derive(Drop)]
pub struct Named {
    pub names: Names,
    pub terms: Terms,
}

impl Named {
    /// No terms. It allocates nothing.
    pub(crate) fn new(alloc: Global, keys: HashKeys) -> Named
        ensures { HoldNamed [] result }
    {
        Named {
            names: Names::with_hasher(alloc, keys),
            terms: Terms::new(alloc),
        }
    }

    /// One more term.
    fn push(&mut self, term: &Term) -> Result<(), AllocError>
        ensures { (terms : List ATerm) → HoldNamed terms self.old →
            OnOk result (HoldNamed (terms ++ term.now ∷ []) self.new) }
    {
        let number = self.names.number(term.literal.name.as_str())?;
        self.terms.push(term, number as u64)?;
        Ok(())
    }

    /// More terms.
    pub(crate) fn extend(&mut self, more: &Sequence<Term>) -> Result<(), AllocError>
        ensures { (terms : List ATerm) → HoldNamed terms self.old →
            OnOk result (HoldNamed (terms ++ more.now) self.new) }
    {
        let items = more.as_slice();
        for term in items {
            self.push(term)?;
        }
        Ok(())
    }

    /// The number of terms.
    pub(crate) fn len(&self) -> u64
        ensures { (terms : List ATerm) → HoldNamed terms self.now → result ≡ length terms }
    {
        self.terms.numbers.len() as u64
    }
}
