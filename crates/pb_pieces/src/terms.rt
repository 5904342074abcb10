//! The terms of an instance in arrays, one after another.

ghost use Rattle.std.specs.Prelude.{◌≡◌, ◌∷◌, ◌++◌, [], List, ℕ, OnOk, length};
ghost use Rattle.pb_sums.specs.declared.Term.{Term as ATerm};
ghost use Rattle.pb_pieces.specs.Terms.{HoldTerms, bit};

use crate::words::split;
use pb_sums::Term;
use std::alloc::{AllocError, Global};

/// The terms of an instance, in arrays of one length.
#[derive(Drop)]
pub struct Terms {
    /// The number of each term's name, by the first appearance of the names.
    pub numbers: Vec<u64>,
    /// 1 for a negated name, and 0 otherwise.
    pub negated: Vec<u8>,
    /// The low words of the coefficients.
    pub lows: Vec<u64>,
    /// The high words of the coefficients.
    pub highs: Vec<i64>,
}

impl Terms {
    /// No terms. It allocates nothing.
    pub(crate) fn new(alloc: Global) -> Terms
        ensures { HoldTerms [] [] result }
    {
        Terms {
            numbers: Vec::new(alloc),
            negated: Vec::new(alloc),
            lows: Vec::new(alloc),
            highs: Vec::new(alloc),
        }
    }

    /// One more term, whose name has the number.
    pub(crate) fn push(&mut self, term: &Term, number: u64) -> Result<(), AllocError>
        ensures { (terms : List ATerm) (numbers : List ℕ) → HoldTerms terms numbers self.old
            → OnOk result (HoldTerms (terms ++ term.now ∷ []) (numbers ++ number ∷ []) self.new) }
    {
        let (low, high) = split(term.coefficient);
        self.numbers.push(number)?;
        self.negated.push(bit(term.literal.negated))?;
        self.lows.push(low)?;
        self.highs.push(high)?;
        Ok(())
    }
}

/// 1 or 0.
fn bit(value: bool) -> u8
    ensures { result ≡ bit value }
{
    if value { 1 } else { 0 }
}
