//! Sums of the coefficients of chosen literals.

ghost use Rattle.std.specs.Prelude.{◌≡◌, ℕ, Bool, ◌<◌, ◌^◌, All, length};
ghost use Rattle.pb_normal.specs.declared.entry.Entry.{Entry};
ghost use Rattle.pb_normal.specs.meaning.Form.{counted, each, total, true_at};
ghost use Rattle.pb_normal.specs.meaning.Rules.{assignment, of_variable};

use crate::entry::Entry;
use crate::terms::Terms;
use crate::terms::listed::Listed;
use crate::terms::reading::Reading;

/// Which literals count. Code over it is compiled for each choice.
pub(crate) trait Choice {
    /// Whether a literal counts.
    ghost chosen: { Self → ℕ → Bool → Bool };

    /// The terms of which it can tell.
    ghost covers: { Self → Entry → Type 0 };

    /// The coefficient of a term if its literal counts, and 0 otherwise.
    fn counted(&self, term: Entry) -> u128
        requires { covers self.now term }
        ensures { result ≡ counted (chosen self.now) term };
}

/// All literals.
#[derive(Clone, Copy)]
pub(crate) struct Each {}

impl Choice for Each {
    ghost chosen = { λ _. each };

    ghost covers = { λ _ _. Unit {0} };

    #[inline]
    fn counted(&self, term: Entry) -> u128 {
        term.coefficient
    }
}

/// A variable and its negation.
#[derive(Clone, Copy)]
pub(crate) struct OnVariable {
    pub(crate) variable: usize,
}

impl Choice for OnVariable {
    ghost chosen = { λ c. of_variable c.variable };

    ghost covers = { λ _ _. Unit {0} };

    #[inline]
    fn counted(&self, term: Entry) -> u128 {
        if term.variable == self.variable {
            term.coefficient
        } else {
            0
        }
    }
}

/// The literals that are true at these values, one for each variable.
#[derive(Clone, Copy)]
pub(crate) struct TrueAt<'a> {
    pub(crate) values: &'a [bool],
}

impl<'a> Choice for TrueAt<'a> {
    ghost chosen = { λ c. true_at (assignment c.values.now) };

    ghost covers = { λ c t. t.variable < length c.values.now };

    #[inline]
    fn counted(&self, term: Entry) -> u128 {
        if self.values[term.variable] != term.negated {
            term.coefficient
        } else {
            0
        }
    }
}

/// The sum of the coefficients that count.
pub(crate) fn total_of<C: Choice>(terms: &Terms, choice: &C) -> u128
    requires covered { All (C.covers choice.now) terms.now }
    requires small { total each terms.now < 2 ^ 128 }
    ensures { result ≡ total (C.chosen choice.now) terms.now }
{
    match terms.reading() {
        Reading::Codes(codes) => total_in(&codes, choice),
        Reading::Narrow(terms) => total_in(&terms, choice),
        Reading::Wide(terms) => total_in(&terms, choice),
    }
}

// The same where it is known how the terms are stored.
#[tactic(auto, using(crate::proofs::Rulesets::total_in))]
fn total_in<L: Listed, C: Choice>(terms: &L, choice: &C) -> u128
    requires covered { All (C.covers choice.now) (L.entries terms.now) }
    requires small { total each (L.entries terms.now) < 2 ^ 128 }
    ensures { result ≡ total (C.chosen choice.now) (L.entries terms.now) }
{
    let mut sum = 0;
    'terms: for i in 0..terms.count() {
        let t = terms.at(i);
        sum += choice.counted(t);
    }
    sum
}
