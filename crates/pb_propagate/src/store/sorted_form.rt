//! A form with its terms in order of falling coefficient.

ghost use Rattle.std.specs.Prelude.{◌≡◌, ℕ, ◌<◌, ◌^◌, [], true, All, IfOk, length, map, sum_by, slice_index_or, IsPermutation};
ghost use Rattle.pb_propagate.specs.engine.engine.Forms.{entry_of, as_term, picked, in_order, IsPlaced};
ghost use Rattle.pb_propagate.specs.engine.engine.Counts.{AreEven, AreFalling};

use crate::term::{Rank, Term};
use pb_normal::{Entry, Normal, NumberedLiteral, Terms};
use std::alloc::{AllocError, Global};

/// A form, and the positions of its terms in order of falling coefficient. Each term is stored
/// once.
#[derive(Drop)]
pub struct SortedForm {
    form: Normal,
    // Empty if all coefficients are equal: the terms are then in the order of the form.
    order: Vec<usize>,
    pub ghost inside: { All (λ p. p < length form.terms) order.items },
    pub ghost even: { order.items ≡ [] → AreEven (in_order form.terms order.items) },
}

/// An entry as a term.
pub fn term_of(entry: Entry) -> Term
    ensures { result ≡ as_term entry }
{
    Term {
        literal: NumberedLiteral {
            variable: entry.variable,
            negated: entry.negated,
        },
        coefficient: entry.coefficient,
    }
}

// The positions of the terms with their coefficients, in the order of the form.
#[tactic(auto, using(crate::proofs::rulesets::Store::standing))]
fn standing(alloc: Global, entries: &Terms) -> Result<Vec<Rank>, AllocError>
    ensures { IfOk result (λ ranks. All (IsPlaced entries.now) ranks.items ×
        (map entry_of (picked entries.now (map (λ r. r.place) ranks.items)) ≡ entries.now)) }
{
    let mut ranks = Vec::with_capacity(alloc, entries.len())?;
    'entries: for place in 0..entries.len() {
        let entry = entries.get(place);
        ranks.push(Rank {
            place,
            coefficient: entry.coefficient,
        })?;
    }
    Ok(ranks)
}

// The same, in order of falling coefficient.
#[tactic(auto, using(crate::proofs::rulesets::Store::ranked))]
fn ranked(alloc: Global, entries: &Terms) -> Result<Vec<Rank>, AllocError>
    requires { sum_by (λ e. e.coefficient) entries.now < 2 ^ 127 }
    ensures placed { IfOk result (λ ranks. All (IsPlaced entries.now) ranks.items) }
    ensures same { IfOk result (λ ranks.
        IsPermutation (map entry_of (picked entries.now (map (λ r. r.place) ranks.items)))
        entries.now) }
    ensures falling { IfOk result (λ ranks.
        AreFalling (picked entries.now (map (λ r. r.place) ranks.items))) }
{
    let mut ranks = standing(alloc, entries)?;
    ranks.sort_unstable_by_key(|r| u128::MAX - r.coefficient);
    Ok(ranks)
}

// The positions alone.
fn places_of(alloc: Global, ranks: &[Rank]) -> Result<Vec<usize>, AllocError>
    ensures { IfOk result (λ places. places.items ≡ map (λ r. r.place) ranks.now) }
{
    let mut places = Vec::with_capacity(alloc, ranks.len())?;
    'ranks: for i in 0..ranks.len() {
        let rank = ranks[i];
        places.push(rank.place)?;
    }
    Ok(places)
}

// Whether all coefficients are equal.
fn are_equal(entries: &Terms) -> bool
    ensures { result ≡ true → (i j : ℕ) (d : Entry) → i < length entries.now →
        j < length entries.now →
        (slice_index_or entries.now i d).coefficient ≡ (slice_index_or entries.now j
        d).coefficient }
{
    'entries: for i in 1..entries.len() {
        if entries.get(i).coefficient != entries.get(0).coefficient {
            return false;
        }
    }
    true
}

// The positions in order of falling coefficient. If all coefficients are equal, there are none, and
// nothing is allocated.
#[tactic(auto, using(crate::proofs::rulesets::Store::order_of))]
fn order_of(alloc: Global, entries: &Terms) -> Result<Vec<usize>, AllocError>
    requires { sum_by (λ e. e.coefficient) entries.now < 2 ^ 127 }
    ensures inside { IfOk result (λ order. All (λ p. p < length entries.now) order.items) }
    ensures same { IfOk result (λ order.
        IsPermutation (map entry_of (in_order entries.now order.items)) entries.now) }
    ensures falling { IfOk result (λ order. AreFalling (in_order entries.now order.items)) }
    ensures even { IfOk result (λ order.
        order.items ≡ [] → AreEven (in_order entries.now order.items)) }
{
    if are_equal(entries) {
        let none = Vec::new(alloc);
        return Ok(none);
    }
    let ranks = ranked(alloc, entries)?;
    let order = places_of(alloc, ranks.as_slice())?;
    Ok(order)
}

impl SortedForm {
    ghost use Rattle.std.specs.Prelude.{◌≡◌, ◌<◌, [], true, IfOk, length, map, IsPermutation, slice_index_or};
    ghost use Rattle.pb_propagate.specs.declared.term.Term.{Term};
    ghost use Rattle.pb_propagate.specs.engine.engine.Forms.{entry_of, as_term, entry_at_place};
    ghost use Rattle.pb_propagate.specs.engine.engine.Counts.{AreEven, AreFalling};
    ghost use Rattle.pb_propagate.specs.engine.engine.Terms.{terms_of};

    /// A form.
    #[tactic(auto, using(crate::proofs::rulesets::Store::totals))]
    pub fn new(alloc: Global, form: Normal) -> Result<SortedForm, AllocError>
        ensures form { IfOk result (λ f. f.form ≡ form) }
        ensures same { IfOk result (λ f. IsPermutation (map entry_of (terms_of f)) form.terms) }
        ensures falling { IfOk result (λ f. AreFalling (terms_of f)) }
    {
        let order = order_of(alloc, form.terms())?;
        Ok(SortedForm { form, order })
    }

    /// The form.
    pub(super) fn form(&self) -> &Normal
        ensures { result.now ≡ self.now.form }
    {
        &self.form
    }

    /// The form, which is then owned by the caller.
    pub(super) fn into_form(self) -> Normal
        ensures { result ≡ self.form }
    {
        self.form
    }

    /// Whether the terms are in the order of the form. Then all coefficients are equal.
    pub fn is_even(&self) -> bool
        ensures { result ≡ true → AreEven (terms_of self.now) }
    {
        self.order.len() == 0
    }

    /// How many terms there are.
    #[tactic(auto, using(crate::proofs::rulesets::Store::len))]
    pub fn len(&self) -> usize
        ensures { result ≡ length (terms_of self.now) }
    {
        let count = self.order.len();
        if count == 0 {
            return self.form.terms().len();
        }
        count
    }

    // The position in the form of a term of the order.
    #[tactic(auto, using(crate::proofs::rulesets::Store::place_at))]
    fn place_at(&self, index: usize) -> usize
        requires { index < length (terms_of self.now) }
        ensures inside { result < length self.now.form.terms }
        ensures term { (d : Term) → as_term (entry_at_place self.now.form.terms result) ≡
            slice_index_or (terms_of self.now) index d }
    {
        if self.order.len() == 0 {
            return index;
        }
        self.order[index]
    }

    /// The term at a position of the order. Propagation reads it only by `visit_term` and
    /// `weight_of`.
    pub(super) fn term(&self, index: usize) -> Term
        requires { index < length (terms_of self.now) }
        ensures { (d : Term) → result ≡ slice_index_or (terms_of self.now) index d }
    {
        let place = self.place_at(index);
        term_of(self.form.terms().get(place))
    }
}
