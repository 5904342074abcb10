//! A form in the occurrence lists.

ghost use Rattle.std.specs.Prelude.{◌≡◌, ℕ, ◌+◌, ◌<◌, ◌≤◌, ◌^◌, length, sum_by, slice_index_or};
ghost use Rattle.pb_propagate.specs.declared.term.Term.{Term};
ghost use Rattle.pb_propagate.specs.engine.engine.Counts.{AreFalling, IsCalm};
ghost use Rattle.pb_propagate.specs.engine.engine.Terms.{terms_of};

use crate::store::sorted_form::SortedForm;
use crate::store::sums::Sums;

/// A form in the occurrence lists, with the sums that propagation reads.
#[derive(Drop)]
pub struct CountedForm {
    pub terms: SortedForm,
    pub degree: u128,
    pub total: u128,
    // The degree plus the largest coefficient. With an open sum of at least this size the form
    // propagates nothing and is not falsified.
    pub bound: u128,
    pub ghost falling: { AreFalling (terms_of terms) },
    pub ghost sum: { total ≡ sum_by (λ t. t.coefficient) (terms_of terms) },
    pub ghost small: { sum_by (λ t. t.coefficient) (terms_of terms) < 2 ^ 127 },
    pub ghost low: { degree < 2 ^ 127 },
    pub ghost idle: { (opened c : ℕ) → bound ≤ opened →
        IsCalm record { terms = terms_of terms; degree = degree } opened c },
    pub ghost first: { (d : Term) → 0 < length (terms_of terms) →
        bound ≡ degree + (slice_index_or (terms_of terms) 0 d).coefficient },
}

impl CountedForm {
    /// Its sums.
    #[inline]
    pub fn sums(&self) -> Sums
        ensures degree { result.degree ≡ self.now.degree }
        ensures total { result.total ≡ self.now.total }
        ensures bound { result.bound ≡ self.now.bound }
    {
        Sums {
            degree: self.degree,
            total: self.total,
            bound: self.bound,
        }
    }

    /// The coefficient of a term. If all are equal, the bound gives it.
    #[inline]
    pub(super) fn weight(&self, index: usize) -> u128
        requires { index < length (terms_of self.now.terms) }
        ensures { (d : Term) →
            result ≡ (slice_index_or (terms_of self.now.terms) index d).coefficient }
    {
        if self.terms.is_even() {
            return self.bound - self.degree;
        }
        self.terms.term(index).coefficient
    }
}
