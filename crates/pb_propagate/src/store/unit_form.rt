//! A form of one term in the occurrence lists.

#![tactic(auto, using(crate::proofs::rulesets::Store::unit_form))]

ghost use Rattle.std.specs.Prelude.{◌≡◌, ◌<◌, ◌^◌, length};
ghost use Rattle.pb_normal.specs.meaning.Form.{size};

use crate::store::sorted_form::term_of;
use crate::store::sums::Sums;
use crate::term::Term;
use pb_normal::Normal;

/// A form of one term. Nothing is stored beside it: there is nothing to sort, and its sums are read
/// from it.
#[derive(Drop)]
pub struct UnitForm {
    form: Normal,
    pub ghost small: { size form < 2 ^ 127 },
    pub ghost low: { form.degree < 2 ^ 127 },
    pub ghost single: { length form.terms ≡ 1 },
}

impl UnitForm {
    ghost use Rattle.std.specs.Prelude.{◌≡◌, ◌+◌, length, slice_index_or, sum_by};
    ghost use Rattle.pb_normal.specs.meaning.Form.{IsNormal};
    ghost use Rattle.pb_propagate.specs.declared.term.Term.{Term};
    ghost use Rattle.pb_propagate.specs.engine.engine.Terms.{unit_terms};

    /// A form with one term.
    pub fn of(form: Normal) -> UnitForm
        requires normal { IsNormal form }
        requires single { length form.terms ≡ 1 }
        ensures { result.form ≡ form }
    {
        UnitForm { form }
    }

    /// The form.
    pub(super) fn form(&self) -> &Normal
        ensures { result.now ≡ self.now.form }
    {
        &self.form
    }

    /// The form, which is then owned by the caller.
    pub(super) fn into_form(self) -> Normal
        ensures { result ≡ self.form }
    {
        self.form
    }

    /// Its term.
    pub(super) fn term(&self) -> Term
        ensures { (d : Term) → result ≡ slice_index_or (unit_terms self.now) 0 d }
    {
        term_of(self.form.terms().get(0))
    }

    // The degree.
    fn degree(&self) -> u128
        ensures { result ≡ self.now.form.degree }
    {
        self.form.degree().unsigned_abs()
    }

    // The coefficient.
    fn total(&self) -> u128
        ensures { result ≡ sum_by (λ t. t.coefficient) (unit_terms self.now) }
    {
        self.form.size()
    }

    /// Its sums.
    pub fn sums(&self) -> Sums
        ensures degree { result.degree ≡ self.now.form.degree }
        ensures total { result.total ≡ sum_by (λ t. t.coefficient) (unit_terms self.now) }
        ensures bound { result.bound ≡ result.degree + result.total }
    {
        let degree = self.degree();
        let total = self.total();
        let bound = degree + total;
        Sums {
            degree,
            total,
            bound,
        }
    }
}
