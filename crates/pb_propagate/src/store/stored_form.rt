//! What a slot stores.

ghost use Rattle.std.specs.Prelude.{◌≡◌, ◌<◌, ◌≤◌, false, true};

use crate::store::counted_form::CountedForm;
use crate::store::sums::Sums;
use crate::store::unit_form::UnitForm;
use crate::term::Term;
use pb_normal::Normal;

/// A form as the engine stores it. A slot has little memory of its own, as most forms are clauses
/// that are watched.
#[derive(Drop)]
pub enum StoredForm {
    /// No form.
    Vacant,
    /// A form that is propagated by its watches. It has no entries in the occurrence lists.
    Watched(Normal),
    /// A form of one term in the occurrence lists.
    Single(UnitForm),
    /// Another form in the occurrence lists.
    Counted(Box<CountedForm>),
}

impl StoredForm {
    ghost use Rattle.std.specs.Prelude.{◌≡◌, ◌<◌, Some, None, IfSome, IfNone, is_some, length, slice_index_or};
    ghost use Rattle.pb_propagate.specs.declared.term.Term.{Term};
    ghost use Rattle.pb_propagate.specs.engine.engine.Stored.{stored_form, stored_terms, stored_degree, stored_total, stored_bound};

    /// Whether there is a form.
    pub fn has_form(&self) -> bool
        ensures { result ≡ is_some (stored_form self.now) }
    {
        match self {
            StoredForm::Vacant => false,
            StoredForm::Watched(_) => true,
            StoredForm::Single(_) => true,
            StoredForm::Counted(_) => true,
        }
    }

    /// The form, if there is one.
    pub fn form(&self) -> Option<&Normal>
        ensures some { IfSome result (λ f. stored_form self.now ≡ Some f.now) }
        ensures none { IfNone result (stored_form self.now ≡ None) }
    {
        match self {
            StoredForm::Vacant => None,
            StoredForm::Watched(form) => Some(form),
            StoredForm::Single(unit) => Some(unit.form()),
            StoredForm::Counted(kept) => Some(kept.as_ref().terms.form()),
        }
    }

    /// The form, if there is one, which is then owned by the caller.
    pub fn into_form(self) -> Option<Normal>
        ensures { result ≡ stored_form self }
    {
        match self {
            StoredForm::Vacant => None,
            StoredForm::Watched(normal) => Some(normal),
            StoredForm::Single(unit) => Some(unit.into_form()),
            StoredForm::Counted(kept) => Some(Box::into_inner(kept).terms.into_form()),
        }
    }

    /// How many terms are in the occurrence lists.
    pub fn len(&self) -> usize
        ensures { result ≡ length (stored_terms self.now) }
    {
        match self {
            StoredForm::Vacant => 0,
            StoredForm::Watched(_) => 0,
            StoredForm::Single(_) => 1,
            StoredForm::Counted(kept) => kept.as_ref().terms.len(),
        }
    }

    /// The term at a position of the order. Propagation reads it only by `visit_term`.
    pub(super) fn term(&self, index: usize) -> Term
        requires { index < length (stored_terms self.now) }
        ensures { (d : Term) → result ≡ slice_index_or (stored_terms self.now) index d }
    {
        match self {
            StoredForm::Vacant => unreachable!(),
            StoredForm::Watched(_) => unreachable!(),
            StoredForm::Single(unit) => unit.term(),
            StoredForm::Counted(kept) => kept.as_ref().terms.term(index),
        }
    }

    /// The sums of a form in the occurrence lists, else 0.
    #[inline]
    pub fn sums(&self) -> Sums
        ensures degree { result.degree ≡ stored_degree self.now }
        ensures total { result.total ≡ stored_total self.now }
        ensures bound { result.bound ≡ stored_bound self.now }
    {
        match self {
            StoredForm::Vacant => Sums::none(),
            StoredForm::Watched(_) => Sums::none(),
            StoredForm::Single(unit) => unit.sums(),
            StoredForm::Counted(kept) => kept.as_ref().sums(),
        }
    }

    /// The degree of a form in the occurrence lists, else 0.
    #[inline]
    pub fn degree(&self) -> u128
        ensures { result ≡ stored_degree self.now }
    {
        self.sums().degree
    }

    /// The sum of the coefficients in the occurrence lists.
    #[inline]
    pub fn total(&self) -> u128
        ensures { result ≡ stored_total self.now }
    {
        self.sums().total
    }

    /// With an open sum of at least this size a form propagates nothing and is not falsified.
    #[inline]
    pub fn bound(&self) -> u128
        ensures { result ≡ stored_bound self.now }
    {
        self.sums().bound
    }

    /// The coefficient of a term in the occurrence lists. If all are equal, the bound gives it, and
    /// the terms need not be read.
    #[inline]
    pub(super) fn weight(&self, index: usize) -> u128
        requires { index < length (stored_terms self.now) }
        ensures { (d : Term) →
            result ≡ (slice_index_or (stored_terms self.now) index d).coefficient }
    {
        match self {
            StoredForm::Vacant => unreachable!(),
            StoredForm::Watched(_) => unreachable!(),
            StoredForm::Single(unit) => unit.term().coefficient,
            StoredForm::Counted(kept) => kept.as_ref().weight(index),
        }
    }
}

/// Whether an open sum is below a required value.
pub fn is_below(opened: u128, asked: u128) -> bool
    ensures below { result ≡ true → opened < asked }
    ensures above { result ≡ false → asked ≤ opened }
{
    opened < asked
}
