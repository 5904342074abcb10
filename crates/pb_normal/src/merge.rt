//! The sum of two lists of terms.

ghost use Rattle.std.specs.Prelude.{◌≡◌, ◌+◌, ◌<◌, ◌≤◌, ◌^◌, [], ◌∷◌, IfOk, IfSome};
ghost use Rattle.std.specs.Option.{option_to_list};
ghost use Rattle.pb_normal.specs.engine.Adds.{Adds, Cancels};
ghost use Rattle.pb_normal.specs.meaning.Form.{total, each, IsRising};
ghost use Rattle.pb_normal.specs.meaning.Rules.{with_coefficient};

use crate::entry::Entry;
use crate::terms::Terms;
use crate::terms::listed::Listed;
use crate::terms::reading::Reading;
use std::alloc::AllocError;

// The sum of two terms of one variable, and how much of each cancels.
pub(crate) fn combined(left: Entry, right: Entry) -> (Option<Entry>, u128)
    requires same_variable { left.variable ≡ right.variable }
    requires left_positive { 0 < left.coefficient }
    requires fits { left.coefficient + right.coefficient < 2 ^ 128 }
    ensures adds { Adds (left ∷ []) (right ∷ []) (option_to_list result.0) result.1 }
    ensures entry { IfSome result.0 (λ t. (t.variable ≡ left.variable) × (0 < t.coefficient)) }
    ensures most { result.1 ≤ right.coefficient }
{
    if left.negated == right.negated {
        let sum = with_coefficient(left, left.coefficient + right.coefficient);
        return (Some(sum), 0);
    }
    if left.coefficient > right.coefficient {
        let rest = with_coefficient(left, left.coefficient - right.coefficient);
        return (Some(rest), right.coefficient);
    }
    if left.coefficient < right.coefficient {
        let rest = with_coefficient(right, right.coefficient - left.coefficient);
        return (Some(rest), left.coefficient);
    }
    (None, left.coefficient)
}

// The same term with another coefficient.
fn with_coefficient(term: Entry, coefficient: u128) -> Entry
    ensures { result ≡ with_coefficient term coefficient }
{
    Entry {
        coefficient,
        ..term
    }
}

// The sum of two lists whose variables rise, and how much of each list cancels. It is put into an
// empty list.
pub(crate) fn merged(
    empty: Vec<Entry>,
    left: &Terms,
    right: &Terms,
) -> Result<(Vec<Entry>, u128), AllocError>
    requires empty { empty.items ≡ [] }
    requires left_rising { IsRising 0 left.now }
    requires right_rising { IsRising 0 right.now }
    requires left_size { total each left.now < 2 ^ 127 }
    requires right_size { total each right.now < 2 ^ 127 }
    ensures rising { IfOk result (λ r. IsRising 0 r.0.items) }
    ensures adds { IfOk result (λ r. Adds left.now right.now r.0.items r.1) }
{
    match left.reading() {
        Reading::Codes(codes) => merged_with(empty, &codes, right),
        Reading::Narrow(terms) => merged_with(empty, &terms, right),
        Reading::Wide(terms) => merged_with(empty, &terms, right),
    }
}

// The same where it is known how the left list is stored.
fn merged_with<L: Listed>(
    empty: Vec<Entry>,
    left: &L,
    right: &Terms,
) -> Result<(Vec<Entry>, u128), AllocError>
    requires empty { empty.items ≡ [] }
    requires left_rising { IsRising 0 (L.entries left.now) }
    requires right_rising { IsRising 0 right.now }
    requires left_size { total each (L.entries left.now) < 2 ^ 127 }
    requires right_size { total each right.now < 2 ^ 127 }
    ensures rising { IfOk result (λ r. IsRising 0 r.0.items) }
    ensures adds { IfOk result (λ r. Adds (L.entries left.now) right.now r.0.items r.1) }
{
    match right.reading() {
        Reading::Codes(codes) => merged_lists(empty, left, &codes),
        Reading::Narrow(terms) => merged_lists(empty, left, &terms),
        Reading::Wide(terms) => merged_lists(empty, left, &terms),
    }
}

// The same where it is known how both lists are stored.
fn merged_lists<L: Listed, R: Listed>(
    empty: Vec<Entry>,
    left: &L,
    right: &R,
) -> Result<(Vec<Entry>, u128), AllocError>
    requires empty { empty.items ≡ [] }
    requires left_rising { IsRising 0 (L.entries left.now) }
    requires right_rising { IsRising 0 (R.entries right.now) }
    requires left_size { total each (L.entries left.now) < 2 ^ 127 }
    requires right_size { total each (R.entries right.now) < 2 ^ 127 }
    ensures rising { IfOk result (λ r. IsRising 0 r.0.items) }
    ensures adds { IfOk result (λ r.
        Adds (L.entries left.now) (R.entries right.now) r.0.items r.1) }
{
    let mut out = empty;
    out.reserve(left.count().saturating_add(right.count()))?;
    let mut cancelled = 0;
    let mut i = 0;
    let mut j = 0;
    'merge: while i < left.count() && j < right.count() {
        let x = left.at(i);
        let y = right.at(j);
        if x.variable < y.variable {
            out.push(x)?;
            i += 1;
        } else if y.variable < x.variable {
            out.push(y)?;
            j += 1;
        } else {
            let (sum, gone) = combined(x, y);
            if let Some(t) = sum {
                out.push(t)?;
            }
            cancelled += gone;
            i += 1;
            j += 1;
        }
    }
    left.append_rest(i, &mut out)?;
    right.append_rest(j, &mut out)?;
    Ok((out, cancelled))
}

// How much of each list cancels in the sum of two lists whose variables rise.
pub(crate) fn cancelled(left: &Terms, right: &Terms) -> u128
    requires left_rising { IsRising 0 left.now }
    requires right_rising { IsRising 0 right.now }
    requires left_size { total each left.now < 2 ^ 127 }
    requires right_size { total each right.now < 2 ^ 127 }
    ensures { Cancels left.now right.now result }
{
    match left.reading() {
        Reading::Codes(codes) => cancelled_with(&codes, right),
        Reading::Narrow(terms) => cancelled_with(&terms, right),
        Reading::Wide(terms) => cancelled_with(&terms, right),
    }
}

// The same where it is known how the left list is stored.
fn cancelled_with<L: Listed>(left: &L, right: &Terms) -> u128
    requires left_rising { IsRising 0 (L.entries left.now) }
    requires right_rising { IsRising 0 right.now }
    requires left_size { total each (L.entries left.now) < 2 ^ 127 }
    requires right_size { total each right.now < 2 ^ 127 }
    ensures { Cancels (L.entries left.now) right.now result }
{
    match right.reading() {
        Reading::Codes(codes) => cancelled_in_lists(left, &codes),
        Reading::Narrow(terms) => cancelled_in_lists(left, &terms),
        Reading::Wide(terms) => cancelled_in_lists(left, &terms),
    }
}

// The same where it is known how both lists are stored.
fn cancelled_in_lists<L: Listed, R: Listed>(left: &L, right: &R) -> u128
    requires left_rising { IsRising 0 (L.entries left.now) }
    requires right_rising { IsRising 0 (R.entries right.now) }
    requires left_size { total each (L.entries left.now) < 2 ^ 127 }
    requires right_size { total each (R.entries right.now) < 2 ^ 127 }
    ensures { Cancels (L.entries left.now) (R.entries right.now) result }
{
    let mut cancelled = 0;
    let mut i = 0;
    let mut j = 0;
    'merge: while i < left.count() && j < right.count() {
        let l = left.at(i);
        let r = right.at(j);
        if l.variable < r.variable {
            i += 1;
        } else if r.variable < l.variable {
            j += 1;
        } else {
            let (_, gone) = combined(l, r);
            cancelled += gone;
            i += 1;
            j += 1;
        }
    }
    cancelled
}
