//! A form under the values of some literals, outside of questions. No visit is counted.

#![tactic(auto, using(crate::proofs::rulesets::Store::opened))]

ghost use Rattle.std.specs.Prelude.{◌≡◌, ◌≤◌, ◌<◌, ◌^◌, false, List, length, sum_by};
ghost use Rattle.pb_normal.specs.declared.numbered.NumberedLiteral.{NumberedLiteral};
ghost use Rattle.pb_normal.specs.meaning.Rules.{negation};
ghost use Rattle.pb_propagate.specs.engine.engine.Lists.{has, says, open_part, open_sum, AreInside};
ghost use Rattle.pb_propagate.specs.engine.engine.Stored.{stored_terms};

use crate::store::stored_form::StoredForm;
use crate::term::Term;
use pb_normal::NumberedLiteral;

// Whether a literal is falsified.
fn is_falsified(values: &[Option<bool>], literal: NumberedLiteral) -> bool
    requires { literal.variable < length values.now }
    ensures { result ≡ says values.now (negation literal) }
{
    match values[literal.variable] {
        Some(value) => value == literal.negated,
        None => false,
    }
}

// What a term adds to an open sum.
fn part_of(values: &[Option<bool>], term: Term) -> u128
    requires { term.literal.variable < length values.now }
    ensures part { (list : List NumberedLiteral) →
        ((l : NumberedLiteral) → has list l ≡ says values.now l) → result ≡ open_part list term }
    ensures small { result ≤ term.coefficient }
{
    if is_falsified(values, term.literal) {
        return 0;
    }
    term.coefficient
}

/// The open sum of a form under some values.
pub fn open_under(kept: &StoredForm, values: &[Option<bool>]) -> u128
    requires small { sum_by (λ t. t.coefficient) (stored_terms kept.now) < 2 ^ 127 }
    requires inside { AreInside (length values.now) (stored_terms kept.now) }
    ensures { (list : List NumberedLiteral) →
        ((l : NumberedLiteral) → has list l ≡ says values.now l) →
        result ≡ open_sum list (stored_terms kept.now) }
{
    let mut sum = 0;
    'terms: for i in 0..kept.len() {
        sum += part_of(values, kept.term(i));
    }
    sum
}
