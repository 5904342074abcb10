//! Whole linear texts at the start of a text.

ghost use Rattle.std.specs.Prelude.{◌≡◌, ◌≤◌, ◌<◌, ◌^◌, IfSome, true, get_or, length, take};
ghost use Rattle.pb_text.specs.meaning.Limits.{largest};
ghost use Rattle.pb_sums.specs.engine.TermParts.{begins_term, IsSpacedTerm, AreSpacedTerms, IsDegree, LeadsToDegree, LeadsToLinear};

use crate::capacity::capacity_for;
use crate::linear::{Linear, Relation, Term};
use crate::phase::Phase;
use crate::prefix::{relation_prefix, sign_prefix};
use crate::sum_kind::Part;
use crate::term_prefix::{spaced_literal_prefix, spaced_number_prefix};
use pb_text::decimal::signed;
use pb_text::digits::number_prefix;
use pb_text::{Limits, Sequence, Spare};
use std::alloc::Global;

/// A linear text at the start of a text, and the index of its `;`, if it is fast to read and memory
/// suffices: it has a term, and one space after each coefficient, literal and relation. Before its
/// `;` there is at most one. Its terms take the spare memory.
pub fn linear_at(
    alloc: Global,
    limits: Limits,
    part: Part,
    text: &[u8],
    spare: &mut Spare<Term>,
) -> Option<(usize, Linear)>
    ensures inside { IfSome result (λ r. r.0 < length text.now) }
    ensures semicolon { IfSome result (λ r. get_or text.now r.0 0 ≡ 59) }
    ensures runs { IfSome result (λ r. LeadsToLinear (largest limits) part
        (take r.0 text.now) r.1) }
{
    let limit = limits.largest();
    let Some(capacity) = capacity_for(text) else {
        return None;
    };
    let Ok(mut terms) = spare.list(capacity) else {
        return None;
    };
    let mut phase = Phase::Start;
    let mut head: usize = 0;
    while let Some((length, term)) = term_at(alloc, limit, phase, &text[head..]) {
        if terms.push(term).is_err() {
            return None;
        }
        phase = Phase::Between;
        head += length;
    }
    let Phase::Between = phase else {
        return None;
    };
    let Some((tail, relation, degree)) = degree_at(limit, part, &text[head..]) else {
        return None;
    };
    let last = head + tail;
    if last >= text.len() || text[last] != b';' {
        return None;
    }
    let linear = Linear {
        terms,
        relation,
        degree,
    };
    Some((last, linear))
}

/// A term and a space after it at the start of a text, and their length, if they are fast to read.
#[inline(always)]
#[tactic(auto, using(crate::proofs::Rulesets::terms))]
fn term_at(alloc: Global, limit: u128, phase: Phase, text: &[u8]) -> Option<(usize, Term)>
    requires room { limit < 2 ^ 127 }
    requires begins { begins_term phase ≡ true }
    ensures bound { IfSome result (λ r. (0 < r.0) × (r.0 ≤ length text.now)) }
    ensures runs { IfSome result (λ r. IsSpacedTerm limit phase (take r.0 text.now) r.1) }
{
    let Some((number, coefficient)) = spaced_number_prefix(limit, phase, text) else {
        return None;
    };
    let Some((length, literal)) = spaced_literal_prefix(alloc, &text[number..]) else {
        return None;
    };
    Some((
        number + length,
        Term {
            coefficient,
            literal,
        },
    ))
}

/// A relation, a space and a degree at the start of a text, with a space after them if there is
/// one, and their length.
#[inline(always)]
fn degree_at(limit: u128, part: Part, text: &[u8]) -> Option<(usize, Relation, i128)>
    requires room { limit < 2 ^ 127 }
    ensures bound { IfSome result (λ r. r.0 ≤ length text.now) }
    ensures runs { IfSome result (λ r. LeadsToDegree limit part (take r.0 text.now) r.1 r.2) }
{
    let Some((length, relation)) = relation_prefix(part, text) else {
        return None;
    };
    if length >= text.len() || text[length] != b' ' {
        return None;
    }
    let start = length + 1;
    let Some((count, degree)) = degree_prefix(limit, relation, &text[start..]) else {
        return None;
    };
    let end = start + count;
    if end < text.len() && text[end] == b' ' {
        return Some((end + 1, relation, degree));
    }
    Some((end, relation, degree))
}

/// A degree after this relation and a space, at the start of a text, and its length, if it is fast
/// to read.
#[inline(always)]
fn degree_prefix(limit: u128, relation: Relation, text: &[u8]) -> Option<(usize, i128)>
    requires room { limit < 2 ^ 127 }
    ensures bound { IfSome result (λ r. r.0 ≤ length text.now) }
    ensures runs { IfSome result (λ r. IsDegree limit relation (take r.0 text.now) r.1) }
{
    let (sign, negative) = sign_prefix(None, text);
    let (count, value) = number_prefix(&text[sign..]);
    let magnitude = value as u128;
    if count == 0 || magnitude > limit {
        return None;
    }
    Some((sign + count, signed(negative, magnitude)))
}
