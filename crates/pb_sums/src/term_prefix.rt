//! Parts of a term at the start of a text.

ghost use Rattle.std.specs.Prelude.{◌≡◌, ◌≢◌, ◌≤◌, ◌<◌, ◌^◌, IfSome, None, true, get_or, length, take};
ghost use Rattle.pb_sums.specs.engine.Prefix.{LacksLiteral, LacksNumber, begins_number, sign_read};
ghost use Rattle.pb_sums.specs.engine.TermParts.{begins_term, IsTilde, IsSpacedNumber, IsSpacedLiteral};

use crate::linear::Literal;
use crate::name::Name;
use crate::phase::Phase;
use crate::prefix::{name_prefix, sign_prefix};
use crate::short::SHORT;
use crate::transition::sign_read;
use pb_text::bytes::is_letter;
use pb_text::decimal::signed;
use pb_text::digits::number_prefix;
use std::alloc::Global;

/// Whether a term may begin, or the digits of its coefficient.
#[inline(always)]
pub fn begins_term(phase: Phase) -> bool
    ensures { result ≡ begins_term phase }
{
    match phase {
        Phase::Start | Phase::Signed(None, _) | Phase::Between => true,
        _ => false,
    }
}

/// The length of the `~` at the start of the text, and whether there is one.
#[inline(always)]
pub fn tilde_prefix(text: &[u8]) -> (usize, bool)
    ensures bound { result.0 ≤ length text.now }
    ensures tilde { IsTilde result.1 (take result.0 text.now) }
    ensures one { result.0 ≤ 1 }
    ensures none { result.0 ≡ 0 → 0 < length text.now → get_or text.now 0 0 ≢ 126 }
    ensures some { result.0 ≡ 1 → get_or text.now 0 0 ≡ 126 }
{
    if text.is_empty() {
        return (0, false);
    }
    match text[0] {
        b'~' => (1, true),
        _ => (0, false),
    }
}

/// A number and a space after it at the start of the text, and their length, if they are fast to
/// read.
#[inline(always)]
#[tactic(auto, using(crate::proofs::Rulesets::terms))]
pub fn spaced_number_prefix(limit: u128, phase: Phase, text: &[u8]) -> Option<(usize, i128)>
    requires room { limit < 2 ^ 127 }
    requires begins { begins_number phase ≡ true }
    ensures bound { IfSome result (λ r. (0 < r.0) × (r.0 ≤ length text.now)) }
    ensures runs { IfSome result (λ r. IsSpacedNumber limit phase (take r.0 text.now) r.1) }
    ensures none { result ≡ None → LacksNumber limit (sign_read phase) text.now }
{
    let (sign, negative) = sign_prefix(sign_read(phase), text);
    let (count, value) = number_prefix(&text[sign..]);
    let magnitude = value as u128;
    if count == 0 || magnitude > limit {
        return None;
    }
    let end = sign + count;
    if end >= text.len() || text[end] != b' ' {
        return None;
    }
    Some((end + 1, signed(negative, magnitude)))
}

/// A literal and a space after it at the start of the text, and their length, if they are fast to
/// read. It does not allocate.
#[inline(always)]
pub fn spaced_literal_prefix(alloc: Global, text: &[u8]) -> Option<(usize, Literal)>
    ensures bound { IfSome result (λ r. r.0 ≤ length text.now) }
    ensures runs { IfSome result (λ r. IsSpacedLiteral (take r.0 text.now) r.1) }
    ensures none { result ≡ None → LacksLiteral text.now }
{
    let (tilde, negated) = tilde_prefix(text);
    let rest = &text[tilde..];
    let length = name_prefix(rest);
    if length < 2 || length > SHORT || !is_letter(rest[0]) {
        return None;
    }
    let end = tilde + length;
    if end >= text.len() || text[end] != b' ' {
        return None;
    }
    let name = Name::short_prefix(alloc, rest, length);
    Some((end + 1, Literal { negated, name }))
}
