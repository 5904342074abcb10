//! The normal form of a written constraint.

ghost use Rattle.std.specs.Prelude.{◌≡◌, ◌+◌, ◌<◌, ◌≤◌, ◌^◌, ◌↔◌, ◌+ℤ◌, pos, IfOk, OnOk, OnErr, IsTrue, length, map, [], Err};
ghost use Rattle.std.specs.Int.RustNames.{unsigned_abs};
ghost use Rattle.pb_text.specs.meaning.Limits.{largest};
ghost use Rattle.pb_normal.specs.meaning.Constraints.{Fits};
ghost use Rattle.pb_normal.specs.meaning.Form.{IsNormal, IsRising, IsWithin};
ghost use Rattle.pb_normal.specs.meaning.Names.{AreDistinct, with_names, AfterPrefix, HasNames};
ghost use Rattle.pb_normal.specs.engine.Adds.{Adds};
ghost use Rattle.pb_normal.specs.engine.Raw.{entry_of, raw_of, shift};
ghost use Rattle.pb_normal.specs.meaning.Written.{names_of, magnitude, side_terms, side_number, IsSideOf, SameSolutions};

use crate::collect::collected;
use crate::entry::Entry;
use crate::fault::NormalFault;
use crate::form::Normal;
use crate::names::{NOTHING, Names};
use crate::side::Side;
use crate::terms::Terms;
use crate::terms::few_codes::FEW;
use pb_sums::{Linear, Term};
use pb_text::Limits;
use std::alloc::{AllocError, Global};

impl Normal {
    /// The normal form of one side of a constraint, over the numbers of its names, whatever its
    /// relation.
    ///
    /// `Overflow` comes if and only if the magnitudes of all coefficients and of the degree add up
    /// to more than the limit. It leaves the names as they are. After `Memory` a prefix of the list
    /// of names has appeared.
    #[inline(always)]
    pub fn from_linear(
        alloc: Global,
        names: &mut Names,
        linear: &Linear,
        side: Side,
        limits: Limits,
    ) -> Result<Normal, NormalFault>
        ensures form { IfOk result (λ r. IsSideOf names.new side linear.now r) }
        ensures normal { IfOk result (λ r. IsNormal r) }
        ensures within { IfOk result (λ r. IsWithin (largest limits) r) }
        ensures same { IfOk result (λ r. SameSolutions names.new side linear.now r) }
        ensures overflow { (result ≡ Err NormalFault.Overflow) ↔ (largest limits < magnitude
            linear.now.terms + unsigned_abs linear.now.degree) }
        ensures names { OnOk result (names.new ≡ with_names names.old (names_of linear.now.terms)) }
        ensures named { OnOk result (HasNames names.new (names_of linear.now.terms)) }
        ensures unchanged { result ≡ Err NormalFault.Overflow → names.new ≡ names.old }
        ensures err { OnErr result (AfterPrefix names.old (names_of linear.now.terms) names.new) }
        ensures distinct { AreDistinct names.new }
    {
        names.report_distinct();
        let terms = linear.terms.as_slice();
        if !is_within(terms, linear.degree, limits.largest()) {
            return Err(NormalFault::Overflow);
        }
        let (collected_terms, gone) = side_terms(alloc, names, terms, side)?;
        let (up, down) = split(signed(linear.degree, side));
        let degree = (up + shift_of(terms, side)).saturating_sub(down + gone);
        let form = Normal::of(collected_terms, degree)?;
        Ok(form)
    }
}

/// Whether a constraint fits: the magnitudes of all coefficients and of the degree add up to at
/// most the limit. It allocates nothing. The forms of both sides overflow if and only if the
/// constraint does not fit.
pub fn fits(linear: &Linear, limits: Limits) -> bool
    ensures { IsTrue result ↔ Fits (largest limits) linear.now }
{
    is_within(linear.terms.as_slice(), linear.degree, limits.largest())
}

/// Whether the magnitudes of all coefficients add up to at most the limit, as those of an objective
/// must. It allocates nothing.
pub fn terms_fit(terms: &[Term], limits: Limits) -> bool
    ensures { IsTrue result ↔ (magnitude terms.now ≤ largest limits) }
{
    is_within(terms, 0, limits.largest())
}

// Whether the magnitudes of all coefficients and of the degree add up to at most the limit.
fn is_within(terms: &[Term], degree: i128, limit: u128) -> bool
    requires { limit < 2 ^ 127 }
    ensures { IsTrue result ↔ (magnitude terms.now + unsigned_abs degree ≤ limit) }
{
    let mut sum = degree.unsigned_abs();
    for t in terms {
        if sum > limit {
            return false;
        }
        sum += t.coefficient.unsigned_abs();
    }
    sum <= limit
}

// A coefficient or degree as it is on that side.
fn signed(number: i128, side: Side) -> i128
    requires { unsigned_abs number < 2 ^ 127 }
    ensures { result ≡ side_number side number }
{
    match side {
        Side::AtLeast => number,
        Side::AtMost => -number,
    }
}

// The terms of the form of that side, over the numbers of their names, and the total that cancels.
// Up to `FEW` terms are collected without a list, others in a buffer of the names.
#[inline(always)]
fn side_terms(
    alloc: Global,
    names: &mut Names,
    terms: &[Term],
    side: Side,
) -> Result<(Terms, u128), AllocError>
    requires small { magnitude terms.now < 2 ^ 127 }
    requires names_distinct { AreDistinct names.old }
    ensures names { OnOk result (names.new ≡ with_names names.old (names_of terms.now)) }
    ensures named { OnOk result (HasNames names.new (names_of terms.now)) }
    ensures rising { IfOk result (λ r. IsRising 0 r.0) }
    ensures adds { IfOk result (λ r. Adds
        (map (raw_of names.new) (side_terms side terms.now)) [] r.0 r.1) }
    ensures err { OnErr result (AfterPrefix names.old (names_of terms.now) names.new) }
    ensures distinct { AreDistinct names.new }
{
    if terms.len() <= FEW {
        let mut buffer = [NOTHING; FEW];
        return side_terms_in(alloc, names, terms, side, &mut buffer[..terms.len()]);
    }
    let mut buffer = names.buffer(terms.len())?;
    let collected = side_terms_in(alloc, names, terms, side, buffer.as_mut_slice());
    names.reuse(buffer);
    collected
}

// The same with a buffer for as many terms.
#[inline(always)]
#[tactic(auto, using(crate::proofs::Rulesets::side_terms_in))]
fn side_terms_in(
    alloc: Global,
    names: &mut Names,
    terms: &[Term],
    side: Side,
    buffer: &mut [Entry],
) -> Result<(Terms, u128), AllocError>
    requires size { length buffer.old ≡ length terms.now }
    requires small { magnitude terms.now < 2 ^ 127 }
    requires names_distinct { AreDistinct names.old }
    ensures names { OnOk result (names.new ≡ with_names names.old (names_of terms.now)) }
    ensures named { OnOk result (HasNames names.new (names_of terms.now)) }
    ensures rising { IfOk result (λ r. IsRising 0 r.0) }
    ensures adds { IfOk result (λ r. Adds
        (map (raw_of names.new) (side_terms side terms.now)) [] r.0 r.1) }
    ensures err { OnErr result (AfterPrefix names.old (names_of terms.now) names.new) }
    ensures distinct { AreDistinct names.new }
{
    number(names, terms, side, buffer)?;
    collected(alloc, buffer)
}

// Writes the terms of that side as positive coefficients on literals, over the numbers of their
// names.
fn number(
    names: &mut Names,
    terms: &[Term],
    side: Side,
    out: &mut [Entry],
) -> Result<(), AllocError>
    requires room { length out.old ≡ length terms.now }
    requires small { magnitude terms.now < 2 ^ 127 }
    requires names_distinct { AreDistinct names.old }
    ensures names { OnOk result (names.new ≡ with_names names.old (names_of terms.now)) }
    ensures named { OnOk result (HasNames names.new (names_of terms.now)) }
    ensures entries { OnOk result (out.new ≡ map (raw_of names.new)
        (side_terms side terms.now)) }
    ensures err { OnErr result (AfterPrefix names.old (names_of terms.now) names.new) }
    ensures distinct { AreDistinct names.new }
{
    'terms: for i in 0..terms.len() {
        let t = &terms[i];
        let variable = names.number(t.literal.name.as_str())?;
        let coefficient = signed(t.coefficient, side);
        out[i] = raw(variable, t.literal.negated, coefficient);
    }
    Ok(())
}

/// Numbers the names of the terms in order. If out of memory, a prefix of them has appeared.
pub fn number_names(names: &mut Names, terms: &[Term]) -> Result<(), AllocError>
    ensures names { OnOk result (names.new ≡ with_names names.old (names_of terms.now)) }
    ensures err { OnErr result (AfterPrefix names.old (names_of terms.now) names.new) }
{
    for term in terms {
        names.number(term.literal.name.as_str())?;
    }
    Ok(())
}

// Moves a negative coefficient to the opposite literal.
fn raw(variable: usize, negated: bool, coefficient: i128) -> Entry
    ensures { result ≡ entry_of variable negated coefficient }
{
    Entry {
        variable,
        negated: if coefficient < 0 { !negated } else { negated },
        coefficient: coefficient.unsigned_abs(),
    }
}

// What the negative coefficients of that side add to the degree.
#[tactic(auto, using(crate::proofs::Rulesets::shift_of))]
fn shift_of(terms: &[Term], side: Side) -> u128
    requires { magnitude terms.now < 2 ^ 127 }
    ensures { result ≡ shift (side_terms side terms.now) }
{
    let mut sum = 0;
    for t in terms {
        let coefficient = signed(t.coefficient, side);
        if coefficient < 0 {
            sum += coefficient.unsigned_abs();
        }
    }
    sum
}

// A number as the difference of two, one of which is 0.
fn split(number: i128) -> (u128, u128)
    ensures difference { (number +ℤ pos result.1) ≡ pos result.0 }
    ensures magnitude { result.0 + result.1 ≡ unsigned_abs number }
{
    if number < 0 {
        (0, number.unsigned_abs())
    } else {
        (number.unsigned_abs(), 0)
    }
}
