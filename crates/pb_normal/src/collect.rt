//! One term for each variable.
#![tactic(auto, using(crate::proofs::Rulesets::collected))]

ghost use Rattle.std.specs.Prelude.{◌<◌, ◌^◌, [], IfOk, IsTrue};
ghost use Rattle.pb_normal.specs.engine.Adds.{Adds};
ghost use Rattle.pb_normal.specs.meaning.Form.{total, each, IsRising};

use crate::entry::Entry;
use crate::merge::merged;
use crate::terms::Terms;
use std::alloc::{AllocError, Global};

// Adds up the terms of each variable and sorts them by variable, where they lie. Also returns the
// total that cancels, counted once for each pair of opposite literals. If the variables differ, a
// sort is enough, and one list at most is allocated. If they rise already, nothing is sorted.
#[inline(always)]
pub(crate) fn collected(alloc: Global, raw: &mut [Entry]) -> Result<(Terms, u128), AllocError>
    requires { total each raw.old < 2 ^ 127 }
    ensures rising { IfOk result (λ r. IsRising 0 r.0) }
    ensures adds { IfOk result (λ r. Adds raw.old [] r.0 r.1) }
{
    if is_rising(raw) {
        return Ok((Terms::of(alloc, raw)?, 0));
    }
    raw.sort_unstable_by_key(|t| t.variable);
    if is_rising(raw) {
        return Ok((Terms::of(alloc, raw)?, 0));
    }
    let (sum, gone) = added_up(alloc, raw)?;
    let terms = Terms::wide(sum).compact()?;
    Ok((terms, gone))
}

// Whether the variables rise and no coefficient is 0.
fn is_rising(terms: &[Entry]) -> bool
    ensures { IsTrue result → IsRising 0 terms.now }
{
    let mut above = usize::MAX;
    let mut i = terms.len();
    'terms: while i > 0 {
        i -= 1;
        let t = terms[i];
        if t.variable >= above || t.coefficient == 0 {
            return false;
        }
        above = t.variable;
    }
    true
}

// The same for any terms, which are added up by halves.
fn added_up(alloc: Global, raw: &[Entry]) -> Result<(Vec<Entry>, u128), AllocError>
    requires { total each raw.now < 2 ^ 127 }
    ensures rising { IfOk result (λ r. IsRising 0 r.0.items) }
    ensures adds { IfOk result (λ r. Adds raw.now [] r.0.items r.1) }
{
    let mut out = Vec::new(alloc);
    if raw.len() == 0 {
        return Ok((out, 0));
    }
    if raw.len() == 1 {
        if raw[0].coefficient > 0 {
            out.push(raw[0])?;
        }
        return Ok((out, 0));
    }
    let middle = raw.len() / 2;
    let (left, left_gone) = added_up(alloc, &raw[..middle])?;
    let (right, right_gone) = added_up(alloc, &raw[middle..])?;
    let left = Terms::wide(left);
    let right = Terms::wide(right);
    let (both, gone) = merged(Vec::new(alloc), &left, &right)?;
    Ok((both, left_gone + right_gone + gone))
}
