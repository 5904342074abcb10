//! What came near to a conflict, and what would lead to one.

use crate::piece::Piece;
use crate::propagation::{Base, Forced, Propagation, Reason};
use crate::reasons::{Scene, number};
use crate::uses::Uses;
use pb_normal::Normal;
use std::alloc::AllocError;

/// How many of the constraints that came nearest to a conflict are shown.
const NEAREST: usize = 5;

/// How many literals are shown with which a clause would be implied.
const LACKING: usize = 20;

/// How many literals are tried for that, or a few more.
const TRIED: usize = 2000;

/// How many terms are visited for that, with some times as many as for the propagation before it.
const VISITS: u64 = 100_000;

const TIMES: u64 = 3;

/// A constraint near to a conflict: how near, how many of its literals are open, and its id.
#[derive(Clone, Copy)]
pub(crate) struct Near {
    distance: u128,
    open: usize,
    id: u64,
}

impl Near {
    /// Whether it is nearer than another one. Of two that are as near, the newer one is.
    fn is_before(&self, other: &Near) -> bool {
        if self.distance != other.distance {
            return self.distance < other.distance;
        }
        if self.open != other.open {
            return self.open < other.open;
        }
        self.id > other.id
    }
}

impl Scene<'_> {
    /// The live constraints that came nearest to a conflict.
    pub(crate) fn say_near(
        &mut self,
        propagation: &Propagation,
        nearest: &[Near],
    ) -> Result<(), AllocError> {
        if nearest.is_empty() {
            return self.say_text(b"no conflict: no live constraint with an open literal is left");
        }
        self.say_text(b"no conflict: these live constraints came nearest to one")?;
        for near in nearest {
            let Some(stored) = self.constraints.find(near.id) else {
                continue;
            };
            let slack = propagation
                .open_sum(&stored.form)
                .saturating_sub(stored.form.degree().unsigned_abs());
            let mut pieces = vec![in self.alloc;
                Piece::Text(b"near "),
                Piece::Constraint(near.id),
                Piece::Text(b", slack "),
                number(slack),
                Piece::Text(b", open"),
            ]?;
            for entry in stored.form.entries() {
                if propagation.value(entry.variable).is_none() {
                    pieces.push(Piece::Text(b" "))?;
                    pieces.push(Piece::Literal(entry.variable, entry.negated))?;
                }
            }
            self.say(pieces)?;
        }
        Ok(())
    }

    /// The literals with which, as a further one, a clause would be implied. Those of the
    /// constraints nearest to a conflict come first.
    pub(crate) fn say_lacking(
        &mut self,
        propagation: &mut Propagation,
        base: Base<'_>,
        uses: &Uses,
        nearest: &[Near],
    ) -> Result<(), AllocError> {
        let mut pieces = vec![in self.alloc; Piece::Text(b"implied with one more literal:")]?;
        let mut found: Vec<(usize, bool)> = Vec::new(self.alloc);
        let most = propagation
            .visits
            .saturating_mul(1 + TIMES)
            .saturating_add(VISITS);
        for literal in self.open_literals(propagation, nearest)?.as_slice() {
            if found.len() >= LACKING || propagation.visits > most {
                break;
            }
            let (variable, negated) = *literal;
            if !found.contains(literal) && is_lacking(propagation, base, uses, *literal)? {
                found.push(*literal)?;
                pieces.push(Piece::Text(b" "))?;
                pieces.push(Piece::Literal(variable, negated))?;
            }
        }
        if found.is_empty() {
            return Ok(());
        }
        self.say(pieces)
    }

    /// Literals without a value, not too many: those of some constraints, and then others.
    fn open_literals(
        &self,
        propagation: &Propagation,
        nearest: &[Near],
    ) -> Result<Vec<(usize, bool)>, AllocError> {
        let mut literals = Vec::new(self.alloc);
        for near in nearest {
            if let Some(stored) = self.constraints.find(near.id) {
                for entry in stored.form.entries() {
                    if propagation.value(entry.variable).is_none() {
                        literals.push((entry.variable, entry.negated))?;
                    }
                }
            }
        }
        for variable in 0..self.names.len() {
            if literals.len() >= TRIED {
                break;
            }
            if propagation.value(variable).is_none() {
                literals.push((variable, true))?;
                literals.push((variable, false))?;
            }
        }
        Ok(literals)
    }

    /// At most five live constraints, those nearest to a conflict first.
    pub(crate) fn nearest(&self, propagation: &Propagation) -> Result<Vec<Near>, AllocError> {
        let mut nearest: Vec<Near> = Vec::new(self.alloc);
        let mut id = 0u64;
        for stored in self.constraints.all() {
            id = id.saturating_add(1);
            if !stored.is_live {
                continue;
            }
            if let Some(near) = near_of(propagation, &stored.form, id) {
                keep_near(&mut nearest, near)?;
            }
        }
        Ok(nearest)
    }
}

/// Whether a conflict follows if a literal is false.
fn is_lacking(
    propagation: &mut Propagation,
    base: Base<'_>,
    uses: &Uses,
    literal: (usize, bool),
) -> Result<bool, AllocError> {
    let (variable, negated) = literal;
    let forced = Forced {
        variable,
        negated: !negated,
        reason: Reason::Given,
        slack: 0,
    };
    propagation.conflicts_with(forced, base, uses)
}

/// How near a constraint came to a conflict, if a literal of it is open and it is not satisfied:
/// its slack over the least coefficient of an open literal.
fn near_of(propagation: &Propagation, form: &Normal, id: u64) -> Option<Near> {
    let degree = form.degree().unsigned_abs();
    let (mut sum, mut open_sum, mut open, mut least) = (0u128, 0u128, 0usize, u128::MAX);
    for entry in form.entries() {
        match propagation.value(entry.variable) {
            Some(value) if value == entry.negated => {}
            Some(_) => sum = sum.saturating_add(entry.coefficient),
            None => {
                open_sum = open_sum.saturating_add(entry.coefficient);
                open = open.saturating_add(1);
                least = least.min(entry.coefficient);
            }
        }
    }
    if open == 0 || sum >= degree {
        return None;
    }
    let slack = sum.saturating_add(open_sum).saturating_sub(degree);
    let distance = slack.checked_div(least).unwrap_or(slack);
    Some(Near { distance, open, id })
}

/// Keeps a constraint among the nearest ones, in order.
fn keep_near(nearest: &mut Vec<Near>, near: Near) -> Result<(), AllocError> {
    let mut at = nearest.len();
    for index in 0..nearest.len() {
        if near.is_before(&nearest[index]) {
            at = index;
            break;
        }
    }
    if at >= NEAREST {
        return Ok(());
    }
    nearest.insert(at.min(nearest.len()), near)?;
    nearest.truncate(NEAREST);
    Ok(())
}
