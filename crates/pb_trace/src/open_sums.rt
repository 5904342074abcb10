//! Which constraints can force a literal, by their open sums.

use crate::propagation::{Base, Reason};
use crate::uses::{Use, Uses};
use pb_normal::Normal;
use std::alloc::{AllocError, Global};

/// For the negation and then each stored constraint, how much of it may still be falsified before
/// it can force a literal: its open sum, after the literals that were followed, without its degree
/// and its largest coefficient. Only below 0 it can force one.
#[derive(Drop)]
pub(crate) struct OpenSums {
    margins: Vec<i128>,
}

impl OpenSums {
    /// Those of no constraints.
    pub(crate) fn none(alloc: Global) -> OpenSums {
        OpenSums {
            margins: Vec::new(alloc),
        }
    }

    /// Those of what propagates, with no literal followed.
    pub(crate) fn of(base: Base<'_>, alloc: Global) -> Result<OpenSums, AllocError> {
        let mut margins = Vec::with_capacity(alloc, base.constraints.len())?;
        margins.push(margin_of(base.form_named_by(Reason::Negation)))?;
        for index in 0..base.constraints.len() {
            margins.push(margin_of(base.form_named_by(Reason::Id(index as u64 + 1))))?;
        }
        Ok(OpenSums { margins })
    }

    /// Lowers the open sum of a constraint of which a literal was falsified, and returns whether it
    /// can force a literal then.
    pub(crate) fn lower(&mut self, found: Use) -> bool {
        match self.margins.get_mut(found.reason.position()) {
            Some(margin) => {
                *margin = margin.saturating_sub(to_signed(found.coefficient));
                *margin < 0
            }
            None => true,
        }
    }

    /// Raises the open sums of the constraints of a list of uses again.
    pub(crate) fn raise(&mut self, first: Option<usize>, uses: &Uses) {
        let mut at = first;
        for _ in 0..uses.len() {
            let Some(found) = uses.at(at) else {
                break;
            };
            if let Some(margin) = self.margins.get_mut(found.reason.position()) {
                *margin = margin.saturating_add(to_signed(found.coefficient));
            }
            at = found.next;
        }
    }
}

impl Reason {
    /// The position of the constraint that it names among the negation and then the stored
    /// constraints.
    fn position(self) -> usize {
        match self {
            Reason::Given | Reason::Negation => 0,
            Reason::Id(id) => id as usize,
        }
    }
}

/// The sum of the coefficients of a constraint, without its degree and its largest coefficient. It
/// is 0 for one that does not propagate.
fn margin_of(form: Option<&Normal>) -> i128 {
    let Some(form) = form else {
        return 0;
    };
    let (mut size, mut largest) = (0u128, 0u128);
    for entry in form.entries() {
        size = size.saturating_add(entry.coefficient);
        largest = largest.max(entry.coefficient);
    }
    to_signed(size)
        .saturating_sub(form.degree())
        .saturating_sub(to_signed(largest))
}

/// A number of at most 127 bits.
pub(crate) fn to_signed(number: u128) -> i128 {
    number.min(i128::MAX as u128) as i128
}
