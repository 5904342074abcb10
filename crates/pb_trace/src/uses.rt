//! What contains each literal.

use crate::propagation::{Base, Reason};
use pb_normal::Entry;
use std::alloc::{AllocError, Global};

/// What contains each literal, as linked lists.
#[derive(Drop)]
pub(crate) struct Uses {
    /// For each variable.
    first: Vec<FirstUses>,
    uses: Vec<Use>,
}

/// The indices of the first use of a variable, and of its negation.
#[derive(Clone, Copy)]
struct FirstUses {
    plain: Option<usize>,
    negated: Option<usize>,
}

/// A constraint that contains a literal, its coefficient there, and the index of the next one.
#[derive(Clone, Copy)]
pub(crate) struct Use {
    pub(crate) reason: Reason,
    pub(crate) coefficient: u128,
    pub(crate) next: Option<usize>,
}

impl Base<'_> {
    /// What contains the literals of this many variables: the negation first, and then constraints
    /// by their ids.
    pub(crate) fn uses(self, alloc: Global, variables: usize) -> Result<Uses, AllocError> {
        let mut uses = Uses::new(alloc, variables, self.count_terms())?;
        for index in (0..self.constraints.len()).rev() {
            self.note_uses(&mut uses, Reason::Id(index as u64 + 1))?;
        }
        self.note_uses(&mut uses, Reason::Negation)?;
        Ok(uses)
    }

    /// How many terms there are in what propagates.
    fn count_terms(self) -> usize {
        let mut count = match self.form_named_by(Reason::Negation) {
            Some(form) => form.len(),
            None => 0,
        };
        for index in 0..self.constraints.len() {
            if let Some(form) = self.form_named_by(Reason::Id(index as u64 + 1)) {
                count = count.saturating_add(form.len());
            }
        }
        count
    }

    /// Notes which literals the constraint that a reason names contains.
    fn note_uses(self, uses: &mut Uses, reason: Reason) -> Result<(), AllocError> {
        if let Some(form) = self.form_named_by(reason) {
            for entry in form.entries() {
                uses.push(&entry, reason)?;
            }
        }
        Ok(())
    }
}

impl Uses {
    /// No uses of this many variables, with memory for a count of them.
    fn new(alloc: Global, variables: usize, count: usize) -> Result<Uses, AllocError> {
        let mut first = Vec::with_capacity(alloc, variables)?;
        for _ in 0..variables {
            first.push(FirstUses {
                plain: None,
                negated: None,
            })?;
        }
        Ok(Uses {
            first,
            uses: Vec::with_capacity(alloc, count)?,
        })
    }

    /// How many uses there are.
    pub(crate) fn len(&self) -> usize {
        self.uses.len()
    }

    /// Notes a use of the literal of a term, before those that were noted.
    fn push(&mut self, entry: &Entry, reason: Reason) -> Result<(), AllocError> {
        let Some(first) = self.first.get_mut(entry.variable) else {
            return Ok(());
        };
        let at = Some(self.uses.len());
        let next = if entry.negated {
            std::mem::replace(&mut first.negated, at)
        } else {
            std::mem::replace(&mut first.plain, at)
        };
        self.uses.push(Use {
            reason,
            coefficient: entry.coefficient,
            next,
        })?;
        Ok(())
    }

    /// The index of the first use of a literal.
    pub(crate) fn first(&self, variable: usize, negated: bool) -> Option<usize> {
        let first = self.first.get(variable)?;
        if negated { first.negated } else { first.plain }
    }

    /// A use with an index.
    pub(crate) fn at(&self, index: Option<usize>) -> Option<Use> {
        match self.uses.get(index?) {
            Some(found) => Some(*found),
            None => None,
        }
    }
}
