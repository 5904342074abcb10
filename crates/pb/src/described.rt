//! What the text of an instance says, read again from a record of its bytes.

use crate::recorded::Record;
use pb_opb::{OpbEvent, OpbMachine};
use pb_sums::Relation;
use pb_text::{Feeder, Limits, Over, Sequence, Spanned, pull};
use pb_trace::InstanceText;
use std::alloc::{AllocError, Global};

/// The record of an instance, until it is read.
#[derive(Drop)]
pub(crate) struct Unread<'a> {
    alloc: Global,
    limits: Limits,
    record: Option<&'a Record>,
}

impl<'a> Unread<'a> {
    pub(crate) fn new(alloc: Global, limits: Limits, record: &'a Record) -> Self {
        Unread {
            alloc,
            limits,
            record: Some(record),
        }
    }

    /// What the text says. It is read once, and the record is emptied. Without memory for it
    /// nothing is known.
    pub(crate) fn take(&mut self) -> Option<InstanceText> {
        let record = self.record.take()?;
        let bytes = match record.try_borrow_mut() {
            Ok(mut bytes) => bytes.take()?,
            Err(_) => return None,
        };
        text_of(self.alloc, bytes.as_slice(), self.limits)
    }
}

/// What the text of an instance says, if it is one and there is memory for it.
fn text_of(alloc: Global, bytes: &[u8], limits: Limits) -> Option<InstanceText> {
    let mut text = InstanceText::unknown(alloc);
    let mut input = Over::new(bytes);
    let mut feeder = Feeder::new(OpbMachine::new(alloc, limits));
    for _ in 0..u64::MAX {
        match pull(&mut input, &mut feeder) {
            Ok(Some(read)) => note(alloc, &mut text, &read).ok()?,
            Ok(None) => return Some(text),
            Err(_) => return None,
        }
    }
    None
}

/// Notes what a statement of an instance says.
fn note(
    alloc: Global,
    text: &mut InstanceText,
    read: &Spanned<OpbEvent>,
) -> Result<(), AllocError> {
    match &read.event {
        OpbEvent::Objective(terms) => {
            let terms = Vec::from_clones(alloc, terms.as_slice())?;
            text.objective = Some(Sequence::from_vec(terms));
            Ok(())
        }
        OpbEvent::Constraint(linear) => {
            let is_equality = linear.relation == Relation::Equal;
            note_constraint(text, read.first.line, is_equality)
        }
        OpbEvent::Header { .. } | OpbEvent::Comment(_) => Ok(()),
    }
}

/// Notes a constraint that begins in a line.
fn note_constraint(
    text: &mut InstanceText,
    line: u64,
    is_equality: bool,
) -> Result<(), AllocError> {
    text.written = text.written.saturating_add(1);
    text.lines.push(line)?;
    if is_equality {
        text.equalities = text.equalities.saturating_add(1);
        text.lines.push(line)?;
    }
    Ok(())
}
