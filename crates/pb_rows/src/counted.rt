//! Rows of a whole read from a reader, which is returned.

use crate::broken::Broken;
use crate::page::{Done, answered, page, report_count, report_end};
use crate::row::call::Call;
use pb_opb::{OpbEvent, OpbMachine};
use pb_text::{Gather, read_from};
use std::alloc::{AllocError, Global};

/// How many statements were read, and how many more may be added.
#[derive(Drop)]
struct Counted {
    statements: u64,
    room: u64,
}

impl Gather for Counted {
    ghost use Rattle.std.specs.Prelude.{◌+◌, ◌-◌, ◌^◌, min};

    type Event = OpbEvent;

    ghost with = { λ s _.
        record { statements = min (s.statements + 1) (2 ^ 64 - 1); room = s.room - 1 } };

    fn add(&mut self, event: OpbEvent) -> Result<Option<OpbEvent>, AllocError> {
        if self.room == 0 {
            return Err(AllocError);
        }
        self.room -= 1;
        self.statements = self.statements.saturating_add(1);
        Ok(Some(event))
    }
}

/// Reads an instance and counts its statements. Reports the end, and how many bytes were left in
/// the reader.
pub(crate) fn run_count(alloc: Global, call: &Call, text: &[u8]) -> Result<Done, Broken> {
    let machine = OpbMachine::new(alloc, call.limits()?);
    let nothing = Counted {
        statements: 0,
        room: call.room,
    };
    let (read, left) = read_from(text, machine, call.most(), nothing);
    let mut reported = page(alloc);
    match read {
        Ok(spanned) => {
            report_count(spanned.event.statements, b" statements\n", &mut reported)?;
            report_count(spanned.past.offset, b" bytes\n", &mut reported)?;
        }
        Err(stop) => report_end(Err(stop), &mut reported)?,
    }
    report_count(left.into_inner().len() as u64, b" left\n", &mut reported)?;
    Ok(answered(alloc, reported))
}
