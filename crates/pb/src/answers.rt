//! Exit statuses, and the lines on standard error that go with them.

use pb_text::Over;
use pb_tool::{ToolFault, status, write_fault};
use std::io::Write;

/// The exit status of a usage error.
pub(crate) const USAGE: u8 = 2;

/// The exit status if the program could not do its work.
const FAILED: u8 = 3;

/// Reports that memory ran out, and returns the exit status.
pub(crate) fn answer_memory<E: Write>(errors: &mut E) -> u8 {
    let _ = errors.write_all(b"out of memory\n");
    FAILED
}

/// Writes the line of a fault and returns the exit status. If standard error cannot be written,
/// only the status reports it.
pub(crate) fn answer_fault<E: Write>(fault: &ToolFault, errors: &mut E) -> u8 {
    let _ = write_fault(fault, &mut Over::new(errors));
    status(fault)
}
