//! Rows of the first program.

use crate::broken::Broken;
use crate::check::inputs_of;
use crate::command::report_fault;
use crate::page::{Done, answered, page, report_either};
use pb_examples::is_refuted;
use std::alloc::Global;

/// Reports whether a proof shows that an instance has no solution, or the line of the fault.
pub(crate) fn run_refuted(alloc: Global, text: &[u8]) -> Result<Done, Broken> {
    let (instance, proof) = inputs_of(text)?;
    let mut reported = page(alloc);
    match is_refuted(alloc, instance, proof) {
        Ok(is_so) => report_either(is_so, b"refuted\n", b"not refuted\n", &mut reported)?,
        Err(fault) => report_fault(&fault, &mut reported)?,
    }
    Ok(answered(alloc, reported))
}
