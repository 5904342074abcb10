//! Rows of texts that are written.

use crate::broken::Broken;
use crate::page::{Done, page, report_count, report_either};
use crate::row::call::Call;
use crate::turns::writer_of;
use pb_text::{Over, write_bytes};
use std::alloc::Global;

/// Writes the input as one text. Reports its end, and how often the writer was called.
pub(crate) fn run_write(alloc: Global, call: &Call, text: &[u8]) -> Result<Done, Broken> {
    let mut out = Over::new(writer_of(alloc, call));
    let is_written = write_bytes(text, &mut out).is_ok();
    let writer = out.into_inner();
    let mut reported = page(alloc);
    report_either(is_written, b"ok\n", b"write fault\n", &mut reported)?;
    report_count(writer.calls, b" calls\n", &mut reported)?;
    Ok(Done {
        written: writer.taken,
        answer: reported.into_inner().taken,
    })
}
