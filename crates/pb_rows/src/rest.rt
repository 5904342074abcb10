//! Rows of the rest of an input.

use crate::broken::Broken;
use crate::page::{Done, answered, page, report_count, report_end};
use crate::row::call::Call;
use crate::turns::reader_of;
use pb_text::{BYTE_LIMIT, Over, rest_is_blank};
use std::alloc::Global;

/// Reads the input as the rest after the position of the call. Reports its end and how many bytes
/// were left.
pub(crate) fn run_rest(alloc: Global, call: &Call, text: &[u8]) -> Result<Done, Broken> {
    let start = call.rest_start;
    let is_far = start.line > BYTE_LIMIT + 1 || start.column > BYTE_LIMIT + 1;
    if start.offset > BYTE_LIMIT || is_far {
        return Err(Broken::Word);
    }
    let mut reader = reader_of(call, text);
    reader.fails_at = call.reader_fails;
    let mut source = Over::new(reader);
    let end = rest_is_blank(&mut source, start);
    let mut reported = page(alloc);
    report_end(end, &mut reported)?;
    report_count(
        source.into_inner().left.len() as u64,
        b" left\n",
        &mut reported,
    )?;
    Ok(answered(alloc, reported))
}
