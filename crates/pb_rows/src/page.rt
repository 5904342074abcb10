//! The output and the result of a call.

use pb_sums::write_count;
use pb_text::doubles::FaultyWriter;
use pb_text::{Failed, Over, Sink, Stop, write_bytes};
use pb_tool::{Input, ToolFault, write_fault};
use std::alloc::Global;

/// A sink in memory.
pub type Page = Over<FaultyWriter>;

pub(crate) fn page(alloc: Global) -> Page {
    Over::new(FaultyWriter::new(Vec::new(alloc)))
}

/// What a call wrote, and its result.
#[derive(Drop)]
pub struct Done {
    pub written: Vec<u8>,
    pub answer: Vec<u8>,
}

pub(crate) fn finished(written: Page, answer: Page) -> Done {
    Done {
        written: written.into_inner().taken,
        answer: answer.into_inner().taken,
    }
}

/// The result of a call that writes nothing.
pub(crate) fn answered(alloc: Global, answer: Page) -> Done {
    finished(page(alloc), answer)
}

/// Whether two calls have the same output and the same result.
pub(crate) fn is_same(found: &Done, wanted: &Done) -> bool {
    found.written.as_slice() == wanted.written.as_slice()
        && found.answer.as_slice() == wanted.answer.as_slice()
}

/// Writes the line of an end: `ok`, or the line of the stop.
pub(crate) fn report_end<S: Sink>(end: Result<(), Stop>, out: &mut S) -> Result<(), Failed> {
    match end {
        Ok(()) => write_bytes(b"ok\n", out),
        Err(stop) => report_stop(stop, out),
    }
}

fn report_stop<S: Sink>(stop: Stop, out: &mut S) -> Result<(), Failed> {
    let input = Input::File;
    write_fault(&ToolFault::Text { input, stop }, out)
}

/// Writes a count and a word after it.
pub(crate) fn report_count<S: Sink>(count: u64, word: &[u8], out: &mut S) -> Result<(), Failed> {
    write_count(count, out)?;
    write_bytes(word, out)
}

/// Writes one of two lines.
pub(crate) fn report_either<S: Sink>(
    is_so: bool,
    so: &[u8],
    not_so: &[u8],
    out: &mut S,
) -> Result<(), Failed> {
    write_bytes(if is_so { so } else { not_so }, out)
}
