//! Rows of `tidy` and `show`.

use crate::broken::Broken;
use crate::page::page;
use crate::row::call::{Call, Each, Verb};
use crate::turns::{Calls, Run, reader_of, writer_of};
use pb_sums::write_count;
use pb_text::doubles::{FaultyReader, FaultyWriter};
use pb_text::{Failed, Limits, Over, Sink, write_bytes};
use pb_tool::{ToolFault, show, status, tidy, write_fault};
use std::alloc::Global;

/// Runs a command over a reader and a writer, as the call says.
pub(crate) fn run_command(alloc: Global, call: &Call, text: &[u8]) -> Result<Run, Broken> {
    let limits = call.limits()?;
    let mut reader = reader_of(call, text);
    reader.fails_at = call.reader_fails;
    let mut input = Over::new(reader);
    let mut out = Over::new(writer_of(alloc, call));
    let answer = run_verb(alloc, call, &mut input, &mut out, limits);
    let mut reported = page(alloc);
    report(&answer, &mut reported)?;
    let (reader, writer) = (input.into_inner(), out.into_inner());
    let calls = match call.each {
        Each::Write => Calls::of_writer(&writer),
        _ => Calls::of_reader(text, &reader),
    };
    Ok(Run::new(writer, reported, calls))
}

fn run_verb(
    alloc: Global,
    call: &Call,
    input: &mut Over<FaultyReader<'_>>,
    out: &mut Over<FaultyWriter>,
    limits: Limits,
) -> Result<(), ToolFault> {
    let longest = call.longest();
    match call.verb {
        Verb::Show => show(alloc, input, out, longest, limits),
        Verb::TidyNormal => tidy(alloc, input, true, out, longest, limits),
        _ => tidy(alloc, input, false, out, longest, limits),
    }
}

/// Writes `ok`, or the line of a fault and its exit status.
fn report<S: Sink>(answer: &Result<(), ToolFault>, out: &mut S) -> Result<(), Failed> {
    match answer {
        Ok(()) => write_bytes(b"ok\n", out),
        Err(fault) => report_fault(fault, out),
    }
}

pub(crate) fn report_fault<S: Sink>(fault: &ToolFault, out: &mut S) -> Result<(), Failed> {
    write_fault(fault, out)?;
    write_bytes(b"status ", out)?;
    write_count(status(fault) as u64, out)?;
    write_bytes(b"\n", out)
}
