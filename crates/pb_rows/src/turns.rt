//! Rows of `show`, `tidy` and `check`. Each call of a reader or the writer can be made to fail in
//! turn.

use crate::broken::Broken;
use crate::check::run_check;
use crate::command::run_command;
use crate::page::{Done, Page, page, report_count};
use crate::row::call::{Call, Each, Verb};
use pb_text::doubles::{FaultyReader, FaultyWriter};
use pb_text::{Failed, Place, Sink, write_bytes};
use std::alloc::Global;

/// The line and the status for a writer that fails.
const UNWRITTEN: &[u8] = b"output: write fault\nstatus 3\n";

/// More calls than a row makes.
const CALLS: u64 = 100_000;

/// How often a reader or a writer was called, and the position after the bytes that a reader has
/// given.
#[derive(Clone, Copy)]
pub struct Calls {
    count: u64,
    place: Place,
}

impl Calls {
    /// The calls of a reader of a text.
    pub(crate) fn of_reader(text: &[u8], reader: &FaultyReader<'_>) -> Calls {
        let given = text.len().saturating_sub(reader.left.len());
        Calls {
            count: reader.calls,
            place: place_after(&text[..given.min(text.len())]),
        }
    }

    /// The calls of a writer.
    pub(crate) fn of_writer(writer: &FaultyWriter) -> Calls {
        Calls {
            count: writer.calls,
            place: Place::START,
        }
    }
}

/// The position after a text.
fn place_after(text: &[u8]) -> Place {
    let mut place = Place::START;
    for byte in text {
        place.offset = place.offset.saturating_add(1);
        if *byte == b'\n' {
            place.line = place.line.saturating_add(1);
            place.column = 1;
        } else {
            place.column = place.column.saturating_add(1);
        }
    }
    place
}

/// The output and the result of a run. Also the calls of the reader or the writer that fails in
/// turn.
#[derive(Drop)]
pub struct Run {
    done: Done,
    calls: Calls,
}

impl Run {
    pub(crate) fn new(writer: FaultyWriter, answer: Page, calls: Calls) -> Run {
        Run {
            done: Done {
                written: writer.taken,
                answer: answer.into_inner().taken,
            },
            calls,
        }
    }
}

/// A reader as the call says, without the call that fails.
pub(crate) fn reader_of<'a>(call: &Call, text: &'a [u8]) -> FaultyReader<'a> {
    let mut reader = FaultyReader::new(text);
    reader.most = call.reader_most;
    reader
}

/// A writer as the call says.
pub(crate) fn writer_of(alloc: Global, call: &Call) -> FaultyWriter {
    let mut writer = FaultyWriter::new(Vec::new(alloc));
    writer.most = call.writer_most;
    writer.fails_at = call.writer_fails;
    writer
}

/// Runs a call. Or runs it with each call of a reader or the writer failing in turn, up to the
/// first run that makes no such call. That run must give what is expected; the others must give the
/// fault, after a prefix of what is expected. Returns the first run that does not.
pub(crate) fn run_turns(
    alloc: Global,
    call: &Call,
    text: &[u8],
    wanted: &Done,
) -> Result<Done, Broken> {
    match call.each {
        Each::Neither => Ok(run_once(alloc, call, text)?.done),
        _ => run_each(alloc, call, text, wanted),
    }
}

fn run_each(alloc: Global, call: &Call, text: &[u8], wanted: &Done) -> Result<Done, Broken> {
    for number in 1..CALLS {
        let run = run_once(alloc, &failing(call, number), text)?;
        if run.calls.count < number {
            return Ok(run.done);
        }
        if !is_fault(alloc, call, &run, wanted)? {
            return report_turn(alloc, run.done, number);
        }
    }
    Err(Broken::Calls)
}

fn run_once(alloc: Global, call: &Call, text: &[u8]) -> Result<Run, Broken> {
    match call.verb {
        Verb::Check => run_check(alloc, call, text),
        _ => run_command(alloc, call, text),
    }
}

/// The call in which a read or a write fails.
fn failing(call: &Call, number: u64) -> Call {
    let mut failing = *call;
    match call.each {
        Each::Neither => {}
        Each::Read => failing.reader_fails = Some(number),
        Each::ProofRead => failing.proof_fails = Some(number),
        Each::Write => failing.writer_fails = Some(number),
    }
    failing
}

/// Whether it is the fault at its position, after a prefix of the expected output. If a read fails,
/// only `show` may have written.
fn is_fault(alloc: Global, call: &Call, run: &Run, wanted: &Done) -> Result<bool, Broken> {
    let mut reported = page(alloc);
    report_failed(call, run.calls.place, &mut reported)?;
    let fault = reported.into_inner().taken;
    let written = run.done.written.as_slice();
    let is_prefix = match (call.each, call.verb) {
        (Each::Write, _) | (_, Verb::Show) => wanted.written.as_slice().starts_with(written),
        _ => written.is_empty(),
    };
    Ok(is_prefix && run.done.answer.as_slice() == fault.as_slice())
}

/// Writes the line and the status of the fault of a read or a write that fails.
fn report_failed<S: Sink>(call: &Call, place: Place, out: &mut S) -> Result<(), Failed> {
    if let Each::Write = call.each {
        return write_bytes(UNWRITTEN, out);
    }
    write_bytes(input_of(call), out)?;
    write_bytes(b": line ", out)?;
    report_count(place.line, b" column ", out)?;
    report_count(place.column, b": read fault\nstatus 3\n", out)
}

/// The name of the input whose reads fail.
fn input_of(call: &Call) -> &'static [u8] {
    match (call.each, call.verb) {
        (Each::ProofRead, _) => b"proof",
        (_, Verb::Check) => b"instance",
        _ => b"file",
    }
}

/// The unexpected result of a run, and which call failed in it.
fn report_turn(alloc: Global, done: Done, number: u64) -> Result<Done, Broken> {
    let mut reported = page(alloc);
    write_bytes(done.answer.as_slice(), &mut reported)?;
    write_bytes(b"where this call fails: ", &mut reported)?;
    report_count(number, b"\n", &mut reported)?;
    Ok(Done {
        written: done.written,
        answer: reported.into_inner().taken,
    })
}
