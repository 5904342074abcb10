//! Rows of whole readers.

use crate::broken::Broken;
use crate::page::{Done, Page, finished, page, report_count, report_end};
use crate::row::call::{Call, Grammar};
use pb_opb::{instance_is_value, read_instance, read_instance_within, write_instance};
use pb_proof::{proof_is_value, read_proof, read_proof_within, write_proof};
use pb_text::{Failed, Limits, Over, Place, Sink, Stop, write_bytes};
use std::alloc::Global;

/// What a reader left.
#[derive(Clone, Copy)]
struct Left {
    end: Result<(), Stop>,
    past: Place,
    is_value: bool,
    left: usize,
}

/// Reads a value, writes its canonical text, and reports how many bytes were taken and left.
pub(crate) fn run_read(alloc: Global, call: &Call, text: &[u8]) -> Result<Done, Broken> {
    let limits = call.limits()?;
    let mut out = page(alloc);
    let left = match call.grammar {
        Grammar::Opb => read_opb(alloc, text, call.longest, limits, &mut out),
        Grammar::Proof => read_veri(alloc, text, call.longest, limits, &mut out),
        _ => return Err(Broken::Word),
    };
    let mut reported = page(alloc);
    report(left, &mut reported)?;
    Ok(finished(out, reported))
}

fn read_opb(
    alloc: Global,
    text: &[u8],
    longest: Option<u64>,
    limits: Limits,
    out: &mut Page,
) -> Left {
    let mut source = Over::new(text);
    let read = match longest {
        Some(longest) => read_instance_within(alloc, &mut source, longest.max(1), limits),
        None => read_instance(alloc, &mut source, limits),
    };
    let left = source.into_inner().len();
    match read {
        Ok(spanned) => {
            let _ = write_instance(&spanned.event, out);
            let is_value = spanned.first == Place::START
                && instance_is_value(&spanned.event, limits);
            taken(spanned.past, is_value, left)
        }
        Err(stop) => refused(stop, left),
    }
}

fn read_veri(
    alloc: Global,
    text: &[u8],
    longest: Option<u64>,
    limits: Limits,
    out: &mut Page,
) -> Left {
    let mut source = Over::new(text);
    let read = match longest {
        Some(longest) => read_proof_within(alloc, &mut source, longest.max(1), limits),
        None => read_proof(alloc, &mut source, limits),
    };
    let left = source.into_inner().len();
    match read {
        Ok(spanned) => {
            let _ = write_proof(&spanned.event, out);
            let is_value = spanned.first == Place::START && proof_is_value(&spanned.event, limits);
            taken(spanned.past, is_value, left)
        }
        Err(stop) => refused(stop, left),
    }
}

fn taken(past: Place, is_value: bool, left: usize) -> Left {
    Left {
        end: Ok(()),
        past,
        is_value,
        left,
    }
}

fn refused(stop: Stop, left: usize) -> Left {
    Left {
        end: Err(stop),
        past: stop.place,
        is_value: true,
        left,
    }
}

fn report<S: Sink>(left: Left, out: &mut S) -> Result<(), Failed> {
    report_end(left.end, out)?;
    if !left.is_value {
        write_bytes(b"no value\n", out)?;
    }
    report_count(left.past.offset, b" bytes, ", out)?;
    report_count(left.left as u64, b" left\n", out)
}
