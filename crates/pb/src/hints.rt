//! Lines on standard error that begin with `pb: `: what the system said of a file, and what to do
//! after a fault.

mod foreign;
mod rules;

use crate::asked::path_in;
use crate::failure::Failure;
use crate::hints::foreign::{foreign, foreign_byte};
use crate::hints::rules::rule_hint;
use crate::inputs::size_of;
use pb_text::{Place, Why};
use pb_tool::{Input, Job, ToolFault};
use std::alloc::Global;
use std::fs;
use std::io::{self, Read, Seek, SeekFrom, Write};
use std::rt::Files;

/// How many bytes of a file are read again, from its start and from that of a line.
const WINDOW: u64 = 64;

/// How many bytes before a fault are read again.
const BEFORE: u64 = 8;

/// What to do after a fault.
pub(crate) enum Hint {
    /// The file is not of the kind that was expected.
    Foreign(&'static str),
    /// A rule of a proof that is not read, and what rewrites it.
    Rule(&'static str, &'static str),
}

/// Reports that an input comes from a terminal, where the program waits for a person.
pub(crate) fn write_waiting<E: Write>(job: &Job, errors: &mut E) {
    if let Some(word) = waits_for(job) {
        let _ = write!(errors, "pb: reading the {word} from the terminal\n");
    }
}

/// The word for the input of a job that is standard input, if one is.
fn waits_for(job: &Job) -> Option<&'static str> {
    match job {
        Job::Show { .. } | Job::Tidy { .. } => match path_in(job, Input::File) {
            Some(_) => None,
            None => Some("file"),
        },
        _ => match (path_in(job, Input::Instance), path_in(job, Input::Proof)) {
            (None, _) => Some("instance"),
            (_, None) => Some("proof"),
            _ => None,
        },
    }
}

/// Writes one line after that of a fault, if there is something to say. A file that was rejected is
/// read again for it.
pub(crate) fn write_hint<R: Files + AllocGlobal, E: Write>(
    rt: &R,
    job: &Job,
    failure: &Failure,
    errors: &mut E,
) {
    match &failure.fault {
        ToolFault::Open(input) => {
            if let (Some(path), Some(reason)) = (path_in(job, *input), failure.reason) {
                write_reason(rt.alloc(), path, reason, errors);
            }
        }
        ToolFault::Text { input, stop } => {
            if let Why::Byte(byte) = stop.why {
                let path = path_in(job, *input);
                let hint = match path {
                    Some(path) => hint_of(rt, path, *input, stop.place),
                    None => foreign_byte(byte, stop.place.offset),
                };
                if let Some(hint) = hint {
                    write_line(path.unwrap_or("standard input"), hint, errors);
                }
            }
        }
        _ => {}
    }
}

/// Writes the name of a file and why the system did not open it. The number of the error is left
/// out.
fn write_reason<E: Write>(alloc: Global, path: &str, reason: io::Error, errors: &mut E) {
    let Ok(reason) = format!(in alloc; "{reason}") else {
        return;
    };
    if let Some(words) = reason.as_str().split(" (os error ").next() {
        let _ = write!(errors, "pb: {path}: {words}\n");
    }
}

/// Writes the line of a hint.
fn write_line<E: Write>(name: &str, hint: Hint, errors: &mut E) {
    let _ = match hint {
        Hint::Foreign(advice) => write!(errors, "pb: {name}: {advice}\n"),
        Hint::Rule(rule, advice) => write!(
            errors,
            "pb: {name}: the rule {rule} is not read: {advice}\n"
        ),
    };
}

/// The hint for a byte of a file that was not accepted. The file is read again at its start and at
/// that line.
fn hint_of<R: Files + AllocGlobal>(rt: &R, path: &str, input: Input, place: Place) -> Option<Hint> {
    let first = bytes_at(rt, path, 0, WINDOW)?;
    let is_proof = match input {
        Input::Proof => true,
        Input::Instance => false,
        Input::File => first.first() == Some(&b'p'),
    };
    if place.line == 1
        && let Some(hint) = foreign(first.as_slice(), is_proof)
    {
        return Some(hint);
    }
    if !is_proof {
        return None;
    }
    let line = bytes_at(
        rt,
        path,
        place.offset.saturating_sub(place.column.saturating_sub(1)),
        WINDOW,
    )?;
    let before = bytes_at(rt, path, place.offset.saturating_sub(BEFORE), BEFORE)?;
    rule_hint(line.as_slice(), before.as_slice())
}

/// At most that many bytes of a file, from that offset on.
fn bytes_at<R: Files + AllocGlobal>(rt: &R, path: &str, offset: u64, most: u64) -> Option<Vec<u8>> {
    let _size = size_of(rt, Some(path))?;
    let mut file = fs::open(rt, path).ok()?;
    let _place = file.seek(SeekFrom::Start(offset)).ok()?;
    let mut bytes = Vec::new(rt.alloc());
    let _count = file.take(most).read_to_end(&mut bytes).ok()?;
    Some(bytes)
}
