//! Rows of faults that no input causes.

use crate::broken::Broken;
use crate::command::report_fault;
use crate::page::{Done, answered, page};
use pb_text::{Place, Stop, Why};
use pb_tool::{Input, ToolFault};
use std::alloc::Global;

/// What the words of the call say.
#[derive(Clone, Copy)]
struct Parts {
    input: Input,
    place: Place,
    byte: u8,
}

/// Reports the line and the status of the fault that the words of the call name, as
/// `fault byte=103 line=2 column=14`.
pub(crate) fn run_fault(alloc: Global, line: &str) -> Result<Done, Broken> {
    let mut parts = Parts {
        input: Input::File,
        place: Place::START,
        byte: 0,
    };
    let mut words = line.split_whitespace().skip(1);
    let Some(kind) = words.next() else {
        return Err(Broken::Word);
    };
    for word in words {
        match word.split_once('=') {
            Some((key, value)) => set(&mut parts, key, value)?,
            None => set_input(&mut parts, word)?,
        }
    }
    let mut reported = page(alloc);
    report_fault(&fault_of(kind, parts)?, &mut reported)?;
    Ok(answered(alloc, reported))
}

fn set_input(parts: &mut Parts, word: &str) -> Result<(), Broken> {
    match word {
        "same" => {}
        "file" => parts.input = Input::File,
        "instance" => parts.input = Input::Instance,
        "proof" => parts.input = Input::Proof,
        _ => return Err(Broken::Word),
    }
    Ok(())
}

fn set(parts: &mut Parts, key: &str, value: &str) -> Result<(), Broken> {
    let Ok(number) = value.parse::<u64>() else {
        return Err(Broken::Word);
    };
    match key {
        "line" => parts.place.line = number,
        "column" => parts.place.column = number,
        "byte" if number < 256 => parts.byte = number as u8,
        _ => return Err(Broken::Word),
    }
    Ok(())
}

/// The fault of a kind.
fn fault_of(kind: &str, parts: Parts) -> Result<ToolFault, Broken> {
    match kind {
        "open" => Ok(ToolFault::Open(parts.input)),
        "overflow" => Ok(ToolFault::Overflow(parts.input)),
        "no-memory" => Ok(ToolFault::Memory(parts.input)),
        "write" => Ok(ToolFault::Write),
        _ => {
            let stop = Stop {
                place: parts.place,
                why: why_of(kind, parts.byte)?,
            };
            Ok(ToolFault::Text {
                input: parts.input,
                stop,
            })
        }
    }
}

fn why_of(kind: &str, byte: u8) -> Result<Why, Broken> {
    match kind {
        "bad" => Ok(Why::Byte(byte)),
        "large" => Ok(Why::TooLarge),
        "ended" => Ok(Why::Ended),
        "long" => Ok(Why::TooLong),
        "read" => Ok(Why::Read),
        "memory" => Ok(Why::Memory),
        _ => Err(Broken::Word),
    }
}
