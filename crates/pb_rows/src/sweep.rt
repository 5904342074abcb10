//! Rows of many texts that are made from one.

use crate::broken::Broken;
use crate::feed::{Cut, End, feed_all};
use crate::page::{Done, answered, page, report_count, report_end};
use crate::row::call::{Call, Verb};
use pb_text::Why;
use std::alloc::Global;

/// Feeds every proper prefix of a text, or each of them followed by a byte 0. Reports the first
/// that did not stop at its end, or at that byte.
pub(crate) fn run_sweep(alloc: Global, call: &Call, text: &[u8]) -> Result<Done, Broken> {
    for at in 0..text.len() {
        let end = feed_changed(alloc, call, text, at)?;
        if !stops_at(end, at as u64, why_of(call)) {
            return report_odd(alloc, at as u64, end);
        }
    }
    let mut reported = page(alloc);
    report_end(Ok(()), &mut reported)?;
    Ok(answered(alloc, reported))
}

fn why_of(call: &Call) -> Why {
    match call.verb {
        Verb::Prefixes => Why::Ended,
        _ => Why::Byte(0),
    }
}

fn feed_changed(alloc: Global, call: &Call, text: &[u8], at: usize) -> Result<End, Broken> {
    let cut = Cut {
        first: usize::MAX,
        size: 1,
    };
    let mut changed = Vec::new(alloc);
    changed.extend_from_slice(&text[..at.min(text.len())])?;
    if let Verb::Zeros = call.verb {
        changed.push(0)?;
    }
    feed_all(alloc, call, changed.as_slice(), cut, &mut page(alloc))
}

fn stops_at(end: End, at: u64, why: Why) -> bool {
    match end.end {
        Ok(()) => false,
        Err(stop) => stop.why == why && stop.place.offset == at,
    }
}

fn report_odd(alloc: Global, at: u64, end: End) -> Result<Done, Broken> {
    let mut reported = page(alloc);
    report_count(at, b": ", &mut reported)?;
    report_end(end.end, &mut reported)?;
    Ok(answered(alloc, reported))
}
