//! Reads rows and runs them.

use crate::broken::Broken;
use crate::check::run_checker;
use crate::constraint::run_forms;
use crate::counted::run_count;
use crate::fault::run_fault;
use crate::feed::run_feed;
use crate::job::run_words;
use crate::judge::{run_judge, run_limits};
use crate::name::{run_names, run_numbers};
use crate::page::{Done, is_same};
use crate::pull::run_pull;
use crate::read::run_read;
use crate::refuted::run_refuted;
use crate::rest::run_rest;
use crate::row::Row;
use crate::row::call::{Call, Verb, call_of};
use crate::row::spell::add_line;
use crate::steps::run_steps;
use crate::sweep::run_sweep;
use crate::text::run_write;
use crate::turns::run_turns;
use pb_sums::write_count;
use pb_text::{Failed, Sink, write_bytes};
use std::alloc::Global;

/// How many rows were run, and how many of them differ.
#[derive(Clone, Copy)]
pub struct Count {
    pub rows: u64,
    pub differ: u64,
}

/// For which rows a line is written.
#[derive(Clone, Copy)]
pub enum Reported {
    /// For those that differ.
    Differing,
    /// For each row, before it is run, and for those that differ.
    Each,
}

/// Writes how many rows there were, and how many of them differ.
pub(crate) fn write_counts<S: Sink>(count: Count, out: &mut S) -> Result<(), Failed> {
    write_count(count.rows, out)?;
    write_bytes(b" rows, ", out)?;
    write_count(count.differ, out)?;
    write_bytes(b" differ\n", out)
}

/// Runs each row of a file, counts them, and writes a line for each that differs.
pub(crate) fn run_rows<S: Sink>(
    alloc: Global,
    name: &str,
    text: &str,
    reported: Reported,
    count: &mut Count,
    out: &mut S,
) -> Result<(), Failed> {
    let mut row = Row::new(alloc, name);
    let mut number = 0u64;
    for line in text.lines() {
        number = number.saturating_add(1);
        if is_kept(&mut row, line) {
            continue;
        }
        end_row(alloc, &row, reported, count, out)?;
        let begun = row.begin_line(number, line);
        row.note(begun);
    }
    end_row(alloc, &row, reported, count, out)
}

/// Adds a line to a row, unless the line begins a row.
fn is_kept(row: &mut Row<'_>, line: &str) -> bool {
    if line.is_empty() || line.starts_with('#') {
        return true;
    }
    let kept = if let Some(rest) = line.strip_prefix('|') {
        row.add_input(rest)
    } else if let Some(rest) = line.strip_prefix('>') {
        add_line(&mut row.wanted.written, rest)
    } else if let Some(rest) = line.strip_prefix('=') {
        add_line(&mut row.wanted.answer, rest)
    } else {
        return false;
    };
    row.note(kept);
    true
}

/// Runs a row, if one has begun.
fn end_row<S: Sink>(
    alloc: Global,
    row: &Row<'_>,
    reported: Reported,
    count: &mut Count,
    out: &mut S,
) -> Result<(), Failed> {
    if row.number == 0 {
        return Ok(());
    }
    count.rows = count.rows.saturating_add(1);
    if let Reported::Each = reported {
        write_row(row, out)?;
        write_bytes(b"\n", out)?;
    }
    let found = run_row(alloc, row);
    if matches!(&found, Ok(done) if is_same(done, &row.wanted)) {
        return Ok(());
    }
    count.differ = count.differ.saturating_add(1);
    write_row(row, out)?;
    write_found(&found, out)
}

/// Writes the unexpected result of a row, or the reason why it was not run.
fn write_found<S: Sink>(found: &Result<Done, Broken>, out: &mut S) -> Result<(), Failed> {
    match found {
        Ok(done) => {
            write_escaped(done.written.as_slice(), out)?;
            write_bytes(b" = ", out)?;
            write_escaped(done.answer.as_slice(), out)?;
            write_bytes(b"\n", out)
        }
        Err(broken) => {
            write_bytes(b"cannot be run: ", out)?;
            write_bytes(broken.reason().as_bytes(), out)?;
            write_bytes(b"\n", out)
        }
    }
}

fn write_row<S: Sink>(row: &Row<'_>, out: &mut S) -> Result<(), Failed> {
    write_bytes(row.file.as_bytes(), out)?;
    write_bytes(b":", out)?;
    write_count(row.number, out)?;
    write_bytes(b": ", out)?;
    write_bytes(row.call.as_bytes(), out)?;
    write_bytes(b": ", out)
}

fn write_escaped<S: Sink>(bytes: &[u8], out: &mut S) -> Result<(), Failed> {
    for byte in bytes {
        match *byte {
            b'\n' => write_bytes(b"\\n", out)?,
            byte => write_bytes(&[byte], out)?,
        }
    }
    Ok(())
}

fn run_row(alloc: Global, row: &Row<'_>) -> Result<Done, Broken> {
    row.fault()?;
    let call = call_of(row.call)?;
    run_call(alloc, &call, row)
}

fn run_call(alloc: Global, call: &Call, row: &Row<'_>) -> Result<Done, Broken> {
    let text = row.input.as_slice();
    match call.verb {
        Verb::Show | Verb::Tidy | Verb::TidyNormal | Verb::Check => {
            run_turns(alloc, call, text, &row.wanted)
        }
        Verb::Feed | Verb::Stop => run_feed(alloc, call, text, &row.wanted),
        Verb::Read => run_read(alloc, call, text),
        Verb::Pull => run_pull(alloc, call, text),
        Verb::Prefixes | Verb::Zeros => run_sweep(alloc, call, text),
        Verb::Judge => run_judge(alloc, call, text),
        Verb::Forms => run_forms(alloc, call, row.call, text),
        Verb::Names => run_names(alloc, text),
        Verb::Numbers => run_numbers(alloc, text),
        Verb::Words => run_words(alloc, row.call, text),
        Verb::Fault => run_fault(alloc, row.call),
        Verb::Limits => run_limits(alloc, call),
        Verb::Write => run_write(alloc, call, text),
        Verb::Rest => run_rest(alloc, call, text),
        Verb::Count => run_count(alloc, call, text),
        Verb::Checker => run_checker(alloc, call, text, &row.wanted),
        Verb::Steps => run_steps(alloc, call, text),
        Verb::Refuted => run_refuted(alloc, text),
    }
}
