//! Rows of the words of the command line.

use crate::broken::Broken;
use crate::name::lines_of;
use crate::page::{Done, Page, answered, page, report_count, report_either};
use clap::error::ErrorKind;
use pb_text::write_bytes;
use pb_words::{Job, Selection, WordsFault, read_words};
use std::alloc::Global;

/// Reads the lines of the input as the words of a command line. Reports the job that they ask for,
/// or else the kind of the error and the exit status. With `shows=` it also reports whether the
/// error's text has the given word.
pub(crate) fn run_words(alloc: Global, line: &str, text: &[u8]) -> Result<Done, Broken> {
    let words: Vec<&str> = lines_of(text)?.lines().collect(alloc)?;
    let mut reported = page(alloc);
    match read_words(alloc, words.as_slice()) {
        Ok(job) => report_job(&job, &mut reported)?,
        Err(WordsFault::Words(error)) => report_error(alloc, &error, line, &mut reported)?,
        Err(WordsFault::Memory) => return Err(Broken::Memory),
    }
    Ok(answered(alloc, reported))
}

fn report_job(job: &Job, reported: &mut Page) -> Result<(), Broken> {
    match job {
        Job::Show {
            file,
            longest,
            bits,
            quiet,
        } => {
            write_bytes(b"show", reported)?;
            report_name(b" file=", file, reported)?;
            report_flags(*longest, *bits, *quiet, reported)
        }
        Job::Tidy {
            normal,
            file,
            longest,
            bits,
            quiet,
        } => {
            report_either(*normal, b"tidy normal", b"tidy", reported)?;
            report_name(b" file=", file, reported)?;
            report_flags(*longest, *bits, *quiet, reported)
        }
        Job::Check {
            instance,
            proof,
            stats,
            progress,
            explain,
            longest,
            bits,
            quiet,
        } => {
            report_files(b"check instance=", instance.as_str(), proof, reported)?;
            report_either(*stats, b" stats", b"", reported)?;
            report_either(*progress, b" progress", b"", reported)?;
            report_either(*explain, b" explain", b"", reported)?;
            report_flags(*longest, *bits, *quiet, reported)
        }
        Job::Trace {
            instance,
            proof,
            selection,
            progress,
            longest,
            bits,
            quiet,
        } => {
            report_files(b"trace instance=", instance.as_str(), proof, reported)?;
            report_selection(*selection, reported)?;
            report_either(*progress, b" progress", b"", reported)?;
            report_flags(*longest, *bits, *quiet, reported)
        }
    }
}

/// Reports the names of an instance, after a label, and of a proof.
fn report_files(
    label: &[u8],
    instance: &str,
    proof: &Option<String>,
    reported: &mut Page,
) -> Result<(), Broken> {
    write_bytes(label, reported)?;
    write_bytes(instance.as_bytes(), reported)?;
    report_name(b" proof=", proof, reported)
}

/// Reports the name of a file after a label, if there is a name.
fn report_name(label: &[u8], name: &Option<String>, reported: &mut Page) -> Result<(), Broken> {
    if let Some(name) = name {
        write_bytes(label, reported)?;
        write_bytes(name.as_bytes(), reported)?;
    }
    Ok(())
}

/// Reports what a trace selects.
fn report_selection(selection: Selection, reported: &mut Page) -> Result<(), Broken> {
    report_number(b" last=", selection.last, reported)?;
    report_number(b" from=", selection.from, reported)?;
    report_number(b" to=", selection.to, reported)?;
    report_either(selection.ids, b" ids", b"", reported)?;
    Ok(())
}

/// Reports a number after a label, if there is one.
fn report_number(label: &[u8], number: Option<u64>, reported: &mut Page) -> Result<(), Broken> {
    if let Some(number) = number {
        write_bytes(label, reported)?;
        report_count(number, b"", reported)?;
    }
    Ok(())
}

/// Reports the flags that each job has.
fn report_flags(
    longest: Option<u64>,
    bits: u32,
    quiet: bool,
    reported: &mut Page,
) -> Result<(), Broken> {
    report_number(b" longest=", longest, reported)?;
    write_bytes(b" bits=", reported)?;
    report_count(bits as u64, b"", reported)?;
    report_either(quiet, b" quiet\n", b"\n", reported)?;
    Ok(())
}

fn report_error(
    alloc: Global,
    error: &clap::Error,
    line: &str,
    reported: &mut Page,
) -> Result<(), Broken> {
    write_bytes(kind_text(error.kind()), reported)?;
    report_either(
        error.exit_code() == 0,
        b"status 0\n",
        b"status 2\n",
        reported,
    )?;
    let Some((_, word)) = line.split_once("shows=") else {
        return Ok(());
    };
    let text = error.to_string(alloc)?;
    let is_shown = text.as_str().contains(word);
    report_either(is_shown, b"shown\n", b"not shown\n", reported)?;
    Ok(())
}

/// The kind of an error, in words.
fn kind_text(kind: ErrorKind) -> &'static [u8] {
    match kind {
        ErrorKind::DisplayHelp => b"help\n",
        ErrorKind::DisplayVersion => b"version\n",
        ErrorKind::DisplayHelpOnMissingArgumentOrSubcommand => b"help on no command\n",
        ErrorKind::UnknownArgument => b"unknown word\n",
        ErrorKind::InvalidSubcommand => b"no such command\n",
        ErrorKind::ArgumentConflict => b"twice\n",
        ErrorKind::InvalidValue => b"no value\n",
        ErrorKind::MissingRequiredArgument => b"missing\n",
        ErrorKind::ValueValidation => b"wrong value\n",
        ErrorKind::OutOfMemory => b"out of memory\n",
        _ => b"another fault\n",
    }
}
