//! Runs rows: calls of the library, with their expected output and expected result.
#![tactic(auto)]

mod broken;
mod check;
mod command;
mod constraint;
mod counted;
mod fault;
mod feed;
mod job;
mod judge;
mod name;
mod page;
mod pull;
mod read;
mod refuted;
mod rest;
mod row;
mod rows;
mod steps;
mod sweep;
mod text;
mod turns;
mod visits;

use crate::broken::Broken;
use crate::rows::{Count, Reported, run_rows, write_counts};
use crate::visits::write_visits;
use pb_text::Over;
use std::io::{self, Write};
use std::process::ExitCode;
use std::rt::{Env, Files};
use std::{env, fs};

/// The exit status if a row differs.
const DIFFERS: u8 = 1;

/// The exit status if the rows could not be read.
const FAILED: u8 = 3;

/// The word that asks for a line before each row, so that a row that does not end can be found.
const EACH: &str = "--each";

/// The word that asks for the visits of a proof instead of rows. The files of an instance and of
/// its proof follow it.
const VISITS: &str = "--visits";

fn main(rt: HostRuntime) -> ExitCode {
    ExitCode::from(run(&rt, &mut rt.stderr()))
}

/// Runs the rows of all files and returns the exit status.
fn run<R: Env + Files + Print + AllocGlobal, E: Write>(rt: &R, errors: &mut E) -> u8 {
    if let Some((instance, proof)) = visits_asked(rt) {
        return match report_visits(rt, instance.as_str(), proof.as_str()) {
            Ok(()) => 0,
            Err(_) => FAILED,
        };
    }
    let Ok(count) = run_files(rt, errors) else {
        return FAILED;
    };
    match write_counts(count, &mut Over::new(io::writer(rt))) {
        Ok(()) if count.differ == 0 => 0,
        Ok(()) => DIFFERS,
        Err(_) => FAILED,
    }
}

/// The two files whose visits are asked for, if the first word asks for visits.
fn visits_asked<R: Env + AllocGlobal>(rt: &R) -> Option<(String, String)> {
    let mut words = env::args(rt).ok()?.skip(1);
    if words.next()?.as_str() != VISITS {
        return None;
    }
    Some((words.next()?, words.next()?))
}

/// Reports the visits of a proof. Both files are given by name.
fn report_visits<R: Files + Print + AllocGlobal>(
    rt: &R,
    instance: &str,
    proof: &str,
) -> Result<(), Broken> {
    let Ok(instance) = fs::read(rt, instance) else {
        return Err(Broken::File);
    };
    let Ok(proof) = fs::read(rt, proof) else {
        return Err(Broken::File);
    };
    let mut out = Over::new(io::writer(rt));
    write_visits(rt.alloc(), instance.as_slice(), proof.as_slice(), &mut out)
}

/// Runs the rows of the files that the words name.
fn run_files<R: Env + Files + AllocGlobal, E: Write>(
    rt: &R,
    errors: &mut E,
) -> Result<Count, Broken> {
    let mut count = Count { rows: 0, differ: 0 };
    let mut reported = Reported::Differing;
    let Ok(words) = env::args(rt) else {
        return Err(Broken::Memory);
    };
    for word in words.skip(1) {
        run_word(rt, word.as_str(), &mut reported, &mut count, errors)?;
    }
    Ok(count)
}

/// Runs the rows of the file that a word names, or notes that each row is to be reported.
fn run_word<R: Files + AllocGlobal, E: Write>(
    rt: &R,
    word: &str,
    reported: &mut Reported,
    count: &mut Count,
    errors: &mut E,
) -> Result<(), Broken> {
    if word == EACH {
        *reported = Reported::Each;
        return Ok(());
    }
    run_file(rt, word, *reported, count, errors)
}

fn run_file<R: Files + AllocGlobal, E: Write>(
    rt: &R,
    name: &str,
    reported: Reported,
    count: &mut Count,
    errors: &mut E,
) -> Result<(), Broken> {
    let Ok(text) = fs::read_to_string(rt, name) else {
        return Err(Broken::File);
    };
    let mut out = Over::new(errors);
    run_rows(rt.alloc(), name, text.as_str(), reported, count, &mut out)?;
    Ok(())
}
