//! The command `pb`: its arguments, its files and its exit status.
#![tactic(auto)]

ghost use Rattle.pb_words.specs.Words.{HasRanges};

mod answers;
mod arguments;
mod asked;
mod both;
mod checking;
mod described;
mod explaining;
mod failure;
mod hints;
mod inputs;
mod leaving;
mod origin;
mod output;
mod recent;
mod recorded;
mod texts;
mod tied;
mod tracing;
mod until;
mod visible;
mod watching;

use crate::answers::{USAGE, answer_fault};
use crate::arguments::{answer_no_words, answer_words, job_of, words_of};
use crate::asked::{asked_of, is_quiet, reads_one_input_twice};
use crate::checking::check_asked;
use crate::explaining::write_reasons;
use crate::failure::Failure;
use crate::hints::{write_hint, write_waiting};
use crate::inputs::{open_both, opened, path_of};
use crate::texts::{show_over, tidy_over};
use crate::tracing::trace_asked;
use pb_tool::{Input, Job, limits_of};
use std::io::{self, IsTerminal, Read, Write};
use std::process::ExitCode;
use std::random::RandomSource;
use std::rt::{Env, Files};
use std::time::Clock;

/// The usage error of a check that has standard input for both texts.
const TWICE: &[u8] = b"error: the instance and the proof cannot both be standard input

Usage: pb check [OPTIONS] <INSTANCE> [PROOF]

For more information, try '--help'.
";

/// The same for a trace.
const TRACED_TWICE: &[u8] = b"error: the instance and the proof cannot both be standard input

Usage: pb trace [OPTIONS] <INSTANCE> [PROOF]

For more information, try '--help'.
";

fn main(rt: HostRuntime) -> ExitCode {
    ExitCode::from(run(&rt, rt.stdin(), &rt.stdout(), &mut rt.stderr()))
}

/// Reads the arguments, runs their job and returns the exit status.
fn run<R, S, O, E>(rt: &R, standard: S, out: &O, errors: &mut E) -> u8
where
    R: Env + Files + Print + RandomSource + Clock + AllocGlobal,
    S: Read + IsTerminal + Copy,
    O: IsTerminal,
    E: Write + IsTerminal,
{
    let words = match words_of(rt) {
        Ok(words) => words,
        Err(error) => return answer_no_words(rt, &error, errors),
    };
    let job = match job_of(rt.alloc(), words.as_slice()) {
        Ok(job) => job,
        Err(fault) => return answer_words(rt, words.as_slice(), &fault, errors),
    };
    if reads_one_input_twice(&job) {
        let _ = errors.write_all(twice_of(&job));
        return USAGE;
    }
    if !is_quiet(&job) && standard.is_terminal() {
        write_waiting(&job, errors);
    }
    match do_job(rt, standard, out, &job, errors) {
        Ok(()) => 0,
        Err(failure) => answer_failure(rt, standard, &job, &failure, errors),
    }
}

/// Writes why a job failed, and what helps then. Returns the exit status.
fn answer_failure<R, S, E>(rt: &R, standard: S, job: &Job, failure: &Failure, errors: &mut E) -> u8
where
    R: Files + RandomSource + AllocGlobal,
    S: Read + Copy,
    E: Write,
    requires { HasRanges job.now }
{
    let status = answer_fault(&failure.fault, errors);
    write_reasons(rt, standard, job, failure, errors);
    if !is_quiet(job) {
        write_hint(rt, job, failure, errors);
    }
    status
}

/// The usage error of a job that reads both its instance and its proof from standard input.
fn twice_of(job: &Job) -> &'static [u8] {
    match job {
        Job::Trace { .. } => TRACED_TWICE,
        _ => TWICE,
    }
}

/// Opens the files of a job and runs it.
fn do_job<R, S, O, E>(
    rt: &R,
    standard: S,
    out: &O,
    job: &Job,
    errors: &mut E,
) -> Result<(), Failure>
where
    R: Files + Print + RandomSource + Clock + AllocGlobal,
    S: Read + IsTerminal + Copy,
    O: IsTerminal,
    E: Write + IsTerminal,
    requires { HasRanges job.now }
{
    match job {
        Job::Show {
            file,
            longest,
            bits,
            ..
        } => {
            let input = opened(rt, standard, path_of(file), Input::File)?;
            let limits = limits_of(*bits);
            let on_terminal = out.is_terminal();
            let writer = io::writer(rt);
            show_over(rt.alloc(), input, writer, on_terminal, *longest, limits)?;
        }
        Job::Tidy {
            normal,
            file,
            longest,
            bits,
            ..
        } => {
            let input = opened(rt, standard, path_of(file), Input::File)?;
            let limits = limits_of(*bits);
            tidy_over(rt, input, out.is_terminal(), *normal, *longest, limits)?;
        }
        Job::Check {
            instance,
            proof,
            longest,
            bits,
            ..
        } => {
            let asked = asked_of(rt, job, errors);
            let texts = open_both(rt, standard, instance.as_str(), path_of(proof))?;
            check_asked(rt, texts, *longest, limits_of(*bits), asked, errors)?;
        }
        Job::Trace {
            instance,
            proof,
            selection,
            longest,
            bits,
            ..
        } => {
            let asked = asked_of(rt, job, errors);
            let texts = open_both(rt, standard, instance.as_str(), path_of(proof))?;
            let limits = limits_of(*bits);
            trace_asked(rt, texts, *selection, *longest, limits, asked, errors)?;
        }
    }
    Ok(())
}
