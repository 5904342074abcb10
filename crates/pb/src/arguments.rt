//! The arguments of the command line, and what is answered if they give no job.

ghost use Rattle.std.specs.Prelude.{IfOk};
ghost use Rattle.pb_words.specs.Words.{HasRanges};

use crate::answers::{USAGE, answer_fault, answer_memory};
use crate::until::UntilFault;
use clap::error::ErrorKind;
use pb_tool::{Job, ToolFault, WordsFault, read_words};
use std::alloc::Global;
use std::env::FillError;
use std::io::{self, Write};
use std::rt::Env;
use std::{env, str};

/// The length in bytes of the longest argument that is shown.
const ARGUMENT: usize = 1 << 12;

/// The arguments of the command line, the program's name first.
pub(crate) fn words_of<R: Env + AllocGlobal>(rt: &R) -> io::Result<Vec<String>> {
    let words = env::args(rt)?.collect(rt.alloc())?;
    Ok(words)
}

/// The job that the arguments describe.
pub(crate) fn job_of(alloc: Global, words: &[String]) -> Result<Job, WordsFault>
    ensures { IfOk result HasRanges }
{
    let texts: Vec<&str> = words.iter().map(|word| word.as_str()).collect(alloc)?;
    if is_help_of_help(texts.as_slice()) {
        return read_words(alloc, &["pb", "help", "help"]);
    }
    read_words(alloc, texts.as_slice())
}

/// Whether the arguments are `help --help`. clap knows no flag of `help`, so they are read as
/// `help help`.
fn is_help_of_help(words: &[&str]) -> bool {
    words.len() == 3 && words[1] == "help" && (words[2] == "--help" || words[2] == "-h")
}

/// Reports on arguments that give no job, and returns the exit status.
pub(crate) fn answer_words<R: Print, E: Write>(
    rt: &R,
    words: &[String],
    fault: &WordsFault,
    errors: &mut E,
) -> u8 {
    match fault {
        WordsFault::Words(error) if error.kind() != ErrorKind::OutOfMemory => {
            let status = show_text(rt, error, errors);
            if error.kind() == ErrorKind::InvalidValue {
                let _ = errors.write_all(usage_of(words));
            }
            status
        }
        _ => answer_memory(errors),
    }
}

/// Shows help on standard output, and a usage error on standard error.
fn show_text<R: Print, E: Write>(rt: &R, error: &clap::Error, errors: &mut E) -> u8 {
    if error.use_stderr() {
        let _ = write!(errors, "{error}");
        return USAGE;
    }
    match write!(UntilFault::new(io::writer(rt)), "{error}") {
        Ok(()) => 0,
        Err(_) => answer_fault(&ToolFault::Write, errors),
    }
}

/// The usage of the subcommand that the arguments name. clap writes none if a flag has no value.
fn usage_of(words: &[String]) -> &'static [u8] {
    match words.get(1) {
        Some(word) if word.as_str() == "check" =>
            b"\nUsage: pb check [OPTIONS] <INSTANCE> [PROOF]\n",
        Some(word) if word.as_str() == "trace" =>
            b"\nUsage: pb trace [OPTIONS] <INSTANCE> [PROOF]\n",
        Some(word) if word.as_str() == "tidy" => b"\nUsage: pb tidy [OPTIONS] [FILE]\n",
        _ => b"\nUsage: pb show [OPTIONS] [FILE]\n",
    }
}

/// Reports that the arguments could not be read, and returns the exit status. One is not UTF-8, or
/// memory ran out.
pub(crate) fn answer_no_words<R: Env, E: Write>(rt: &R, error: &io::Error, errors: &mut E) -> u8 {
    if error.kind() != io::ErrorKind::InvalidData {
        return answer_memory(errors);
    }
    for number in 0..usize::MAX {
        let mut room = [0; ARGUMENT];
        match rt.arg(number, &mut room) {
            Ok(length) if str::from_utf8(&room[..length]).is_err() => {
                let _ = write!(errors, "error: argument {number} is not UTF-8: ");
                write_escaped(&room[..length], errors);
                return USAGE;
            }
            Ok(_) | Err(FillError::TooLong) => {}
            Err(FillError::NotPresent) => break,
        }
    }
    let _ = errors.write_all(b"error: an argument is not UTF-8\n");
    USAGE
}

/// Writes a line of bytes. Bytes that are not printable ASCII are written as `\x` and two
/// hexadecimal digits.
fn write_escaped<E: Write>(bytes: &[u8], errors: &mut E) {
    for byte in bytes {
        let _ = match *byte {
            b' '..=b'~' => errors.write_all(&[*byte]),
            other => write!(errors, "\\x{other:02x}"),
        };
    }
    let _ = errors.write_all(b"\n");
}
