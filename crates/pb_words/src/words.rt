//! What the arguments of the command line ask for.

ghost use Rattle.std.specs.Prelude.{◌≡◌, ◌^◌, IfErr, IfOk, OnOk, [], Some, codes, option_map};
ghost use Rattle.std.specs.Prelude.{string_bytes};
ghost use Rattle.std.specs.Option.{SomeIff};
ghost use Rattle.std.specs.Str.Parse.{digits_value, without_leading_plus};
ghost use Rattle.clap.specs.Words.{IsUnsignedIn, fault_of, first_of, found_of, rows_of};
ghost use Rattle.clap.specs.Words.{subcommand_of};
ghost use Rattle.clap.specs.Walk.{texts};
ghost use Rattle.pb_words.specs.Words.{AreFilesOf, AreInRange, AreNumbersOf, AsksFor, ExplainsWords};
ghost use Rattle.pb_words.specs.Words.{HasRanges, IsEntryFault, IsFlag, IsFlagFault, IsInstanceFault};
ghost use Rattle.pb_words.specs.Words.{IsNumberFault, IsReader, IsSelection, IsSelectionFault, IsSwitch};
ghost use Rattle.pb_words.specs.Words.{pb_command};

mod fault;
mod options;

use crate::words::fault::{wrong_number, wrong_words};
use crate::words::options::command;
use clap::ArgMatches;
use clap::error::ErrorKind;
pub use fault::WordsFault;
use std::alloc::{AllocError, Global};

/// The largest number that `--longest` allows.
const MOST_BYTES: u64 = 1 << 40;

/// The largest number that `--last`, `--from` and `--to` allow.
const MOST_LINES: u64 = 1 << 40;

/// Which accepted statements a trace prints, and how. If `from` or `to` is given, they begin in
/// these lines of the proof, 1 to `2^40`. If `last` is given, only this many of them are printed,
/// the last ones, 0 to `2^40`. If `ids` is true, the ids of constraints are printed without the
/// constraints.
#[derive(Clone, Copy, Debug)]
pub struct Selection {
    pub last: Option<u64>,
    pub from: Option<u64>,
    pub to: Option<u64>,
    pub ids: bool,
}

/// What the arguments ask for. `longest` is the maximum number of bytes of a statement, 1 to
/// `2^40`, if there is such a limit. `bits` is the number of bits of the largest magnitude of a
/// number, 31 to 127. If `quiet` is true, no hint follows the line of a fault.
#[derive(Debug, Drop)]
pub enum Job {
    /// Print each statement of the file, or of standard input, with its position.
    Show {
        file: Option<String>,
        longest: Option<u64>,
        bits: u32,
        quiet: bool,
    },
    /// Print the canonical text of the file, or of standard input. If `normal` is true, it is an
    /// instance, and each constraint is printed in normal form.
    Tidy {
        normal: bool,
        file: Option<String>,
        longest: Option<u64>,
        bits: u32,
        quiet: bool,
    },
    /// Check whether the proof, or standard input, proves what it claims about the instance. If
    /// `stats` is true, counts are printed after the check. If `progress` is true, a progress line
    /// is printed while it runs. If `explain` is true, the reasons are printed if a statement is
    /// rejected.
    Check {
        instance: String,
        proof: Option<String>,
        stats: bool,
        progress: bool,
        explain: bool,
        longest: Option<u64>,
        bits: u32,
        quiet: bool,
    },
    /// Check the proof, or standard input, and print the selected statements with the constraints
    /// that they add, and the reasons if a statement is rejected. If `progress` is true, a progress
    /// line is printed while it runs.
    Trace {
        instance: String,
        proof: Option<String>,
        selection: Selection,
        progress: bool,
        longest: Option<u64>,
        bits: u32,
        quiet: bool,
    },
}

/// What the arguments ask for. The first of them is the name of the program.
pub fn read_words(alloc: Global, words: &[&str]) -> Result<Job, WordsFault>
    ensures job { IfOk result (AsksFor (subcommand_of pb_command (texts words.now))) }
    ensures right { OnOk result (fault_of pb_command (texts words.now) ≡ []) }
    ensures ranges { IfOk result HasRanges }
    ensures fault { IfErr result (ExplainsWords (texts words.now)) }
{
    let command = command(alloc)?;
    let matches = command.try_get_matches_from(words)?;
    let Some((name, given)) = matches.subcommand() else {
        unreachable!()
    };
    job_of(alloc, name, given)
}

/// What a subcommand with these entries asks for.
#[tactic(auto, using(crate::proofs::lemmas::Entries::wrong_number, crate::proofs::lemmas::Entries::lacks_instance, crate::proofs::lemmas::Entries::wrong_selection))]
fn job_of(alloc: Global, name: &str, given: &ArgMatches<'_>) -> Result<Job, WordsFault>
    requires { IsReader name.now }
    ensures ok { IfOk result (AsksFor (Some (name.now, rows_of (found_of given.now)))) }
    ensures ranges { IfOk result HasRanges }
    ensures err { IfErr result (IsEntryFault (name.now, rows_of (found_of given.now))) }
{
    let (longest, bits) = numbers_of(alloc, name, given)?;
    let quiet = is_given(given, "quiet");
    match name {
        "show" => Ok(Job::Show {
            file: file_name(alloc, given, "file")?,
            longest,
            bits,
            quiet,
        }),
        "tidy" => Ok(Job::Tidy {
            normal: is_given(given, "normal"),
            file: file_name(alloc, given, "file")?,
            longest,
            bits,
            quiet,
        }),
        "check" => {
            let (instance, proof) = files_of(alloc, name, given)?;
            Ok(Job::Check {
                instance,
                proof,
                stats: is_given(given, "stats"),
                progress: is_given(given, "progress"),
                explain: is_given(given, "explain"),
                longest,
                bits,
                quiet,
            })
        }
        _ => {
            let selection = selection_of(alloc, name, given)?;
            let (instance, proof) = files_of(alloc, name, given)?;
            let progress = is_given(given, "progress");
            Ok(Job::Trace {
                instance,
                proof,
                selection,
                progress,
                longest,
                bits,
                quiet,
            })
        }
    }
}

/// The numbers of a subcommand's two flags, `--longest` and `--bits`.
fn numbers_of(
    alloc: Global,
    name: &str,
    given: &ArgMatches<'_>,
) -> Result<(Option<u64>, u32), WordsFault>
    ensures ok { IfOk result (λ r. AreNumbersOf (rows_of (found_of given.now)) r.0 r.1) }
    ensures ranges { IfOk result (λ r. AreInRange r.0 r.1) }
    ensures err { IfErr result (IsNumberFault (rows_of (found_of given.now))) }
{
    let longest = longest_of(alloc, name, given)?;
    let bits = flag_number(alloc, name, given, "bits", 31, 127)?;
    Ok((longest, bits.unwrap_or(127) as u32))
}

/// The number of the flag `--longest`.
fn longest_of(alloc: Global, name: &str, given: &ArgMatches<'_>) -> Result<Option<u64>, WordsFault>
    ensures ok { IfOk result
        (IsFlag 1 (2 ^ 40) (first_of (codes "longest") (rows_of (found_of given.now)))) }
    ensures err { IfErr result
        (IsFlagFault 1 (2 ^ 40) (first_of (codes "longest") (rows_of (found_of given.now)))) }
{
    flag_number(alloc, name, given, "longest", 1, MOST_BYTES)
}

/// What the flags of `trace` select.
fn selection_of(alloc: Global, name: &str, given: &ArgMatches<'_>) -> Result<Selection, WordsFault>
    ensures ok { IfOk result (IsSelection (rows_of (found_of given.now))) }
    ensures err { IfErr result (IsSelectionFault (rows_of (found_of given.now))) }
{
    let last = flag_number(alloc, name, given, "last", 0, MOST_LINES)?;
    let from = flag_number(alloc, name, given, "from", 1, MOST_LINES)?;
    let to = flag_number(alloc, name, given, "to", 1, MOST_LINES)?;
    let ids = is_given(given, "ids");
    Ok(Selection {
        last,
        from,
        to,
        ids,
    })
}

/// The names of the instance and, if one is given, of the proof, for the subcommand with this name.
fn files_of(
    alloc: Global,
    name: &str,
    given: &ArgMatches<'_>,
) -> Result<(String, Option<String>), WordsFault>
    ensures ok { IfOk result (λ r. AreFilesOf (rows_of (found_of given.now)) r.0 r.1) }
    ensures err { IfErr result (IsInstanceFault (rows_of (found_of given.now))) }
{
    let Some(instance) = file_name(alloc, given, "instance")? else {
        let error = wrong_words(
            alloc,
            name,
            ErrorKind::MissingRequiredArgument,
            "no instance is given",
        )?;
        return Err(WordsFault::Words(error));
    };
    let proof = file_name(alloc, given, "proof")?;
    Ok((instance, proof))
}

/// The name of the file that an argument gives, if it is given.
fn file_name(
    alloc: Global,
    given: &ArgMatches<'_>,
    argument: &str,
) -> Result<Option<String>, AllocError>
    ensures { IfOk result (λ name.
        option_map string_bytes name ≡ first_of argument.now (rows_of (found_of given.now))) }
{
    match given.get_str(argument) {
        Some(name) => Ok(Some(String::from_str(alloc, name)?)),
        None => Ok(None),
    }
}

/// Whether a flag without a value is given. The parser then returns `true` as its text, and `false`
/// otherwise.
fn is_given(given: &ArgMatches<'_>, flag: &str) -> bool
    ensures { IsSwitch (first_of flag.now (rows_of (found_of given.now))) result }
{
    match given.get_str(flag) {
        Some(text) => text == "true",
        None => false,
    }
}

/// The number of a flag of the subcommand with this name, if the flag is given.
fn flag_number(
    alloc: Global,
    name: &str,
    given: &ArgMatches<'_>,
    flag: &str,
    low: u64,
    high: u64,
) -> Result<Option<u64>, WordsFault>
    ensures ok { IfOk result (IsFlag low high (first_of flag.now (rows_of (found_of given.now)))) }
    ensures err { IfErr result
        (IsFlagFault low high (first_of flag.now (rows_of (found_of given.now)))) }
{
    let Some(text) = given.get_str(flag) else {
        return Ok(None);
    };
    if let Some(number) = number_within(text, low, high) {
        return Ok(Some(number));
    }
    let error = wrong_number(alloc, name, flag, text, low, high)?;
    Err(WordsFault::Words(error))
}

/// The number that a text represents, if it is from `low` to `high`.
fn number_within(text: &str, low: u64, high: u64) -> Option<u64>
    ensures { SomeIff result (IsUnsignedIn low high text.now)
        (digits_value 10 (without_leading_plus text.now)) }
{
    match text.parse::<u64>() {
        Ok(number) if low <= number && number <= high => Some(number),
        _ => None,
    }
}
