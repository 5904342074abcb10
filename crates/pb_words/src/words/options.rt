//! The program, its subcommands and their arguments.

ghost use Rattle.std.specs.Prelude.{◌≡◌, IfErr, IfOk, false};
ghost use Rattle.clap.specs.Words.{app_of, kind_of, rule_of};
ghost use Rattle.clap.specs.declared.builder.Command.TheViews.{out-Command as fields_of};
ghost use Rattle.pb_words.specs.Words.{check_command, checker_command, flag_rule, instance_rule};
ghost use Rattle.pb_words.specs.Words.{pb_command, pb_program, reader_command, show_command};
ghost use Rattle.pb_words.specs.Words.{switch_rule, tidy_command, trace_command, value_rule};
ghost use Rattle.pb_words.specs.Words.{with_selection as with_selection_rules};
ghost use Rattle.pb_words.specs.Words.{with_shared as with_shared_rules};

use clap::error::ErrorKind;
use clap::{Arg, ArgAction, Command};
use std::alloc::{AllocError, Global};

/// The version that `--version` prints.
const VERSION: &str = "0.1.0";

const PB_HELP: &str = "\
pb COMMAND --help and pb help COMMAND print the options of a command, with an example.

Example: pb tidy instance.opb
prints the canonical text of the instance, or reports on standard error where and why the text
is no instance. A file that begins with p is treated as a proof. A file named - is standard
input; the file of that name is ./-.

Exit status:
  0  done, or help or the version was printed
  1  the file was rejected: standard error has the position and the reason
  2  usage error
  3  the file could not be opened or read, the output could not be written, or memory ran out";

const CHECK_HELP: &str = "\
Example: if instance.opb has the lines
  * #variable= 1 #constraint= 2
  +1 x1 >= 1 ;
  +1 ~x1 >= 1 ;
and proof.pbp has the lines
  pseudo-Boolean proof version 2.0
  f 2
  pol 1 2 +
  output NONE
  conclusion UNSAT : 3
  end pseudo-Boolean proof
pb check instance.opb proof.pbp prints
  verified UNSAT
With --stats it also prints counts on standard error.

Exit status:
  0  the proof was verified
  1  the instance or the proof was rejected: standard error has the reason, and the position
     if there is one, and nothing was printed. With --explain further lines say why a statement
     was rejected, as pb trace prints them
  2  usage error
  3  a file could not be opened or read, the output could not be written, or memory ran out";

const TRACE_HELP: &str = "\
Example: if instance.opb has the lines
  * #variable= 1 #constraint= 2
  +1 x1 >= 1 ;
  +1 ~x1 >= 1 ;
and proof.pbp has the lines
  pseudo-Boolean proof version 2.0
  f 2
  pol 1 2 +
  output NONE
  conclusion UNSAT : 3
  end pseudo-Boolean proof
pb trace instance.opb proof.pbp prints
  1:1 pseudo-Boolean proof version 2.0
  2:1 f 2
    -> 1: +1 x1 >= 1 ; (instance line 2)
    -> 2: +1 ~x1 >= 1 ; (instance line 3)
  3:1 pol 1 2 + -> 3: >= 1 ;
  4:1 output NONE
  5:1 conclusion UNSAT : 3
  6:1 end pseudo-Boolean proof
  verified UNSAT

Exit status:
  0  the proof was verified
  1  the instance or the proof was rejected: standard error has the reason, and the position
     if there is one, and the statements before that position were printed. After a rejected
     statement come lines that say why: what was looked at, with the lines where it is written,
     and for a rup each literal that is propagated, with the constraint that forces it
  2  usage error
  3  a file could not be opened or read, the output could not be written, or memory ran out";

const SHOW_HELP: &str = "\
Example: if instance.opb has the lines
  * #variable= 2 #constraint= 1
  1 x1   1 x2>=1;
pb show instance.opb prints
  1:1 * #variable= 2 #constraint= 1
  2:1 +1 x1 +1 x2 >= 1 ;

Exit status:
  0  all statements were printed
  1  the file was rejected: standard error has the position and the reason, and the
     statements before that position were printed
  2  usage error
  3  the file could not be opened or read, the output could not be written, or memory ran out";

const TIDY_HELP: &str = "\
Example: if instance.opb has the lines
  * #variable= 2 #constraint= 1
  1 x1   1 x2>=1;
pb tidy instance.opb prints
  * #variable= 2 #constraint= 1
  +1 x1 +1 x2 >= 1 ;
and, if its second line is 1 x1 -1 x2 = 0;, pb tidy --normal instance.opb prints
  * #variable= 2 #constraint= 2
  +1 x1 +1 ~x2 >= 1 ;
  +1 ~x1 +1 x2 >= 1 ;

Exit status:
  0  the canonical text was printed
  1  the file was rejected: standard error has the reason, and the position if there is one, and
     nothing was printed
  2  usage error
  3  the file could not be opened or read, the output could not be written, or memory ran out";

/// The program and its subcommands.
pub(crate) fn command<'a>(alloc: Global) -> Result<Command<'a>, clap::Error>
    ensures ok { IfOk result (λ c. app_of c ≡ pb_command) }
    ensures err { IfErr result (λ e. kind_of e ≡ ErrorKind.OutOfMemory) }
{
    let show = show(alloc)?;
    let with_show = program(alloc).subcommand(show)?;
    let tidy = tidy(alloc)?;
    let with_tidy = with_show.subcommand(tidy)?;
    let check = check(alloc)?;
    let with_check = with_tidy.subcommand(check)?;
    let trace = trace(alloc)?;
    let with_trace = with_check.subcommand(trace)?;
    Ok(with_trace)
}

/// The program without its subcommands.
fn program<'a>(alloc: Global) -> Command<'a>
    ensures app { app_of result ≡ pb_program }
    ensures local { (fields_of result).has_globals ≡ false }
{
    Command::new(alloc, "pb")
        .version(VERSION)
        .about(
            "Reads and writes pseudo-Boolean instances in the OPB format and proofs in VeriPB 2.0, and checks such proofs",
        )
        .after_help(PB_HELP)
        .subcommand_required(true)
        .arg_required_else_help(true)
}

/// The subcommand with a name.
pub(crate) fn subcommand<'a>(alloc: Global, name: &str) -> Result<Command<'a>, AllocError> {
    match name {
        "show" => show(alloc),
        "tidy" => tidy(alloc),
        "check" => check(alloc),
        _ => trace(alloc),
    }
}

/// The name of a subcommand, after the name of the program.
pub(crate) fn shown_name(name: &str) -> &'static str {
    match name {
        "show" => "pb show",
        "tidy" => "pb tidy",
        "check" => "pb check",
        _ => "pb trace",
    }
}

fn show<'a>(alloc: Global) -> Result<Command<'a>, AllocError>
    ensures app { IfOk result (λ c. app_of c ≡ show_command) }
    ensures local { IfOk result (λ c. (fields_of c).has_globals ≡ false) }
{
    reader(
        alloc,
        "show",
        "Print each statement of an instance or a proof with its position, as it is read",
        SHOW_HELP,
    )
}

#[tactic(auto, using(crate::proofs::lemmas::Added::added_app, crate::proofs::lemmas::Added::added_local))]
fn tidy<'a>(alloc: Global) -> Result<Command<'a>, AllocError>
    ensures app { IfOk result (λ c. app_of c ≡ tidy_command) }
    ensures local { IfOk result (λ c. (fields_of c).has_globals ≡ false) }
{
    reader(
        alloc,
        "tidy",
        "Print the canonical text of an instance or a proof, once all of it was read",
        TIDY_HELP,
    )?
    .arg(switch(
        alloc,
        "normal",
        "Read an instance; print each constraint in normal form, an equality as two, without comments",
    ))
}

#[tactic(auto, using(crate::proofs::lemmas::Added::added_local))]
fn check<'a>(alloc: Global) -> Result<Command<'a>, AllocError>
    ensures app { IfOk result (λ c. app_of c ≡ check_command) }
    ensures local { IfOk result (λ c. (fields_of c).has_globals ≡ false) }
{
    checker(
        alloc,
        "check",
        "Check a proof against an instance, and print the verdict",
        CHECK_HELP,
    )?
    .arg(switch(
        alloc,
        "stats",
        "After the check, print counts on standard error",
    ))?
    .arg(switch(
        alloc,
        "progress",
        "While the check runs, print a progress line on standard error",
    ))?
    .arg(switch(
        alloc,
        "explain",
        "If a statement is rejected, print the reasons on standard error, after the line of the fault",
    ))
}

#[tactic(auto, using(crate::proofs::lemmas::Added::added_app, crate::proofs::lemmas::Added::added_local))]
fn trace<'a>(alloc: Global) -> Result<Command<'a>, AllocError>
    ensures app { IfOk result (λ c. app_of c ≡ trace_command) }
    ensures local { IfOk result (λ c. (fields_of c).has_globals ≡ false) }
{
    let command = checker(
        alloc,
        "trace",
        "Check a proof as check does, and print each statement with the constraints that it adds; if a statement is rejected, print why",
        TRACE_HELP,
    )?;
    with_selection(alloc, command)?.arg(switch(
        alloc,
        "progress",
        "While the check runs, print a progress line on standard error",
    ))
}

/// A subcommand with the flags that select what a trace prints, after its other arguments.
#[tactic(auto, using(crate::proofs::lemmas::Added::added_local))]
fn with_selection<'a>(alloc: Global, command: Command<'a>) -> Result<Command<'a>, AllocError>
    requires { (fields_of command).has_globals ≡ false }
    ensures app { IfOk result (λ c. app_of c ≡ with_selection_rules (app_of command.entry)) }
    ensures local { IfOk result (λ c. (fields_of c).has_globals ≡ false) }
{
    command
        .arg(flag(
            alloc,
            "last",
            "N",
            "Print only the last N accepted statements",
        ))?
        .arg(flag(
            alloc,
            "from",
            "LINE",
            "Print only accepted statements that begin in this line of the proof or after it",
        ))?
        .arg(flag(
            alloc,
            "to",
            "LINE",
            "Print only accepted statements that begin in this line of the proof or before it",
        ))?
        .arg(switch(
            alloc,
            "ids",
            "Print the ids of constraints without the constraints",
        ))
}

/// A subcommand that checks a proof of an instance.
#[tactic(auto, using(crate::proofs::lemmas::Added::added_local))]
fn checker<'a>(
    alloc: Global,
    name: &'a str,
    about: &'a str,
    help: &'a str,
) -> Result<Command<'a>, AllocError>
    ensures app { IfOk result (λ c. app_of c ≡ checker_command name.entry.now) }
    ensures local { IfOk result (λ c. (fields_of c).has_globals ≡ false) }
{
    let command = Command::new(alloc, name)
        .about(about)
        .after_help(help)
        .arg(instance(alloc))?
        .arg(value_argument(
            alloc,
            "proof",
            "PROOF",
            "The proof, in VeriPB 2.0; standard input if absent or -",
        ))?;
    with_shared(alloc, command)
}

/// A subcommand that reads one file.
#[tactic(auto, using(crate::proofs::lemmas::Added::added_local))]
fn reader<'a>(
    alloc: Global,
    name: &'a str,
    about: &'a str,
    help: &'a str,
) -> Result<Command<'a>, AllocError>
    ensures app { IfOk result (λ c. app_of c ≡ reader_command name.entry.now) }
    ensures local { IfOk result (λ c. (fields_of c).has_globals ≡ false) }
{
    let command = Command::new(alloc, name)
        .about(about)
        .after_help(help)
        .arg(value_argument(
            alloc,
            "file",
            "FILE",
            "The file to read; standard input if absent or -",
        ))?;
    with_shared(alloc, command)
}

/// A subcommand with the flags that each of the four takes, after its other arguments.
#[tactic(auto, using(crate::proofs::lemmas::Added::added_local))]
fn with_shared<'a>(alloc: Global, command: Command<'a>) -> Result<Command<'a>, AllocError>
    requires { (fields_of command).has_globals ≡ false }
    ensures app { IfOk result (λ c. app_of c ≡ with_shared_rules (app_of command.entry)) }
    ensures local { IfOk result (λ c. (fields_of c).has_globals ≡ false) }
{
    command
        .arg(flag(
            alloc,
            "longest",
            "B",
            "Reject a statement of more than B bytes, 1 to 2^40",
        ))?
        .arg(flag(
            alloc,
            "bits",
            "K",
            "Reject numbers past 2^K - 1, K from 31 to 127; 127 if absent",
        ))?
        .arg(switch(
            alloc,
            "quiet",
            "After a fault, print no hint on standard error",
        ))
}

/// The instance that `check` and `trace` read.
fn instance<'a>(alloc: Global) -> Arg<'a>
    ensures rule { rule_of result ≡ instance_rule }
    ensures local { result.global ≡ false }
{
    value_argument(
        alloc,
        "instance",
        "INSTANCE",
        "The instance, in the OPB format",
    )
    .required(true)
}

/// A flag without a value.
fn switch<'a>(alloc: Global, name: &'a str, help: &'a str) -> Arg<'a>
    ensures rule { rule_of result ≡ switch_rule name.entry.now }
    ensures local { result.global ≡ false }
{
    Arg::new(alloc, name)
        .long(name)
        .action(ArgAction::SetTrue)
        .help(help)
}

/// A flag with a number.
fn flag<'a>(alloc: Global, name: &'a str, value: &'a str, help: &'a str) -> Arg<'a>
    ensures rule { rule_of result ≡ flag_rule name.entry.now }
    ensures local { result.global ≡ false }
{
    value_argument(alloc, name, value, help).long(name)
}

/// An argument that takes a value.
fn value_argument<'a>(alloc: Global, name: &'a str, value: &'a str, help: &'a str) -> Arg<'a>
    ensures rule { rule_of result ≡ value_rule name.entry.now }
    ensures local { result.global ≡ false }
{
    Arg::new(alloc, name).value_name(value).help(help)
}
