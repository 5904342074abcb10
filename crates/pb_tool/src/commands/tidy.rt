//! `pb tidy`: the canonical text of a file.

ghost use Rattle.std.specs.Prelude.{◌≡◌, ◌<◌, ◌^◌, false, true, unwrap_or, IfSome};
ghost use Rattle.pb_text.specs.contract.Automaton.{AcceptsItems, MayAsk};
ghost use Rattle.pb_text.specs.meaning.Pulling.{OfGiven};
ghost use Rattle.pb_tool.specs.contract.Faults.{faults_reported};
ghost use Rattle.pb_tool.specs.contract.Tidy.{TidiesFile, TidiesProof, Tidies};
ghost use Rattle.pb_tool.specs.engine.Gathered.{TidiesEach};
ghost use Rattle.pb_tool.specs.contract.Given.{TidiesGiven};
ghost use Rattle.pb_tool.specs.contract.Seen.{SawFile};

mod form_lines;
mod instance_text;
mod normal_text;
mod page;
mod proof_text;

use crate::canonical::Canonical;
use crate::commands::tidy::instance_text::InstanceText;
use crate::commands::tidy::normal_text::NormalText;
use crate::commands::tidy::proof_text::ProofText;
use crate::fault::{Input, ToolFault, text_fault};
use crate::file::{Format, format_of, read_file, unread_file};
use pb_normal::HashKeys;
use pb_opb::OpbMachine;
use pb_proof::ProofMachine;
use pb_text::{BYTE_LIMIT, Failed, Gather, Limits, Machine, Sink, Source};
use std::alloc::Global;

/// Reads a file and writes its canonical text, with a line feed if the text does not end in one.
/// Only white space and comments may follow the text of the file. A file whose first byte is `p` is
/// read as a proof, any other as an instance. Nothing is written before the whole input was
/// accepted.
///
/// With `normal` every file is read as an instance and written in normal form. Each constraint `>=`
/// becomes its form, each `=` its two forms. The variables and the objective of the instance stay;
/// its tail and comments are left out. Nothing is written before each constraint was normalised.
/// The result is `Overflow` if a constraint exceeds the limit.
///
/// `longest` is the maximum number of bytes of a statement, if there is such a limit. The names of
/// an instance are hashed with fixed keys: use `tidy_with_hasher` for files from untrusted sources.
pub fn tidy<S: Source, W: Sink>(
    alloc: Global,
    input: &mut S,
    normal: bool,
    out: &mut W,
    longest: Option<u64>,
    limits: Limits,
) -> Result<(), ToolFault>
    requires { IfSome longest (λ n. 0 < n) }
    ensures tidies { TidiesFile limits (unwrap_or longest (2 ^ 40)) W.contents W.faults normal
        (S.left input.old) out.old result (S.left input.new) out.new }
    // For any source, files included: the result is right for the bytes that its calls have given.
    ensures given { TidiesGiven limits (unwrap_or longest (2 ^ 40)) W.contents W.faults normal
        (S.history input.old) out.old result (S.history input.new) out.new }
    // A rejected byte is the one that the source has shown. The text ends only if the source has
    // shown its end.
    ensures seen { SawFile (S.shown input.new) (S.ended input.new) result }
    // `Read` comes only if the source failed.
    ensures faults { S.faults input.new ≡ faults_reported result (S.faults input.old) }
{
    tidy_with_hasher(alloc, HashKeys::Fixed, input, normal, out, longest, limits)
}

/// The same as `tidy`, with the names of an instance hashed with these keys.
pub fn tidy_with_hasher<S: Source, W: Sink>(
    alloc: Global,
    keys: HashKeys,
    input: &mut S,
    normal: bool,
    out: &mut W,
    longest: Option<u64>,
    limits: Limits,
) -> Result<(), ToolFault>
    requires { IfSome longest (λ n. 0 < n) }
    ensures tidies { TidiesFile limits (unwrap_or longest (2 ^ 40)) W.contents W.faults normal
        (S.left input.old) out.old result (S.left input.new) out.new }
    // For any source, files included: the result is right for the bytes that its calls have given.
    ensures given { TidiesGiven limits (unwrap_or longest (2 ^ 40)) W.contents W.faults normal
        (S.history input.old) out.old result (S.history input.new) out.new }
    // A rejected byte is the one that the source has shown. The text ends only if the source has
    // shown its end.
    ensures seen { SawFile (S.shown input.new) (S.ended input.new) result }
    // `Read` comes only if the source failed.
    ensures faults { S.faults input.new ≡ faults_reported result (S.faults input.old) }
{
    let longest = longest.unwrap_or(BYTE_LIMIT);
    if normal {
        return tidy_normal(alloc, keys, input, out, longest, limits);
    }
    match format_of(input) {
        Ok(Format::Proof) => tidy_proof(alloc, input, out, longest, limits),
        Ok(Format::Instance) => tidy_instance(alloc, input, out, longest, limits),
        Err(Failed) => Err(unread_file(alloc, limits)),
    }
}

/// The same for a proof: its canonical text and a line feed.
fn tidy_proof<S: Source, W: Sink>(
    alloc: Global,
    input: &mut S,
    out: &mut W,
    longest: u64,
    limits: Limits,
) -> Result<(), ToolFault>
    requires { 0 < longest }
    ensures tidies { TidiesProof limits longest W.contents W.faults
        (S.left input.old) out.old result (S.left input.new) out.new }
    ensures given { OfGiven (λ left rest.
        TidiesProof limits longest W.contents W.faults left out.old result rest out.new)
        (S.history input.old) (S.history input.new) }
    ensures seen { SawFile (S.shown input.new) (S.ended input.new) result }
    ensures faults { S.faults input.new ≡ faults_reported result (S.faults input.old) }
{
    tidy_each(
        ProofMachine::new(alloc, limits),
        ProofText::new(alloc),
        longest,
        input,
        out,
    )
}

/// The same for an instance: its canonical text, and a line feed if the text does not end in one.
fn tidy_instance<S: Source, W: Sink>(
    alloc: Global,
    input: &mut S,
    out: &mut W,
    longest: u64,
    limits: Limits,
) -> Result<(), ToolFault>
    requires { 0 < longest }
    ensures tidies { Tidies limits longest false W.contents W.faults
        (S.left input.old) out.old result (S.left input.new) out.new }
    ensures given { OfGiven (λ left rest.
        Tidies limits longest false W.contents W.faults left out.old result rest out.new)
        (S.history input.old) (S.history input.new) }
    ensures seen { SawFile (S.shown input.new) (S.ended input.new) result }
    ensures faults { S.faults input.new ≡ faults_reported result (S.faults input.old) }
{
    tidy_each(
        OpbMachine::new(alloc, limits),
        InstanceText::new(alloc),
        longest,
        input,
        out,
    )
}

/// The same for any machine: the text of its statements gathered, beginning with `empty`. Nothing
/// is written before the whole input was accepted.
fn tidy_each<S: Source, W: Sink, M: Machine + Drop, G: Gather<Event = M::Event> + Canonical + Drop>(
    machine: M,
    empty: G,
    longest: u64,
    input: &mut S,
    out: &mut W,
) -> Result<(), ToolFault>
    requires between { M.automaton.begun machine ≡ false }
    requires some { 0 < longest }
    ensures tidies { TidiesEach (AcceptsItems M.automaton machine) longest G.with empty
        (MayAsk M.automaton machine) G.asks G.text W.contents W.faults
        (S.left input.old) out.old result (S.left input.new) out.new }
    ensures given { OfGiven (λ left rest.
        TidiesEach (AcceptsItems M.automaton machine) longest G.with empty
        (MayAsk M.automaton machine) G.asks G.text W.contents W.faults left out.old result rest
        out.new) (S.history input.old) (S.history input.new) }
    ensures seen { SawFile (S.shown input.new) (S.ended input.new) result }
    ensures faults { S.faults input.new ≡ faults_reported result (S.faults input.old) }
{
    let text = match read_file(input, machine, longest, empty) {
        Ok(text) => text,
        Err(stop) => return Err(text_fault(Input::File, stop)),
    };
    match text.write_text(out) {
        Ok(()) => Ok(()),
        Err(Failed) => Err(ToolFault::Write),
    }
}

/// Reads an instance and writes its normal form, with a line feed if the text does not end in one.
/// Only white space and comments may follow the instance.
fn tidy_normal<S: Source, W: Sink>(
    alloc: Global,
    keys: HashKeys,
    input: &mut S,
    out: &mut W,
    longest: u64,
    limits: Limits,
) -> Result<(), ToolFault>
    requires { 0 < longest }
    ensures tidies { Tidies limits longest true W.contents W.faults
        (S.left input.old) out.old result (S.left input.new) out.new }
    ensures given { OfGiven (λ left rest.
        Tidies limits longest true W.contents W.faults left out.old result rest out.new)
        (S.history input.old) (S.history input.new) }
    ensures seen { SawFile (S.shown input.new) (S.ended input.new) result }
    ensures faults { S.faults input.new ≡ faults_reported result (S.faults input.old) }
{
    let machine = OpbMachine::new(alloc, limits);
    let empty = NormalText::new(alloc, keys, limits);
    let text = match read_file(input, machine, longest, empty) {
        Ok(text) => text,
        Err(refusal) => return Err(text_fault(Input::File, refusal)),
    };
    text.write(alloc, out)
}
