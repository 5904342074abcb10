//! A file: its format, and its text with the white space and comments after it.

ghost use Rattle.std.specs.Prelude.{◌≡◌, ◌<◌, ℕ, false, true, None, IfErr, IfOk, OnOk, OnErr};
ghost use Rattle.std.specs.Io.KnownBytes.{Keeps};
ghost use Rattle.pb_text.specs.contract.Automaton.{AcceptsItems, MayAsk};
ghost use Rattle.pb_text.specs.contract.NothingRead.{ReadsNothing, first_fault};
ghost use Rattle.pb_text.specs.meaning.Pulling.{OfGiven, faults_after};
ghost use Rattle.pb_text.specs.meaning.Stopping.{IsShown};
ghost use Rattle.pb_text.specs.meaning.Writing.{one_more};
ghost use Rattle.pb_tool.specs.meaning.Files.{IsProofText, IsInstanceText};
ghost use Rattle.pb_tool.specs.engine.Gathered.{IsGathered, IsNotGathered};
ghost use Rattle.pb_tool.specs.engine.Opening.{IsReadAs};
ghost use Rattle.pb_tool.specs.declared.fault.Input.TheVariants.{File};

use crate::fault::{Input, ToolFault, text_fault};
use pb_opb::OpbMachine;
use pb_proof::ProofMachine;
use pb_text::{Failed, Gather, Limits, Machine, Source, Stop, read_whole, rest_is_blank, unread};
use std::alloc::Global;

/// A format of files.
#[derive(Clone, Copy)]
pub(crate) enum Format {
    Instance,
    Proof,
}

/// The format of a file: a proof if its first byte is `p`, and an instance otherwise. It consumes
/// no byte.
pub(crate) fn format_of<S: Source>(input: &mut S) -> Result<Format, Failed>
    ensures format { IfOk result (IsReadAs (S.left input.old)) }
    ensures left { Keeps (S.left input.old) (S.left input.new) }
    ensures history { S.history input.new ≡ S.history input.old }
    ensures calm { OnOk result (S.faults input.new ≡ S.faults input.old) }
    ensures faulty { OnErr result (S.faults input.new ≡ one_more (S.faults input.old)) }
{
    match input.peek() {
        Ok(Some(b'p')) => Ok(Format::Proof),
        Ok(_) => Ok(Format::Instance),
        Err(Failed) => Err(Failed),
    }
}

/// The fault of a file whose first byte could not be read. Neither machine was given a byte.
pub(crate) fn unread_file(alloc: Global, limits: Limits) -> ToolFault
    ensures fault { result ≡ ToolFault.Text File first_fault }
    ensures instance { (longest : ℕ) → 0 < longest → ReadsNothing (IsInstanceText limits) longest }
    ensures proof { (longest : ℕ) → 0 < longest → ReadsNothing (IsProofText limits) longest }
{
    let stop = unread(&OpbMachine::new(alloc, limits));
    let _ = unread(&ProofMachine::new(alloc, limits));
    text_fault(Input::File, stop)
}

/// Reads a text with a machine and gathers its statements, beginning with `empty`. Only white space
/// and comments may follow the text.
pub(crate) fn read_file<S: Source, M: Machine + Drop, G: Gather<Event = M::Event> + Drop>(
    input: &mut S,
    machine: M,
    longest: u64,
    empty: G,
) -> Result<G, Stop>
    requires between { M.automaton.begun machine ≡ false }
    requires some { 0 < longest }
    ensures file { IfOk result (IsGathered (AcceptsItems M.automaton machine) longest G.with empty
        (S.left input.old) (S.left input.new)) }
    ensures refused { IfErr result
        (IsNotGathered (AcceptsItems M.automaton machine) longest G.with empty
        (MayAsk M.automaton machine) G.asks (S.left input.old) (S.left input.new)) }
    ensures given { IfOk result (λ v.
        OfGiven (λ left rest.
        IsGathered (AcceptsItems M.automaton machine) longest G.with empty left rest v)
        (S.history input.old) (S.history input.new)) }
    ensures refused_given { IfErr result (λ s.
        OfGiven (λ left rest. IsNotGathered (AcceptsItems M.automaton machine) longest G.with empty
        (MayAsk M.automaton machine) G.asks left rest s) (S.history input.old)
        (S.history input.new)) }
    ensures ended { OnOk result (S.ended input.new ≡ true) }
    ensures shown { IfErr result (λ s. IsShown (S.shown input.new) (S.ended input.new) s.why) }
    ensures faults { S.faults input.new ≡ faults_after None result (S.faults input.old) }
{
    let read = read_whole(input, machine, longest, empty)?;
    rest_is_blank(input, read.past)?;
    Ok(read.event)
}
