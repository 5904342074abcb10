//! `pb show`: the statements of a text, each with its position.

ghost use Rattle.std.specs.Prelude.{◌≡◌, ◌<◌, ◌^◌, false, unwrap_or, IfSome};
ghost use Rattle.pb_text.specs.contract.Automaton.{AcceptsItems, MayAsk};
ghost use Rattle.pb_text.specs.meaning.Blank.{IsInReach};
ghost use Rattle.pb_text.specs.meaning.Pulling.{OfGiven};
ghost use Rattle.pb_text.specs.meaning.Writing.{Writes};
ghost use Rattle.pb_opb.specs.contract.Canonical.{event_bytes};
ghost use Rattle.pb_proof.specs.meaning.Canonical.{statement_bytes};
ghost use Rattle.pb_tool.specs.contract.Faults.{faults_reported};
ghost use Rattle.pb_tool.specs.meaning.Files.{AsksInProofText, IsProofText, AsksInInstanceText, IsInstanceText};
ghost use Rattle.pb_tool.specs.contract.Show.{ShowsFile, shown_line, EndsAt, ShowsLines};
ghost use Rattle.pb_tool.specs.contract.Given.{ShowsGiven};
ghost use Rattle.pb_tool.specs.contract.Seen.{SawStatements};

use crate::canonical::{Canonical, put_line, write_line};
use crate::fault::{Input, ToolFault, text_fault};
use crate::file::{Format, format_of, unread_file};
use pb_opb::OpbMachine;
use pb_proof::ProofMachine;
use pb_sums::piece::Piece;
use pb_sums::{put_place, write_place};
use pb_text::{
    BYTE_LIMIT, Failed, Feeder, Limits, Machine, Place, Sink, Source, Spanned, pull, rest_is_blank,
    write_bytes,
};
use std::alloc::Global;

/// Writes a line for each statement as soon as it is complete. The line begins with the line and
/// column of the first byte of the statement. Its canonical text follows, as in `2:1 +1 x1 >= 1 ;`.
/// A file whose first byte is `p` is read as a proof, any other as an instance. Only white space
/// and comments may follow. If the text is rejected, the lines of all statements before that
/// position were written.
///
/// `longest` is the maximum number of bytes of a statement, if there is such a limit.
pub fn show<S: Source, W: Sink>(
    alloc: Global,
    input: &mut S,
    out: &mut W,
    longest: Option<u64>,
    limits: Limits,
) -> Result<(), ToolFault>
    requires { IfSome longest (λ n. 0 < n) }
    ensures shows { ShowsFile limits (unwrap_or longest (2 ^ 40)) W.contents W.faults
        (S.left input.old) out.old result (S.left input.new) out.new }
    // For any source, files included: the result is right for the bytes that its calls have given.
    ensures given { ShowsGiven limits (unwrap_or longest (2 ^ 40)) W.contents W.faults
        (S.history input.old) out.old result (S.history input.new) out.new }
    // A rejected byte is the one that the source has shown. The text ends only if the source has
    // shown its end.
    ensures seen { SawStatements (S.shown input.new) (S.ended input.new) result }
    // `Read` comes only if the source failed.
    ensures faults { S.faults input.new ≡ faults_reported result (S.faults input.old) }
{
    let longest = longest.unwrap_or(BYTE_LIMIT);
    match format_of(input) {
        Ok(Format::Proof) => show_each(ProofMachine::new(alloc, limits), longest, input, out),
        Ok(Format::Instance) => show_each(OpbMachine::new(alloc, limits), longest, input, out),
        Err(Failed) => Err(unread_file(alloc, limits)),
    }
}

/// Writes a line for each statement that a machine reads, as soon as it is complete.
fn show_each<S: Source, W: Sink, E: Canonical + Drop, M: Machine<Event = E> + Drop>(
    machine: M,
    longest: u64,
    input: &mut S,
    out: &mut W,
) -> Result<(), ToolFault>
    requires between { M.automaton.begun machine ≡ false }
    requires some { 0 < longest }
    ensures shows { ShowsLines (AcceptsItems M.automaton machine) longest
        (MayAsk M.automaton machine) E.text W.contents W.faults (S.left input.old) out.old result
        (S.left input.new) out.new }
    ensures given { OfGiven (λ left rest. ShowsLines (AcceptsItems M.automaton machine) longest
        (MayAsk M.automaton machine) E.text W.contents W.faults left out.old result rest out.new)
        (S.history input.old) (S.history input.new) }
    ensures seen { SawStatements (S.shown input.new) (S.ended input.new) result }
    ensures faults { S.faults input.new ≡ faults_reported result (S.faults input.old) }
{
    let mut feeder = Feeder::within(machine, longest);
    let mut piece = Piece::new();
    loop {
        match pull(input, &mut feeder) {
            Ok(Some(read)) => match show_statement(read, &mut feeder, &mut piece, out) {
                Ok(()) => {}
                Err(Failed) => return Err(ToolFault::Write),
            },
            Ok(None) => break,
            Err(stop) => return Err(text_fault(Input::File, stop)),
        }
    }
    read_blank_rest(input, feeder.place())
}

/// Reads the rest of an input, which may have only white space and comments.
fn read_blank_rest<S: Source>(input: &mut S, place: Place) -> Result<(), ToolFault>
    requires { IsInReach place }
    ensures ends { EndsAt place (S.left input.old) result (S.left input.new) }
    ensures given { OfGiven (λ left rest. EndsAt place left result rest) (S.history input.old)
        (S.history input.new) }
    ensures seen { SawStatements (S.shown input.new) (S.ended input.new) result }
    ensures faults { S.faults input.new ≡ faults_reported result (S.faults input.old) }
{
    match rest_is_blank(input, place) {
        Ok(()) => Ok(()),
        Err(stop) => Err(text_fault(Input::File, stop)),
    }
}

/// Writes the line of a statement. The feeder uses the memory of the statement again.
fn show_statement<W: Sink, E: Canonical + Drop, M: Machine<Event = E>>(
    read: Spanned<E>,
    feeder: &mut Feeder<M>,
    piece: &mut Piece,
    out: &mut W,
) -> Result<(), Failed>
    ensures writes { Writes W.contents W.faults out.old (shown_line E.text read) result out.new }
    ensures feeder { feeder.new ≡ feeder.old }
{
    write_spanned(&read, piece, out)?;
    feeder.reuse(read.event);
    Ok(())
}

/// Writes the line of a statement. A short line is made in the piece, whose text is replaced.
fn write_spanned<W: Sink, E: Canonical>(
    read: &Spanned<E>,
    piece: &mut Piece,
    out: &mut W,
) -> Result<(), Failed>
    ensures { Writes W.contents W.faults out.old (shown_line E.text read.now) result out.new }
{
    if put_line(&read.event, piece) && put_place(read.first, piece) {
        return write_bytes(piece.as_bytes(), out);
    }
    write_place(read.first, out)?;
    write_line(&read.event, out)
}
