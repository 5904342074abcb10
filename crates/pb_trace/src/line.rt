//! The line of an accepted statement.

ghost use Rattle.std.specs.Prelude.{◌≡◌, OnOk};
ghost use Rattle.std.specs.Option.{option_copied};
ghost use Rattle.pb_text.specs.meaning.Writing.{Writes};
ghost use Rattle.pb_trace.specs.Styled.{StoresAfter, StoresWithout, StoresWithoutAll, added_in, deleted_in, deletion_in, found_in, line_in, tail_in};
ghost use Rattle.pb_trace.specs.Traced.{arrow_of, best_bytes};

use crate::stored::Constraints;
use crate::write::{Named, Style, write_constraint, write_read};
use pb_normal::Normal;
use pb_proof::Statement;
use pb_replay::Replay;
use pb_sums::write_number;
use pb_text::{Failed, Sink, Spanned, write_bytes};

impl Named for Replay {
    ghost names = { λ r. r.names };

    fn text_of(&self, number: usize) -> Option<&str> {
        self.name_of(number)
    }
}

/// Writes the line of an accepted statement, with the constraints after an id. What the statement
/// deletes is deleted from the stored constraints.
#[tactic(auto, using(crate::proofs::Texts::texts))]
pub(crate) fn write_line<S: Sink>(
    style: Style<'_>,
    read: &Spanned<Statement>,
    newest: u64,
    constraints: &mut Constraints,
    replay: &Replay,
    out: &mut S,
) -> Result<(), Failed>
    ensures text { Writes S.contents S.faults out.old
        (line_in style.entry newest constraints.old read.now replay.now) result out.new }
    ensures stored { OnOk result (StoresAfter read.now.event constraints.old constraints.new) }
{
    write_read(read, out)?;
    write_added(style, arrow_of(&read.event), newest, replay, out)?;
    write_tail(style, read, constraints, replay, out)?;
    write_bytes(b"\n", out)?;
    Ok(())
}

/// What a trace writes before each constraint that a statement adds. Those of `f` are on lines of
/// their own.
fn arrow_of(statement: &Statement) -> &'static [u8]
    ensures { result.now ≡ arrow_of statement.now }
{
    match statement {
        Statement::F(_) => b"\n  -> ",
        Statement::Header
        | Statement::Pol(_)
        | Statement::Rup(_)
        | Statement::Soli(_)
        | Statement::Solx(_)
        | Statement::Delete(_)
        | Statement::Output
        | Statement::Conclude(_)
        | Statement::End => b" -> ",
    }
}

/// Writes the constraints after an id.
fn write_added<S: Sink>(
    style: Style<'_>,
    arrow: &[u8],
    newest: u64,
    replay: &Replay,
    out: &mut S,
) -> Result<(), Failed>
    ensures { Writes S.contents S.faults out.old
        (added_in style.entry arrow.now newest replay.now) result out.new }
{
    for index in newest..replay.newest() {
        write_found(
            style,
            arrow,
            index + 1,
            replay.constraint(index + 1),
            replay,
            out,
        )?;
    }
    Ok(())
}

/// Writes an id and its constraint after an arrow, if there is one.
fn write_found<S: Sink>(
    style: Style<'_>,
    arrow: &[u8],
    id: u64,
    form: Option<&Normal>,
    replay: &Replay,
    out: &mut S,
) -> Result<(), Failed>
    ensures { Writes S.contents S.faults out.old
        (found_in style.entry arrow.now replay.now id (option_copied form.entry)) result out.new }
{
    match form {
        Some(form) => write_constraint(style, arrow, id, form, replay, out),
        None => Ok(()),
    }
}

/// Writes what follows the added constraints.
fn write_tail<S: Sink>(
    style: Style<'_>,
    read: &Spanned<Statement>,
    constraints: &mut Constraints,
    replay: &Replay,
    out: &mut S,
) -> Result<(), Failed>
    ensures text { Writes S.contents S.faults out.old
        (tail_in style.entry constraints.old replay.now read.now.event) result out.new }
    ensures stored { OnOk result (StoresAfter read.now.event constraints.old constraints.new) }
{
    match &read.event {
        Statement::Delete(ids) => write_deleted(
            style,
            ids.as_slice(),
            read.first.line,
            constraints,
            replay,
            out,
        ),
        Statement::Soli(_) => write_best(replay.best(), out),
        Statement::Header
        | Statement::F(_)
        | Statement::Pol(_)
        | Statement::Rup(_)
        | Statement::Solx(_)
        | Statement::Output
        | Statement::Conclude(_)
        | Statement::End => Ok(()),
    }
}

/// Deletes stored constraints by their ids, in a line of the proof, and writes each.
fn write_deleted<S: Sink>(
    style: Style<'_>,
    ids: &[i64],
    line: u64,
    constraints: &mut Constraints,
    replay: &Replay,
    out: &mut S,
) -> Result<(), Failed>
    ensures text { Writes S.contents S.faults out.old
        (deleted_in style.entry replay.now constraints.old ids.now) result out.new }
    ensures stored { OnOk result (StoresWithoutAll ids.now constraints.old constraints.new) }
{
    for id in ids {
        write_deletion(style, *id, line, constraints, replay, out)?;
    }
    Ok(())
}

/// Deletes a stored constraint by its id, in a line of the proof, and writes it. If there is no
/// such constraint, it does nothing.
fn write_deletion<S: Sink>(
    style: Style<'_>,
    id: i64,
    line: u64,
    constraints: &mut Constraints,
    replay: &Replay,
    out: &mut S,
) -> Result<(), Failed>
    ensures text { Writes S.contents S.faults out.old
        (deletion_in style.entry replay.now constraints.old id) result out.new }
    ensures stored { OnOk result (StoresWithout id constraints.old constraints.new) }
{
    let Some((found, form)) = constraints.find_written(id) else {
        return Ok(());
    };
    write_constraint(style, b"\n  -> no ", found, form, replay, out)?;
    constraints.delete(found, line);
    Ok(())
}

/// Writes the best value of the objective so far, if there is one.
#[tactic(auto, using(crate::proofs::Texts::texts))]
fn write_best<S: Sink>(best: Option<i128>, out: &mut S) -> Result<(), Failed>
    ensures { Writes S.contents S.faults out.old (best_bytes best) result out.new }
{
    match best {
        Some(best) => {
            write_bytes(b" best ", out)?;
            write_number(best, out)
        }
        None => Ok(()),
    }
}
