//! A stored constraint as reasons show it.
#![tactic(auto, using(crate::proofs::Texts::texts))]

ghost use Rattle.std.specs.Prelude.{◌≡◌, ◌-◌, ◌++◌, codes, slice_get};
ghost use Rattle.std.specs.Option.{option_copied};
ghost use Rattle.pb_text.specs.meaning.Writing.{Writes};
ghost use Rattle.pb_trace.specs.Named.{came_bytes, found_bytes, history_bytes, known_by, line_bytes, named_bytes, went_bytes};

use crate::facts::Facts;
use crate::stored::Stored;
use crate::write::{line_of, write_change, write_numbered_arrow};
use pb_text::{Failed, Sink, write_bytes};

/// Writes an id and its stored constraint after an arrow, with the lines where that was added and
/// deleted.
pub(crate) fn write_named<S: Sink>(
    arrow: &[u8],
    id: u64,
    facts: &Facts<'_>,
    out: &mut S,
) -> Result<(), Failed>
    ensures { Writes S.contents S.faults out.old
        (named_bytes (known_by facts.now) arrow.now id) result out.new }
{
    match stored_at(facts.stored, id) {
        Some(stored) => write_found(arrow, id, stored, facts, out),
        None => Ok(()),
    }
}

/// The stored constraint with an id.
fn stored_at(stored: &[Stored], id: u64) -> Option<&Stored>
    ensures { option_copied result ≡ slice_get stored.now (id - 1) }
{
    stored.get(id.saturating_sub(1) as usize)
}

fn write_found<S: Sink>(
    arrow: &[u8],
    id: u64,
    stored: &Stored,
    facts: &Facts<'_>,
    out: &mut S,
) -> Result<(), Failed>
    ensures { Writes S.contents S.faults out.old
        (found_bytes (known_by facts.now) arrow.now id stored.now) result out.new }
{
    write_change(arrow, id, &stored.form, facts.replay, out)?;
    write_history(id, stored, facts, out)
}

/// Writes where a constraint was added and deleted, in parentheses.
fn write_history<S: Sink>(
    id: u64,
    stored: &Stored,
    facts: &Facts<'_>,
    out: &mut S,
) -> Result<(), Failed>
    ensures { Writes S.contents S.faults out.old
        (history_bytes (known_by facts.now) id stored.now) result out.new }
{
    write_came(id, stored.added, facts, out)?;
    write_end(stored.deleted, out)
}

/// Writes where a constraint was added: a line of the instance or of the proof.
fn write_came<S: Sink>(id: u64, added: u64, facts: &Facts<'_>, out: &mut S) -> Result<(), Failed>
    ensures { Writes S.contents S.faults out.old
        (came_bytes (known_by facts.now) id added) result out.new }
{
    if id <= facts.loaded as u64 {
        return write_line_of(line_of(facts.lines, id), out);
    }
    write_numbered_arrow(b" (proof line ", added, out)
}

/// Writes the line of the instance in which a constraint is written, if it is known.
fn write_line_of<S: Sink>(line: Option<u64>, out: &mut S) -> Result<(), Failed>
    ensures { Writes S.contents S.faults out.old (line_bytes line) result out.new }
{
    match line {
        Some(line) => write_numbered_arrow(b" (instance line ", line, out),
        None => write_bytes(b" (instance", out),
    }
}

fn write_end<S: Sink>(deleted: u64, out: &mut S) -> Result<(), Failed>
    ensures { Writes S.contents S.faults out.old (went_bytes deleted ++ codes ")") result out.new }
{
    write_went(deleted, out)?;
    write_bytes(b")", out)
}

/// Writes the line that deleted a constraint, or nothing for 0.
fn write_went<S: Sink>(deleted: u64, out: &mut S) -> Result<(), Failed>
    ensures { Writes S.contents S.faults out.old (went_bytes deleted) result out.new }
{
    if deleted > 0 {
        return write_numbered_arrow(b", deleted in proof line ", deleted, out);
    }
    Ok(())
}
