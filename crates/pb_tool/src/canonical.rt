//! Values with a canonical text.

ghost use Rattle.std.specs.Prelude.{◌≡◌, ◌++◌, [], ℕ, List, IsTrue};
ghost use Rattle.pb_text.specs.meaning.Writing.{Writes};
ghost use Rattle.pb_opb.specs.contract.Canonical.{event_bytes};
ghost use Rattle.pb_proof.specs.meaning.Canonical.{statement_bytes};
ghost use Rattle.pb_tool.specs.contract.Show.{line_of};

use pb_opb::{OpbEvent, put_event, write_event};
use pb_proof::{Statement, put_statement, write_statement};
use pb_sums::piece::Piece;
use pb_text::{Failed, Sink, write_bytes};

/// A value with a canonical text. The text of a statement does not include a line feed at its end.
pub trait Canonical {
    /// Its canonical text.
    ghost text: { Self → List ℕ };

    /// Writes its canonical text.
    fn write_text<W: Sink>(&self, out: &mut W) -> Result<(), Failed>
        ensures { Writes W.contents W.faults out.old (text self.now) result out.new };

    /// Prepends its canonical text if it surely fits, and returns whether it did. If it did not,
    /// the piece may have a part of it.
    fn put_text(&self, piece: &mut Piece) -> bool
        ensures { IsTrue result → piece.new ≡ text self.now ++ piece.old };
}

impl Canonical for OpbEvent {
    ghost text = { event_bytes };

    fn write_text<W: Sink>(&self, out: &mut W) -> Result<(), Failed> {
        write_event(self, out)
    }

    fn put_text(&self, piece: &mut Piece) -> bool {
        put_event(self, piece)
    }
}

impl Canonical for Statement {
    ghost text = { statement_bytes };

    fn write_text<W: Sink>(&self, out: &mut W) -> Result<(), Failed> {
        write_statement(self, out)
    }

    fn put_text(&self, piece: &mut Piece) -> bool {
        put_statement(self, piece)
    }
}

/// Replaces the text of a piece by the canonical text of a statement and a line feed if they surely
/// fit, and returns whether it did.
pub(crate) fn put_line<E: Canonical>(statement: &E, piece: &mut Piece) -> bool
    ensures { IsTrue result → piece.new ≡ line_of E.text statement.now }
{
    piece.clear();
    piece.put(b'\n');
    statement.put_text(piece)
}

/// Writes the canonical text of a statement, and a line feed.
pub(crate) fn write_line<W: Sink, E: Canonical>(statement: &E, out: &mut W) -> Result<(), Failed>
    ensures { Writes W.contents W.faults out.old (line_of E.text statement.now) result out.new }
{
    let mut piece = Piece::new();
    if put_line(statement, &mut piece) {
        return write_bytes(piece.as_bytes(), out);
    }
    write_parts(statement, out)
}

/// Writes the same in parts.
pub(crate) fn write_parts<W: Sink, E: Canonical>(statement: &E, out: &mut W) -> Result<(), Failed>
    ensures { Writes W.contents W.faults out.old (line_of E.text statement.now) result out.new }
{
    statement.write_text(out)?;
    write_bytes(b"\n", out)
}
