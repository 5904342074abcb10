//! Writes the canonical text.

ghost use Rattle.std.specs.Prelude.{◌≡◌, ◌+◌, ◌≤◌, [], ◌∷◌, ◌++◌, length};
ghost use Rattle.pb_text.specs.meaning.Writing.{Writes};
ghost use Rattle.pb_proof.specs.meaning.Canonical.{bound_bytes, id_shown_bytes, statement_bytes, proof_bytes};
ghost use Rattle.pb_proof.specs.meaning.Lines.{bounds_word, conclusion_word};
ghost use Rattle.pb_proof.specs.engine.line.Ended.{ended_lines};

mod list;
pub mod put;
mod words;

use crate::conclusion::{Bound, Conclusion};
use crate::proof::Proof;
use crate::statement::Statement;
use crate::write::list::write_list;
use crate::write::put::put_statement;
use pb_sums::piece::{Piece, ROOM};
use pb_sums::{Linear, Literal, write_linear};
use pb_text::{Failed, Sequence, Sink, write_bytes};

/// Prepends a bound.
fn put_bound(bound: Bound, piece: &mut Piece)
    requires { 40 + length piece.old ≤ ROOM }
    ensures text { piece.new ≡ bound_bytes bound ++ piece.old }
    ensures short { length piece.new ≤ 40 + length piece.old }
{
    match bound {
        Bound::Finite(value) => piece.put_number(value),
        Bound::Infinite => piece.put_text(b"INF"),
    }
}

/// Prepends ` : ` and an id, if there is one.
fn put_id_shown(id: Option<i64>, piece: &mut Piece)
    requires { 43 + length piece.old ≤ ROOM }
    ensures text { piece.new ≡ id_shown_bytes id ++ piece.old }
    ensures short { length piece.new ≤ 43 + length piece.old }
{
    match id {
        None => {}
        Some(id) => {
            piece.put_number(id as i128);
            piece.put_text(b" : ");
        }
    }
}

/// Prepends a conclusion of bounds without its literals.
fn put_bounds(lower: Bound, id: Option<i64>, upper: Bound, piece: &mut Piece)
    requires { 200 + length piece.old ≤ ROOM }
    ensures { piece.new ≡ conclusion_word ++ (32 ∷ (bounds_word ++ (32 ∷ (bound_bytes lower ++
        (id_shown_bytes id ++ (32 ∷ (bound_bytes upper ++ piece.old))))))) }
{
    put_bound(upper, piece);
    piece.put(b' ');
    put_id_shown(id, piece);
    put_bound(lower, piece);
    piece.put_text(b"conclusion BOUNDS ");
}

fn write_bounds<S: Sink>(
    lower: Bound,
    id: Option<i64>,
    upper: Bound,
    shown: &Option<Sequence<Literal>>,
    out: &mut S,
) -> Result<(), Failed>
    ensures { Writes S.contents S.faults out.old
        (statement_bytes (Statement.Conclude (Conclusion.Bounds lower id upper shown.now))) result
        out.new }
{
    let mut piece = Piece::new();
    match shown {
        None => {
            put_bounds(lower, id, upper, &mut piece);
            write_bytes(piece.as_bytes(), out)
        }
        Some(literals) => {
            piece.put_text(b" :");
            put_bounds(lower, id, upper, &mut piece);
            write_list(piece.as_bytes(), literals.as_slice(), out)
        }
    }
}

fn write_unsat<S: Sink>(id: Option<i64>, out: &mut S) -> Result<(), Failed>
    ensures { Writes S.contents S.faults out.old
        (statement_bytes (Statement.Conclude (Conclusion.Unsat id))) result out.new }
{
    let mut piece = Piece::new();
    put_id_shown(id, &mut piece);
    piece.put_text(b"conclusion UNSAT");
    write_bytes(piece.as_bytes(), out)
}

fn write_sat<S: Sink>(shown: &Option<Sequence<Literal>>, out: &mut S) -> Result<(), Failed>
    ensures { Writes S.contents S.faults out.old
        (statement_bytes (Statement.Conclude (Conclusion.Sat shown.now))) result out.new }
{
    match shown {
        None => write_bytes(b"conclusion SAT", out),
        Some(literals) => write_list(b"conclusion SAT :", literals.as_slice(), out),
    }
}

fn write_conclusion<S: Sink>(conclusion: &Conclusion, out: &mut S) -> Result<(), Failed>
    ensures { Writes S.contents S.faults out.old
        (statement_bytes (Statement.Conclude conclusion.now)) result out.new }
{
    match conclusion {
        Conclusion::NoClaim => write_bytes(b"conclusion NONE", out),
        Conclusion::Unsat(id) => write_unsat(*id, out),
        Conclusion::Sat(shown) => write_sat(shown, out),
        Conclusion::Bounds {
            lower,
            id,
            upper,
            shown,
        } => write_bounds(*lower, *id, *upper, shown, out),
    }
}

/// Prepends the line of an `f`.
fn put_f(count: Option<u64>, piece: &mut Piece)
    requires { 22 + length piece.old ≤ ROOM }
    ensures text { piece.new ≡ statement_bytes (Statement.F count) ++ piece.old }
    ensures short { length piece.new ≤ 22 + length piece.old }
{
    match count {
        None => piece.put(b'f'),
        Some(count) => {
            piece.put_count(count);
            piece.put_text(b"f ");
        }
    }
}

fn write_f<S: Sink>(count: Option<u64>, out: &mut S) -> Result<(), Failed>
    ensures { Writes S.contents S.faults out.old
        (statement_bytes (Statement.F count)) result out.new }
{
    let mut piece = Piece::new();
    put_f(count, &mut piece);
    write_bytes(piece.as_bytes(), out)
}

fn write_rup<S: Sink>(goal: &Linear, out: &mut S) -> Result<(), Failed>
    ensures { Writes S.contents S.faults out.old (statement_bytes (Statement.Rup goal.now)) result
        out.new }
{
    write_bytes(b"rup ", out)?;
    write_linear(goal, out)
}

/// Writes the line of a statement without its line feed, in several pieces.
fn write_pieces<S: Sink>(statement: &Statement, out: &mut S) -> Result<(), Failed>
    ensures { Writes S.contents S.faults out.old (statement_bytes statement.now) result out.new }
{
    match statement {
        Statement::Header => write_bytes(b"pseudo-Boolean proof version 2.0", out),
        Statement::F(count) => write_f(*count, out),
        Statement::Pol(words) => write_list(b"pol", words.as_slice(), out),
        Statement::Rup(goal) => write_rup(goal, out),
        Statement::Soli(literals) => write_list(b"soli", literals.as_slice(), out),
        Statement::Solx(literals) => write_list(b"solx", literals.as_slice(), out),
        Statement::Delete(ids) => write_list(b"del id", ids.as_slice(), out),
        Statement::Output => write_bytes(b"output NONE", out),
        Statement::Conclude(conclusion) => write_conclusion(conclusion, out),
        Statement::End => write_bytes(b"end pseudo-Boolean proof", out),
    }
}

/// Writes the line of a statement without its line feed.
pub fn write_statement<S: Sink>(statement: &Statement, out: &mut S) -> Result<(), Failed>
    ensures { Writes S.contents S.faults out.old (statement_bytes statement.now) result out.new }
{
    let mut piece = Piece::new();
    if put_statement(statement, &mut piece) {
        return write_bytes(piece.as_bytes(), out);
    }
    write_pieces(statement, out)
}

/// Writes a statement and a line feed.
fn write_line<S: Sink>(statement: &Statement, out: &mut S) -> Result<(), Failed>
    ensures { Writes S.contents S.faults out.old (statement_bytes statement.now ++ (10 ∷ [])) result
        out.new }
{
    let mut piece = Piece::new();
    piece.put(b'\n');
    if put_statement(statement, &mut piece) {
        return write_bytes(piece.as_bytes(), out);
    }
    write_pieces(statement, out)?;
    write_bytes(b"\n", out)
}

/// Writes the statements, each with a line feed.
fn write_steps<S: Sink>(steps: &[Statement], out: &mut S) -> Result<(), Failed>
    ensures { Writes S.contents S.faults out.old (ended_lines steps.now) result out.new }
{
    for step in steps {
        write_line(step, out)?;
    }
    Ok(())
}

/// Writes the first two lines of a proof.
fn write_head<S: Sink>(count: Option<u64>, out: &mut S) -> Result<(), Failed>
    ensures { Writes S.contents S.faults out.old ((statement_bytes Statement.Header ++ (10 ∷ []))
        ++ (statement_bytes (Statement.F count) ++ (10 ∷ []))) result out.new }
{
    let mut piece = Piece::new();
    piece.put(b'\n');
    put_f(count, &mut piece);
    piece.put_text(b"pseudo-Boolean proof version 2.0\n");
    write_bytes(piece.as_bytes(), out)
}

/// Writes the canonical text of the proof: each statement on one line, and no line feed after the
/// last one.
pub fn write_proof<S: Sink>(proof: &Proof, out: &mut S) -> Result<(), Failed>
    ensures { Writes S.contents S.faults out.old (proof_bytes proof.now) result out.new }
{
    write_head(proof.count, out)?;
    write_steps(proof.steps.as_slice(), out)?;
    write_bytes(b"output NONE\n", out)?;
    write_conclusion(&proof.conclusion, out)?;
    write_bytes(b"\nend pseudo-Boolean proof", out)
}
