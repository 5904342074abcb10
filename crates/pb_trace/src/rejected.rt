//! The lines of a rejected statement.
#![tactic(auto, using(crate::proofs::ReasonLines::reasons))]

ghost use Rattle.std.specs.Prelude.{◌≡◌, ◌-◌, slice_get};
ghost use Rattle.std.specs.Option.{option_copied};
ghost use Rattle.pb_text.specs.meaning.Writing.{Writes};
ghost use Rattle.pb_trace.specs.Named.{known_by};
ghost use Rattle.pb_trace.specs.Rejected.{WritesAll, WritesBefore, WritesPieces, WritesReasons, WritesShown, piece_bytes, rejected_line, word_shown, words_of};

use crate::derived::write_derivation;
use crate::facts::Facts;
use crate::named::write_named;
use crate::piece::{Derivation, Lines, Piece, Reasons};
use crate::write::{write_form, write_numbered, write_read, write_word};
use pb_proof::{PolWord, Statement};
use pb_sums::{write_count, write_number};
use pb_text::{Failed, Sink, Spanned, write_bytes};

/// Writes the line of a rejected statement.
pub(crate) fn write_rejected_line<S: Sink>(
    read: &Spanned<Statement>,
    out: &mut S,
) -> Result<(), Failed>
    ensures { Writes S.contents S.faults out.old (rejected_line read.now) result out.new }
{
    write_read(read, out)?;
    write_bytes(b" -> rejected\n", out)
}

/// The words of a `pol`, and none for other statements.
pub(crate) fn words_in(statement: &Statement) -> &[PolWord]
    ensures { result.now ≡ words_of statement.now }
{
    match statement {
        Statement::Pol(words) => words.as_slice(),
        Statement::Header
        | Statement::F(_)
        | Statement::Rup(_)
        | Statement::Soli(_)
        | Statement::Solx(_)
        | Statement::Delete(_)
        | Statement::Output
        | Statement::Conclude(_)
        | Statement::End => &[],
    }
}

/// Writes what is known of a rejection.
pub(crate) fn write_reasons<S: Sink>(
    reasons: &Reasons,
    facts: &Facts<'_>,
    out: &mut S,
) -> Result<(), Failed>
    ensures { WritesAll S.contents S.faults (known_by facts.now) reasons.now out.old result
        out.new }
{
    match reasons {
        Reasons::Nothing => Ok(()),
        Reasons::Plain(lines) => write_lines(lines, facts, out),
        Reasons::Shown(before, derivation, after) => {
            write_shown(before, derivation, after, facts, out)
        }
    }
}

/// Writes a derivation between the lines before and after it.
fn write_shown<S: Sink>(
    before: &Option<Lines>,
    derivation: &Derivation,
    after: &Lines,
    facts: &Facts<'_>,
    out: &mut S,
) -> Result<(), Failed>
    ensures { WritesShown S.contents S.faults (known_by facts.now) before.now derivation.now out.old
        result out.new }
{
    write_before(before, facts, out)?;
    write_derivation(derivation, facts, out)?;
    write_lines(after, facts, out)
}

/// Writes the lines before a derivation, if there are any.
fn write_before<S: Sink>(
    before: &Option<Lines>,
    facts: &Facts<'_>,
    out: &mut S,
) -> Result<(), Failed>
    ensures { WritesBefore S.contents S.faults
        (known_by facts.now) before.now out.old result out.new }
{
    match before {
        Some(lines) => write_lines(lines, facts, out),
        None => Ok(()),
    }
}

/// Writes lines.
fn write_lines<S: Sink>(lines: &Lines, facts: &Facts<'_>, out: &mut S) -> Result<(), Failed>
    ensures { WritesReasons S.contents S.faults (known_by facts.now) out.old result out.new }
{
    let mut start = 0;
    for end in &lines.ends {
        let pieces = lines.pieces.get(start..*end).unwrap_or(&[]);
        write_reason(pieces, facts, out)?;
        start = *end;
    }
    Ok(())
}

/// Writes a line of the reasons.
fn write_reason<S: Sink>(pieces: &[Piece], facts: &Facts<'_>, out: &mut S) -> Result<(), Failed>
    ensures { WritesReasons S.contents S.faults (known_by facts.now) out.old result out.new }
{
    write_bytes(b"  ", out)?;
    write_pieces(pieces, facts, out)?;
    write_bytes(b"\n", out)
}

/// Writes the parts of a line.
fn write_pieces<S: Sink>(pieces: &[Piece], facts: &Facts<'_>, out: &mut S) -> Result<(), Failed>
    ensures { WritesPieces S.contents S.faults (known_by facts.now) out.old result out.new }
{
    for piece in pieces {
        write_piece(piece, facts, out)?;
    }
    Ok(())
}

/// Writes a part of a line.
fn write_piece<S: Sink>(piece: &Piece, facts: &Facts<'_>, out: &mut S) -> Result<(), Failed>
    ensures { WritesPieces S.contents S.faults (known_by facts.now) out.old result out.new }
{
    write_part(piece, facts, out)
}

fn write_part<S: Sink>(piece: &Piece, facts: &Facts<'_>, out: &mut S) -> Result<(), Failed>
    ensures { Writes S.contents S.faults out.old
        (piece_bytes (known_by facts.now) piece.now) result out.new }
{
    match piece {
        Piece::Text(text) => write_bytes(text, out),
        Piece::Count(count) => write_count(*count, out),
        Piece::Number(number) => write_number(*number, out),
        Piece::Literal(variable, negated) => {
            write_numbered(*variable, *negated, facts.replay, out)
        }
        Piece::Constraint(id) => write_named(b"", *id, facts, out),
        Piece::Form(form) => write_form(form, facts.replay, out),
        Piece::Word(position) => write_word_shown(word_at(facts.words, *position), out),
    }
}

/// The word with a position, counted from 1.
fn word_at(words: &[PolWord], position: usize) -> Option<&PolWord>
    ensures { option_copied result ≡ slice_get words.now (position - 1) }
{
    words.get(position.saturating_sub(1))
}

/// Writes a word, if there is one.
fn write_word_shown<S: Sink>(found: Option<&PolWord>, out: &mut S) -> Result<(), Failed>
    ensures { Writes S.contents S.faults out.old
        (word_shown (option_copied found.entry)) result out.new }
{
    match found {
        Some(word) => write_word(word, out),
        None => Ok(()),
    }
}
