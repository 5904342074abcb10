//! Writes the words of a `pol`.

ghost use Rattle.std.specs.Prelude.{◌≡◌, ◌+◌, ◌≤◌, ◌<◌, [], ◌∷◌, ◌++◌, length, if◌then◌else◌};
ghost use Rattle.std.specs.Fmt.{signed_decimal};
ghost use Rattle.pb_text.specs.meaning.Writing.{Writes};
ghost use Rattle.pb_proof.specs.meaning.Canonical.{word_bytes};

use crate::word::PolWord;
use crate::write::list::{LONGEST, ListItem};
use pb_sums::piece::{Piece, ROOM};
use pb_sums::{write_literal, write_number};
use pb_text::{Failed, Sink, write_bytes};

/// Writes a name, and then ` w`.
fn write_weakened<S: Sink>(name: &[u8], out: &mut S) -> Result<(), Failed>
    ensures { Writes S.contents S.faults out.old (name.now ++ (32 ∷ 119 ∷ [])) result out.new }
{
    write_bytes(name, out)?;
    write_bytes(b" w", out)
}

/// Prepends a number, and an operator with a space before it.
fn put_factor(factor: i128, operator: u8, piece: &mut Piece)
    requires { 43 + length piece.old ≤ ROOM }
    ensures text { piece.new ≡ (signed_decimal factor ++ (32 ∷ operator ∷ [])) ++ piece.old }
    ensures short { length piece.new < ROOM }
{
    piece.put(operator);
    piece.put(b' ');
    piece.put_number(factor);
}

/// Writes a number, and an operator with a space before it.
fn write_factor<S: Sink>(factor: i128, operator: u8, out: &mut S) -> Result<(), Failed>
    ensures { Writes S.contents S.faults out.old (signed_decimal factor ++ (32 ∷ operator ∷ []))
        result out.new }
{
    let mut piece = Piece::new();
    put_factor(factor, operator, &mut piece);
    write_bytes(piece.as_bytes(), out)
}

/// Prepends a name and ` w` if they fit with one more byte, and returns whether it did.
fn put_weakened(name: &[u8], piece: &mut Piece) -> bool
    requires { 43 + length piece.old ≤ ROOM }
    ensures text { piece.new ≡ (if
        result then (name.now ++ (32 ∷ 119 ∷ [])) ++ piece.old else piece.old) }
    ensures short { length piece.new < ROOM }
{
    if name.len() + LONGEST > piece.room() {
        return false;
    }
    piece.put_text(b" w");
    piece.put_text(name);
    true
}

impl ListItem for PolWord {
    ghost line = { word_bytes };

    #[inline(always)]
    fn put(&self, piece: &mut Piece) -> bool {
        match self {
            PolWord::Id(id) => piece.put_number(*id as i128),
            PolWord::Axiom(literal) => return literal.put(piece),
            PolWord::Add => piece.put(b'+'),
            PolWord::Multiply(factor) => put_factor(*factor, b'*', piece),
            PolWord::Divide(divisor) => put_factor(*divisor, b'd', piece),
            PolWord::Saturate => piece.put(b's'),
            PolWord::Weaken(name) => return put_weakened(name.as_str().as_bytes(), piece),
        }
        true
    }

    fn write<S: Sink>(&self, out: &mut S) -> Result<(), Failed> {
        match self {
            PolWord::Id(id) => write_number(*id as i128, out),
            PolWord::Axiom(literal) => write_literal(literal, out),
            PolWord::Add => write_bytes(b"+", out),
            PolWord::Multiply(factor) => write_factor(*factor, b'*', out),
            PolWord::Divide(divisor) => write_factor(*divisor, b'd', out),
            PolWord::Saturate => write_bytes(b"s", out),
            PolWord::Weaken(name) => write_weakened(name.as_str().as_bytes(), out),
        }
    }
}
