//! Canonical text.

ghost use Rattle.std.specs.Prelude.{◌≡◌, ◌+◌, ◌≤◌, ◌++◌, ◌<◌, [], ◌∷◌, List, ℕ, IsTrue, decimal, length, drop, if◌then◌else◌};
ghost use Rattle.std.specs.Fmt.{signed_decimal};
ghost use Rattle.pb_text.specs.meaning.Writing.{Writes};
ghost use Rattle.pb_sums.specs.meaning.Sums.{literal_bytes};
ghost use Rattle.pb_sums.specs.contract.Canonical.{weight_bytes, term_bytes, further_bytes, sum_bytes, relation_bytes, linear_bytes, place_bytes};

use crate::Name;
use crate::linear::{Linear, Literal, Relation, Term};
use crate::piece::{Piece, ROOM};
use pb_text::{Failed, Place, Sink, write_bytes};

/// The maximum number of bytes of a name that are written in one piece with the text before it.
const PREFIX: usize = 48;

/// The maximum length of a term without its name but with a space before it, in bytes.
const LONGEST: usize = 43;

/// The maximum number of terms of a piece.
const BATCH: usize = 32;

/// The maximum length of the relation, the degree and ` ;`, with a space before each, in bytes.
const LONGEST_END: usize = 46;

/// Writes a number: its digits, after a `-` if it is negative.
pub fn write_number<S: Sink>(value: i128, out: &mut S) -> Result<(), Failed>
    ensures { Writes S.contents S.faults out.old (signed_decimal value) result out.new }
{
    let mut piece = Piece::new();
    piece.put_number(value);
    write_bytes(piece.as_bytes(), out)
}

/// Writes a count: digits.
pub fn write_count<S: Sink>(value: u64, out: &mut S) -> Result<(), Failed>
    ensures { Writes S.contents S.faults out.old (decimal value) result out.new }
{
    let mut piece = Piece::new();
    piece.put_count(value);
    write_bytes(piece.as_bytes(), out)
}

/// Prepends a position: its line, `:`, its column and a space.
fn put_line_and_column(place: Place, piece: &mut Piece)
    requires { 42 + length piece.old ≤ ROOM }
    ensures { piece.new ≡ place_bytes place ++ piece.old }
{
    piece.put(b' ');
    piece.put_count(place.column);
    piece.put(b':');
    piece.put_count(place.line);
}

/// Prepends a position if it surely fits, and returns whether it did.
pub fn put_place(place: Place, piece: &mut Piece) -> bool
    ensures { IsTrue result → piece.new ≡ place_bytes place ++ piece.old }
{
    if piece.room() < LONGEST {
        return false;
    }
    put_line_and_column(place, piece);
    true
}

/// Writes a position: its line, `:`, its column and a space.
pub fn write_place<S: Sink>(place: Place, out: &mut S) -> Result<(), Failed>
    ensures { Writes S.contents S.faults out.old (place_bytes place) result out.new }
{
    let mut piece = Piece::new();
    put_line_and_column(place, &mut piece);
    write_bytes(piece.as_bytes(), out)
}

/// The prefix of a name that fits in a piece, and the rest, which is empty for most names.
fn split_name(name: &Name) -> (&[u8], &[u8])
    ensures short { length result.0.now ≤ PREFIX }
    ensures whole { name.now ≡ result.0.now ++ result.1.now }
{
    let bytes = name.as_bytes();
    bytes.split_at(bytes.len().min(PREFIX))
}

/// Prepends the start of a literal: `~` if it is negated, and the prefix of its name.
fn put_literal(negated: bool, prefix: &[u8], piece: &mut Piece)
    requires { 1 + length prefix.now + length piece.old ≤ ROOM }
    ensures { piece.new ≡ literal_bytes negated prefix.now ++ piece.old }
{
    piece.put_text(prefix);
    if negated {
        piece.put(b'~');
    }
}

/// Prepends the start of a term: all of it except the rest of its name.
fn put_term(term: &Term, prefix: &[u8], piece: &mut Piece)
    requires { 42 + length prefix.now + length piece.old ≤ ROOM }
    ensures text { piece.new ≡ (weight_bytes term.now.coefficient ++ (32 ∷ literal_bytes
        term.now.literal.negated prefix.now)) ++ piece.old }
    ensures short { length piece.new ≤ 42 + length prefix.now + length piece.old }
{
    put_literal(term.literal.negated, prefix, piece);
    piece.put(b' ');
    piece.put_weight(term.coefficient);
}

/// Writes a piece and then the rest of a name.
#[tactic(auto, using(crate::proofs::Rulesets::writing))]
fn write_both<S: Sink>(piece: &Piece, rest: &[u8], out: &mut S) -> Result<(), Failed>
    ensures { Writes S.contents S.faults out.old (piece.now ++ rest.now) result out.new }
{
    write_bytes(piece.as_bytes(), out)?;
    write_bytes(rest, out)
}

/// Writes a literal: its name, after a `~` if it is negated.
pub fn write_literal<S: Sink>(literal: &Literal, out: &mut S) -> Result<(), Failed>
    ensures { Writes S.contents S.faults out.old
        (literal_bytes literal.now.negated literal.now.name) result out.new }
{
    let (prefix, rest) = split_name(&literal.name);
    let mut piece = Piece::new();
    put_literal(literal.negated, prefix, &mut piece);
    write_both(&piece, rest, out)
}

fn write_term<S: Sink>(term: &Term, out: &mut S) -> Result<(), Failed>
    ensures { Writes S.contents S.faults out.old (term_bytes term.now) result out.new }
{
    let (prefix, rest) = split_name(&term.literal.name);
    let mut piece = Piece::new();
    put_term(term, prefix, &mut piece);
    write_both(&piece, rest, out)
}

fn write_further_term<S: Sink>(term: &Term, out: &mut S) -> Result<(), Failed>
    ensures { Writes S.contents S.faults out.old (32 ∷ term_bytes term.now) result out.new }
{
    let (prefix, rest) = split_name(&term.literal.name);
    let mut piece = Piece::new();
    put_term(term, prefix, &mut piece);
    piece.put(b' ');
    write_both(&piece, rest, out)
}

/// Writes terms, each in a piece of its own.
fn write_each<S: Sink>(terms: &[Term], out: &mut S) -> Result<(), Failed>
    ensures { Writes S.contents S.faults out.old (further_bytes terms.now) result out.new }
{
    for term in terms {
        write_further_term(term, out)?;
    }
    Ok(())
}

/// Prepends a space and a term if they surely fit, and returns whether it did.
fn put_further_term(term: &Term, piece: &mut Piece) -> bool
    ensures { piece.new ≡ (if result then (32 ∷ term_bytes term.now) ++ piece.old else piece.old) }
{
    let name = term.literal.name.as_bytes();
    if name.len() + LONGEST > piece.room() {
        return false;
    }
    put_term(term, name, piece);
    piece.put(b' ');
    true
}

/// Prepends terms, the last one first, as long as they fit, and returns how many are left.
#[tactic(auto, using(crate::proofs::lemmas::values::Written::further_past))]
fn put_further(terms: &[Term], piece: &mut Piece) -> usize
    ensures within { result ≤ length terms.now }
    ensures text { piece.new ≡ further_bytes (drop result terms.now) ++ piece.old }
{
    let mut left = terms.len();
    while left > 0 && put_further_term(&terms[left - 1], piece) {
        left -= 1;
    }
    left
}

/// Writes terms, the last ones in one piece.
fn write_batch<S: Sink>(terms: &[Term], out: &mut S) -> Result<(), Failed>
    ensures { Writes S.contents S.faults out.old (further_bytes terms.now) result out.new }
{
    let mut piece = Piece::new();
    let left = put_further(terms, &mut piece);
    write_each(&terms[..left], out)?;
    write_bytes(piece.as_bytes(), out)
}

/// Writes terms with a space before each.
#[tactic(auto, using(crate::proofs::Rulesets::writing))]
fn write_further<S: Sink>(terms: &[Term], out: &mut S) -> Result<(), Failed>
    ensures { Writes S.contents S.faults out.old (further_bytes terms.now) result out.new }
{
    let mut rest = terms;
    while !rest.is_empty() {
        let (batch, following) = rest.split_at(rest.len().min(BATCH));
        write_batch(batch, out)?;
        rest = following;
    }
    Ok(())
}

/// Writes the terms with one space between them, each a sign, digits, a space and a literal.
pub fn write_sum<S: Sink>(terms: &[Term], out: &mut S) -> Result<(), Failed>
    ensures { Writes S.contents S.faults out.old (sum_bytes terms.now) result out.new }
{
    match terms {
        [] => Ok(()),
        [first, rest @ ..] => {
            write_term(first, out)?;
            write_further(rest, out)
        }
    }
}

/// Prepends a term if it surely fits, and returns whether it did.
fn put_whole_term(term: &Term, piece: &mut Piece) -> bool
    ensures { IsTrue result → piece.new ≡ term_bytes term.now ++ piece.old }
{
    let name = term.literal.name.as_bytes();
    if name.len() + LONGEST > piece.room() {
        return false;
    }
    put_term(term, name, piece);
    true
}

/// Prepends a sum if it surely fits, and returns whether it did. If it did not, the piece may have
/// a part of it.
fn put_sum(terms: &[Term], piece: &mut Piece) -> bool
    ensures { IsTrue result → piece.new ≡ sum_bytes terms.now ++ piece.old }
{
    match terms {
        [] => true,
        [first, rest @ ..] => put_further(rest, piece) == 0 && put_whole_term(first, piece),
    }
}

/// Prepends the end of a linear text: the relation, the degree and ` ;`.
fn put_end(relation: Relation, degree: i128, piece: &mut Piece)
    requires { 45 + length piece.old ≤ ROOM }
    ensures text { piece.new ≡ (relation_bytes
        relation ++ (32 ∷ (signed_decimal degree ++ (32 ∷ 59 ∷ [])))) ++ piece.old }
    ensures short { length piece.new ≤ 45 + length piece.old }
{
    piece.put_text(b" ;");
    piece.put_number(degree);
    match relation {
        Relation::AtLeast => piece.put_text(b">= "),
        Relation::Equal => piece.put_text(b"= "),
    }
}

/// Prepends what follows the sum of a linear text.
fn put_tail(linear: &Linear, piece: &mut Piece)
    requires { 46 + length piece.old ≤ ROOM }
    ensures { sum_bytes linear.now.terms ++ piece.new ≡ linear_bytes linear.now ++ piece.old }
{
    put_end(linear.relation, linear.degree, piece);
    if !linear.terms.is_empty() {
        piece.put(b' ');
    }
}

/// Prepends a linear text if it surely fits, and returns whether it did. If it did not, the piece
/// may have a part of it.
pub fn put_linear(linear: &Linear, piece: &mut Piece) -> bool
    ensures { IsTrue result → piece.new ≡ linear_bytes linear.now ++ piece.old }
{
    if linear.terms.len() > BATCH || piece.room() < LONGEST_END {
        return false;
    }
    put_tail(linear, piece);
    put_sum(linear.terms.as_slice(), piece)
}

/// Writes a linear text in several pieces.
#[tactic(auto, using(crate::proofs::Rulesets::writing))]
fn write_pieces<S: Sink>(linear: &Linear, out: &mut S) -> Result<(), Failed>
    ensures { Writes S.contents S.faults out.old (linear_bytes linear.now) result out.new }
{
    let mut piece = Piece::new();
    put_tail(linear, &mut piece);
    write_sum(linear.terms.as_slice(), out)?;
    write_bytes(piece.as_bytes(), out)
}

/// Writes a linear text: its sum, the relation and the degree, with single spaces, and ` ;`.
pub fn write_linear<S: Sink>(linear: &Linear, out: &mut S) -> Result<(), Failed>
    ensures { Writes S.contents S.faults out.old (linear_bytes linear.now) result out.new }
{
    let mut piece = Piece::new();
    if put_linear(linear, &mut piece) {
        return write_bytes(piece.as_bytes(), out);
    }
    write_pieces(linear, out)
}
