//! Writes lists: ids, literals, or the words of a `pol`, with a space before each.

ghost use Rattle.std.specs.Prelude.{◌≡◌, ◌+◌, ◌≤◌, ◌<◌, ◌∷◌, ◌++◌, ℕ, List, IsTrue, length, drop, if◌then◌else◌};
ghost use Rattle.std.specs.Fmt.{signed_decimal};
ghost use Rattle.pb_text.specs.meaning.Writing.{Writes};
ghost use Rattle.pb_proof.specs.meaning.Canonical.{literal_line, listed_bytes};

use pb_sums::piece::{Piece, ROOM};
use pb_sums::{Literal, write_literal, write_number};
use pb_text::{Failed, Sink, write_bytes};

/// The maximum length of an item without its name but with a space before it, in bytes.
pub const LONGEST: usize = 43;

/// The maximum number of items of a piece.
const BATCH: usize = 64;

/// An item of a list.
pub trait ListItem {
    /// Its canonical text.
    ghost line: { Self → List ℕ };

    /// Prepends the item if it fits with one more byte, and returns whether it did.
    fn put(&self, piece: &mut Piece) -> bool
        requires { 43 + length piece.old ≤ ROOM }
        ensures text { piece.new ≡ (if result then line self.now ++ piece.old else piece.old) }
        ensures short { length piece.new < ROOM };

    /// Writes the item.
    fn write<S: Sink>(&self, out: &mut S) -> Result<(), Failed>
        ensures { Writes S.contents S.faults out.old (line self.now) result out.new };
}

impl ListItem for i64 {
    ghost line = { signed_decimal };

    #[inline(always)]
    fn put(&self, piece: &mut Piece) -> bool {
        piece.put_number(*self as i128);
        true
    }

    fn write<S: Sink>(&self, out: &mut S) -> Result<(), Failed> {
        write_number(*self as i128, out)
    }
}

impl ListItem for Literal {
    ghost line = { literal_line };

    fn put(&self, piece: &mut Piece) -> bool {
        let name = self.name.as_bytes();
        if name.len() + LONGEST > piece.room() {
            return false;
        }
        piece.put_text(name);
        if self.negated {
            piece.put(b'~');
        }
        true
    }

    fn write<S: Sink>(&self, out: &mut S) -> Result<(), Failed> {
        write_literal(self, out)
    }
}

/// Prepends a space and an item if they surely fit, and returns whether it did.
#[inline(always)]
fn put_next<T: ListItem>(item: &T, piece: &mut Piece) -> bool
    ensures { piece.new ≡ (if result then (32 ∷ T.line item.now) ++ piece.old else piece.old) }
{
    if piece.room() < LONGEST || !item.put(piece) {
        return false;
    }
    piece.put(b' ');
    true
}

/// Prepends items, the last one first, as long as they fit, and returns how many are left.
fn put_items<T: ListItem>(items: &[T], piece: &mut Piece) -> usize
    ensures within { result ≤ length items.now }
    ensures text { piece.new ≡ listed_bytes T.line (drop result items.now) ++ piece.old }
{
    let mut left = items.len();
    while left > 0 && put_next(&items[left - 1], piece) {
        left -= 1;
    }
    left
}

/// Prepends a text if it fits, and returns whether it did.
pub fn put_lead(lead: &[u8], piece: &mut Piece) -> bool
    ensures { IsTrue result → piece.new ≡ lead.now ++ piece.old }
{
    if lead.len() > piece.room() {
        return false;
    }
    piece.put_text(lead);
    true
}

/// Prepends a text, and the items after it, if they surely fit, and returns whether it did.
pub fn put_list<T: ListItem>(lead: &[u8], items: &[T], piece: &mut Piece) -> bool
    ensures { IsTrue result → piece.new ≡ (lead.now ++ listed_bytes T.line items.now) ++ piece.old }
{
    items.len() <= BATCH && put_items(items, piece) == 0 && put_lead(lead, piece)
}

/// Writes a space and then an item.
fn write_next<T: ListItem, S: Sink>(item: &T, out: &mut S) -> Result<(), Failed>
    ensures { Writes S.contents S.faults out.old (32 ∷ T.line item.now) result out.new }
{
    write_bytes(b" ", out)?;
    item.write(out)
}

/// Writes items, each in pieces of its own.
fn write_each<T: ListItem, S: Sink>(items: &[T], out: &mut S) -> Result<(), Failed>
    ensures { Writes S.contents S.faults out.old (listed_bytes T.line items.now) result out.new }
{
    for item in items {
        write_next(item, out)?;
    }
    Ok(())
}

/// Writes a text and items, the last items in one piece.
fn write_parts<T: ListItem, S: Sink>(
    lead: &[u8],
    items: &[T],
    piece: &Piece,
    out: &mut S,
) -> Result<(), Failed>
    ensures { Writes S.contents S.faults out.old
        (lead.now ++ (listed_bytes T.line items.now ++ piece.now)) result out.new }
{
    write_bytes(lead, out)?;
    write_each(items, out)?;
    write_bytes(piece.as_bytes(), out)
}

/// Writes a text and items, in one piece if they fit.
fn write_batch<T: ListItem, S: Sink>(lead: &[u8], items: &[T], out: &mut S) -> Result<(), Failed>
    ensures { Writes S.contents S.faults out.old (lead.now ++ listed_bytes T.line items.now)
        result out.new }
{
    let mut piece = Piece::new();
    let left = put_items(items, &mut piece);
    if left > 0 || lead.len() > piece.room() {
        return write_parts(lead, &items[..left], &piece, out);
    }
    piece.put_text(lead);
    write_bytes(piece.as_bytes(), out)
}

/// Writes items with a space before each.
fn write_further<T: ListItem, S: Sink>(items: &[T], out: &mut S) -> Result<(), Failed>
    ensures { Writes S.contents S.faults out.old (listed_bytes T.line items.now) result out.new }
{
    let mut rest = items;
    while !rest.is_empty() {
        let (batch, following) = rest.split_at(rest.len().min(BATCH));
        write_batch(b"", batch, out)?;
        rest = following;
    }
    Ok(())
}

/// Writes a text, and items with a space before each.
pub fn write_list<T: ListItem, S: Sink>(lead: &[u8], items: &[T], out: &mut S) -> Result<(), Failed>
    ensures { Writes S.contents S.faults out.old (lead.now ++ listed_bytes T.line items.now)
        result out.new }
{
    let (batch, rest) = items.split_at(items.len().min(BATCH));
    write_batch(lead, batch, out)?;
    write_further(rest, out)
}
