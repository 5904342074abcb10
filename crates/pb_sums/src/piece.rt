//! Short texts on the stack.

ghost use Rattle.std.specs.Prelude.{◌≡◌, ◌+◌, ◌≤◌, ◌<◌, [], ◌∷◌, ◌++◌, ◌-◌, length, take, decimal};
ghost use Rattle.std.specs.Fmt.{signed_decimal};
ghost use Rattle.pb_sums.specs.contract.Canonical.{weight_bytes};

use itoa::{Buffer, write_digits};
use std::marker::Model;

/// The maximum length of a piece, in bytes.
pub const ROOM: usize = 512;

/// How many bytes of a short text are copied at once.
const HALF: usize = 4;

/// A text of at most `ROOM` bytes, which grows at its start. Contracts see it as the list of its
/// bytes.
#[derive(Drop)]
pub struct Piece {
    bytes: [u8; ROOM],
    start: usize,
}

impl Model for Piece {
    ghost use Rattle.std.specs.Prelude.{List, ℕ, ◌≤◌, drop};

    ghost Value = { List ℕ };

    ghost view = { λ p. drop p.start p.bytes };

    ghost invariant = { λ p. p.start ≤ 512 };
}

impl Piece {
    /// The empty piece.
    #[inline]
    pub fn new() -> Piece
        ensures { result ≡ [] }
    {
        Piece {
            bytes: [0; ROOM],
            start: ROOM,
        }
    }

    /// The bytes of the piece.
    #[inline]
    pub fn as_bytes(&self) -> &[u8]
        ensures { result.now ≡ self.now }
    {
        &self.bytes[self.start..]
    }

    /// Removes all bytes.
    #[inline]
    pub fn clear(&mut self)
        ensures { self.new ≡ [] }
    {
        self.start = ROOM;
    }

    /// How many more bytes the piece has room for.
    #[inline]
    pub fn room(&self) -> usize
        ensures { result + length self.now ≡ ROOM }
    {
        self.start
    }

    /// Prepends a byte.
    #[inline]
    pub fn put(&mut self, byte: u8)
        requires { length self.old < ROOM }
        ensures { self.new ≡ byte ∷ self.old }
    {
        let start = self.start - 1;
        self.bytes[start] = byte;
        self.start = start;
    }

    /// Prepends a text.
    #[inline]
    pub fn put_text(&mut self, text: &[u8])
        requires { length text.now + length self.old ≤ ROOM }
        ensures { self.new ≡ text.now ++ self.old }
    {
        let start = self.start - text.len();
        copy_text(text, &mut self.bytes[start..self.start]);
        self.start = start;
    }

    /// Prepends the digits of a count.
    #[inline]
    pub fn put_count(&mut self, count: u64)
        requires { 20 + length self.old ≤ ROOM }
        ensures text { self.new ≡ decimal count ++ self.old }
        ensures short { length self.new ≤ 20 + length self.old }
    {
        self.start = write_digits(count, &mut self.bytes, self.start);
    }

    /// Prepends the digits of a number.
    #[inline]
    #[tactic(auto, using(std::proofs::lemmas::Fmt::decimal_digit))]
    fn put_digits(&mut self, number: u128)
        requires { 39 + length self.old ≤ ROOM }
        ensures text { self.new ≡ decimal number ++ self.old }
        ensures short { length self.new ≤ 39 + length self.old }
    {
        if number < 10 {
            self.put(b'0' + number as u8);
            return;
        }
        match u64::try_from(number) {
            Ok(count) => self.put_count(count),
            Err(_) => self.put_wide(number),
        }
    }

    /// The same for a number of more than 64 bits.
    #[cold]
    fn put_wide(&mut self, number: u128)
        requires { 39 + length self.old ≤ ROOM }
        ensures text { self.new ≡ decimal number ++ self.old }
        ensures short { length self.new ≤ 39 + length self.old }
    {
        let mut buffer = Buffer::new();
        self.put_text(buffer.format(number).as_bytes());
    }

    /// Prepends a number: its digits, after a `-` if it is negative.
    #[inline]
    pub fn put_number(&mut self, value: i128)
        requires { 40 + length self.old ≤ ROOM }
        ensures text { self.new ≡ signed_decimal value ++ self.old }
        ensures short { length self.new ≤ 40 + length self.old }
    {
        self.put_digits(value.unsigned_abs());
        if value < 0 {
            self.put(b'-');
        }
    }

    /// Prepends a coefficient: a sign and digits.
    #[inline]
    pub fn put_weight(&mut self, value: i128)
        requires { 40 + length self.old ≤ ROOM }
        ensures text { self.new ≡ weight_bytes value ++ self.old }
        ensures short { length self.new ≤ 40 + length self.old }
    {
        self.put_digits(value.unsigned_abs());
        self.put(if value < 0 { b'-' } else { b'+' });
    }
}

/// Copies a text into a slice of its length.
#[inline(always)]
fn copy_text(text: &[u8], out: &mut [u8])
    requires { length out.old ≡ length text.now }
    ensures { out.new ≡ text.now }
{
    match (text.first_chunk::<HALF>(), text.last_chunk::<HALF>()) {
        (Some(first), Some(last)) if text.len() <= 2 * HALF => copy_halves(*first, *last, out),
        _ => out.copy_from_slice(text),
    }
}

/// Copies the first and the last bytes of a text into a slice of its length. They may overlap.
#[inline(always)]
fn copy_halves(first: [u8; HALF], last: [u8; HALF], out: &mut [u8])
    requires long { 4 ≤ length out.old }
    requires short { length out.old ≤ 8 }
    ensures { out.new ≡ take (length out.old - 4) first ++ last }
{
    let middle = out.len() - HALF;
    out[..HALF].copy_from_slice(&first);
    out[middle..].copy_from_slice(&last);
}
