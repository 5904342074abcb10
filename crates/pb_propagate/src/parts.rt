//! The parts of many lists.

ghost use Rattle.std.specs.Prelude.{◌≡◌, ◌+◌, ◌*◌, ◌-◌, ◌^◌, ◌<◌, ◌≤◌, ◌++◌, ◌∷◌, [], length, slice_set, slice_index_or, OnOk, OnErr};
ghost use Rattle.pb_propagate.specs.engine.Parts.{nothing, IsPadded};

use std::alloc::{AllocError, Global};
use std::marker::Model;

/// The part of a list: its items begin at `start`, and there is memory for `room` of them.
#[derive(Clone, Copy)]
pub struct Part {
    pub(crate) start: u32,
    pub(crate) len: u32,
    pub(crate) room: u32,
}

// The part of an empty list.
const NOTHING: Part = Part {
    start: 0,
    len: 0,
    room: 0,
};

// Where the items of a list are.
#[derive(Clone, Copy)]
struct Span {
    start: u32,
    len: u32,
}

// Where the items of an empty list are.
const NO_SPAN: Span = Span { start: 0, len: 0 };

/// The parts of many lists. Those after the last list that ever had an item take no memory. The
/// room of a part is one less than a power of 2, whose exponent takes one byte.
#[derive(Drop)]
pub struct Parts {
    // Where the items of the first lists are. The others are empty.
    spans: Vec<Span>,
    // For each of these the exponent k of its room: there is memory for 2^k - 1 items. Any others
    // are 0.
    exponents: Vec<u8>,
    // How many lists there are.
    count: usize,
}

impl Model for Parts {
    ghost use Rattle.std.specs.Prelude.{List};
    ghost use Rattle.pb_propagate.specs.declared.parts.Part.{Part};
    ghost use Rattle.pb_propagate.specs.engine.Parts.{parts_in, AreStored};

    ghost Value = { List Part };

    ghost view = { λ p. parts_in p.spans.items p.exponents.items p.count };

    ghost invariant = { λ p. AreStored p.spans.items p.exponents.items p.count };
}

// The room of a part with that exponent.
#[inline]
fn room_of(exponent: u8) -> u32
    requires { exponent ≤ 32 }
    ensures { result ≡ 2 ^ exponent - 1 }
{
    ((1u64 << exponent) - 1) as u32
}

/// Adds values up to a position.
#[inline(always)]
pub fn reach<T: Copy>(items: &mut Vec<T>, at: usize, value: T) -> Result<(), AllocError>
    requires { at + 1 < 2 ^ 64 }
    ensures ok { OnOk result (at < length items.new.items) }
    ensures padded { IsPadded items.old.items items.new.items at value }
{
    if at < items.len() {
        return Ok(());
    }
    if at == items.len() {
        items.push(value)?;
        return Ok(());
    }
    items.resize(at + 1, value)?;
    Ok(())
}

impl Parts {
    /// No list.
    pub fn new(alloc: Global) -> Self
        ensures { result ≡ [] }
    {
        Parts {
            spans: Vec::new(alloc),
            exponents: Vec::new(alloc),
            count: 0,
        }
    }

    /// How many lists there are.
    #[inline]
    pub fn len(&self) -> usize
        ensures { result ≡ length self.now }
    {
        self.count
    }

    /// Adds an empty list after the others.
    #[inline]
    pub fn add(&mut self)
        requires { length self.old + 1 < 2 ^ 64 }
        ensures { self.new ≡ self.old ++ nothing ∷ [] }
    {
        self.count += 1;
    }

    /// The part of a list.
    #[inline]
    pub fn get(&self, list: usize) -> Part
        requires { list < length self.now }
        ensures { result ≡ slice_index_or self.now list nothing }
    {
        match self.spans.get(list) {
            Some(span) => Part {
                start: span.start,
                len: span.len,
                room: room_of(self.exponents[list]),
            },
            None => NOTHING,
        }
    }

    /// Writes the part of a list that is not empty. It has the same room.
    #[inline]
    pub fn set(&mut self, list: usize, part: Part)
        requires list { list < length self.old }
        requires stored { slice_index_or self.old list nothing ≡ nothing → ⊥ }
        requires room { part.room ≡ (slice_index_or self.old list nothing).room }
        ensures { self.new ≡ slice_set self.old list part }
    {
        self.spans[list] = Span {
            start: part.start,
            len: part.len,
        };
    }

    /// Writes the part of a list. It has the next larger room.
    #[inline(always)]
    pub fn put(&mut self, list: usize, part: Part) -> Result<(), AllocError>
        requires list { list < length self.old }
        requires room { part.room ≡ 2 * (slice_index_or self.old list nothing).room + 1 }
        ensures ok { OnOk result (self.new ≡ slice_set self.old list part) }
        ensures err { OnErr result (self.new ≡ self.old) }
    {
        reach(&mut self.exponents, list, 0)?;
        reach(&mut self.spans, list, NO_SPAN)?;
        self.spans[list] = Span {
            start: part.start,
            len: part.len,
        };
        self.exponents[list] += 1;
        Ok(())
    }
}
