//! Many lists in one vector. Each has a part of it, so that short lists take little memory.

ghost use Rattle.std.specs.Prelude.{◌≡◌, ◌+◌, ◌*◌, ◌<◌, ◌≤◌, ◌^◌, ◌++◌, ◌∷◌, [], List, length, slice_set, ◌-◌, slice_index_or, swap_remove, get_or, OnOk, OnErr, IfOk, IfSome, IfNone};
ghost use Rattle.pb_propagate.specs.engine.Parts.{part_of, IsPart};

use crate::parts::{Part, Parts};
use std::alloc::{AllocError, Global};
use std::marker::Model;

/// An item that was removed from a list, and the one that has moved to its position.
#[derive(Drop)]
pub struct Removed<T> {
    pub item: T,
    pub moved: Option<T>,
}

/// Many lists of items. Those after the last one that ever had an item take no memory.
#[derive(Drop)]
pub struct Lists<T> {
    items: Vec<T>,
    parts: Parts,
}

impl<T> Model for Lists<T> {
    ghost use Rattle.std.specs.Prelude.{List, length};
    ghost use Rattle.pb_propagate.specs.engine.Parts.{lists_of, AreParts};

    ghost Value = { List (List T) };

    ghost view = { λ l. lists_of l.items.items l.parts };

    ghost invariant = { λ l. AreParts (length l.items.items) l.parts };
}

// A part with one more item.
#[inline]
fn longer(part: Part) -> Part
    requires room { part.len < part.room }
    ensures part { (result.start ≡ part.start) × (result.len ≡ part.len + 1) ×
        (result.room ≡ part.room) }
{
    Part {
        start: part.start,
        len: part.len + 1,
        room: part.room,
    }
}

// Appends the items of a part after all others.
fn copy_part<T: Copy>(items: &mut Vec<T>, part: Part) -> Result<(), AllocError>
    requires part { IsPart (length items.old.items) part }
    ensures longer { (more : List T) × (items.new.items ≡ items.old.items ++ more) }
    ensures ok { OnOk result (items.new.items ≡
        items.old.items ++ part_of items.old.items part) }
{
    'items: for k in 0..part.len as usize {
        let item = items[part.start as usize + k];
        items.push(item)?;
    }
    Ok(())
}

// How many items a larger part has memory for.
fn larger(room: u32) -> usize
    ensures { result ≡ 2 * room + 1 }
{
    2 * room as usize + 1
}

// Moves a part with one more item after all others, where it has memory for more.
fn moved<T: Copy>(items: &mut Vec<T>, part: Part, item: T) -> Result<Part, AllocError>
    requires part { IsPart (length items.old.items) part }
    ensures longer { (more : List T) × (items.new.items ≡ items.old.items ++ more) }
    ensures part { IfOk result (λ p. (p.start ≡ length items.old.items) ×
        IsPart (length items.new.items) p × (p.room ≡ 2 * part.room + 1) ×
        (part_of items.new.items p ≡ part_of items.old.items part ++ item ∷ [])) }
{
    let start = items.len();
    let room = larger(part.room);
    if start.saturating_add(room) > u32::MAX as usize {
        return Err(AllocError);
    }
    copy_part(items, part)?;
    items.resize(start + room, item)?;
    Ok(Part {
        start: start as u32,
        len: part.len + 1,
        room: room as u32,
    })
}

// The last item of a list, if it moves to that position when the item there is removed.
#[inline]
fn moving<T: Copy>(index: usize, last: usize, item: T) -> Option<T>
    ensures none { IfNone result (last ≤ index) }
    ensures some { IfSome result (λ t. (index < last) × (t ≡ item)) }
{
    if index >= last {
        return None;
    }
    Some(item)
}

impl<T: Copy> Lists<T> {
    /// No list.
    pub fn new(alloc: Global) -> Self
        ensures { result ≡ [] }
    {
        Lists {
            items: Vec::new(alloc),
            parts: Parts::new(alloc),
        }
    }

    /// How many lists there are.
    pub fn len(&self) -> usize
        ensures { result ≡ length self.now }
    {
        self.parts.len()
    }

    /// Adds an empty list after the others.
    pub fn add(&mut self)
        requires { length self.old + 1 < 2 ^ 64 }
        ensures { self.new ≡ self.old ++ [] ∷ [] }
    {
        self.parts.add();
    }

    /// The items of a list.
    #[inline]
    pub fn list(&self, list: usize) -> &[T]
        requires { list < length self.now }
        ensures { result.now ≡ slice_index_or self.now list [] }
    {
        let part = self.parts.get(list);
        let start = part.start as usize;
        &self.items[start..start + part.len as usize]
    }

    /// How many items a list has.
    #[inline]
    pub fn count(&self, list: usize) -> usize
        requires { list < length self.now }
        ensures { result ≡ length (slice_index_or self.now list []) }
    {
        self.parts.get(list).len as usize
    }

    /// An item of a list.
    #[inline]
    pub fn get(&self, list: usize, index: usize) -> T
        requires list { list < length self.now }
        requires index { index < length (slice_index_or self.now list []) }
        ensures { (d : T) → result ≡ get_or (slice_index_or self.now list []) index d }
    {
        let part = self.parts.get(list);
        self.items[part.start as usize + index]
    }

    /// Writes an item of a list.
    #[inline]
    pub fn set(&mut self, list: usize, index: usize, item: T)
        requires list { list < length self.old }
        requires index { index < length (slice_index_or self.old list []) }
        ensures { self.new ≡ slice_set self.old list
            (slice_set (slice_index_or self.old list []) index item) }
    {
        let part = self.parts.get(list);
        self.items[part.start as usize + index] = item;
    }

    // Appends an item to a list, which moves after all others.
    #[inline(never)]
    fn push_moved(&mut self, list: usize, item: T) -> Result<usize, AllocError>
        requires { list < length self.old }
        ensures position { IfOk result (λ at. at ≡ length (slice_index_or self.old list [])) }
        ensures ok { OnOk result (self.new ≡ slice_set self.old list
            (slice_index_or self.old list [] ++ item ∷ [])) }
        ensures err { OnErr result (self.new ≡ self.old) }
    {
        let part = self.parts.get(list);
        let new = moved(&mut self.items, part, item)?;
        self.parts.put(list, new)?;
        Ok(part.len as usize)
    }

    /// Appends an item to a list. Returns its position.
    #[inline(always)]
    pub fn push(&mut self, list: usize, item: T) -> Result<usize, AllocError>
        requires { list < length self.old }
        ensures position { IfOk result (λ at. at ≡ length (slice_index_or self.old list [])) }
        ensures ok { OnOk result (self.new ≡ slice_set self.old list
            (slice_index_or self.old list [] ++ item ∷ [])) }
        ensures err { OnErr result (self.new ≡ self.old) }
    {
        let part = self.parts.get(list);
        if part.len < part.room {
            self.parts.set(list, longer(part));
            self.items[part.start as usize + part.len as usize] = item;
            return Ok(part.len as usize);
        }
        self.push_moved(list, item)
    }

    /// Removes an item of a list. The last one, if it is another, moves to its position.
    #[inline]
    pub fn swap_remove(&mut self, list: usize, index: usize) -> Removed<T>
        requires list { list < length self.old }
        requires index { index < length (slice_index_or self.old list []) }
        ensures item { (d : T) → result.item ≡ get_or (slice_index_or self.old list []) index d }
        ensures none { IfNone result.moved
            (index + 1 ≡ length (slice_index_or self.old list [])) }
        ensures some { IfSome result.moved (λ t.
            (index + 1 < length (slice_index_or self.old list [])) × ((d : T) →
            t ≡ get_or (slice_index_or self.old list [])
            (length (slice_index_or self.old list []) - 1) d)) }
        ensures lists { self.new ≡ slice_set self.old list
            (swap_remove (slice_index_or self.old list []) index result.item) }
    {
        let part = self.parts.get(list);
        let last = part.len - 1;
        let shorter = Part {
            start: part.start,
            len: last,
            room: part.room,
        };
        self.parts.set(list, shorter);
        let start = part.start as usize;
        let removed = self.items[start + index];
        let end = self.items[start + last as usize];
        self.items[start + index] = end;
        Removed {
            item: removed,
            moved: moving(index, last as usize, end),
        }
    }
}
