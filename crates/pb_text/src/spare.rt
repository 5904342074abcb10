//! Memory of lists that are no longer needed.

ghost use Rattle.std.specs.Prelude.{◌≡◌, ◌<◌, ◌≤◌, [], length, IfOk};

use crate::sequence::Sequence;
use std::alloc::{AllocError, Global};
use std::marker::Model;
use std::mem;

/// For how many values memory is kept at most.
const KEPT: usize = 1024;

/// Memory for a list of values, from one that is no longer needed. It holds no value. Contracts see
/// for how many values it is.
#[derive(Drop)]
pub struct Spare<T> {
    empty: Vec<T>,
}

impl<T> Model for Spare<T> {
    ghost use Rattle.std.specs.Prelude.{◌≡◌, ℕ, [], vec_capacity};

    ghost Value = { ℕ };

    ghost view = { λ s. vec_capacity s.empty };

    ghost invariant = { λ s. s.empty.items ≡ [] };
}

impl<T: Drop> Spare<T> {
    /// No memory.
    pub fn new(alloc: Global) -> Self
        ensures { result ≡ 0 }
    {
        Spare {
            empty: Vec::new(alloc),
        }
    }

    /// An empty list with memory for this many values, and with the spare memory.
    #[inline(always)]
    pub fn list(&mut self, capacity: usize) -> Result<Sequence<T>, AllocError>
        ensures empty { IfOk result (λ list. list ≡ []) }
        ensures taken { self.new ≡ 0 }
    {
        let alloc = *self.empty.allocator();
        let mut items = mem::replace(&mut self.empty, Vec::new(alloc));
        items.reserve(capacity)?;
        Ok(Sequence::from_vec(items))
    }

    /// Drops the values of a list and keeps its memory, unless that is for more than 1,024 values.
    #[inline(always)]
    pub fn keep(&mut self, list: Sequence<T>)
        ensures most { self.old ≤ 1024 → self.new ≤ 1024 }
        ensures large { 1024 < length list → self.new ≡ self.old }
    {
        let mut items = list.into_vec();
        if items.capacity() > KEPT {
            return;
        }
        items.clear();
        self.empty = items;
    }
}
