//! Memory of lists of terms that are no longer needed.

ghost use Rattle.std.specs.Prelude.{◌≡◌, ◌≤◌, ◌+◌, [], vec_capacity, OnOk, OnErr};

use crate::entry::Entry;
use std::alloc::{AllocError, Global};
use std::marker::Model;

/// For how many terms memory is kept from one line to the next.
const KEPT: usize = 4096;

/// Lists of terms whose memory is used again. Contracts see for how many terms it is.
#[derive(Drop)]
pub struct Memory {
    lists: Vec<Vec<Entry>>,
}

impl Model for Memory {
    ghost use Rattle.std.specs.Prelude.{ℕ, sum_by, vec_capacity};

    ghost Value = { ℕ };

    ghost view = { λ m. sum_by vec_capacity m.lists.items };
}

impl Memory {
    /// No memory.
    pub fn new(alloc: Global) -> Memory
        ensures { result ≡ 0 }
    {
        Memory {
            lists: Vec::new(alloc),
        }
    }

    /// Where it is allocated.
    pub fn allocator(&self) -> Global {
        *self.lists.allocator()
    }

    /// An empty list, with memory of one that is no longer needed.
    pub(crate) fn list(&mut self) -> Vec<Entry>
        ensures empty { result.items ≡ [] }
        ensures taken { self.new + vec_capacity result ≡ self.old }
    {
        match self.lists.pop() {
            Some(list) => emptied(list),
            None => Vec::new(self.allocator()),
        }
    }

    /// Takes a list whose terms are no longer needed.
    pub(crate) fn keep(&mut self, list: Vec<Entry>) -> Result<(), AllocError>
        ensures ok { OnOk result (self.new ≡ self.old + vec_capacity list) }
        ensures err { OnErr result (self.new ≡ self.old) }
    {
        self.lists.push(list)?;
        Ok(())
    }

    /// Gives all memory back if it is for more than 4,096 terms.
    pub fn trim(&mut self)
        ensures most { self.new ≤ 4096 }
        ensures few { self.old ≤ 4096 → self.new ≡ self.old }
    {
        let mut room: usize = 0;
        'lists: for i in 0..self.lists.len() {
            room = room.saturating_add(self.lists[i].capacity());
        }
        if room > KEPT {
            self.lists.clear();
        }
    }
}

// The list without its terms.
fn emptied(list: Vec<Entry>) -> Vec<Entry>
    ensures empty { result.items ≡ [] }
    ensures same { vec_capacity result ≡ vec_capacity list }
{
    let mut list = list;
    list.clear();
    list
}
