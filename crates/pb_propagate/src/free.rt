//! The slots of removed forms, by how many literals their blocks have room for.

#![tactic(auto, using(crate::proofs::rulesets::Store::free))]

ghost use Rattle.std.specs.Prelude.{◌≡◌, ℕ, ◌<◌, [], List, length, IfOk, OnOk, IfSome, IfNone};
ghost use Rattle.pb_propagate.specs.engine.engine.Free.{Holds, HasPut, HasTaken, IsSizeOf};

use crate::column::Column;
use std::alloc::{AllocError, Global};

/// Slots to use again. Each is in the list of its size, so that a clause finds a slot whose block
/// has room for it.
#[derive(Drop)]
pub struct Free {
    // For each size the last slot of its list.
    last: [usize; 65],
    // For each slot the one before it in its list.
    before: Column<usize>,
    // How many slots there are. If there are none, the lists need not be read.
    count: usize,
}

// Which list has the slots with room for that number of literals. Long clauses have room for a
// power of two.
fn size_of(room: usize) -> usize
    ensures { IsSizeOf room result }
{
    if room <= 32 {
        return room;
    }
    let mut most = 64usize;
    'sizes: for size in 33..64 {
        if room <= most {
            return size;
        }
        most = most.saturating_mul(2);
    }
    64
}

impl Free {
    /// No slots.
    pub fn new(alloc: Global) -> Free
        ensures { (size : ℕ) → Holds result size [] }
    {
        let before = Column::new(alloc);
        Free {
            last: [usize::MAX; 65],
            before,
            count: 0,
        }
    }

    /// No slots, with memory for this many.
    pub fn with_capacity(alloc: Global, slots: usize) -> Result<Free, AllocError>
        ensures { IfOk result (λ free. (size : ℕ) → Holds free size []) }
    {
        let before = Column::with_capacity(alloc, slots)?;
        Ok(Free {
            last: [usize::MAX; 65],
            before,
            count: 0,
        })
    }

    /// Makes room for one more slot, so that `put` loses none.
    pub fn widen(&mut self, slot: usize) -> Result<(), AllocError>
        ensures { OnOk result ((size : ℕ) (slots : List ℕ) →
            Holds self.old size slots → Holds self.new size slots) }
    {
        if slot < self.before.len() {
            return Ok(());
        }
        self.before.push_empty()?;
        Ok(())
    }

    /// Adds a slot whose block has that room. One for which there is no room is lost.
    pub fn put(&mut self, slot: usize, room: usize)
        ensures { (size : ℕ) × IsSizeOf room size × (slot < length self.old.before →
            HasPut slot size self.old self.new) }
    {
        let size = size_of(room);
        if slot >= self.before.len() {
            return;
        }
        self.before.set(slot, self.last[size]);
        self.last[size] = slot;
        self.count = self.count.saturating_add(1);
    }

    // Takes the last slot out of a list.
    fn pop(&mut self, size: usize) -> Option<usize>
        requires { size < 65 }
        ensures some { IfSome result (λ slot. HasTaken slot size self.old self.new) }
        ensures none { IfNone result (self.new ≡ self.old) }
        ensures empty { IfNone result ((slots : List ℕ) → Holds self.old size slots → slots ≡ []) }
    {
        let slot = self.last[size];
        if slot >= self.before.len() {
            return None;
        }
        self.last[size] = self.before.get(slot);
        self.count = self.count.saturating_sub(1);
        Some(slot)
    }

    // Takes a slot out of the first list that has one, from a size on.
    fn pop_from(&mut self, size: usize) -> Option<usize>
        ensures some { IfSome result (λ slot. (size : ℕ) × HasTaken slot size self.old self.new) }
        ensures none { IfNone result (self.new ≡ self.old) }
    {
        'sizes: for more in size..65 {
            if let Some(slot) = self.pop(more) {
                return Some(slot);
            }
        }
        None
    }

    /// Takes a slot with just the room for that number of literals, else one that has no block,
    /// else one with more room.
    pub fn take(&mut self, count: usize) -> Option<usize>
        ensures some { IfSome result (λ slot. (size : ℕ) × HasTaken slot size self.old self.new) }
        ensures none { IfNone result (self.new ≡ self.old) }
        ensures empty { IfNone result ((slots : List ℕ) → Holds self.old 0 slots → slots ≡ []) }
    {
        let size = size_of(count);
        if let Some(slot) = self.pop(size) {
            return Some(slot);
        }
        if let Some(slot) = self.pop(0) {
            return Some(slot);
        }
        if self.count == 0 {
            return None;
        }
        self.pop_from(size)
    }
}
