//! Numbers of slots. Those after the last one that is stored are 0, and take no memory.

ghost use Rattle.std.specs.Prelude.{◌≡◌, ℕ, ◌+◌, ◌^◌, ◌<◌, length, OnOk};
ghost use Rattle.pb_propagate.specs.engine.clauses.Blocks.{number_at};

use crate::parts::reach;
use std::alloc::AllocError;

/// The number of a slot.
#[inline]
pub fn number_of(numbers: &[u32], slot: usize) -> u32
    ensures { result ≡ number_at numbers.now slot }
{
    match numbers.get(slot) {
        Some(number) => *number,
        None => 0,
    }
}

/// Stores the two numbers of a slot. No number changes.
#[inline(always)]
pub fn reach_both(
    starts: &mut Vec<u32>,
    rooms: &mut Vec<u32>,
    slot: usize,
) -> Result<(), AllocError>
    requires { slot + 1 < 2 ^ 64 }
    ensures starts { (s : ℕ) → number_at starts.new.items s ≡ number_at starts.old.items s }
    ensures rooms { (s : ℕ) → number_at rooms.new.items s ≡ number_at rooms.old.items s }
    ensures stored { OnOk result
        ((slot < length starts.new.items) × (slot < length rooms.new.items)) }
{
    reach(starts, slot, 0)?;
    reach(rooms, slot, 0)?;
    Ok(())
}
