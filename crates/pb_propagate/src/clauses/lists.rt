//! For each literal the list of the watches on it.

#![tactic(auto, using(crate::proofs::rulesets::Clauses::lists))]

ghost use Rattle.std.specs.Prelude.{◌≡◌, ℕ, ◌+◌, ◌-◌, ◌/◌, ◌^◌, ◌<◌, ◌++◌, ◌∷◌, [], true, false, length, slice_get, slice_set, swap_remove, OnOk, IfOk, IfSome, IfNone, Some};
ghost use Rattle.pb_propagate.specs.declared.clauses.lists.Listed.{Listed};
ghost use Rattle.pb_propagate.specs.engine.clauses.Links.{watch_lists, list_at, watch_at, idle, AreLinked, Remains, AreFewer, AreMore};
ghost use Rattle.pb_propagate.specs.engine.clauses.Blocks.{HasBlock, rewatched};

use crate::clauses::blocks::Blocks;
use crate::lists::Lists;
use std::alloc::AllocError;

/// A watch: the literal that it watches, and its position in that literal's list.
#[derive(Clone, Copy)]
pub struct Watch {
    pub literal: u32,
    pub live: bool,
    pub spot: usize,
}

/// An entry of a list: a watch and its blocker, another literal of the clause. If the blocker is
/// true, nothing more is read.
#[derive(Clone, Copy)]
pub struct Listed {
    pub watch: u32,
    pub blocker: u32,
}

// The watch that was removed from a list, and the one that moved to its position.
#[derive(Clone, Copy)]
struct Removed {
    watch: u32,
    moved: Option<u32>,
}

// Removes an entry from a list. The last entry moves to its position.
fn remove_entry(lists: &mut Lists<Listed>, literal: usize, index: usize) -> Removed
    requires literal { literal < length lists.old }
    requires index { index < length (list_at (watch_lists lists.old) literal) }
    ensures watch { slice_get (list_at (watch_lists lists.old) literal) index ≡ Some
        result.watch }
    ensures lists { watch_lists lists.new ≡ slice_set (watch_lists lists.old) literal
        (swap_remove (list_at (watch_lists lists.old) literal) index result.watch) }
    ensures none { IfNone result.moved
        (index + 1 ≡ length (list_at (watch_lists lists.old) literal)) }
    ensures some { IfSome result.moved (λ t.
        (index + 1 < length (list_at (watch_lists lists.old) literal)) ×
        (slice_get (list_at (watch_lists lists.old) literal)
        (length (list_at (watch_lists lists.old) literal) - 1) ≡ Some t)) }
    ensures fewer { AreFewer lists.old lists.new }
{
    let removed = lists.swap_remove(literal, index);
    let watch = removed.item.watch;
    match removed.moved {
        None => Removed { watch, moved: None },
        Some(entry) => Removed {
            watch,
            moved: Some(entry.watch),
        },
    }
}

// Appends an entry to a list, and returns its position.
fn push_entry(lists: &mut Lists<Listed>, literal: usize, entry: Listed) -> Result<usize, AllocError>
    requires literal { literal < length lists.old }
    ensures lists { OnOk result (watch_lists lists.new ≡ slice_set
        (watch_lists lists.old) literal
        (list_at (watch_lists lists.old) literal ++ entry.watch ∷ [])) }
    ensures spot { IfOk result (λ spot.
        spot ≡ length (list_at (watch_lists lists.old) literal)) }
    ensures more { OnOk result (AreMore entry lists.old lists.new) }
{
    let spot = lists.push(literal, entry)?;
    Ok(spot)
}

/// Writes an entry of a list, with the same watch and another blocker.
pub fn block(lists: &mut Lists<Listed>, literal: usize, index: usize, entry: Listed)
    requires literal { literal < length lists.old }
    requires item { slice_get (list_at (watch_lists lists.old) literal) index ≡ Some
        entry.watch }
    ensures watches { watch_lists lists.new ≡ watch_lists lists.old }
    ensures more { AreMore entry lists.old lists.new }
{
    lists.set(literal, index, entry);
}

/// Removes the watch at a position of a literal's list. The last of the list moves to its position.
#[inline(always)]
pub fn take_out(lists: &mut Lists<Listed>, blocks: &mut Blocks, literal: usize, index: usize)
    requires literal { literal < length lists.old }
    requires index { index < length (list_at (watch_lists lists.old) literal) }
    requires linked { AreLinked blocks.old.watches (watch_lists lists.old) }
    ensures linked { AreLinked blocks.new.watches (watch_lists lists.new) }
    ensures taken { (e : ℕ) →
        slice_get (list_at (watch_lists lists.old) literal) index ≡ Some e →
        (watch_at blocks.new.watches e).live ≡ false }
    ensures remain { (e k : ℕ) →
        slice_get (list_at (watch_lists lists.old) literal) index ≡ Some e → (k ≡ e → ⊥) →
        Remains index (watch_at blocks.old.watches k) (watch_at blocks.new.watches k) }
    ensures sizes { (length blocks.new.watches ≡ length blocks.old.watches) ×
        (length lists.new ≡ length lists.old) }
    ensures shorter { length (list_at (watch_lists lists.new) literal) + 1 ≡ length
        (list_at (watch_lists lists.old) literal) }
    ensures kept { blocks.new ≡ rewatched blocks.old blocks.new.watches }
    ensures fewer { AreFewer lists.old lists.new }
{
    let removed = remove_entry(lists, literal, index);
    blocks.idle(removed.watch as usize);
    if let Some(moved) = removed.moved {
        blocks.place(moved as usize, index);
    }
}

/// Appends a watch and its blocker to a literal's list.
#[inline]
pub fn put_in(
    lists: &mut Lists<Listed>,
    blocks: &mut Blocks,
    watch: usize,
    literal: u32,
    blocker: u32,
) -> Result<(), AllocError>
    requires literal { literal < length lists.old }
    requires watch { watch < length blocks.old.watches }
    requires small { watch < 2 ^ 32 - 2 }
    requires block { HasBlock blocks.old (watch / 2) }
    requires dead { (watch_at blocks.old.watches watch).live ≡ false }
    requires linked { AreLinked blocks.old.watches (watch_lists lists.old) }
    ensures linked { OnOk result (AreLinked blocks.new.watches (watch_lists lists.new)) }
    ensures watches { OnOk result (blocks.new ≡ rewatched blocks.old
        (slice_set blocks.old.watches watch record {
          literal = literal;
          live = true;
          spot = length (list_at (watch_lists lists.old) literal);
        })) }
    ensures kept { blocks.new ≡ rewatched blocks.old blocks.new.watches }
    ensures sizes { OnOk result (length lists.new ≡ length lists.old) }
    ensures others { OnOk result ((l : ℕ) → (l ≡ literal → ⊥) →
        list_at (watch_lists lists.new) l ≡ list_at (watch_lists lists.old) l) }
    ensures more { OnOk result
        (AreMore record { watch = watch; blocker = blocker } lists.old lists.new) }
{
    let entry = Listed {
        watch: watch as u32,
        blocker,
    };
    let spot = push_entry(lists, literal as usize, entry)?;
    blocks.watch(watch, literal, spot);
    Ok(())
}
