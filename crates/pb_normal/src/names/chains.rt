//! Chains of names, by their hashes.

ghost use Rattle.std.specs.Prelude.{◌≡◌, ◌≢◌, ◌+◌, ◌<◌, ◌≤◌, ◌↔◌, ◌^◌, ℕ, Some, IsTrue, IfNone, IfOk, IfSome, OnErr, get_or, length, slice_get};
ghost use Rattle.pb_normal.specs.engine.NameTable.{AreEnds, IsChained, chain_of, ends_of, hashes_of, names_in, nexts_of};

use crate::names::entry::NameEntry;
use crate::names::text::text_at;
use std::alloc::{AllocError, Global};

// The chain of a hash, among this many.
#[inline(always)]
#[tactic(auto, using(std::proofs::lemmas::Nat::and_le_r), unfolding(crate::specs::engine::NameTable::chain_of))]
fn chain_of(hash: u32, count: usize) -> usize
    requires { 0 < count }
    ensures value { result ≡ chain_of count hash }
    ensures within { result < count }
{
    hash as usize & (count - 1)
}

// Whether a number belongs to a name, which has this hash.
#[inline(always)]
fn is_named(bytes: &[u8], entries: &[NameEntry], number: usize, hash: u32, name: &[u8]) -> bool
    requires ends { AreEnds 0 (ends_of entries.now) (length bytes.now) }
    requires within { number < length entries.now }
    ensures { IsTrue result ↔ ((get_or (hashes_of entries.now) number 0 ≡ hash) ×
        (slice_get (names_in bytes.now entries.now) number ≡ Some name.now)) }
{
    entries[number].hash == hash && text_at(bytes, entries, number) == name
}

// The number of a name with this hash, if it has one.
#[inline(always)]
pub(crate) fn found(
    bytes: &[u8],
    entries: &[NameEntry],
    heads: &[u32],
    hash: u32,
    name: &[u8],
) -> Option<usize>
    requires ends { AreEnds 0 (ends_of entries.now) (length bytes.now) }
    requires chained { IsChained heads.now (hashes_of entries.now) (nexts_of entries.now)
        (length entries.now) }
    requires sized { length entries.now ≤ length heads.now }
    ensures some { IfSome result (λ n. slice_get (names_in bytes.now entries.now) n ≡
        Some name.now) }
    ensures none { IfNone result ((n : ℕ) → n < length entries.now →
        get_or (hashes_of entries.now) n 0 ≡ hash →
        slice_get (names_in bytes.now entries.now) n ≢ Some name.now) }
{
    if heads.len() == 0 {
        return None;
    }
    let mut at = heads[chain_of(hash, heads.len())] as usize;
    'chain: while at > 0 {
        let number = at - 1;
        if is_named(bytes, entries, number, hash, name) {
            return Some(number);
        }
        at = entries[number].next as usize;
    }
    None
}

// Puts a name at the head of its chain.
#[tactic(auto, using(crate::proofs::Rulesets::link))]
pub(crate) fn link(heads: &mut [u32], entries: &mut [NameEntry], number: usize)
    requires within { number < length entries.old }
    requires small { number + 1 < 2 ^ 32 }
    requires some { 0 < length heads.old }
    requires chained { IsChained heads.old (hashes_of entries.old) (nexts_of entries.old) number }
    ensures chained { IsChained heads.new (hashes_of entries.new) (nexts_of entries.new)
        (number + 1) }
    ensures hashes { hashes_of entries.new ≡ hashes_of entries.old }
    ensures ends { ends_of entries.new ≡ ends_of entries.old }
    ensures entries { length entries.new ≡ length entries.old }
    ensures heads { length heads.new ≡ length heads.old }
{
    let chain = chain_of(entries[number].hash, heads.len());
    entries[number].next = heads[chain];
    heads[chain] = number as u32 + 1;
}

// Links all names in chains with new heads.
pub(crate) fn relinked(
    alloc: Global,
    entries: &mut [NameEntry],
    count: usize,
) -> Result<Vec<u32>, AllocError>
    requires small { length entries.old < 2 ^ 32 }
    requires some { 0 < count }
    ensures chained { IfOk result (λ heads. IsChained heads.items (hashes_of entries.new)
        (nexts_of entries.new) (length entries.new)) }
    ensures count { IfOk result (λ heads. length heads.items ≡ count) }
    ensures hashes { hashes_of entries.new ≡ hashes_of entries.old }
    ensures ends { ends_of entries.new ≡ ends_of entries.old }
    ensures entries { length entries.new ≡ length entries.old }
    ensures err { OnErr result (entries.new ≡ entries.old) }
{
    let mut heads = Vec::from_elem(alloc, 0, count)?;
    for number in 0..entries.len() {
        link(heads.as_mut_slice(), entries, number);
    }
    Ok(heads)
}
