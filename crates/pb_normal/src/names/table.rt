//! A table of names.

ghost use Rattle.std.specs.Prelude.{◌≡◌, ◌+◌, ◌<◌, ◌++◌, ◌∷◌, ◌^◌, [], false, None, Some, IfOk, IfSome, OnErr, OnOk, if◌then◌else◌, length, slice_get};
ghost use Rattle.std.specs.Vec.{vec_capacity, vec_len};
ghost use Rattle.pb_normal.specs.engine.NameTable.{IsTable, hash_by, listed};
ghost use Rattle.pb_normal.specs.meaning.Names.{has_name, number_in};

use crate::names::chains::{found, link, relinked};
use crate::names::entry::NameEntry;
use crate::names::hasher::NameHasher;
use std::alloc::{AllocError, Global};
use std::hash::Hasher;

/// The names in one list of bytes. Those whose hashes have the same chain are linked, the last one
/// first.
#[derive(Drop)]
pub(crate) struct NameTable {
    pub(crate) alloc: Global,
    pub(crate) hasher: NameHasher,
    pub(crate) bytes: Vec<u8>,
    pub(crate) entries: Vec<NameEntry>,
    /// For each chain one more than the number of its last name, or 0. Their count is a power of
    /// two.
    pub(crate) heads: Vec<u32>,
}

// The 32 bits of a name's hash that are stored.
#[inline(always)]
pub(crate) fn hash_of(hasher: NameHasher, name: &[u8]) -> u32
    ensures { result ≡ hash_by hasher name.now }
{
    let mut hasher = hasher;
    hasher.write(name);
    (hasher.finish() >> 32) as u32
}

/// The number of a name with this hash, or `None` if it has none.
#[inline(always)]
pub(crate) fn number_of(table: &NameTable, hash: u32, name: &str) -> Option<usize>
    requires table { IsTable table.now }
    requires hash { hash ≡ hash_by table.now.hasher name.now }
    ensures number { result ≡ (if has_name (listed table.now) name.now then Some
        (number_in (listed table.now) name.now) else None) }
    ensures named { IfSome result (λ n. slice_get (listed table.now) n ≡ Some name.now) }
{
    found(
        table.bytes.as_slice(),
        table.entries.as_slice(),
        table.heads.as_slice(),
        hash,
        name.as_bytes(),
    )
}

// Makes sure that one more name can be linked. The names stay.
fn reserve(table: &mut NameTable) -> Result<(), AllocError>
    requires { IsTable table.old }
    ensures table { IsTable table.new }
    ensures names { listed table.new ≡ listed table.old }
    ensures hasher { table.new.hasher ≡ table.old.hasher }
    ensures number { length table.new.entries.items ≡ length table.old.entries.items }
    ensures small { OnOk result (length table.new.entries.items + 1 < 2 ^ 32) }
    ensures heads { OnOk result (length table.new.entries.items < length table.new.heads.items) }
    ensures capacity { OnOk result (vec_len table.new.entries < vec_capacity table.new.entries) }
{
    let number = table.entries.len();
    if number >= u32::MAX as usize - 1 {
        return Err(AllocError);
    }
    table.entries.reserve(1)?;
    if number == table.heads.len() {
        let count = (2 * number).max(16);
        table.heads = relinked(table.alloc, table.entries.as_mut_slice(), count)?;
    }
    Ok(())
}

// Adds a new name.
fn put(table: &mut NameTable, hash: u32, name: &str) -> Result<(), AllocError>
    requires table { IsTable table.old }
    requires absent { has_name (listed table.old) name.now ≡ false }
    requires hash { hash ≡ hash_by table.old.hasher name.now }
    requires small { length table.old.entries.items + 1 < 2 ^ 32 }
    requires heads { length table.old.entries.items < length table.old.heads.items }
    requires capacity { vec_len table.old.entries < vec_capacity table.old.entries }
    ensures table { IsTable table.new }
    ensures names { OnOk result (listed table.new ≡
        listed table.old ++ name.now ∷ []) }
    ensures err { OnErr result (listed table.new ≡ listed table.old) }
{
    table.bytes.extend_from_slice(name.as_bytes())?;
    let number = table.entries.len();
    table.entries.push_reserved(NameEntry {
        hash,
        next: 0,
        end: table.bytes.len(),
    });
    link(
        table.heads.as_mut_slice(),
        table.entries.as_mut_slice(),
        number,
    );
    Ok(())
}

/// Adds a new name, and returns its number. If an allocation is refused, the names stay.
#[inline(always)]
pub(crate) fn add(table: &mut NameTable, hash: u32, name: &str) -> Result<usize, AllocError>
    requires table { IsTable table.old }
    requires absent { has_name (listed table.old) name.now ≡ false }
    requires hash { hash ≡ hash_by table.old.hasher name.now }
    ensures table { IsTable table.new }
    ensures names { OnOk result (listed table.new ≡
        listed table.old ++ name.now ∷ []) }
    ensures number { IfOk result (λ n. n ≡ length table.old.entries.items) }
    ensures err { OnErr result (listed table.new ≡ listed table.old) }
{
    reserve(table)?;
    let number = table.entries.len();
    put(table, hash, name)?;
    Ok(number)
}
