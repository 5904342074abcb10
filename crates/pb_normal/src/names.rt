//! Numbers for names.

pub(crate) mod chains;
pub(crate) mod entry;
pub mod hasher;
pub(crate) mod table;
pub(crate) mod text;

ghost use Rattle.std.specs.Prelude.{◌≡◌, ◌↔◌, ◌<◌, [], length, IsTrue, slice_get, Some, None, true, if◌then◌else◌, IfOk, IfSome, OnOk, OnErr};
ghost use Rattle.std.specs.Option.{option_copied};
ghost use Rattle.pb_normal.specs.meaning.Names.{AreDistinct, has_name, number_in, with_name};

use crate::entry::Entry;
use crate::hash_keys::HashKeys;
use crate::names::table::{NameTable, add, hash_of, number_of};
use crate::names::text::name_at;
use pb_text::{Sequence, Spare};
use std::alloc::{AllocError, Global};
use std::hash::BuildHasher;
use std::marker::Model;

/// What a buffer of terms has where none was written yet.
pub(crate) const NOTHING: Entry = Entry {
    variable: 0,
    negated: false,
    coefficient: 0,
};

/// The names that have a number, in the order of their first appearance; the first has the number
/// 0.
#[derive(Drop)]
pub struct Names {
    table: NameTable,
    // Memory for the terms of the next constraint whose names are numbered.
    spare: Spare<Entry>,
}

impl Model for Names {
    ghost use Rattle.std.specs.Prelude.{List, ℕ};
    ghost use Rattle.pb_normal.specs.engine.NameTable.{IsTable, listed};

    ghost Value = { List (List ℕ) };

    ghost view = { λ n. listed n.table };

    ghost invariant = { λ n. IsTable n.table };
}

impl Names {
    /// No names. It allocates nothing. The keys of its hasher are fixed: for names from untrusted
    /// input use `with_hasher`.
    pub fn new(alloc: Global) -> Names
        ensures { result ≡ [] }
    {
        Names::with_hasher(alloc, HashKeys::Fixed)
    }

    /// No names, in a table that is hashed with these keys. It allocates nothing.
    pub fn with_hasher(alloc: Global, keys: HashKeys) -> Names
        ensures { result ≡ [] }
    {
        Names {
            table: NameTable {
                alloc,
                hasher: keys.build_hasher(),
                bytes: Vec::new(alloc),
                entries: Vec::new(alloc),
                heads: Vec::new(alloc),
            },
            spare: Spare::new(alloc),
        }
    }

    /// How many names have a number.
    pub fn len(&self) -> usize
        ensures length { result ≡ length self.now }
        ensures distinct { AreDistinct self.now }
    {
        self.table.entries.len()
    }

    /// Whether no name has a number.
    pub fn is_empty(&self) -> bool
        ensures { IsTrue result ↔ (self.now ≡ []) }
    {
        self.table.entries.is_empty()
    }

    // Gives a proof the fact that no name appears twice.
    pub(crate) fn report_distinct(&self)
        ensures { AreDistinct self.now }
    {
        let _ = &self.table;
    }

    // A buffer for this many terms.
    pub(crate) fn buffer(&mut self, count: usize) -> Result<Vec<Entry>, AllocError>
        ensures count { IfOk result (λ buffer. length buffer.items ≡ count) }
        ensures same { self.new ≡ self.old }
    {
        let mut buffer = self.spare.list(count)?.into_vec();
        buffer.resize(count, NOTHING)?;
        Ok(buffer)
    }

    // Keeps the memory of a buffer that is no longer needed.
    pub(crate) fn reuse(&mut self, buffer: Vec<Entry>)
        ensures { self.new ≡ self.old }
    {
        self.spare.keep(Sequence::from_vec(buffer));
    }

    /// The number of a name, or `None` if it has none.
    pub fn number_of(&self, name: &str) -> Option<usize>
        ensures number { result ≡ (if has_name self.now name.now then Some
            (number_in self.now name.now) else None) }
        ensures named { IfSome result (λ n. slice_get self.now n ≡ Some name.now) }
    {
        let hash = hash_of(self.table.hasher, name.as_bytes());
        number_of(&self.table, hash, name)
    }

    /// The name with a number, or `None` if no name has it.
    pub fn name_of(&self, number: usize) -> Option<&str>
        ensures { option_copied result ≡ slice_get self.now number }
    {
        if number >= self.table.entries.len() {
            return None;
        }
        Some(self.text_of(number))
    }

    // The name with a number, which must belong to a name.
    pub(crate) fn text_of(&self, number: usize) -> &str
        requires { number < length self.now }
        ensures { slice_get self.now number ≡ Some result.now }
    {
        name_at(
            self.table.bytes.as_slice(),
            self.table.entries.as_slice(),
            number,
        )
    }

    /// The number of a name. A name without a number gets the next one.
    ///
    /// If an allocation is refused, nothing has changed.
    #[inline(always)]
    #[tactic(auto, using(crate::proofs::lemmas::names::Tables::added_at, crate::proofs::lemmas::names::Tables::added_has, crate::proofs::lemmas::names::Tables::added_number))]
    pub fn number(&mut self, name: &str) -> Result<usize, AllocError>
        ensures names { OnOk result (self.new ≡ with_name self.old name.now) }
        ensures number { IfOk result (λ n. n ≡ number_in self.new name.now) }
        ensures has { OnOk result (has_name self.new name.now ≡ true) }
        ensures named { IfOk result (λ n. slice_get self.new n ≡ Some name.now) }
        ensures err { OnErr result (self.new ≡ self.old) }
        ensures distinct { AreDistinct self.new }
    {
        let hash = hash_of(self.table.hasher, name.as_bytes());
        if let Some(number) = number_of(&self.table, hash, name) {
            return Ok(number);
        }
        add(&mut self.table, hash, name)
    }
}
