//! The clauses of slots, each with its watches and its search in one block of words. What
//! propagation reads of a clause is so in one place of the memory.

ghost use Rattle.std.specs.Prelude.{◌≡◌, ℕ, ◌+◌, ◌-◌, ◌*◌, ◌/◌, ◌%◌, ◌^◌, ◌<◌, ◌≤◌, ◌⊎◌, ◌++◌, ◌∷◌, [], true, length, slice_set, IfOk, OnOk, OnErr};
ghost use Rattle.pb_propagate.specs.declared.clauses.lists.Watch.{Watch};
ghost use Rattle.pb_propagate.specs.engine.clauses.Links.{idle, list_at, watch_at};
ghost use Rattle.pb_propagate.specs.engine.clauses.Runs.{search_at};
ghost use Rattle.pb_propagate.specs.engine.clauses.Blocks.{begun, number_at, HasBlock, rewatched, searched, rewritten, passed_by, IsBare, IsRenewed};

use crate::clauses::lists::Watch;
use crate::clauses::numbers::{number_of, reach_both};
use crate::clauses::search::Search;
use pb_text::{Sequence, Spare};
use std::alloc::{AllocError, Global};
use std::marker::Model;

/// For each slot a clause, its search and two watches. The watches of slot `s` are `2 * s` and
/// `2 * s + 1`.
///
/// A block begins with the literal and the position of each watch, the position of the search, how
/// many literals this has passed, the number of literals, and the number of the run of the search.
/// The literals come last.
///
/// Slots after the last one that ever had a block take no memory.
#[derive(Drop)]
pub struct Blocks {
    words: Vec<u32>,
    // The number of this run. A search of another run has passed nothing in this one.
    run: u32,
    // For each slot, where its block begins. Slots that have none have a common one, which is first
    // and is not written. The last numbers may be left out. They are 0.
    starts: Vec<u32>,
    // For each slot, how many literals its block has room for. A slot keeps its block. The last
    // numbers may be left out. They are 0.
    rooms: Vec<u32>,
    // How many slots there are.
    count: usize,
    // Memory for the codes of the next clause.
    spare: Spare<u32>,
}

impl Model for Blocks {
    ghost use Rattle.pb_propagate.specs.engine.clauses.Blocks.{Contents, contents, AreBlocks};

    ghost Value = { Contents };

    ghost view = { λ b. contents b.words.items b.starts.items b.rooms.items b.run b.count };

    ghost invariant = { λ b. AreBlocks b.words.items b.starts.items b.rooms.items b.run b.count };
}

/// A clause as it is read: its search and its literals.
#[derive(Clone, Copy)]
pub struct Clause<'a> {
    pub search: Search,
    pub literals: &'a [u32],
}

// Makes the common block, if there is no slot.
fn begin(words: &mut Vec<u32>, slots: usize) -> Result<(), AllocError>
    ensures first { OnOk result (slots ≡ 0 → (length words.new.items ≡ 8) ×
        IsBare words.new.items 0) }
    ensures kept { 0 < slots → words.new.items ≡ words.old.items }
{
    if slots > 0 {
        return Ok(());
    }
    words.clear();
    words.extend_from_slice(&[0, u32::MAX, 0, u32::MAX, 0, 0, 0, 0])?;
    Ok(())
}

// Appends a block with no clause.
fn append(words: &mut Vec<u32>, room: usize) -> Result<(), AllocError>
    requires { length words.old.items + 8 + room < 2 ^ 32 }
    ensures size { OnOk result (length words.new.items ≡ length words.old.items + 8 + room) }
    ensures kept { OnOk result ((i : ℕ) → i < length words.old.items →
        number_at words.new.items i ≡ number_at words.old.items i) }
    ensures bare { OnOk result (IsBare words.new.items (length words.old.items)) }
    ensures unchanged { OnErr result (words.new.items ≡ words.old.items) }
{
    let start = words.len();
    words.resize(start + 8 + room, 0)?;
    words[start + 1] = u32::MAX;
    words[start + 3] = u32::MAX;
    Ok(())
}

// Writes literals from a position on.
fn write(words: &mut Vec<u32>, start: usize, literals: &[u32])
    requires { start + length literals.now ≤ length words.old.items }
    ensures size { length words.new.items ≡ length words.old.items }
    ensures outside { (i : ℕ) → (i < start) ⊎ (start + length literals.now ≤ i) →
        number_at words.new.items i ≡ number_at words.old.items i }
    ensures inside { (k : ℕ) → k < length literals.now →
        number_at words.new.items (start + k) ≡ number_at literals.now k }
{
    'literals: for k in 0..literals.len() {
        words[start + k] = literals[k];
    }
}

/// How many literals the block of a clause has room for. Long ones have more room than they need,
/// so that few sizes of blocks serve all clauses.
pub fn room_of(count: usize) -> usize
    requires { count < 2 ^ 31 }
    ensures { count ≤ result }
{
    if count <= 32 {
        return count;
    }
    let mut room = 64;
    'rooms: while room < count {
        room *= 2;
    }
    room
}

// Where a watch is stored in a block.
fn place_in(start: u32, watch: usize) -> usize
    ensures { result ≡ start + 2 * (watch % 2) }
{
    start as usize + 2 * (watch % 2)
}

// How many literals a search has passed in a run, by the first words of its block.
fn passed_in(header: &[u32], run: u32) -> usize
    requires { length header.now ≡ 8 }
    ensures { result ≡ passed_by run (number_at header.now 7) (number_at header.now 5) }
{
    if header[7] != run {
        return 0;
    }
    header[5] as usize
}

impl Blocks {
    /// No slots.
    pub fn new(alloc: Global) -> Blocks
        ensures { result ≡ record { literals = []; searches = []; watches = []; rooms = [] } }
    {
        Blocks {
            words: Vec::new(alloc),
            run: 0,
            starts: Vec::new(alloc),
            rooms: Vec::new(alloc),
            count: 0,
            spare: Spare::new(alloc),
        }
    }

    /// No slots, with memory for this many. A clause of two literals takes ten words.
    pub fn with_capacity(alloc: Global, slots: usize) -> Result<Blocks, AllocError>
        ensures { IfOk result (λ blocks. blocks ≡
            record { literals = []; searches = []; watches = []; rooms = [] }) }
    {
        let words = Vec::with_capacity(alloc, slots.saturating_mul(10))?;
        let starts = Vec::with_capacity(alloc, slots)?;
        let rooms = Vec::with_capacity(alloc, slots)?;
        Ok(Blocks {
            words,
            run: 0,
            starts,
            rooms,
            count: 0,
            spare: Spare::new(alloc),
        })
    }

    /// An empty list for the codes of a clause, with memory for this many.
    pub fn codes_for(&mut self, count: usize) -> Result<Vec<u32>, AllocError>
        ensures empty { IfOk result (λ codes. codes.items ≡ []) }
        ensures same { self.new ≡ self.old }
    {
        let codes = self.spare.list(count)?;
        Ok(codes.into_vec())
    }

    /// Keeps the memory of codes that are no longer needed.
    pub fn reuse(&mut self, codes: Vec<u32>)
        ensures { self.new ≡ self.old }
    {
        self.spare.keep(Sequence::from_vec(codes));
    }

    /// How many slots there are.
    #[tactic(auto, using(crate::proofs::rulesets::Clauses::len))]
    pub fn len(&self) -> usize
        ensures { result ≡ length self.now.literals }
    {
        self.count
    }

    /// Adds a slot with no clause.
    pub fn extend(&mut self) -> Result<(), AllocError>
        ensures literals { OnOk result (self.new.literals ≡ self.old.literals ++ [] ∷ []) }
        ensures searches { OnOk result (self.new.searches ≡ self.old.searches ++ begun ∷ []) }
        ensures watches { OnOk result
            (self.new.watches ≡ (self.old.watches ++ idle ∷ []) ++ idle ∷ []) }
        ensures unchanged { OnErr result (self.new ≡ self.old) }
    {
        if self.count == usize::MAX {
            return Err(AllocError);
        }
        begin(&mut self.words, self.count)?;
        self.count += 1;
        Ok(())
    }

    /// The clause of a slot, with no literal if there is none.
    pub fn literals(&self, slot: usize) -> &[u32]
        requires { slot < length self.now.literals }
        ensures literals { result.now ≡ list_at self.now.literals slot }
        ensures small { length result.now < 2 ^ 32 }
    {
        let start = number_of(self.starts.as_slice(), slot) as usize;
        let count = self.words[start + 6] as usize;
        &self.words[start + 8..start + 8 + count]
    }

    /// The clause of a slot with its search. What precedes the literals is read as one slice.
    #[tactic(auto, using(crate::proofs::rulesets::Clauses::read))]
    pub fn read(&self, slot: usize) -> Clause<'_>
        requires { slot < length self.now.literals }
        ensures search { result.search ≡ search_at self.now.searches slot }
        ensures literals { result.literals.now ≡ list_at self.now.literals slot }
        ensures small { length result.literals.now < 2 ^ 32 }
    {
        let start = number_of(self.starts.as_slice(), slot) as usize;
        let header = &self.words[start..start + 8];
        let count = header[6] as usize;
        Clause {
            search: Search {
                position: header[4] as usize,
                passed: passed_in(header, self.run),
            },
            literals: &self.words[start + 8..start + 8 + count],
        }
    }

    /// The literal of a live watch.
    pub fn watched(&self, watch: usize) -> u32
        requires { (watch_at self.now.watches watch).live ≡ true }
        ensures { result ≡ (watch_at self.now.watches watch).literal }
    {
        self.words[place_in(self.starts[watch / 2], watch)]
    }

    /// The position of a live watch in the list of its literal.
    pub fn spot(&self, watch: usize) -> usize
        requires { (watch_at self.now.watches watch).live ≡ true }
        ensures { result ≡ (watch_at self.now.watches watch).spot }
    {
        self.words[place_in(self.starts[watch / 2], watch) + 1] as usize
    }

    /// A live watch is in no list.
    pub fn idle(&mut self, watch: usize)
        requires { (watch_at self.old.watches watch).live ≡ true }
        ensures { self.new ≡ rewatched self.old (slice_set self.old.watches watch idle) }
    {
        let place = place_in(self.starts[watch / 2], watch);
        self.words[place + 1] = u32::MAX;
    }

    /// A live watch has another position.
    pub fn place(&mut self, watch: usize, spot: usize)
        requires live { (watch_at self.old.watches watch).live ≡ true }
        requires small { spot < 2 ^ 32 - 1 }
        ensures { self.new ≡ rewatched self.old (slice_set self.old.watches watch record {
          literal = (watch_at self.old.watches watch).literal;
          live = true;
          spot = spot;
        }) }
    {
        let place = place_in(self.starts[watch / 2], watch);
        self.words[place + 1] = spot as u32;
    }

    /// A watch is on a literal, and at a position of its list.
    pub fn watch(&mut self, watch: usize, literal: u32, spot: usize)
        requires block { HasBlock self.old (watch / 2) }
        requires small { spot < 2 ^ 32 - 1 }
        ensures { self.new ≡ rewatched self.old
            (slice_set self.old.watches watch
            record { literal = literal; live = true; spot = spot }) }
    {
        let place = place_in(self.starts[watch / 2], watch);
        self.words[place] = literal;
        self.words[place + 1] = spot as u32;
    }

    /// The search in a clause is another.
    pub fn seek(&mut self, slot: usize, search: Search)
        requires block { HasBlock self.old slot }
        requires small { (search.position < 2 ^ 32) × (search.passed < 2 ^ 32) }
        ensures { self.new ≡ searched self.old slot search }
    {
        let start = self.starts[slot] as usize;
        self.words[start + 4] = search.position as u32;
        self.words[start + 5] = search.passed as u32;
        self.words[start + 7] = self.run;
    }

    // Begins the search in a clause where it is.
    fn begin(&mut self, slot: usize)
        requires { slot < length self.old.literals }
        ensures { self.new ≡ searched self.old slot
            record { position = (search_at self.old.searches slot).position; passed = 0 } }
    {
        let start = number_of(self.starts.as_slice(), slot) as usize;
        if start > 0 {
            self.words[start + 5] = 0;
        }
    }

    // Begins all searches where they are.
    #[tactic(auto, using(crate::proofs::rulesets::Clauses::begin_all))]
    fn begin_all(&mut self)
        ensures { IsRenewed self.old self.new }
    {
        let _ = &self.words;
        'slots: for slot in 0..self.len() {
            self.begin(slot);
        }
    }

    /// Begins another run: each search goes on where it is, and has passed nothing. No block is
    /// read before all numbers of runs are used.
    pub fn renew(&mut self)
        ensures { IsRenewed self.old self.new }
    {
        if self.run == u32::MAX {
            self.begin_all();
            return;
        }
        self.run += 1;
    }

    /// How many literals the block of a slot has room for.
    pub fn room(&self, slot: usize) -> usize
        ensures { result ≡ number_at self.now.rooms slot }
    {
        number_of(self.rooms.as_slice(), slot) as usize
    }

    /// Makes a block for a clause with that number of literals, if the slot has none. Returns
    /// whether the block has room for them. All blocks together have fewer than `2^32` words.
    #[tactic(auto, using(crate::proofs::rulesets::Clauses::fit))]
    pub fn fit(&mut self, slot: usize, count: usize) -> Result<bool, AllocError>
        requires slot { slot < length self.old.literals }
        requires some { 0 < count }
        ensures literals { self.new.literals ≡ self.old.literals }
        ensures searches { self.new.searches ≡ self.old.searches }
        ensures watches { self.new.watches ≡ self.old.watches }
        ensures fits { IfOk result (λ fits. fits ≡ true → (count ≤ number_at self.new.rooms slot) ×
            (count < 2 ^ 32) × (slot < 2 ^ 31 - 1)) }
    {
        if count >= 2147483648 {
            return Ok(false);
        }
        let held = number_of(self.rooms.as_slice(), slot) as usize;
        if held > 0 {
            return Ok(count <= held);
        }
        if slot >= 2147483647 {
            return Ok(false);
        }
        let start = self.words.len();
        let room = room_of(count);
        let end = start.saturating_add(room).saturating_add(8);
        if end >= 4294967296 {
            return Ok(false);
        }
        reach_both(&mut self.starts, &mut self.rooms, slot)?;
        append(&mut self.words, room)?;
        self.starts[slot] = start as u32;
        self.rooms[slot] = room as u32;
        Ok(true)
    }

    /// Writes a clause into the block of a slot.
    pub fn write(&mut self, slot: usize, literals: &[u32])
        requires some { 0 < length literals.now }
        requires small { length literals.now < 2 ^ 32 }
        requires room { length literals.now ≤ number_at self.old.rooms slot }
        ensures { self.new ≡ rewritten self.old slot literals.now }
    {
        let start = self.starts[slot] as usize;
        self.words[start + 6] = literals.len() as u32;
        write(&mut self.words, start + 8, literals);
    }

    /// Removes the clause of a slot.
    pub fn clear(&mut self, slot: usize)
        requires { 0 < length (list_at self.old.literals slot) }
        ensures { self.new ≡ rewritten self.old slot [] }
    {
        let start = self.starts[slot] as usize;
        self.words[start + 6] = 0;
    }
}
