//! Clauses by slots.

#![tactic(auto, using(crate::proofs::rulesets::Clauses::clauses))]

ghost use Rattle.std.specs.Prelude.{◌≡◌, ℕ, ◌+◌, ◌*◌, ◌/◌, ◌<◌, ◌≤◌, ◌++◌, ◌∷◌, [], List, All, Bool, Option, length, slice_set, true, false, OnOk, OnErr, IfOk, IfSome};
ghost use Rattle.pb_propagate.specs.engine.clauses.Links.{watch_lists, list_at, watch_at};
ghost use Rattle.pb_propagate.specs.engine.clauses.Blocks.{number_at};
ghost use Rattle.pb_propagate.specs.engine.clauses.Runs.{AreReady, AreSet, CanHold, IsPair, IsRefitted, IsRunning, IsSameWatch};
ghost use Rattle.pb_propagate.specs.engine.engine.Root.{IsFree};

pub mod blocks;
pub mod lists;
pub mod numbers;
pub mod reasons;
pub mod search;
pub mod visiting;
pub mod watched;

use crate::assignment::Assignment;
use crate::clauses::blocks::Blocks;
use crate::clauses::lists::{Listed, put_in, take_out};
use crate::clauses::search::{Search, may_watch};
use crate::clauses::watched::Pair;
use crate::lists::Lists;
use std::alloc::{AllocError, Global};

// A literal of a clause that is not falsified.
fn free_literal(literals: &[u32], assignment: &Assignment) -> Option<u32>
    requires inside { All (λ x. x < 4 * length assignment.now.values.items) literals.now }
    ensures some { IfSome result (IsFree assignment.now.values.items literals.now) }
{
    'literals: for i in 0..literals.len() {
        if !assignment.falsifies(literals[i]) {
            return Some(literals[i]);
        }
    }
    None
}

/// Clauses by slots, each with two watched literals.
#[derive(Drop)]
pub struct Clauses {
    // The clause of each slot, with its search and its watches.
    blocks: Blocks,
    // For each code, the watches on it.
    lists: Lists<Listed>,
}

impl Clauses {
    /// No slots, over no variables.
    pub fn new(alloc: Global) -> Clauses
        ensures rest { AreReady result }
        ensures literals { result.blocks.literals ≡ [] }
        ensures lists { result.lists ≡ [] }
    {
        Clauses {
            blocks: Blocks::new(alloc),
            lists: Lists::new(alloc),
        }
    }

    /// No slots, over no variables, with memory for that many slots.
    pub fn with_capacity(alloc: Global, slots: usize) -> Result<Clauses, AllocError>
        ensures rest { IfOk result AreReady }
        ensures literals { IfOk result (λ clauses. clauses.blocks.literals ≡ []) }
        ensures lists { IfOk result (λ clauses. clauses.lists ≡ []) }
    {
        let blocks = Blocks::with_capacity(alloc, slots)?;
        Ok(Clauses {
            blocks,
            lists: Lists::new(alloc),
        })
    }

    /// Adds the lists of a variable's literals, in both groups of clauses.
    pub fn widen(&mut self) -> Result<(), AllocError>
        requires rest { AreReady self.old }
        ensures rest { OnOk result (AreReady self.new) }
        ensures literals { self.new.blocks.literals ≡ self.old.blocks.literals }
        ensures watches { self.new.blocks.watches ≡ self.old.blocks.watches }
        ensures lists { OnOk result
            (length self.new.lists ≡ length self.old.lists + 4) }
    {
        if self.lists.len() >= usize::MAX - 4 {
            return Err(AllocError);
        }
        self.lists.add();
        self.lists.add();
        self.lists.add();
        self.lists.add();
        Ok(())
    }

    /// Adds an empty slot.
    pub fn extend(&mut self) -> Result<(), AllocError>
        requires rest { AreReady self.old }
        ensures rest { OnOk result (AreReady self.new) }
        ensures literals { OnOk result
            (self.new.blocks.literals ≡ self.old.blocks.literals ++ [] ∷ []) }
        ensures unchanged { OnErr result (self.new.blocks.literals ≡ self.old.blocks.literals) }
        ensures watches { OnOk result ((e : ℕ) →
            watch_at self.new.blocks.watches e ≡ watch_at self.old.blocks.watches e) }
        ensures lists { self.new.lists ≡ self.old.lists }
    {
        self.blocks.extend()?;
        Ok(())
    }

    /// How many watches a literal has.
    pub fn watch_count(&self, literal: usize) -> usize
        requires { literal < length self.now.lists }
        ensures { result ≡ length (list_at (watch_lists self.now.lists) literal) }
    {
        self.lists.count(literal)
    }

    /// Whether the slot holds a clause.
    pub fn is_filled(&self, slot: usize) -> bool
        ensures yes { result ≡ true → 0 < length (list_at self.now.blocks.literals slot) }
        ensures no { result ≡ false → list_at self.now.blocks.literals slot ≡ [] }
    {
        if slot >= self.blocks.len() {
            return false;
        }
        let filled = self.blocks.literals(slot).len() > 0;
        filled
    }

    /// How many literals the slot has room for.
    pub fn room(&self, slot: usize) -> usize
        ensures { result ≡ number_at self.now.blocks.rooms slot }
    {
        self.blocks.room(slot)
    }

    /// Makes room for a clause of that number of literals in a slot. Returns whether it can be
    /// stored: the numbers of watches and the positions of blocks have 32 bits.
    pub fn fit(&mut self, slot: usize, count: usize) -> Result<bool, AllocError>
        requires rest { AreReady self.old }
        requires slot { slot < length self.old.blocks.literals }
        requires some { 0 < count }
        ensures same { IsRefitted self.old self.new }
        ensures fits { IfOk result (λ fits. fits ≡ true → CanHold self.new slot count) }
    {
        let fits = self.blocks.fit(slot, count)?;
        Ok(fits)
    }

    /// An empty list for the codes of a clause, with memory for this many.
    pub fn codes_for(&mut self, count: usize) -> Result<Vec<u32>, AllocError>
        ensures empty { IfOk result (λ codes. codes.items ≡ []) }
        ensures same { self.new ≡ self.old }
    {
        let codes = self.blocks.codes_for(count)?;
        Ok(codes)
    }

    /// Stores a clause in an empty slot. Two of its literals are watched.
    pub fn fill(&mut self, slot: usize, literals: Vec<u32>, pair: Pair) -> Result<(), AllocError>
        requires rest { AreReady self.old }
        requires slot { slot < length self.old.blocks.literals }
        requires empty { list_at self.old.blocks.literals slot ≡ [] }
        requires room { CanHold self.old slot (length literals.items) }
        requires pair { IsPair literals.items pair }
        requires inside { All (λ x. x < length self.old.lists) literals.items }
        ensures rest { OnOk result (AreReady self.new) }
        ensures literals { OnOk result
            (self.new.blocks.literals ≡ slice_set self.old.blocks.literals slot literals.items) }
        ensures unchanged { OnErr result (self.new.blocks.literals ≡ self.old.blocks.literals) }
        ensures watches { OnOk result (
            AreSet self.old.blocks.watches self.new.blocks.watches slot literals.items pair) }
        ensures lists { OnOk result (length self.new.lists ≡ length self.old.lists) }
    {
        let first = literals[pair.first];
        let second = literals[pair.second];
        put_in(&mut self.lists, &mut self.blocks, 2 * slot, first, second)?;
        put_in(
            &mut self.lists,
            &mut self.blocks,
            2 * slot + 1,
            second,
            first,
        )?;
        self.blocks.seek(slot, Search::new());
        self.blocks.write(slot, literals.as_slice());
        self.blocks.reuse(literals);
        Ok(())
    }

    /// Makes a slot empty. Nothing is allocated.
    pub fn empty(&mut self, slot: usize)
        requires rest { AreReady self.old }
        requires slot { slot < length self.old.blocks.literals }
        ensures rest { AreReady self.new }
        ensures literals { self.new.blocks.literals ≡ slice_set self.old.blocks.literals slot [] }
        ensures lists { length self.new.lists ≡ length self.old.lists }
        ensures watches { (e : ℕ) → (e / 2 ≡ slot → ⊥) →
            IsSameWatch (watch_at self.old.blocks.watches e) (watch_at self.new.blocks.watches e) }
    {
        if !self.is_filled(slot) {
            return;
        }
        self.remove_clause(slot);
    }

    // Removes the clause of a slot, which is then empty.
    fn remove_clause(&mut self, slot: usize)
        requires rest { AreReady self.old }
        requires some { 0 < length (list_at self.old.blocks.literals slot) }
        ensures rest { AreReady self.new }
        ensures literals { self.new.blocks.literals ≡ slice_set self.old.blocks.literals slot [] }
        ensures lists { length self.new.lists ≡ length self.old.lists }
        ensures watches { (e : ℕ) → (e / 2 ≡ slot → ⊥) →
            IsSameWatch (watch_at self.old.blocks.watches e) (watch_at self.new.blocks.watches e) }
    {
        let first = self.blocks.watched(2 * slot) as usize;
        let spot = self.blocks.spot(2 * slot);
        take_out(&mut self.lists, &mut self.blocks, first, spot);
        let second = self.blocks.watched(2 * slot + 1) as usize;
        let spot = self.blocks.spot(2 * slot + 1);
        take_out(&mut self.lists, &mut self.blocks, second, spot);
        self.blocks.clear(slot);
    }

    /// A literal of a slot's clause that is not falsified.
    pub fn free_literal(&self, assignment: &Assignment, slot: usize) -> Option<u32>
        requires rest { AreReady self.now }
        requires slot { slot < length self.now.blocks.literals }
        requires values { length self.now.lists ≡ 4 * length assignment.now.values.items }
        ensures some { IfSome result (
            IsFree assignment.now.values.items (list_at self.now.blocks.literals slot)) }
    {
        free_literal(self.blocks.literals(slot), assignment)
    }

    /// Prepares for another run, whose searches go on where those of this run ended. Nothing is
    /// allocated.
    pub fn rest(&mut self)
        requires running { (values : List (Option Bool)) × IsRunning values self.old }
        ensures rest { AreReady self.new }
        ensures literals { self.new.blocks.literals ≡ self.old.blocks.literals }
        ensures lists { self.new.lists ≡ self.old.lists }
        ensures watches { self.new.blocks.watches ≡ self.old.blocks.watches }
    {
        self.blocks.renew();
    }
}
