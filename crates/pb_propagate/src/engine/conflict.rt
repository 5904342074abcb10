//! A conflict that the live forms meet with nothing assumed. It is kept beside the root.

#![tactic(auto, using(crate::proofs::rulesets::Engine::conflict))]

ghost use Rattle.std.specs.Prelude.{◌≡◌, ℕ, List, ◌+◌, ◌*◌, ◌<◌, ◌≤◌, [], true, false, length, IfOk, OnOk};
ghost use Rattle.pb_propagate.specs.declared.store.Store.{Store};
ghost use Rattle.pb_propagate.specs.declared.clauses.Clauses.{Clauses};
ghost use Rattle.pb_propagate.specs.engine.engine.Lists.{Shape, HaveReasons, KeepsReasons};
ghost use Rattle.pb_propagate.specs.engine.engine.Fields.{shapes_of, IsSound};
ghost use Rattle.pb_propagate.specs.engine.engine.Root.{IsKeptConflict, IsMet, IsNeedless};
ghost use Rattle.pb_propagate.specs.engine.clauses.Runs.{AreReady};
ghost use Rattle.pb_propagate.specs.engine.clauses.Shapes.{AreJoined, clauses_of, all_of};

use crate::assignment::Assignment;
use crate::clauses::Clauses;
use crate::store::Store;
use crate::store::opened::open_under;
use crate::store::reasons::replace_reasons;
use crate::store::stored_form::is_below;
use std::alloc::{AllocError, Global};

/// The literals of a conflict, each with the form that forces it after those before it. A live form
/// is falsified under them. Nothing is assigned if no conflict is kept.
#[derive(Drop)]
pub struct Conflict {
    // Without a conflict it may have fewer variables.
    pub assignment: Assignment,
    // Whether one is kept.
    pub met: bool,
}

impl Conflict {
    /// None yet.
    pub fn new(alloc: Global) -> Conflict
        ensures met { result.met ≡ false }
        ensures list { result.assignment.list.items ≡ [] }
        ensures values { result.assignment.values.items ≡ [] }
    {
        Conflict {
            assignment: Assignment::new(alloc),
            met: false,
        }
    }

    // Adds variables, up to that many.
    fn widen_to(&mut self, variables: usize) -> Result<(), AllocError>
        requires few { length self.old.assignment.values.items ≤ variables }
        ensures values { OnOk result (length self.new.assignment.values.items ≡ variables) }
        ensures list { self.new.assignment.list.items ≡ self.old.assignment.list.items }
    {
        'variables: for _ in self.assignment.values.len()..variables {
            self.assignment.widen()?;
        }
        Ok(())
    }

    /// Adds a variable. It takes memory here only if a conflict is kept.
    pub fn widen(&mut self) -> Result<(), AllocError>
        ensures { OnOk result ((forms : List Shape) (variables : ℕ) →
            IsKeptConflict forms variables self.old →
            IsKeptConflict forms (variables + 1) self.new) }
    {
        if self.met {
            self.assignment.widen()?;
        }
        Ok(())
    }

    /// Keeps the literals of a run under which a form is falsified.
    pub fn note(&mut self, found: &Assignment) -> Result<(), AllocError>
        requires none { self.old.assignment.list.items ≡ [] }
        requires few { length self.old.assignment.values.items ≤ length found.now.values.items }
        requires reasoned { (forms : List Shape) ×
            HaveReasons forms found.now.reasons.items [] found.now.list.items }
        ensures met { OnOk result (self.new.met ≡ true) }
        ensures values { OnOk result (length self.new.assignment.values.items ≡ length
            found.now.values.items) }
        ensures list { OnOk result (self.new.assignment.list.items ≡ found.now.list.items) }
        ensures reasons { OnOk result (KeepsReasons found.now.list.items found.now.reasons.items
            self.new.assignment.reasons.items) }
    {
        self.widen_to(found.values.len())?;
        'literals: for i in 0..found.list.len() {
            let literal = found.list[i];
            self.assignment
                .put(literal, found.reasons[literal.variable])?;
        }
        self.met = true;
        Ok(())
    }

    // Whether the form of a slot is falsified.
    fn is_falsified(&self, store: &Store, clauses: &Clauses, slot: usize) -> bool
        requires slot { slot < length store.now.stored.items }
        requires sound { IsSound store.now }
        requires ready { AreReady clauses.now }
        requires known { length clauses.now.blocks.literals ≡ length store.now.stored.items }
        requires widths { length clauses.now.lists ≡ 4 * store.now.variables }
        requires values { length self.now.assignment.values.items ≡ store.now.variables }
        ensures { result ≡ false →
            IsMet (all_of store.now clauses.now) slot self.now.assignment.list.items }
    {
        if !clauses.is_filled(slot) {
            let kept = &store.stored[slot];
            let opened = open_under(kept, self.assignment.values.as_slice());
            return is_below(opened, kept.degree());
        }
        match clauses.free_literal(&self.assignment, slot) {
            Some(_) => false,
            None => true,
        }
    }

    // No conflict is kept.
    fn clear(&mut self)
        ensures met { self.new.met ≡ false }
        ensures list { self.new.assignment.list.items ≡ [] }
        ensures values { length self.new.assignment.values.items ≡ length
            self.old.assignment.values.items }
    {
        self.assignment.clear();
        self.met = false;
    }

    /// The form of a slot goes. The conflict stays if its literals have other reasons, and the form
    /// is not the falsified one.
    pub fn remove(&mut self, store: &Store, clauses: &Clauses, units: &[u32], slot: usize)
        requires slot { slot < length store.now.stored.items }
        requires sound { IsSound store.now }
        requires joined { AreJoined (shapes_of store.now.stored.items) (clauses_of clauses.now) }
        requires ready { AreReady clauses.now }
        requires known { length clauses.now.blocks.literals ≡ length store.now.stored.items }
        requires widths { length clauses.now.lists ≡ 4 * store.now.variables }
        requires kept { IsKeptConflict (all_of store.now clauses.now) store.now.variables self.old }
        ensures kept { IsKeptConflict (all_of store.now clauses.now) store.now.variables self.new }
        ensures spare { self.new.met ≡ true →
            IsNeedless (all_of store.now clauses.now) slot self.new.assignment }
        ensures unbroken { self.new.met ≡ true →
            IsMet (all_of store.now clauses.now) slot self.new.assignment.list.items }
    {
        if !self.met {
            return;
        }
        if !replace_reasons(store, clauses, units, &mut self.assignment, slot) {
            self.clear();
            return;
        }
        if self.is_falsified(store, clauses, slot) {
            self.clear();
        }
    }
}
