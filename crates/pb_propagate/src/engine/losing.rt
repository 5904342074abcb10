//! A form goes: what the root keeps. Nothing is allocated.

#![tactic(auto, using(crate::proofs::rulesets::Engine::losing))]

ghost use Rattle.std.specs.Prelude.{◌≡◌, ◌-◌, ◌*◌, ◌<◌, length, take};
ghost use Rattle.pb_propagate.specs.declared.store.Store.{Store};
ghost use Rattle.pb_propagate.specs.declared.clauses.Clauses.{Clauses};
ghost use Rattle.pb_propagate.specs.engine.engine.Lists.{IsDue};
ghost use Rattle.pb_propagate.specs.engine.engine.Progress.{list_of, reasons_of};
ghost use Rattle.pb_propagate.specs.engine.engine.Fields.{shapes_of, forms_of, IsSound};
ghost use Rattle.pb_propagate.specs.engine.engine.Refreshed.{IsReleased, IsShortened, IsSomeRoot};
ghost use Rattle.pb_propagate.specs.engine.engine.Rest.{AreSlots};
ghost use Rattle.pb_propagate.specs.engine.engine.Root.{IsRootOf, IsNeedless, HasRemoved};
ghost use Rattle.pb_propagate.specs.engine.clauses.Runs.{AreReady};
ghost use Rattle.pb_propagate.specs.engine.clauses.Shapes.{AreJoined, clauses_of, all_of};

use crate::clauses::Clauses;
use crate::clauses::reasons::release_by_literals;
use crate::engine::root::Root;
use crate::store::Store;
use crate::store::reasons::{release_by_terms, replace_reason};
use crate::store::refresh::{lift_all, refresh_all};
use pb_normal::NumberedLiteral;

impl Root {
    // Takes the last literal off the list. The forms with its variable are as if it had not been
    // put.
    fn retract(&mut self, store: &Store)
        requires sound { IsSound store.now }
        requires rooted { IsSomeRoot store.now self.old }
        requires some { 0 < length (list_of self.old.run) }
        ensures shortened { IsShortened store.now self.old self.new }
        ensures list { list_of self.new.run ≡ take (length (list_of self.old.run) - 1)
            (list_of self.old.run) }
    {
        let count = self.run.assignment.list.len();
        let last = count - 1;
        let literal = self.run.assignment.list[last];
        self.run.assignment.cut(last);
        self.walked.cut(last);
        lift_all(store, self, literal.negation());
        refresh_all(store, self, literal);
    }

    // Takes literals off the list, the last one first, until a literal is not due to the form of a
    // slot.
    fn withdraw(&mut self, store: &Store, slot: usize, literal: NumberedLiteral)
        requires sound { IsSound store.now }
        requires rooted { IsSomeRoot store.now self.old }
        requires inside { literal.variable < store.now.variables }
        ensures shortened { IsShortened store.now self.old self.new }
        ensures needless { IsDue slot (list_of self.new.run) (reasons_of self.new.run)
            literal → ⊥ }
    {
        'literals: while self.run.assignment.is_due(literal, slot) {
            self.retract(store);
        }
    }

    /// A literal does not need the form of a slot from now on. If it has no other reason, it and
    /// those after it are taken off.
    #[inline(always)]
    pub fn release_literal(&mut self, store: &Store, slot: usize, literal: NumberedLiteral)
        requires sound { IsSound store.now }
        requires rooted { IsSomeRoot store.now self.old }
        requires inside { literal.variable < store.now.variables }
        ensures released { IsReleased store.now slot self.old self.new }
        ensures needless { IsDue slot (list_of self.new.run) (reasons_of self.new.run)
            literal → ⊥ }
    {
        let units = self.units.as_slice();
        if replace_reason(store, units, &mut self.run.assignment, slot, literal) {
            return;
        }
        self.withdraw(store, slot, literal);
    }

    // No literal needs the form of a slot from now on.
    fn release(&mut self, store: &Store, clauses: &Clauses, slot: usize)
        requires slot { slot < length store.now.stored.items }
        requires sound { IsSound store.now }
        requires slots { AreSlots (forms_of store.now.stored.items) (all_of store.now clauses.now) }
        requires joined { AreJoined (shapes_of store.now.stored.items) (clauses_of clauses.now) }
        requires ready { AreReady clauses.now }
        requires known { length clauses.now.blocks.literals ≡ length store.now.stored.items }
        requires widths { length clauses.now.lists ≡ 4 * store.now.variables }
        requires rooted { IsRootOf store.now clauses.now self.old }
        ensures rooted { IsRootOf store.now clauses.now self.new }
        ensures needless { IsNeedless (all_of store.now clauses.now) slot self.new.run.assignment }
    {
        if clauses.is_filled(slot) {
            release_by_literals(clauses, store, self, slot);
            return;
        }
        release_by_terms(store, self, slot);
    }

    /// The form of a slot goes.
    pub fn remove(&mut self, store: &Store, clauses: &Clauses, slot: usize)
        requires slot { slot < length store.now.stored.items }
        requires sound { IsSound store.now }
        requires joined { AreJoined (shapes_of store.now.stored.items) (clauses_of clauses.now) }
        requires ready { AreReady clauses.now }
        requires known { length clauses.now.blocks.literals ≡ length store.now.stored.items }
        requires widths { length clauses.now.lists ≡ 4 * store.now.variables }
        requires slots { AreSlots (forms_of store.now.stored.items) (all_of store.now clauses.now) }
        requires rooted { IsRootOf store.now clauses.now self.old }
        ensures { HasRemoved store.now clauses.now slot self.new }
    {
        self.release(store, clauses, slot);
        self.run.opens.set_empty(slot);
        self.run.candidates.set_empty(slot);
        self.rests.opens.set_empty(slot);
        self.rests.starts.set_empty(slot);
        self.waiting.remove(slot);
    }
}
