//! A form goes: the literals that it has forced need other reasons.

#![tactic(auto, using(crate::proofs::rulesets::Store::reasons))]

ghost use Rattle.std.specs.Prelude.{◌≡◌, ℕ, ◌*◌, ◌^◌, ◌<◌, [], true, length, slice_index_or};
ghost use Rattle.pb_propagate.specs.declared.term.Term.{Term};
ghost use Rattle.pb_propagate.specs.engine.engine.Lists.{HaveReasons, IsDue};
ghost use Rattle.pb_propagate.specs.engine.engine.Counts.{place};
ghost use Rattle.pb_propagate.specs.engine.engine.Fields.{shapes_of, IsSound};
ghost use Rattle.pb_propagate.specs.engine.engine.Links.{terms_at};
ghost use Rattle.pb_propagate.specs.engine.engine.Progress.{list_of, reasons_of};
ghost use Rattle.pb_propagate.specs.engine.engine.Refreshed.{IsReleased, IsSomeRoot};
ghost use Rattle.pb_propagate.specs.engine.engine.Root.{HasOtherReasons, IsNeedless};
ghost use Rattle.pb_propagate.specs.engine.clauses.Runs.{AreReady};
ghost use Rattle.pb_propagate.specs.engine.clauses.Shapes.{AreJoined, clauses_of, all_of};

use crate::assignment::Assignment;
use crate::clauses::Clauses;
use crate::clauses::reasons::replace_by_literals;
use crate::engine::root::Root;
use crate::store::Store;
use crate::store::units::other_unit;
use pb_normal::NumberedLiteral;

/// Gives a literal whose reason is the form of a slot a unit as its reason, if another slot has
/// one. Returns whether the literal does not need the form.
#[inline(always)]
pub fn replace_reason(
    store: &Store,
    units: &[u32],
    assignment: &mut Assignment,
    slot: usize,
    literal: NumberedLiteral,
) -> bool
    requires inside { literal.variable < length assignment.old.values.items }
    requires fits { place literal < 2 ^ 64 }
    ensures reasons { HasOtherReasons (shapes_of store.now.stored.items) slot
        assignment.old assignment.new }
    ensures needless { result ≡ true →
        IsDue slot assignment.new.list.items assignment.new.reasons.items literal → ⊥ }
{
    if !assignment.is_due(literal, slot) {
        return true;
    }
    let Some(unit) = other_unit(store, units, slot, literal) else {
        return false;
    };
    assignment.explain(literal.variable, unit);
    true
}

// The same for each literal of a form in the occurrence lists.
fn replace_by_terms(store: &Store, units: &[u32], assignment: &mut Assignment, slot: usize) -> bool
    requires sound { IsSound store.now }
    requires slot { slot < length store.now.stored.items }
    requires values { length assignment.old.values.items ≡ store.now.variables }
    ensures reasons { HasOtherReasons (shapes_of store.now.stored.items) slot
        assignment.old assignment.new }
    ensures needless { result ≡ true → (k : ℕ) (d : Term) →
        k < length (terms_at (shapes_of store.now.stored.items) slot) →
        IsDue slot assignment.new.list.items assignment.new.reasons.items
        (slice_index_or (terms_at (shapes_of store.now.stored.items) slot) k d).literal → ⊥ }
{
    let kept = &store.stored[slot];
    'terms: for i in 0..kept.len() {
        if !replace_reason(store, units, assignment, slot, kept.term(i).literal) {
            return false;
        }
    }
    true
}

/// Gives each literal whose reason is the form of a slot another reason. Returns false if one has
/// no other.
#[inline(always)]
pub fn replace_reasons(
    store: &Store,
    clauses: &Clauses,
    units: &[u32],
    assignment: &mut Assignment,
    slot: usize,
) -> bool
    requires slot { slot < length store.now.stored.items }
    requires sound { IsSound store.now }
    requires joined { AreJoined (shapes_of store.now.stored.items) (clauses_of clauses.now) }
    requires ready { AreReady clauses.now }
    requires known { length clauses.now.blocks.literals ≡ length store.now.stored.items }
    requires widths { length clauses.now.lists ≡ 4 * store.now.variables }
    requires values { length assignment.old.values.items ≡ store.now.variables }
    requires reasoned { HaveReasons (all_of store.now clauses.now) assignment.old.reasons.items []
        assignment.old.list.items }
    ensures list { assignment.new.list ≡ assignment.old.list }
    ensures values { assignment.new.values ≡ assignment.old.values }
    ensures reasoned { HaveReasons (all_of store.now clauses.now) assignment.new.reasons.items []
        assignment.new.list.items }
    ensures needless { result ≡ true →
        IsNeedless (all_of store.now clauses.now) slot assignment.new }
{
    if clauses.is_filled(slot) {
        return replace_by_literals(clauses, store, units, assignment, slot);
    }
    replace_by_terms(store, units, assignment, slot)
}

/// No literal of a form in the occurrence lists needs it from now on. One that has no other reason
/// is taken off the root, with those after it.
pub fn release_by_terms(store: &Store, root: &mut Root, slot: usize)
    requires sound { IsSound store.now }
    requires rooted { IsSomeRoot store.now root.old }
    requires slot { slot < length store.now.stored.items }
    ensures released { IsReleased store.now slot root.old root.new }
    ensures needless { (k : ℕ) (d : Term) →
        k < length (terms_at (shapes_of store.now.stored.items) slot) →
        IsDue slot (list_of root.new.run) (reasons_of root.new.run)
        (slice_index_or (terms_at (shapes_of store.now.stored.items) slot) k d).literal → ⊥ }
{
    let kept = &store.stored[slot];
    'terms: for i in 0..kept.len() {
        root.release_literal(store, slot, kept.term(i).literal);
    }
}
