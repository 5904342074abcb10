//! A clause goes: the literals that it has forced need other reasons. No visit is counted.

#![tactic(auto, using(crate::proofs::rulesets::Clauses::reasons))]

ghost use Rattle.std.specs.Prelude.{◌≡◌, ℕ, ◌*◌, ◌<◌, true, All, length, slice_index_or};
ghost use Rattle.pb_propagate.specs.engine.engine.Lists.{IsDue};
ghost use Rattle.pb_propagate.specs.engine.engine.Fields.{shapes_of, IsSound};
ghost use Rattle.pb_propagate.specs.engine.engine.Progress.{list_of, reasons_of};
ghost use Rattle.pb_propagate.specs.engine.engine.Refreshed.{IsReleased, IsSomeRoot};
ghost use Rattle.pb_propagate.specs.engine.engine.Root.{HasOtherReasons};
ghost use Rattle.pb_propagate.specs.engine.clauses.Links.{list_at};
ghost use Rattle.pb_propagate.specs.engine.clauses.Runs.{AreReady};
ghost use Rattle.pb_propagate.specs.engine.clauses.Shapes.{clauses_of, literal_at};

use crate::assignment::Assignment;
use crate::clauses::Clauses;
use crate::engine::root::Root;
use crate::store::Store;
use crate::store::reasons::replace_reason;
use crate::walk::literal_of;

// Gives each literal whose reason is the clause of a slot another reason, up to one that needs the
// clause.
fn replace_by_codes(
    store: &Store,
    units: &[u32],
    assignment: &mut Assignment,
    slot: usize,
    codes: &[u32],
) -> bool
    requires inside { All (λ x. x < 4 * length assignment.old.values.items) codes.now }
    ensures reasons { HasOtherReasons (shapes_of store.now.stored.items) slot
        assignment.old assignment.new }
    ensures needless { result ≡ true → (k d : ℕ) → k < length codes.now →
        IsDue slot assignment.new.list.items assignment.new.reasons.items
        (literal_at (slice_index_or codes.now k d)) → ⊥ }
{
    'literals: for i in 0..codes.len() {
        if !replace_reason(store, units, assignment, slot, literal_of(codes[i])) {
            return false;
        }
    }
    true
}

/// Gives each literal whose reason is the clause of a slot another reason. Returns false if one has
/// no other.
pub fn replace_by_literals(
    clauses: &Clauses,
    store: &Store,
    units: &[u32],
    assignment: &mut Assignment,
    slot: usize,
) -> bool
    requires ready { AreReady clauses.now }
    requires slot { slot < length clauses.now.blocks.literals }
    requires widths { length clauses.now.lists ≡ 4 * length assignment.old.values.items }
    ensures reasons { HasOtherReasons (shapes_of store.now.stored.items) slot
        assignment.old assignment.new }
    ensures needless { result ≡ true → (k d : ℕ) →
        k < length (list_at (clauses_of clauses.now) slot) →
        IsDue slot assignment.new.list.items assignment.new.reasons.items
        (literal_at (slice_index_or (list_at (clauses_of clauses.now) slot) k d)) → ⊥ }
{
    replace_by_codes(
        store,
        units,
        assignment,
        slot,
        clauses.blocks.literals(slot),
    )
}

// No literal of a clause needs it from now on. One that has no other reason is taken off the root,
// with those after it.
fn release_by_codes(store: &Store, root: &mut Root, slot: usize, codes: &[u32])
    requires sound { IsSound store.now }
    requires rooted { IsSomeRoot store.now root.old }
    requires inside { All (λ x. x < 4 * store.now.variables) codes.now }
    ensures released { IsReleased store.now slot root.old root.new }
    ensures needless { (k d : ℕ) → k < length codes.now →
        IsDue slot (list_of root.new.run) (reasons_of root.new.run)
        (literal_at (slice_index_or codes.now k d)) → ⊥ }
{
    'literals: for i in 0..codes.len() {
        root.release_literal(store, slot, literal_of(codes[i]));
    }
}

/// The same for the clause of a slot.
pub fn release_by_literals(clauses: &Clauses, store: &Store, root: &mut Root, slot: usize)
    requires ready { AreReady clauses.now }
    requires slot { slot < length clauses.now.blocks.literals }
    requires widths { length clauses.now.lists ≡ 4 * store.now.variables }
    requires sound { IsSound store.now }
    requires rooted { IsSomeRoot store.now root.old }
    ensures released { IsReleased store.now slot root.old root.new }
    ensures needless { (k d : ℕ) → k < length (list_at (clauses_of clauses.now) slot) →
        IsDue slot (list_of root.new.run) (reasons_of root.new.run)
        (literal_at (slice_index_or (list_at (clauses_of clauses.now) slot) k d)) → ⊥ }
{
    release_by_codes(store, root, slot, clauses.blocks.literals(slot));
}
