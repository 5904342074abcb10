//! Forms with a literal that has lost its value, outside of questions. No visit is counted, and
//! nothing is allocated.

ghost use Rattle.std.specs.Prelude.{◌≡◌, ℕ, ◌≤◌, ◌<◌, ◌⊎◌, [], Some, length, slice_get, slice_index_or, slice_set};
ghost use Rattle.pb_propagate.specs.engine.engine.Lists.{Weighted};
ghost use Rattle.pb_propagate.specs.engine.engine.Counts.{IsAbsent, place};
ghost use Rattle.pb_propagate.specs.engine.engine.Fields.{shapes_of, entries_of, IsSound};
ghost use Rattle.pb_propagate.specs.engine.engine.Links.{terms_at};
ghost use Rattle.pb_propagate.specs.engine.engine.Refreshed.{AreRefreshed, IsRefreshed, Lacks};
ghost use Rattle.pb_propagate.specs.engine.engine.Root.{IsSized};

use crate::engine::root::Root;
use crate::run::place_of;
use crate::store::Store;
use crate::waiting::Waiting;
use pb_normal::NumberedLiteral;

// A form waits if its open sum is below its bound.
fn wait_below(waiting: &mut Waiting, form: usize, opened: u128, bound: u128)
    requires inside { form < length waiting.old.positions }
    ensures absent { (s : ℕ) → IsAbsent waiting.new.list.items 0 s →
        IsAbsent waiting.old.list.items 0 s }
    ensures above { IsAbsent waiting.new.list.items 0 form → bound ≤ opened }
    ensures older { (i s : ℕ) → slice_get waiting.new.list.items i ≡ Some s →
        ((s ≡ form) × (opened < bound)) ⊎
        ((j : ℕ) × (slice_get waiting.old.list.items j ≡ Some s)) }
    ensures positions { length waiting.new.positions ≡ length waiting.old.positions }
{
    if opened >= bound {
        return;
    }
    if waiting.contains(form) {
        return;
    }
    waiting.put(form);
}

// A form gets an open sum, and its first term as candidate. It waits if it may then force
// something.
fn refresh(store: &Store, root: &mut Root, form: usize, opened: u128)
    requires form { form < length store.now.stored.items }
    requires some { 0 < length (terms_at (shapes_of store.now.stored.items) form) }
    requires sized { IsSized store.now root.old }
    ensures each { AreRefreshed store.now root.old root.new }
    ensures form { IsRefreshed store.now root.new form }
    ensures opens { root.new.run.opens ≡ slice_set root.old.run.opens form opened }
{
    let kept = &store.stored[form];
    root.run.opens.set(form, opened);
    root.run.candidates.set_empty(form);
    root.rests.opens.set(form, opened);
    root.rests.starts.set_empty(form);
    wait_below(&mut root.waiting, form, opened, kept.bound());
}

/// Refreshes each form with a literal. Its open sum stays.
pub fn refresh_all(store: &Store, root: &mut Root, literal: NumberedLiteral)
    requires store { IsSound store.now }
    requires inside { literal.variable < store.now.variables }
    requires sized { IsSized store.now root.old }
    ensures each { AreRefreshed store.now root.old root.new }
    ensures all { (j : ℕ) (e : Weighted) → slice_get (slice_index_or
        (entries_of (shapes_of store.now.stored.items) store.now.occurrences)
        (place literal) []) j ≡ Some e → IsRefreshed store.now root.new e.form }
    ensures opens { root.new.run.opens ≡ root.old.run.opens }
{
    let place = place_of(literal);
    'entries: for j in 0..store.occurrences.count(place) {
        let entry = store.occurrences.get(place, j);
        let form = entry.form as usize;
        let opened = root.run.opens.get(form);
        refresh(store, root, form, opened);
    }
}

/// Refreshes each form with a literal that is not falsified any more: its open sum gets the
/// coefficient of the literal.
pub fn lift_all(store: &Store, root: &mut Root, literal: NumberedLiteral)
    requires store { IsSound store.now }
    requires inside { literal.variable < store.now.variables }
    requires sized { IsSized store.now root.old }
    requires lacks { Lacks store.now root.old (slice_index_or
        (entries_of (shapes_of store.now.stored.items) store.now.occurrences)
        (place literal) []) }
    ensures each { AreRefreshed store.now root.old root.new }
    ensures all { (j : ℕ) (e : Weighted) → slice_get (slice_index_or
        (entries_of (shapes_of store.now.stored.items) store.now.occurrences)
        (place literal) []) j ≡ Some e → IsRefreshed store.now root.new e.form }
    ensures lacks { Lacks store.now root.new [] }
{
    let place = place_of(literal);
    'entries: for j in 0..store.occurrences.count(place) {
        let entry = store.occurrences.get(place, j);
        let form = entry.form as usize;
        let kept = &store.stored[form];
        let before = root.run.opens.get(form);
        let opened = before + kept.term(entry.index as usize).coefficient;
        refresh(store, root, form, opened);
    }
}
