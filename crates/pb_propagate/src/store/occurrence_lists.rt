//! Forms are added and removed.

#![tactic(auto, using(crate::proofs::rulesets::Store::occurrence_lists))]

ghost use Rattle.std.specs.Prelude.{◌≡◌, ℕ, List, All, Some, None, ◌+◌, ◌-◌, ◌*◌, ◌/◌, ◌<◌, ◌≤◌, ◌^◌, ◌++◌, ◌∷◌, [], length, take, sum_by, IfOk, OnOk, OnErr, slice_get, slice_index_or, slice_set, swap_remove};
ghost use Rattle.pb_propagate.specs.declared.term.Term.{Term};
ghost use Rattle.pb_propagate.specs.declared.store.Occurrence.{Occurrence};
ghost use Rattle.pb_propagate.specs.declared.store.spots.Spots.{Spots};
ghost use Rattle.pb_propagate.specs.declared.store.stored_form.StoredForm.{StoredForm};
ghost use Rattle.pb_propagate.specs.engine.engine.Lists.{Shape};
ghost use Rattle.pb_propagate.specs.engine.engine.Counts.{AreFalling, IsCalm, place};
ghost use Rattle.pb_propagate.specs.engine.engine.Forms.{IsStoredAs};
ghost use Rattle.pb_propagate.specs.engine.engine.Stored.{stored_form, stored_terms};
ghost use Rattle.pb_propagate.specs.engine.engine.Terms.{terms_of};
ghost use Rattle.pb_propagate.specs.engine.engine.Fields.{stored_shape, shapes_of, forms_of, spots_of, entries_of, IsSound, HasEntered, HasFilled, IsEmpty, IsUnlisted, AreLonger};
ghost use Rattle.pb_propagate.specs.engine.engine.Slots.{MayHold};
ghost use Rattle.pb_propagate.specs.engine.engine.Spots.{spots_in};
ghost use Rattle.pb_propagate.specs.engine.engine.Links.{IsLinked, Moved, cut, terms_at};
ghost use Rattle.pb_propagate.specs.engine.clauses.Runs.{AreReady, AreSet};
ghost use Rattle.pb_propagate.specs.engine.clauses.Shapes.{clauses_of, codes_of_terms};

use crate::clauses::Clauses;
use crate::clauses::watched::Pair;
use crate::column::Column;
use crate::lists::Lists;
use crate::run::{Run, place_of};
use crate::store::counted_form::CountedForm;
use crate::store::sorted_form::SortedForm;
use crate::store::spots::Spots;
use crate::store::stored_form::StoredForm;
use crate::store::unit_form::UnitForm;
use crate::store::{Occurrence, Store};
use pb_normal::Normal;
use std::alloc::{AllocError, Global};

// The degree plus the largest coefficient. With an open sum of that size a form propagates nothing
// and is not falsified.
fn bound_of(terms: &SortedForm, degree: u128) -> u128
    requires size { sum_by (λ t. t.coefficient) (terms_of terms.now) < 2 ^ 127 }
    requires small { degree < 2 ^ 127 }
    requires falling { AreFalling (terms_of terms.now) }
    ensures first { (d : Term) → 0 < length (terms_of terms.now) →
        result ≡ degree + (slice_index_or (terms_of terms.now) 0 d).coefficient }
    ensures calm { (opened c : ℕ) → result ≤ opened →
        IsCalm record { terms = terms_of terms.now; degree = degree } opened c }
{
    if terms.len() == 0 {
        return degree;
    }
    let first = terms.term(0);
    degree + first.coefficient
}

// A form with its sums.
fn counted_of(alloc: Global, form: Normal) -> Result<CountedForm, AllocError>
    ensures is { IfOk result (λ kept.
        IsStoredAs form record { terms = terms_of kept.terms; degree = kept.degree }) }
    ensures form { IfOk result (λ kept. kept.terms.form ≡ form) }
{
    let degree = form.degree().unsigned_abs();
    let total = form.size();
    let terms = SortedForm::new(alloc, form)?;
    let bound = bound_of(&terms, degree);
    Ok(CountedForm {
        terms,
        degree,
        total,
        bound,
    })
}

// A form as the engine stores it.
fn stored_of(alloc: Global, form: Normal) -> Result<StoredForm, AllocError>
    ensures is { IfOk result (λ kept. IsStoredAs form (stored_shape kept)) }
    ensures form { IfOk result (λ kept. stored_form kept ≡ Some form) }
{
    if form.terms().len() == 1 {
        return Ok(StoredForm::Single(UnitForm::of(form)));
    }
    let counted = counted_of(alloc, form)?;
    let kept = Box::new(alloc, counted)?;
    Ok(StoredForm::Counted(kept))
}

// Adds the terms of a form to the lists of their literals, and records their positions.
fn link(
    alloc: Global,
    kept: &StoredForm,
    form: usize,
    lists: &mut Lists<Occurrence>,
    spots: &mut Spots,
) -> Result<(), AllocError>
    requires inside { All (λ t. place t.literal < length lists.old) (stored_terms kept.now) }
    requires empty { spots_in spots.old ≡ [] }
    ensures sizes { length lists.new ≡ length lists.old }
    ensures longer { OnOk result (AreLonger lists.old lists.new) }
    ensures count { OnOk result (length (spots_in spots.new) ≡ length (stored_terms kept.now)) }
    ensures linked { OnOk result ((base : List Shape) (all : List (List ℕ)) → form < length base →
        terms_at base form ≡ stored_terms kept.now → form < length all →
        IsLinked (cut base form 0) (slice_set all form []) (entries_of base lists.old) →
        IsLinked (cut base form (length (stored_terms kept.now)))
        (slice_set all form (spots_in spots.new)) (entries_of base lists.new)) }
{
    // There are fewer than 2^64 lists.
    let _ = lists.len();
    'terms: for i in 0..kept.len() {
        let term = kept.term(i);
        let place = place_of(term.literal);
        let entry = Occurrence::of(form, i)?;
        let spot = lists.push(place, entry)?;
        spots.add(alloc, spot)?;
    }
    Ok(())
}

// Removes an entry from a list. The last entry of the list moves to its position.
fn take_out(lists: &mut Lists<Occurrence>, spots: &mut Column<Spots>, place: usize, spot: u32)
    requires place { place < length lists.old }
    requires spot { spot < length (slice_index_or lists.old place []) }
    requires named { (e : Occurrence) →
        slice_get (slice_index_or lists.old place [])
        (length (slice_index_or lists.old place []) - 1) ≡ Some e →
        (e.form < length spots.old) ×
        (e.index < length (slice_index_or (spots_of spots.old) e.form [])) }
    ensures sizes { length spots.new ≡ length spots.old }
    ensures lists { (e : Occurrence) ×
        (e ≡ slice_index_or (slice_index_or lists.old place []) spot e) ×
        (lists.new ≡ slice_set lists.old place
        (swap_remove (slice_index_or lists.old place []) spot e)) }
    ensures spots { Moved (slice_index_or lists.old place []) spot
        (spots_of spots.old) (spots_of spots.new) }
{
    let removed = lists.swap_remove(place, spot as usize);
    if let Some(moved) = removed.moved {
        let form = moved.form as usize;
        let mut kept = spots.take(form);
        kept.set(moved.index as usize, spot);
        spots.set(form, kept);
    }
}

// The position of the entry of a form's term.
fn spot_at(spots: &Column<Spots>, form: usize, index: usize) -> u32
    requires form { form < length spots.now }
    requires index { index < length (slice_index_or (spots_of spots.now) form []) }
    ensures { (kept : Spots) × (kept ≡ slice_index_or spots.now form kept) ×
        (result ≡ slice_index_or (spots_in kept) index result) }
{
    match spots.peek(form) {
        Some(kept) => kept.get(index),
        None => unreachable!(),
    }
}

// Removes the entries of a form from the lists, that of the last term first.
#[inline(always)]
fn unlink(store: &mut Store, form: usize)
    requires sound { IsSound store.old }
    requires form { form < length store.old.stored.items }
    ensures kept { store.new.stored ≡ store.old.stored }
    ensures variables { store.new.variables ≡ store.old.variables }
    ensures lists { length store.new.occurrences ≡ length store.old.occurrences }
    ensures rooms { (s : ℕ) → length (slice_index_or (spots_of store.new.spots) s []) ≡ length
        (slice_index_or (spots_of store.old.spots) s []) }
    ensures linked { IsLinked (cut (shapes_of store.new.stored.items) form 0)
        (spots_of store.new.spots)
        (entries_of (shapes_of store.new.stored.items) store.new.occurrences) }
{
    // There are fewer than 2^64 lists.
    let _ = store.occurrences.len();
    let mut left = store.stored[form].len();
    'terms: while left > 0 {
        left -= 1;
        let term = store.stored[form].term(left);
        let spot = spot_at(&store.spots, form, left);
        let place = place_of(term.literal);
        take_out(&mut store.occurrences, &mut store.spots, place, spot);
    }
}

// An empty slot.
fn empty_stored() -> StoredForm
    ensures { IsEmpty result }
{
    StoredForm::Vacant
}

// A form that is propagated by its watches. It has no entries in the occurrence lists.
fn watched_stored(form: Normal) -> StoredForm
    ensures form { stored_form result ≡ Some form }
    ensures unlisted { IsUnlisted result }
{
    StoredForm::Watched(form)
}

/// Stores a clause in an empty slot. Two of its literals are watched.
pub fn watch(
    store: &mut Store,
    clauses: &mut Clauses,
    slot: usize,
    form: Normal,
    codes: Vec<u32>,
    pair: Pair,
) -> Result<(), AllocError>
    requires { MayHold store.old clauses.old slot form codes.items pair }
    ensures ready { OnOk result (AreReady clauses.new) }
    ensures literals { OnOk result (clauses_of clauses.new ≡ slice_set (clauses_of clauses.old) slot
        (codes_of_terms form.terms)) }
    ensures lists { OnOk result (length clauses.new.lists ≡ length clauses.old.lists) }
    ensures watches { OnOk result (
        AreSet clauses.old.blocks.watches clauses.new.blocks.watches slot codes.items pair) }
    ensures kept { OnOk result ((k : StoredForm) × (stored_form k ≡ Some form) × IsUnlisted k ×
        (store.new.stored.items ≡ slice_set store.old.stored.items slot k)) }
    ensures unchanged { OnErr result (store.new.stored.items ≡ store.old.stored.items) }
    ensures rest { (store.new.spots ≡ store.old.spots) ×
        (store.new.occurrences ≡ store.old.occurrences) ×
        (store.new.variables ≡ store.old.variables) }
{
    clauses.fill(slot, codes, pair)?;
    store.stored[slot] = watched_stored(form);
    Ok(())
}

/// Adds an empty form after the others.
pub fn widen(store: &mut Store) -> Result<(), AllocError>
    requires sound { IsSound store.old }
    ensures sound { OnOk result (IsSound store.new) }
    ensures kept { OnOk result ((k : StoredForm) × IsEmpty k ×
        (store.new.stored.items ≡ store.old.stored.items ++ k ∷ [])) }
    ensures unchanged { OnErr result (store.new.stored.items ≡ store.old.stored.items) }
    ensures occurrences { store.new.occurrences ≡ store.old.occurrences }
    ensures variables { store.new.variables ≡ store.old.variables }
{
    store.spots.push_empty()?;
    store.stored.push(empty_stored())?;
    Ok(())
}

/// Stores a form in the slot of an empty one.
pub fn fill(store: &mut Store, slot: usize, form: Normal) -> Result<(), AllocError>
    requires sound { IsSound store.old }
    requires inside { All (λ t. t.variable < store.old.variables) form.terms }
    requires slot { slot < length store.old.stored.items }
    requires empty { terms_at (shapes_of store.old.stored.items) slot ≡ [] }
    ensures sound { OnOk result (IsSound store.new) }
    ensures unchanged { OnErr result (store.new.stored.items ≡ store.old.stored.items) }
    ensures filled { OnOk result
        (HasFilled form slot store.old.stored.items store.new.stored.items) }
    ensures longer { OnOk result (
        AreLonger store.old.occurrences store.new.occurrences) }
    ensures variables { store.new.variables ≡ store.old.variables }
{
    let alloc = *store.stored.allocator();
    let kept = stored_of(alloc, form)?;
    let mut spots = Spots::for_terms(alloc, kept.len())?;
    link(alloc, &kept, slot, &mut store.occurrences, &mut spots)?;
    store.spots.set(slot, spots);
    store.stored[slot] = kept;
    Ok(())
}

/// Adds a form after the others, with its open sum and candidate.
pub fn enter(store: &mut Store, run: &mut Run, form: Normal) -> Result<(), AllocError>
    requires sound { IsSound store.old }
    requires inside { All (λ t. t.variable < store.old.variables) form.terms }
    ensures sound { OnOk result (IsSound store.new) }
    ensures unchanged { OnErr result ((s : ℕ) →
        slice_index_or (forms_of store.new.stored.items) s None ≡ slice_index_or
        (forms_of store.old.stored.items) s None) }
    ensures entered { OnOk result
        (HasEntered form store.old.stored.items store.new.stored.items run.old.opens run.new.opens
        run.old.candidates run.new.candidates) }
    ensures longer { OnOk result (
        AreLonger store.old.occurrences store.new.occurrences) }
    ensures variables { store.new.variables ≡ store.old.variables }
    ensures trail { run.new.trail ≡ run.old.trail }
    ensures rest { (run.new.assignment ≡ run.old.assignment) × (run.new.work ≡ run.old.work) ×
        (run.new.next ≡ run.old.next) × (run.new.visits ≡ run.old.visits) }
{
    let slot = store.stored.len();
    let last = run.opens.len();
    run.opens.push_empty()?;
    run.candidates.push_empty()?;
    widen(store)?;
    fill(store, slot, form)?;
    run.opens.set(last, store.stored[slot].total());
    Ok(())
}

/// Removes the last form.
pub fn leave(store: &mut Store, run: &mut Run)
    requires sound { IsSound store.old }
    requires some { 0 < length store.old.stored.items }
    ensures sound { IsSound store.new }
    ensures kept { store.new.stored.items ≡ take
        (length store.old.stored.items - 1) store.old.stored.items }
    ensures opens { run.new.opens ≡ take (length run.old.opens - 1) run.old.opens }
    ensures candidates { run.new.candidates ≡ take
        (length run.old.candidates - 1) run.old.candidates }
    ensures variables { store.new.variables ≡ store.old.variables }
    ensures trail { run.new.trail ≡ run.old.trail }
    ensures rest { (run.new.assignment ≡ run.old.assignment) × (run.new.work ≡ run.old.work) ×
        (run.new.next ≡ run.old.next) × (run.new.visits ≡ run.old.visits) }
{
    let number = store.stored.len() - 1;
    unlink(store, number);
    store.stored.pop();
    store.spots.pop();
    run.opens.pop();
    run.candidates.pop();
}

/// Removes a form and returns it. An empty one takes its slot.
pub fn clear_slot(store: &mut Store, form: usize) -> Option<Normal>
    requires sound { IsSound store.old }
    requires form { form < length store.old.stored.items }
    ensures was { result ≡ slice_index_or (forms_of store.old.stored.items) form None }
    ensures sound { IsSound store.new }
    ensures kept { (k : StoredForm) × IsEmpty k ×
        (store.new.stored.items ≡ slice_set store.old.stored.items form k) }
    ensures variables { store.new.variables ≡ store.old.variables }
{
    unlink(store, form);
    let kept = std::mem::replace(&mut store.stored[form], empty_stored());
    store.spots.set_empty(form);
    kept.into_form()
}
