//! Forms take slots and leave them.

#![tactic(auto, using(crate::proofs::rulesets::Store::slots))]

ghost use Rattle.std.specs.Prelude.{◌≡◌, ℕ, ◌<◌, ◌++◌, ◌∷◌, [], All, Some, None, length, slice_get, slice_set, slice_index_or, IfSome, IfOk, OnOk, OnErr};
ghost use Rattle.pb_propagate.specs.engine.engine.Fields.{forms_of};
ghost use Rattle.pb_propagate.specs.engine.engine.Rest.{IsAtRest};
ghost use Rattle.pb_propagate.specs.engine.engine.Root.{HasWidened, HasGained, HasCleared};
ghost use Rattle.pb_propagate.specs.engine.clauses.Shapes.{IsClause, IsPlanned};
ghost use Rattle.pb_propagate.specs.engine.clauses.Runs.{AreFree, AreReady, CanHold, IsFreePair, IsRefitted};

use crate::assignment::Assignment;
use crate::clause::{codes_of, is_clause};
use crate::clauses::Clauses;
use crate::clauses::watched::{Pair, pick};
use crate::free::Free;
use crate::store::Store;
use crate::store::occurrence_lists::{clear_slot, fill, watch, widen};
use crate::store::stored_form::StoredForm;
use pb_normal::Normal;
use std::alloc::AllocError;

// The slot of a removed form.
fn left_slot(kept: &[StoredForm], free: &mut Free, count: usize) -> Option<usize>
    ensures { IfSome result (λ slot. slice_get (forms_of kept.now) slot ≡ Some None) }
{
    let slot = free.take(count)?;
    let kept = kept.get(slot)?;
    if kept.has_form() {
        return None;
    }
    Some(slot)
}

/// How many literals the clause has, or 0 if the form is no clause.
pub fn clause_size(form: &Normal) -> usize
    ensures clause { IsClause form.now → result ≡ length form.now.terms }
    ensures other { (IsClause form.now → ⊥) → result ≡ 0 }
    ensures found { 0 < result → IsClause form.now }
{
    if !is_clause(form) {
        return 0;
    }
    form.len()
}

/// A slot without a form: that of a removed form, or a new one. A clause of `count` literals fits
/// into its block, if it has one.
pub fn empty_slot(
    store: &mut Store,
    clauses: &mut Clauses,
    free: &mut Free,
    count: usize,
) -> Result<usize, AllocError>
    requires rest { IsAtRest store.old clauses.old (forms_of store.old.stored.items) }
    ensures rest { OnOk result (
        IsAtRest store.new clauses.new (forms_of store.new.stored.items)) }
    ensures slot { IfOk result (λ slot.
        slice_get (forms_of store.new.stored.items) slot ≡ Some None) }
    ensures forms { (s : ℕ) →
        slice_index_or (forms_of store.new.stored.items) s None ≡ slice_index_or
        (forms_of store.old.stored.items) s None }
    ensures widened { IfOk result (λ slot.
        HasWidened store.old clauses.old store.new clauses.new slot) }
    ensures variables { store.new.variables ≡ store.old.variables }
{
    if let Some(slot) = left_slot(store.stored.as_slice(), free, count) {
        return Ok(slot);
    }
    let slot = store.stored.len();
    widen(store)?;
    clauses.extend()?;
    free.widen(slot)?;
    Ok(slot)
}

// How a clause is stored.
#[derive(Drop)]
struct Planned {
    codes: Vec<u32>,
    pair: Pair,
}

// How a form is stored if it is a clause that can be watched: it has two literals that the assigned
// ones do not falsify, and the slot has room for it. A count of 0 says that it is no clause.
fn plan(
    form: &Normal,
    count: usize,
    assigned: &Assignment,
    clauses: &mut Clauses,
    slot: usize,
) -> Result<Option<Planned>, AllocError>
    requires ready { AreReady clauses.old }
    requires slot { slot < length clauses.old.blocks.literals }
    requires clause { 0 < count → IsClause form.now }
    ensures planned { IfOk result (λ planned. IfSome planned (λ p. IsPlanned form.now p ×
        CanHold clauses.new slot (length p.codes.items))) }
    ensures free { IfOk result (λ planned. IfSome planned (λ p.
        IsFreePair assigned.now.values.items p.codes.items p.pair)) }
    ensures clauses { IsRefitted clauses.old clauses.new }
{
    if count == 0 {
        return Ok(None);
    }
    let empty = clauses.codes_for(count)?;
    let codes = codes_of(form.terms(), empty)?;
    let Some(pair) = pick(assigned, codes.as_slice()) else {
        return Ok(None);
    };
    if !clauses.fit(slot, codes.len())? {
        return Ok(None);
    }
    Ok(Some(Planned { codes, pair }))
}

/// Stores a form in an empty slot. A clause of which the assigned literals falsify all but one or
/// all is stored with its entries. The count is the form's `clause_size`.
pub fn add_form(
    store: &mut Store,
    clauses: &mut Clauses,
    assigned: &Assignment,
    slot: usize,
    count: usize,
    form: Normal,
) -> Result<(), AllocError>
    requires rest { IsAtRest store.old clauses.old (forms_of store.old.stored.items) }
    requires slot { slice_get (forms_of store.old.stored.items) slot ≡ Some None }
    requires inside { All (λ t. t.variable < store.old.variables) form.terms }
    requires clause { 0 < count → IsClause form }
    ensures rest { OnOk result (
        IsAtRest store.new clauses.new (forms_of store.new.stored.items)) }
    ensures forms { OnOk result (forms_of store.new.stored.items ≡ slice_set
        (forms_of store.old.stored.items) slot (Some form)) }
    ensures gained { OnOk result (HasGained store.old clauses.old store.new clauses.new slot) }
    ensures free { OnOk result (
        AreFree assigned.now.values.items clauses.new.blocks.watches slot) }
    ensures refused { OnErr result (
        forms_of store.new.stored.items ≡ forms_of store.old.stored.items) }
    ensures variables { store.new.variables ≡ store.old.variables }
{
    if let Some(planned) = plan(&form, count, assigned, clauses, slot)? {
        watch(store, clauses, slot, form, planned.codes, planned.pair)?;
        return Ok(());
    }
    fill(store, slot, form)?;
    Ok(())
}

/// Removes the form of a slot, which is then empty, and returns it.
pub fn remove_form(store: &mut Store, clauses: &mut Clauses, slot: usize) -> Option<Normal>
    requires rest { IsAtRest store.old clauses.old (forms_of store.old.stored.items) }
    requires slot { slot < length store.old.stored.items }
    ensures rest { IsAtRest store.new clauses.new (forms_of store.new.stored.items) }
    ensures was { result ≡ slice_index_or (forms_of store.old.stored.items) slot None }
    ensures forms { forms_of store.new.stored.items ≡ slice_set
        (forms_of store.old.stored.items) slot None }
    ensures vacated { HasCleared store.old clauses.old store.new clauses.new slot }
    ensures variables { store.new.variables ≡ store.old.variables }
{
    clauses.empty(slot);
    clear_slot(store, slot)
}
