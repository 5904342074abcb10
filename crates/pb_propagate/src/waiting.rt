//! The forms that may propagate with nothing assigned.

#![tactic(auto, using(crate::proofs::rulesets::Store::waiting))]

ghost use Rattle.std.specs.Prelude.{◌≡◌, ℕ, ◌<◌, ◌≤◌, ◌+◌, ◌++◌, ◌∷◌, [], Some, length, slice_get, swap_remove, true, false, vec_capacity, IfOk, OnOk};
ghost use Rattle.pb_propagate.specs.engine.engine.Counts.{IsAbsent};
ghost use Rattle.pb_propagate.specs.engine.engine.Waiting.{IsWithout};

use crate::column::Column;
use std::alloc::{AllocError, Global};

/// Some of the forms, each once. The list has room for all of them. A form is removed without a
/// search.
#[derive(Drop)]
pub struct Waiting {
    pub list: Vec<usize>,
    // For each form on the list, its position there.
    pub positions: Column<usize>,
    pub ghost positioned: { (i s : ℕ) → slice_get list.items i ≡ Some s →
        slice_get positions s ≡ Some i },
    pub ghost room: { length positions ≤ vec_capacity list },
}

impl Waiting {
    /// An empty list, over no forms.
    pub fn new(alloc: Global) -> Waiting
        ensures { (result.list.items ≡ []) × (result.positions ≡ []) }
    {
        Waiting {
            list: Vec::new(alloc),
            positions: Column::new(alloc),
        }
    }

    /// An empty list, over no forms, with memory for this many.
    pub fn with_capacity(alloc: Global, forms: usize) -> Result<Waiting, AllocError>
        ensures { IfOk result (λ waiting. (waiting.list.items ≡ []) × (waiting.positions ≡ [])) }
    {
        let list = Vec::with_capacity(alloc, forms)?;
        let positions = Column::with_capacity(alloc, forms)?;
        Ok(Waiting { list, positions })
    }

    /// Adds a form that is not on the list, and room for it there.
    pub fn widen(&mut self) -> Result<(), AllocError>
        ensures list { self.new.list.items ≡ self.old.list.items }
        ensures positions { OnOk result
            (length self.new.positions ≡ length self.old.positions + 1) }
    {
        let count = self.positions.len() + 1;
        self.list.reserve(count.saturating_sub(self.list.len()))?;
        self.positions.push_empty()?;
        Ok(())
    }

    /// Adds a form to the list. Nothing is allocated.
    pub fn put(&mut self, form: usize)
        requires inside { form < length self.old.positions }
        requires absent { IsAbsent self.old.list.items 0 form }
        ensures list { self.new.list.items ≡ self.old.list.items ++ form ∷ [] }
        ensures positions { length self.new.positions ≡ length self.old.positions }
    {
        let position = self.list.len();
        self.list.push_reserved(form);
        self.positions.set(form, position);
    }

    /// Whether the form is on the list.
    pub fn contains(&self, form: usize) -> bool
        requires inside { form < length self.now.positions }
        ensures yes { result ≡ true → IsAbsent self.now.list.items 0 form → ⊥ }
        ensures no { result ≡ false → IsAbsent self.now.list.items 0 form }
    {
        match self.list.get(self.positions.get(form)) {
            Some(other) => *other == form,
            None => false,
        }
    }

    /// Removes a form from the list if it is there.
    pub fn remove(&mut self, form: usize)
        requires inside { form < length self.old.positions }
        ensures left { IsWithout form self.old.list.items self.new.list.items }
        ensures positions { length self.new.positions ≡ length self.old.positions }
    {
        if self.contains(form) {
            self.take(form);
        }
    }

    /// Removes all forms from the list.
    pub fn clear(&mut self)
        ensures list { self.new.list.items ≡ [] }
        ensures positions { self.new.positions ≡ self.old.positions }
    {
        self.list.clear();
    }

    /// Removes a form from the list. The last one moves to its position.
    pub fn take(&mut self, form: usize)
        requires there { IsAbsent self.old.list.items 0 form → ⊥ }
        ensures list { (position : ℕ) × (slice_get self.old.list.items position ≡ Some form) ×
            (self.new.list.items ≡ swap_remove self.old.list.items position form) }
        ensures positions { length self.new.positions ≡ length self.old.positions }
    {
        let position = self.positions.get(form);
        self.list.swap_remove(position);
        if position >= self.list.len() {
            return;
        }
        let moved = self.list[position];
        self.positions.set(moved, position);
    }
}
