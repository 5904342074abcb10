//! The engine: live forms by number, and the results of propagation over them.

#![tactic(auto, using(crate::proofs::rulesets::Engine::engine))]

pub mod completion;
pub mod conflict;
pub mod denial;
pub mod losing;
pub mod question;
pub mod root;
pub mod visits;

ghost use Rattle.std.specs.Prelude.{◌≡◌, List, Some, None, ◌+◌, ◌*◌, ◌<◌, ◌≤◌, ◌++◌, ◌∷◌, [], ◌⊎◌, true, false, All, length, slice_index_or, slice_set, sum_by, OnOk, OnErr, IfOk, IfSome, IfNone};
ghost use Rattle.pb_normal.specs.meaning.Rules.{negation_of};
ghost use Rattle.pb_normal.specs.declared.numbered.NumberedLiteral.{NumberedLiteral};
ghost use Rattle.pb_propagate.specs.engine.engine.Live.{Live, Gives, terms_in, one_in};
ghost use Rattle.pb_propagate.specs.meaning.Propagation.{With, MeetsConflict, IsCompletion, IsRup};

use crate::clauses::Clauses;
use crate::column::Column;
use crate::engine::completion::extend;
use crate::engine::conflict::Conflict;
use crate::engine::question::ask;
use crate::engine::root::Root;
use crate::engine::visits::Visits;
use crate::free::Free;
use crate::lists::Lists;
use crate::slots::{add_form, clause_size, empty_slot, remove_form};
use crate::store::Store;
use pb_normal::{Normal, NumberedLiteral};
use std::alloc::{AllocError, Global};
use std::marker::Model;

// What is stored in place of a slot for a number whose form was removed.
const NO_SLOT: u32 = u32::MAX;

/// Forms by number. Propagation over the live ones visits only what it touches.
#[derive(Drop)]
pub struct Engine {
    store: Store,
    clauses: Clauses,
    root: Root,
    conflict: Conflict,
    // For each number the slot of its form, or `NO_SLOT` if the form was removed. The slot of a
    // removed form is used again.
    places: Vec<u32>,
    // The slots of removed forms.
    free: Free,
    // Those of the last question.
    visits: Visits,
    // Set while a call runs. It stays set if an allocation failed in the middle of the call.
    spent: bool,
}

impl Model for Engine {
    ghost use Rattle.pb_propagate.specs.engine.engine.Live.{Standing};

    ghost Value = { Standing };

    ghost use Rattle.std.specs.Prelude.{◌≡◌, true, false, length};
    ghost use Rattle.pb_propagate.specs.engine.engine.Fields.{forms_of};
    ghost use Rattle.pb_propagate.specs.engine.engine.Rest.{IsAtRest};
    ghost use Rattle.pb_propagate.specs.engine.engine.Slots.{numbered, ArePlaced};
    ghost use Rattle.pb_propagate.specs.engine.engine.Root.{IsRootOf, IsKeptConflict};
    ghost use Rattle.pb_propagate.specs.engine.clauses.Shapes.{all_of};

    ghost view = { λ e. record {
      forms = numbered (forms_of e.store.stored.items) e.places.items;
      variables = e.store.variables;
      visits = e.visits;
      spent = e.spent;
    } };

    ghost invariant = { λ e. e.spent ≡ false →
        IsAtRest e.store e.clauses (forms_of e.store.stored.items) ×
        ArePlaced (forms_of e.store.stored.items) e.places.items ×
        IsRootOf e.store e.clauses e.root ×
        IsKeptConflict (all_of e.store e.clauses) e.store.variables e.conflict };
}

impl Engine {
    /// No forms, over no variables.
    pub fn new(alloc: Global) -> Engine
        ensures forms { result.forms ≡ [] }
        ensures variables { result.variables ≡ 0 }
        ensures ready { result.spent ≡ false }
    {
        Engine {
            store: Store {
                stored: Vec::new(alloc),
                spots: Column::new(alloc),
                occurrences: Lists::new(alloc),
                variables: 0,
            },
            clauses: Clauses::new(alloc),
            root: Root::new(alloc),
            conflict: Conflict::new(alloc),
            places: Vec::new(alloc),
            free: Free::new(alloc),
            visits: Visits::none(),
            spent: false,
        }
    }

    /// No forms, over no variables, with memory for that many of both.
    pub fn with_capacity(
        alloc: Global,
        variables: usize,
        forms: usize,
    ) -> Result<Engine, AllocError>
        ensures forms { IfOk result (λ engine. engine.forms ≡ []) }
        ensures variables { IfOk result (λ engine. engine.variables ≡ 0) }
        ensures ready { IfOk result (λ engine. engine.spent ≡ false) }
    {
        let store = Store::with_capacity(alloc, forms)?;
        let clauses = Clauses::with_capacity(alloc, forms)?;
        let root = Root::with_capacity(alloc, variables, forms)?;
        let places = Vec::with_capacity(alloc, forms)?;
        let free = Free::with_capacity(alloc, forms)?;
        Ok(Engine {
            store,
            clauses,
            root,
            conflict: Conflict::new(alloc),
            places,
            free,
            visits: Visits::none(),
            spent: false,
        })
    }

    /// Adds a variable.
    pub fn widen(&mut self) -> Result<(), AllocError>
        requires ready { self.old.spent ≡ false }
        ensures forms { self.new.forms ≡ self.old.forms }
        ensures variables { OnOk result (self.new.variables ≡ self.old.variables + 1) }
        ensures visits { OnOk result (self.new.visits ≡ self.old.visits) }
        ensures ready { OnOk result (self.new.spent ≡ false) }
    {
        if self.store.occurrences.len() >= usize::MAX - 1 {
            return Err(AllocError);
        }
        self.spent = true;
        self.store.occurrences.add();
        self.store.occurrences.add();
        self.clauses.widen()?;
        // The root forces nothing more.
        self.root.run.assignment.widen()?;
        self.conflict.widen()?;
        self.store.variables = self.store.occurrences.len() / 2;
        self.spent = false;
        Ok(())
    }

    /// Adds a form after the others.
    pub fn insert(&mut self, form: Normal) -> Result<(), AllocError>
        requires ready { self.old.spent ≡ false }
        requires inside { All (λ t. t.variable < self.old.variables) form.terms }
        ensures forms { OnOk result (self.new.forms ≡ self.old.forms ++ Some form ∷ []) }
        ensures unchanged { OnErr result (self.new.forms ≡ self.old.forms) }
        ensures variables { OnOk result (self.new.variables ≡ self.old.variables) }
        ensures visits { OnOk result (self.new.visits ≡ self.old.visits) }
        ensures ready { OnOk result (self.new.spent ≡ false) }
    {
        // The form gets a slot below `NO_SLOT`, and so does the goal of a question after it.
        if self.store.stored.len() >= NO_SLOT as usize - 1 {
            return Err(AllocError);
        }
        self.spent = true;
        let count = clause_size(&form);
        let slot = empty_slot(&mut self.store, &mut self.clauses, &mut self.free, count)?;
        let assigned = &self.root.run.assignment;
        add_form(
            &mut self.store,
            &mut self.clauses,
            assigned,
            slot,
            count,
            form,
        )?;
        self.root.note(&self.store, slot)?;
        self.root.add(&self.store, &self.clauses, slot)?;
        self.places.push(slot as u32)?;
        self.spent = false;
        Ok(())
    }

    /// Removes a form. Its number stays empty.
    pub fn remove(&mut self, number: usize)
        requires ready { self.old.spent ≡ false }
        requires number { number < length self.old.forms }
        ensures forms { self.new.forms ≡ slice_set self.old.forms number None }
        ensures variables { self.new.variables ≡ self.old.variables }
        ensures visits { self.new.visits ≡ self.old.visits }
        ensures ready { self.new.spent ≡ false }
    {
        self.take(number);
    }

    /// Removes a form, and returns it if there was one. Its number stays empty.
    pub fn take(&mut self, number: usize) -> Option<Normal>
        requires ready { self.old.spent ≡ false }
        requires number { number < length self.old.forms }
        ensures forms { self.new.forms ≡ slice_set self.old.forms number None }
        ensures variables { self.new.variables ≡ self.old.variables }
        ensures visits { self.new.visits ≡ self.old.visits }
        ensures ready { self.new.spent ≡ false }
        ensures was { result ≡ slice_index_or self.old.forms number None }
    {
        let slot = self.places[number] as usize;
        if slot >= self.store.stored.len() {
            return None;
        }
        self.places[number] = NO_SLOT;
        self.root.remove(&self.store, &self.clauses, slot);
        let units = self.root.units.as_slice();
        self.conflict
            .remove(&self.store, &self.clauses, units, slot);
        let form = remove_form(&mut self.store, &mut self.clauses, slot);
        self.free.put(slot, self.clauses.room(slot));
        form
    }

    /// The form with this number.
    pub fn form(&self, number: usize) -> Option<&Normal>
        requires { number < length self.now.forms }
        ensures some { IfSome result (λ f. slice_index_or self.now.forms number None ≡ Some f.now) }
        ensures none { IfNone result (slice_index_or self.now.forms number None ≡ None) }
    {
        match self.store.stored.get(self.places[number] as usize) {
            Some(kept) => kept.form(),
            None => None,
        }
    }

    /// A copy of the form with this number.
    pub fn copy(&self, number: usize) -> Result<Option<Normal>, AllocError>
        requires { number < length self.now.forms }
        ensures { IfOk result (λ f. f ≡ slice_index_or self.now.forms number None) }
    {
        let Some(form) = self.form(number) else {
            return Ok(None);
        };
        match form.copy() {
            Ok(copy) => Ok(Some(copy)),
            Err(_) => Err(AllocError),
        }
    }

    /// How many numbers were given.
    pub fn len(&self) -> usize
        ensures { result ≡ length self.now.forms }
    {
        self.places.len()
    }

    /// The number of visits of the last `rup`. Visits to entries of occurrence lists, to terms, and
    /// to watches and literals of clauses are counted. A literal that was kept from earlier
    /// questions counts as one.
    pub fn visits(&self) -> u64
        ensures { result ≡ self.now.visits }
    {
        self.visits.number()
    }

    /// Whether propagation over the live forms and the negation of the goal meets a conflict, or
    /// the goal has degree 0.
    pub fn rup(&mut self, goal: &Normal) -> Result<bool, AllocError>
        requires ready { self.old.spent ≡ false }
        requires inside { All (λ t. t.variable < self.old.variables) goal.now.terms }
        ensures forms { self.new.forms ≡ self.old.forms }
        ensures variables { OnOk result (self.new.variables ≡ self.old.variables) }
        ensures ready { OnOk result (self.new.spent ≡ false) }
        ensures implied { IfOk result (λ found. found ≡ true →
            IsRup (Live self.old.forms) goal.now) }
        ensures not_implied { IfOk result (λ found. found ≡ false →
            IsRup (Live self.old.forms) goal.now → ⊥) }

        // Upper and lower bounds on the number of visits.
        ensures unasked { goal.now.degree ≡ 0 → self.new.visits ≡ 0 }
        ensures most { self.new.visits ≤ 3 * (sum_by terms_in self.old.forms + length
            goal.now.terms) + (sum_by one_in self.old.forms + 1) }
        ensures conflict { IfOk result (λ found. found ≡ true → (goal.now.degree ≡ 0) ⊎
            ((m : MeetsConflict (With (Live self.old.forms) (negation_of goal.now)) []) ×
            (length m.list ≤ self.new.visits))) }
        ensures completion { IfOk result (λ found. found ≡ false → (list : List NumberedLiteral) ×
            IsCompletion (With (Live self.old.forms) (negation_of goal.now)) [] list ×
            (length list ≤ self.new.visits)) }
    {
        self.visits = Visits::none();
        if goal.degree() == 0 {
            return Ok(true);
        }
        // A conflict that needs no goal. Each literal that leads to it is a visit.
        if self.conflict.met {
            self.visits = Visits::of(self.conflict.assignment.list.len());
            return Ok(true);
        }
        self.spent = true;
        let answer = ask(
            &mut self.store,
            &mut self.clauses,
            &mut self.root,
            &mut self.conflict,
            &mut self.visits,
            goal,
        )?;
        self.spent = false;
        Ok(answer)
    }

    /// The values of the completion of given literals over the live forms, or `None` if a conflict
    /// is met. There is one value for each variable: `Some(true)` if the variable is true, `None`
    /// if it is open.
    pub fn complete(
        &mut self,
        given: &[NumberedLiteral],
    ) -> Result<Option<Vec<Option<bool>>>, AllocError>
        requires ready { self.old.spent ≡ false }
        requires inside { All (λ l. l.variable < self.old.variables) given.now }
        ensures forms { self.new.forms ≡ self.old.forms }
        ensures variables { OnOk result (self.new.variables ≡ self.old.variables) }
        ensures visits { OnOk result (self.new.visits ≡ self.old.visits) }
        ensures ready { OnOk result (self.new.spent ≡ false) }
        ensures conflict { IfOk result (λ found.
            IfNone found (MeetsConflict (Live self.old.forms) given.now)) }
        ensures no_conflict { IfOk result (λ found.
            IfSome found (λ values. MeetsConflict (Live self.old.forms) given.now → ⊥)) }
        ensures count { IfOk result (λ found.
            IfSome found (λ values. length values.items ≡ self.old.variables)) }
        ensures completed { IfOk result (λ found.
            IfSome found (λ values. (list : List NumberedLiteral) ×
            IsCompletion (Live self.old.forms) given.now list × Gives list values.items)) }
    {
        if self.conflict.met {
            return Ok(None);
        }
        self.spent = true;
        let values = extend(
            &self.store,
            &mut self.clauses,
            &mut self.root,
            &mut self.conflict,
            given,
        )?;
        self.spent = false;
        Ok(values)
    }
}
