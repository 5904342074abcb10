//! The constraints of the instance, and the live ones.

ghost use Rattle.std.specs.Prelude.{◌≡◌, List, Some, None, ◌+◌, ◌*◌, ◌<◌, ◌≤◌, ◌++◌, ◌∷◌, [], ◌⊎◌, true, false, All, Contains, length, map, slice_get, slice_index_or, slice_set, sum_by, OnOk, OnErr, IfOk, IfSome, IfNone};
ghost use Rattle.pb_normal.specs.meaning.Form.{Form};
ghost use Rattle.pb_normal.specs.meaning.Rules.{negation_of};
ghost use Rattle.pb_normal.specs.declared.numbered.NumberedLiteral.{NumberedLiteral};
ghost use Rattle.pb_propagate.specs.engine.engine.Live.{Live, Gives, terms_in, one_in};
ghost use Rattle.pb_propagate.specs.meaning.Propagation.{With, MeetsConflict, IsCompletion, IsRup};
ghost use Rattle.pb_replay.specs.engine.Constraints.{AreLive, HasFilled};

use crate::state::listed::Listed;
use crate::state::removed::Removed;
use pb_normal::{Normal, NumberedLiteral};
use pb_propagate::{Column, Engine};
use std::alloc::{AllocError, Global};
use std::marker::Model;

/// The constraints of the instance, and the live ones by number. Each form is stored once.
#[derive(Drop)]
pub(crate) struct Constraints {
    // The live ones.
    engine: Engine,
    // Those of the instance. Only contracts see them.
    own: Listed,
    // How many the instance has.
    count: usize,
    // Those of the instance until they become live.
    waiting: Vec<Normal>,
    // Those of the instance that are no longer live, by number.
    removed: Column<Removed>,
    // Set while a call runs. It stays set if an allocation failed in the middle of the call.
    spent: bool,
}

impl Model for Constraints {
    ghost use Rattle.pb_replay.specs.engine.Constraints.{Constrained};

    ghost Value = { Constrained };

    ghost use Rattle.std.specs.Prelude.{◌≡◌, false, length};
    ghost use Rattle.pb_replay.specs.engine.Constraints.{AreHeld};

    ghost view = { λ c. record {
      loaded = c.own.forms;
      forms = c.engine.forms;
      variables = c.engine.variables;
      visits = c.engine.visits;
      spent = c.spent;
    } };

    ghost invariant = { λ c. (c.count ≡ length c.own.forms) × (c.spent ≡ false →
        (c.engine.spent ≡ false) ×
        AreHeld c.own.forms c.waiting.items c.removed c.engine.forms) };
}

// Memory for the removed ones of this many constraints.
fn none_removed(alloc: Global, count: usize) -> Result<Column<Removed>, AllocError>
    ensures { IfOk result (λ removed. length removed ≡ count) }
{
    let mut removed = Column::with_capacity(alloc, count)?;
    for _number in 0..count {
        removed.push_empty()?;
    }
    Ok(removed)
}

// Adds each of the forms to an engine that has none.
fn fill(engine: &mut Engine, forms: Vec<Normal>) -> Result<(), AllocError>
    requires ready { engine.old.spent ≡ false }
    requires empty { engine.old.forms ≡ [] }
    requires inside { (f : Form) → Contains forms.items f →
        All (λ t. t.variable < engine.old.variables) f.terms }
    ensures filled { OnOk result (
        HasFilled (map (λ f. Some f) forms.items) engine.old.variables engine.new) }
{
    for form in forms {
        engine.insert(form)?;
    }
    Ok(())
}

impl Constraints {
    /// Those of an instance. None is live, and there is no variable.
    pub(crate) fn new(alloc: Global, forms: Vec<Normal>) -> Constraints
        ensures loaded { result.loaded ≡ forms.items }
        ensures live { AreLive [] 0 result }
    {
        Constraints {
            engine: Engine::new(alloc),
            own: Listed::of(&forms),
            count: forms.len(),
            waiting: forms,
            removed: Column::new(alloc),
            spent: false,
        }
    }

    /// Those of no instance, with memory for that many variables and live ones.
    pub(crate) fn with_capacity(
        alloc: Global,
        variables: usize,
        forms: usize,
    ) -> Result<Constraints, AllocError>
        ensures loaded { IfOk result (λ r. r.loaded ≡ []) }
        ensures live { IfOk result (AreLive [] 0) }
    {
        let engine = Engine::with_capacity(alloc, variables, forms)?;
        Ok(Constraints {
            engine,
            own: Listed::new(),
            count: 0,
            waiting: Vec::new(alloc),
            removed: Column::new(alloc),
            spent: false,
        })
    }

    /// Reserves memory for that many variables, and for all constraints to become live.
    pub(crate) fn reserve(&mut self, alloc: Global, variables: usize) -> Result<(), AllocError>
        requires ready { self.old.spent ≡ false }
        requires fresh { self.old.forms ≡ [] }
        ensures loaded { self.new.loaded ≡ self.old.loaded }
        ensures live { OnOk result (AreLive [] 0 self.new) }
    {
        self.engine = Engine::with_capacity(alloc, variables, self.count)?;
        Ok(())
    }

    /// How many constraints the instance has.
    pub(crate) fn count(&self) -> usize
        ensures { result ≡ length self.now.loaded }
    {
        self.count
    }

    /// A constraint of the instance.
    pub(crate) fn of_instance(&self, at: usize) -> &Normal
        requires ready { self.now.spent ≡ false }
        requires at { at < length self.now.loaded }
        ensures { slice_get self.now.loaded at ≡ Some result.now }
    {
        if at < self.waiting.len() {
            return &self.waiting[at];
        }
        if let Some(form) = self.engine.form(at) {
            return form;
        }
        match self.removed.peek(at) {
            Some(Removed::One(form)) => form,
            _ => unreachable!(),
        }
    }

    /// The constraints of the instance become live.
    pub(crate) fn make_live(&mut self, alloc: Global) -> Result<(), AllocError>
        requires ready { self.old.spent ≡ false }
        requires fresh { self.old.forms ≡ [] }
        requires inside { (f : Form) → Contains self.old.loaded f →
            All (λ t. t.variable < self.old.variables) f.terms }
        ensures loaded { self.new.loaded ≡ self.old.loaded }
        ensures live { OnOk result (
            AreLive (map (λ f. Some f) self.old.loaded) self.old.variables self.new) }
    {
        self.spent = true;
        self.removed = none_removed(alloc, self.count)?;
        let waiting = std::mem::replace(&mut self.waiting, Vec::new(alloc));
        fill(&mut self.engine, waiting)?;
        self.spent = false;
        Ok(())
    }

    /// The live ones of another list become the live ones. They are those of the instance.
    pub(crate) fn adopt(&mut self, other: Constraints)
        requires ready { self.old.spent ≡ false }
        requires adopted { other.spent ≡ false }
        requires same { other.forms ≡ map (λ f. Some f) self.old.loaded }
        ensures loaded { self.new.loaded ≡ self.old.loaded }
        ensures live { AreLive other.forms other.variables self.new }
    {
        self.engine = other.engine;
    }

    /// Adds a variable.
    pub(crate) fn widen(&mut self) -> Result<(), AllocError>
        requires ready { self.old.spent ≡ false }
        ensures loaded { self.new.loaded ≡ self.old.loaded }
        ensures live { OnOk result (AreLive self.old.forms (self.old.variables + 1) self.new) }
        ensures visits { OnOk result (self.new.visits ≡ self.old.visits) }
    {
        self.spent = true;
        self.engine.widen()?;
        self.spent = false;
        Ok(())
    }

    /// Adds a live constraint after the others.
    pub(crate) fn insert(&mut self, form: Normal) -> Result<(), AllocError>
        requires ready { self.old.spent ≡ false }
        requires inside { All (λ t. t.variable < self.old.variables) form.terms }
        ensures loaded { self.new.loaded ≡ self.old.loaded }
        ensures forms { OnOk result (self.new.forms ≡ self.old.forms ++ Some form ∷ []) }
        ensures unchanged { OnErr result (self.new.forms ≡ self.old.forms) }
        ensures variables { OnOk result (self.new.variables ≡ self.old.variables) }
        ensures visits { OnOk result (self.new.visits ≡ self.old.visits) }
        ensures ready { OnOk result (self.new.spent ≡ false) }
    {
        self.spent = true;
        self.engine.insert(form)?;
        self.spent = false;
        Ok(())
    }

    /// Removes a live constraint. Its number stays empty. Nothing is allocated.
    pub(crate) fn remove(&mut self, number: usize)
        requires ready { self.old.spent ≡ false }
        requires number { number < length self.old.forms }
        ensures loaded { self.new.loaded ≡ self.old.loaded }
        ensures forms { self.new.forms ≡ slice_set self.old.forms number None }
        ensures variables { self.new.variables ≡ self.old.variables }
        ensures visits { self.new.visits ≡ self.old.visits }
        ensures ready { self.new.spent ≡ false }
    {
        let Some(form) = self.engine.take(number) else {
            return;
        };
        if number < self.removed.len() {
            self.removed.set(number, Removed::One(form));
        }
    }

    /// The live constraint with this number.
    pub(crate) fn form(&self, number: usize) -> Option<&Normal>
        requires { number < length self.now.forms }
        ensures some { IfSome result (λ f. slice_index_or self.now.forms number None ≡ Some f.now) }
        ensures none { IfNone result (slice_index_or self.now.forms number None ≡ None) }
    {
        self.engine.form(number)
    }

    /// How many numbers were given to live constraints.
    pub(crate) fn len(&self) -> usize
        ensures { result ≡ length self.now.forms }
    {
        self.engine.len()
    }

    /// The number of visits of the last `rup`.
    pub(crate) fn visits(&self) -> u64
        ensures { result ≡ self.now.visits }
    {
        self.engine.visits()
    }

    /// Whether propagation over the live constraints and the negation of the goal meets a conflict,
    /// or the goal has degree 0.
    pub(crate) fn rup(&mut self, goal: &Normal) -> Result<bool, AllocError>
        requires ready { self.old.spent ≡ false }
        requires inside { All (λ t. t.variable < self.old.variables) goal.now.terms }
        ensures loaded { self.new.loaded ≡ self.old.loaded }
        ensures live { OnOk result (AreLive self.old.forms self.old.variables self.new) }
        ensures implied { IfOk result (λ found. found ≡ true →
            IsRup (Live self.old.forms) goal.now) }
        ensures not_implied { IfOk result (λ found. found ≡ false →
            IsRup (Live self.old.forms) goal.now → ⊥) }

        // Upper and lower bounds on the number of visits.
        ensures unasked { goal.now.degree ≡ 0 → self.new.visits ≡ 0 }
        ensures most { self.new.visits ≤ 3 * (sum_by terms_in self.old.forms + length
            goal.now.terms) + (sum_by one_in self.old.forms + 1) }
        ensures conflict { IfOk result (λ found. found ≡ true → (goal.now.degree ≡ 0) ⊎
            ((m : MeetsConflict (With (Live self.old.forms) (negation_of goal.now)) []) ×
            (length m.list ≤ self.new.visits))) }
        ensures completion { IfOk result (λ found. found ≡ false → (list : List NumberedLiteral) ×
            IsCompletion (With (Live self.old.forms) (negation_of goal.now)) [] list ×
            (length list ≤ self.new.visits)) }
    {
        self.spent = true;
        let found = self.engine.rup(goal)?;
        self.spent = false;
        Ok(found)
    }

    /// The values of the completion of given literals over the live constraints, or `None` if a
    /// conflict is met. There is one value for each variable.
    pub(crate) fn complete(
        &mut self,
        given: &[NumberedLiteral],
    ) -> Result<Option<Vec<Option<bool>>>, AllocError>
        requires ready { self.old.spent ≡ false }
        requires inside { All (λ l. l.variable < self.old.variables) given.now }
        ensures loaded { self.new.loaded ≡ self.old.loaded }
        ensures live { OnOk result (AreLive self.old.forms self.old.variables self.new) }
        ensures visits { OnOk result (self.new.visits ≡ self.old.visits) }
        ensures conflict { IfOk result (λ found.
            IfNone found (MeetsConflict (Live self.old.forms) given.now)) }
        ensures no_conflict { IfOk result (λ found.
            IfSome found (λ values. MeetsConflict (Live self.old.forms) given.now → ⊥)) }
        ensures count { IfOk result (λ found.
            IfSome found (λ values. length values.items ≡ self.old.variables)) }
        ensures completed { IfOk result (λ found.
            IfSome found (λ values. (list : List NumberedLiteral) ×
            IsCompletion (Live self.old.forms) given.now list × Gives list values.items)) }
    {
        self.spent = true;
        let values = self.engine.complete(given)?;
        self.spent = false;
        Ok(values)
    }
}
