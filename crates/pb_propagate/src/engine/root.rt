//! The root: what the live forms force with nothing assumed.

#![tactic(auto, using(crate::proofs::rulesets::Engine::root))]

ghost use Rattle.std.specs.Prelude.{◌≡◌, ℕ, List, ◌+◌, ◌*◌, ◌<◌, ◌⊎◌, ◌++◌, ◌∷◌, [], length, slice_set, slice_index_or, IfOk, OnOk};
ghost use Rattle.pb_propagate.specs.declared.store.Store.{Store};
ghost use Rattle.pb_propagate.specs.declared.clauses.Clauses.{Clauses};
ghost use Rattle.pb_propagate.specs.engine.engine.Lists.{Shape, open_sum};
ghost use Rattle.pb_propagate.specs.engine.engine.Progress.{RunIsUndone, IfFound, IfNotFound};
ghost use Rattle.pb_propagate.specs.engine.engine.Counts.{Grown, IsAbsent, IsCalm, IsUndone};
ghost use Rattle.pb_propagate.specs.engine.engine.Propagation.{GoesBack, IsSaved};
ghost use Rattle.pb_propagate.specs.engine.engine.Fields.{shapes_of, IsSound};
ghost use Rattle.pb_propagate.specs.engine.engine.Root.{IsRootOf, WasRootOf, IsStanding, IsVacant, IsKeptConflict, RunIsWidened, UpdateCosts, HasMet, HasUpdated};
ghost use Rattle.pb_propagate.specs.engine.clauses.Runs.{AreReady, IsRunning};
ghost use Rattle.pb_propagate.specs.engine.clauses.Shapes.{AreJoined, clauses_of, all_of};

use crate::assignment::Assignment;
use crate::clauses::Clauses;
use crate::column::Column;
use crate::engine::conflict::Conflict;
use crate::engine::visits::Visits;
use crate::heads::{Heads, Order, Walked};
use crate::mark::Mark;
use crate::open_sums::OpenSums;
use crate::rests::Rests;
use crate::run::{Run, place_of, propagate, queue, undo_forms};
use crate::store::Store;
use crate::store::opened::open_under;
use crate::store::units::only_literal;
use crate::waiting::Waiting;
use std::alloc::{AllocError, Global};

/// The literals that the live forms force with nothing assumed, and the state of each form under
/// them. Questions extend it to the forms that were added since the last one, and continue from
/// there.
#[derive(Drop)]
pub struct Root {
    pub run: Run,
    pub rests: Rests,
    // The forms that may force something, or are falsified. No question has visited them since they
    // were added.
    pub waiting: Waiting,
    // How far the literals are walked.
    pub walked: Walked,
    // The marks of a question, which nobody reads.
    pub spare: Vec<Mark>,
    // For each literal, by its occurrence list, the last slot that took a form of one term for it.
    // There are none after the last literal with such a form.
    pub units: Vec<u32>,
}

/// Lowers the open sum of a form to that under the list. The form is put to work if it may then
/// propagate or is falsified.
pub fn open_form(store: &Store, run: &mut Run, form: usize) -> Result<(), AllocError>
    requires store { IsSound store.now }
    requires form { form < length store.now.stored.items }
    requires opens { length run.old.opens ≡ length store.now.stored.items }
    requires values { length run.old.assignment.values.items ≡ store.now.variables }
    ensures opens { OnOk result ((d : Shape) →
        run.new.opens ≡ slice_set run.old.opens form
        (open_sum run.old.assignment.list.items
        (slice_index_or (shapes_of store.now.stored.items) form d).terms)) }
    ensures trail { OnOk result (run.new.trail.items ≡ run.old.trail.items ++ form ∷ []) }
    ensures work { OnOk result (Grown ((d : Shape) (c : ℕ) →
        IsCalm (slice_index_or (shapes_of store.now.stored.items) form d)
        (open_sum run.old.assignment.list.items
        (slice_index_or (shapes_of store.now.stored.items) form d).terms) c) form run.old.work.items
        run.new.work.items) }
    ensures candidates { run.new.candidates ≡ run.old.candidates }
    ensures assignment { run.new.assignment ≡ run.old.assignment }
    ensures next { run.new.next ≡ run.old.next }
    ensures visits { run.new.visits ≡ run.old.visits }
{
    let kept = &store.stored[form];
    let opened = open_under(kept, run.assignment.values.as_slice());
    run.trail.push(form)?;
    queue(&mut run.work, form, opened, kept.bound())?;
    run.opens.set(form, opened);
    Ok(())
}

// Adds an entry to each list if the slot is new.
fn widen_run(
    run: &mut Run,
    rests: &mut Rests,
    waiting: &mut Waiting,
    slot: usize,
) -> Result<(), AllocError>
    ensures { OnOk result (
        RunIsWidened run.old run.new rests.old rests.new waiting.old waiting.new slot) }
{
    if slot < run.opens.len() {
        return Ok(());
    }
    run.opens.push_empty()?;
    run.candidates.push_empty()?;
    rests.opens.push_empty()?;
    rests.starts.push_empty()?;
    waiting.widen()?;
    Ok(())
}

// The form waits if it is on the work list.
fn defer(waiting: &mut Waiting, work: &[usize], slot: usize)
    requires inside { slot < length waiting.old.positions }
    requires absent { IsAbsent waiting.old.list.items 0 slot }
    ensures list { ((work.now ≡ []) × (waiting.new.list.items ≡ waiting.old.list.items)) ⊎
        (waiting.new.list.items ≡ waiting.old.list.items ++ slot ∷ []) }
    ensures positions { length waiting.new.positions ≡ length waiting.old.positions }
{
    if work.is_empty() {
        return;
    }
    waiting.put(slot);
}

// Questions return to the state of the run from now on.
fn save(run: &mut Run, rests: &mut Rests)
    requires opens { length rests.old.opens ≡ length run.old.opens }
    requires starts { length rests.old.starts ≡ length run.old.candidates }
    requires sizes { length run.old.candidates ≡ length run.old.opens }
    requires undone { (forms : List Shape) × (length forms ≡ length run.old.opens) ×
        IsUndone rests.old forms run.old.opens run.old.candidates run.old.trail.items 0 }
    ensures { IsSaved run.old run.new rests.new }
{
    'forms: for i in 0..run.trail.len() {
        let form = run.trail[i];
        rests.opens.set(form, run.opens.get(form));
        rests.starts.set(form, run.candidates.get(form));
    }
    run.trail.clear();
    run.work.clear();
    run.next = 0;
}

// A run over no forms and no variables, with memory for that many of both.
fn run_for(alloc: Global, variables: usize, forms: usize) -> Result<Run, AllocError>
    ensures opens { IfOk result (λ run. run.opens ≡ []) }
    ensures candidates { IfOk result (λ run. run.candidates ≡ []) }
    ensures assignment { IfOk result (λ run. (run.assignment.values.items ≡ []) ×
        (run.assignment.list.items ≡ [])) }
    ensures work { IfOk result (λ run. run.work.items ≡ []) }
    ensures trail { IfOk result (λ run. run.trail.items ≡ []) }
    ensures next { IfOk result (λ run. run.next ≡ 0) }
{
    let opens = OpenSums::with_capacity(alloc, forms)?;
    let candidates = Column::with_capacity(alloc, forms)?;
    let assignment = Assignment::with_capacity(alloc, variables)?;
    Ok(Run {
        opens,
        candidates,
        assignment,
        work: Vec::new(alloc),
        next: 0,
        trail: Vec::new(alloc),
        visits: Visits::none(),
    })
}

impl Root {
    /// The root of no forms, over no variables.
    pub fn new(alloc: Global) -> Root
        ensures { (store : Store) (clauses : Clauses) → store.stored.items ≡ [] →
            store.variables ≡ 0 → IsRootOf store clauses result }
    {
        Root {
            run: Run {
                opens: OpenSums::new(alloc),
                candidates: Column::new(alloc),
                assignment: Assignment::new(alloc),
                work: Vec::new(alloc),
                next: 0,
                trail: Vec::new(alloc),
                visits: Visits::none(),
            },
            rests: Rests::none(alloc),
            waiting: Waiting::new(alloc),
            walked: Walked::none(alloc),
            spare: Vec::new(alloc),
            units: Vec::new(alloc),
        }
    }

    /// The root of no forms, over no variables, with memory for that many of both.
    pub fn with_capacity(alloc: Global, variables: usize, forms: usize) -> Result<Root, AllocError>
        ensures { IfOk result (λ root. (store : Store) (clauses : Clauses) →
            store.stored.items ≡ [] → store.variables ≡ 0 → IsRootOf store clauses root) }
    {
        let run = run_for(alloc, variables, forms)?;
        let rests = Rests::with_capacity(alloc, forms)?;
        let waiting = Waiting::with_capacity(alloc, forms)?;
        Ok(Root {
            run,
            rests,
            waiting,
            walked: Walked::none(alloc),
            spare: Vec::new(alloc),
            units: Vec::new(alloc),
        })
    }

    /// Remembers the form of a slot as the unit of its literal, if it has one term.
    pub fn note(&mut self, store: &Store, slot: usize) -> Result<(), AllocError>
        requires slot { slot < length store.now.stored.items }
        requires sound { IsSound store.now }
        ensures { (self.new.run ≡ self.old.run) × (self.new.rests ≡ self.old.rests) ×
            (self.new.waiting ≡ self.old.waiting) × (self.new.walked ≡ self.old.walked) }
    {
        // There are fewer than 2^64 lists.
        let _ = store.occurrences.len();
        let Some(literal) = only_literal(&store.stored[slot]) else {
            return Ok(());
        };
        let place = place_of(literal);
        if place >= self.units.len() {
            self.units.resize(place + 1, u32::MAX)?;
        }
        self.units[place] = u32::try_from(slot).unwrap_or(u32::MAX);
        Ok(())
    }

    /// A form that was added waits for the next question, unless it is a clause with watches.
    pub fn add(&mut self, store: &Store, clauses: &Clauses, slot: usize) -> Result<(), AllocError>
        requires store { IsSound store.now }
        requires joined { AreJoined (shapes_of store.now.stored.items) (clauses_of clauses.now) }
        requires ready { AreReady clauses.now }
        requires widths { length clauses.now.lists ≡ 4 * store.now.variables }
        requires known { length clauses.now.blocks.literals ≡ length store.now.stored.items }
        requires slot { slot < length store.now.stored.items }
        requires gained { WasRootOf store.now clauses.now slot self.old }
        ensures { OnOk result (IsRootOf store.now clauses.now self.new) }
    {
        widen_run(&mut self.run, &mut self.rests, &mut self.waiting, slot)?;
        if clauses.is_filled(slot) {
            return Ok(());
        }
        open_form(store, &mut self.run, slot)?;
        defer(&mut self.waiting, self.run.work.as_slice(), slot);
        save(&mut self.run, &mut self.rests);
        Ok(())
    }

    /// Propagates the forms that wait. Returns whether a conflict is met. Then the conflict is
    /// kept, and the root goes back: the same forms wait.
    pub fn update(
        &mut self,
        store: &Store,
        clauses: &mut Clauses,
        conflict: &mut Conflict,
    ) -> Result<bool, AllocError>
        requires standing { IsStanding store.now clauses.old self.old }
        requires vacant { IsVacant store.now.variables conflict.old }
        ensures literals { clauses.new.blocks.literals ≡ clauses.old.blocks.literals }
        ensures lists { OnOk result (
            length clauses.new.lists ≡ length clauses.old.lists) }
        ensures costs { UpdateCosts store.now clauses.old self.old self.new }
        ensures rooted { OnOk result (IsRootOf store.now clauses.new self.new) }
        ensures kept { OnOk result (
            IsKeptConflict (all_of store.now clauses.old) store.now.variables conflict.new) }
        ensures met { IfFound result (
            HasMet store.now clauses.old clauses.new self.old self.new conflict.new) }
        ensures updated { IfNotFound result (
            HasUpdated store.now clauses.old clauses.new self.old self.new) }
    {
        let count = self.run.assignment.list.len();
        let found = propagate(
            store,
            &self.rests,
            clauses,
            &mut self.run,
            self.waiting.list.as_slice(),
            Order::ByLiteral,
            self.walked.heads,
            &mut self.walked.marks,
        )?;
        if found {
            conflict.note(&self.run.assignment)?;
            back(store, &self.rests, clauses, &mut self.run, count);
            self.walked.marks.truncate(count);
            return Ok(true);
        }
        save(&mut self.run, &mut self.rests);
        let whole = self.run.assignment.list.len();
        self.walked.finish(whole)?;
        self.waiting.clear();
        Ok(false)
    }
}

/// Undoes a question, back to the first literals of the list.
pub fn back(store: &Store, rests: &Rests, clauses: &mut Clauses, run: &mut Run, count: usize)
    requires opens { length run.old.opens ≡ length store.now.stored.items }
    requires candidates { length run.old.candidates ≡ length store.now.stored.items }
    requires undone { RunIsUndone store.now rests.now 0 run.old }
    requires running { IsRunning run.old.assignment.values.items clauses.old }
    ensures { GoesBack store.now rests.now clauses.old clauses.new count run.old run.new }
{
    undo_forms(store, rests, run);
    clauses.rest();
    run.assignment.cut(count);
    run.work.clear();
    run.trail.clear();
    run.next = 0;
}
