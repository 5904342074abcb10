//! Literals are assigned, and the constraints that they touch are visited.

#![tactic(auto, using(crate::proofs::rulesets::Engine::run))]

ghost use Rattle.std.specs.Prelude.{◌≡◌, ◌≤◌, ◌+◌, ◌-◌, ◌*◌, ◌^◌, ◌<◌, ◌++◌, ◌∷◌, [], true, false, All, length, OnOk, OnErr, sum, sum_by};
ghost use Rattle.pb_normal.specs.declared.numbered.NumberedLiteral.{NumberedLiteral};
ghost use Rattle.pb_normal.specs.meaning.Rules.{negation};
ghost use Rattle.pb_propagate.specs.engine.engine.Lists.{has, Conflicts};
ghost use Rattle.pb_propagate.specs.engine.engine.Counts.{place, Grown, IsAbsent, Adopted};
ghost use Rattle.pb_propagate.specs.engine.engine.Progress.{progress, IfFound, IfNotFound, RunIsCounted, RunIsOpen, RunIsTidy, shapes_in, list_of, RunIsCalm, RunIsUndone, RunIsShort, RunFits, RunReasons, RunRecords, RunLowers, RunCosts, RunSpends};
ghost use Rattle.pb_propagate.specs.engine.engine.Propagation.{IsReadyRun, Propagates, RunGains, HasPropagated, RunPuts, RunVisits};
ghost use Rattle.pb_propagate.specs.engine.clauses.Marks.{KeepsMarks};
ghost use Rattle.pb_propagate.specs.engine.engine.Fields.{shapes_of, IsSound};
ghost use Rattle.pb_propagate.specs.engine.engine.Links.{terms_at};
ghost use Rattle.pb_propagate.specs.engine.clauses.Shapes.{all_of};

use crate::assignment::Assignment;
use crate::clauses::Clauses;
use crate::column::Column;
use crate::engine::visits::Visits;
use crate::heads::{Heads, Order, mark, next_walk};
use crate::mark::Mark;
use crate::open_sums::OpenSums;
use crate::rests::Rests;
use crate::store::stored_form::is_below;
use crate::store::{Store, Visited, visit, visit_term, weight_of};
use crate::walk::walk;
use pb_normal::NumberedLiteral;
use std::alloc::AllocError;

/// A propagation in progress.
#[derive(Drop)]
pub struct Run {
    pub opens: OpenSums,
    pub candidates: Column<usize>,
    pub assignment: Assignment,
    pub work: Vec<usize>,
    pub next: usize,
    // The forms that the propagation has changed.
    pub trail: Vec<usize>,
    pub visits: Visits,
}

// Adds a form to the trail if its open sum is still the one at rest.
fn note(trail: &mut Vec<usize>, form: usize, opened: u128, rest: u128) -> Result<(), AllocError>
    ensures { OnOk result (Grown (opened ≡ rest → ⊥) form trail.old.items trail.new.items) }
{
    if opened < rest {
        return Ok(());
    }
    trail.push(form)?;
    Ok(())
}

/// Adds a form to the work list if its open sum is below its bound.
pub fn queue(work: &mut Vec<usize>, form: usize, left: u128, bound: u128) -> Result<(), AllocError>
    ensures { OnOk result (Grown (bound ≤ left) form work.old.items work.new.items) }
{
    if left >= bound {
        return Ok(());
    }
    work.push(form)?;
    Ok(())
}

/// Subtracts a visited entry from its form's open sum. Adds the form to the work list if it may
/// then propagate or is falsified. Returns whether it is falsified.
fn lower(store: &Store, rests: &Rests, run: &mut Run, entry: Visited) -> Result<bool, AllocError>
    requires form { entry.form < length store.now.stored.items }
    requires index { entry.index < length (terms_at (shapes_of store.now.stored.items) entry.form) }
    requires inside { entry.form < length run.old.opens }
    requires fits { RunFits store.now entry run.old }
    ensures lowers { OnOk result (RunLowers store.now rests.now entry run.old run.new) }
    ensures falsified { IfFound result (RunIsShort store.now rests.now entry.form run.new) }
    ensures candidates { run.new.candidates ≡ run.old.candidates }
    ensures assignment { run.new.assignment ≡ run.old.assignment }
    ensures next { run.new.next ≡ run.old.next }
    ensures visits { run.new.visits ≡ run.old.visits }
{
    let kept = &store.stored[entry.form];
    let sums = kept.sums();
    let opened = run.opens.get(entry.form);
    let rest = rests.open(entry.form, sums.total);
    note(&mut run.trail, entry.form, opened, rest)?;
    let left = opened - weight_of(kept, &entry);
    queue(&mut run.work, entry.form, left, sums.bound)?;
    run.opens.set(entry.form, left);
    Ok(is_below(left, sums.degree))
}

/// The index of a literal's occurrence list.
pub fn place_of(literal: NumberedLiteral) -> usize
    requires fits { place literal < 2 ^ 64 }
    ensures place { result ≡ place literal }
{
    if literal.negated {
        2 * literal.variable + 1
    } else {
        2 * literal.variable
    }
}

/// Assigns a literal that the form of the slot `reason` forces, and subtracts the entries of its
/// negation from the open sums, up to the first form that is then falsified. Returns whether there
/// is one.
pub fn put(
    store: &Store,
    rests: &Rests,
    run: &mut Run,
    literal: NumberedLiteral,
    reason: usize,
) -> Result<bool, AllocError>
    requires store { IsSound store.now }
    requires inside { literal.variable < store.now.variables }
    requires sums { RunIsOpen store.now run.old }
    requires absent { has (list_of run.old) literal ≡ false }
    requires not_falsified { has (list_of run.old) (negation literal) ≡ false }
    ensures puts { OnOk result (RunPuts store.now rests.now 0 run.old run.new) }
    ensures costs { OnErr result (RunCosts store.now rests.now 0 0 run.old run.new) }
    ensures candidates { run.new.candidates ≡ run.old.candidates }
    ensures list { OnOk result ((list_of run.new) ≡ list_of run.old ++ literal ∷ []) }
    ensures reason { OnOk result (RunRecords reason literal run.old run.new) }
    ensures counted { IfNotFound result (RunIsCounted store.now run.new) }
    ensures conflict { IfFound result (Conflicts (shapes_in store.now) (list_of run.new)) }
{
    run.assignment.put(literal, reason)?;
    let entries = store.occurrences.list(place_of(literal.negation()));
    'entries: for j in 0..entries.len() {
        let entry = visit(entries, j, &mut run.visits);
        if lower(store, rests, run, entry)? {
            return Ok(true);
        }
    }
    Ok(false)
}

/// Assigns a literal if its variable has no value. Returns whether a form is then falsified.
pub fn try_put(
    store: &Store,
    rests: &Rests,
    run: &mut Run,
    literal: NumberedLiteral,
    reason: usize,
) -> Result<bool, AllocError>
    requires store { IsSound store.now }
    requires inside { literal.variable < store.now.variables }
    requires sums { RunIsOpen store.now run.old }
    ensures puts { OnOk result (RunPuts store.now rests.now 0 run.old run.new) }
    ensures costs { OnErr result (RunCosts store.now rests.now 0 0 run.old run.new) }
    ensures candidates { run.new.candidates ≡ run.old.candidates }
    ensures adopted { OnOk result (Adopted literal (list_of run.old) (list_of run.new)) }
    ensures reason { OnOk result (RunRecords reason literal run.old run.new) }
    ensures sums { IfNotFound result (RunIsOpen store.now run.new) }
    ensures conflict { IfFound result (Conflicts (shapes_in store.now) (list_of run.new)) }
{
    if run.assignment.contains(literal) {
        return Ok(false);
    }
    if run.assignment.contains(literal.negation()) {
        return Ok(false);
    }
    let found = put(store, rests, run, literal, reason)?;
    Ok(found)
}

/// Visits a form until its candidate requires nothing. Returns whether it or another form is
/// falsified. Waiting forms are visited later.
fn visit_form(
    store: &Store,
    rests: &Rests,
    run: &mut Run,
    form: usize,
    waiting: &[usize],
) -> Result<bool, AllocError>
    requires store { IsSound store.now }
    requires form { form < length store.now.stored.items }
    requires sums { RunIsOpen store.now run.old }
    requires tidy { RunIsTidy store.now rests.now waiting.now form run.old }
    requires there { IsAbsent run.old.work.items 0 form → ⊥ }
    ensures visits { OnOk result (RunVisits store.now rests.now run.old run.new) }
    ensures costs { OnErr result (RunCosts store.now rests.now 0 1 run.old run.new) }
    ensures counted { IfNotFound result (RunIsCounted store.now run.new) }
    ensures tidy { IfNotFound result (RunIsCalm store.now rests.now waiting.now run.new) }
    ensures conflict { IfFound result (Conflicts (shapes_in store.now) (list_of run.new)) }
    ensures bounded { sum run.new.candidates ≤ sum_by (λ f. length f.terms) (shapes_in store.now) }
{
    let kept = &store.stored[form];
    let degree = kept.degree();
    'terms: loop {
        let opened = run.opens.get(form);
        let falsified = is_below(opened, degree);
        if falsified {
            return Ok(true);
        }
        let candidate = run.candidates.get(form);
        if candidate >= kept.len() {
            return Ok(false);
        }
        let term = visit_term(kept, candidate, &mut run.visits);
        let demands = is_below(opened, degree + term.coefficient);
        if !demands {
            return Ok(false);
        }
        let found = try_put(store, rests, run, term.literal, form)?;
        run.candidates.set(form, candidate + 1);
        if found {
            return Ok(true);
        }
    }
}

/// Visits the forms of the work list, then the clauses in which a falsified literal is watched, in
/// the given order. When none is left, the next waiting form is taken, until none waits. A unit
/// that is falsified so ends a question before further clauses are visited. The literals up to
/// `from` are walked already, and each literal that is put gets a mark. Returns whether a conflict
/// was met.
pub fn propagate(
    store: &Store,
    rests: &Rests,
    clauses: &mut Clauses,
    run: &mut Run,
    waiting: &[usize],
    order: Order,
    from: Heads,
    marks: &mut Vec<Mark>,
) -> Result<bool, AllocError>
    requires store { IsSound store.now }
    requires waiting { All (λ s. s < length store.now.stored.items) waiting.now }
    requires ready { IsReadyRun store.now rests.now clauses.old waiting.now from run.old }
    ensures literals { clauses.new.blocks.literals ≡ clauses.old.blocks.literals }
    ensures left { OnOk result (
        Propagates store.now rests.now clauses.old clauses.new run.old run.new) }
    ensures marks { OnOk result (KeepsMarks clauses.old clauses.new (list_of run.old)
        (list_of run.new) marks.old.items marks.new.items) }
    ensures costs { RunSpends store.now rests.now clauses.old from waiting.now run.old run.new }
    ensures reasons { OnOk result (RunReasons (all_of store.now clauses.old) run.old run.new) }
    ensures gains { OnOk result (RunGains run.old run.new) }
    ensures conflict { IfFound result (Conflicts (all_of store.now clauses.old) (list_of run.new)) }
    ensures settled { IfNotFound result (HasPropagated store.now rests.now clauses.old clauses.new
        waiting.now from run.old run.new) }
{
    let mut taken = 0;
    let mut heads = from;
    let mut marked = run.assignment.list.len();
    'work: loop {
        if run.next < run.work.len() {
            let form = run.work[run.next];
            run.next += 1;
            if visit_form(store, rests, run, form, &waiting[taken..])? {
                return Ok(true);
            }
        } else if let Some(ahead) = next_walk(order, heads, run.assignment.list.as_slice()) {
            if walk(store, rests, clauses, run, ahead.code)? {
                return Ok(true);
            }
            let count = run.assignment.list.len();
            mark(marks, count - marked, heads)?;
            marked = count;
            heads = ahead.heads;
        } else if taken < waiting.len() {
            run.trail.push(waiting[taken])?;
            run.work.push(waiting[taken])?;
            taken += 1;
        } else {
            return Ok(false);
        }
    }
}

/// Restores the forms that the propagation changed. No other form is visited, and nothing is
/// allocated.
pub fn undo_forms(store: &Store, rests: &Rests, run: &mut Run)
    requires opens { length run.old.opens ≡ length store.now.stored.items }
    requires candidates { length run.old.candidates ≡ length store.now.stored.items }
    requires undone { RunIsUndone store.now rests.now 0 run.old }
    ensures opens { length run.new.opens ≡ length store.now.stored.items }
    ensures candidates { length run.new.candidates ≡ length store.now.stored.items }
    ensures work { run.new.work ≡ run.old.work }
    ensures trail { run.new.trail ≡ run.old.trail }
    ensures assignment { run.new.assignment ≡ run.old.assignment }
    ensures visits { run.new.visits ≡ run.old.visits }
    ensures undone { RunIsUndone store.now rests.now (length run.new.trail.items) run.new }
{
    'forms: for i in 0..run.trail.len() {
        let form = run.trail[i];
        let opened = rests.open(form, store.stored[form].total());
        run.opens.set(form, opened);
        run.candidates.set(form, rests.start(form));
    }
}
