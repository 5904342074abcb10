//! A clause that is asked about. Its literals are assigned as false, in place of its negation in
//! the store.

#![tactic(auto, using(crate::proofs::rulesets::Engine::denial))]

ghost use Rattle.std.specs.Prelude.{◌≡◌, ◌<◌, ◌≤◌, ◌++◌, ◌∷◌, [], true, false, All, length, OnOk, OnErr};
ghost use Rattle.pb_normal.specs.meaning.Form.{IsNormal};
ghost use Rattle.pb_normal.specs.meaning.Rules.{negation};
ghost use Rattle.pb_propagate.specs.engine.engine.Denial.{IsDisjunction, IsOne, IsHit, denial_of, AreDenied, RunRefutes};
ghost use Rattle.pb_propagate.specs.engine.engine.Lists.{has, Derives, Conflicts};
ghost use Rattle.pb_propagate.specs.engine.engine.Counts.{Adopted};
ghost use Rattle.pb_propagate.specs.engine.engine.Progress.{IfFound, IfNotFound, AreSettled, RunIsOpen, shapes_in, list_of, RunVisitsEach, RunCosts};
ghost use Rattle.pb_propagate.specs.engine.engine.Propagation.{IsReadyRun, Propagates, RunGains, RunPuts};
ghost use Rattle.pb_propagate.specs.engine.engine.Fields.{IsSound};
ghost use Rattle.pb_propagate.specs.engine.clauses.Walked.{heads_at};
ghost use Rattle.pb_propagate.specs.engine.clauses.Shapes.{all_of};

use crate::clauses::Clauses;
use crate::heads::{Heads, Order};
use crate::mark::Mark;
use crate::rests::Rests;
use crate::run::{Run, propagate, try_put};
use crate::store::Store;
use crate::store::sorted_form::term_of;
use pb_normal::{Normal, NumberedLiteral, Terms};
use std::alloc::AllocError;

/// Whether a form is a clause: its degree and all its coefficients are 1.
pub fn is_disjunction(form: &Normal) -> bool
    ensures yes { result ≡ true → IsDisjunction form.now }
    ensures no { result ≡ false → IsDisjunction form.now → ⊥ }
    ensures normal { IsNormal form.now }
{
    if form.degree() != 1 {
        return false;
    }
    let entries = form.terms();
    'entries: for i in 0..entries.len() {
        if entries.get(i).coefficient != 1 {
            return false;
        }
    }
    true
}

// Visits a literal of the clause, and assigns it as false. Returns whether it is true, or a form is
// then falsified.
fn deny(
    store: &Store,
    rests: &Rests,
    run: &mut Run,
    literal: NumberedLiteral,
) -> Result<bool, AllocError>
    requires store { IsSound store.now }
    requires inside { literal.variable < store.now.variables }
    requires sums { RunIsOpen store.now run.old }
    ensures puts { OnOk result (RunPuts store.now rests.now 1 run.old run.new) }
    ensures costs { OnErr result (RunCosts store.now rests.now 0 1 run.old run.new) }
    ensures candidates { run.new.candidates ≡ run.old.candidates }
    ensures adopted { OnOk result (Adopted (negation literal) (list_of run.old) (list_of run.new)) }
    ensures sums { IfNotFound result (RunIsOpen store.now run.new) }
    ensures denied { IfNotFound result (has (list_of run.new) (negation literal) ≡ true) }
    ensures conflict { IfFound result (IsHit (shapes_in store.now) (list_of run.new) literal) }
    ensures found { OnOk result (RunVisitsEach run.old run.new) }
{
    run.visits.count();
    if run.assignment.contains(literal) {
        return Ok(true);
    }
    let found = try_put(store, rests, run, literal.negation(), usize::MAX)?;
    Ok(found)
}

// The same for each literal of the clause, up to a conflict.
fn deny_all(store: &Store, rests: &Rests, run: &mut Run, goal: &Terms) -> Result<bool, AllocError>
    requires store { IsSound store.now }
    requires inside { All (λ e. e.variable < store.now.variables) goal.now }
    requires light { All IsOne goal.now }
    requires sums { RunIsOpen store.now run.old }
    ensures puts { OnOk result (
        RunPuts store.now rests.now (length goal.now) run.old run.new) }
    ensures costs { OnErr result (
        RunCosts store.now rests.now 0 (length goal.now) run.old run.new) }
    ensures candidates { run.new.candidates ≡ run.old.candidates }
    ensures derived { OnOk result (
        Derives (denial_of goal.now ∷ []) (list_of run.old) (list_of run.new)) }
    ensures sums { IfNotFound result (RunIsOpen store.now run.new) }
    ensures denied { IfNotFound result (AreDenied goal.now (list_of run.new)) }
    ensures conflict { IfFound result (
        Conflicts (denial_of goal.now ∷ shapes_in store.now) (list_of run.new)) }
    ensures found { OnOk result (RunVisitsEach run.old run.new) }
{
    'literals: for i in 0..goal.len() {
        let entry = goal.get(i);
        let term = term_of(entry);
        if deny(store, rests, run, term.literal)? {
            return Ok(true);
        }
    }
    Ok(false)
}

/// Propagates with the literals of a clause assigned as false, from a list that is walked. Returns
/// whether a conflict is met.
pub fn refute(
    store: &Store,
    rests: &Rests,
    clauses: &mut Clauses,
    run: &mut Run,
    goal: &Terms,
    marks: &mut Vec<Mark>,
) -> Result<bool, AllocError>
    requires store { IsSound store.now }
    requires inside { All (λ e. e.variable < store.now.variables) goal.now }
    requires light { All IsOne goal.now }
    requires work { (run.old.work.items ≡ []) × (run.old.next ≡ 0) }
    requires ready { IsReadyRun store.now rests.now clauses.old []
        (heads_at (length (list_of run.old))) run.old }
    ensures literals { clauses.new.blocks.literals ≡ clauses.old.blocks.literals }
    ensures left { OnOk result (
        Propagates store.now rests.now clauses.old clauses.new run.old run.new) }
    ensures costs { RunRefutes store.now rests.now clauses.old (length goal.now) run.old run.new }
    ensures derived { OnOk result (
        Derives (all_of store.now clauses.old ++ denial_of goal.now ∷ [])
        (list_of run.old) (list_of run.new)) }
    ensures conflict { IfFound result (
        Conflicts (all_of store.now clauses.old ++ denial_of goal.now ∷ []) (list_of run.new)) }
    ensures settled { IfNotFound result (
        AreSettled (all_of store.now clauses.old ++ denial_of goal.now ∷ []) (list_of run.new)) }
    ensures gains { OnOk result (RunGains run.old run.new) }
{
    let count = run.assignment.list.len();
    if deny_all(store, rests, run, goal)? {
        return Ok(true);
    }
    let none = Vec::new(*store.stored.allocator());
    let found = propagate(
        store,
        rests,
        clauses,
        run,
        none.as_slice(),
        Order::ShortFirst,
        Heads::at(count),
        marks,
    )?;
    Ok(found)
}
