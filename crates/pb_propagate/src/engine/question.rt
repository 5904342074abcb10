//! A question that continues from the root.

#![tactic(auto, using(crate::proofs::rulesets::Engine::question))]

ghost use Rattle.std.specs.Prelude.{◌≡◌, All, ◌≤◌, ◌+◌, ◌*◌, ◌<◌, true, length, sum_by, OnOk, OnErr, IfOk};
ghost use Rattle.pb_propagate.specs.engine.engine.Fields.{forms_of};
ghost use Rattle.pb_normal.specs.meaning.Rules.{negation_of};
ghost use Rattle.pb_propagate.specs.engine.engine.Denial.{IsDisjunction};
ghost use Rattle.pb_propagate.specs.engine.engine.Root.{IsStanding, IsVacant, IsLeft, IsAsked, HasSameForms, terms_of_all};
ghost use Rattle.pb_propagate.specs.engine.engine.Live.{one_in};
ghost use Rattle.pb_propagate.specs.engine.engine.Progress.{list_of};
ghost use Rattle.pb_propagate.specs.engine.clauses.Shapes.{all_of};

use crate::clauses::Clauses;
use crate::engine::conflict::Conflict;
use crate::engine::denial::{is_disjunction, refute};
use crate::engine::root::{Root, back, open_form};
use crate::engine::visits::Visits;
use crate::heads::{Heads, Order};
use crate::run::propagate;
use crate::store::Store;
use crate::store::occurrence_lists::{enter, leave};
use pb_normal::Normal;
use std::alloc::AllocError;
use std::mem;

// Propagates the forms that wait, and then the one that is asked about. Returns whether a conflict
// is met.
fn pose(
    store: &mut Store,
    clauses: &mut Clauses,
    root: &mut Root,
    conflict: &mut Conflict,
    form: Normal,
) -> Result<bool, AllocError>
    requires standing { IsStanding store.old clauses.old root.old }
    requires vacant { IsVacant store.old.variables conflict.old }
    requires inside { All (λ t. t.variable < store.old.variables) form.terms }
    requires visits { root.old.run.visits ≡ length (list_of root.old.run) }
    ensures forms { OnErr result (HasSameForms store.old store.new) }
    ensures variables { store.new.variables ≡ store.old.variables }
    ensures literals { clauses.new.blocks.literals ≡ clauses.old.blocks.literals }
    ensures left { OnOk result (
        IsLeft store.old store.new clauses.old clauses.new root.new conflict.new) }
    ensures asked { IfOk result (
        IsAsked form (all_of store.old clauses.old) root.new.run.visits) }
    ensures most { root.new.run.visits ≤
        3 * (terms_of_all store.old clauses.old + length form.terms) +
        (length root.old.waiting.list.items + 1) }
{
    if root.update(store, clauses, conflict)? {
        return Ok(true);
    }
    let count = root.run.assignment.list.len();
    let number = store.stored.len();
    root.spare.clear();
    enter(store, &mut root.run, form)?;
    open_form(store, &mut root.run, number)?;
    let none = Vec::new(*store.stored.allocator());
    let found = propagate(
        store,
        &root.rests,
        clauses,
        &mut root.run,
        none.as_slice(),
        Order::ShortFirst,
        Heads::at(count),
        &mut root.spare,
    )?;
    back(store, &root.rests, clauses, &mut root.run, count);
    leave(store, &mut root.run);
    Ok(found)
}

// The same for a clause. Its literals are assigned as false, and nothing is entered into the store.
fn pose_clause(
    store: &Store,
    clauses: &mut Clauses,
    root: &mut Root,
    conflict: &mut Conflict,
    goal: &Normal,
) -> Result<bool, AllocError>
    requires standing { IsStanding store.now clauses.old root.old }
    requires vacant { IsVacant store.now.variables conflict.old }
    requires inside { All (λ t. t.variable < store.now.variables) goal.now.terms }
    requires clause { IsDisjunction goal.now }
    requires visits { root.old.run.visits ≡ length (list_of root.old.run) }
    ensures literals { clauses.new.blocks.literals ≡ clauses.old.blocks.literals }
    ensures left { OnOk result (
        IsLeft store.now store.now clauses.old clauses.new root.new conflict.new) }
    ensures asked { IfOk result (
        IsAsked (negation_of goal.now) (all_of store.now clauses.old) root.new.run.visits) }
    ensures most { root.new.run.visits ≤
        3 * (terms_of_all store.now clauses.old + length goal.now.terms) +
        (length root.old.waiting.list.items + 1) }
{
    if root.update(store, clauses, conflict)? {
        return Ok(true);
    }
    let count = root.run.assignment.list.len();
    root.spare.clear();
    let found = refute(
        store,
        &root.rests,
        clauses,
        &mut root.run,
        goal.terms(),
        &mut root.spare,
    )?;
    back(store, &root.rests, clauses, &mut root.run, count);
    Ok(found)
}

// Propagates the forms that wait, and then the negation of a goal. Returns whether a conflict is
// met.
fn question(
    store: &mut Store,
    clauses: &mut Clauses,
    root: &mut Root,
    conflict: &mut Conflict,
    goal: &Normal,
) -> Result<bool, AllocError>
    requires standing { IsStanding store.old clauses.old root.old }
    requires vacant { IsVacant store.old.variables conflict.old }
    requires inside { All (λ t. t.variable < store.old.variables) goal.now.terms }
    requires degree { 1 ≤ goal.now.degree }
    requires visits { root.old.run.visits ≡ length (list_of root.old.run) }
    ensures forms { OnErr result (HasSameForms store.old store.new) }
    ensures variables { store.new.variables ≡ store.old.variables }
    ensures literals { clauses.new.blocks.literals ≡ clauses.old.blocks.literals }
    ensures left { OnOk result (
        IsLeft store.old store.new clauses.old clauses.new root.new conflict.new) }
    ensures asked { IfOk result (
        IsAsked (negation_of goal.now) (all_of store.old clauses.old) root.new.run.visits) }
    ensures most { root.new.run.visits ≤
        3 * (terms_of_all store.old clauses.old + length goal.now.terms) +
        (length root.old.waiting.list.items + 1) }
{
    if is_disjunction(goal) {
        let found = pose_clause(store, clauses, root, conflict, goal)?;
        return Ok(found);
    }
    let Ok(negation) = goal.negation() else {
        return Err(AllocError);
    };
    let found = pose(store, clauses, root, conflict, negation)?;
    Ok(found)
}

/// Whether propagation over the live forms and the negation of a goal meets a conflict. It
/// continues from the root, each literal of which counts as a visit.
pub fn ask(
    store: &mut Store,
    clauses: &mut Clauses,
    root: &mut Root,
    conflict: &mut Conflict,
    visits: &mut Visits,
    goal: &Normal,
) -> Result<bool, AllocError>
    requires standing { IsStanding store.old clauses.old root.old }
    requires vacant { IsVacant store.old.variables conflict.old }
    requires inside { All (λ t. t.variable < store.old.variables) goal.now.terms }
    requires degree { 1 ≤ goal.now.degree }
    ensures forms { OnErr result (HasSameForms store.old store.new) }
    ensures variables { store.new.variables ≡ store.old.variables }
    ensures literals { clauses.new.blocks.literals ≡ clauses.old.blocks.literals }
    ensures left { OnOk result (
        IsLeft store.old store.new clauses.old clauses.new root.new conflict.new) }
    ensures asked { IfOk result (
        IsAsked (negation_of goal.now) (all_of store.old clauses.old) visits.new) }
    ensures most { visits.new ≤
        3 * (terms_of_all store.old clauses.old + length goal.now.terms) +
        (sum_by one_in (forms_of store.old.stored.items) + 1) }
{
    root.run.visits = Visits::of(root.run.assignment.list.len());
    let answer = question(store, clauses, root, conflict, goal);
    *visits = mem::replace(&mut root.run.visits, Visits::none());
    answer
}
