//! The completion of given literals.

#![tactic(auto, using(crate::proofs::rulesets::Engine::completion))]

ghost use Rattle.std.specs.Prelude.{◌≡◌, [], ◌*◌, ◌<◌, ◌≤◌, true, All, length, OnOk, IfOk, IfSome, IfNone};
ghost use Rattle.pb_normal.specs.declared.numbered.NumberedLiteral.{NumberedLiteral};
ghost use Rattle.pb_propagate.specs.engine.engine.Lists.{IsWithin};
ghost use Rattle.pb_propagate.specs.engine.engine.Progress.{IfFound, IfNotFound, RunIsOpen, shapes_in, list_of};
ghost use Rattle.pb_propagate.specs.engine.engine.Propagation.{IsReadyRun, Propagates, RunPuts};
ghost use Rattle.pb_propagate.specs.engine.engine.Fields.{IsSound};
ghost use Rattle.pb_propagate.specs.engine.engine.Reached.{IsFrom, HasClash, HasEnded, IsMade, IsClashed};
ghost use Rattle.pb_propagate.specs.engine.engine.Root.{IsStanding, IsVacant, IsLeft};
ghost use Rattle.pb_propagate.specs.engine.clauses.Walked.{heads_at};
ghost use Rattle.pb_propagate.specs.engine.clauses.Shapes.{all_of};

use crate::clauses::Clauses;
use crate::engine::conflict::Conflict;
use crate::engine::root::{Root, back};
use crate::heads::{Heads, Order};
use crate::mark::Mark;
use crate::rests::Rests;
use crate::run::{Run, propagate, try_put};
use crate::store::Store;
use pb_normal::NumberedLiteral;
use std::alloc::AllocError;

// Assigns the given literals after those of the list. Returns whether one of them is falsified, or
// a form is then.
fn assume(
    store: &Store,
    rests: &Rests,
    run: &mut Run,
    given: &[NumberedLiteral],
) -> Result<bool, AllocError>
    requires store { IsSound store.now }
    requires inside { All (λ l. l.variable < store.now.variables) given.now }
    requires sums { RunIsOpen store.now run.old }
    ensures puts { OnOk result (RunPuts store.now rests.now 0 run.old run.new) }
    ensures sums { IfNotFound result (RunIsOpen store.now run.new) }
    ensures clash { IfFound result (HasClash (shapes_in store.now) (list_of run.old) given.now) }
    ensures within { IfNotFound result (IsFrom (list_of run.old) given.now (list_of run.new)) }
    ensures covers { IfNotFound result (IsWithin given.now (list_of run.new)) }
{
    'given: for i in 0..given.len() {
        let literal = given[i];
        if run.assignment.contains(literal.negation()) {
            return Ok(true);
        }
        if try_put(store, rests, run, literal, usize::MAX)? {
            return Ok(true);
        }
    }
    Ok(false)
}

/// The values after the given literals are assigned and propagated, from a list that is walked, or
/// `None` if a conflict is met.
pub fn propagate_given(
    store: &Store,
    rests: &Rests,
    clauses: &mut Clauses,
    run: &mut Run,
    given: &[NumberedLiteral],
    marks: &mut Vec<Mark>,
) -> Result<Option<Vec<Option<bool>>>, AllocError>
    requires store { IsSound store.now }
    requires inside { All (λ l. l.variable < store.now.variables) given.now }
    requires ready { IsReadyRun store.now rests.now clauses.old []
        (heads_at (length (list_of run.old))) run.old }
    ensures literals { clauses.new.blocks.literals ≡ clauses.old.blocks.literals }
    ensures left { OnOk result (
        Propagates store.now rests.now clauses.old clauses.new run.old run.new) }
    ensures clash { IfOk result (λ found. IfNone found (
        HasClash (all_of store.now clauses.old) (list_of run.old) given.now)) }
    ensures ended { IfOk result (λ found. IfSome found (λ values.
        HasEnded (all_of store.now clauses.old) (list_of run.old) given.now values.items)) }
    ensures count { IfOk result (λ found. IfSome found (λ values.
        length values.items ≡ store.now.variables)) }
{
    let count = run.assignment.list.len();
    if assume(store, rests, run, given)? {
        return Ok(None);
    }
    let none = Vec::new(*store.stored.allocator());
    if propagate(
        store,
        rests,
        clauses,
        run,
        none.as_slice(),
        Order::ShortFirst,
        Heads::at(count),
        marks,
    )? {
        return Ok(None);
    }
    let mut values = Vec::new(*store.stored.allocator());
    values.extend_from_slice(run.assignment.values.as_slice())?;
    Ok(Some(values))
}

/// The values of the completion of given literals, or `None` if a conflict is met. It continues
/// from the root.
pub fn extend(
    store: &Store,
    clauses: &mut Clauses,
    root: &mut Root,
    conflict: &mut Conflict,
    given: &[NumberedLiteral],
) -> Result<Option<Vec<Option<bool>>>, AllocError>
    requires standing { IsStanding store.now clauses.old root.old }
    requires vacant { IsVacant store.now.variables conflict.old }
    requires inside { All (λ l. l.variable < store.now.variables) given.now }
    ensures literals { clauses.new.blocks.literals ≡ clauses.old.blocks.literals }
    ensures left { OnOk result (
        IsLeft store.now store.now clauses.old clauses.new root.new conflict.new) }
    ensures clash { IfOk result (λ found. IfNone found (
        IsClashed (all_of store.now clauses.old) given.now)) }
    ensures ended { IfOk result (λ found. IfSome found (λ values.
        IsMade (all_of store.now clauses.old) given.now values.items)) }
    ensures count { IfOk result (λ found. IfSome found (λ values.
        length values.items ≡ store.now.variables)) }
{
    if root.update(store, clauses, conflict)? {
        return Ok(None);
    }
    let count = root.run.assignment.list.len();
    root.spare.clear();
    let values = propagate_given(
        store,
        &root.rests,
        clauses,
        &mut root.run,
        given,
        &mut root.spare,
    )?;
    back(store, &root.rests, clauses, &mut root.run, count);
    Ok(values)
}
