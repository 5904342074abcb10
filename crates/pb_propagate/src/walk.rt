//! Visits to the clauses in which a falsified literal is watched.

#![tactic(auto, using(crate::proofs::rulesets::Clauses::walk))]

ghost use Rattle.std.specs.Prelude.{◌≡◌, ◌≤◌, ◌+◌, ◌<◌, true, false, length, OnOk, OnErr};
ghost use Rattle.pb_propagate.specs.engine.engine.Lists.{Conflicts};
ghost use Rattle.pb_propagate.specs.engine.engine.Progress.{IfFound, IfNotFound, RunIsOpen, list_of, values_of, WalkCosts, HasWalked};
ghost use Rattle.pb_propagate.specs.engine.engine.Propagation.{RunWalks};
ghost use Rattle.pb_propagate.specs.engine.engine.Fields.{shapes_of, IsSound};
ghost use Rattle.pb_propagate.specs.engine.clauses.Truths.{false_at};
ghost use Rattle.pb_propagate.specs.engine.clauses.Runs.{AreWithin, IsRunning, passed_of};
ghost use Rattle.pb_propagate.specs.engine.clauses.Shapes.{AreJoined, clauses_of, all_of, literal_at};

use crate::clauses::Clauses;
use crate::clauses::visiting::{Visit, pass_true, visit_clause};
use crate::rests::Rests;
use crate::run::{Run, put};
use crate::store::Store;
use pb_normal::NumberedLiteral;
use std::alloc::AllocError;

/// The literal of a code.
pub fn literal_of(code: u32) -> NumberedLiteral
    ensures { result ≡ literal_at code }
{
    NumberedLiteral {
        variable: code as usize / 4,
        negated: code % 2 != 0,
    }
}

/// Visits the clauses in which a falsified literal is watched, and propagates what they force.
/// Returns whether one of them, or a form, is falsified.
pub fn walk(
    store: &Store,
    rests: &Rests,
    clauses: &mut Clauses,
    run: &mut Run,
    literal: usize,
) -> Result<bool, AllocError>
    requires store { IsSound store.now }
    requires sums { RunIsOpen store.now run.old }
    requires joined { AreJoined (shapes_of store.now.stored.items) (clauses_of clauses.old) }
    requires running { IsRunning (values_of run.old) clauses.old }
    requires literal { (literal < length clauses.old.lists) ×
        (false_at (values_of run.old) literal ≡ true) }
    ensures literals { clauses.new.blocks.literals ≡ clauses.old.blocks.literals }
    ensures candidates { run.new.candidates ≡ run.old.candidates }
    ensures walks { OnOk result (
        RunWalks store.now rests.now clauses.old clauses.new literal run.old run.new) }
    ensures costs { OnErr result (
        WalkCosts store.now rests.now clauses.old clauses.new literal run.old run.new) }
    ensures walked { IfNotFound result (RunIsOpen store.now run.new ×
        HasWalked clauses.old clauses.new literal run.old run.new) }
    ensures conflict { IfFound result (Conflicts (all_of store.now clauses.old) (list_of run.new)) }
    ensures bounded { AreWithin (passed_of clauses.new) (clauses_of clauses.old) }
{
    let mut index = 0;
    'watches: while index < clauses.watch_count(literal) {
        let passed = pass_true(clauses, &run.assignment, literal, index, &mut run.visits);
        index = passed.index;
        let watch = match passed.watch {
            Some(watch) => watch,
            None => {
                return Ok(false);
            }
        };
        let assignment = &run.assignment;
        match visit_clause(clauses, assignment, literal, index, watch, &mut run.visits)? {
            Visit::Stays => {
                index += 1;
            }
            Visit::Leaves => {}
            Visit::Forces(forced) => {
                if put(store, rests, run, literal_of(forced.code), forced.slot)? {
                    return Ok(true);
                }
                index += 1;
            }
            Visit::Falsified => {
                return Ok(true);
            }
        }
    }
    Ok(false)
}
