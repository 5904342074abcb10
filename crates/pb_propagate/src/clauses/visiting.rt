//! A visit to one watch of a falsified literal.

#![tactic(auto, using(crate::proofs::rulesets::Clauses::visiting))]

ghost use Rattle.std.specs.Prelude.{◌≡◌, ℕ, ◌+◌, ◌-◌, ◌/◌, ◌^◌, ◌<◌, ◌≤◌, ◌⊎◌, ◌++◌, ◌∷◌, [], true, false, All, List, length, min, sum, slice_get, slice_index_or, OnOk, IfOk, IfNone, IfSome, Some};
ghost use Rattle.pb_propagate.specs.engine.clauses.Truths.{flip, true_at, false_at};
ghost use Rattle.pb_propagate.specs.engine.clauses.Links.{watch_lists, list_at, watch_at, AreLinked, Remains, IsListed, AreMore};
ghost use Rattle.pb_propagate.specs.engine.clauses.Blocks.{HasBlock, rewatched};
ghost use Rattle.pb_propagate.specs.engine.clauses.Runs.{AreWithin, IsRunning, HasVisited, IsServedTo, passed_of};

use crate::assignment::Assignment;
use crate::clause::opposite;
use crate::clauses::Clauses;
use crate::clauses::blocks::Blocks;
use crate::clauses::lists::{Listed, block, put_in, take_out};
use crate::engine::visits::Visits;
use crate::lists::Lists;
use std::alloc::AllocError;

/// A literal that a clause forces, with the slot of the clause.
#[derive(Clone, Copy)]
pub struct Forced {
    pub code: u32,
    pub slot: usize,
}

/// What a visit to a watch of a falsified literal has found.
#[derive(Clone, Copy)]
pub enum Visit {
    // The other watched literal is true. It is the blocker now.
    Stays,
    // The watch has moved to another literal's list. The last watch of the old list, if it is
    // another one, has its position.
    Leaves,
    // All literals but this one are falsified, and this one is open.
    Forces(Forced),
    // All literals are falsified.
    Falsified,
}

/// The position in a list of watches before which all blockers are true, and the watch there.
#[derive(Clone, Copy)]
pub struct Passed {
    pub index: usize,
    pub watch: Option<u32>,
}

// An entry of a list of watches, which is given.
fn read_entry(lists: &Lists<Listed>, list: &[Listed], literal: usize, index: usize) -> Listed
    requires list { list.now ≡ slice_index_or lists.now literal [] }
    requires index { index < length list.now }
    ensures item { slice_get (list_at (watch_lists lists.now) literal) index ≡ Some result.watch }
    ensures listed { IsListed lists.now result }
{
    let _ = lists;
    list[index]
}

// Reads the literal of the other watch, and counts the visit.
fn visit_watch(blocks: &Blocks, watch: usize, visits: &mut Visits) -> u32
    requires { (watch_at blocks.now.watches watch).live ≡ true }
    ensures item { result ≡ (watch_at blocks.now.watches watch).literal }
    ensures rising { visits.old ≤ visits.new }
    ensures count { visits.new ≡ min (visits.old + 1) (2 ^ 64 - 1) }
{
    visits.count();
    blocks.watched(watch)
}

/// Reads the watches from `from` on, up to the first one whose blocker is not true, and counts a
/// visit for each.
pub fn pass_true(
    clauses: &Clauses,
    assignment: &Assignment,
    literal: usize,
    from: usize,
    visits: &mut Visits,
) -> Passed
    requires running { IsRunning assignment.now.values.items clauses.now }
    requires literal { literal < length clauses.now.lists }
    requires from { from ≤ length (list_at (watch_lists clauses.now.lists) literal) }
    ensures after { from ≤ result.index }
    ensures within { result.index ≤ length (list_at (watch_lists clauses.now.lists) literal) }
    ensures watch { slice_get (list_at (watch_lists clauses.now.lists) literal) result.index ≡
        result.watch }
    ensures served { (walked : List ℕ) →
        IsServedTo assignment.now.values.items clauses.now walked literal from →
        IsServedTo assignment.now.values.items clauses.now walked literal result.index }
    ensures rising { visits.old ≤ visits.new }
    ensures all { IfNone result.watch
        (visits.new ≡ min (visits.old + (result.index - from)) (2 ^ 64 - 1)) }
    ensures count { IfSome result.watch
        (λ w. visits.new ≡ min (visits.old + (result.index - from + 1)) (2 ^ 64 - 1)) }
{
    let list = clauses.lists.list(literal);
    let mut index = from;
    'entries: while index < list.len() {
        let entry = read_entry(&clauses.lists, list, literal, index);
        if !assignment.satisfies(entry.blocker) {
            visits.add(index - from + 1);
            return Passed {
                index,
                watch: Some(entry.watch),
            };
        }
        index += 1;
    }
    visits.add(index - from);
    Passed { index, watch: None }
}

// Moves a watch from a position of a literal's list to another literal's list.
fn shift(
    lists: &mut Lists<Listed>,
    blocks: &mut Blocks,
    literal: usize,
    index: usize,
    watch: usize,
    found: u32,
    blocker: u32,
) -> Result<(), AllocError>
    requires inside { (literal < length lists.old) × (found < length lists.old) }
    requires apart { found ≡ literal → ⊥ }
    requires item { slice_get (list_at (watch_lists lists.old) literal) index ≡ Some watch }
    requires block { HasBlock blocks.old (watch / 2) }
    requires linked { AreLinked blocks.old.watches (watch_lists lists.old) }
    ensures linked { OnOk result (AreLinked blocks.new.watches (watch_lists lists.new)) }
    ensures moved { OnOk result (((watch_at blocks.new.watches watch).literal ≡ found) ×
        ((watch_at blocks.new.watches watch).live ≡ true)) }
    ensures others { OnOk result ((k : ℕ) → (k ≡ watch → ⊥) →
        Remains index (watch_at blocks.old.watches k) (watch_at blocks.new.watches k)) }
    ensures sizes { OnOk result ((length blocks.new.watches ≡ length blocks.old.watches) ×
        (length lists.new ≡ length lists.old)) }
    ensures shorter { OnOk result
        (length (list_at (watch_lists lists.new) literal) + 1 ≡ length
        (list_at (watch_lists lists.old) literal)) }
    ensures kept { blocks.new ≡ rewatched blocks.old blocks.new.watches }
    ensures more { OnOk result
        (AreMore record { watch = watch; blocker = blocker } lists.old lists.new) }
{
    take_out(lists, blocks, literal, index);
    put_in(lists, blocks, watch, found, blocker)?;
    Ok(())
}

// Searches a clause for a literal to watch in place of a falsified one. The other watched literal
// is not true.
fn search_clause(
    clauses: &mut Clauses,
    assignment: &Assignment,
    literal: usize,
    index: usize,
    watch: usize,
    other: u32,
    visits: &mut Visits,
) -> Result<Visit, AllocError>
    requires running { IsRunning assignment.now.values.items clauses.old }
    requires failed { false_at assignment.now.values.items literal ≡ true }
    requires literal { literal < length clauses.old.lists }
    requires item { slice_get (list_at (watch_lists clauses.old.lists) literal) index ≡ Some
        watch }
    requires other { other ≡ (watch_at clauses.old.blocks.watches (flip watch)).literal }
    requires untrue { true_at assignment.now.values.items other ≡ false }
    ensures literals { clauses.new.blocks.literals ≡ clauses.old.blocks.literals }
    ensures watch { IfOk result (
        λ r. HasVisited assignment.now.values.items clauses.old clauses.new literal index r) }
    ensures covered { visits.new + sum (passed_of clauses.old) ≤ visits.old + sum
        (passed_of clauses.new) }
    ensures bounded { AreWithin (passed_of clauses.new) clauses.old.blocks.literals }
    ensures rising { visits.old ≤ visits.new }
{
    let slot = watch / 2;
    let clause = clauses.blocks.read(slot);
    let from = clause.search;
    let literals = clause.literals;
    let stop = from.advance(literals, other, assignment, visits);
    if stop.passed >= literals.len() {
        clauses.blocks.seek(slot, stop);
        if assignment.falsifies(other) {
            return Ok(Visit::Falsified);
        }
        return Ok(Visit::Forces(Forced { code: other, slot }));
    }
    let found = literals[stop.position];
    let next = stop.next(literals.len());
    clauses.blocks.seek(slot, next);
    shift(
        &mut clauses.lists,
        &mut clauses.blocks,
        literal,
        index,
        watch,
        found,
        other,
    )?;
    Ok(Visit::Leaves)
}

/// Visits a clause by its watch on a falsified literal. The blocker is not true.
pub fn visit_clause(
    clauses: &mut Clauses,
    assignment: &Assignment,
    literal: usize,
    index: usize,
    watch: u32,
    visits: &mut Visits,
) -> Result<Visit, AllocError>
    requires running { IsRunning assignment.now.values.items clauses.old }
    requires failed { false_at assignment.now.values.items literal ≡ true }
    requires literal { literal < length clauses.old.lists }
    requires item { slice_get (list_at (watch_lists clauses.old.lists) literal) index ≡ Some
        watch }
    ensures literals { clauses.new.blocks.literals ≡ clauses.old.blocks.literals }
    ensures watch { IfOk result (
        λ r. HasVisited assignment.now.values.items clauses.old clauses.new literal index r) }

    // Upper and lower bounds on the number of visits.
    ensures covered { visits.new + sum (passed_of clauses.old) ≤ visits.old + 1 + sum
        (passed_of clauses.new) }
    ensures bounded { AreWithin (passed_of clauses.new) clauses.old.blocks.literals }
    ensures counted { visits.new < 2 ^ 64 - 1 → visits.old + 1 ≤ visits.new }
    ensures rising { visits.old ≤ visits.new }
{
    let number = watch as usize;
    let other = visit_watch(&clauses.blocks, opposite(number), visits);
    if assignment.satisfies(other) {
        let entry = Listed {
            watch,
            blocker: other,
        };
        block(&mut clauses.lists, literal, index, entry);
        return Ok(Visit::Stays);
    }
    let visit = search_clause(clauses, assignment, literal, index, number, other, visits)?;
    Ok(visit)
}
