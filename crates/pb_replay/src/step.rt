//! What the statements do.

ghost use Rattle.std.specs.Prelude.{◌≡◌, ◌↔◌, Err, IsTrue, OnOk};
ghost use Rattle.pb_text.specs.meaning.Limits.{largest, top_of};
ghost use Rattle.pb_proof.specs.meaning.Order.{stage_of};
ghost use Rattle.pb_proof.specs.contract.Values.{IsStatementValue};
ghost use Rattle.pb_replay.specs.contract.ReplayModel.{Keeps, Goes, Comes, IsLinked, IsReady, Passes, Preserves, problem_of};
ghost use Rattle.pb_replay.specs.meaning.Statements.{IsCount, MayWant, MayWantAt};
ghost use Rattle.pb_replay.specs.contract.Visits.{StepVisits, counted_from};

mod bounds;
mod conclude;
mod contradiction;
mod delete;
mod pol;
mod rup;
mod shown;
mod solution;
mod stack;

use crate::fault::Fault;
use crate::state::Running;
use crate::state::live::make_live;
use pb_proof::{Stage, Statement};

/// The header.
fn begin(running: &mut Running) -> Result<(), Fault>
    requires { IsReady running.old }
    ensures goes { Goes running.old Statement.Header result running.new }
    ensures preserves { Preserves running.old result running.new }
    ensures memory { result ≡ Err Fault.Memory → ⊥ }
{
    running.next = Stage::Formula;
    Ok(())
}

/// Whether the number after `f`, if there is one, is that of the constraints.
fn is_count(count: Option<u64>, number: u64) -> bool
    ensures { IsTrue result ↔ IsCount count number }
{
    match count {
        None => true,
        Some(count) => count == number,
    }
}

/// `f`: the formula's constraints become live.
fn load(running: &mut Running, count: Option<u64>) -> Result<(), Fault>
    requires { IsReady running.old }
    ensures goes { Goes running.old (Statement.F count) result running.new }
    ensures preserves { Preserves running.old result running.new }
    ensures memory { result ≡ Err Fault.Memory → Passes running.old (Statement.F count) }
{
    let number = running.constraints.count() as u64;
    if !is_count(count, number) {
        return Err(Fault::FormulaCount(number));
    }
    if number > running.limits.top() {
        return Err(Fault::IdsSpent);
    }
    make_live(&mut running.constraints, running.alloc, running.names.len())?;
    running.next = Stage::Steps;
    Ok(())
}

/// `output NONE`.
fn output(running: &mut Running) -> Result<(), Fault>
    requires { IsReady running.old }
    ensures goes { Goes running.old Statement.Output result running.new }
    ensures preserves { Preserves running.old result running.new }
    ensures memory { result ≡ Err Fault.Memory → ⊥ }
{
    running.next = Stage::Concluding;
    Ok(())
}

/// The end of the proof.
fn end(running: &mut Running) -> Result<(), Fault>
    requires { IsReady running.old }
    ensures goes { Goes running.old Statement.End result running.new }
    ensures preserves { Preserves running.old result running.new }
    ensures memory { result ≡ Err Fault.Memory → ⊥ }
{
    running.next = Stage::Complete;
    Ok(())
}

/// The number from which visits are counted: a `rup` counts only its own.
fn begin_count(statement: &Statement, visits: u64) -> u64
    ensures { result ≡ counted_from statement.now visits }
{
    match statement {
        Statement::Rup(_) => 0,
        _ => visits,
    }
}

/// Whether the statement may come at this stage.
fn is_due(next: Stage, statement: &Statement) -> bool
    ensures { IsTrue result ↔ (next ≡ stage_of statement.now) }
{
    next == statement.stage()
}

/// Does what the statement says.
fn carry_out(running: &mut Running, statement: &Statement) -> Result<(), Fault>
    requires value { IsStatementValue (largest running.old.limits)
        (top_of running.old.limits) statement.now }
    requires ready { IsReady running.old }
    requires visits { running.old.visits ≡ counted_from statement.now running.old.visits }
    ensures goes { Goes running.old statement.now result running.new }
    ensures linked { OnOk result (IsLinked running.new) }
    ensures kept { Keeps running.old running.new }
    ensures visits_made { StepVisits running.old.constraints.forms running.old.names
        statement.now result running.old.visits running.new.visits }
    ensures memory { result ≡ Err Fault.Memory → MayWant statement.now ×
        Passes running.old statement.now }
{
    match statement {
        Statement::Header => begin(running),
        Statement::F(count) => load(running, *count),
        Statement::Pol(words) => pol::pol(running, words),
        Statement::Rup(linear) => rup::rup(running, linear),
        Statement::Soli(given) => solution::soli(running, given),
        Statement::Solx(given) => solution::solx(running, given),
        Statement::Delete(ids) => delete::delete(running, ids),
        Statement::Output => output(running),
        Statement::Conclude(conclusion) => conclude::conclude(running, conclusion),
        Statement::End => end(running),
    }
}

/// Applies a statement.
pub(crate) fn apply(running: &mut Running, statement: &Statement) -> Result<(), Fault>
    requires value { IsStatementValue (largest running.old.limits)
        (top_of running.old.limits) statement.now }
    requires ready { IsReady running.old }
    ensures comes { Comes running.old statement.now result running.new }
    ensures linked { OnOk result (IsLinked running.new) }
    ensures kept { Keeps running.old running.new }
    ensures visits_made { StepVisits running.old.constraints.forms running.old.names
        statement.now result running.old.visits running.new.visits }
    ensures memory { result ≡ Err Fault.Memory →
        MayWantAt (largest running.old.limits) (top_of running.old.limits)
        (problem_of running.old) running.old.next statement.now }
{
    running.visits = begin_count(statement, running.visits);
    if !is_due(running.next, statement) {
        return Err(Fault::Order);
    }
    carry_out(running, statement)
}
