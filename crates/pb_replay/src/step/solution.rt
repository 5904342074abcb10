//! `soli` and `solx`.

ghost use Rattle.std.specs.Prelude.{◌≡◌, ◌<◌, ◌^◌, ◌⊎◌, All, IfOk, IfErr, IsSome, OnOk, Ok, Err, length, true, false, unsigned_abs, ℕ, pos, ◌-ℤ◌, [], List};
ghost use Rattle.pb_normal.specs.declared.numbered.NumberedLiteral.{NumberedLiteral as ANumberedLiteral};
ghost use Rattle.pb_normal.specs.meaning.Rules.{on};
ghost use Rattle.pb_propagate.specs.engine.engine.Live.{Live, Gives};
ghost use Rattle.pb_propagate.specs.meaning.Propagation.{MeetsConflict, IsCompletion};
ghost use Rattle.pb_replay.specs.meaning.Replay.{Completed, Excludes, negations, numbered};
ghost use Rattle.pb_replay.specs.contract.ReplayModel.{Goes, GoesAt, Logs, HasNamed, IsBetter, IsInside, IsLinked, IsProper, IsReady, problem_of, Passes, Preserves, ReturnsValue};
ghost use Rattle.pb_replay.specs.meaning.Statements.{literal_names};
ghost use Rattle.pb_sums.specs.declared.linear.Literal.{Literal as Written};
ghost use Rattle.pb_replay.specs.engine.Bounds.{Demands};
ghost use Rattle.pb_replay.specs.engine.Constraints.{AreLive};

use crate::fault::Fault;
use crate::state::Running;
use crate::state::constraints::Constraints;
use crate::state::literals::{number_names, numbered_literals};
use crate::state::live::{add, widen};
use crate::state::objective::objective_form;
use crate::state::solution::solution_value;
use pb_normal::{Normal, NormalFault, NumberedLiteral, Side};
use pb_proof::Statement;
use pb_sums::Literal;
use pb_text::Sequence;
use std::alloc::{AllocError, AllocFailed, Global};

/// The literals by number, once their names have one.
pub(crate) fn take_literals(
    running: &mut Running,
    given: &[Literal],
) -> Result<Vec<NumberedLiteral>, Fault>
    requires { IsLinked running.old }
    ensures literals { IfOk result (λ v. v.items ≡ numbered running.new.names given.now) }
    ensures inside { IfOk result (λ v. All (λ l. l.variable < length running.new.names) v.items) }
    ensures named { OnOk result (HasNamed (literal_names given.now) running.old running.new) }
    ensures preserves { Preserves running.old result running.new }
    ensures err { IfErr result (λ e. e ≡ Fault.Memory) }
{
    let before = running.names.len();
    number_names(&mut running.names, given)?;
    widen(&mut running.constraints, before, running.names.len())?;
    let numbers = numbered_literals(running.alloc, &running.names, given)?;
    Ok(numbers)
}

/// The values of the completion of the literals over the engine's forms.
pub(crate) fn completion(
    constraints: &mut Constraints,
    given: &[NumberedLiteral],
) -> Result<Vec<Option<bool>>, Fault>
    requires ready { constraints.old.spent ≡ false }
    requires inside { All (λ l. l.variable < constraints.old.variables) given.now }
    ensures free { IfOk result (λ v. MeetsConflict (Live constraints.old.forms) given.now → ⊥) }
    ensures list { IfOk result (λ v. (list : List ANumberedLiteral) ×
        IsCompletion (Live constraints.old.forms) given.now list × Gives list v.items) }
    ensures err { IfErr result (λ e. (e ≡ Fault.Memory) ⊎
        ((e ≡ Fault.Conflict) × MeetsConflict (Live constraints.old.forms) given.now)) }
    ensures loaded { constraints.new.loaded ≡ constraints.old.loaded }
    ensures live { OnOk result (
        AreLive constraints.old.forms constraints.old.variables constraints.new) }
{
    match constraints.complete(given)? {
        Some(values) => Ok(values),
        None => Err(Fault::Conflict),
    }
}

/// The lesser of the best value so far, if there is one, and another value.
fn better(best: Option<i128>, value: i128) -> i128
    ensures { IsBetter best value result }
{
    match best {
        Some(best) => best.min(value),
        None => value,
    }
}

/// The value of the solution that the literals complete to over the live constraints.
pub(crate) fn completion_value(
    running: &mut Running,
    given: &[NumberedLiteral],
) -> Result<i128, Fault>
    requires proper { IsProper running.old }
    requires linked { IsLinked running.old }
    requires inside { All (λ l. l.variable < length running.old.names) given.now }
    ensures value { ReturnsValue (Completed (problem_of running.old)
        (Live running.old.constraints.forms) (length running.old.names) given.now) result }
    ensures small { IfOk result (λ z. unsigned_abs z < 2 ^ 127) }
    ensures same { OnOk result (HasNamed [] running.old running.new) }
    ensures preserves { Preserves running.old result running.new }
{
    let values = completion(&mut running.constraints, given)?;
    solution_value(running, values.as_slice(), running.names.len())
}

/// The negations of the literals.
fn negations_of(
    alloc: Global,
    given: &[NumberedLiteral],
) -> Result<Vec<NumberedLiteral>, AllocError>
    ensures { IfOk result (λ v. v.items ≡ negations given.now) }
{
    given.iter().map(|l| l.negation()).collect(alloc)
}

/// The clause of the negations of the literals.
fn clause_of(alloc: Global, given: &[NumberedLiteral]) -> Result<Normal, Fault>
    requires { (x : ℕ) → on given.now x true ≡ true → on given.now x false ≡ true → ⊥ }
    ensures clause { IfOk result (λ r. Excludes given.now r) }
    ensures inside { IfOk result (λ r. (n : ℕ) → All (λ l. l.variable < n) given.now →
        IsInside n r) }
    ensures err { IfErr result (λ e. e ≡ Fault.Memory) }
{
    let literals = negations_of(alloc, given)?;
    let clause = Normal::from_literals(alloc, literals.as_slice(), 1)?;
    Ok(clause)
}

/// Logs a solution with this value, and adds a form.
fn log(running: &mut Running, value: i128, form: Normal) -> Result<(), Fault>
    requires linked { IsLinked running.old }
    requires inside { IsInside (length running.old.names) form }
    ensures logs { Logs running.old value form result running.new }
    ensures preserves { Preserves running.old result running.new }
{
    add(running, form)?;
    running.best = Some(better(running.best, value));
    Ok(())
}

/// Logs the solution that the literals complete to, and excludes them.
fn exclude(running: &mut Running, given: &[NumberedLiteral]) -> Result<(), Fault>
    requires proper { IsProper running.old }
    requires linked { IsLinked running.old }
    requires inside { All (λ l. l.variable < length running.old.names) given.now }
    ensures goes { (written : List Written) → given.now ≡ numbered running.old.names written →
        GoesAt running.old (Statement.Solx written) result running.new }
    ensures preserves { Preserves running.old result running.new }
{
    let value = completion_value(running, given)?;
    let clause = clause_of(running.alloc, given)?;
    log(running, value, clause)
}

/// `solx`: logs a solution and excludes it.
pub(crate) fn solx(running: &mut Running, given: &Sequence<Literal>) -> Result<(), Fault>
    requires { IsReady running.old }
    ensures goes { Goes running.old (Statement.Solx given.now) result running.new }
    ensures preserves { Preserves running.old result running.new }
{
    let numbers = take_literals(running, given.as_slice())?;
    exclude(running, numbers.as_slice())
}

/// The greatest value below this one.
fn below(value: i128) -> i128
    requires { unsigned_abs value < 2 ^ 127 }
    ensures { result ≡ (value -ℤ pos 1) }
{
    value - 1
}

/// Logs a solution with this value, and requires a lower one.
fn demand_less(running: &mut Running, value: i128) -> Result<(), Fault>
    requires proper { IsProper running.old }
    requires linked { IsLinked running.old }
    requires small { unsigned_abs value < 2 ^ 127 }
    ensures demands { Demands running.old value result running.new }
    ensures preserves { Preserves running.old result running.new }
{
    let demand = objective_form(running, below(value), Side::AtMost)?;
    log(running, value, demand)
}

/// Logs the solution that the literals complete to, and requires a lower value.
fn improve(running: &mut Running, given: &[NumberedLiteral]) -> Result<(), Fault>
    requires proper { IsProper running.old }
    requires linked { IsLinked running.old }
    requires inside { All (λ l. l.variable < length running.old.names) given.now }
    requires objective { IsSome running.old.objective }
    ensures goes { (written : List Written) → given.now ≡ numbered running.old.names written →
        GoesAt running.old (Statement.Soli written) result running.new }
    ensures preserves { Preserves running.old result running.new }
{
    let value = completion_value(running, given)?;
    demand_less(running, value)
}

/// `soli`: logs a solution, and requires a lower value.
pub(crate) fn soli(running: &mut Running, given: &Sequence<Literal>) -> Result<(), Fault>
    requires { IsReady running.old }
    ensures goes { Goes running.old (Statement.Soli given.now) result running.new }
    ensures preserves { Preserves running.old result running.new }
    ensures memory { result ≡ Err Fault.Memory → Passes running.old (Statement.Soli given.now) }
{
    if running.objective.is_none() {
        return Err(Fault::NoObjective);
    }
    let numbers = take_literals(running, given.as_slice())?;
    improve(running, numbers.as_slice())
}
