//! Conclusions.

ghost use Rattle.std.specs.Prelude.{◌≡◌, ◌<◌, All, Err, IfSome, IsSome, List, OnOk, Option, Some, [], length, option_map};
ghost use Rattle.pb_sums.specs.declared.linear.Literal.{Literal as Written};
ghost use Rattle.pb_replay.specs.engine.Bounds.{Both};
ghost use Rattle.pb_replay.specs.meaning.Replay.{numbered};
ghost use Rattle.pb_replay.specs.contract.ReplayModel.{Goes, GoesAt, HasNamed, IsLinked, IsProper, IsReady, Passes, Preserves};
ghost use Rattle.pb_replay.specs.meaning.Statements.{MayWant};

use crate::fault::Fault;
use crate::state::Running;
use crate::step::bounds::{shows_lower, shows_upper};
use crate::step::contradiction::none_is_left;
use crate::step::shown::{shown_value, take_shown};
use crate::step::solution::take_literals;
use crate::verdict::Verdict;
use pb_normal::NumberedLiteral;
use pb_proof::{Bound, Conclusion, Stage, Statement};
use pb_sums::Literal;
use pb_text::Sequence;

/// `UNSAT`.
fn unsat(running: &mut Running, id: Option<i64>) -> Result<(), Fault>
    requires { IsReady running.old }
    ensures goes { Goes running.old (Statement.Conclude (Conclusion.Unsat id)) result running.new }
    ensures preserves { Preserves running.old result running.new }
    ensures memory { result ≡ Err Fault.Memory → ⊥ }
{
    none_is_left(running, id)?;
    running.next = Stage::Closing;
    running.concluded = Some(Verdict::Unsat);
    Ok(())
}

/// `SAT` by these literals, once their names have numbers.
fn conclude_sat(running: &mut Running, given: &[NumberedLiteral]) -> Result<(), Fault>
    requires proper { IsProper running.old }
    requires linked { IsLinked running.old }
    requires inside { All (λ l. l.variable < length running.old.names) given.now }
    ensures goes { (written : List Written) → given.now ≡ numbered running.old.names written →
        GoesAt running.old (Statement.Conclude (Conclusion.Sat (Some written))) result running.new }
    ensures preserves { Preserves running.old result running.new }
{
    let _ = shown_value(running, given)?;
    running.next = Stage::Closing;
    running.concluded = Some(Verdict::Sat);
    Ok(())
}

/// `SAT` by these literals.
fn sat_shown(running: &mut Running, given: &Sequence<Literal>) -> Result<(), Fault>
    requires { IsReady running.old }
    ensures goes { Goes running.old (Statement.Conclude (Conclusion.Sat (Some given.now))) result
        running.new }
    ensures preserves { Preserves running.old result running.new }
{
    let numbers = take_literals(running, given.as_slice())?;
    conclude_sat(running, numbers.as_slice())
}

/// `SAT` by a logged solution.
fn sat_logged(running: &mut Running) -> Result<(), Fault>
    requires { IsReady running.old }
    ensures goes { Goes running.old (Statement.Conclude (Conclusion.Sat None)) result running.new }
    ensures preserves { Preserves running.old result running.new }
    ensures memory { result ≡ Err Fault.Memory → ⊥ }
{
    if running.best.is_none() {
        return Err(Fault::NoSolution);
    }
    running.next = Stage::Closing;
    running.concluded = Some(Verdict::Sat);
    Ok(())
}

/// `SAT`.
fn sat(running: &mut Running, shown: &Option<Sequence<Literal>>) -> Result<(), Fault>
    requires { IsReady running.old }
    ensures goes { Goes running.old (Statement.Conclude (Conclusion.Sat shown.now)) result
        running.new }
    ensures preserves { Preserves running.old result running.new }
    ensures memory { result ≡ Err Fault.Memory →
        MayWant (Statement.Conclude (Conclusion.Sat shown.now)) }
{
    match shown {
        None => sat_logged(running),
        Some(given) => sat_shown(running, given),
    }
}

/// Whether both bounds are shown.
fn are_shown(
    running: &mut Running,
    lower: Bound,
    id: Option<i64>,
    upper: Bound,
    given: &Option<Vec<NumberedLiteral>>,
) -> Result<(), Fault>
    requires proper { IsProper running.old }
    requires linked { IsLinked running.old }
    requires inside { IfSome given.now (λ v.
        All (λ l. l.variable < length running.old.names) v.items) }
    ensures both { Both running.old lower id upper (option_map (λ v. v.items) given.now) result }
    ensures same { OnOk result (HasNamed [] running.old running.new) }
    ensures preserves { Preserves running.old result running.new }
{
    shows_lower(running, lower, id)?;
    shows_upper(running, upper, given)
}

/// `BOUNDS`, once the names of its literals have numbers.
fn conclude_bounds(
    running: &mut Running,
    lower: Bound,
    id: Option<i64>,
    upper: Bound,
    given: &Option<Vec<NumberedLiteral>>,
) -> Result<(), Fault>
    requires proper { IsProper running.old }
    requires linked { IsLinked running.old }
    requires objective { IsSome running.old.objective }
    requires inside { IfSome given.now (λ v.
        All (λ l. l.variable < length running.old.names) v.items) }
    ensures goes { (written : Option (List Written)) →
        option_map (λ v. v.items) given.now ≡ option_map (numbered running.old.names) written →
        GoesAt running.old (Statement.Conclude (Conclusion.Bounds lower id upper written)) result
        running.new }
    ensures preserves { Preserves running.old result running.new }
{
    are_shown(running, lower, id, upper, given)?;
    running.next = Stage::Closing;
    running.concluded = Some(Verdict::Bounds(lower, upper));
    Ok(())
}

/// `BOUNDS`.
fn bounds(
    running: &mut Running,
    lower: Bound,
    id: Option<i64>,
    upper: Bound,
    shown: &Option<Sequence<Literal>>,
) -> Result<(), Fault>
    requires { IsReady running.old }
    ensures goes { Goes running.old
        (Statement.Conclude (Conclusion.Bounds lower id upper shown.now)) result running.new }
    ensures preserves { Preserves running.old result running.new }
    ensures memory { result ≡ Err Fault.Memory →
        Passes running.old (Statement.Conclude (Conclusion.Bounds lower id upper shown.now)) }
{
    if running.objective.is_none() {
        return Err(Fault::NoObjective);
    }
    let numbers = take_shown(running, shown)?;
    conclude_bounds(running, lower, id, upper, &numbers)
}

/// `NONE`.
fn no_conclusion(running: &mut Running) -> Result<(), Fault>
    requires { IsReady running.old }
    ensures goes { Goes running.old (Statement.Conclude Conclusion.NoClaim) result running.new }
    ensures preserves { Preserves running.old result running.new }
    ensures memory { result ≡ Err Fault.Memory → ⊥ }
{
    running.next = Stage::Closing;
    running.concluded = Some(Verdict::NoClaim);
    Ok(())
}

/// The conclusion of a proof.
pub(crate) fn conclude(running: &mut Running, conclusion: &Conclusion) -> Result<(), Fault>
    requires { IsReady running.old }
    ensures goes { Goes running.old (Statement.Conclude conclusion.now) result running.new }
    ensures preserves { Preserves running.old result running.new }
    ensures memory { result ≡ Err Fault.Memory → MayWant (Statement.Conclude conclusion.now)
        × Passes running.old (Statement.Conclude conclusion.now) }
{
    match conclusion {
        Conclusion::NoClaim => no_conclusion(running),
        Conclusion::Unsat(id) => unsat(running, *id),
        Conclusion::Sat(shown) => sat(running, shown),
        Conclusion::Bounds {
            lower,
            id,
            upper,
            shown,
        } => bounds(running, *lower, *id, *upper, shown),
    }
}
