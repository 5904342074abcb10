//! `BOUNDS`.

ghost use Rattle.std.specs.Prelude.{◌≡◌, ◌<◌, ◌↔◌, All, IfOk, IfErr, IfSome, IsTrue, OnOk, Ok, Err, length, option_map, [], false, Option, ℤ};
ghost use Rattle.pb_normal.specs.meaning.Form.{Form};
ghost use Rattle.pb_replay.specs.engine.Bounds.{IsBelow, IsNamed, IsReached, Lower, ObjectiveShown, Refutes, ShownAs, ShownReaches, Upper};
ghost use Rattle.pb_replay.specs.meaning.Conclusions.{IsShownBy};
ghost use Rattle.pb_replay.specs.meaning.Replay.{IsLive};
ghost use Rattle.pb_replay.specs.contract.ReplayModel.{IsInside, IsLinked, IsProper, HasNamed, problem_of, Preserves};
ghost use Rattle.pb_replay.specs.engine.Constraints.{AreLive};

use crate::fault::Fault;
use crate::state::Running;
use crate::state::constraints::Constraints;
use crate::state::find::find;
use crate::state::objective::objective_form;
use crate::step::contradiction::none_is_left;
use crate::step::shown::shown_value;
use pb_normal::{Normal, NormalFault, NumberedLiteral, Side};
use pb_proof::Bound;
use std::alloc::AllocError;

/// Whether the form with this id is a contradiction, or its sum with the negation of the goal is
/// one.
fn is_refuted(constraints: &Constraints, id: Option<i64>, goal: &Normal) -> Result<bool, Fault>
    requires { 0 < goal.now.degree }
    ensures ok { IfOk result (λ b. (f : Option Form) → IsNamed constraints.now.forms id f →
        (IsTrue b ↔ Refutes f goal.now)) }
    ensures err { IfErr result (λ e. e ≡ Fault.Memory) }
{
    let Some(id) = id else {
        return Ok(false);
    };
    match find(constraints, id) {
        None => Ok(false),
        Some(form) => {
            let negation = goal.negation()?;
            Ok(form.is_contradiction() || form.refutes(&negation))
        }
    }
}

/// Whether the goal is shown in one of the four ways.
fn is_shown(constraints: &mut Constraints, id: Option<i64>, goal: &Normal) -> Result<bool, Fault>
    requires ready { constraints.old.spent ≡ false }
    requires inside { IsInside constraints.old.variables goal.now }
    ensures ok { IfOk result (λ b. (f : Option Form) → IsNamed constraints.old.forms id f →
        (IsTrue b ↔ IsShownBy constraints.old.forms f goal.now)) }
    ensures err { IfErr result (λ e. e ≡ Fault.Memory) }
    ensures loaded { constraints.new.loaded ≡ constraints.old.loaded }
    ensures live { OnOk result (
        AreLive constraints.old.forms constraints.old.variables constraints.new) }
{
    if goal.degree() == 0 {
        return Ok(true);
    }
    if is_refuted(constraints, id, goal)? {
        return Ok(true);
    }
    let implied = constraints.rup(goal)?;
    Ok(implied)
}

/// Whether the bound is at most the best logged value.
fn is_below_best(best: Option<i128>, bound: i128) -> bool
    ensures { IsTrue result ↔ IsBelow best bound }
{
    match best {
        None => true,
        Some(best) => bound <= best,
    }
}

/// Whether the id, if there is one, is that of a live form.
fn is_found(constraints: &Constraints, id: Option<i64>) -> Result<(), Fault>
    ensures ok { OnOk result ((f : Option Form) × IsNamed constraints.now.forms id f) }
    ensures err { IfErr result (λ e. (i : ℤ) × (id ≡ Some i) × (e ≡ Fault.NoSuchId i) ×
        ((f : Form) → IsLive constraints.now.forms i f → ⊥)) }
{
    match id {
        None => Ok(()),
        Some(id) => match find(constraints, id) {
            None => Err(Fault::NoSuchId(id)),
            Some(_) => Ok(()),
        },
    }
}

/// Whether the goal is shown.
fn goal_shown(constraints: &mut Constraints, id: Option<i64>, goal: &Normal) -> Result<(), Fault>
    requires ready { constraints.old.spent ≡ false }
    requires inside { IsInside constraints.old.variables goal.now }
    ensures shown { (f : Option Form) → IsNamed constraints.old.forms id f →
        ShownAs constraints.old.forms f goal.now result }
    ensures loaded { constraints.new.loaded ≡ constraints.old.loaded }
    ensures live { OnOk result (
        AreLive constraints.old.forms constraints.old.variables constraints.new) }
{
    if is_shown(constraints, id, goal)? {
        return Ok(());
    }
    Err(Fault::NotBound)
}

/// Whether the objective is shown to be at least the bound.
fn objective_shown(running: &mut Running, bound: i128, id: Option<i64>) -> Result<(), Fault>
    requires proper { IsProper running.old }
    requires linked { IsLinked running.old }
    ensures shown { (f : Option Form) → IsNamed running.old.constraints.forms id f →
        ObjectiveShown running.old f bound result }
    ensures same { OnOk result (HasNamed [] running.old running.new) }
    ensures preserves { Preserves running.old result running.new }
{
    let goal = objective_form(running, bound, Side::AtLeast)?;
    goal_shown(&mut running.constraints, id, &goal)
}

/// Whether a finite lower bound is shown.
fn shows_finite(running: &mut Running, bound: i128, id: Option<i64>) -> Result<(), Fault>
    requires proper { IsProper running.old }
    requires linked { IsLinked running.old }
    ensures lower { Lower running.old (Bound.Finite bound) id result }
    ensures same { OnOk result (HasNamed [] running.old running.new) }
    ensures preserves { Preserves running.old result running.new }
{
    if !is_below_best(running.best, bound) {
        return Err(Fault::NotBound);
    }
    is_found(&running.constraints, id)?;
    objective_shown(running, bound, id)
}

/// Whether a lower bound is shown.
pub(crate) fn shows_lower(running: &mut Running, lower: Bound, id: Option<i64>) -> Result<(), Fault>
    requires proper { IsProper running.old }
    requires linked { IsLinked running.old }
    ensures lower { Lower running.old lower id result }
    ensures same { OnOk result (HasNamed [] running.old running.new) }
    ensures preserves { Preserves running.old result running.new }
{
    match lower {
        Bound::Infinite => none_is_left(running, id),
        Bound::Finite(bound) => shows_finite(running, bound, id),
    }
}

/// Whether the value of a logged solution is at most the bound.
fn is_reached(best: Option<i128>, bound: i128) -> Result<(), Fault>
    ensures { IsReached best bound result }
{
    match best {
        None => Err(Fault::NoSolution),
        Some(best) => {
            if best <= bound {
                Ok(())
            } else {
                Err(Fault::NotBound)
            }
        }
    }
}

/// Whether a shown solution reaches the bound.
fn shown_reaches(running: &Running, bound: i128, given: &[NumberedLiteral]) -> Result<(), Fault>
    requires ready { running.now.constraints.spent ≡ false }
    requires proper { IsProper running.now }
    requires inside { All (λ l. l.variable < length running.now.names) given.now }
    ensures { ShownReaches (problem_of running.now) given.now bound result }
{
    if shown_value(running, given)? <= bound {
        return Ok(());
    }
    Err(Fault::NotBound)
}

/// Whether an upper bound is shown.
pub(crate) fn shows_upper(
    running: &Running,
    upper: Bound,
    given: &Option<Vec<NumberedLiteral>>,
) -> Result<(), Fault>
    requires ready { running.now.constraints.spent ≡ false }
    requires proper { IsProper running.now }
    requires inside { IfSome given.now (λ v.
        All (λ l. l.variable < length running.now.names) v.items) }
    ensures { Upper running.now upper (option_map (λ v. v.items) given.now) result }
{
    match upper {
        Bound::Infinite => Ok(()),
        Bound::Finite(bound) => match given {
            None => is_reached(running.best, bound),
            Some(given) => shown_reaches(running, bound, given.as_slice()),
        },
    }
}
