//! The objective with a degree.

ghost use Rattle.std.specs.Prelude.{◌≡◌, ◌⊎◌, [], IfOk, IfErr, OnOk, Ok, Err, Some, length};
ghost use Rattle.pb_text.specs.meaning.Limits.{largest};
ghost use Rattle.pb_replay.specs.engine.Bounds.{HasObjective};
ghost use Rattle.pb_replay.specs.contract.ReplayModel.{HasNamed, IsInside, IsProper, Keeps, problem_of};

use crate::fault::Fault;
use crate::state::Running;
use pb_normal::{Normal, NormalFault, Side};

/// The form of one side of the objective, compared with a degree.
pub(crate) fn objective_form(
    running: &mut Running,
    degree: i128,
    side: Side,
) -> Result<Normal, Fault>
    requires { IsProper running.old }
    ensures ok { IfOk result (λ r. HasObjective (largest running.old.limits) running.old.names
        (problem_of running.old).objective side degree (Ok r)) }
    ensures inside { IfOk result (λ r. IsInside (length running.old.names) r) }
    ensures err { IfErr result (λ e. (e ≡ Fault.Memory) ⊎
        HasObjective (largest running.old.limits) running.old.names
        (problem_of running.old).objective side degree (Err e)) }
    ensures same { OnOk result (HasNamed [] running.old running.new) }
    ensures constraints { running.new.constraints ≡ running.old.constraints }
    ensures kept { Keeps running.old running.new }
    ensures visits { running.new.visits ≡ running.old.visits }
{
    let limits = running.limits;
    let Some(linear) = &mut running.objective else {
        return Err(Fault::NoObjective);
    };
    linear.degree = degree;
    let form = Normal::from_linear(running.alloc, &mut running.names, linear, side, limits)?;
    Ok(form)
}
