//! Whether a live constraint is a contradiction.

ghost use Rattle.std.specs.Prelude.{◌≡◌, List, Err, None, Some, get_or, ◌<◌, IsTrue, ◌↔◌, length};
ghost use Rattle.pb_normal.specs.meaning.Form.{Form};
ghost use Rattle.pb_normal.specs.meaning.Rules.{IsContradiction};
ghost use Rattle.pb_replay.specs.meaning.Conclusions.{has_contradiction, none_left};
ghost use Rattle.pb_replay.specs.meaning.Answer.{gives};
ghost use Rattle.pb_replay.specs.meaning.Replay.{Logged};
ghost use Rattle.pb_replay.specs.contract.ReplayModel.{IsBest, state_of};

use crate::fault::Fault;
use crate::state::Running;
use crate::state::constraints::Constraints;
use crate::state::find::find;
use pb_normal::Normal;

/// Whether the form with this number is a live contradiction.
fn is_contradiction_at(constraints: &Constraints, number: usize) -> bool
    requires { number < length constraints.now.forms }
    ensures { IsTrue result ↔ ((f : Form) × (get_or constraints.now.forms number None ≡ Some f) ×
        IsContradiction f) }
{
    match constraints.form(number) {
        Some(form) => form.is_contradiction(),
        None => false,
    }
}

/// Whether some live form is a contradiction.
fn some_contradiction(constraints: &Constraints) -> Result<(), Fault>
    ensures { has_contradiction constraints.now.forms None result }
{
    for number in 0..constraints.len() {
        if is_contradiction_at(constraints, number) {
            return Ok(());
        }
    }
    Err(Fault::NotContradiction)
}

/// Whether the live form with this id is a contradiction.
fn named_contradiction(constraints: &Constraints, id: i64) -> Result<(), Fault>
    ensures { has_contradiction constraints.now.forms (Some id) result }
{
    match find(constraints, id) {
        None => Err(Fault::NoSuchId(id)),
        Some(form) => {
            if form.is_contradiction() {
                Ok(())
            } else {
                Err(Fault::NotContradiction)
            }
        }
    }
}

/// Whether no solution was logged and there is a contradiction.
pub(crate) fn none_is_left(running: &Running, id: Option<i64>) -> Result<(), Fault>
    ensures left { (logged : List Logged) → IsBest logged running.now.best →
        none_left (state_of running.now logged) id (gives tt) result }
    ensures memory { result ≡ Err Fault.Memory → ⊥ }
{
    if running.best.is_some() {
        return Err(Fault::SolutionLogged);
    }
    match id {
        None => some_contradiction(&running.constraints),
        Some(id) => named_contradiction(&running.constraints, id),
    }
}
