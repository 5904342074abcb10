//! Solutions that a conclusion shows.

ghost use Rattle.std.specs.Prelude.{◌≡◌, ◌<◌, ◌⊎◌, All, Contains, IfOk, IfErr, IfSome, OnOk, Ok, Err, false, length, option_map};
ghost use Rattle.pb_replay.specs.meaning.Statements.{shown_names};
ghost use Rattle.pb_replay.specs.meaning.Replay.{Completed, Logged, Shown, numbered};
ghost use Rattle.pb_replay.specs.contract.ReplayModel.{HasNamed, IsLinked, IsProper, problem_of, Preserves, ReturnsValue};

use crate::fault::Fault;
use crate::state::Running;
use crate::state::live::copies_of;
use crate::state::solution::solution_value;
use crate::step::solution::{completion, take_literals};
use pb_normal::NumberedLiteral;
use pb_sums::Literal;
use pb_text::Sequence;

/// The value of the solution that the literals complete to over the instance's own constraints.
fn own_value(running: &Running, given: &[NumberedLiteral]) -> Result<i128, Fault>
    requires ready { running.now.constraints.spent ≡ false }
    requires proper { IsProper running.now }
    requires inside { All (λ l. l.variable < length running.now.names) given.now }
    ensures { ReturnsValue (Completed (problem_of running.now)
        (Contains running.now.constraints.loaded) running.now.own given.now) result }
{
    let mut copies = copies_of(running.alloc, &running.constraints, running.names.len())?;
    let values = completion(&mut copies, given)?;
    solution_value(running, values.as_slice(), running.own)
}

/// The value of the solution that the literals show.
pub(crate) fn shown_value(running: &Running, given: &[NumberedLiteral]) -> Result<i128, Fault>
    requires ready { running.now.constraints.spent ≡ false }
    requires proper { IsProper running.now }
    requires inside { All (λ l. l.variable < length running.now.names) given.now }
    ensures ok { IfOk result (λ z. (g : Logged) × Shown (problem_of running.now) given.now g ×
        (g.value ≡ z)) }
    ensures err { IfErr result (λ e. (e ≡ Fault.Memory) ⊎
        ((e ≡ Fault.NoSolution) ×
        ((g : Logged) → Shown (problem_of running.now) given.now g → ⊥))) }
{
    match own_value(running, given) {
        Ok(value) => Ok(value),
        Err(fault) => {
            if fault == Fault::Memory {
                Err(Fault::Memory)
            } else {
                Err(Fault::NoSolution)
            }
        }
    }
}

/// The literals that a conclusion shows, if any, by number, once their names have one.
pub(crate) fn take_shown(
    running: &mut Running,
    shown: &Option<Sequence<Literal>>,
) -> Result<Option<Vec<NumberedLiteral>>, Fault>
    requires { IsLinked running.old }
    ensures literals { IfOk result (λ o. option_map (λ v. v.items) o ≡ option_map
        (numbered running.new.names) shown.now) }
    ensures inside { IfOk result (λ o.
        IfSome o (λ v. All (λ l. l.variable < length running.new.names) v.items)) }
    ensures named { OnOk result (HasNamed (shown_names shown.now) running.old running.new) }
    ensures preserves { Preserves running.old result running.new }
    ensures err { IfErr result (λ e. e ≡ Fault.Memory) }
{
    match shown {
        None => Ok(None),
        Some(given) => {
            let numbers = take_literals(running, given.as_slice())?;
            Ok(Some(numbers))
        }
    }
}
