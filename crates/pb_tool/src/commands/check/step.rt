//! One statement of a proof: the step of the replay, and what a watch sees of it.

ghost use Rattle.std.specs.Prelude.{◌≡◌, ◌<◌, ℕ, Err, Result, length};
ghost use Rattle.pb_text.specs.meaning.Limits.{largest, top_of};
ghost use Rattle.pb_proof.specs.contract.Values.{IsStatementValue};
ghost use Rattle.pb_replay.specs.meaning.Replay.{State};
ghost use Rattle.pb_replay.specs.declared.fault.Fault.{Fault as AFault};
ghost use Rattle.pb_replay.specs.meaning.Meaning.{IsNamePrefix};
ghost use Rattle.pb_tool.specs.contract.Checker.{IsAt, StepsFrom};
ghost use Rattle.pb_tool.specs.contract.Watched.{call_for};

use crate::commands::check::checker::CheckFault;
use crate::commands::check::watch::Watch;
use pb_proof::{ProofMachine, Statement};
use pb_replay::{Fault, Replay};
use pb_text::{Feeder, Place, Spanned};

/// Steps through a statement that was read, and shows it to the watch. The feeder uses the memory
/// of the statement again.
pub(crate) fn step_watched<V: Watch>(
    replay: &mut Replay,
    feeder: &mut Feeder<ProofMachine>,
    read: Spanned<Statement>,
    watch: &mut V,
) -> Result<(), CheckFault>
    requires { IsStatementValue (largest replay.old.limits) (top_of replay.old.limits) read.event }
    ensures steps { (now : Result State AFault) → IsAt replay.old now
        → StepsFrom replay.old.limits replay.old.problem now read result replay.new }
    ensures names { IsNamePrefix replay.old.names replay.new.names }
    ensures unvalued { (at : Place) (n : ℕ) → result ≡ Err (CheckFault.Step at (Fault.NotTotal n)) →
        n < length replay.old.names }
    ensures limits { replay.new.limits ≡ replay.old.limits }
    ensures problem { replay.new.problem ≡ replay.old.problem }
    ensures shown { V.got watch.old (call_for read replay.new result) watch.new }
    ensures feeder { feeder.new ≡ feeder.old }
{
    let done = step_through(replay, &read);
    match done {
        Ok(()) => watch.accepted(&read, replay),
        Err(fault) => watch.rejected(&read, replay, fault),
    }
    feeder.reuse(read.event);
    done
}

/// Steps through a statement that was read.
fn step_through(replay: &mut Replay, read: &Spanned<Statement>) -> Result<(), CheckFault>
    requires { IsStatementValue (largest replay.old.limits)
        (top_of replay.old.limits) read.now.event }
    ensures steps { (now : Result State AFault) → IsAt replay.old now
        → StepsFrom replay.old.limits replay.old.problem now read.now result replay.new }
    ensures names { IsNamePrefix replay.old.names replay.new.names }
    ensures unvalued { (at : Place) (n : ℕ) → result ≡ Err (CheckFault.Step at (Fault.NotTotal n)) →
        n < length replay.old.names }
    ensures limits { replay.new.limits ≡ replay.old.limits }
    ensures problem { replay.new.problem ≡ replay.old.problem }
{
    match replay.step(&read.event) {
        Ok(()) => Ok(()),
        Err(fault) => Err(rejected_at(read, fault)),
    }
}

/// The fault of a rejected statement, at its first byte.
fn rejected_at(read: &Spanned<Statement>, fault: Fault) -> CheckFault
    ensures { result ≡ CheckFault.Step read.now.first fault }
{
    CheckFault::Step(read.first, fault)
}
