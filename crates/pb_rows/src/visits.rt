//! The visits of a proof's propagation, for a benchmark. This is not a row.

ghost use Rattle.std.specs.Prelude.{false, ◌≡◌};

use crate::broken::Broken;
use crate::check::replay_of;
use crate::steps::step_one;
use pb_proof::{ProofMachine, Statement};
use pb_replay::Replay;
use pb_sums::write_count;
use pb_text::{Failed, Feeder, Limits, Machine, Sink, write_bytes};
use std::alloc::Global;

/// The statements that a replay was stepped through, and the visits of all `rup`s among them.
#[derive(Clone, Copy)]
struct Visits {
    statements: u64,
    visits: u64,
}

/// Steps a replay of an instance through the statements of a proof, each of which it must accept.
/// Writes the number of the statements, and the number of visits that their `rup`s took.
pub(crate) fn write_visits<S: Sink>(
    alloc: Global,
    instance: &[u8],
    proof: &[u8],
    out: &mut S,
) -> Result<(), Broken> {
    let Ok(mut replay) = replay_of(alloc, instance, Limits::full())? else {
        return Err(Broken::Value);
    };
    let visits = count_visits(alloc, &mut replay, proof);
    drop(replay);
    visits?.write(out)?;
    Ok(())
}

/// Steps a replay through the statements of a proof.
fn count_visits(alloc: Global, replay: &mut Replay, proof: &[u8]) -> Result<Visits, Broken> {
    let machine = ProofMachine::new(alloc, replay.limits());
    visits_of(machine, replay, proof)
}

/// Steps a replay through the statements that a machine reads.
fn visits_of<M: Machine<Event = Statement> + Drop>(
    machine: M,
    replay: &mut Replay,
    proof: &[u8],
) -> Result<Visits, Broken>
    requires between { M.automaton.begun machine ≡ false }
{
    let mut feeder = Feeder::new(machine);
    let mut visits = Visits {
        statements: 0,
        visits: 0,
    };
    add_each(&mut feeder, replay, proof, &mut visits)?;
    Ok(visits)
}

fn add_each<M: Machine<Event = Statement>>(
    feeder: &mut Feeder<M>,
    replay: &mut Replay,
    proof: &[u8],
    visits: &mut Visits,
) -> Result<(), Broken> {
    let mut rest = proof;
    for _ in 0..proof.len() {
        let Ok(fed) = feeder.feed(rest) else {
            return Err(Broken::Value);
        };
        rest = &rest[fed.used.min(rest.len())..];
        match fed.event {
            Some(read) => visits.add(replay, &read.event)?,
            None => return Ok(()),
        }
    }
    Ok(())
}

impl Visits {
    fn write<S: Sink>(self, out: &mut S) -> Result<(), Failed> {
        write_count(self.statements, out)?;
        write_bytes(b" statements, ", out)?;
        write_count(self.visits, out)?;
        write_bytes(b" visits\n", out)
    }

    /// Steps a replay through a statement, and adds its visits if it is a `rup`.
    fn add(&mut self, replay: &mut Replay, statement: &Statement) -> Result<(), Broken> {
        if step_one(replay, statement)?.is_err() {
            return Err(Broken::Value);
        }
        self.statements = self.statements.saturating_add(1);
        if let Statement::Rup(_) = statement {
            self.visits = self.visits.saturating_add(replay.visits());
        }
        Ok(())
    }
}
