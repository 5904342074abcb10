//! Counts of a check.

ghost use Rattle.std.specs.Prelude.{◌≡◌};
ghost use Rattle.std.specs.List.{flat_map};
ghost use Rattle.pb_text.specs.meaning.Writing.{Writes};
ghost use Rattle.pb_trace.specs.Counted.{count_line, counted, deletions_of, no_counts, seen};
ghost use Rattle.pb_trace.specs.Counted.{seen_by, statements_in, stats_bytes, visits_of};

use crate::write::write_counted;
use pb_proof::Statement;
use pb_replay::Replay;
use pb_text::{Failed, Sink, Spanned};
use pb_tool::{CheckFault, Watch};

/// How many accepted statements of each kind a check has seen, and how large the replay was.
#[derive(Drop)]
pub struct Stats {
    pol: u64,
    rup: u64,
    soli: u64,
    solx: u64,
    delete: u64,
    others: u64,
    visits: u64,
    newest: u64,
    live: u64,
    most_live: u64,
    bytes: u64,
}

impl Stats {
    /// Before any statement.
    pub fn new() -> Stats
        ensures { result ≡ no_counts }
    {
        Stats {
            pol: 0,
            rup: 0,
            soli: 0,
            solx: 0,
            delete: 0,
            others: 0,
            visits: 0,
            newest: 0,
            live: 0,
            most_live: 0,
            bytes: 0,
        }
    }

    /// How many bytes of the proof the accepted statements have taken.
    pub fn bytes(&self) -> u64
        ensures { result ≡ self.now.bytes }
    {
        self.bytes
    }

    /// How many statements were accepted.
    pub fn statements(&self) -> u64
        ensures { result ≡ statements_in self.now }
    {
        let steps = self
            .pol
            .saturating_add(self.rup)
            .saturating_add(self.delete);
        let solutions = self.soli.saturating_add(self.solx);
        steps.saturating_add(solutions).saturating_add(self.others)
    }

    /// Writes the counts, one a line.
    pub fn write<S: Sink>(&self, out: &mut S) -> Result<(), Failed>
        ensures { Writes S.contents S.faults out.old (stats_bytes self.now) result out.new }
    {
        let counts: [(&[u8], u64); 11] = [
            (b"statements", self.statements()),
            (b"pol", self.pol),
            (b"rup", self.rup),
            (b"soli", self.soli),
            (b"solx", self.solx),
            (b"del id", self.delete),
            (b"newest id", self.newest),
            (b"live constraints at the end", self.live),
            (b"live constraints at most", self.most_live),
            (b"visits of propagation", self.visits),
            (b"bytes of the proof", self.bytes),
        ];
        write_counts(&counts, out)
    }

    /// Counts a statement by its kind.
    fn count(&mut self, statement: &Statement)
        ensures { self.new ≡ counted self.old statement.now }
    {
        match statement {
            Statement::Pol(_) => self.pol = self.pol.saturating_add(1),
            Statement::Rup(_) => self.rup = self.rup.saturating_add(1),
            Statement::Soli(_) => self.soli = self.soli.saturating_add(1),
            Statement::Solx(_) => self.solx = self.solx.saturating_add(1),
            Statement::Delete(_) => self.delete = self.delete.saturating_add(1),
            Statement::Header
            | Statement::F(_)
            | Statement::Output
            | Statement::Conclude(_)
            | Statement::End => self.others = self.others.saturating_add(1),
        }
    }
}

/// Writes counts with their names, one a line.
#[tactic(auto, using(crate::proofs::Texts::texts))]
fn write_counts<S: Sink>(counts: &[(&[u8], u64)], out: &mut S) -> Result<(), Failed>
    ensures { Writes S.contents S.faults out.old
        (flat_map (λ c. count_line c.0.now c.1) counts.entry.now) result out.new }
{
    for (name, count) in counts {
        write_counted(name, *count, out)?;
    }
    Ok(())
}

/// How many visits of propagation a statement needed.
fn visits_of(statement: &Statement, replay: &Replay) -> u64
    ensures { result ≡ visits_of statement.now replay.now }
{
    match statement {
        Statement::Rup(_) => replay.visits(),
        Statement::Header
        | Statement::F(_)
        | Statement::Pol(_)
        | Statement::Soli(_)
        | Statement::Solx(_)
        | Statement::Delete(_)
        | Statement::Output
        | Statement::Conclude(_)
        | Statement::End => 0,
    }
}

/// How many constraints a statement deleted.
fn deletions_of(statement: &Statement) -> u64
    ensures { result ≡ deletions_of statement.now }
{
    match statement {
        Statement::Delete(ids) => ids.len() as u64,
        Statement::Header
        | Statement::F(_)
        | Statement::Pol(_)
        | Statement::Rup(_)
        | Statement::Soli(_)
        | Statement::Solx(_)
        | Statement::Output
        | Statement::Conclude(_)
        | Statement::End => 0,
    }
}

impl Watch for Stats {
    ghost got = { λ old call new. new ≡ seen_by old call };

    fn accepted(&mut self, read: &Spanned<Statement>, replay: &Replay)
        ensures { self.new ≡ seen self.old read.now replay.now }
    {
        self.count(&read.event);
        let newest = replay.newest();
        let gained = newest.saturating_sub(self.newest);
        self.visits = self.visits.saturating_add(visits_of(&read.event, replay));
        self.live = self
            .live
            .saturating_sub(deletions_of(&read.event))
            .saturating_add(gained);
        self.newest = newest;
        self.most_live = self.most_live.max(self.live);
        self.bytes = read.past.offset;
    }

    fn rejected(&mut self, _read: &Spanned<Statement>, _replay: &Replay, _fault: CheckFault)
        ensures { self.new ≡ self.old }
    {}
}
