//! `pb trace`: the statements of a check, each with what it adds.

ghost use Rattle.std.specs.Prelude.{◌≡◌, [], OnOk, IfErr};
ghost use Rattle.std.specs.Result.{IsErr};
ghost use Rattle.pb_trace.specs.Live.{live_in};
ghost use Rattle.pb_trace.specs.Derived.{IsShown};
ghost use Rattle.pb_trace.specs.Rejected.{IsUnshown, IsWrong, Rejects, fault_in, rejected_line};
ghost use Rattle.pb_trace.specs.Traced.{FollowsLine, ShowsAlike, ShowsReasons, Traces, TracesCall, broken_by, end_of, StoresLine, extended, line_of_trace, seen_of};

use crate::broken::Broken;
use crate::facts::Facts;
use crate::instance_text::InstanceText;
use crate::line::write_line;
use crate::reasons::Scene;
use crate::rejected::{words_in, write_reasons, write_rejected_line};
use crate::stored::Constraints;
use crate::write::Style;
use pb_proof::Statement;
use pb_replay::{Fault, Replay};
use pb_text::{Sink, Spanned};
use pb_tool::{CheckFault, Input, ToolFault, Watch};
use std::alloc::Global;
use std::marker::Model;

/// Writes a line for each accepted statement: its position, its canonical text, and each constraint
/// that it adds, as in `3:1 pol 1 2 + -> 3: >= 1 ;`. `f` and `del id` have a line for each
/// constraint, and `soli` ends with the best value so far. If a statement is rejected, further
/// lines say why. Each of these begins with two spaces.
#[derive(Drop)]
pub struct Trace<S> {
    out: S,
    alloc: Global,
    constraints: Constraints,
    text: InstanceText,
    /// Whether constraints are shown by their ids alone.
    ids: bool,
    /// The line of the statement that logged the best value, or 0.
    logged: u64,
    broken: Option<Broken>,
}

impl<S> Model for Trace<S> {
    ghost use Rattle.pb_trace.specs.Live.{live_in};
    ghost use Rattle.pb_trace.specs.Traced.{Tracing, end_of};

    ghost Value = { Tracing S };

    ghost view = { λ t. record {
      out = t.out;
      stored = live_in t.constraints.forms.items;
      end = end_of t.broken;
      ids = t.ids;
      lines = t.text.lines.items;
    } };
}

impl<S: Sink> Trace<S> {
    /// Before any statement. If `ids` is true, constraints are shown by their ids alone.
    pub fn new(alloc: Global, out: S, ids: bool) -> Trace<S>
        ensures out { result.out ≡ out }
        ensures stored { result.stored ≡ [] }
        ensures end { result.end ≡ Ok tt }
        ensures ids { result.ids ≡ ids }
        ensures lines { result.lines ≡ [] }
    {
        Trace {
            out,
            alloc,
            constraints: Constraints::new(alloc),
            text: InstanceText::unknown(alloc),
            ids,
            logged: 0,
            broken: None,
        }
    }

    /// Takes what the text of the instance says. The lines of its constraints are shown from then
    /// on.
    pub fn describe(&mut self, text: InstanceText)
        ensures lines { self.new.lines ≡ text.lines.items }
        ensures out { self.new.out ≡ self.old.out }
        ensures stored { self.new.stored ≡ self.old.stored }
        ensures end { self.new.end ≡ self.old.end }
        ensures ids { self.new.ids ≡ self.old.ids }
    {
        self.text = text;
    }

    /// The sink.
    pub fn into_out(self) -> S
        ensures { result ≡ self.out }
    {
        self.out
    }

    /// Whether all lines were written. Otherwise memory ran out, or the output could not be
    /// written.
    pub fn end(&self) -> Result<(), ToolFault>
        ensures { result ≡ self.now.end }
    {
        match self.broken {
            None => Ok(()),
            Some(Broken::Memory) => Err(ToolFault::Memory(Input::Proof)),
            Some(Broken::Write) => Err(ToolFault::Write),
        }
    }

    /// Takes an accepted statement without its line: the reasons of a later rejection need what it
    /// adds and deletes.
    pub fn follow(&mut self, read: &Spanned<Statement>, replay: &Replay)
        ensures { FollowsLine S.contents S.faults self.old read.now replay.now self.new }
    {
        if self.broken.is_some() {
            return;
        }
        if let Err(broken) = self.store_accepted(read, replay) {
            self.broken = Some(broken);
        }
    }

    /// Writes why a statement was rejected, without the line of the statement. If memory ran out
    /// for it, the statement may be right, and nothing is written.
    pub fn explain(&mut self, read: &Spanned<Statement>, replay: &Replay, fault: CheckFault)
        ensures { ShowsReasons S.contents S.faults [] self.old read.now replay.now fault self.new }
    {
        if self.broken.is_some() {
            return;
        }
        let CheckFault::Step(_, fault) = fault else {
            return;
        };
        if let Fault::Memory = fault {
            return;
        }
        if let Err(broken) = self.write_why(read, replay, fault) {
            self.broken = Some(broken);
        }
    }

    /// Stores what an accepted statement adds, and that it deletes.
    fn store_accepted(&mut self, read: &Spanned<Statement>, replay: &Replay) -> Result<(), Broken>
        ensures out { self.new.out ≡ self.old.out }
        ensures stored { OnOk result (StoresLine self.old read.now replay.now self.new) }
        ensures end { self.new.end ≡ self.old.end }
        ensures alike { ShowsAlike self.old self.new }
        ensures memory { IfErr result (λ e. e ≡ Broken.Memory) }
    {
        self.take_added(read, replay)?;
        if let Statement::Delete(ids) = &read.event {
            self.constraints.delete_all(ids.as_slice(), read.first.line);
        }
        Ok(())
    }

    /// Stores what an accepted statement adds.
    fn take_added(&mut self, read: &Spanned<Statement>, replay: &Replay) -> Result<(), Broken>
        ensures out { self.new.out ≡ self.old.out }
        ensures stored { OnOk result (self.new.stored ≡ extended self.old.stored replay.now.live) }
        ensures end { self.new.end ≡ self.old.end }
        ensures alike { ShowsAlike self.old self.new }
        ensures memory { IfErr result (λ e. e ≡ Broken.Memory) }
    {
        let line = read.first.line;
        self.constraints.extend(replay, line)?;
        match &read.event {
            Statement::F(_) => self.constraints.end_instance(count_names(replay)),
            Statement::Soli(_) | Statement::Solx(_) => self.logged = line,
            _ => {}
        }
        Ok(())
    }

    /// Writes the line of an accepted statement.
    fn write_accepted(&mut self, read: &Spanned<Statement>, replay: &Replay) -> Result<(), Broken>
        ensures text { Traces S.contents S.faults self.old.out
            (line_of_trace self.old read.now replay.now) (end_of (broken_by result)) self.new.out }
        ensures stored { OnOk result (StoresLine self.old read.now replay.now self.new) }
        ensures end { self.new.end ≡ self.old.end }
        ensures alike { ShowsAlike self.old self.new }
    {
        let newest = self.constraints.newest();
        self.take_added(read, replay)?;
        let style = Style {
            ids: self.ids,
            lines: self.text.lines.as_slice(),
        };
        write_line(
            style,
            read,
            newest,
            &mut self.constraints,
            replay,
            &mut self.out,
        )?;
        Ok(())
    }

    /// Writes the line of a wrong statement, and the reasons.
    fn write_wrong(
        &mut self,
        read: &Spanned<Statement>,
        replay: &Replay,
        fault: Fault,
    ) -> Result<(), Broken>
        ensures text { Rejects S.contents S.faults (rejected_line read.now) self.old.out
            (seen_of self.old read.now replay.now fault) (end_of (broken_by result)) self.new.out }
        ensures stored { self.new.stored ≡ self.old.stored }
        ensures end { self.new.end ≡ self.old.end }
        ensures alike { ShowsAlike self.old self.new }
    {
        write_rejected_line(read, &mut self.out)?;
        self.write_why(read, replay, fault)
    }

    /// Writes the reasons for a wrong statement.
    fn write_why(
        &mut self,
        read: &Spanned<Statement>,
        replay: &Replay,
        fault: Fault,
    ) -> Result<(), Broken>
        ensures text { Rejects S.contents S.faults [] self.old.out
            (seen_of self.old read.now replay.now fault) (end_of (broken_by result)) self.new.out }
        ensures stored { self.new.stored ≡ self.old.stored }
        ensures end { self.new.end ≡ self.old.end }
        ensures alike { ShowsAlike self.old self.new }
    {
        let known = Scene::new(
            self.alloc,
            &self.constraints,
            &self.text,
            self.logged,
            replay,
        )?;
        let reasons = known.reasons(&read.event, fault)?;
        let facts = Facts {
            stored: self.constraints.all(),
            loaded: self.constraints.loaded().len(),
            lines: self.text.lines.as_slice(),
            words: words_in(&read.event),
            replay,
        };
        write_reasons(&reasons, &facts, &mut self.out)?;
        Ok(())
    }

    /// Writes the line of a rejected statement, and the reasons. If memory ran out, the statement
    /// may be right, and nothing is written.
    fn write_rejected(
        &mut self,
        read: &Spanned<Statement>,
        replay: &Replay,
        fault: CheckFault,
    ) -> Result<(), Broken>
        ensures text { IsWrong fault → Rejects S.contents S.faults (rejected_line read.now)
            self.old.out (seen_of self.old read.now replay.now (fault_in fault))
            (end_of (broken_by result)) self.new.out }
        ensures silent { (IsWrong fault → ⊥) → (self.new ≡ self.old) × (result ≡ Ok tt) }
        ensures stored { self.new.stored ≡ self.old.stored }
        ensures end { self.new.end ≡ self.old.end }
        ensures alike { ShowsAlike self.old self.new }
    {
        let CheckFault::Step(_, fault) = fault else {
            return Ok(());
        };
        match fault {
            Fault::Memory => Ok(()),
            _ => self.write_wrong(read, replay, fault),
        }
    }
}

/// How many names a replay has.
fn count_names(replay: &Replay) -> usize {
    for number in 0..usize::MAX {
        if replay.name_of(number).is_none() {
            return number;
        }
    }
    usize::MAX
}

impl<S: Sink> Watch for Trace<S> {
    ghost got = { TracesCall S.contents S.faults };

    fn accepted(&mut self, read: &Spanned<Statement>, replay: &Replay) {
        if self.broken.is_some() {
            return;
        }
        if let Err(broken) = self.write_accepted(read, replay) {
            self.broken = Some(broken);
        }
    }

    fn rejected(&mut self, read: &Spanned<Statement>, replay: &Replay, fault: CheckFault) {
        if self.broken.is_some() {
            return;
        }
        if let Err(broken) = self.write_rejected(read, replay, fault) {
            self.broken = Some(broken);
        }
    }
}
