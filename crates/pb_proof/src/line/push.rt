//! The line machines as one machine.

ghost use Rattle.std.specs.Prelude.{◌≡◌};
ghost use Rattle.pb_text.specs.meaning.Limits.{largest, top_of};
ghost use Rattle.pb_proof.specs.engine.line.Machine.{line_first, IsCarried, line_automaton};

use crate::line::LineMachine;
use crate::line::conclusion::ConclusionWords;
use crate::line::delete::DeleteWords;
use crate::line::formula::FormulaWords;
use crate::line::pol::PolWords;
use crate::line::rup::RupMachine;
use crate::line::solution::SolutionWords;
use crate::machine::phase::LineKind;
use crate::statement::Statement;
use pb_lines::WordMachine;
use pb_text::{Limits, Machine, Push, Sequence, Spare};
use std::alloc::Global;

/// The answer of the machine that reads this statement.
macro_rules! whichever {
    ($line:expr, $machine:ident => $answer:expr) => {
        match $line {
            LineMachine::Formula($machine) => $answer,
            LineMachine::Pol($machine) => $answer,
            LineMachine::Rup($machine) => $answer,
            LineMachine::Soli($machine) => $answer,
            LineMachine::Solx($machine) => $answer,
            LineMachine::Delete($machine) => $answer,
            LineMachine::Conclusion($machine) => $answer,
        }
    };
}

/// The answer of one line machine, as an answer of `LineMachine`.
fn carried<E, F: FnOnce(E) -> Statement + Drop>(answer: Push<E>, statement: F) -> Push<Statement>
    requires { F.IsAlwaysCallable statement }
    ensures { IsCarried (F.post statement) answer result }
{
    match answer {
        Push::Go => Push::Go,
        Push::Event(event) => Push::Event(statement(event)),
        Push::No => Push::No,
        Push::Large => Push::Large,
        Push::Memory => Push::Memory,
    }
}

/// The line machine for this kind of line, at the start of its text. Ids take the spare memory.
/// Creating it does not allocate.
pub fn line_first(
    alloc: Global,
    limits: Limits,
    kind: LineKind,
    spare: &mut Spare<i64>,
) -> LineMachine
    ensures { result ≡ line_first (largest limits) (top_of limits) kind }
{
    match kind {
        LineKind::Formula => LineMachine::Formula(WordMachine::new(
            alloc,
            limits,
            FormulaWords::new(),
        )),
        LineKind::Pol => LineMachine::Pol(WordMachine::new(alloc, limits, PolWords::new(alloc))),
        LineKind::Rup => LineMachine::Rup(RupMachine::new(alloc, limits)),
        LineKind::Soli => {
            LineMachine::Soli(WordMachine::new(alloc, limits, SolutionWords::new(alloc)))
        }
        LineKind::Solx => {
            LineMachine::Solx(WordMachine::new(alloc, limits, SolutionWords::new(alloc)))
        }
        LineKind::Delete => {
            let ids = spare.list(0).unwrap_or(Sequence::new(alloc));
            LineMachine::Delete(WordMachine::new(alloc, limits, DeleteWords::new(ids)))
        }
        LineKind::Conclusion => {
            let words = ConclusionWords::new(alloc);
            LineMachine::Conclusion(WordMachine::new(alloc, limits, words))
        }
    }
}

impl LineMachine {
    ghost use Rattle.std.specs.Prelude.{◌≤◌, take, length};
    ghost use Rattle.pb_text.specs.contract.Automaton.{Pushes, Runs};

    /// Takes a prefix of a piece that ends no statement.
    fn run(&mut self, piece: &[u8]) -> usize
        ensures bound { result ≤ length piece.now }
        ensures runs { Runs line_automaton self.old (take result piece.now) self.new }
    {
        whichever!(self, machine => machine.take_run(piece))
    }

    /// Takes a byte.
    fn take(&mut self, byte: u8) -> Push<Statement>
        ensures { Pushes line_automaton self.old byte result self.new }
    {
        match self {
            LineMachine::Formula(machine) => carried(machine.push(byte), Statement::F),
            LineMachine::Pol(machine) => carried(machine.push(byte), Statement::Pol),
            LineMachine::Rup(machine) => carried(machine.push(byte), Statement::Rup),
            LineMachine::Soli(machine) => carried(machine.push(byte), Statement::Soli),
            LineMachine::Solx(machine) => carried(machine.push(byte), Statement::Solx),
            LineMachine::Delete(machine) => carried(machine.push(byte), Statement::Delete),
            LineMachine::Conclusion(machine) => carried(machine.push(byte), Statement::Conclude),
        }
    }
}

impl Machine for LineMachine {
    type Event = Statement;

    ghost automaton = { line_automaton };

    fn take_run(&mut self, piece: &[u8]) -> usize {
        let taken = self.run(piece);
        let _ = self.is_done();
        taken
    }

    fn push(&mut self, byte: u8) -> Push<Statement> {
        let answer = self.take(byte);
        let _ = self.is_done();
        answer
    }

    fn is_done(&self) -> bool {
        whichever!(self, machine => machine.is_done())
    }

    fn starts(&self, byte: u8) -> bool {
        whichever!(self, machine => machine.starts(byte))
    }

    fn held(&self) -> usize {
        whichever!(self, machine => machine.held())
    }
}
