//! Rows of a replay, statement by statement.

ghost use Rattle.std.specs.Prelude.{false, ◌≡◌};

use crate::broken::Broken;
use crate::check::{inputs_of, replay_for, report_verdict};
use crate::command::report_fault;
use crate::constraint::{Named, write_form};
use crate::name::lines_of;
use crate::page::{Done, Page, answered, finished, page, report_count, report_either};
use crate::row::call::Call;
use pb_proof::{ProofMachine, Statement, statement_is_value};
use pb_replay::{Fault, Replay};
use pb_sums::write_count;
use pb_text::{Feeder, Machine, Place, Spanned, write_bytes};
use pb_tool::ToolFault;
use std::alloc::Global;
use std::str::FromStr;

/// The least that a proof has before its `f`; before its steps and its output; before its
/// conclusion; and before its closing words.
const HEADER: &[u8] = b"pseudo-Boolean proof version 2.0\n";

pub const BEFORE_STEPS: &[u8] = b"pseudo-Boolean proof version 2.0\nf\n";

const BEFORE_CONCLUSION: &[u8] = b"pseudo-Boolean proof version 2.0\nf\noutput NONE\n";

const BEFORE_END: &[u8] = b"pseudo-Boolean proof version 2.0\nf\noutput NONE\nconclusion NONE\n";

impl Named for Replay {
    fn text_of(&self, number: usize) -> Option<&str> {
        self.name_of(number)
    }
}

/// Steps a replay over the instance through the statements of a proof, whose header is not in the
/// row. With `alone` each line is read by itself. Writes the constraints that are live at the end,
/// each after its id. Reports the verdict if there is one, or the first fault. With `visits-least`
/// and `visits-most` it reports whether the visits of the last `rup` are in that range.
pub(crate) fn run_steps(alloc: Global, call: &Call, text: &[u8]) -> Result<Done, Broken> {
    let (instance, lines) = inputs_of(text)?;
    let Ok(mut replay) = replay_for(alloc, call, instance)? else {
        let mut reported = page(alloc);
        write_bytes(b"no replay\n", &mut reported)?;
        return Ok(answered(alloc, reported));
    };
    let done = run_over(alloc, call, &mut replay, lines);
    drop(replay);
    done
}

// The same, over a replay.
fn run_over(alloc: Global, call: &Call, replay: &mut Replay, lines: &[u8]) -> Result<Done, Broken> {
    let mut reported = page(alloc);
    let mut out = page(alloc);
    let statements = statements_of(alloc, call, lines)?;
    match step_all(replay, statements.as_slice())? {
        Ok(()) => {
            write_live(replay, &mut out)?;
            report_state(replay, &mut reported)?;
        }
        Err((place, fault)) => report_refusal(alloc, replay, place, fault, &mut reported)?,
    }
    report_visit_range(call, replay.visits(), &mut reported)?;
    Ok(finished(out, reported))
}

/// The statements of the lines of a row.
fn statements_of(
    alloc: Global,
    call: &Call,
    lines: &[u8],
) -> Result<Vec<Spanned<Statement>>, Broken> {
    if call.is_alone {
        each_alone(alloc, call, lines_of(lines)?)
    } else {
        read_after(alloc, call, HEADER, lines)
    }
}

/// The statements of a proof that begins with a prefix and continues with lines.
fn read_after(
    alloc: Global,
    call: &Call,
    prefix: &[u8],
    lines: &[u8],
) -> Result<Vec<Spanned<Statement>>, Broken> {
    let mut text = Vec::new(alloc);
    text.extend_from_slice(prefix)?;
    text.extend_from_slice(lines)?;
    let limits = call.limits()?;
    read_each(alloc, ProofMachine::new(alloc, limits), text.as_slice())
}

/// The events of a text, up to the last one that ends in it.
fn read_each<M: Machine + Drop>(
    alloc: Global,
    machine: M,
    text: &[u8],
) -> Result<Vec<Spanned<M::Event>>, Broken>
    requires between { M.automaton.begun machine ≡ false }
{
    let mut feeder = Feeder::new(machine);
    let mut events = Vec::new(alloc);
    let mut rest = text;
    for _ in 0..text.len() {
        let Ok(fed) = feeder.feed(rest) else {
            return Err(Broken::Value);
        };
        rest = &rest[fed.used.min(rest.len())..];
        match fed.event {
            Some(read) => events.push(read)?,
            None => break,
        }
    }
    Ok(events)
}

/// The statement of each line, read by itself, so that the lines may be in any order.
fn each_alone(alloc: Global, call: &Call, lines: &str) -> Result<Vec<Spanned<Statement>>, Broken> {
    let mut statements = Vec::new(alloc);
    let mut number = 0u64;
    for line in lines.lines() {
        number = number.saturating_add(1);
        let mut read = alone(alloc, call, line)?;
        read.first.line = number;
        statements.push(read)?;
    }
    Ok(statements)
}

/// The statement of a line, read after the least that a proof has before it.
fn alone(alloc: Global, call: &Call, line: &str) -> Result<Spanned<Statement>, Broken> {
    let prefix = prefix_for(line);
    let text = ended(alloc, line)?;
    let statements = read_after(alloc, call, prefix, text.as_slice())?;
    last_of(statements, prefix.len() as u64)
}

/// A line with its line feed.
fn ended(alloc: Global, line: &str) -> Result<Vec<u8>, Broken> {
    let mut text = Vec::new(alloc);
    text.extend_from_slice(line.as_bytes())?;
    text.push(b'\n')?;
    Ok(text)
}

/// The last of the statements, which must begin after the bytes of a prefix.
fn last_of(
    mut statements: Vec<Spanned<Statement>>,
    prefix: u64,
) -> Result<Spanned<Statement>, Broken> {
    match statements.pop() {
        Some(read) if read.first.offset >= prefix => Ok(read),
        _ => Err(Broken::Value),
    }
}

/// The least that a proof has before a statement with the first word of the line.
fn prefix_for(line: &str) -> &'static [u8] {
    match line.split_whitespace().next() {
        Some("pseudo-Boolean") => b"",
        Some("f") => HEADER,
        Some("conclusion") => BEFORE_CONCLUSION,
        Some("end") => BEFORE_END,
        _ => BEFORE_STEPS,
    }
}

/// Steps through each statement, and returns the first fault and its position.
fn step_all(
    replay: &mut Replay,
    statements: &[Spanned<Statement>],
) -> Result<Result<(), (Place, Fault)>, Broken> {
    for read in statements {
        if let Err(fault) = step_one(replay, &read.event)? {
            return Ok(Err((read.first, fault)));
        }
    }
    Ok(Ok(()))
}

/// Steps through one statement.
pub(crate) fn step_one(
    replay: &mut Replay,
    statement: &Statement,
) -> Result<Result<(), Fault>, Broken> {
    if !statement_is_value(statement, replay.limits()) {
        return Err(Broken::Value);
    }
    Ok(replay.step(statement))
}

/// Writes each live constraint after its id.
fn write_live(replay: &Replay, out: &mut Page) -> Result<(), Broken> {
    for id in 1..replay.newest().saturating_add(1) {
        if let Some(form) = replay.constraint(id) {
            write_count(id, out)?;
            write_bytes(b": ", out)?;
            write_form(form, replay, out)?;
        }
    }
    Ok(())
}

fn report_state(replay: &Replay, reported: &mut Page) -> Result<(), Broken> {
    match replay.verdict() {
        Some(verdict) => report_verdict(verdict, reported)?,
        None => write_bytes(b"ok\n", reported)?,
    }
    Ok(())
}

/// Reports a fault. The replay must return it again and show no verdict.
fn report_refusal(
    alloc: Global,
    replay: &mut Replay,
    place: Place,
    fault: Fault,
    reported: &mut Page,
) -> Result<(), Broken> {
    let name = unvalued(alloc, replay, fault)?;
    report_fault(&ToolFault::Step { place, fault, name }, reported)?;
    if replay.step(&Statement::End) != Err(fault) || replay.verdict().is_some() {
        write_bytes(b"not again\n", reported)?;
    }
    Ok(())
}

/// The name that has no value, if that is the fault.
fn unvalued(alloc: Global, replay: &Replay, fault: Fault) -> Result<String, Broken> {
    if let Fault::NotTotal(number) = fault
        && let Some(name) = replay.name_of(number)
    {
        return Ok(String::from_str(alloc, name)?);
    }
    Ok(String::new(alloc))
}

fn report_visit_range(call: &Call, visits: u64, reported: &mut Page) -> Result<(), Broken> {
    if let Some(least) = call.visits_least {
        let is_within = least <= visits && visits <= call.visits_most;
        report_either(is_within, b"visits within\n", b"visits outside: ", reported)?;
        if !is_within {
            report_count(visits, b"\n", reported)?;
        }
    }
    Ok(())
}
