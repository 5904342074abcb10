//! Rows of feeders: a text in pieces.

ghost use Rattle.std.specs.Prelude.{false, ◌≡◌};

use crate::broken::Broken;
use crate::page::{Done, Page, finished, is_same, page, report_count, report_end};
use crate::row::call::{Call, Grammar, Verb};
use crate::steps::BEFORE_STEPS;
use pb_opb::{OpbEvent, OpbMachine, write_event};
use pb_proof::{ProofMachine, Statement, write_statement};
use pb_sums::{Spaces, SumEvent, SumMachine, write_linear, write_place, write_sum};
use pb_text::{Failed, Feeder, Machine, Place, Sink, Spanned, Stop, write_bytes};
use std::alloc::Global;

/// An event that has a text.
pub trait Shown {
    fn write_shown<S: Sink>(&self, out: &mut S) -> Result<(), Failed>;
}

impl Shown for OpbEvent {
    fn write_shown<S: Sink>(&self, out: &mut S) -> Result<(), Failed> {
        write_event(self, out)
    }
}

impl Shown for Statement {
    fn write_shown<S: Sink>(&self, out: &mut S) -> Result<(), Failed> {
        write_statement(self, out)
    }
}

impl Shown for SumEvent {
    fn write_shown<S: Sink>(&self, out: &mut S) -> Result<(), Failed> {
        match self {
            SumEvent::Sum(terms) => write_sum(terms.as_slice(), out),
            SumEvent::Linear(linear) => write_linear(linear, out),
        }
    }
}

/// The state of a feeder at the end of a text.
#[derive(Clone, Copy)]
pub struct End {
    pub end: Result<(), Stop>,
    pub place: Place,
    pub held: usize,
}

/// How a text is cut: a first piece, and pieces of one size.
#[derive(Clone, Copy)]
pub struct Cut {
    pub first: usize,
    pub size: usize,
}

/// What comes before the text of an event.
#[derive(Clone, Copy)]
pub(crate) enum Shape {
    /// The position of its first byte.
    First,
    /// The positions of its first byte and of the byte after its last.
    Span,
}

impl Shape {
    pub(crate) fn of(call: &Call) -> Shape {
        if call.has_spans {
            Shape::Span
        } else {
            Shape::First
        }
    }
}

/// Feeds a text in one piece, in pieces of 1, 2 and 37 bytes, and in two pieces with each cut.
/// Returns the first unexpected result, or else the last one.
pub(crate) fn run_feed(
    alloc: Global,
    call: &Call,
    text: &[u8],
    wanted: &Done,
) -> Result<Done, Broken> {
    for size in [1, 2, 37] {
        let found = feed_cut(alloc, call, text, Cut { first: size, size })?;
        if !is_same(&found, wanted) {
            return Ok(found);
        }
    }
    for first in 0..text.len() {
        let size = usize::MAX;
        let found = feed_cut(alloc, call, text, Cut { first, size })?;
        if !is_same(&found, wanted) {
            return Ok(found);
        }
    }
    let (first, size) = (usize::MAX, 1);
    feed_cut(alloc, call, text, Cut { first, size })
}

fn feed_cut(alloc: Global, call: &Call, text: &[u8], cut: Cut) -> Result<Done, Broken> {
    let mut out = page(alloc);
    let end = feed_all(alloc, call, text, cut, &mut out)?;
    let mut reported = page(alloc);
    report(end, call.is_held, &mut reported)?;
    match call.verb {
        Verb::Stop => Ok(finished(page(alloc), reported)),
        _ => Ok(finished(out, reported)),
    }
}

fn report<S: Sink>(end: End, is_held: bool, out: &mut S) -> Result<(), Failed> {
    report_end(end.end, out)?;
    report_count(end.place.offset, b" bytes\n", out)?;
    if is_held {
        report_count(end.held as u64, b" held\n", out)?;
    }
    Ok(())
}

/// Feeds a text to the machine of its grammar.
pub(crate) fn feed_all(
    alloc: Global,
    call: &Call,
    text: &[u8],
    cut: Cut,
    out: &mut Page,
) -> Result<End, Broken> {
    let limits = call.limits()?;
    match call.grammar {
        Grammar::Opb => {
            let machine = OpbMachine::new(alloc, limits);
            Ok(feed_machine(machine, call, b"", text, cut, out))
        }
        Grammar::Proof => {
            let machine = ProofMachine::new(alloc, limits);
            Ok(feed_machine(machine, call, b"", text, cut, out))
        }
        Grammar::Lines => {
            let machine = ProofMachine::new(alloc, limits);
            Ok(feed_machine(machine, call, BEFORE_STEPS, text, cut, out))
        }
        Grammar::Sum(part) => {
            let machine = SumMachine::new(alloc, spaces_of(call), part, limits);
            Ok(feed_machine(machine, call, b"", text, cut, out))
        }
        Grammar::Statement => Err(Broken::Word),
    }
}

/// The spaces of a sum: white space, or blanks only.
fn spaces_of(call: &Call) -> Spaces {
    if call.has_blanks {
        Spaces::Blank
    } else {
        Spaces::White
    }
}

/// Feeds a text to a machine after a prefix whose events are not shown.
fn feed_machine<E: Shown + Drop, M: Machine<Event = E> + Drop>(
    machine: M,
    call: &Call,
    prefix: &[u8],
    text: &[u8],
    cut: Cut,
    out: &mut Page,
) -> End
    requires between { M.automaton.begun machine ≡ false }
{
    let mut feeder = Feeder::within(machine, call.most());
    take_prefix(&mut feeder, prefix);
    let fed = feed_pieces(&mut feeder, text, cut, Shape::of(call), out);
    End {
        end: end_of(&mut feeder, fed, text),
        place: feeder.place(),
        held: feeder.held(),
    }
}

/// Feeds a prefix, and shows none of its events.
fn take_prefix<E: Drop, M: Machine<Event = E>>(feeder: &mut Feeder<M>, prefix: &[u8]) {
    let mut rest = prefix;
    for _ in 0..prefix.len() {
        let Ok(fed) = feeder.feed(rest) else {
            return;
        };
        rest = &rest[fed.used.min(rest.len())..];
    }
}

/// The result of a feeder at the end. A feeder that stopped must return its stop again for each
/// call, whatever it is fed.
fn end_of<E: Drop, M: Machine<Event = E>>(
    feeder: &mut Feeder<M>,
    fed: Result<(), Stop>,
    text: &[u8],
) -> Result<(), Stop> {
    let Err(stop) = fed else {
        return feeder.finish();
    };
    match (feeder.feed(text), feeder.finish()) {
        (Err(again), Err(end)) if again == stop && end == stop => Err(stop),
        _ => Ok(()),
    }
}

fn feed_pieces<E: Shown + Drop, M: Machine<Event = E>>(
    feeder: &mut Feeder<M>,
    text: &[u8],
    cut: Cut,
    shape: Shape,
    out: &mut Page,
) -> Result<(), Stop> {
    let (prefix, rest) = text.split_at(cut.first.min(text.len()));
    feed_piece(feeder, prefix, shape, out)?;
    for piece in rest.chunks(cut.size.max(1)) {
        feed_piece(feeder, piece, shape, out)?;
    }
    Ok(())
}

/// Feeds one piece, and shows its events.
fn feed_piece<E: Shown + Drop, M: Machine<Event = E>>(
    feeder: &mut Feeder<M>,
    piece: &[u8],
    shape: Shape,
    out: &mut Page,
) -> Result<(), Stop> {
    let mut rest = piece;
    for _ in 0..piece.len() {
        let fed = feeder.feed(rest)?;
        let used = fed.used.min(rest.len());
        rest = &rest[used..];
        match fed.event {
            Some(spanned) => {
                let _ = show_one(&spanned, shape, out);
            }
            None => return Ok(()),
        }
    }
    Ok(())
}

/// Writes the line of an event: the position of its first byte or both its positions, and its text.
pub(crate) fn show_one<E: Shown, S: Sink>(
    spanned: &Spanned<E>,
    shape: Shape,
    out: &mut S,
) -> Result<(), Failed> {
    match shape {
        Shape::First => write_place(spanned.first, out)?,
        Shape::Span => write_span(spanned.first, spanned.past, out)?,
    }
    spanned.event.write_shown(out)?;
    write_bytes(b"\n", out)
}

/// Writes the positions of a first byte and of the byte after a last one, each with its offset.
fn write_span<S: Sink>(first: Place, past: Place, out: &mut S) -> Result<(), Failed> {
    write_place(first, out)?;
    report_count(first.offset, b" to ", out)?;
    write_place(past, out)?;
    report_count(past.offset, b": ", out)
}
