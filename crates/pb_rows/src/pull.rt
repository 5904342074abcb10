//! Rows of `pull`: the events of a source, one at a time.

ghost use Rattle.std.specs.Prelude.{false, ◌≡◌};

use crate::broken::Broken;
use crate::feed::{Shape, Shown, show_one};
use crate::page::{Done, Page, finished, page, report_count, report_either, report_end};
use crate::row::call::{Call, Grammar};
use crate::turns::reader_of;
use pb_opb::OpbMachine;
use pb_proof::ProofMachine;
use pb_text::{Feeder, Machine, Over, Source, Spanned, Stop, pull};
use std::alloc::Global;

/// Pulls all events of a text from a reader and writes them. Reports the end, whether one more pull
/// returns the same, and how many bytes were left to the reader.
pub(crate) fn run_pull(alloc: Global, call: &Call, text: &[u8]) -> Result<Done, Broken> {
    let limits = call.limits()?;
    match call.grammar {
        Grammar::Opb => pull_all(alloc, OpbMachine::new(alloc, limits), call, text),
        Grammar::Proof => pull_all(alloc, ProofMachine::new(alloc, limits), call, text),
        _ => Err(Broken::Word),
    }
}

fn pull_all<E: Shown + Drop, M: Machine<Event = E> + Drop>(
    alloc: Global,
    machine: M,
    call: &Call,
    text: &[u8],
) -> Result<Done, Broken>
    requires between { M.automaton.begun machine ≡ false }
{
    let mut reader = reader_of(call, text);
    reader.fails_at = call.reader_fails;
    let mut source = Over::new(reader);
    let mut feeder = Feeder::within(machine, call.most());
    let mut out = page(alloc);
    let mut reported = page(alloc);
    let end = pull_events(
        &mut source,
        &mut feeder,
        text.len(),
        Shape::of(call),
        &mut out,
    );
    report_end(end, &mut reported)?;
    let again = pull(&mut source, &mut feeder);
    report_either(
        is_same(end, again),
        b"the same again\n",
        b"not the same again\n",
        &mut reported,
    )?;
    let left = source.into_inner().left.len();
    report_count(left as u64, b" left\n", &mut reported)?;
    Ok(finished(out, reported))
}

/// Pulls events, which are at most as many as there are bytes.
fn pull_events<S: Source, E: Shown + Drop, M: Machine<Event = E>>(
    source: &mut S,
    feeder: &mut Feeder<M>,
    most: usize,
    shape: Shape,
    out: &mut Page,
) -> Result<(), Stop> {
    for _ in 0..most.saturating_add(1) {
        match pull(source, feeder)? {
            Some(spanned) => {
                let _ = show_one(&spanned, shape, out);
                feeder.reuse(spanned.event);
            }
            None => return Ok(()),
        }
    }
    Ok(())
}

/// Whether a pull after the end returns the end.
fn is_same<E: Drop>(end: Result<(), Stop>, again: Result<Option<Spanned<E>>, Stop>) -> bool {
    match (end, again) {
        (Ok(()), Ok(None)) => true,
        (Err(stop), Err(other)) => stop == other,
        _ => false,
    }
}
