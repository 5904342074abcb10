//! Rows of `check`, and of its parts: an instance, a line `&`, and a proof.

use crate::broken::Broken;
use crate::command::report_fault;
use crate::feed::Cut;
use crate::page::{Done, Page, answered, is_same, page};
use crate::row::call::{Call, Each};
use crate::turns::{Calls, Run, reader_of, writer_of};
use pb_opb::read_instance;
use pb_proof::Bound;
use pb_replay::{Replay, Verdict};
use pb_sums::write_number;
use pb_text::doubles::{FaultyReader, FaultyWriter};
use pb_text::{Failed, Limits, Over, Sink, write_bytes};
use pb_tool::{CheckFault, Checker, Input, ToolFault, check};
use std::alloc::Global;
use std::str::FromStr;

/// The line between an instance and a proof.
const BETWEEN: &[u8] = b"&\n";

/// A piece after a proof, or after its fault.
const AFTER: &[u8] = b"nonsense\n";

/// The two inputs of a row.
pub(crate) fn inputs_of(text: &[u8]) -> Result<(&[u8], &[u8]), Broken> {
    for at in 0..text.len() {
        let (prefix, rest) = text.split_at(at);
        if let Some(proof) = rest.strip_prefix(BETWEEN) {
            return Ok((prefix, proof));
        }
    }
    Err(Broken::Value)
}

/// Checks a proof over two readers and a writer, as the call says.
pub(crate) fn run_check(alloc: Global, call: &Call, text: &[u8]) -> Result<Run, Broken> {
    let (instance, proof) = inputs_of(text)?;
    let (mut first, mut second) = (reader_of(call, instance), reader_of(call, proof));
    first.fails_at = call.reader_fails;
    second.fails_at = call.proof_fails;
    let (mut first, mut second) = (Over::new(first), Over::new(second));
    let mut out = Over::new(writer_of(alloc, call));
    let reported = check_both(alloc, call, &mut first, &mut second, &mut out)?;
    let writer = out.into_inner();
    let calls = match call.each {
        Each::Write => Calls::of_writer(&writer),
        Each::ProofRead => Calls::of_reader(proof, &second.into_inner()),
        _ => Calls::of_reader(instance, &first.into_inner()),
    };
    Ok(Run::new(writer, reported, calls))
}

/// Checks a proof, and reports `ok` or the line of the fault.
fn check_both(
    alloc: Global,
    call: &Call,
    instance: &mut Over<FaultyReader<'_>>,
    proof: &mut Over<FaultyReader<'_>>,
    out: &mut Over<FaultyWriter>,
) -> Result<Page, Broken> {
    let limits = call.limits()?;
    let longest = call.longest();
    let mut reported = page(alloc);
    match check(alloc, instance, proof, out, longest, limits) {
        Ok(_) => write_bytes(b"ok\n", &mut reported)?,
        Err(fault) => report_fault(&fault, &mut reported)?,
    }
    Ok(reported)
}

/// Feeds a proof to a checker in one piece. Unless the call says `once`, also feeds it in pieces of
/// 1, 2 and 37 bytes, and in two pieces with each cut. Returns the first unexpected result, or else
/// the one of one piece.
pub(crate) fn run_checker(
    alloc: Global,
    call: &Call,
    text: &[u8],
    wanted: &Done,
) -> Result<Done, Broken> {
    let (first, size) = (usize::MAX, 1);
    let whole = check_cut(alloc, call, text, Cut { first, size })?;
    if call.is_once || !is_same(&whole, wanted) {
        return Ok(whole);
    }
    match first_odd(alloc, call, text, wanted)? {
        Some(odd) => Ok(odd),
        None => Ok(whole),
    }
}

/// The first unexpected result for a proof in pieces.
fn first_odd(
    alloc: Global,
    call: &Call,
    text: &[u8],
    wanted: &Done,
) -> Result<Option<Done>, Broken> {
    for size in [1, 2, 37] {
        let found = check_cut(alloc, call, text, Cut { first: size, size })?;
        if !is_same(&found, wanted) {
            return Ok(Some(found));
        }
    }
    let (_, proof) = inputs_of(text)?;
    for first in 0..proof.len() {
        let size = usize::MAX;
        let found = check_cut(alloc, call, text, Cut { first, size })?;
        if !is_same(&found, wanted) {
            return Ok(Some(found));
        }
    }
    Ok(None)
}

fn check_cut(alloc: Global, call: &Call, text: &[u8], cut: Cut) -> Result<Done, Broken> {
    let (instance, proof) = inputs_of(text)?;
    let mut reported = page(alloc);
    match replay_for(alloc, call, instance)? {
        Ok(replay) => {
            let checker = Checker::new(alloc, replay, call.longest());
            report_end(alloc, checker, proof, cut, &mut reported)?;
        }
        Err(_) => write_bytes(b"no replay\n", &mut reported)?,
    }
    Ok(answered(alloc, reported))
}

/// Feeds a proof to a new checker, which ends here, and reports its result.
fn report_end(
    alloc: Global,
    mut checker: Checker,
    proof: &[u8],
    cut: Cut,
    reported: &mut Page,
) -> Result<(), Broken> {
    let end = report_checker(alloc, &mut checker, proof, cut, reported);
    drop(checker);
    end
}

/// Feeds a proof to a checker, and reports its result.
fn report_checker(
    alloc: Global,
    checker: &mut Checker,
    proof: &[u8],
    cut: Cut,
    reported: &mut Page,
) -> Result<(), Broken> {
    let mut is_stored = false;
    let end = feed_to_end(checker, proof, cut, &mut is_stored);
    report_result(alloc, checker, end, reported)?;
    if is_stored {
        write_bytes(b"stored after a line\n", reported)?;
    }
    report_again(checker, end, reported)?;
    Ok(())
}

/// Feeds a proof piece by piece up to the first fault, and finishes it if there was none. Notes
/// whether something was stored after a whole line, with which each statement ends.
fn feed_to_end(
    checker: &mut Checker,
    proof: &[u8],
    cut: Cut,
    is_stored: &mut bool,
) -> Result<Verdict, CheckFault> {
    let (prefix, rest) = proof.split_at(cut.first.min(proof.len()));
    feed_piece(checker, prefix, is_stored)?;
    for piece in rest.chunks(cut.size.max(1)) {
        feed_piece(checker, piece, is_stored)?;
    }
    checker.finish()
}

/// Feeds a piece, and notes whether something is stored after it, if it ends with a whole line.
fn feed_piece(checker: &mut Checker, piece: &[u8], is_stored: &mut bool) -> Result<(), CheckFault> {
    let _used = checker.feed(piece)?;
    if piece.ends_with(b"\n") && checker.held() > 0 {
        *is_stored = true;
    }
    Ok(())
}

/// Makes the calls of a finished checker again. They must return its fault; or use no byte of a
/// piece, and return the verdict. The position must not change. Reports any difference.
fn report_again(
    checker: &mut Checker,
    end: Result<Verdict, CheckFault>,
    reported: &mut Page,
) -> Result<(), Failed> {
    let place = checker.place();
    let wanted = match end {
        Ok(_) => Ok(0),
        Err(fault) => Err(fault),
    };
    if checker.feed(AFTER) != wanted {
        write_bytes(b"fed again: not the same\n", reported)?;
    }
    if checker.finish() != end {
        write_bytes(b"finished again: not the same\n", reported)?;
    }
    if checker.place() != place {
        write_bytes(b"another place\n", reported)?;
    }
    Ok(())
}

/// A replay over the instance of a row, if it opens.
pub(crate) fn replay_for(
    alloc: Global,
    call: &Call,
    instance: &[u8],
) -> Result<Result<Replay, pb_replay::Fault>, Broken> {
    replay_of(alloc, instance, call.limits()?)
}

/// A replay over an instance under limits, if it opens.
pub(crate) fn replay_of(
    alloc: Global,
    instance: &[u8],
    limits: Limits,
) -> Result<Result<Replay, pb_replay::Fault>, Broken> {
    match read_instance(alloc, &mut Over::new(instance), limits) {
        Ok(read) => Ok(Replay::new(alloc, &read.event, limits)),
        Err(_) => Err(Broken::Value),
    }
}

fn report_result(
    alloc: Global,
    checker: &Checker,
    end: Result<Verdict, CheckFault>,
    reported: &mut Page,
) -> Result<(), Broken> {
    match end {
        Ok(verdict) => report_verdict(verdict, reported)?,
        Err(CheckFault::Text(stop)) => report_fault(
            &ToolFault::Text {
                input: Input::Proof,
                stop,
            },
            reported,
        )?,
        Err(CheckFault::Step(place, fault)) => {
            let name = match fault {
                pb_replay::Fault::NotTotal(number) => checker.name_of(number).unwrap_or("?"),
                _ => "",
            };
            let name = String::from_str(alloc, name)?;
            report_fault(&ToolFault::Step { place, fault, name }, reported)?;
        }
    }
    Ok(())
}

/// Writes the verdict as its line has it.
pub(crate) fn report_verdict<S: Sink>(verdict: Verdict, out: &mut S) -> Result<(), Failed> {
    match verdict {
        Verdict::NoClaim => write_bytes(b"verified NONE\n", out),
        Verdict::Unsat => write_bytes(b"verified UNSAT\n", out),
        Verdict::Sat => write_bytes(b"verified SAT\n", out),
        Verdict::Bounds(lower, upper) => {
            write_bytes(b"verified BOUNDS ", out)?;
            report_bound(lower, out)?;
            write_bytes(b" ", out)?;
            report_bound(upper, out)?;
            write_bytes(b"\n", out)
        }
    }
}

fn report_bound<S: Sink>(bound: Bound, out: &mut S) -> Result<(), Failed> {
    match bound {
        Bound::Finite(value) => write_number(value, out),
        Bound::Infinite => write_bytes(b"INF", out),
    }
}
