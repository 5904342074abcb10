//! `pb trace` over two readers.

ghost use Rattle.std.specs.Prelude.{IfSome, ◌<◌};

use crate::both::Both;
use crate::described::Unread;
use crate::output::{flushed, keys_of, read_buffer, unit_of, write_buffer};
use crate::recent::Recent;
use crate::recorded::{Record, Recorded};
use crate::tied::{Shared, Tied};
use crate::until::UntilFault;
use crate::watching::{Asked, Watching};
use pb_proof::Statement;
use pb_replay::Replay;
use pb_text::{Limits, Over, Spanned};
use pb_tool::{CheckFault, Input, Selection, ToolFault, Unwatched, Watch, check_watched};
use pb_trace::Trace;
use std::cell::RefCell;
use std::io::{self, Read, Write};
use std::random::RandomSource;
use std::time::Clock;

/// More bytes than the line of a verdict has.
const LINE: usize = 256;

/// Sees the statements of a check, and writes a line for those that are selected.
#[derive(Drop)]
struct Tracing<'a, O> {
    trace: Trace<Over<Shared<'a, Recent<O>>>>,
    out: &'a RefCell<Recent<O>>,
    selection: Selection,
    instance: Unread<'a>,
}

impl<O: Write> Tracing<'_, O> {
    /// Takes what the text of the instance says, once it was read.
    fn describe(&mut self) {
        if let Some(text) = self.instance.take() {
            self.trace.describe(text);
        }
    }

    /// Whether a statement that begins in a line is selected.
    fn has(&self, line: u64) -> bool {
        self.selection.from.unwrap_or(0) <= line && line <= self.selection.to.unwrap_or(u64::MAX)
    }
}

impl<O: Write> Watch for Tracing<'_, O> {
    // What it writes is said by the contract of `Trace`.
    ghost got = { λ _ _ _. Unit {0} };

    fn accepted(&mut self, read: &Spanned<Statement>, replay: &Replay) {
        self.describe();
        if !self.has(read.first.line) {
            self.trace.follow(read, replay);
            return;
        }
        self.trace.accepted(read, replay);
        if let Ok(mut out) = self.out.try_borrow_mut() {
            out.end_text();
        }
    }

    fn rejected(&mut self, read: &Spanned<Statement>, replay: &Replay, fault: CheckFault) {
        self.describe();
        if let Ok(mut out) = self.out.try_borrow_mut() {
            // A fault of the output comes again with the next write.
            let _ = out.release();
        }
        self.trace.rejected(read, replay, fault);
    }
}

/// Checks a proof of an instance, writes a line for each statement that is selected, and on
/// standard error what is asked for. The progress line ends before the last lines are written.
pub(crate) fn trace_asked<R, I, E>(
    rt: &R,
    texts: (I, I),
    selection: Selection,
    longest: Option<u64>,
    limits: Limits,
    asked: Asked,
    errors: &mut E,
) -> Result<(), ToolFault>
where
    R: Print + RandomSource + Clock + AllocGlobal,
    I: Read + Drop,
    E: Write,
    requires { IfSome longest (λ n. 0 < n) }
{
    let out = UntilFault::new(io::writer(rt));
    if !asked.progress {
        return trace_over(rt, texts, out, selection, longest, limits, &mut Unwatched);
    }
    let mut watching = Watching::new(rt, errors, asked);
    let done = trace_over(rt, texts, out, selection, longest, limits, &mut watching);
    watching.end_line();
    done
}

/// Checks the proof from one reader against the instance from another, and writes a line for each
/// statement that is selected. What was written is flushed before more of the proof is read.
fn trace_over<R, I, O, V>(
    rt: &R,
    texts: (I, I),
    out: O,
    selection: Selection,
    longest: Option<u64>,
    limits: Limits,
    watch: &mut V,
) -> Result<(), ToolFault>
where
    R: RandomSource + AllocGlobal,
    I: Read + Drop,
    O: Write + Drop,
    V: Watch,
    requires { IfSome longest (λ n. 0 < n) }
{
    let out = write_buffer(rt.alloc(), out, Input::Instance)?;
    let out = RefCell::new(Recent::new(rt.alloc(), out, selection.last));
    let traced = trace_to(rt, texts, &out, selection, longest, limits, watch);
    let mut out = out.into_inner();
    let released = out.release();
    if out.has_failed() {
        return Err(ToolFault::Memory(Input::Proof));
    }
    let done = match (traced, released) {
        (Err(fault), _) => Err(fault),
        (Ok(_), Err(_)) => Err(ToolFault::Write),
        (Ok(line), Ok(())) => write_line(line.as_slice(), &mut out),
    };
    flushed(done, &mut out.into_inner())
}

/// Checks the proof from one reader against the instance from another, and writes a line for each
/// statement that is selected. It returns the line of the verdict, once every line before it was
/// written.
fn trace_to<R, I, O, V>(
    rt: &R,
    texts: (I, I),
    out: &RefCell<Recent<O>>,
    selection: Selection,
    longest: Option<u64>,
    limits: Limits,
    watch: &mut V,
) -> Result<Vec<u8>, ToolFault>
where
    R: RandomSource + AllocGlobal,
    I: Read + Drop,
    O: Write,
    V: Watch,
    requires { IfSome longest (λ n. 0 < n) }
{
    let (instance, proof) = texts;
    let record = RefCell::new(Some(Vec::new(rt.alloc())));
    let instance = Recorded::new(instance, &record);
    let instance = read_buffer(rt.alloc(), instance, Input::Instance)?;
    let proof = read_buffer(rt.alloc(), Tied::new(proof, out), Input::Proof)?;
    let Ok(line) = Vec::with_capacity(rt.alloc(), LINE) else {
        return Err(ToolFault::Memory(Input::Proof));
    };
    let mut line = Over::new(line);
    let mut tracing = Tracing {
        trace: Trace::new(rt.alloc(), Over::new(Shared::new(out)), selection.ids),
        out,
        selection,
        instance: Unread::new(rt.alloc(), limits, &record),
    };
    let checked = check_watched(
        rt.alloc(),
        keys_of(rt),
        &mut Over::new(instance),
        &mut Over::new(proof),
        &mut line,
        &mut Both::new(watch, &mut tracing),
        longest,
        limits,
    );
    tracing.trace.end()?;
    unit_of(checked)?;
    Ok(line.into_inner())
}

/// Writes the line of a verdict.
fn write_line<O: Write>(line: &[u8], out: &mut O) -> Result<(), ToolFault> {
    match out.write_all(line) {
        Ok(()) => Ok(()),
        Err(_) => Err(ToolFault::Write),
    }
}
