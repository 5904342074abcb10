//! `pb check` over two readers.

ghost use Rattle.std.specs.Prelude.{IfSome, ◌<◌};

use crate::explaining::explained_over;
use crate::failure::Failure;
use crate::leaving::Leaving;
use crate::output::{flushed, keys_of, read_buffer, unit_of, write_buffer};
use crate::until::UntilFault;
use crate::watching::{Asked, Watching};
use pb_text::{Limits, Over};
use pb_tool::{Input, ToolFault, Unwatched, Watch, check_watched};
use std::io::{self, Read, Write};
use std::random::RandomSource;
use std::time::Clock;

/// Checks a proof of an instance, and writes on standard error what is asked for. The progress line
/// ends before the verdict is written. If `asked.explain` is true, a failure has the reasons of a
/// rejection.
pub(crate) fn check_asked<R, I, E>(
    rt: &R,
    texts: (I, I),
    longest: Option<u64>,
    limits: Limits,
    asked: Asked,
    errors: &mut E,
) -> Result<(), Failure>
where
    R: Print + RandomSource + Clock + AllocGlobal,
    I: Read + Drop,
    E: Write,
    requires { IfSome longest (λ n. 0 < n) }
{
    let writer = UntilFault::new(io::writer(rt));
    let mut out = write_buffer(rt.alloc(), writer, Input::Instance)?;
    if !asked.stats && !asked.progress {
        let done = check_for(rt, texts, &mut out, &mut Unwatched, longest, limits, asked);
        return ended(done, &mut out);
    }
    let mut watching = Watching::new(rt, errors, asked);
    let done = check_for(rt, texts, &mut out, &mut watching, longest, limits, asked);
    watching.end_line();
    let done = ended(done, &mut out);
    watching.end();
    done
}

/// The result of a check once its verdict is flushed, with the reasons that it has found.
fn ended<O: Write>(
    done: (Result<(), ToolFault>, Option<Vec<u8>>),
    out: &mut O,
) -> Result<(), Failure> {
    let (done, reasons) = done;
    match (flushed(done, out), reasons) {
        (Ok(()), _) => Ok(()),
        (Err(fault), Some(reasons)) => Err(Failure::explained(fault, reasons)),
        (Err(fault), None) => Err(Failure::from(fault)),
    }
}

/// Checks the proof from one reader against the instance from another, and finds the reasons of a
/// rejection if they are asked for.
fn check_for<R: RandomSource + AllocGlobal, I: Read + Drop, O: Write, V: Watch>(
    rt: &R,
    texts: (I, I),
    out: &mut O,
    watch: &mut V,
    longest: Option<u64>,
    limits: Limits,
    asked: Asked,
) -> (Result<(), ToolFault>, Option<Vec<u8>>)
    requires { IfSome longest (λ n. 0 < n) }
{
    if asked.explain {
        let (done, reasons) = explained_over(rt, texts, out, watch, longest, limits);
        return (done, Some(reasons));
    }
    let done = check_over(rt, texts, out, watch, longest, limits);
    (done, None)
}

/// Checks the proof from one reader against the instance from another. The verdict is not flushed
/// yet.
pub(crate) fn check_over<
    R: RandomSource + AllocGlobal,
    I: Read + Drop,
    P: Read + Drop,
    O: Write,
    V: Watch,
>(
    rt: &R,
    texts: (I, P),
    out: &mut O,
    watch: &mut V,
    longest: Option<u64>,
    limits: Limits,
) -> Result<(), ToolFault>
    requires { IfSome longest (λ n. 0 < n) }
{
    let (instance, proof) = texts;
    let instance = read_buffer(rt.alloc(), instance, Input::Instance)?;
    let proof = read_buffer(rt.alloc(), proof, Input::Proof)?;
    let checked = check_watched(
        rt.alloc(),
        keys_of(rt),
        &mut Over::new(instance),
        &mut Over::new(proof),
        &mut Over::new(out),
        &mut Leaving::new(watch),
        longest,
        limits,
    );
    unit_of(checked)
}
