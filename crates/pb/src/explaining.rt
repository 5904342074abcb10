//! `pb check --explain`: why a statement was rejected.

ghost use Rattle.std.specs.Prelude.{IfSome, ◌<◌};
ghost use Rattle.pb_words.specs.Words.{HasRanges};

use crate::asked::named;
use crate::both::Both;
use crate::checking::check_over;
use crate::described::Unread;
use crate::failure::Failure;
use crate::inputs::{open_both, path_of, size_of};
use crate::recorded::{Record, Recorded};
use pb_proof::Statement;
use pb_replay::Replay;
use pb_text::{Limits, Over, Spanned};
use pb_tool::{CheckFault, Job, ToolFault, Unwatched, Watch, limits_of};
use pb_trace::Explained;
use std::alloc::Global;
use std::cell::RefCell;
use std::io::{Read, Write};
use std::random::RandomSource;
use std::rt::Files;

/// What is written in place of reasons for which there was no memory.
const NO_MEMORY: &[u8] = b"pb: no reasons: out of memory\n";

/// Sees the statements of a check, and writes the reasons if one is rejected.
#[derive(Drop)]
pub(crate) struct Explaining<'a> {
    explained: Explained<Over<Vec<u8>>>,
    instance: Unread<'a>,
}

impl<'a> Explaining<'a> {
    /// Before any statement. The record is that of the instance.
    pub(crate) fn new(alloc: Global, limits: Limits, record: &'a Record) -> Self {
        Explaining {
            explained: Explained::new(alloc, Over::new(Vec::new(alloc))),
            instance: Unread::new(alloc, limits, record),
        }
    }

    /// Takes what the text of the instance says, once it was read.
    fn describe(&mut self) {
        if let Some(text) = self.instance.take() {
            self.explained.describe(text);
        }
    }
}

impl Watch for Explaining<'_> {
    // What it writes is said by the contract of `Explained`.
    ghost got = { λ _ _ _. Unit {0} };

    fn accepted(&mut self, read: &Spanned<Statement>, replay: &Replay) {
        self.describe();
        self.explained.accepted(read, replay);
    }

    fn rejected(&mut self, read: &Spanned<Statement>, replay: &Replay, fault: CheckFault) {
        self.describe();
        self.explained.rejected(read, replay, fault);
    }
}

/// What a check of the proof from one reader against the instance from another writes of a rejected
/// statement, and how the check ended.
pub(crate) fn explained_over<R, I, O, V>(
    rt: &R,
    texts: (I, I),
    out: &mut O,
    watch: &mut V,
    longest: Option<u64>,
    limits: Limits,
) -> (Result<(), ToolFault>, Vec<u8>)
where
    R: RandomSource + AllocGlobal,
    I: Read + Drop,
    O: Write,
    V: Watch,
    requires { IfSome longest (λ n. 0 < n) }
{
    let record = RefCell::new(Some(Vec::new(rt.alloc())));
    let (instance, proof) = texts;
    let mut explaining = Explaining::new(rt.alloc(), limits, &record);
    let done = check_over(
        rt,
        (Recorded::new(instance, &record), proof),
        out,
        &mut Both::new(watch, &mut explaining),
        longest,
        limits,
    );
    let ended = explaining.explained.end();
    let mut reasons = explaining.explained.into_out().into_inner();
    if ended.is_err() {
        reasons.clear();
        let _ = reasons.extend_from_slice(NO_MEMORY);
    }
    (done, reasons)
}

/// Whether the files of a job can be read again.
pub(crate) fn can_repeat<R: Files>(rt: &R, instance: &str, proof: &Option<String>) -> bool {
    size_of(rt, named(instance)).is_some() && size_of(rt, path_of(proof)).is_some()
}

/// Writes why a statement was rejected, after the line of the fault. If the check did not find the
/// reasons, its files are read again.
pub(crate) fn write_reasons<R, S, E>(
    rt: &R,
    standard: S,
    job: &Job,
    failure: &Failure,
    errors: &mut E,
)
where
    R: Files + RandomSource + AllocGlobal,
    S: Read + Copy,
    E: Write,
    requires { HasRanges job.now }
{
    let Job::Check {
        instance,
        proof,
        explain: true,
        longest,
        bits,
        ..
    } = job
    else {
        return;
    };
    let ToolFault::Step { place, .. } = &failure.fault else {
        return;
    };
    if let Some(reasons) = &failure.reasons {
        let _ = errors.write_all(reasons.as_slice());
        return;
    }
    let Ok(texts) = open_both(rt, standard, instance.as_str(), path_of(proof)) else {
        return;
    };
    let mut verdict = Vec::new(rt.alloc());
    let limits = limits_of(*bits);
    let (done, reasons) = explained_over(rt, texts, &mut verdict, &mut Unwatched, *longest, limits);
    match done {
        Err(ToolFault::Step { place: again, .. }) if again == *place => {
            let _ = errors.write_all(reasons.as_slice());
        }
        _ => {
            let _ = errors.write_all(b"pb: no reasons: the second check ended otherwise\n");
        }
    }
}
