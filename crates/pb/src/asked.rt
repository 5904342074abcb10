//! What a job says of its inputs and of standard error.

use crate::explaining::can_repeat;
use crate::inputs::{path_of, size_of};
use crate::origin::is_standard;
use crate::watching::Asked;
use pb_tool::{Input, Job};
use std::io::IsTerminal;
use std::rt::Files;

/// Whether a job reads both its instance and its proof from standard input.
pub(crate) fn reads_one_input_twice(job: &Job) -> bool {
    match job {
        Job::Check {
            instance,
            proof,
            ..
        }
        | Job::Trace {
            instance,
            proof,
            ..
        } => is_standard(instance.as_str()) && path_of(proof).is_none(),
        _ => false,
    }
}

/// Whether no hint is asked for.
pub(crate) fn is_quiet(job: &Job) -> bool {
    match job {
        Job::Show { quiet, .. }
        | Job::Tidy { quiet, .. }
        | Job::Check { quiet, .. }
        | Job::Trace { quiet, .. } => *quiet,
    }
}

/// What a check or a trace shows on standard error. Other jobs are asked for nothing.
pub(crate) fn asked_of<R: Files, E: IsTerminal>(rt: &R, job: &Job, errors: &E) -> Asked {
    let mut asked = Asked {
        stats: false,
        progress: false,
        explain: false,
        is_terminal: errors.is_terminal(),
        bytes: size_of(rt, path_in(job, Input::Proof)),
    };
    match job {
        Job::Check {
            instance,
            proof,
            stats,
            progress,
            explain,
            ..
        } => {
            asked.stats = *stats;
            asked.progress = *progress;
            asked.explain = *explain && !can_repeat(rt, instance.as_str(), proof);
        }
        Job::Trace { progress, .. } => asked.progress = *progress,
        Job::Show { .. } | Job::Tidy { .. } => {}
    }
    asked
}

/// The name of the file that an input of a job comes from, or `None` for standard input.
pub(crate) fn path_in(job: &Job, input: Input) -> Option<&str> {
    match job {
        Job::Show { file, .. } | Job::Tidy { file, .. } => path_of(file),
        Job::Check {
            instance,
            proof,
            ..
        }
        | Job::Trace {
            instance,
            proof,
            ..
        } => match input {
            Input::Proof => path_of(proof),
            _ => named(instance.as_str()),
        },
    }
}

/// A name, or `None` if it means standard input.
pub(crate) fn named(name: &str) -> Option<&str> {
    if is_standard(name) { None } else { Some(name) }
}
