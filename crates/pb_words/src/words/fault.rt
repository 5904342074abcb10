//! Why the arguments of the command line give no job.

ghost use Rattle.std.specs.Prelude.{◌≡◌, IfOk};
ghost use Rattle.clap.specs.Words.{kind_of};

use crate::words::options::{shown_name, subcommand};
use clap::error::ErrorKind;
use std::alloc::{AllocError, Global};
use thiserror::Error;

/// Why the arguments give no job.
#[derive(Debug, Drop, Error)]
pub enum WordsFault {
    /// They ask for help or are a usage error, or memory ran out while they were parsed.
    #[error(transparent)]
    Words(clap::Error),
    /// Memory ran out after the arguments were found to be valid.
    #[error("out of memory")]
    Memory,
}

impl From<clap::Error> for WordsFault {
    ghost use Rattle.pb_words.specs.declared.words.fault.WordsFault.TheVariants.{Words};

    ghost from_gives = { λ error fault. fault ≡ Words error };

    fn from(error: clap::Error) -> WordsFault {
        WordsFault::Words(error)
    }
}

impl From<AllocError> for WordsFault {
    ghost use Rattle.pb_words.specs.declared.words.fault.WordsFault.TheVariants.{Memory};

    ghost from_gives = { λ _ fault. fault ≡ Memory };

    fn from(_error: AllocError) -> WordsFault {
        WordsFault::Memory
    }
}

/// The error of a flag whose text is not a number from `low` to `high`.
pub(crate) fn wrong_number(
    alloc: Global,
    name: &str,
    flag: &str,
    text: &str,
    low: u64,
    high: u64,
) -> Result<clap::Error, AllocError>
    ensures { IfOk result (λ e. kind_of e ≡ ErrorKind.ValueValidation) }
{
    let message = format!(in alloc;
        "invalid value '{text}' for '--{flag}': it takes a number from {low} to {high}"
    )?;
    wrong_words(alloc, name, ErrorKind::ValueValidation, message.as_str())
}

/// A usage error of a kind, with the usage of the subcommand.
pub(crate) fn wrong_words(
    alloc: Global,
    name: &str,
    kind: ErrorKind,
    message: &str,
) -> Result<clap::Error, AllocError>
    ensures { IfOk result (λ e. kind_of e ≡ kind) }
{
    let mut subcommand = subcommand(alloc, name)?.bin_name(shown_name(name))?;
    subcommand.error(kind, message)
}
