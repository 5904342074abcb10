//! Why a row could not be run.

use pb_text::Failed;
use std::alloc::{AllocError, AllocFailed};

/// Why a row could not be run.
#[derive(Clone, Copy)]
pub enum Broken {
    /// The first word of its call names no call.
    Call,
    /// A word of its call is unknown, or has no meaning after that first word.
    Word,
    /// It has no input, and its call has no word `same`.
    NoInput,
    /// It has an input, and its call has the word `same`.
    TwoInputs,
    /// A `\` has no meaning.
    Escape,
    /// Its limits are not allowed.
    Limits,
    /// Its input is not a value that the call can take.
    Value,
    /// It calls a reader or a writer more often than calls are made to fail in turn.
    Calls,
    /// A file could not be read.
    File,
    /// Memory ran out, or the line of a row could not be written.
    Memory,
}

impl Broken {
    /// The reason, in words.
    pub(crate) fn reason(self) -> &'static str {
        match self {
            Broken::Call => "no such call",
            Broken::Word => "a word of the call is not known",
            Broken::NoInput => "no input, and no word `same`",
            Broken::TwoInputs => "an input and the word `same`",
            Broken::Escape => "a \\ that means nothing",
            Broken::Limits => "no such limits",
            Broken::Value => "the input is no value",
            Broken::Calls => "too many calls of a reader or a writer",
            Broken::File => "the file cannot be read",
            Broken::Memory => "out of memory",
        }
    }
}

impl From<AllocError> for Broken {
    fn from(_error: AllocError) -> Broken {
        Broken::Memory
    }
}

impl<T: Drop> From<AllocFailed<T>> for Broken {
    fn from(_error: AllocFailed<T>) -> Broken {
        Broken::Memory
    }
}

impl From<Failed> for Broken {
    fn from(_error: Failed) -> Broken {
        Broken::Memory
    }
}
