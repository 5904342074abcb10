//! What the parts of reasons stand for.

use crate::stored::Stored;
use pb_proof::PolWord;
use pb_replay::Replay;

/// What the parts of reasons stand for.
#[derive(Clone, Copy)]
pub(crate) struct Facts<'a> {
    /// All stored constraints, live or deleted.
    pub(crate) stored: &'a [Stored],
    /// How many of them are those of the instance.
    pub(crate) loaded: usize,
    /// The lines in which these are written, as far as they are known.
    pub(crate) lines: &'a [u64],
    /// The words of the statement.
    pub(crate) words: &'a [PolWord],
    /// It has the names.
    pub(crate) replay: &'a Replay,
}
