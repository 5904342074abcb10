//! The laws of lines.

ghost use Rattle.pb_lines.specs.contract.Keeps.{WordsKeeps};

use crate::list::WordList;

/// A machine stores nothing besides its state, its limits and its allocator, as contracts see these.
pub fn keeps_its_state<W: WordList>()
    ensures { WordsKeeps W W.Event }
{}
