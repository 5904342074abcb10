//! Whole steps of a proof at the start of a text. A reader of one step is not inlined, so that the
//! others do not set up its variables.

ghost use Rattle.std.specs.Prelude.{◌≡◌};
ghost use Rattle.pb_text.specs.meaning.Limits.{largest, top_of};
ghost use Rattle.pb_proof.specs.declared.statement.Statement.{Statement};
ghost use Rattle.pb_proof.specs.engine.machine.Whole.{IsStepAt, IsLineAfter};

use crate::line::delete::DeleteWords;
use crate::line::pol::PolWords;
use crate::word::PolWord;
use pb_lines::{WordList, line_at};
use pb_sums::{Linear, Part, Term, linear_at};
use pb_text::bytes::is_blank;
use pb_text::{Limits, Sequence, Spare};
use std::alloc::Global;

/// A line that begins with this word, at the start of a text: the index of its line feed, and its
/// event, if it is fast to read.
#[inline(always)]
fn line_after<W: WordList + Drop>(
    alloc: Global,
    limits: Limits,
    first: &[u8],
    words: W,
    text: &[u8],
) -> Option<(usize, W::Event)>
    requires { words ≡ (W.grammar (largest limits) (top_of limits)).first }
    ensures { IsLineAfter W.grammar (largest limits) (top_of limits) first.now text.now result }
{
    if !text.starts_with(first) {
        return None;
    }
    let (last, event) = line_at(alloc, limits, words, &text[first.len()..])?;
    Some((first.len() + last, event))
}

/// The words of a `pol` at the start of a text, and the index of its line feed, if it is fast to
/// read. They take the spare memory.
#[inline(never)]
pub fn pol_at(
    alloc: Global,
    limits: Limits,
    text: &[u8],
    spare: &mut Spare<PolWord>,
) -> Option<(usize, Sequence<PolWord>)>
    ensures { IsStepAt (largest limits) (top_of limits) Statement.Pol text.now result }
{
    let Ok(list) = spare.list(0) else {
        return None;
    };
    line_after(alloc, limits, b"pol", PolWords::with_memory(list), text)
}

/// The ids of a `del id` at the start of a text, and the index of its line feed, if it is fast to
/// read. They take the spare memory.
#[inline(never)]
pub fn delete_at(
    alloc: Global,
    limits: Limits,
    text: &[u8],
    spare: &mut Spare<i64>,
) -> Option<(usize, Sequence<i64>)>
    ensures { IsStepAt (largest limits) (top_of limits) Statement.Delete text.now result }
{
    let Ok(list) = spare.list(0) else {
        return None;
    };
    line_after(alloc, limits, b"del id", DeleteWords::new(list), text)
}

/// The constraint of a `rup` at the start of a text, and the index of its line feed, if it is fast
/// to read: one space after `rup`, and no blank after its `;`. Its terms take the spare memory.
#[inline(never)]
pub fn rup_at(
    alloc: Global,
    limits: Limits,
    text: &[u8],
    spare: &mut Spare<Term>,
) -> Option<(usize, Linear)>
    ensures { IsStepAt (largest limits) (top_of limits) Statement.Rup text.now result }
{
    if text.len() < 5 || !text.starts_with(b"rup ") || is_blank(text[4]) {
        return None;
    }
    let (semicolon, linear) = linear_at(alloc, limits, Part::AtLeast, &text[4..], spare)?;
    let last = semicolon + 5;
    if last >= text.len() || text[last] != b'\n' {
        return None;
    }
    Some((last, linear))
}
