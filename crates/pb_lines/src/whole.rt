//! Words of a line at the start of a text.

ghost use Rattle.std.specs.Prelude.{◌≡◌, ◌<◌, ◌≤◌, IfSome, get_or, length, take};
ghost use Rattle.pb_text.specs.meaning.Limits.{largest, top_of};
ghost use Rattle.pb_text.specs.contract.Automaton.{Runs};
ghost use Rattle.pb_lines.specs.engine.Words.{IsWordsInOrder, words_automaton, words_gap};
ghost use Rattle.pb_lines.specs.engine.WordsWhole.{IsClosing, IsLine};

use crate::list::WordList;
use crate::word_prefix::word_at;
use pb_sums::Name;
use pb_text::Limits;
use std::alloc::Global;

/// Adds words at the start of a text, each with a space after it, if they are fast to read.
/// Returns their length.
pub fn words_prefix<W: WordList>(alloc: Global, limits: Limits, words: &mut W, text: &[u8]) -> usize
    requires { IsWordsInOrder W.grammar W.good
        (words_gap W.grammar (largest limits) (top_of limits) words.old) }
    ensures bound { result ≤ length text.now }
    ensures runs { Runs (words_automaton W.grammar)
        (words_gap W.grammar (largest limits) (top_of limits) words.old) (take result text.now)
        (words_gap W.grammar (largest limits) (top_of limits) words.new) }
    ensures order { IsWordsInOrder W.grammar W.good
        (words_gap W.grammar (largest limits) (top_of limits) words.new) }
{
    let mut name = Name::new(alloc);
    let mut end: usize = 0;
    while end < text.len() {
        let Some((length, word)) = word_at(alloc, limits, words, &text[end..], &mut name) else {
            return end;
        };
        let past = end + length;
        if past == text.len() || text[past] != b' ' {
            return end;
        }
        if words.add(alloc, limits, word, &mut name).is_err() {
            return end;
        }
        end = past + 1;
    }
    end
}

/// The rest of a line after its first word, at the start of a text: the index of its line feed, and
/// its event, if it is fast to read and memory suffices. It begins without words.
#[inline(always)]
pub fn line_at<W: WordList + Drop>(
    alloc: Global,
    limits: Limits,
    mut words: W,
    text: &[u8],
) -> Option<(usize, W::Event)>
    requires { words ≡ (W.grammar (largest limits) (top_of limits)).first }
    ensures inside { IfSome result (λ r. r.0 < length text.now) }
    ensures line_feed { IfSome result (λ r. get_or text.now r.0 0 ≡ 10) }
    ensures line { IfSome result (λ r.
        IsLine W.grammar (largest limits) (top_of limits) (take r.0 text.now) r.1) }
{
    let mut name = Name::new(alloc);
    let mut end: usize = 0;
    while end < text.len() && text[end] == b' ' {
        let start = end + 1;
        let (length, word) = word_at(alloc, limits, &words, &text[start..], &mut name)?;
        if words.add(alloc, limits, word, &mut name).is_err() {
            return None;
        }
        end = start + length;
    }
    let more = closing_prefix(&text[end..])?;
    if !words.follow(limits, None)?.end {
        return None;
    }
    Some((end + more, words.finish(alloc, limits)))
}

/// The length of the `;` at the start of a text, or 0, if a line feed comes after it.
#[inline(always)]
fn closing_prefix(text: &[u8]) -> Option<usize>
    ensures inside { IfSome result (λ n. n < length text.now) }
    ensures closing { IfSome result (λ n. IsClosing (take n text.now)) }
    ensures line_feed { IfSome result (λ n. get_or text.now n 0 ≡ 10) }
{
    if text.is_empty() {
        return None;
    }
    if text[0] == b'\n' {
        return Some(0);
    }
    if text.len() < 2 || text[0] != b';' || text[1] != b'\n' {
        return None;
    }
    Some(1)
}
