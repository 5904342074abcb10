//! Words at the start of a text.

ghost use Rattle.std.specs.Prelude.{◌≡◌, ◌≤◌, ◌<◌, ◌∷◌, [], ℕ, List, IfSome, IsSome, length, take};
ghost use Rattle.pb_text.specs.meaning.Limits.{largest, top_of};
ghost use Rattle.pb_lines.specs.engine.WordsWhole.{IsWordAt, sign_bytes};

use crate::list::WordList;
use crate::literal_prefix::literal_at;
use crate::word::{Sign, Word};
use pb_sums::Name;
use pb_text::Limits;
use pb_text::bytes::{is_digit, is_letter, is_name_byte};
use pb_text::digits::number_prefix;
use std::alloc::Global;

/// A word that may come, at the start of a text, and its length, if it is fast to read and memory
/// suffices. The name of a literal is stored in `name`.
#[inline(always)]
pub fn word_at<W: WordList>(
    alloc: Global,
    limits: Limits,
    words: &W,
    text: &[u8],
    name: &mut Name,
) -> Option<(usize, Word)>
    ensures bound { IfSome result (λ r. r.0 ≤ length text.now) }
    ensures word { IfSome result (λ r. IsWordAt W.grammar (largest limits) (top_of limits) words.now
        (take r.0 text.now) r.1 name.new) }
    ensures comes { IfSome result (λ r.
        IsSome ((W.grammar (largest limits) (top_of limits)).next words.now r.1 name.new)) }
{
    let (length, word) = begun_at(alloc, limits, words, text, name)?;
    let _ = words.follow(limits, Some(word))?;
    Some((length, word))
}

/// A word at the start of a text, and its length, whether or not the word may come.
#[inline(always)]
fn begun_at<W: WordList>(
    alloc: Global,
    limits: Limits,
    words: &W,
    text: &[u8],
    name: &mut Name,
) -> Option<(usize, Word)>
    ensures bound { IfSome result (λ r. r.0 ≤ length text.now) }
    ensures word { IfSome result (λ r. IsWordAt W.grammar (largest limits) (top_of limits) words.now
        (take r.0 text.now) r.1 name.new) }
{
    if text.is_empty() {
        return None;
    }
    let first = text[0];
    if is_digit(first) || first == b'-' {
        return number_at(limits, words, text);
    }
    if first == b'~' || text.len() > 1 && is_letter(first) && is_name_byte(text[1]) {
        return named_at(alloc, words, text, name);
    }
    let mark = mark_of(limits, words, first)?;
    Some((1, mark))
}

/// A number at the start of a text.
#[inline(always)]
fn number_at<W: WordList>(limits: Limits, words: &W, text: &[u8]) -> Option<(usize, Word)>
    requires { 0 < length text.now }
    ensures bound { IfSome result (λ r. r.0 ≤ length text.now) }
    ensures word { (name : List ℕ) → IfSome result (λ r.
        IsWordAt W.grammar (largest limits) (top_of limits) words.now (take r.0 text.now) r.1 name) }
{
    let (start, sign) = sign_at(text);
    let most = words.number(limits, sign)?;
    let (count, value) = number_prefix(&text[start..]);
    if count == 0 || value as u128 > most {
        return None;
    }
    Some((start + count, Word::Number(sign, value as u128)))
}

/// The length of the `-` at the start of a text, and the sign that it is. There may be none.
#[inline(always)]
fn sign_at(text: &[u8]) -> (usize, Sign)
    requires { 0 < length text.now }
    ensures bound { result.0 ≤ length text.now }
    ensures sign { take result.0 text.now ≡ sign_bytes result.1 }
{
    match text[0] {
        b'-' => (1, Sign::Minus),
        _ => (0, Sign::Nothing),
    }
}

/// A literal at the start of a text.
#[inline(always)]
fn named_at<W: WordList>(
    alloc: Global,
    words: &W,
    text: &[u8],
    name: &mut Name,
) -> Option<(usize, Word)>
    requires { 0 < length text.now }
    ensures bound { IfSome result (λ r. r.0 ≤ length text.now) }
    ensures word { (limit top : ℕ) → IfSome result (λ r.
        IsWordAt W.grammar limit top words.now (take r.0 text.now) r.1 name.new) }
{
    if !words.takes_literal() || words.capital(text[0]).is_some() {
        return None;
    }
    let (length, negated) = literal_at(alloc, text, name)?;
    Some((length, Word::Literal(negated)))
}

/// The mark that this byte is, if it is a letter, `+` or `*`.
#[inline(always)]
fn mark_of<W: WordList>(limits: Limits, words: &W, byte: u8) -> Option<Word>
    ensures { (name : List ℕ) → IfSome result (λ w.
        IsWordAt W.grammar (largest limits) (top_of limits) words.now (byte ∷ []) w name) }
{
    match byte {
        b'*' => Some(Word::Mark(byte)),
        b'+' if words.number(limits, Sign::Plus).is_none() => Some(Word::Mark(byte)),
        _ if is_letter(byte) && words.capital(byte).is_none() => Some(Word::Mark(byte)),
        _ => None,
    }
}
