//! What a machine for words does with a byte, given what it has read last.

ghost use Rattle.std.specs.Prelude.{◌≡◌, ℕ, List};
ghost use Rattle.pb_text.specs.meaning.Limits.{largest, top_of};
ghost use Rattle.pb_lines.specs.engine.Words.{capital_bytes, number_step, mark_step, letter_step, begin_step, end_step, inner_step, capital_step, ends_word, closing_step, step_of};

use crate::list::WordList;
use crate::part::{Part, Step};
use crate::word::{Capital, Sign, Word};
use pb_text::Limits;
use pb_text::bytes::{is_blank, is_digit, is_letter, is_name_byte};
use pb_text::decimal::next_digit;

/// The bytes of a word in capital letters.
pub fn capital_bytes(capital: Capital) -> &'static [u8]
    ensures { result.now ≡ capital_bytes capital }
{
    match capital {
        Capital::NoClaim => b"NONE",
        Capital::Unsat => b"UNSAT",
        Capital::Sat => b"SAT",
        Capital::Bounds => b"BOUNDS",
        Capital::Infinity => b"INF",
    }
}

/// The step for the next digit of a number.
fn number_step(most: Option<u128>, sign: Sign, value: u128, byte: u8) -> Step
    ensures { result ≡ number_step most sign value byte }
{
    let Some(most) = most else {
        return Step::Stop;
    };
    if !is_digit(byte) {
        return Step::Stop;
    }
    match next_digit(most, value, byte - b'0') {
        None => Step::Stop,
        Some(next) => Step::To(Part::Number(sign, next)),
    }
}

/// The step for a byte that is a word, or the sign of a number.
fn mark_step<W: WordList>(words: &W, limits: Limits, byte: u8) -> Step
    ensures { result ≡ mark_step (W.grammar (largest limits) (top_of limits)) words.now byte }
{
    let sign = match byte {
        b'+' => Sign::Plus,
        b'-' => Sign::Minus,
        _ => return Step::End(Some(Word::Mark(byte)), Part::Symbol),
    };
    match words.number(limits, sign) {
        Some(_) => Step::To(Part::Sign(sign)),
        None => Step::End(Some(Word::Mark(byte)), Part::Symbol),
    }
}

/// The step for a letter that begins a word.
fn letter_step<W: WordList>(words: &W, limits: Limits, byte: u8) -> Step
    ensures { (name : List ℕ) →
        result ≡ letter_step (W.grammar (largest limits) (top_of limits)) words.now name byte }
{
    if let Some(capital) = words.capital(byte) {
        return Step::To(Part::Capital(capital, 1));
    }
    if words.takes_literal() || words.follow(limits, Some(Word::Mark(byte))).is_some() {
        return Step::Add(Part::Letter(byte));
    }
    Step::Stop
}

/// The step for the first byte of a word.
fn begin_step<W: WordList>(words: &W, limits: Limits, byte: u8) -> Step
    ensures { (name : List ℕ) →
        result ≡ begin_step (W.grammar (largest limits) (top_of limits)) words.now name byte }
{
    if is_digit(byte) {
        return number_step(words.number(limits, Sign::Nothing), Sign::Nothing, 0, byte);
    }
    if is_letter(byte) {
        return letter_step(words, limits, byte);
    }
    if byte == b'~' && words.takes_literal() {
        return Step::To(Part::Tilde);
    }
    mark_step(words, limits, byte)
}

/// The step for a byte that ends a word, if the bytes so far are one.
fn end_step(part: Part, byte: u8) -> Step
    ensures { result ≡ end_step part byte }
{
    let word = match part {
        Part::Start | Part::Gap | Part::Symbol => None,
        Part::Number(sign, value) => Some(Word::Number(sign, value)),
        Part::Letter(letter) => Some(Word::Mark(letter)),
        Part::Name(negated) => Some(Word::Literal(negated)),
        Part::Capital(capital, read) if read == capital_bytes(capital).len() => Some(Word::Capital(
            capital,
        )),
        _ => return Step::Stop,
    };
    match byte {
        b'\n' => Step::Finish(word),
        b';' => Step::Close(word),
        b':' => Step::Colon(word),
        _ => Step::End(word, Part::Gap),
    }
}

/// The step for a further byte of a word.
fn inner_step<W: WordList>(words: &W, limits: Limits, part: Part, byte: u8) -> Step
    ensures { (name : List ℕ) → result ≡
        inner_step (W.grammar (largest limits) (top_of limits)) words.now name part byte }
{
    match part {
        Part::Gap => begin_step(words, limits, byte),
        Part::Sign(sign) => number_step(words.number(limits, sign), sign, 0, byte),
        Part::Number(sign, value) => number_step(words.number(limits, sign), sign, value, byte),
        Part::Tilde if is_letter(byte) => Step::Add(Part::First),
        Part::First if is_name_byte(byte) => Step::Add(Part::Name(true)),
        Part::Letter(_) if words.takes_literal() && is_name_byte(byte) => Step::Add(Part::Name(
            false,
        )),
        Part::Name(negated) if is_name_byte(byte) => Step::Add(Part::Name(negated)),
        Part::Capital(capital, read) => capital_step(capital, read, byte),
        _ => Step::Stop,
    }
}

/// The step for a further byte of a word in capital letters.
fn capital_step(capital: Capital, read: usize, byte: u8) -> Step
    ensures { result ≡ capital_step capital read byte }
{
    let bytes = capital_bytes(capital);
    if read < bytes.len() && bytes[read] == byte {
        return Step::To(Part::Capital(capital, read + 1));
    }
    Step::Stop
}

/// Whether the byte ends a word: a blank, a line feed, `;` or `:`.
fn ends_word(byte: u8) -> bool
    ensures { result ≡ ends_word byte }
{
    is_blank(byte) || byte == b'\n' || byte == b';' || byte == b':'
}

/// The step for a byte after the `;`.
fn closing_step(byte: u8) -> Step
    ensures { result ≡ closing_step byte }
{
    if is_blank(byte) {
        return Step::To(Part::Closing);
    }
    if byte == b'\n' {
        return Step::Finish(None);
    }
    Step::Stop
}

/// What the machine does with a byte.
#[tactic(auto, using(crate::proofs::lemmas::Steps::step_inner))]
pub fn step_of<W: WordList>(words: &W, limits: Limits, part: Part, byte: u8) -> Step
    ensures { (name : List ℕ) → result ≡
        step_of (W.grammar (largest limits) (top_of limits)) words.now name part byte }
{
    match part {
        Part::Closing => closing_step(byte),
        Part::Done => Step::Stop,
        _ => {
            if ends_word(byte) {
                return end_step(part, byte);
            }
            inner_step(words, limits, part, byte)
        }
    }
}
