//! What a machine does with a byte, by its phase.

ghost use Rattle.std.specs.Prelude.{◌≡◌, ℕ, ◌+◌, ◌*◌, ◌-◌, ◌<◌, ◌≤◌, ◌^◌, length};
ghost use Rattle.pb_opb.specs.engine.Machine.{word_of, spell, count, after_count, transition};
ghost use Rattle.pb_opb.specs.engine.State.{is_within, is_done};
ghost use Rattle.pb_opb.specs.engine.Order.{PhaseFits, ActionFits};

use crate::phase::{Action, Field, Phase};
use pb_text::bytes::{is_blank, is_digit, is_white};
use pb_text::decimal::next_digit_u64;

/// The bytes that announce a count.
fn word_of(field: Field) -> &'static [u8]
    ensures { result.now ≡ word_of field }
{
    match field {
        Field::Variables => b"#variable=",
        Field::Constraints => b"#constraint=",
    }
}

/// The action for the next byte of a word, of which some bytes were read.
fn spell(word: &[u8], read: usize, byte: u8, more: Phase, whole: Phase) -> Action
    requires { read < length word.now }
    ensures { result ≡ spell word.now read byte more whole }
{
    if byte != word[read] {
        return Action::Stop;
    }
    Action::To(if read + 1 == word.len() { whole } else { more })
}

/// The action for the next digit of a count.
fn count(top: u64, field: Field, value: u64, byte: u8) -> Action
    requires top { top < 2 ^ 63 }
    requires value { value ≤ top }
    ensures transition { result ≡ count top field value byte }
    ensures fits { ActionFits top result }
{
    if !is_digit(byte) {
        return Action::Stop;
    }
    match next_digit_u64(top, value, byte - b'0') {
        None => Action::Stop,
        Some(next) => Action::To(Phase::Count(field, next)),
    }
}

/// The action for a byte after the digits of a count.
fn after_count(top: u64, field: Field, value: u64, byte: u8) -> Action
    requires value { value ≤ top }
    ensures transition { result ≡ after_count field value byte }
    ensures fits { ActionFits top result }
{
    match field {
        Field::Variables if is_blank(byte) => Action::Declare(value),
        Field::Constraints if byte == b'\n' => Action::EndHeader(value),
        Field::Constraints if is_blank(byte) => Action::BeginTail(value, byte),
        _ => Action::Stop,
    }
}

/// What a machine does with a byte.
#[inline(always)]
pub fn transition(top: u64, phase: Phase, byte: u8) -> Action
    requires top { top < 2 ^ 63 }
    requires phase { PhaseFits top phase }
    ensures transition { result ≡ transition top phase byte }
    ensures fits { ActionFits top result }
{
    match phase {
        Phase::Start if byte == b'*' => Action::To(Phase::BeforeWord(Field::Variables)),
        Phase::Start => Action::Stop,
        Phase::BeforeWord(_) if is_blank(byte) => Action::To(phase),
        Phase::BeforeWord(field) if byte == b'#' => Action::To(Phase::Word(field, 1)),
        Phase::BeforeWord(_) => Action::Stop,
        Phase::Word(field, read) => {
            let more = Phase::Word(field, read + 1);
            spell(word_of(field), read, byte, more, Phase::BeforeCount(field))
        }
        Phase::BeforeCount(_) if is_blank(byte) => Action::To(phase),
        Phase::BeforeCount(field) => count(top, field, 0, byte),
        Phase::Count(field, value) if is_digit(byte) => count(top, field, value, byte),
        Phase::Count(field, value) => after_count(top, field, value, byte),
        Phase::Tail if byte == b'\n' => Action::EndTail,
        Phase::Tail => Action::Keep(byte),
        Phase::Between(_) if is_white(byte) => Action::To(phase),
        Phase::Between(objective_allowed) if byte == b'*' => Action::To(Phase::Comment(
            objective_allowed,
        )),
        Phase::Between(objective_allowed) if byte == b'm' && objective_allowed => Action::To(
            Phase::Min(1),
        ),
        Phase::Between(_) => Action::Give(Phase::Constraint),
        Phase::Comment(objective_allowed) if byte == b'\n' => Action::EndComment(objective_allowed),
        Phase::Comment(_) => Action::Keep(byte),
        Phase::Min(read) => spell_min(read, byte),
        Phase::AfterMin if is_white(byte) => Action::To(phase),
        Phase::AfterMin | Phase::Objective => Action::Give(Phase::Objective),
        Phase::Constraint => Action::Give(Phase::Constraint),
        Phase::Done => Action::Stop,
    }
}

/// The action for the next byte of `min:`, of which some bytes were read.
fn spell_min(read: usize, byte: u8) -> Action
    requires { (0 < read) × (read < 4) }
    ensures transition { result ≡ transition 0 (Phase.Min read) byte }
    ensures fits { (top : ℕ) → ActionFits top result }
{
    let next = match read {
        1 => b'i',
        2 => b'n',
        _ => b':',
    };
    if byte != next {
        return Action::Stop;
    }
    if read == 3 {
        Action::BeginSum
    } else {
        Action::To(Phase::Min(read + 1))
    }
}

/// Whether a statement has begun and not ended.
#[inline(always)]
pub fn is_within(phase: Phase) -> bool
    ensures { result ≡ is_within phase }
{
    !matches!(phase, Phase::Start | Phase::Between(_) | Phase::Done)
}

/// Whether nothing may follow.
#[inline(always)]
pub fn is_done(phase: Phase) -> bool
    ensures { result ≡ is_done phase }
{
    matches!(phase, Phase::Done)
}
