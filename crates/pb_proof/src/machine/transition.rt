//! What the machine for proofs does with a byte, given what it has read last.

ghost use Rattle.std.specs.Prelude.{◌≡◌, ◌<◌, length};
ghost use Rattle.pb_proof.specs.engine.machine.Transition.{words_of, next_action, meets, spell, step_keyword, enter, pass, between, transition};
ghost use Rattle.pb_proof.specs.engine.machine.State.{is_within, is_complete, is_done, next_stage, PhaseFits};

use crate::machine::phase::{Action, Keyword, LineKind, Phase, Stage};
use pb_text::bytes::{is_blank, is_white};

/// The words that a statement begins with. A space in them is for one or more blanks.
fn words_of(keyword: Keyword) -> &'static [u8]
    ensures { result.now ≡ words_of keyword }
{
    match keyword {
        Keyword::Header => b"pseudo-Boolean proof version 2.0",
        Keyword::Formula => b"f",
        Keyword::Pol => b"pol",
        Keyword::Rup => b"rup",
        Keyword::Solution => b"sol",
        Keyword::Delete => b"del id",
        Keyword::Output => b"output NONE",
        Keyword::Conclusion => b"conclusion",
        Keyword::End => b"end pseudo-Boolean proof",
    }
}

/// What the machine does after the words.
fn next_action(keyword: Keyword) -> Action
    ensures { result ≡ next_action keyword }
{
    match keyword {
        Keyword::Header => Action::To(Phase::HeaderEnd),
        Keyword::Formula => Action::Begin(LineKind::Formula),
        Keyword::Pol => Action::Begin(LineKind::Pol),
        Keyword::Rup => Action::Begin(LineKind::Rup),
        Keyword::Solution => Action::To(Phase::Solution),
        Keyword::Delete => Action::Begin(LineKind::Delete),
        Keyword::Output => Action::To(Phase::OutputEnd(true)),
        Keyword::Conclusion => Action::Begin(LineKind::Conclusion),
        Keyword::End => Action::EndProof,
    }
}

/// Whether a byte is the expected byte of the words or, if that is a space, a blank.
fn meets(expected: u8, byte: u8) -> bool
    ensures { result ≡ meets expected byte }
{
    if expected == b' ' {
        is_blank(byte)
    } else {
        byte == expected
    }
}

/// The action for the next byte of the words, after `read` bytes of them. For any other byte it is
/// `other`.
fn spell(keyword: Keyword, read: usize, byte: u8, other: Action) -> Action
    requires { read < length (words_of keyword) }
    ensures { result ≡ spell keyword read byte other }
{
    let words = words_of(keyword);
    if !meets(words[read], byte) {
        return other;
    }
    if read + 1 == words.len() {
        next_action(keyword)
    } else {
        Action::To(Phase::Spelling(keyword, read + 1))
    }
}

/// The words of the step that begins with this byte, or else those of the output.
fn step_keyword(byte: u8) -> Keyword
    ensures { result ≡ step_keyword byte }
{
    match byte {
        b'p' => Keyword::Pol,
        b'r' => Keyword::Rup,
        b's' => Keyword::Solution,
        b'd' => Keyword::Delete,
        _ => Keyword::Output,
    }
}

/// The action for the first byte of a statement.
fn enter(stage: Stage, byte: u8) -> Action
    ensures { result ≡ enter stage byte }
{
    match stage {
        Stage::Opening => spell(Keyword::Header, 0, byte, Action::Stop),
        Stage::Formula => spell(Keyword::Formula, 0, byte, Action::Stop),
        Stage::Steps => spell(step_keyword(byte), 0, byte, Action::Stop),
        Stage::Concluding => spell(Keyword::Conclusion, 0, byte, Action::Stop),
        Stage::Closing => spell(Keyword::End, 0, byte, Action::Stop),
        Stage::Complete => Action::Stop,
    }
}

/// The action for white space, the start of a comment, or the first byte of a statement.
fn pass(stage: Stage, byte: u8) -> Action
    ensures { result ≡ pass stage byte }
{
    if is_white(byte) {
        Action::To(Phase::Between(stage))
    } else if byte == b'*' {
        Action::To(Phase::Comment(stage))
    } else {
        enter(stage, byte)
    }
}

/// The action for a byte between two statements.
fn between(stage: Stage, byte: u8) -> Action
    ensures { result ≡ between stage byte }
{
    match stage {
        Stage::Opening => enter(stage, byte),
        Stage::Complete => Action::Stop,
        _ => pass(stage, byte),
    }
}

/// The action for a byte within the words.
fn within(keyword: Keyword, read: usize, byte: u8) -> Action
    requires { PhaseFits (Phase.Spelling keyword read) }
    ensures { result ≡ transition (Phase.Spelling keyword read) byte }
{
    let other = if is_blank(byte) && words_of(keyword)[read - 1] == b' ' {
        Action::To(Phase::Spelling(keyword, read))
    } else {
        Action::Stop
    };
    spell(keyword, read, byte, other)
}

/// What the machine does with a byte.
#[inline(always)]
pub fn transition(phase: Phase, byte: u8) -> Action
    requires { PhaseFits phase }
    ensures { result ≡ transition phase byte }
{
    match phase {
        Phase::Between(stage) => between(stage, byte),
        Phase::Comment(stage) if byte == b'\n' => Action::To(Phase::Between(stage)),
        Phase::Comment(_) => Action::To(phase),
        Phase::Spelling(keyword, read) => within(keyword, read, byte),
        Phase::Solution if byte == b'i' => Action::Begin(LineKind::Soli),
        Phase::Solution if byte == b'x' => Action::Begin(LineKind::Solx),
        Phase::HeaderEnd | Phase::OutputEnd(_) if is_blank(byte) => Action::To(phase),
        Phase::HeaderEnd if byte == b'\n' => Action::EndHeader,
        Phase::OutputEnd(_) if byte == b'\n' => Action::EndOutput,
        Phase::OutputEnd(true) if byte == b';' => Action::To(Phase::OutputEnd(false)),
        Phase::Solution | Phase::HeaderEnd | Phase::OutputEnd(_) => Action::Stop,
        Phase::Inside(kind) => Action::Give(kind),
    }
}

/// Whether a statement has begun and not ended.
pub fn is_within(phase: Phase) -> bool
    ensures { result ≡ is_within phase }
{
    !matches!(phase, Phase::Between(_) | Phase::Comment(_))
}

/// Whether nothing may follow.
pub fn is_done(phase: Phase) -> bool
    ensures { result ≡ is_done phase }
{
    matches!(phase, Phase::Between(Stage::Complete))
}

/// The stage after a statement.
pub fn next_stage(kind: LineKind) -> Stage
    ensures { result ≡ next_stage kind }
{
    match kind {
        LineKind::Conclusion => Stage::Closing,
        _ => Stage::Steps,
    }
}
