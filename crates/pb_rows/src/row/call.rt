//! The words of a call.

ghost use Rattle.std.specs.Prelude.{◌<◌, IfSome};

use crate::broken::Broken;
use crate::constraint::is_rule;
use crate::row::accepted::accepts;
use pb_sums::Part;
use pb_text::{BYTE_LIMIT, Limits, Place};

/// What is called.
#[derive(Clone, Copy)]
pub enum Verb {
    Show,
    Tidy,
    TidyNormal,
    Feed,
    Stop,
    Read,
    Pull,
    Prefixes,
    Zeros,
    Judge,
    Forms,
    Names,
    Numbers,
    Words,
    Fault,
    Limits,
    Write,
    Rest,
    Count,
    Check,
    Checker,
    Steps,
    Refuted,
}

/// The grammar of the text.
#[derive(Clone, Copy)]
pub enum Grammar {
    Opb,
    Proof,
    /// Lines of a proof after its header and its `f`.
    Lines,
    /// A sum, with white space or with blanks only.
    Sum(Part),
    /// One statement of a proof, as a value.
    Statement,
}

/// Which calls of a reader or a writer fail, one after another.
#[derive(Clone, Copy)]
pub enum Each {
    Neither,
    Read,
    /// Those of the reader of the proof, if there are two readers.
    ProofRead,
    Write,
}

/// A call, without its input.
#[derive(Clone, Copy)]
pub struct Call {
    pub verb: Verb,
    pub grammar: Grammar,
    pub has_blanks: bool,
    pub bits: u32,
    pub top: u64,
    /// The most bytes of a statement, if the call names a limit.
    pub longest: Option<u64>,
    pub reader_fails: Option<u64>,
    pub proof_fails: Option<u64>,
    pub reader_most: usize,
    pub writer_fails: Option<u64>,
    pub writer_most: usize,
    pub each: Each,
    pub is_once: bool,
    pub is_alone: bool,
    pub is_held: bool,
    pub has_spans: bool,
    /// The position at which a rest begins.
    pub rest_start: Place,
    /// How many statements are counted before memory runs out.
    pub room: u64,
    pub visits_least: Option<u64>,
    pub visits_most: u64,
}

impl Call {
    fn new(verb: Verb) -> Call {
        Call {
            verb,
            grammar: Grammar::Opb,
            has_blanks: false,
            bits: 127,
            top: (1 << 63) - 1,
            longest: None,
            reader_fails: None,
            proof_fails: None,
            reader_most: usize::MAX,
            writer_fails: None,
            writer_most: usize::MAX,
            each: Each::Neither,
            is_once: false,
            is_alone: false,
            is_held: false,
            has_spans: false,
            rest_start: Place::START,
            room: u64::MAX,
            visits_least: None,
            visits_most: u64::MAX,
        }
    }

    /// The limit on the bytes of a statement, if there is one.
    pub(crate) fn longest(&self) -> Option<u64>
        ensures { IfSome result (λ n. 0 < n) }
    {
        match self.longest {
            Some(longest) => Some(longest.max(1)),
            None => None,
        }
    }

    /// The same, with the largest one in place of none.
    pub(crate) fn most(&self) -> u64
        ensures { 0 < result }
    {
        match self.longest {
            Some(longest) => longest.max(1),
            None => BYTE_LIMIT,
        }
    }

    /// The limits that the call names.
    pub(crate) fn limits(&self) -> Result<Limits, Broken> {
        match Limits::new(self.bits, self.top) {
            Some(limits) => Ok(limits),
            None => Err(Broken::Limits),
        }
    }
}

/// The call on a line.
pub(crate) fn call_of(line: &str) -> Result<Call, Broken> {
    let mut call = Call::new(verb_of(line)?);
    for word in line.split_whitespace().skip(1) {
        take_word(&mut call, word)?;
    }
    Ok(call)
}

/// Sets what a word after the verb says, if the call accepts it. A word that is left to the rows of
/// the verb sets nothing.
fn take_word(call: &mut Call, word: &str) -> Result<(), Broken> {
    if is_left(call.verb, word) {
        return Ok(());
    }
    let (key, value) = match word.split_once('=') {
        Some((key, value)) => (key, Some(value)),
        None => (word, None),
    };
    if !accepts(call.verb, key) {
        return Err(Broken::Word);
    }
    match value {
        Some(value) => set(call, key, value),
        None => set_word(call, word),
    }
}

/// Whether a word is left to the rows of its verb.
fn is_left(verb: Verb, word: &str) -> bool {
    match verb {
        Verb::Forms => is_rule(word),
        Verb::Words => word.starts_with("shows="),
        Verb::Fault => true,
        _ => false,
    }
}

/// The verb that is the first word of a line.
fn verb_of(line: &str) -> Result<Verb, Broken> {
    match line.split_whitespace().next() {
        Some(word) => common_verb(word),
        None => Err(Broken::Call),
    }
}

fn common_verb(word: &str) -> Result<Verb, Broken> {
    match word {
        "show" => Ok(Verb::Show),
        "tidy" => Ok(Verb::Tidy),
        "feed" => Ok(Verb::Feed),
        "stop" => Ok(Verb::Stop),
        "read" => Ok(Verb::Read),
        "pull" => Ok(Verb::Pull),
        "prefixes" => Ok(Verb::Prefixes),
        "zeros" => Ok(Verb::Zeros),
        "judge" => Ok(Verb::Judge),
        "forms" => Ok(Verb::Forms),
        _ => other_verb(word),
    }
}

fn other_verb(word: &str) -> Result<Verb, Broken> {
    match word {
        "names" => Ok(Verb::Names),
        "numbers" => Ok(Verb::Numbers),
        "words" => Ok(Verb::Words),
        "fault" => Ok(Verb::Fault),
        "limits" => Ok(Verb::Limits),
        "write" => Ok(Verb::Write),
        "rest" => Ok(Verb::Rest),
        "count" => Ok(Verb::Count),
        "check" => Ok(Verb::Check),
        "checker" => Ok(Verb::Checker),
        "steps" => Ok(Verb::Steps),
        "refuted" => Ok(Verb::Refuted),
        _ => Err(Broken::Call),
    }
}

/// Sets what a word without a value says. The word `same` belongs to the row.
fn set_word(call: &mut Call, word: &str) -> Result<(), Broken> {
    match word {
        "same" => {}
        "opb" => call.grammar = Grammar::Opb,
        "proof" => call.grammar = Grammar::Proof,
        "lines" => call.grammar = Grammar::Lines,
        "statement" => call.grammar = Grammar::Statement,
        "sum" => call.grammar = Grammar::Sum(Part::Sum),
        "linear" => call.grammar = Grammar::Sum(Part::Linear),
        "at-least" => call.grammar = Grammar::Sum(Part::AtLeast),
        _ => return set_flag(call, word),
    }
    Ok(())
}

fn set_flag(call: &mut Call, word: &str) -> Result<(), Broken> {
    match word {
        "normal" => call.verb = Verb::TidyNormal,
        "blanks" => call.has_blanks = true,
        "each-read" => call.each = Each::Read,
        "each-proof-read" => call.each = Each::ProofRead,
        "each-write" => call.each = Each::Write,
        "once" => call.is_once = true,
        "alone" => call.is_alone = true,
        "held" => call.is_held = true,
        "spans" => call.has_spans = true,
        _ => return Err(Broken::Word),
    }
    Ok(())
}

fn set(call: &mut Call, key: &str, value: &str) -> Result<(), Broken> {
    let Ok(number) = value.parse::<u64>() else {
        return Err(Broken::Word);
    };
    match key {
        "bits" => call.bits = bits_of(number)?,
        "top" => call.top = number,
        "longest" => call.longest = Some(number),
        "reader-fails" => call.reader_fails = Some(number),
        "proof-reader-fails" => call.proof_fails = Some(number),
        "reader-most" => call.reader_most = number as usize,
        "writer-fails" => call.writer_fails = Some(number),
        "writer-most" => call.writer_most = number as usize,
        "line" => call.rest_start.line = number,
        "column" => call.rest_start.column = number,
        "offset" => call.rest_start.offset = number,
        "room" => call.room = number,
        "visits-least" => call.visits_least = Some(number),
        "visits-most" => call.visits_most = number,
        _ => return Err(Broken::Word),
    }
    Ok(())
}

fn bits_of(number: u64) -> Result<u32, Broken> {
    if number < 1000 {
        Ok(number as u32)
    } else {
        Err(Broken::Word)
    }
}
