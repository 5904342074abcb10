//! The machine for lines that are made of words.

ghost use Rattle.std.specs.Prelude.{◌≡◌, ◌≤◌, [], true, IsSome, OnOk, OnErr, Some, length, take};
ghost use Rattle.pb_text.specs.meaning.Limits.{largest, top_of};
ghost use Rattle.pb_text.specs.contract.Automaton.{IsState, Pushes, Runs};
ghost use Rattle.pb_lines.specs.contract.Grammar.{IsNumber, with_word, adds_word};
ghost use Rattle.pb_lines.specs.engine.Words.{words_first, words_automaton, step_at, ended, may_come, is_done};

use crate::list::WordList;
use crate::part::{Part, Step};
use crate::step::step_of;
use crate::whole::words_prefix;
use crate::word::{Follow, Word};
use pb_sums::Name;
use pb_text::bytes::is_digit;
use pb_text::{Limits, Machine, Push};
use std::alloc::{AllocError, Global};
use std::marker::Model;

/// A machine that reads the words of a line, with blanks between them, through the line feed.
#[derive(Drop)]
pub struct WordMachine<W: WordList> {
    alloc: Global,
    limits: Limits,
    words: W,
    name: Name,
    part: Part,
}

impl<W: WordList> Model for WordMachine<W> {
    ghost use Rattle.pb_lines.specs.engine.WordsFields.{words_state};
    ghost use Rattle.pb_lines.specs.engine.Words.{WordsState, IsWordsInOrder};

    ghost Value = { WordsState W };

    ghost view = { words_state };

    ghost invariant = { λ m. IsWordsInOrder W.grammar W.good (words_state m) };
}

/// Adds a word, if there is one. Then no name is being read.
fn add_word<W: WordList>(
    alloc: Global,
    limits: Limits,
    words: &mut W,
    word: Option<Word>,
    name: &mut Name,
) -> Result<(), AllocError>
    requires number { IsNumber (W.grammar (largest limits) (top_of limits)) words.old word }
    requires some { IsSome
        (with_word (W.grammar (largest limits) (top_of limits)) words.old word name.old) }
    ensures ok { OnOk result ((name.new ≡ []) × (Some words.new ≡
        with_word (W.grammar (largest limits) (top_of limits)) words.old word name.old)) }
    ensures err { OnErr result ((words.new ≡ words.old) × (name.new ≡ name.old) ×
        (adds_word (W.grammar (largest limits) (top_of limits)) words.old word ≡ true)) }
{
    if let Some(word) = word {
        words.add(alloc, limits, word, name)?;
    }
    *name = Name::new(alloc);
    Ok(())
}

impl<W: WordList> WordMachine<W> {
    /// A machine at the start of its text, with no word. Creating it does not allocate.
    #[tactic(auto, using(crate::proofs::lemmas::Theorems::words_first_in_order))]
    pub fn new(alloc: Global, limits: Limits, words: W) -> Self
        requires { words ≡ (W.grammar (largest limits) (top_of limits)).first }
        ensures begins { result ≡ words_first W.grammar (largest limits) (top_of limits) }
    {
        let _ = limits.largest();
        let _ = limits.top();
        WordMachine {
            alloc,
            limits,
            words,
            name: Name::new(alloc),
            part: Part::Start,
        }
    }

    /// Takes words at the start of a text, each with a space after it, if they are fast to read.
    /// Returns how many bytes it took.
    fn take_words(&mut self, text: &[u8]) -> usize
        ensures bound { result ≤ length text.now }
        ensures runs { Runs (words_automaton W.grammar) self.old (take result text.now) self.new }
        ensures state { IsState (words_automaton W.grammar) self.new }
    {
        let Part::Gap = self.part else {
            let _ = self.is_done();
            return 0;
        };
        let taken = words_prefix(self.alloc, self.limits, &mut self.words, text);
        let _ = self.is_done();
        taken
    }

    /// What the machine does with a byte.
    fn step(&self, byte: u8) -> Step
        ensures { result ≡ step_at W.grammar self.now byte }
    {
        step_of(&self.words, self.limits, self.part, byte)
    }

    /// Takes a byte with its step.
    #[inline(always)]
    fn take(&mut self, byte: u8, step: Step) -> Push<W::Event>
        requires { step ≡ step_at W.grammar self.old byte }
        ensures { Pushes (words_automaton W.grammar) self.old byte result self.new }
    {
        match step {
            Step::To(part) => {
                self.part = part;
                Push::Go
            }
            Step::Add(part) => {
                if self.name.push(byte).is_err() {
                    return Push::Memory;
                }
                self.part = part;
                Push::Go
            }
            Step::End(word, _) | Step::Close(word) | Step::Colon(word) | Step::Finish(word) => {
                self.end(byte, step, word)
            }
            Step::Stop => {
                if matches!(self.part, Part::Number(_, _)) && is_digit(byte) {
                    return Push::Large;
                }
                Push::No
            }
        }
    }

    /// Ends a word, if there is one, and then does what the step says.
    fn end(&mut self, byte: u8, step: Step, word: Option<Word>) -> Push<W::Event>
        requires step { step ≡ step_at W.grammar self.old byte }
        requires word { ended step ≡ Some word }
        ensures { Pushes (words_automaton W.grammar) self.old byte result self.new }
    {
        let Some(follow) = self.words.follow(self.limits, word) else {
            return Push::No;
        };
        if !may_come(step, follow) {
            return Push::No;
        }
        let added = add_word(
            self.alloc,
            self.limits,
            &mut self.words,
            word,
            &mut self.name,
        );
        if added.is_err() {
            return Push::Memory;
        }
        match step {
            Step::Colon(_) => {
                self.words.add_colon(self.limits);
                self.part = Part::Gap;
            }
            Step::Finish(_) => {
                let event = self.words.finish(self.alloc, self.limits);
                self.part = Part::Done;
                return Push::Event(event);
            }
            Step::End(_, part) => self.part = part,
            _ => self.part = Part::Closing,
        }
        Push::Go
    }
}

/// Whether the line has ended.
fn is_done(part: Part) -> bool
    ensures { result ≡ is_done part }
{
    matches!(part, Part::Done)
}

/// Whether the step may be taken, given what may follow the words.
fn may_come(step: Step, follow: Follow) -> bool
    ensures { result ≡ may_come step follow }
{
    match step {
        Step::End(_, _) => true,
        Step::Finish(_) | Step::Close(_) => follow.end,
        Step::Colon(_) => follow.colon,
        _ => false,
    }
}

impl<W: WordList> Machine for WordMachine<W> {
    type Event = W::Event;

    ghost automaton = { words_automaton W.grammar };

    fn try_continue(&mut self, byte: u8) -> bool {
        let _ = self.is_done();
        let step = self.step(byte);
        if matches!(step, Step::Finish(_) | Step::Stop) {
            return false;
        }
        let answer = self.take(byte, step);
        let _ = self.is_done();
        matches!(answer, Push::Go)
    }

    fn take_prefix(&mut self, piece: &[u8]) -> usize {
        let taken = self.take_words(piece);
        if taken > 0 {
            return taken;
        }
        if self.try_continue(piece[0]) { 1 } else { 0 }
    }

    fn push(&mut self, byte: u8) -> Push<W::Event> {
        let step = self.step(byte);
        let answer = self.take(byte, step);
        let _ = self.is_done();
        answer
    }

    fn is_done(&self) -> bool {
        is_done(self.part)
    }

    fn starts(&self, byte: u8) -> bool {
        match self.part {
            Part::Start => match self.words.follow(self.limits, None) {
                Some(follow) => may_come(self.step(byte), follow),
                None => false,
            },
            _ => false,
        }
    }

    fn held(&self) -> usize {
        let begun = match self.part {
            Part::First | Part::Letter(_) | Part::Name(_) => 1,
            _ => 0,
        };
        self.words
            .held()
            .saturating_add(begun)
            .saturating_add(self.name.as_str().len())
    }
}
