//! The words of a line so far, and which may come next.

ghost use Rattle.std.specs.Prelude.{◌≡◌, ◌-◌, ◌^◌, ◌<◌, min, true, ℕ, List, OnOk, OnErr, IsSome, Some};
ghost use Rattle.pb_text.specs.meaning.Limits.{largest, top_of};
ghost use Rattle.pb_lines.specs.contract.Grammar.{Grammar, follow, IsNumber};
ghost use Rattle.pb_lines.specs.contract.Laws.{IsGrammar, IsCounted};

use crate::word::{Capital, Follow, Sign, Word};
use pb_sums::Name;
use pb_text::Limits;
use std::alloc::{AllocError, Global};

/// The words of a line so far. The grammar decides which words may come, and what they do.
pub trait WordList {
    type Event: Drop;

    /// The grammar under limits: the largest magnitude, and the largest id or count.
    ghost grammar: { ℕ → ℕ → Grammar Self Self.Event };

    /// What holds of the words on the way.
    ghost good: { ℕ → ℕ → Self → Type 0 };

    /// The largest number that may come next with this sign, if one may come.
    fn number(&self, limits: Limits, sign: Sign) -> Option<u128>
        ensures { result ≡ (grammar (largest limits) (top_of limits)).number self.now sign };

    /// Whether a literal may come next.
    fn takes_literal(&self) -> bool
        ensures { (limit top : ℕ) → result ≡ (grammar limit top).literal self.now };

    /// The word in capital letters that may come next and begins with this byte.
    fn capital(&self, byte: u8) -> Option<Capital>
        ensures { (limit top : ℕ) → result ≡ (grammar limit top).capital self.now byte };

    /// What may follow the words with one more, if there is one that may end here.
    fn follow(&self, limits: Limits, word: Option<Word>) -> Option<Follow>
        requires { IsNumber (grammar (largest limits) (top_of limits)) self.now word }
        ensures { (name : List ℕ) →
            result ≡ follow (grammar (largest limits) (top_of limits)) self.now word name };

    /// Adds a word. That of a literal has the name.
    fn add(
        &mut self,
        alloc: Global,
        limits: Limits,
        word: Word,
        name: &mut Name,
    ) -> Result<(), AllocError>
        requires number { IsNumber (grammar (largest limits) (top_of limits)) self.old (Some word) }
        requires some { IsSome
            ((grammar (largest limits) (top_of limits)).next self.old word name.old) }
        ensures ok { OnOk result (Some self.new ≡
            (grammar (largest limits) (top_of limits)).next self.old word name.old) }
        ensures err { OnErr result ((self.new ≡ self.old) × (name.new ≡ name.old) ×
            ((grammar (largest limits) (top_of limits)).adds self.old word ≡ true)) };

    /// Takes a `:`, if it may come.
    fn add_colon(&mut self, limits: Limits)
        ensures { IsSome ((grammar (largest limits) (top_of limits)).colon self.old) →
            Some self.new ≡ (grammar (largest limits) (top_of limits)).colon self.old };

    /// Ends the line, if it may end: returns its event, and keeps no word.
    fn finish(&mut self, alloc: Global, limits: Limits) -> Self::Event
        requires { IsSome ((grammar (largest limits) (top_of limits)).value self.old) }
        ensures event { Some result ≡ (grammar (largest limits) (top_of limits)).value self.old }
        ensures first { self.new ≡ (grammar (largest limits) (top_of limits)).first };

    /// How much is stored.
    fn held(&self) -> usize
        ensures { (limit top : ℕ) →
            result ≡ min ((grammar limit top).kept self.now) (2 ^ 64 - 1) };

    ghost lawful: { (limit top : ℕ) → limit < 2 ^ 127 → top < 2 ^ 63 → 0 < top →
        IsGrammar grammar limit top (good limit top) };

    ghost counted: { (limit top : ℕ) → IsCounted (grammar limit top) };
}
