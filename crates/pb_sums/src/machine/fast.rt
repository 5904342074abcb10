//! Takes words of a sum or a linear text at once.

ghost use Rattle.std.specs.Prelude.{◌≡◌, ◌≤◌, [], true};
ghost use Rattle.pb_text.specs.contract.Automaton.{IsState};
ghost use Rattle.pb_sums.specs.engine.Machine.{is_more};

use crate::linear::Term;
use crate::machine::{SumMachine, flush};
use crate::name::Name;
use crate::phase::Phase;
use crate::prefix::{name_prefix, relation_prefix, sign_prefix};
use crate::term_prefix::{begins_term, spaced_literal_prefix, spaced_number_prefix};
use crate::transition::{
    after_name, after_number, after_space, begins_number, begins_relation, role, sign_read,
};
use pb_text::Machine;
use pb_text::bytes::is_letter;
use pb_text::digits::number_prefix;

impl SumMachine {
    ghost use Rattle.std.specs.Prelude.{take, length};
    ghost use Rattle.pb_text.specs.contract.Automaton.{Continues, Runs};
    ghost use Rattle.pb_sums.specs.engine.Prefix.{LacksNumber, LacksRelation, begins_number, begins_relation, sign_read};
    ghost use Rattle.pb_sums.specs.engine.State.{sums};

    /// If a term may begin, takes a whole term and a space after it. After the sign of a term,
    /// takes the rest and the space.
    #[inline(always)]
    #[tactic(auto, using(crate::proofs::Rulesets::terms))]
    fn take_term(&mut self, text: &[u8]) -> usize
        ensures bound { result ≤ length text.now }
        ensures runs { Runs sums self.old (take result text.now) self.new }
        ensures state { IsState sums self.new }
    {
        let _ = self.is_done();
        if !begins_term(self.phase) || !self.name.as_bytes().is_empty() {
            return 0;
        }
        let Some((number, coefficient)) = spaced_number_prefix(self.limit, self.phase, text) else {
            return 0;
        };
        let Some((length, literal)) = spaced_literal_prefix(self.alloc, &text[number..]) else {
            return 0;
        };
        let term = Term {
            coefficient,
            literal,
        };
        if self.terms.push(term).is_err() {
            return 0;
        }
        self.phase = Phase::Between;
        number + length
    }

    /// After terms and space, takes a relation, and a space after it if there is one.
    #[inline(always)]
    fn take_relation(&mut self, text: &[u8]) -> usize
        ensures bound { result ≤ length text.now }
        ensures runs { Runs sums self.old (take result text.now) self.new }
        ensures state { IsState sums self.new }
        // It leaves one untaken only if a name is stored.
        ensures none { result ≡ 0 → begins_relation self.old.work.phase ≡ true →
            self.old.work.name ≡ [] → LacksRelation self.old.part text.now }
    {
        let _ = self.is_done();
        if !begins_relation(self.phase) || !self.name.as_bytes().is_empty() {
            return 0;
        }
        let Some((length, relation)) = relation_prefix(self.part, text) else {
            return 0;
        };
        self.phase = Phase::Relation(relation);
        if length < text.len() && text[length] == b' ' {
            return length + 1;
        }
        length
    }

    /// Takes a whole term, a relation or a coefficient, if they may begin.
    #[inline(always)]
    fn take_start(&mut self, text: &[u8]) -> usize
        ensures bound { result ≤ length text.now }
        ensures runs { Runs sums self.old (take result text.now) self.new }
        ensures state { IsState sums self.new }
    {
        let length = self.take_term(text);
        if length > 0 {
            return length;
        }
        let length = self.take_relation(text);
        if length > 0 {
            return length;
        }
        self.take_numeral(text)
    }

    /// Takes a number with a space after it, or otherwise its digits, if they may begin.
    #[inline(always)]
    fn take_numeral(&mut self, text: &[u8]) -> usize
        ensures bound { result ≤ length text.now }
        ensures runs { Runs sums self.old (take result text.now) self.new }
        ensures state { IsState sums self.new }
    {
        let length = self.take_spaced_number(text);
        if length > 0 {
            return length;
        }
        self.take_number(text)
    }

    /// Takes a small number and a space after it, if a number may begin.
    #[inline(always)]
    #[tactic(auto, using(crate::proofs::Rulesets::terms))]
    fn take_spaced_number(&mut self, text: &[u8]) -> usize
        ensures bound { result ≤ length text.now }
        ensures runs { Runs sums self.old (take result text.now) self.new }
        ensures state { IsState sums self.new }
        // It leaves one untaken only if a name is stored.
        ensures none { result ≡ 0 → begins_number self.old.work.phase ≡ true →
            self.old.work.name ≡ [] →
            LacksNumber self.old.limit (sign_read self.old.work.phase) text.now }
    {
        let _ = self.is_done();
        if !begins_number(self.phase) || !self.name.as_bytes().is_empty() {
            return 0;
        }
        let Some((length, value)) = spaced_number_prefix(self.limit, self.phase, text) else {
            return 0;
        };
        self.phase = after_number(role(self.phase), value);
        length
    }

    /// Takes a small number, if one may begin.
    #[inline(always)]
    #[tactic(auto, using(crate::proofs::Rulesets::numbers))]
    fn take_number(&mut self, text: &[u8]) -> usize
        ensures bound { result ≤ length text.now }
        ensures runs { Runs sums self.old (take result text.now) self.new }
        ensures state { IsState sums self.new }
    {
        let _ = self.is_done();
        if !begins_number(self.phase) || !self.name.as_bytes().is_empty() {
            return 0;
        }
        let (sign, negative) = sign_prefix(sign_read(self.phase), text);
        let (count, value) = number_prefix(&text[sign..]);
        let magnitude = value as u128;
        if count == 0 || magnitude > self.limit {
            return 0;
        }
        self.phase = Phase::Digits(role(self.phase), negative, magnitude);
        sign + count
    }

    /// Takes a name of at least two bytes, if one may begin.
    #[inline(always)]
    fn take_name(&mut self, text: &[u8]) -> usize
        ensures bound { result ≤ length text.now }
        ensures runs { Runs sums self.old (take result text.now) self.new }
        ensures state { IsState sums self.new }
    {
        let _ = self.is_done();
        let length = name_prefix(text);
        if length < 2 || !is_letter(text[0]) {
            return 0;
        }
        let Some(phase) = after_name(self.phase) else {
            return 0;
        };
        let Ok(name) = Name::from_prefix(self.alloc, text, length) else {
            return 0;
        };
        self.name = name;
        self.phase = phase;
        length
    }

    /// Takes bytes of a name after its first two.
    #[inline(always)]
    #[tactic(auto, using(crate::proofs::lemmas::prefixes::Names::more_runs))]
    fn take_more(&mut self, text: &[u8]) -> usize
        requires { is_more self.old.work.phase ≡ true }
        ensures bound { result ≤ length text.now }
        ensures runs { Runs sums self.old (take result text.now) self.new }
        ensures state { IsState sums self.new }
    {
        let _ = self.is_done();
        let length = name_prefix(text);
        if length == 0 {
            return 0;
        }
        let Ok(more) = str::from_utf8(&text[..length]) else {
            return 0;
        };
        if self.name.push_str(more).is_err() {
            return 0;
        }
        length
    }

    /// Takes a space, in the phases where one is common.
    #[inline(always)]
    pub(super) fn take_space(&mut self) -> bool
        ensures continues { Continues sums self.old 32 result self.new }
        ensures state { IsState sums self.new }
    {
        let _ = self.is_done();
        let Some(phase) = after_space(self.phase) else {
            return false;
        };
        if flush(self.alloc, &mut self.terms, &mut self.name, self.phase).is_err() {
            return false;
        }
        self.phase = phase;
        true
    }

    /// Takes the word at the start of the text, if that is fast.
    #[inline(always)]
    pub(super) fn take_word(&mut self, text: &[u8]) -> usize
        ensures bound { result ≤ length text.now }
        ensures runs { Runs sums self.old (take result text.now) self.new }
        ensures state { IsState sums self.new }
    {
        let _ = self.is_done();
        match self.phase {
            Phase::Start | Phase::Signed(None, _) | Phase::Between => self.take_start(text),
            Phase::Signed(Some(_), _) | Phase::Relation(_) => self.take_numeral(text),
            Phase::Gap(_) | Phase::Tilde(_) => self.take_name(text),
            Phase::More(_, _) => self.take_more(text),
            _ => 0,
        }
    }
}
