//! How words change the list of postfix words.

ghost use Rattle.std.specs.Prelude.{◌≡◌, ◌-◌, ◌^◌, ◌<◌, vec_len, vec_capacity, min, OnOk};
ghost use Rattle.pb_proof.specs.engine.line.Pol.{turned, with_last, word_units, units};

use crate::word::PolWord;
use std::alloc::AllocError;

/// The number of words that there is room for at first.
const FIRST: usize = 8;

/// The last word, changed by an operator.
#[inline(always)]
fn turned(mark: u8, word: PolWord) -> PolWord
    ensures { result ≡ turned mark word }
{
    match word {
        PolWord::Id(id) if mark == b'*' => PolWord::Multiply(id as i128),
        PolWord::Id(id) => PolWord::Divide(id as i128),
        PolWord::Multiply(factor) if mark != b'*' => PolWord::Divide(factor),
        PolWord::Axiom(literal) => PolWord::Weaken(literal.name),
        word => word,
    }
}

/// Changes the last word.
#[inline(always)]
#[tactic(auto, using(crate::proofs::lemmas::pol::Moves::with_last_append))]
pub fn turn_last(words: &mut Vec<PolWord>, mark: u8)
    ensures words { words.new.items ≡ with_last (turned mark) words.old.items }
    ensures len { vec_len words.new ≡ vec_len words.old }
{
    if let Some(word) = words.pop() {
        words.push_reserved(turned(mark, word));
    }
}

/// Makes room for one more word, and at first for several: most lines have more than four words.
#[inline(always)]
pub fn make_room(words: &mut Vec<PolWord>) -> Result<(), AllocError>
    ensures words { words.new.items ≡ words.old.items }
    ensures ok { OnOk result (vec_len words.new < vec_capacity words.new) }
{
    if words.capacity() == 0 {
        words.reserve(FIRST)?;
    } else {
        words.reserve(1)?;
    }
    Ok(())
}

fn word_units(word: &PolWord) -> usize
    ensures { result ≡ min (word_units word.now) (2 ^ 64 - 1) }
{
    match word {
        PolWord::Axiom(literal) => literal.name.as_str().len().saturating_add(1),
        PolWord::Weaken(name) => name.as_str().len().saturating_add(1),
        _ => 1,
    }
}

/// The number of words plus the number of bytes of their names. The sum saturates.
#[tactic(auto, using(crate::proofs::lemmas::pol::Moves::count_more))]
pub fn count_units(words: &[PolWord]) -> usize
    ensures { result ≡ min (units words.now) (2 ^ 64 - 1) }
{
    let mut count: usize = 0;
    for word in words {
        count = count.saturating_add(word_units(word));
    }
    count
}
