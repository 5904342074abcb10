//! How much a text has stored.

ghost use Rattle.std.specs.Prelude.{◌≡◌, ◌-◌, ◌^◌, min};
ghost use Rattle.pb_sums.specs.engine.State.{units};

use crate::linear::Term;

/// The number of literals plus the number of bytes of their names. The count saturates.
#[tactic(auto, using(crate::proofs::lemmas::machine::Counts::count_more))]
pub fn count_units(terms: &[Term]) -> usize
    ensures { result ≡ min (units terms.now) (2 ^ 64 - 1) }
{
    let mut count: usize = 0;
    for term in terms {
        let more = term.literal.name.as_bytes().len().saturating_add(1);
        count = count.saturating_add(more);
    }
    count
}
