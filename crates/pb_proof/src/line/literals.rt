//! The literals of a line.

ghost use Rattle.std.specs.Prelude.{◌≡◌, ◌-◌, ◌^◌, ◌++◌, ◌∷◌, [], OnOk, OnErr, min};
ghost use Rattle.pb_proof.specs.engine.line.Literals.{literal, units};

use pb_sums::{Literal, Name};
use pb_text::Sequence;
use std::alloc::{AllocError, Global};
use std::mem;

/// Adds a literal with this name.
pub(crate) fn add_literal(
    alloc: Global,
    literals: &mut Sequence<Literal>,
    negated: bool,
    name: &mut Name,
) -> Result<(), AllocError>
    ensures ok { OnOk result (literals.new ≡ literals.old ++ literal negated name.old ∷ []) }
    ensures err { OnErr result ((literals.new ≡ literals.old) × (name.new ≡ name.old)) }
{
    let whole = mem::replace(name, Name::new(alloc));
    if let Err(failed) = literals.push(Literal {
        negated,
        name: whole,
    }) {
        *name = failed.value.name;
        return Err(AllocError);
    }
    Ok(())
}

/// The number of literals plus the number of bytes of their names. The sum saturates.
#[tactic(auto, using(crate::proofs::lemmas::Literals::count_more))]
pub(crate) fn count_units(literals: &[Literal]) -> usize
    ensures { result ≡ min (units literals.now) (2 ^ 64 - 1) }
{
    let mut count: usize = 0;
    for literal in literals {
        let more = literal.name.as_str().len().saturating_add(1);
        count = count.saturating_add(more);
    }
    count
}
