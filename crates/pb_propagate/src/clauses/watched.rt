//! The two literals that a new clause watches.

ghost use Rattle.std.specs.Prelude.{◌≡◌, ◌<◌, false, length, slice_index, IfSome};
ghost use Rattle.pb_propagate.specs.engine.clauses.Runs.{IsPair, IsFreePair};
ghost use Rattle.pb_propagate.specs.engine.clauses.Truths.{false_at};

use crate::assignment::Assignment;

/// The positions of two literals of a clause.
#[derive(Clone, Copy)]
pub struct Pair {
    pub first: usize,
    pub second: usize,
}

// The first position from a position on with a literal that is not falsified.
fn next_free(assignment: &Assignment, literals: &[u32], from: usize) -> Option<usize>
    ensures inside { IfSome result (λ i. i < length literals.now) }
    ensures free { IfSome result (λ i.
        false_at assignment.now.values.items (slice_index literals.now i) ≡ false) }
{
    'literals: for i in from..literals.len() {
        if !assignment.has_falsified(literals[i] as usize) {
            return Some(i);
        }
    }
    None
}

/// Two positions, if different literals are there.
pub fn pair_of(literals: &[u32], first: usize, second: usize) -> Option<Pair>
    requires first { first < length literals.now }
    requires second { second < length literals.now }
    ensures { IfSome result (λ p. IsPair literals.now p × (p.first ≡ first) × (p.second ≡ second)) }
{
    if literals[first] == literals[second] {
        return None;
    }
    Some(Pair { first, second })
}

/// Two literals of a clause that are not falsified. There may be none.
pub fn pick(assignment: &Assignment, literals: &[u32]) -> Option<Pair>
    ensures pair { IfSome result (IsPair literals.now) }
    ensures free { IfSome result (IsFreePair assignment.now.values.items literals.now) }
{
    let first = next_free(assignment, literals, 0)?;
    let second = next_free(assignment, literals, first + 1)?;
    pair_of(literals, first, second)
}
