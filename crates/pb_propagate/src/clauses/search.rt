//! The search for a literal of a clause that may be watched. It goes round the clause, and goes on
//! where the last one ended.

ghost use Rattle.std.specs.Prelude.{◌≡◌, ℕ, ◌+◌, ◌*◌, ◌-◌, ◌^◌, ◌<◌, ◌≤◌, ◌⊎◌, true, false, All, length, min, slice_index_or};
ghost use Rattle.pb_propagate.specs.engine.clauses.Truths.{false_at};
ghost use Rattle.pb_propagate.specs.engine.clauses.Runs.{turned, around, IsRound};

use crate::assignment::Assignment;
use crate::engine::visits::Visits;

/// A search in a clause.
#[derive(Clone, Copy)]
pub struct Search {
    // The position of the next literal.
    pub position: usize,
    // How many literals before it, round the clause, are falsified or watched.
    pub passed: usize,
}

/// Whether a literal may be watched in place of a falsified one: it is not falsified, and it is not
/// the other watched one.
pub fn may_watch(assignment: &Assignment, literal: u32, other: u32) -> bool
    requires { literal < 4 * length assignment.now.values.items }
    ensures yes { result ≡ true → (false_at assignment.now.values.items literal ≡ false) ×
        (literal ≡ other → ⊥) }
    ensures no { result ≡ false → (false_at assignment.now.values.items literal ≡ true) ⊎
        (literal ≡ other) }
{
    if literal == other {
        return false;
    }
    !assignment.falsifies(literal)
}

impl Search {
    /// At the first literal, with none passed.
    pub fn new() -> Search
        ensures { (result.position ≡ 0) × (result.passed ≡ 0) }
    {
        Search {
            position: 0,
            passed: 0,
        }
    }

    /// One literal further, in a clause of `count` literals.
    pub fn next(self, count: usize) -> Search
        requires position { self.position < count }
        requires passed { self.passed < count }
        ensures position { result.position ≡ around (self.position + 1) count }
        ensures passed { result.passed ≡ self.passed + 1 }
    {
        let further = self.position + 1;
        Search {
            position: if further < count { further } else { 0 },
            passed: self.passed + 1,
        }
    }

    /// Goes on, up to the first literal that may be watched, or until all are passed, and counts
    /// the literals that it reads. The search began at some `start`.
    pub fn advance(
        self,
        literals: &[u32],
        other: u32,
        assignment: &Assignment,
        visits: &mut Visits,
    ) -> Search
        requires within { (self.position < length literals.now) ×
            (self.passed ≤ length literals.now) }
        requires inside { All (λ x. x < 4 * length assignment.now.values.items) literals.now }
        ensures position { result.position < length literals.now }
        ensures within { (self.passed ≤ result.passed) × (result.passed ≤ length literals.now) }
        ensures round { (start : ℕ) → IsRound start self (length literals.now) →
            IsRound start result (length literals.now) }
        ensures passed { (start k d : ℕ) → IsRound start self (length literals.now) →
            self.passed ≤ k → k < result.passed → (false_at assignment.now.values.items
            (slice_index_or (turned start literals.now) k d) ≡ true) ⊎
            (slice_index_or (turned start literals.now) k d ≡ other) }
        ensures found { result.passed < length literals.now → (d : ℕ) →
            (false_at assignment.now.values.items
            (slice_index_or literals.now result.position d) ≡ false) ×
            (slice_index_or literals.now result.position d ≡ other → ⊥) }
        ensures rising { visits.old ≤ visits.new }
        ensures few { visits.new + self.passed ≤ visits.old + min (result.passed + 1)
            (length literals.now) }
        ensures count { visits.new < 2 ^ 64 - 1 →
            visits.new + self.passed ≡ visits.old + min (result.passed + 1) (length literals.now) }
    {
        let mut at = self;
        'literals: while at.passed < literals.len() {
            if may_watch(assignment, literals[at.position], other) {
                visits.add(at.passed + 1 - self.passed);
                return at;
            }
            at = at.next(literals.len());
        }
        visits.add(at.passed - self.passed);
        at
    }
}
