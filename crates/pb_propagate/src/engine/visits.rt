//! The count of visits.

use std::marker::Model;

/// How many visits a question took. Only the engine begins a count; all other code can do no more
/// than count a visit.
#[derive(Drop)]
pub struct Visits {
    number: u64,
}

impl Model for Visits {
    ghost use Rattle.std.specs.Prelude.{ℕ};

    ghost Value = { ℕ };

    ghost view = { λ v. v.number };
}

impl Visits {
    ghost use Rattle.std.specs.Prelude.{◌≡◌, ◌≤◌, ◌+◌, ◌-◌, ◌^◌, min};

    /// No visit yet.
    pub(super) fn none() -> Visits
        ensures { result ≡ 0 }
    {
        Visits { number: 0 }
    }

    /// One visit for each literal.
    pub(super) fn of(literals: usize) -> Visits
        ensures { result ≡ literals }
    {
        Visits {
            number: literals as u64,
        }
    }

    /// One visit more.
    pub fn count(&mut self)
        ensures rising { self.old ≤ self.new }
        ensures count { self.new ≡ min (self.old + 1) (2 ^ 64 - 1) }
    {
        self.number = self.number.saturating_add(1);
    }

    /// One visit more for each literal.
    pub fn add(&mut self, literals: usize)
        ensures rising { self.old ≤ self.new }
        ensures count { self.new ≡ min (self.old + literals) (2 ^ 64 - 1) }
    {
        self.number = self.number.saturating_add(literals as u64);
    }

    /// How many they are.
    pub fn number(&self) -> u64
        ensures { result ≡ self.now }
    {
        self.number
    }
}
