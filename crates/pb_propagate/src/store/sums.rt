//! The sums of a form in the occurrence lists.

ghost use Rattle.std.specs.Prelude.{◌≡◌};

/// Its degree, the sum of its coefficients, and the bound: with an open sum of at least this size
/// it propagates nothing and is not falsified.
#[derive(Clone, Copy)]
pub struct Sums {
    pub degree: u128,
    pub total: u128,
    pub bound: u128,
}

impl Sums {
    /// Those of a slot that has nothing in the occurrence lists.
    pub fn none() -> Sums
        ensures { (result.degree ≡ 0) × (result.total ≡ 0) × (result.bound ≡ 0) }
    {
        Sums {
            degree: 0,
            total: 0,
            bound: 0,
        }
    }
}
