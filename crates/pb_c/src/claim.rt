//! A verdict as numbers.

ghost use Rattle.std.specs.Prelude.{◌≡◌};
ghost use Rattle.pb_c.specs.Claim.{bound_high, bound_low, claim_of, is_finite, plain};

use pb_pieces::split;
use pb_proof::Bound;
use pb_replay::Verdict;

/// What a proof has shown. The bounds are in two words each, and count for `kind` 3 only.
#[repr(C)]
#[derive(Clone, Copy)]
pub struct Claim {
    /// The low word of the lower bound, or 0 if it is infinite.
    pub lower_low: u64,
    /// The high word of the lower bound, or 0.
    pub lower_high: i64,
    /// The low word of the upper bound, or 0 if it is infinite.
    pub upper_low: u64,
    /// The high word of the upper bound, or 0.
    pub upper_high: i64,
    /// 0 if nothing is claimed, 1 for UNSAT, 2 for SAT, 3 for bounds.
    pub kind: u32,
    /// Whether the lower bound is a number.
    pub lower_finite: bool,
    /// Whether the upper bound is a number.
    pub upper_finite: bool,
}

impl Claim {
    /// The claim of a verdict.
    pub(crate) fn of(verdict: Verdict) -> Claim
        ensures { result ≡ claim_of verdict }
    {
        match verdict {
            Verdict::NoClaim => Claim::plain(0),
            Verdict::Unsat => Claim::plain(1),
            Verdict::Sat => Claim::plain(2),
            Verdict::Bounds(lower, upper) => Claim {
                lower_low: low(lower),
                lower_high: high(lower),
                upper_low: low(upper),
                upper_high: high(upper),
                kind: 3,
                lower_finite: is_finite(lower),
                upper_finite: is_finite(upper),
            },
        }
    }

    /// A claim without bounds.
    fn plain(kind: u32) -> Claim
        ensures { result ≡ plain kind }
    {
        Claim {
            lower_low: 0,
            lower_high: 0,
            upper_low: 0,
            upper_high: 0,
            kind,
            lower_finite: false,
            upper_finite: false,
        }
    }
}

/// The low word of a bound.
fn low(bound: Bound) -> u64
    ensures { result ≡ bound_low bound }
{
    match bound {
        Bound::Finite(value) => split(value).0,
        Bound::Infinite => 0,
    }
}

/// The high word of a bound.
fn high(bound: Bound) -> i64
    ensures { result ≡ bound_high bound }
{
    match bound {
        Bound::Finite(value) => split(value).1,
        Bound::Infinite => 0,
    }
}

/// Whether a bound is a number.
fn is_finite(bound: Bound) -> bool
    ensures { result ≡ is_finite bound }
{
    matches!(bound, Bound::Finite(_))
}
