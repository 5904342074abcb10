//! The largest numbers that are grammatical.

ghost use Rattle.std.specs.Prelude.{◌≡◌, ◌+◌, ◌-◌, ◌^◌, ◌<◌, ◌≤◌, ◌↔◌, IsSome, IfSome};

/// The limits on numbers: coefficients, degrees, bounds and factors have a magnitude of at most
/// `2^bits - 1`; counts and the magnitudes of ids are at most `top`.
#[derive(Clone, Copy, Debug, PartialEq, Eq)]
pub struct Limits {
    bits: u32,
    top: u64,
    ghost least_bits: { 31 ≤ bits },
    ghost most_bits: { bits ≤ 127 },
    ghost least_top: { 1 ≤ top },
    ghost most_top: { top < 2 ^ 63 },
    ghost top_in_bits: { top < 2 ^ bits },
}

impl Limits {
    ghost use Rattle.pb_text.specs.meaning.Limits.{bits_of, top_of, largest, AreLimits};

    /// Limits with `bits` from 31 to 127, and `top` from 1 to the smaller of `2^63 - 1` and
    /// `2^bits - 1`. Otherwise `None`.
    pub fn new(bits: u32, top: u64) -> Option<Limits>
        ensures valid { IsSome result ↔ AreLimits bits top }
        ensures bits { IfSome result (λ limits. bits_of limits ≡ bits) }
        ensures top { IfSome result (λ limits. top_of limits ≡ top) }
    {
        if bits < 31 || bits > 127 || top < 1 || top >= 1 << 63 {
            return None;
        }
        if top as u128 >= 1 << bits {
            return None;
        }
        Some(Limits { bits, top })
    }

    /// The widest limits: 127 bits, and a top of `2^63 - 1`.
    pub fn full() -> Limits
        ensures bits { bits_of result ≡ 127 }
        ensures top { top_of result ≡ 2 ^ 63 - 1 }
    {
        Limits {
            bits: 127,
            top: (1 << 63) - 1,
        }
    }

    /// The number of bits of a magnitude.
    pub fn bits(self) -> u32
        ensures { result ≡ bits_of self }
    {
        self.bits
    }

    /// The largest count, and the largest magnitude of an id.
    pub fn top(self) -> u64
        ensures value { result ≡ top_of self }
        ensures room { result < 2 ^ 63 }
        ensures some { 1 ≤ result }
    {
        self.top
    }

    /// The largest magnitude: `2^bits - 1`.
    #[tactic(auto, using(crate::proofs::lemmas::numbers::Numbers::largest_below, crate::proofs::lemmas::numbers::Numbers::largest_above))]
    pub fn largest(self) -> u128
        ensures value { result ≡ largest self }
        ensures room { result < 2 ^ 127 }
        ensures some { 2 ^ 31 ≤ result + 1 }
    {
        (1 << self.bits) - 1
    }
}
