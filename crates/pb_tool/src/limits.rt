//! The limits that a user asks for.

ghost use Rattle.std.specs.Prelude.{◌≡◌, ◌-◌, ◌^◌, ◌≤◌, min};
ghost use Rattle.pb_text.specs.meaning.Limits.{bits_of, top_of};

use pb_text::Limits;

/// The limits with `bits` bits, 31 to 127, and the greatest top: the lesser of `2^63 - 1` and
/// `2^bits - 1`.
pub fn limits_of(bits: u32) -> Limits
    requires least { 31 ≤ bits }
    requires most { bits ≤ 127 }
    ensures bits { bits_of result ≡ bits }
    ensures top { top_of result ≡ min (2 ^ 63) (2 ^ bits) - 1 }
{
    let top = if bits < 63 {
        (1u64 << bits) - 1
    } else {
        (1 << 63) - 1
    };
    match Limits::new(bits, top) {
        Some(limits) => limits,
        None => unreachable!(),
    }
}
