//! Numbers that are read digit by digit.

ghost use Rattle.std.specs.Prelude.{◌≡◌, ◌+◌, ◌*◌, ◌^◌, ◌<◌, ◌≤◌, MatchOption};
ghost use Rattle.pb_text.specs.meaning.Numbers.{signed};

/// Numbers below this have room for one more digit, so they need no division.
const SMALL: u128 = 1 << 60;

/// The number with one more digit, or `None` if that is larger than `limit`.
#[inline(always)]
pub fn next_digit(limit: u128, number: u128, digit: u8) -> Option<u128>
    requires { digit < 10 }
    ensures { MatchOption result (limit < 10 * number + digit) (λ next. (next ≤ limit) ×
        (next ≡ 10 * number + digit)) }
{
    let digit = digit as u128;
    if number < SMALL {
        let next = 10 * number + digit;
        if next > limit {
            return None;
        }
        return Some(next);
    }
    if digit > limit || number > (limit - digit) / 10 {
        return None;
    }
    Some(10 * number + digit)
}

/// The same for 64-bit numbers.
#[inline(always)]
pub fn next_digit_u64(limit: u64, number: u64, digit: u8) -> Option<u64>
    requires { digit < 10 }
    ensures { MatchOption result (limit < 10 * number + digit) (λ next. (next ≤ limit) ×
        (next ≡ 10 * number + digit)) }
{
    let next = 10 * number as u128 + digit as u128;
    if next > limit as u128 {
        return None;
    }
    Some(next as u64)
}

/// The number of this magnitude, with a minus sign if `negative`.
#[inline(always)]
pub fn signed(negative: bool, magnitude: u128) -> i128
    requires { magnitude < 2 ^ 127 }
    ensures { result ≡ signed negative magnitude }
{
    let value = magnitude as i128;
    if negative { -value } else { value }
}

/// The same for 64-bit numbers.
#[inline(always)]
pub fn signed_i64(negative: bool, magnitude: u64) -> i64
    requires { magnitude < 2 ^ 63 }
    ensures { result ≡ signed negative magnitude }
{
    let value = magnitude as i64;
    if negative { -value } else { value }
}
