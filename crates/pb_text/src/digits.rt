//! Digits at the start of a text.

ghost use Rattle.std.specs.Prelude.{◌<◌, ◌≤◌, ◌≡◌, ◌^◌, IsTrue, false, take, length, get_or};
ghost use Rattle.pb_text.specs.meaning.Classes.{is_digit};
ghost use Rattle.pb_text.specs.contract.Digits.{value_from};
ghost use Rattle.pb_text.specs.meaning.Languages.{Each};

use crate::bytes::is_digit;

/// Numbers below this have room for one more digit.
const SMALL: u64 = 1 << 60;

/// The maximum number of bytes that are read without a test for the end of the text.
const WINDOW: usize = 8;

/// The number of digits at the start of the text, and their value. It stops once the value is no
/// longer below `SMALL`.
#[inline(always)]
pub fn number_prefix(text: &[u8]) -> (usize, u64)
    ensures bound { result.0 ≤ length text.now }
    ensures digits { Each (λ b. IsTrue (is_digit b)) (take result.0 text.now) }
    ensures value { result.1 ≡ value_from 0 (take result.0 text.now) }
    // It stops only if the digits end, or if the value is no longer below `SMALL`.
    ensures stops { result.0 < length text.now → result.1 < 2 ^ 60 →
        is_digit (get_or text.now result.0 0) ≡ false }
{
    if let Some(window) = text.first_chunk::<WINDOW>() {
        let (count, value) = count_digits(window);
        if count < WINDOW {
            return (count, value);
        }
    }
    long_number_prefix(text)
}

/// The same for a text that is short, or that begins with many digits.
#[cold]
fn long_number_prefix(text: &[u8]) -> (usize, u64)
    ensures bound { result.0 ≤ length text.now }
    ensures digits { Each (λ b. IsTrue (is_digit b)) (take result.0 text.now) }
    ensures value { result.1 ≡ value_from 0 (take result.0 text.now) }
    ensures stops { result.0 < length text.now → result.1 < 2 ^ 60 →
        is_digit (get_or text.now result.0 0) ≡ false }
{
    count_digits(text)
}

/// The same, with a test for the end of the text before each byte.
#[inline(always)]
#[tactic(auto, using(crate::proofs::lemmas::numbers::DigitValues::value_on, crate::proofs::lemmas::text::Languages::each_on))]
fn count_digits(text: &[u8]) -> (usize, u64)
    ensures bound { result.0 ≤ length text.now }
    ensures digits { Each (λ b. IsTrue (is_digit b)) (take result.0 text.now) }
    ensures value { result.1 ≡ value_from 0 (take result.0 text.now) }
    ensures stops { result.0 < length text.now → result.1 < 2 ^ 60 →
        is_digit (get_or text.now result.0 0) ≡ false }
{
    let mut value: u64 = 0;
    for (i, byte) in text.iter().enumerate() {
        if !is_digit(*byte) || value >= SMALL {
            return (i, value);
        }
        value = 10 * value + (*byte - b'0') as u64;
    }
    (text.len(), value)
}
