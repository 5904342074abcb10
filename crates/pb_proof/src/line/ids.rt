//! Ids among the words of a line.

ghost use Rattle.std.specs.Prelude.{◌≡◌, ◌^◌};
ghost use Rattle.pb_text.specs.meaning.Limits.{top_of};
ghost use Rattle.pb_proof.specs.engine.line.Ids.{is_minus, IsBelow, id_of, id_most};

use pb_lines::{Sign, Word};
use pb_text::Limits;
use pb_text::decimal::signed_i64;

/// Whether a number is negative.
pub(crate) fn is_minus(sign: Sign) -> bool
    ensures { result ≡ is_minus sign }
{
    matches!(sign, Sign::Minus)
}

/// The largest magnitude of an id with this sign.
pub(crate) fn largest_id(limits: Limits, sign: Sign) -> Option<u128>
    ensures { result ≡ id_most (top_of limits) sign }
{
    match sign {
        Sign::Plus => None,
        _ => Some(limits.top() as u128),
    }
}

/// The id that a word is.
pub(crate) fn id_of(word: Word) -> Option<i64>
    requires { IsBelow (2 ^ 63) word }
    ensures { result ≡ id_of word }
{
    match word {
        Word::Number(sign, n) if n > 0 => Some(signed_i64(is_minus(sign), n as u64)),
        _ => None,
    }
}
