//! Numbers of 128 bits in two words.

ghost use Rattle.std.specs.Prelude.{◌≡◌};
ghost use Rattle.pb_pieces.specs.Words.{high_word, low_word};

/// One more than the largest word.
const WORD: u128 = 1 << 64;

/// A number as the two words of its two's complement: it is `2^64` times the second word plus the
/// first.
pub fn split(value: i128) -> (u64, i64)
    ensures low { result.0 ≡ low_word value }
    ensures high { result.1 ≡ high_word value }
{
    let magnitude = value.unsigned_abs();
    if value < 0 {
        let below = magnitude - 1;
        (u64::MAX - (below % WORD) as u64, -1 - (below / WORD) as i64)
    } else {
        ((magnitude % WORD) as u64, (magnitude / WORD) as i64)
    }
}

/// The number of two words, as `split` gives them.
pub(crate) fn join(low: u64, high: i64) -> i128
    ensures low { low_word result ≡ low }
    ensures high { high_word result ≡ high }
{
    (high as i128) * (1 << 64) + low as i128
}
