//! Bytes of a line at the start of a text.

ghost use Rattle.pb_text.specs.meaning.Blank.{IsInLine};
ghost use Rattle.std.specs.Prelude.{◌≡◌, ◌<◌, ◌≤◌, get_or, length, take};

use memchr::memchr;

/// How many bytes come before the first line feed, or in the whole text if it has none.
pub fn line_prefix(text: &[u8]) -> usize
    ensures bound { result ≤ length text.now }
    ensures line { IsInLine (take result text.now) }
    // It stops only at a line feed or at the end of the text.
    ensures stops { result < length text.now → get_or text.now result 0 ≡ 10 }
{
    match memchr(b'\n', text) {
        Some(end) => end,
        None => text.len(),
    }
}
