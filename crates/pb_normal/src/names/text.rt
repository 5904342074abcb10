//! Names in one list of bytes.

ghost use Rattle.std.specs.Prelude.{◌≡◌, ◌<◌, ◌≤◌, ◌-◌, ℕ, List, Some, All, take, drop, length, slice_get};
ghost use Rattle.std.specs.Str.{IsUtf8};
ghost use Rattle.pb_normal.specs.engine.NameTable.{AreEnds, ends_of, names_in};

use crate::names::entry::NameEntry;

// Where the name with a number begins and ends.
#[inline(always)]
#[tactic(auto, using(crate::proofs::lemmas::names::Tables::span_text))]
fn span_of(entries: &[NameEntry], number: usize) -> (usize, usize)
    requires { number < length entries.now }
    ensures within { (count : ℕ) → AreEnds 0 (ends_of entries.now) count →
        (result.0 ≤ result.1) × (result.1 ≤ count) }
    ensures text { (bytes : List ℕ) → slice_get (names_in bytes entries.now) number ≡
        Some (take (result.1 - result.0) (drop result.0 bytes)) }
{
    let end = entries[number].end;
    if number == 0 {
        return (0, end);
    }
    (entries[number - 1].end, end)
}

// The bytes of the name with a number.
#[inline(always)]
pub(crate) fn text_at<'a>(bytes: &'a [u8], entries: &[NameEntry], number: usize) -> &'a [u8]
    requires ends { AreEnds 0 (ends_of entries.now) (length bytes.now) }
    requires within { number < length entries.now }
    ensures { slice_get (names_in bytes.now entries.now) number ≡ Some result.now }
{
    let (start, end) = span_of(entries, number);
    &bytes[start..end]
}

// The name with a number.
pub(crate) fn name_at<'a>(bytes: &'a [u8], entries: &[NameEntry], number: usize) -> &'a str
    requires ends { AreEnds 0 (ends_of entries.now) (length bytes.now) }
    requires readable { All IsUtf8 (names_in bytes.now entries.now) }
    requires within { number < length entries.now }
    ensures { slice_get (names_in bytes.now entries.now) number ≡ Some result.now }
{
    match std::str::from_utf8(text_at(bytes, entries, number)) {
        Ok(name) => name,
        Err(_) => unreachable!(),
    }
}
