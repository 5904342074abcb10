//! Names and signs at the start of a text.

ghost use Rattle.std.specs.Prelude.{◌<◌, ◌≤◌, ◌≡◌, IsTrue, IfSome, None, true, false, take, length, get_or};
ghost use Rattle.pb_text.specs.meaning.Classes.{is_name_byte};
ghost use Rattle.pb_text.specs.meaning.Languages.{Each};
ghost use Rattle.pb_sums.specs.contract.Canonical.{relation_bytes};
ghost use Rattle.pb_sums.specs.engine.Prefix.{HasSign, LacksRelation};
ghost use Rattle.pb_sums.specs.meaning.Sums.{allows};

use crate::linear::Relation;
use crate::sum_kind::Part;
use crate::transition::allows;
use pb_text::bytes::is_name_byte;

/// The maximum number of bytes that are read without a test for the end of the text.
const WINDOW: usize = 12;

/// The number of name bytes at the start of the text.
#[inline(always)]
pub fn name_prefix(text: &[u8]) -> usize
    ensures bound { result ≤ length text.now }
    ensures name { Each (λ b. IsTrue (is_name_byte b)) (take result text.now) }
    // It stops only where the name ends.
    ensures stops { result < length text.now → is_name_byte (get_or text.now result 0) ≡ false }
{
    if let Some(window) = text.first_chunk::<WINDOW>() {
        let count = count_name_bytes(window);
        if count < WINDOW {
            return count;
        }
    }
    long_name_prefix(text)
}

/// The same for a text that is short, or that begins with a long name.
#[cold]
fn long_name_prefix(text: &[u8]) -> usize
    ensures bound { result ≤ length text.now }
    ensures name { Each (λ b. IsTrue (is_name_byte b)) (take result text.now) }
    ensures stops { result < length text.now → is_name_byte (get_or text.now result 0) ≡ false }
{
    count_name_bytes(text)
}

/// The same, with a test for the end of the text before each byte.
#[inline(always)]
fn count_name_bytes(text: &[u8]) -> usize
    ensures bound { result ≤ length text.now }
    ensures name { Each (λ b. IsTrue (is_name_byte b)) (take result text.now) }
    ensures stops { result < length text.now → is_name_byte (get_or text.now result 0) ≡ false }
{
    for (i, byte) in text.iter().enumerate() {
        if !is_name_byte(*byte) {
            return i;
        }
    }
    text.len()
}

/// The length of the sign at the start of the text, or 0 if it was already read, and whether it is
/// a minus.
#[inline(always)]
pub fn sign_prefix(read: Option<bool>, text: &[u8]) -> (usize, bool)
    ensures bound { result.0 ≤ length text.now }
    ensures sign { HasSign read text.now result.0 result.1 }
{
    match read {
        Some(negative) => (0, negative),
        None => leading_sign(text),
    }
}

/// The length of the sign at the start of the text, and whether it is a minus.
#[inline(always)]
fn leading_sign(text: &[u8]) -> (usize, bool)
    ensures bound { result.0 ≤ length text.now }
    ensures sign { HasSign None text.now result.0 result.1 }
{
    if text.is_empty() {
        return (0, false);
    }
    match text[0] {
        b'+' => (1, false),
        b'-' => (1, true),
        _ => (0, false),
    }
}

/// The relation at the start of the text, if the part allows it, and its length.
#[inline(always)]
pub fn relation_prefix(part: Part, text: &[u8]) -> Option<(usize, Relation)>
    ensures bound { IfSome result (λ r. r.0 ≤ length text.now) }
    ensures allowed { IfSome result (λ r. allows part r.1 ≡ true) }
    ensures relation { IfSome result (λ r. take r.0 text.now ≡ relation_bytes r.1) }
    ensures none { result ≡ None → LacksRelation part text.now }
{
    if allows(part, Relation::AtLeast) && text.starts_with(b">=") {
        return Some((2, Relation::AtLeast));
    }
    if allows(part, Relation::Equal) && text.starts_with(b"=") {
        return Some((1, Relation::Equal));
    }
    None
}
