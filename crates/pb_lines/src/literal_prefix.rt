//! Literals at the start of a text.

ghost use Rattle.std.specs.Prelude.{◌≡◌, ◌≤◌, ◌<◌, IfSome, length, take};
ghost use Rattle.pb_sums.specs.meaning.Sums.{IsName, literal_bytes};

use pb_sums::{Name, is_name};
use pb_text::bytes::is_name_byte;
use std::alloc::Global;

/// A name at the start of a text, and its length, if memory suffices.
fn name_at(alloc: Global, text: &[u8]) -> Option<(usize, Name)>
    ensures bound { IfSome result (λ r. r.0 ≤ length text.now) }
    ensures name { IfSome result (λ r. r.1 ≡ take r.0 text.now) }
    ensures word { IfSome result (λ r. IsName (take r.0 text.now)) }
{
    let mut length: usize = 0;
    while length < text.len() && is_name_byte(text[length]) {
        length += 1;
    }
    let Ok(word) = str::from_utf8(&text[..length]) else {
        return None;
    };
    if !is_name(word) {
        return None;
    }
    let Ok(name) = Name::from_text(alloc, word) else {
        return None;
    };
    Some((length, name))
}

/// The length of a literal at the start of a text, and whether it is negated. Its name is stored in
/// `name`.
#[inline(always)]
pub fn literal_at(alloc: Global, text: &[u8], name: &mut Name) -> Option<(usize, bool)>
    requires { 0 < length text.now }
    ensures bound { IfSome result (λ r. r.0 ≤ length text.now) }
    ensures word { IfSome result (λ r. IsName name.new) }
    ensures bytes { IfSome result (λ r. take r.0 text.now ≡ literal_bytes r.1 name.new) }
{
    if text[0] == b'~' {
        let Some((length, taken)) = name_at(alloc, &text[1..]) else {
            return None;
        };
        *name = taken;
        return Some((1 + length, true));
    }
    let Some((length, taken)) = name_at(alloc, text) else {
        return None;
    };
    *name = taken;
    Some((length, false))
}
