//! The kinds of bytes.

ghost use Rattle.std.specs.Prelude.{◌≡◌};
ghost use Rattle.pb_sums.specs.meaning.Sums.{takes_line_feeds, is_space};
ghost use Rattle.pb_sums.specs.engine.Machine.{symbol, kind_of_plain, kind, letter_at, KindFits};

use crate::phase::Kind;
use crate::sum_kind::Spaces;
use pb_text::bytes::{is_blank, is_digit, is_letter, is_name_byte};

fn takes_line_feeds(spaces: Spaces) -> bool
    ensures { result ≡ takes_line_feeds spaces }
{
    match spaces {
        Spaces::White => true,
        Spaces::Blank => false,
    }
}

fn is_space(spaces: Spaces, byte: u8) -> bool
    ensures { result ≡ is_space spaces byte }
{
    is_blank(byte) || (byte == b'\n' && takes_line_feeds(spaces))
}

#[inline(always)]
fn symbol(byte: u8) -> Kind
    ensures { result ≡ symbol byte }
{
    if byte == b'~' {
        return Kind::Tilde;
    }
    if byte == b'+' {
        return Kind::Plus;
    }
    if byte == b'-' {
        return Kind::Minus;
    }
    if byte == b'>' {
        return Kind::Greater;
    }
    if byte == b'=' {
        return Kind::Equals;
    }
    if byte == b';' {
        return Kind::Semicolon;
    }
    Kind::Other
}

#[inline(always)]
fn plain_kind(spaces: Spaces, byte: u8) -> Kind
    ensures kind { result ≡ kind_of_plain spaces byte }
{
    if is_space(spaces, byte) {
        return Kind::Space;
    }
    if is_letter(byte) {
        return Kind::Start(byte);
    }
    if is_name_byte(byte) {
        return Kind::Inner(byte);
    }
    symbol(byte)
}

/// The kind of a byte. Digits are digits of a number if `numeric`, and otherwise of a name.
#[inline(always)]
pub fn kind(spaces: Spaces, numeric: bool, byte: u8) -> Kind
    ensures kind { result ≡ kind spaces (letter_at numeric byte) }
    ensures fits { KindFits result }
{
    if numeric && is_digit(byte) {
        return Kind::Digit(byte - b'0');
    }
    plain_kind(spaces, byte)
}
