//! Files of another kind.

use crate::hints::Hint;
use std::str;

const GZIP: &str = "compressed by gzip; unpack it first, as gzip -dc does";

const XZ: &str = "compressed by xz; unpack it first, as xz -dc does";

const ZSTD: &str = "compressed by zstd; unpack it first, as zstd -dc does";

const MARK: &str = "it begins with a byte order mark; store it as plain ASCII text";

const CNF: &str = "a CNF file; pb-cnf2opb (in a clone contrib/cnf2opb) writes it as an instance";

const DRAT: &str =
    "perhaps a DRAT proof; pb-drat2pbp (in a clone contrib/drat2pbp) writes it as a proof that pb reads";

const VERSION: &str =
    "another version of the format; pb-pbp2profile (in a clone contrib/pbp2profile) rewrites versions 1.0 to 1.2";

/// What a file is whose first bytes are these, if it is of another kind.
pub(crate) fn foreign(first: &[u8], is_proof: bool) -> Option<Hint> {
    let advice = if first.starts_with(b"\x1f\x8b") {
        GZIP
    } else if first.starts_with(b"\xfd7zXZ") {
        XZ
    } else if first.starts_with(b"\x28\xb5\x2f\xfd") {
        ZSTD
    } else if first.starts_with(b"\xef\xbb\xbf") {
        MARK
    } else if first.starts_with(b"p cnf") {
        CNF
    } else if is_proof {
        return foreign_proof(first);
    } else if first.starts_with(b"c ") || first.starts_with(b"c\n") {
        CNF
    } else {
        return None;
    };
    Some(Hint::Foreign(advice))
}

/// What the first line of a proof is that begins with these bytes, if it is the header of another
/// version, or a clause.
fn foreign_proof(first: &[u8]) -> Option<Hint> {
    let text = str::from_utf8(first).ok()?;
    let mut words = text.split_whitespace();
    let word = words.next()?;
    if word == "pseudo-Boolean" {
        let version = words.nth(2)?;
        return if version.starts_with("2.0") {
            None
        } else {
            Some(Hint::Foreign(VERSION))
        };
    }
    if word == "d" || word.parse::<i64>().is_ok() {
        return Some(Hint::Foreign(DRAT));
    }
    None
}

/// What standard input is whose first byte this is. The offset is that of the byte.
pub(crate) fn foreign_byte(byte: u8, offset: u64) -> Option<Hint> {
    if offset > 0 {
        return None;
    }
    match byte {
        0x1f => Some(Hint::Foreign(GZIP)),
        0xfd => Some(Hint::Foreign(XZ)),
        0xef => Some(Hint::Foreign(MARK)),
        _ => None,
    }
}
