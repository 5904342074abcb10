//! For how many terms to allocate memory.

ghost use Rattle.std.specs.Prelude.{◌≡◌, ◌≢◌, ◌≤◌, ◌+◌, ◌*◌, IfSome, None, false, length};
ghost use Rattle.pb_text.specs.meaning.Languages.{Each};

/// How many bytes are searched at a time.
const CHUNK: usize = 32;

/// How many bytes a term takes in a text, about.
const TERM: usize = 10;

/// How many terms are allowed for in addition.
const SPARE: usize = 4;

/// About how many terms a text has before its first `;`, or `None` if it has no `;`.
#[inline(always)]
pub fn capacity_for(text: &[u8]) -> Option<usize>
    // It is not much more than the text has space for.
    ensures few { IfSome result (λ n. 10 * n ≤ length text.now + 40) }
    ensures none { result ≡ None → Each (λ b. b ≢ 59) text.now }
{
    let mut searched: usize = 0;
    while let Some(chunk) = text[searched..].first_chunk::<CHUNK>() {
        if has_semicolon(chunk) {
            return Some(searched / TERM + SPARE);
        }
        searched += CHUNK;
    }
    if has_semicolon(&text[searched..]) {
        Some(searched / TERM + SPARE)
    } else {
        None
    }
}

/// Whether the text has a `;`. It checks all bytes, which is faster than stopping at the first `;`.
#[inline(always)]
fn has_semicolon(text: &[u8]) -> bool
    ensures { result ≡ false → Each (λ b. b ≢ 59) text.now }
{
    let mut found = false;
    for byte in text {
        if *byte == b';' {
            found = true;
        }
    }
    found
}
