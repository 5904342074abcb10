//! The hasher of names.

ghost use Rattle.std.specs.Prelude.{◌≡◌, ◌+◌, ◌-◌, ◌/◌, ◌≤◌, length};
ghost use Rattle.std.specs.Hash.FoldHasher.{folded_multiply as folded};
ghost use Rattle.pb_normal.specs.contract.NameHasher.{ends_of, half_word_at, keyed, mixed, word_at};

use std::hash::{DefaultHasher, Hasher};

/// A keyed hasher that is fast for short names.
///
/// It hides two words of 8 bytes by secret words, multiplies them to 128 bits, and joins the halves
/// by exclusive or. It is not cryptographic.
#[derive(Clone, Copy)]
pub struct NameHasher {
    // First a secret word, and then what was written.
    state: u64,
    // The other secret word.
    key: u64,
}

impl NameHasher {
    // The hasher whose secret words are two hashes of another hasher.
    #[tactic(auto, unfolding(crate::specs::contract::NameHasher::keyed))]
    pub(crate) fn keyed_by(sip: DefaultHasher) -> NameHasher
        ensures { result ≡ keyed sip }
    {
        let state = sip.finish();
        let mut next = sip;
        next.write_u8(1);
        NameHasher {
            state,
            key: next.finish(),
        }
    }
}

impl Hasher for NameHasher {
    ghost use Rattle.pb_normal.specs.contract.NameHasher.{finish, write};

    ghost write = { write };

    ghost finish = { finish };

    #[inline(always)]
    fn finish(&self) -> u64 {
        folded_multiply(self.state, self.key)
    }

    #[inline(always)]
    fn write(&mut self, bytes: &[u8]) {
        let state = after_blocks(bytes, self.state, self.key);
        let (first, last) = ends(bytes);
        let joined = folded_multiply(first ^ state, last ^ self.key);
        self.state = joined.wrapping_add(bytes.len() as u64);
    }
}

// The two halves of the product, joined by exclusive or.
#[inline(always)]
fn folded_multiply(a: u64, b: u64) -> u64
    ensures { result ≡ folded a b }
{
    let product = a as u128 * b as u128;
    (product & 0xFFFF_FFFF_FFFF_FFFF) as u64 ^ (product >> 64) as u64
}

// The four bytes from a position on, the lowest first.
#[inline(always)]
fn half_word(bytes: &[u8], at: usize) -> u64
    requires { at + 4 ≤ length bytes.now }
    ensures { result ≡ half_word_at bytes.now at }
{
    match bytes[at..].first_chunk::<4>() {
        Some(chunk) => u32::from_le_bytes(*chunk) as u64,
        None => 0,
    }
}

// The eight bytes from a position on, the lowest first.
#[inline(always)]
fn word(bytes: &[u8], at: usize) -> u64
    requires { at + 8 ≤ length bytes.now }
    ensures { result ≡ word_at bytes.now at }
{
    match bytes[at..].first_chunk::<8>() {
        Some(chunk) => u64::from_le_bytes(*chunk),
        None => 0,
    }
}

// The state after all blocks of 16 bytes that end before the last byte.
#[inline(always)]
#[tactic(auto, unfolding(crate::specs::contract::NameHasher::mixed))]
fn after_blocks(bytes: &[u8], start: u64, key: u64) -> u64
    ensures { result ≡ mixed bytes.now key start ((length bytes.now - 1) / 16) }
{
    let mut state = start;
    let mut at = 0;
    while bytes.len() - at > 16 {
        state = folded_multiply(word(bytes, at) ^ state, word(bytes, at + 8) ^ key);
        at += 16;
    }
    state
}

// Two words that have the last 16 bytes, or all bytes if there are fewer. They may have some bytes
// twice.
#[inline(always)]
#[tactic(auto, using(crate::proofs::Rulesets::ends), unfolding(crate::specs::contract::NameHasher::ends_of))]
fn ends(bytes: &[u8]) -> (u64, u64)
    ensures { result ≡ ends_of bytes.now }
{
    let len = bytes.len();
    if len >= 8 {
        (word(bytes, len.saturating_sub(16)), word(bytes, len - 8))
    } else if len >= 4 {
        (half_word(bytes, 0), half_word(bytes, len - 4))
    } else if len > 0 {
        let first = bytes[0] as u64 | (bytes[len / 2] as u64) << 8;
        (first, bytes[len - 1] as u64)
    } else {
        (0, 0)
    }
}
