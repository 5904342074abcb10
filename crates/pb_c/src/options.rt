//! What a caller passes in addition to its texts.

ghost use Rattle.std.specs.Prelude.{◌≡◌, ◌<◌, ◌≤◌, ◌⊎◌, ℕ, Option, IfSome, IsSome, None, OnSome};
ghost use Rattle.pb_c.specs.Options.{AreWrong, IsAsked, bits_asked, longest_of};

use pb_normal::HashKeys;
use pb_text::Limits;
use pb_tool::limits_of;
use std::hash::RandomState;
use std::io;
use std::random::RandomSource;

/// The exit status for options that are not allowed, the same as for a usage error.
pub(crate) const WRONG_WORDS: u8 = 2;

/// The line for options that are not allowed.
pub(crate) const BAD_OPTIONS: &[u8] = b"options: bits is not 31 to 127\n";

/// The options of a call.
#[repr(C)]
pub struct Options {
    /// The most bytes of a statement, or 0 for no limit.
    pub longest: u64,
    /// The first of the two words that key the hashes of names. No result depends on them.
    pub key0: u64,
    /// The second of these words.
    pub key1: u64,
    /// The bits of a coefficient's magnitude, 31 to 127, or 0 for 127.
    pub bits: u32,
}

/// Options that are allowed, in the form that the tool takes.
#[derive(Clone, Copy)]
pub(crate) struct Asked {
    pub(crate) longest: Option<u64>,
    pub(crate) limits: Limits,
    pub(crate) keys: HashKeys,
}

impl Options {
    /// The options in that form, or `None` if they are not allowed.
    pub(crate) fn asked(&self) -> Option<Asked>
        ensures asked { IfSome result (λ asked. IsAsked self.now asked.longest asked.limits) }
        ensures wrong { result ≡ None → AreWrong self.now }
    {
        let bits = bits(self.bits);
        if bits < 31 || bits > 127 {
            return None;
        }
        Some(Asked {
            longest: longest(self.longest),
            limits: limits_of(bits),
            keys: keys(self.key0, self.key1),
        })
    }
}

/// The bits of a magnitude, where 0 stands for 127.
fn bits(bits: u32) -> u32
    ensures { result ≡ bits_asked bits }
{
    if bits == 0 { 127 } else { bits }
}

/// The limit on statements, if there is one.
fn longest(bytes: u64) -> Option<u64>
    ensures { result ≡ longest_of bytes }
{
    if bytes == 0 { None } else { Some(bytes) }
}

/// Two words in place of random ones.
#[derive(Drop)]
struct Words {
    first: u64,
    second: u64,
}

impl RandomSource for Words {
    fn fill_bytes(&self, buf: &mut [u8]) -> io::Result<()> {
        let words = (self.second as u128) << 64 | self.first as u128;
        for (to, from) in buf.iter_mut().zip(words.to_le_bytes()) {
            *to = from;
        }
        Ok(())
    }
}

/// The keys that two words make.
fn keys(first: u64, second: u64) -> HashKeys {
    match RandomState::new(&Words { first, second }) {
        Ok(state) => HashKeys::Random(state),
        Err(_) => HashKeys::Fixed,
    }
}
