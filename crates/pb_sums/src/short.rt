//! Texts of a few bytes.

ghost use Rattle.std.specs.Prelude.{◌≡◌, ◌<◌, ◌≤◌, ◌∷◌, ◌++◌, [], length, take, if◌then◌else◌};
ghost use Rattle.std.specs.Str.{IsUtf8};

use std::alloc::Global;
use std::marker::Model;

/// The maximum length of a text that is stored inline, in bytes.
pub const SHORT: usize = 22;

/// A text of at most `SHORT` bytes, stored inline. Contracts see it as the list of its bytes.
#[derive(Drop)]
pub struct ShortText {
    alloc: Global,
    len: u8,
    bytes: [u8; SHORT],
}

impl Model for ShortText {
    ghost use Rattle.std.specs.Prelude.{List, ℕ, ◌≤◌, take};
    ghost use Rattle.std.specs.Str.{IsUtf8};

    ghost Value = { List ℕ };

    ghost view = { λ t. take t.len t.bytes };

    ghost invariant = { λ t. (t.len ≤ 22) × IsUtf8 (take t.len t.bytes) };
}

impl ShortText {
    /// The empty text.
    #[inline(always)]
    #[tactic(auto, using(crate::proofs::lemmas::values::Shorts::none_utf8))]
    pub fn new(alloc: Global) -> ShortText
        ensures { result ≡ [] }
    {
        ShortText {
            alloc,
            len: 0,
            bytes: [0; SHORT],
        }
    }

    /// The text of the first `len` bytes of a block.
    #[inline(always)]
    pub fn from_block(alloc: Global, block: &[u8; SHORT], len: usize) -> ShortText
        requires within { len ≤ 22 }
        requires text { IsUtf8 (take len block.now) }
        ensures { result ≡ take len block.now }
    {
        ShortText {
            alloc,
            len: len as u8,
            bytes: *block,
        }
    }

    /// The text of the first `len` bytes of another.
    #[inline(always)]
    pub fn from_prefix(alloc: Global, text: &[u8], len: usize) -> ShortText
        requires short { len ≤ 22 }
        requires within { len ≤ length text.now }
        requires text { IsUtf8 (take len text.now) }
        ensures { result ≡ take len text.now }
    {
        if let Some(block) = text.first_chunk::<SHORT>() {
            return ShortText::from_block(alloc, block, len);
        }
        // These bytes are UTF-8, as required.
        ShortText::from_text(alloc, unsafe { str::from_utf8_unchecked(&text[..len]) })
    }

    /// The text of a `str` of at most `SHORT` bytes.
    pub fn from_text(alloc: Global, text: &str) -> ShortText
        requires { length text.now ≤ 22 }
        ensures { result ≡ text.now }
    {
        let mut bytes = [0; SHORT];
        bytes[..text.len()].copy_from_slice(text.as_bytes());
        ShortText {
            alloc,
            len: text.len() as u8,
            bytes,
        }
    }

    /// A copy of the text.
    #[inline(always)]
    pub fn again(&self) -> ShortText
        ensures { result ≡ self.now }
    {
        ShortText {
            alloc: self.alloc,
            len: self.len,
            bytes: self.bytes,
        }
    }

    /// The allocator that was given.
    #[inline(always)]
    pub fn allocator(&self) -> Global {
        self.alloc
    }

    /// The bytes.
    #[inline(always)]
    pub fn as_bytes(&self) -> &[u8]
        ensures { result.now ≡ self.now }
    {
        &self.bytes[..self.len as usize]
    }

    /// The text.
    #[inline(always)]
    pub fn as_str(&self) -> &str
        ensures { result.now ≡ self.now }
    {
        // Its bytes are UTF-8, by its invariant.
        unsafe { str::from_utf8_unchecked(&self.bytes[..self.len as usize]) }
    }

    /// Appends an ASCII byte if there is room for it, and returns whether there was.
    #[inline(always)]
    #[tactic(auto, using(crate::proofs::lemmas::values::Shorts::longer_utf8))]
    pub fn push(&mut self, byte: u8) -> bool
        requires { byte < 128 }
        ensures { self.new ≡ (if result then self.old ++ byte ∷ [] else self.old) }
    {
        let len = self.len as usize;
        if len >= SHORT {
            return false;
        }
        self.bytes[len] = byte;
        self.len += 1;
        true
    }
}
