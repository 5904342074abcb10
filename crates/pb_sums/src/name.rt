//! Names.

ghost use Rattle.std.specs.Prelude.{◌≡◌, ◌<◌, ◌≤◌, ◌∷◌, ◌++◌, [], List, ℕ, true, eqb, if◌then◌else◌, is_ok, IfOk, string_bytes, length, take};
ghost use Rattle.std.specs.Cmp.Lexicographic.{pointwise, nat_list_eq_equiv};
ghost use Rattle.std.specs.Cmp.{partial_equiv_from_equiv};
ghost use Rattle.std.specs.Str.{IsUtf8};

use crate::short::{SHORT, ShortText};
use std::alloc::{AllocError, Global};
use std::fmt;
use std::marker::Model;

/// Where the text of a name is stored.
#[derive(Drop)]
pub enum Kept {
    Short(ShortText),
    Long(String),
}

/// A name, which contracts see as the list of its bytes. A short name does not allocate.
#[derive(Drop)]
pub struct Name {
    kept: Kept,
}

impl Model for Name {
    ghost use Rattle.std.specs.Prelude.{List, ℕ};
    ghost use Rattle.pb_sums.specs.engine.Names.{bytes_of};

    ghost Value = { List ℕ };

    ghost view = { λ n. bytes_of n.kept };
}

impl Name {
    /// The empty name, which does not allocate.
    #[inline(always)]
    pub fn new(alloc: Global) -> Name
        ensures { result ≡ [] }
    {
        Name {
            kept: Kept::Short(ShortText::new(alloc)),
        }
    }

    /// The name with the text of this string, which it stores.
    pub fn from_string(text: String) -> Name
        ensures { result ≡ string_bytes text }
    {
        Name {
            kept: Kept::Long(text),
        }
    }

    /// The name with this text. It may allocate only for more than 22 bytes.
    pub fn from_text(alloc: Global, text: &str) -> Result<Name, AllocError>
        ensures text { IfOk result (λ name. name ≡ text.now) }
        // A short name does not allocate.
        ensures short { length text.now ≤ 22 → is_ok result ≡ true }
    {
        if text.len() <= SHORT {
            return Ok(Name {
                kept: Kept::Short(ShortText::from_text(alloc, text)),
            });
        }
        let text = String::from_str(alloc, text)?;
        Ok(Name {
            kept: Kept::Long(text),
        })
    }

    /// The name of the first `len` bytes of a text.
    #[inline(always)]
    pub(crate) fn from_prefix(alloc: Global, text: &[u8], len: usize) -> Result<Name, AllocError>
        requires within { len ≤ length text.now }
        requires text { IsUtf8 (take len text.now) }
        ensures name { IfOk result (λ name. name ≡ take len text.now) }
        ensures short { len ≤ 22 → is_ok result ≡ true }
    {
        if len <= SHORT {
            return Ok(Name::short_prefix(alloc, text, len));
        }
        // These bytes are UTF-8, as required.
        Name::from_text(alloc, unsafe { str::from_utf8_unchecked(&text[..len]) })
    }

    /// The short name of the first `len` bytes of a text. It does not allocate.
    #[inline(always)]
    pub(crate) fn short_prefix(alloc: Global, text: &[u8], len: usize) -> Name
        requires short { len ≤ 22 }
        requires within { len ≤ length text.now }
        requires text { IsUtf8 (take len text.now) }
        ensures name { result ≡ take len text.now }
    {
        Name {
            kept: Kept::Short(ShortText::from_prefix(alloc, text, len)),
        }
    }

    /// The string of the name.
    pub fn into_string(self) -> Result<String, AllocError>
        ensures { IfOk result (λ text. string_bytes text ≡ self) }
    {
        match self.kept {
            Kept::Short(text) => String::from_str(text.allocator(), text.as_str()),
            Kept::Long(text) => Ok(text),
        }
    }

    /// The bytes of the name.
    #[inline(always)]
    pub fn as_bytes(&self) -> &[u8]
        ensures { result.now ≡ self.now }
    {
        match &self.kept {
            Kept::Short(text) => text.as_bytes(),
            Kept::Long(text) => text.as_bytes(),
        }
    }

    /// The name as text.
    #[inline(always)]
    pub fn as_str(&self) -> &str
        ensures { result.now ≡ self.now }
    {
        match &self.kept {
            Kept::Short(text) => text.as_str(),
            Kept::Long(text) => text.as_str(),
        }
    }

    /// Appends an ASCII byte. If out of memory, the name is unchanged.
    pub fn push(&mut self, byte: u8) -> Result<(), AllocError>
        requires { byte < 128 }
        ensures { self.new ≡ (if is_ok result then self.old ++ byte ∷ [] else self.old) }
    {
        let longer = match &mut self.kept {
            Kept::Long(text) => return text.push(byte as char),
            Kept::Short(text) => {
                if text.push(byte) {
                    return Ok(());
                }
                with_byte(text, byte)?
            }
        };
        self.kept = Kept::Long(longer);
        Ok(())
    }

    /// Appends a text. If out of memory, the name is unchanged.
    pub fn push_str(&mut self, text: &str) -> Result<(), AllocError>
        ensures { self.new ≡ (if is_ok result then self.old ++ text.now else self.old) }
    {
        let longer = match &mut self.kept {
            Kept::Long(prefix) => return prefix.push_str(text),
            Kept::Short(prefix) => with_text(prefix, text)?,
        };
        self.kept = Kept::Long(longer);
        Ok(())
    }
}

/// The string of a text followed by an ASCII byte.
fn with_byte(prefix: &ShortText, byte: u8) -> Result<String, AllocError>
    requires { byte < 128 }
    ensures { IfOk result (λ all. string_bytes all ≡ prefix.now ++ byte ∷ []) }
{
    let mut all = String::from_str(prefix.allocator(), prefix.as_str())?;
    all.push(byte as char)?;
    Ok(all)
}

/// The string of a text followed by another.
fn with_text(prefix: &ShortText, text: &str) -> Result<String, AllocError>
    ensures { IfOk result (λ all. string_bytes all ≡ prefix.now ++ text.now) }
{
    let mut all = String::from_str(prefix.allocator(), prefix.as_str())?;
    all.push_str(text)?;
    Ok(all)
}

impl Clone for Name {
    ghost is_clone = { λ x y. y ≡ x };

    fn clone(&self) -> Result<Name, AllocError> {
        let kept = match &self.kept {
            Kept::Short(text) => Kept::Short(text.again()),
            Kept::Long(text) => Kept::Long(text.clone()?),
        };
        Ok(Name { kept })
    }
}

impl PartialEq for Name {
    ghost eq = { λ x y. pointwise eqb x y };

    ghost laws = { partial_equiv_from_equiv nat_list_eq_equiv };

    fn eq(&self, other: &Self) -> bool {
        self.as_bytes() == other.as_bytes()
    }
}

impl Eq for Name {
    ghost laws = { nat_list_eq_equiv };
}

impl fmt::Debug for Name {
    fn fmt<W: fmt::Write>(&self, f: &mut fmt::Formatter<W>) -> fmt::Result {
        f.debug_struct("Name")
            .field("text", &self.as_str())
            .finish()
    }
}
