//! Where bytes go.

ghost use Rattle.std.specs.Prelude.{◌≡◌, ◌<◌, ℕ, List, Option, length};
ghost use Rattle.pb_text.specs.meaning.Writing.{Takes, Writes};

use crate::source::Failed;

/// A sink of bytes.
pub trait Sink {
    /// The bytes that it holds, if it reports them.
    ghost contents: { Self → Option (List ℕ) };

    /// How many times it has failed.
    ghost faults: { Self → ℕ };

    /// Takes a prefix of a piece, at least one byte, and returns its length. If it fails, it takes
    /// none.
    fn take(&mut self, piece: &[u8]) -> Result<usize, Failed>
        requires { 0 < length piece.now }
        ensures { Takes contents faults self.old piece.now result self.new };

    /// How many times it has failed. The count saturates at `2^64 - 1`.
    fn failures(&self) -> u64
        ensures { result ≡ faults self.now };
}

/// Writes all of a text. After a fault, the bytes written are a prefix of it.
#[inline]
pub fn write_bytes<S: Sink>(text: &[u8], out: &mut S) -> Result<(), Failed>
    ensures { Writes S.contents S.faults out.old text.now result out.new }
{
    let mut rest = text;
    while !rest.is_empty() {
        let taken = out.take(rest)?;
        rest = &rest[taken..];
    }
    Ok(())
}
