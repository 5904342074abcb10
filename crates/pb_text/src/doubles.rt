//! Readers and writers in memory that fail, or that give or take few bytes per call: to test the
//! state after a fault.

ghost use Rattle.std.specs.Prelude.{◌≡◌, None};

use std::io::{self, BufRead, ErrorKind, Read, Write};

/// A reader of bytes in memory. It shows at most `most` bytes per call. It fails at call number
/// `fails_at`, counted from 1 over all calls that read.
#[derive(Drop)]
pub struct FaultyReader<'a> {
    pub left: &'a [u8],
    pub most: usize,
    pub calls: u64,
    pub fails_at: Option<u64>,
}

impl<'a> FaultyReader<'a> {
    /// A reader that shows all bytes and does not fail.
    pub fn new(bytes: &'a [u8]) -> Self
        ensures left { result.left.now ≡ bytes.now }
        ensures most { result.most ≡ usize.MAX }
        ensures calls { result.calls ≡ 0 }
        ensures never { result.fails_at ≡ None }
    {
        FaultyReader {
            left: bytes,
            most: usize::MAX,
            calls: 0,
            fails_at: None,
        }
    }

    /// Counts a call, and returns whether it must fail.
    fn fails(&mut self) -> bool {
        self.calls = self.calls.saturating_add(1);
        self.fails_at == Some(self.calls)
    }
}

impl Read for FaultyReader<'_> {
    fn read(&mut self, buf: &mut [u8]) -> io::Result<usize> {
        if self.fails() {
            return Err(io::Error::from(ErrorKind::Interrupted));
        }
        let count = buf.len().min(self.left.len()).min(self.most);
        buf[..count].copy_from_slice(&self.left[..count]);
        self.left = &self.left[count..];
        Ok(count)
    }
}

impl BufRead for FaultyReader<'_> {
    fn fill_buf(&mut self) -> io::Result<&[u8]> {
        if self.fails() {
            return Err(io::Error::from(ErrorKind::Interrupted));
        }
        let shown = self.left.len().min(self.most);
        Ok(&self.left[..shown])
    }

    fn consume(&mut self, amount: usize) {
        let taken = amount.min(self.left.len());
        self.left = &self.left[taken..];
    }
}

/// A writer to memory. It takes at most `most` bytes per call. It fails at call number `fails_at`,
/// counted from 1.
#[derive(Drop)]
pub struct FaultyWriter {
    pub taken: Vec<u8>,
    pub most: usize,
    pub calls: u64,
    pub fails_at: Option<u64>,
}

impl FaultyWriter {
    /// A writer that appends to a vector. It takes all bytes and does not fail.
    pub fn new(taken: Vec<u8>) -> Self
        ensures taken { result.taken.items ≡ taken.items }
        ensures most { result.most ≡ usize.MAX }
        ensures calls { result.calls ≡ 0 }
        ensures never { result.fails_at ≡ None }
    {
        FaultyWriter {
            taken,
            most: usize::MAX,
            calls: 0,
            fails_at: None,
        }
    }
}

impl Write for FaultyWriter {
    fn write(&mut self, buf: &[u8]) -> io::Result<usize> {
        self.calls = self.calls.saturating_add(1);
        if self.fails_at == Some(self.calls) {
            return Err(io::Error::from(ErrorKind::Interrupted));
        }
        let count = buf.len().min(self.most);
        self.taken.extend_from_slice(&buf[..count])?;
        Ok(count)
    }

    fn flush(&mut self) -> io::Result<()> {
        Ok(())
    }
}
