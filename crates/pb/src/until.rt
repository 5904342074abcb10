//! A reader that is not called again after its end, and a writer that is not called again after an
//! error.

use std::io::{self, Read, Write};

/// A reader that is not called again after its end. At a terminal, one end of input is enough.
#[derive(Drop)]
pub(crate) struct UntilEnd<R> {
    inner: R,
    ended: bool,
}

impl<R> UntilEnd<R> {
    pub(crate) fn new(inner: R) -> Self {
        UntilEnd {
            inner,
            ended: false,
        }
    }
}

impl<R: Read> Read for UntilEnd<R> {
    fn read(&mut self, buf: &mut [u8]) -> io::Result<usize> {
        if self.ended {
            return Ok(0);
        }
        let count = self.inner.read(buf)?;
        self.ended = count == 0;
        Ok(count)
    }
}

/// A writer that is not called again after its first error, whatever its kind, or once it has taken
/// no byte. Every later call fails at once, so a buffer over it writes nothing more, even when it
/// is dropped.
#[derive(Drop)]
pub(crate) struct UntilFault<W> {
    inner: W,
    failed: bool,
}

impl<W> UntilFault<W> {
    pub(crate) fn new(inner: W) -> Self {
        UntilFault {
            inner,
            failed: false,
        }
    }
}

impl<W: Write> Write for UntilFault<W> {
    fn write(&mut self, buf: &[u8]) -> io::Result<usize> {
        if !self.failed {
            match self.inner.write(buf) {
                Ok(0) if !buf.is_empty() => self.failed = true,
                Ok(count) => return Ok(count),
                Err(_) => self.failed = true,
            }
        }
        Err(fault())
    }

    fn flush(&mut self) -> io::Result<()> {
        if !self.failed {
            match self.inner.flush() {
                Ok(()) => return Ok(()),
                Err(_) => self.failed = true,
            }
        }
        Err(fault())
    }
}

/// The error of a writer that has failed. Its kind is never `Interrupted`, after which a buffer
/// would try again.
fn fault() -> io::Error {
    io::Error::from(io::ErrorKind::Other)
}
