//! A reader and a writer that belong together, as those of a terminal do.

use std::cell::RefCell;
use std::io::{self, Read, Write};

/// A reader that flushes what was written before it waits for more. If the flush fails, it reads
/// nothing: nobody is left to read the output. The writer returns the error again at the end.
#[derive(Drop)]
pub(crate) struct Tied<'a, I, O> {
    input: I,
    out: &'a RefCell<O>,
}

impl<'a, I, O> Tied<'a, I, O> {
    pub(crate) fn new(input: I, out: &'a RefCell<O>) -> Self {
        Tied { input, out }
    }
}

impl<I: Read, O: Write> Read for Tied<'_, I, O> {
    fn read(&mut self, buf: &mut [u8]) -> io::Result<usize> {
        match self.out.try_borrow_mut() {
            Ok(mut out) => out.flush()?,
            Err(_) => return Err(io::Error::from(io::ErrorKind::WouldBlock)),
        }
        self.input.read(buf)
    }
}

/// A writer that is shared with a reader.
#[derive(Drop)]
pub(crate) struct Shared<'a, O> {
    out: &'a RefCell<O>,
}

impl<'a, O> Shared<'a, O> {
    pub(crate) fn new(out: &'a RefCell<O>) -> Self {
        Shared { out }
    }
}

impl<O: Write> Write for Shared<'_, O> {
    fn write(&mut self, buf: &[u8]) -> io::Result<usize> {
        match self.out.try_borrow_mut() {
            Ok(mut out) => out.write(buf),
            Err(_) => Err(io::Error::from(io::ErrorKind::WouldBlock)),
        }
    }

    fn flush(&mut self) -> io::Result<()> {
        match self.out.try_borrow_mut() {
            Ok(mut out) => out.flush(),
            Err(_) => Err(io::Error::from(io::ErrorKind::WouldBlock)),
        }
    }
}
