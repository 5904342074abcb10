//! A writer that shows control bytes on a terminal.

use std::io::{self, Write};

/// The digits of a byte.
const DIGITS: &[u8; 16] = b"0123456789abcdef";

/// A writer that writes a byte as `\xNN` if it goes to a terminal and the byte is neither printable
/// ASCII nor a tab nor a line feed. Comments of a file can have control bytes, which a terminal
/// obeys. Elsewhere all bytes stay as they are.
#[derive(Drop)]
pub(crate) struct Visible<W> {
    inner: W,
    on_terminal: bool,
}

impl<W> Visible<W> {
    pub(crate) fn new(inner: W, on_terminal: bool) -> Self {
        Visible { inner, on_terminal }
    }
}

impl<W: Write> Write for Visible<W> {
    fn write(&mut self, buf: &[u8]) -> io::Result<usize> {
        if !self.on_terminal {
            return self.inner.write(buf);
        }
        let count = buf.iter().take_while(|byte| is_plain(**byte)).count();
        match buf.get(count) {
            Some(byte) if count == 0 => {
                self.inner.write_all(&shown(*byte))?;
                Ok(1)
            }
            _ => self.inner.write(buf.get(..count).unwrap_or(&[])),
        }
    }

    fn flush(&mut self) -> io::Result<()> {
        self.inner.flush()
    }
}

/// Whether a terminal prints a byte.
fn is_plain(byte: u8) -> bool {
    matches!(byte, b'\t' | b'\n' | b' '..=b'~')
}

/// A byte as it is shown.
fn shown(byte: u8) -> [u8; 4] {
    [b'\\', b'x', digit(byte >> 4), digit(byte & 15)]
}

/// The hexadecimal digit of a number below 16.
fn digit(number: u8) -> u8 {
    DIGITS.get(number as usize).copied().unwrap_or(b'?')
}
