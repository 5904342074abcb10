//! Where the bytes of an input come from.

use std::io::{self, Read};

/// A file, or standard input.
#[derive(Drop)]
pub(crate) enum Origin<F, S> {
    File(F),
    Standard(S),
}

impl<F: Read, S: Read> Read for Origin<F, S> {
    fn read(&mut self, buf: &mut [u8]) -> io::Result<usize> {
        match self {
            Origin::File(file) => file.read(buf),
            Origin::Standard(input) => input.read(buf),
        }
    }
}

/// Whether a name means standard input: `-`. The file of that name is `./-`.
pub(crate) fn is_standard(name: &str) -> bool {
    name == "-"
}
