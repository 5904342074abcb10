//! A reader that records what it gives.

use std::cell::RefCell;
use std::io::{self, Read};

/// What was recorded, or `None` once there was no memory for it.
pub(crate) type Record = RefCell<Option<Vec<u8>>>;

/// A reader that records the bytes that it gives.
#[derive(Drop)]
pub(crate) struct Recorded<'a, I> {
    input: I,
    record: &'a Record,
}

impl<'a, I> Recorded<'a, I> {
    pub(crate) fn new(input: I, record: &'a Record) -> Self {
        Recorded { input, record }
    }
}

impl<I: Read> Read for Recorded<'_, I> {
    fn read(&mut self, buf: &mut [u8]) -> io::Result<usize> {
        let count = self.input.read(buf)?;
        if let (Ok(mut record), Some(piece)) = (self.record.try_borrow_mut(), buf.get(..count)) {
            let is_stored = match &mut *record {
                Some(bytes) => bytes.extend_from_slice(piece).is_ok(),
                None => false,
            };
            if !is_stored {
                *record = None;
            }
        }
        Ok(count)
    }
}
