//! A writer that holds back all but the last texts.

use std::alloc::{AllocError, Global};
use std::io::{self, Write};

/// A writer that, if it holds texts back, stores the last ones of them until they are released.
#[derive(Drop)]
pub(crate) struct Recent<O> {
    inner: O,
    held: Option<Held>,
    /// Whether there was no memory for a text.
    failed: bool,
}

/// The last texts, at most `most` of them.
#[derive(Drop)]
struct Held {
    alloc: Global,
    most: u64,
    /// Once there are `most` texts, the oldest is at `oldest`.
    texts: Vec<Vec<u8>>,
    oldest: usize,
    /// The text that has not ended.
    current: Vec<u8>,
}

impl<O> Recent<O> {
    /// A writer that holds back all but the given number of texts, or nothing.
    pub(crate) fn new(alloc: Global, inner: O, most: Option<u64>) -> Self {
        let held = match most {
            Some(most) => Some(Held {
                alloc,
                most,
                texts: Vec::new(alloc),
                oldest: 0,
                current: Vec::new(alloc),
            }),
            None => None,
        };
        Recent {
            inner,
            held,
            failed: false,
        }
    }

    /// Whether there was no memory for a text.
    pub(crate) fn has_failed(&self) -> bool {
        self.failed
    }

    /// Ends a text.
    pub(crate) fn end_text(&mut self) {
        if let Some(held) = &mut self.held
            && held.end_text().is_err()
        {
            self.failed = true;
        }
    }

    pub(crate) fn into_inner(self) -> O {
        self.inner
    }
}

impl<O: Write> Recent<O> {
    /// Writes the texts that are held back. What comes then is written at once.
    pub(crate) fn release(&mut self) -> io::Result<()> {
        let Some(held) = self.held.take() else {
            return Ok(());
        };
        for text in &held.texts[held.oldest.min(held.texts.len())..] {
            self.inner.write_all(text.as_slice())?;
        }
        for text in &held.texts[..held.oldest.min(held.texts.len())] {
            self.inner.write_all(text.as_slice())?;
        }
        self.inner.write_all(held.current.as_slice())
    }
}

impl Held {
    /// Stores the current text, in place of the oldest one if there are enough.
    fn end_text(&mut self) -> Result<(), AllocError> {
        if (self.texts.len() as u64) < self.most {
            let text = std::mem::replace(&mut self.current, Vec::new(self.alloc));
            self.texts.push(text)?;
            return Ok(());
        }
        if let Some(oldest) = self.texts.get_mut(self.oldest) {
            std::mem::swap(oldest, &mut self.current);
        }
        self.current.clear();
        self.oldest = self.oldest.saturating_add(1);
        if self.oldest >= self.texts.len() {
            self.oldest = 0;
        }
        Ok(())
    }
}

impl<O: Write> Write for Recent<O> {
    fn write(&mut self, buf: &[u8]) -> io::Result<usize> {
        match &mut self.held {
            Some(held) => match held.current.extend_from_slice(buf) {
                Ok(()) => Ok(buf.len()),
                Err(_) => {
                    self.failed = true;
                    Err(io::Error::from(io::ErrorKind::OutOfMemory))
                }
            },
            None => self.inner.write(buf),
        }
    }

    fn flush(&mut self) -> io::Result<()> {
        self.inner.flush()
    }
}
