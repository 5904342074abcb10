//! Text that is stored until the whole result is known.

ghost use Rattle.std.specs.Prelude.{◌≡◌, []};

use pb_text::{Failed, Sink};
use std::alloc::Global;
use std::marker::Model;

/// A text in memory, which contracts see as its bytes.
#[derive(Drop)]
pub(crate) struct Text {
    bytes: Vec<u8>,
}

impl Model for Text {
    ghost use Rattle.std.specs.Prelude.{List, ℕ};

    ghost Value = { List ℕ };

    ghost view = { λ t. t.bytes.items };
}

impl Text {
    /// Its bytes.
    pub(crate) fn as_slice(&self) -> &[u8]
        ensures { result.now ≡ self.now }
    {
        self.bytes.as_slice()
    }
}

/// A sink in memory. It fails if memory runs out.
#[derive(Drop)]
pub(crate) struct Page {
    text: Text,
    failures: u64,
}

impl Page {
    /// A page without any byte.
    pub(crate) fn new(alloc: Global) -> Page
        ensures { result ≡ record { text = []; failures = 0 } }
    {
        let text = Text {
            bytes: Vec::new(alloc),
        };
        Page { text, failures: 0 }
    }

    /// Its text.
    pub(crate) fn into_text(self) -> Text
        ensures { result ≡ self.text }
    {
        self.text
    }
}

impl Sink for Page {
    ghost use Rattle.std.specs.Prelude.{Some};

    ghost contents = { λ p. Some p.text };

    ghost faults = { λ p. p.failures };

    fn take(&mut self, piece: &[u8]) -> Result<usize, Failed> {
        if self.text.bytes.extend_from_slice(piece).is_err() {
            self.failures = self.failures.saturating_add(1);
            return Err(Failed);
        }
        Ok(piece.len())
    }

    fn failures(&self) -> u64 {
        self.failures
    }
}
