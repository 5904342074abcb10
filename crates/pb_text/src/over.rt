//! A source over any buffered reader, and a sink over any writer.

ghost use Rattle.std.specs.Prelude.{◌≡◌, [], None, false};
ghost use Rattle.pb_text.specs.contract.Automaton.{IsState};
ghost use Rattle.pb_text.specs.contract.Feeding.{state_of, halt_of, is_complete};
ghost use Rattle.pb_text.specs.contract.Over.{Shows, reported};
ghost use Rattle.pb_text.specs.contract.Pouring.{Pours};

use crate::feeder::Feeder;
use crate::history::History;
use crate::machine::Machine;
use crate::place::Spanned;
use crate::sink::Sink;
use crate::source::{Failed, Source};
use std::io::{BufRead, Write};

/// The bytes of a reader or a writer in order. It fails if a call to the reader or writer failed,
/// or if a write took no byte. An interrupted call is a failure like any other, and nothing is
/// retried.
#[derive(Drop)]
pub struct Over<T> {
    inner: T,
    shown: Option<u8>,
    ended: bool,
    failures: u64,
    history: History,
}

impl<T> Over<T> {
    ghost use Rattle.pb_text.specs.contract.OverState.{inner_of, failures_of, history_of, shown_of};

    pub fn new(inner: T) -> Self
        ensures inner { inner_of result ≡ inner }
        ensures failures { failures_of result ≡ 0 }
        ensures shown { shown_of result ≡ None }
        ensures history { history_of result ≡ [] }
    {
        Over {
            inner,
            shown: None,
            ended: false,
            failures: 0,
            history: History::new(),
        }
    }

    /// The reader or writer.
    pub fn into_inner(self) -> T
        ensures { result ≡ inner_of self }
    {
        self.inner
    }
}

impl<T: BufRead> Source for Over<T> {
    ghost left = { λ o. reported (T.remaining o.inner) (T.consumable_len o.inner) o.shown };

    ghost shown = { λ o. o.shown };

    ghost ended = { λ o. o.ended };

    ghost history = { λ o. o.history.bytes };

    ghost faults = { λ o. o.failures };

    fn peek(&mut self) -> Result<Option<u8>, Failed> {
        match next_of(&mut self.inner) {
            Ok(shown) => {
                self.shown = shown;
                self.ended = shown.is_none();
                Ok(shown)
            }
            Err(Failed) => {
                self.shown = None;
                self.ended = false;
                self.failures = self.failures.saturating_add(1);
                Err(Failed)
            }
        }
    }

    fn skip(&mut self) {
        if let Some(byte) = self.shown {
            self.history.note(&[byte]);
        }
        self.shown = None;
        self.inner.consume(1);
    }

    fn pour<M: Machine>(
        &mut self,
        feeder: &mut Feeder<M>,
        event: &mut Option<Spanned<M::Event>>,
    ) -> Result<(), Failed> {
        self.shown = None;
        match self.inner.fill_buf() {
            Ok(bytes) => {
                let skipped = feeder.skip_line_feed(bytes);
                let used = feeder.feed_statement(&bytes[skipped..], event);
                self.history.note(&bytes[..skipped + used]);
                self.inner.consume(skipped + used);
                Ok(())
            }
            Err(_) => {
                self.failures = self.failures.saturating_add(1);
                Err(Failed)
            }
        }
    }

    fn failures(&self) -> u64 {
        self.failures
    }
}

impl<T: Write> Sink for Over<T> {
    ghost contents = { λ o. T.contents o.inner };

    ghost faults = { λ o. o.failures };

    fn take(&mut self, piece: &[u8]) -> Result<usize, Failed> {
        match self.inner.write(piece) {
            Ok(taken) if taken > 0 => Ok(taken),
            _ => {
                self.failures = self.failures.saturating_add(1);
                Err(Failed)
            }
        }
    }

    fn failures(&self) -> u64 {
        self.failures
    }
}

/// The next byte of a reader, or `None` at its end.
fn next_of<T: BufRead>(reader: &mut T) -> Result<Option<u8>, Failed>
    ensures { Shows (T.remaining reader.old) result (T.remaining reader.new)
        (T.consumable_len reader.new) }
{
    match reader.fill_buf() {
        Ok(bytes) => Ok(bytes.first().copied()),
        Err(_) => Err(Failed),
    }
}
