//! What `pb check --stats` and `pb check --progress` write on standard error.

ghost use Rattle.std.specs.Prelude.{◌≡◌};
ghost use Rattle.pb_trace.specs.Counted.{seen_by};

use pb_proof::Statement;
use pb_replay::Replay;
use pb_text::{Over, Spanned};
use pb_tool::{CheckFault, Watch};
use pb_trace::Stats;
use std::io::Write;
use std::time::{Clock, Duration, Instant};

/// What is written on standard error, beside a fault.
#[derive(Clone, Copy)]
pub(crate) struct Asked {
    /// Counts after the check.
    pub(crate) stats: bool,
    /// A line on how far the check is.
    pub(crate) progress: bool,
    /// The reasons of a rejection, found while the check runs.
    pub(crate) explain: bool,
    /// Whether standard error is a terminal, where that line is written over.
    pub(crate) is_terminal: bool,
    /// The bytes of the proof, if its size is known.
    pub(crate) bytes: Option<u64>,
}

/// Sees the statements of a check, counts them, and writes how far it is.
#[derive(Drop)]
pub(crate) struct Watching<'a, R, E> {
    clock: &'a R,
    errors: &'a mut E,
    asked: Asked,
    stats: Stats,
    start: Option<Instant>,
    last: Option<Instant>,
    is_written: bool,
}

impl<'a, R: Clock, E: Write> Watching<'a, R, E> {
    /// Before any statement.
    pub(crate) fn new(clock: &'a R, errors: &'a mut E, asked: Asked) -> Self {
        let start = Instant::now(clock).ok();
        Watching {
            clock,
            errors,
            asked,
            stats: Stats::new(),
            start,
            last: start,
            is_written: false,
        }
    }

    /// Ends the line, so that what follows on the same terminal begins a new one. If standard error
    /// cannot be written, nothing reports it.
    pub(crate) fn end_line(&mut self) {
        if self.is_written && self.asked.is_terminal {
            let _ = self.errors.write_all(b"\n");
        }
    }

    /// Writes the counts and the seconds if they are asked for. If standard error cannot be
    /// written, nothing reports it.
    pub(crate) fn end(&mut self) {
        if !self.asked.stats {
            return;
        }
        write_stats(&self.stats, self.errors);
        if let Some(millis) = self.millis() {
            let (seconds, rest) = (millis / 1000, millis % 1000);
            let _ = write!(self.errors, "seconds: {seconds}.{rest:03}\n");
        }
    }

    /// The milliseconds since the check began, if the system has a clock.
    fn millis(&self) -> Option<u128> {
        match self.start {
            Some(start) => match start.elapsed(self.clock) {
                Ok(passed) => Some(passed.as_millis()),
                Err(_) => None,
            },
            None => None,
        }
    }

    /// Whether the line is due: twice a second on a terminal, and else every ten seconds.
    fn is_due(&mut self) -> bool
        ensures { self.new.stats ≡ self.old.stats }
    {
        let Ok(now) = Instant::now(self.clock) else {
            return false;
        };
        let pause = if self.asked.is_terminal {
            Duration::from_millis(500)
        } else {
            Duration::from_secs(10)
        };
        if let Some(last) = self.last
            && now.duration_since(last) < pause
        {
            return false;
        }
        self.last = Some(now);
        true
    }

    /// Writes how far the check is. On a terminal the line may be one or two bytes shorter than the
    /// one before it, so it ends in two blanks: the bytes so far never decrease, so a rate with
    /// fewer digits comes with more seconds.
    fn write_line(&mut self)
        ensures { self.new.stats ≡ self.old.stats }
    {
        let (bytes, statements) = (self.stats.bytes(), self.stats.statements());
        let (begin, end) = if self.asked.is_terminal {
            ("\r", "  ")
        } else {
            ("", "\n")
        };
        let millis = self.millis().unwrap_or(0);
        let (seconds, tenths) = (millis / 1000, millis / 100 % 10);
        let rate = bytes as u128 * 1000 / millis.max(1);
        let _ = match self.asked.bytes {
            Some(all) => {
                let percent = bytes as u128 * 100 / all.max(1) as u128;
                write!(
                    self.errors,
                    "{begin}proof: {bytes} of {all} bytes, {percent} %, {statements} statements, {seconds}.{tenths} s, {rate} bytes/s{end}"
                )
            }
            None => write!(
                self.errors,
                "{begin}proof: {bytes} bytes, {statements} statements, {seconds}.{tenths} s, {rate} bytes/s{end}"
            ),
        };
        self.is_written = true;
    }
}

/// Writes the counts. If they cannot be written, nothing reports it.
fn write_stats<E: Write>(stats: &Stats, errors: &mut E) {
    let _ = stats.write(&mut Over::new(errors));
}

impl<R: Clock, E: Write> Watch for Watching<'_, R, E> {
    // It counts each statement, whatever it writes.
    ghost got = { λ old call new. new.stats ≡ seen_by old.stats call };

    fn accepted(&mut self, read: &Spanned<Statement>, replay: &Replay) {
        self.stats.accepted(read, replay);
        if self.asked.progress && self.is_due() {
            self.write_line();
        }
    }

    fn rejected(&mut self, _read: &Spanned<Statement>, _replay: &Replay, _fault: CheckFault) {}
}
