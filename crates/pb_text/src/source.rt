//! Where bytes come from.

ghost use Rattle.std.specs.Prelude.{◌≡◌, ◌∷◌, ℕ, List, Bool, Option, Some, None, codes, false, OnOk, OnErr};
ghost use Rattle.pb_text.specs.contract.Automaton.{IsState};
ghost use Rattle.pb_text.specs.contract.Feeding.{state_of, halt_of, is_complete};
ghost use Rattle.pb_text.specs.contract.Pouring.{Pours};
ghost use Rattle.pb_text.specs.contract.Source.{Peeks, Skips};
ghost use Rattle.pb_text.specs.meaning.Writing.{one_more};

use crate::feeder::Feeder;
use crate::machine::Machine;
use crate::place::Spanned;
use std::error::Error;
use std::fmt;

/// A reader or a writer failed.
#[derive(Clone, Copy, Debug, PartialEq, Eq)]
pub struct Failed;

impl fmt::Display for Failed {
    ghost output = { λ _. Some (codes "a reader or a writer failed") };

    fn fmt<W: fmt::Write>(&self, f: &mut fmt::Formatter<W>) -> fmt::Result {
        f.write_str("a reader or a writer failed")
    }
}

impl Error for Failed {}

/// A source of bytes. Its next byte can be peeked at.
pub trait Source {
    /// The bytes that are left, if it reports them.
    ghost left: { Self → Option (List ℕ) };

    /// The byte that a `peek` has shown and no `skip` has taken.
    ghost shown: { Self → Option ℕ };

    /// Whether the last `peek` has shown the end.
    ghost ended: { Self → Bool };

    /// The bytes that it has given: of those that its calls have shown, the ones that were taken.
    ghost history: { Self → List ℕ };

    /// How many times it has failed.
    ghost faults: { Self → ℕ };

    /// The next byte, or `None` at the end.
    fn peek(&mut self) -> Result<Option<u8>, Failed>
        ensures { Peeks left shown ended history faults self.old result self.new };

    /// Takes the byte that the last call, a `peek`, has shown.
    fn skip(&mut self)
        requires { (b : ℕ) × (shown self.old ≡ Some b) }
        ensures { Skips left shown ended history faults self.old self.new };

    /// Feeds available bytes to a feeder, at most through the end of a statement, and takes them.
    /// It puts the event that ends there, if any, into `event`, which must be `None`. It may take no
    /// bytes; the default implementation takes none.
    fn pour<M: Machine>(
        &mut self,
        feeder: &mut Feeder<M>,
        event: &mut Option<Spanned<M::Event>>,
    ) -> Result<(), Failed>
        requires unfinished { is_complete feeder.old ≡ false }
        requires running { halt_of feeder.old ≡ None }
        requires state { IsState M.automaton (state_of feeder.old) }
        requires none { event.old ≡ None }
        ensures pours { Pours feeder.old (left self.old) (history self.old)
            event.new feeder.new (left self.new) (history self.new) }
        ensures unfinished { event.new ≡ None → is_complete feeder.new ≡ false }
        ensures running { halt_of feeder.new ≡ None }
        ensures state { IsState M.automaton (state_of feeder.new) }
        ensures ok { OnOk result (faults self.new ≡ faults self.old) }
        ensures err { OnErr result ((faults self.new ≡ one_more (faults self.old)) ×
            (event.new ≡ None)) }
    {
        let _ = feeder.is_done();
        let _ = event;
        Ok(())
    }

    /// How many times it has failed. The count saturates at `2^64 - 1`.
    fn failures(&self) -> u64
        ensures { result ≡ faults self.now };
}
