//! Reads one whole text.

ghost use Rattle.std.specs.Prelude.{Bool, true, false, ◌≡◌, ◌<◌, None, IfErr, IfOk, OnOk, OnErr, IsTrue};
ghost use Rattle.pb_text.specs.contract.Automaton.{AcceptsItems, MayAsk};
ghost use Rattle.pb_text.specs.meaning.Blank.{IsInReach};
ghost use Rattle.pb_text.specs.meaning.Pulling.{OfGiven, faults_after};
ghost use Rattle.pb_text.specs.meaning.Stopping.{IsShown};
ghost use Rattle.pb_text.specs.meaning.Whole.{ReadsWhole};

use crate::feeder::Feeder;
use crate::machine::Machine;
use crate::next_event::pull;
use crate::place::{Place, Spanned, Stop, Why};
use crate::source::Source;
use std::alloc::AllocError;

/// A value that collects events.
pub trait Gather {
    type Event;

    /// The value with one more event.
    ghost with: { Self → Self.Event → Self };

    /// Whether storing the event may allocate.
    ghost asks: { Self → Self.Event → Bool } = { λ value event. true };

    /// Adds an event, and returns it if the value does not store it. If out of memory, the value is
    /// unchanged.
    fn add(&mut self, event: Self::Event) -> Result<Option<Self::Event>, AllocError>
        ensures ok { OnOk result (self.new ≡ with self.old event) }
        ensures unchanged { OnErr result (self.new ≡ self.old) }
        ensures asking { OnErr result (IsTrue (asks self.old event)) };
}

/// Reads one text of a machine and collects its events, starting with `empty`. It takes only the
/// bytes of that text.
///
/// A stop is that of the machine's feeder, which reports `Memory` only at a byte that may allocate.
/// `Memory` also comes if an event could not be stored; its position is then after that event.
pub fn read_whole<S: Source, M: Machine + Drop, G: Gather<Event = M::Event> + Drop>(
    source: &mut S,
    machine: M,
    longest: u64,
    empty: G,
) -> Result<Spanned<G>, Stop>
    requires between { M.automaton.begun machine ≡ false }
    requires some { 0 < longest }
    ensures reads { ReadsWhole (AcceptsItems M.automaton machine) longest G.with empty
        (MayAsk M.automaton machine) G.asks (S.left source.old) result (S.left source.new) }
    // For any source, also a file: what was read is a text of the bytes that its calls have given.
    ensures given { OfGiven (λ left rest.
        ReadsWhole (AcceptsItems M.automaton machine) longest G.with empty
        (MayAsk M.automaton machine) G.asks left result rest) (S.history source.old)
        (S.history source.new) }
    // A rejected byte is the one that the source has shown. The input ends only if the source has
    // shown its end.
    ensures shown { IfErr result (λ s. IsShown (S.shown source.new) (S.ended source.new) s.why) }
    ensures past { IfOk result (λ m. IsInReach m.past) }
    // `Read` comes only if the source failed.
    ensures faults { S.faults source.new ≡ faults_after None result (S.faults source.old) }
{
    let mut feeder = Feeder::within(machine, longest);
    let mut value = empty;
    loop {
        match pull(source, &mut feeder) {
            Ok(Some(spanned)) => {
                if let Err(AllocError) = collect(&mut value, &mut feeder, spanned.event) {
                    return Err(Stop {
                        place: feeder.place(),
                        why: Why::Memory,
                    });
                }
            }
            Ok(None) => {
                return Ok(Spanned {
                    event: value,
                    first: Place::START,
                    past: feeder.place(),
                });
            }
            Err(stop) => return Err(stop),
        }
    }
}

/// Adds an event to a value. The feeder uses its memory again if the value does not store it.
#[inline(always)]
fn collect<M: Machine, G: Gather<Event = M::Event>>(
    value: &mut G,
    feeder: &mut Feeder<M>,
    event: M::Event,
) -> Result<(), AllocError>
    ensures ok { OnOk result (value.new ≡ G.with value.old event) }
    ensures unchanged { OnErr result (value.new ≡ value.old) }
    ensures asking { OnErr result (IsTrue (G.asks value.old event)) }
    ensures feeder { feeder.new ≡ feeder.old }
{
    if let Some(unused) = value.add(event)? {
        feeder.reuse(unused);
    }
    Ok(())
}
