//! The next event of a source.

ghost use Rattle.std.specs.Prelude.{true, false, ◌≡◌, ◌<◌, Some, None, Ok, OnOk, IfErr};
ghost use Rattle.pb_text.specs.contract.Automaton.{IsState};
ghost use Rattle.pb_text.specs.contract.Feeding.{stop_of, state_of, place_of, halt_of, is_complete};
ghost use Rattle.pb_text.specs.contract.Pouring.{drawn};
ghost use Rattle.pb_text.specs.contract.Pulled.{IsPast, IsWanting, PullsInTurn, PullsOnce, StaysDone, StaysStopped};
ghost use Rattle.pb_text.specs.meaning.Pulling.{Draws, faults_after};
ghost use Rattle.pb_text.specs.meaning.Stopping.{IsShown};
ghost use Rattle.pb_text.specs.declared.place.Spanned.{Spanned};

use crate::feeder::Feeder;
use crate::machine::Machine;
use crate::place::{Spanned, Stop, Why};
use crate::source::{Failed, Source};

/// The next event of the source, or `None` after the last one. It takes exactly the bytes used. If
/// the source has no more bytes, it returns what `finish` would. Once done or stopped, it does not
/// call the source.
pub fn pull<S: Source, M: Machine>(
    source: &mut S,
    feeder: &mut Feeder<M>,
) -> Result<Option<Spanned<M::Event>>, Stop>
    ensures pulls { PullsOnce feeder.old (S.left source.old) (S.history source.old) result
        feeder.new (S.left source.new) (S.history source.new) }
    // Consecutive pulls are a read of what they have taken.
    ensures row { PullsInTurn feeder.old (S.left source.old) result feeder.new (S.left source.new) }
    ensures again { StaysStopped feeder.old source.old result feeder.new source.new }
    ensures done { StaysDone feeder.old source.old result feeder.new source.new }
    ensures stop { halt_of feeder.new ≡ stop_of result }
    ensures last { result ≡ Ok None → is_complete feeder.new ≡ true }
    ensures past { (event : Spanned M.Event) → result ≡ Ok (Some event) →
        IsPast feeder.old event feeder.new }
    // `Read` is first returned only if the source failed in this call.
    ensures faults { S.faults source.new ≡ faults_after (halt_of feeder.old) result
        (S.faults source.old) }
    // `Memory` comes only at a byte that may allocate.
    ensures memory { halt_of feeder.old ≡ None → IfErr result (IsWanting feeder.new) }
    // A rejected byte is the one that the source has shown. The input ends only if the source has
    // shown its end.
    ensures shown { halt_of feeder.old ≡ None → IfErr result (λ stop.
        IsShown (S.shown source.new) (S.ended source.new) stop.why) }
    ensures state { halt_of feeder.old ≡ None → IsState M.automaton (state_of feeder.new) }
{
    if let Some(stop) = feeder.stopped() {
        return Err(stop);
    }
    if feeder.is_done() {
        return Ok(None);
    }
    loop {
        let mut event = None;
        match draw(source, feeder, &mut event) {
            Ok(()) => {}
            Err(stop) => return Err(stop),
        }
        if event.is_some() {
            return Ok(event);
        }
    }
}

/// Takes available bytes, at most through the end of a statement, and puts its event into `event`,
/// which is `None` before. If none ends there, it also takes the next byte.
fn draw<S: Source, M: Machine>(
    source: &mut S,
    feeder: &mut Feeder<M>,
    event: &mut Option<Spanned<M::Event>>,
) -> Result<(), Stop>
    requires unfinished { is_complete feeder.old ≡ false }
    requires running { halt_of feeder.old ≡ None }
    requires state { IsState M.automaton (state_of feeder.old) }
    requires none { event.old ≡ None }
    ensures draws { Draws feeder.old (S.left source.old) (S.history source.old)
        (drawn result event.new) feeder.new (S.left source.new) (S.history source.new) }
    ensures stop { halt_of feeder.new ≡ stop_of result }
    ensures unfinished { OnOk result (event.new ≡ None → is_complete feeder.new ≡ false) }
    ensures onward { OnOk result ((place_of feeder.old).offset < (place_of feeder.new).offset) }
    ensures past { (span : Spanned M.Event) → event.new ≡ Some span →
        span.past ≡ place_of feeder.new }
    ensures faults { S.faults source.new ≡ faults_after None result (S.faults source.old) }
    ensures memory { IfErr result (IsWanting feeder.new) }
    ensures shown { IfErr result (λ stop.
        IsShown (S.shown source.new) (S.ended source.new) stop.why) }
    ensures state { IsState M.automaton (state_of feeder.new) }
{
    if let Err(Failed) = source.pour(feeder, event) {
        return Err(feeder.halt(Why::Read));
    }
    if event.is_some() {
        return Ok(());
    }
    take_next(source, feeder, event)
}

/// Takes only the next byte of the source, and puts the event that ends with it, if any, into
/// `event`.
fn take_next<S: Source, M: Machine>(
    source: &mut S,
    feeder: &mut Feeder<M>,
    event: &mut Option<Spanned<M::Event>>,
) -> Result<(), Stop>
    requires unfinished { is_complete feeder.old ≡ false }
    requires running { halt_of feeder.old ≡ None }
    requires state { IsState M.automaton (state_of feeder.old) }
    requires none { event.old ≡ None }
    ensures draws { Draws feeder.old (S.left source.old) (S.history source.old)
        (drawn result event.new) feeder.new (S.left source.new) (S.history source.new) }
    ensures stop { halt_of feeder.new ≡ stop_of result }
    ensures unfinished { OnOk result (event.new ≡ None → is_complete feeder.new ≡ false) }
    ensures onward { OnOk result ((place_of feeder.old).offset < (place_of feeder.new).offset) }
    ensures past { (span : Spanned M.Event) → event.new ≡ Some span →
        span.past ≡ place_of feeder.new }
    ensures faults { S.faults source.new ≡ faults_after None result (S.faults source.old) }
    ensures memory { IfErr result (IsWanting feeder.new) }
    ensures shown { IfErr result (λ stop.
        IsShown (S.shown source.new) (S.ended source.new) stop.why) }
    ensures state { IsState M.automaton (state_of feeder.new) }
{
    let byte = match source.peek() {
        Ok(Some(byte)) => byte,
        Ok(None) => return Err(feeder.halt(Why::Ended)),
        Err(Failed) => return Err(feeder.halt(Why::Read)),
    };
    match feeder.take(byte) {
        Ok(taken) => {
            *event = taken;
            source.skip();
            Ok(())
        }
        Err(stop) => Err(stop),
    }
}
