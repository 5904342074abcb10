//! Reads one whole text from a reader.

ghost use Rattle.std.specs.Prelude.{None, [], false, ◌≡◌, ◌<◌, IfErr, IfOk};
ghost use Rattle.pb_text.specs.contract.Automaton.{AcceptsItems, MayAsk};
ghost use Rattle.pb_text.specs.contract.OverState.{ended_of, failures_of, history_of, inner_of, shown_of};
ghost use Rattle.pb_text.specs.meaning.Blank.{IsInReach};
ghost use Rattle.pb_text.specs.meaning.Pulling.{OfGiven, faults_after};
ghost use Rattle.pb_text.specs.meaning.Stopping.{IsShown};
ghost use Rattle.pb_text.specs.meaning.Whole.{ReadsWhole};

use crate::machine::Machine;
use crate::over::Over;
use crate::place::{Spanned, Stop};
use crate::whole::{Gather, read_whole};
use std::io::BufRead;

/// Reads one text of a machine from a reader, as `read_whole` does. It also returns the source over
/// the reader, which counts the failures of the reader. If the reader reports its bytes, those left
/// are the ones after that text, or after the last byte taken.
pub fn read_from<T: BufRead + Drop, M: Machine + Drop, G: Gather<Event = M::Event> + Drop>(
    reader: T,
    machine: M,
    longest: u64,
    empty: G,
) -> (Result<Spanned<G>, Stop>, Over<T>)
    requires between { M.automaton.begun machine ≡ false }
    requires some { 0 < longest }
    ensures reads { ReadsWhole (AcceptsItems M.automaton machine) longest G.with empty
        (MayAsk M.automaton machine) G.asks (T.remaining reader) result.0
        (T.remaining (inner_of result.1)) }
    // For any reader, also a file: what was read is a text of the bytes that the calls of the
    // source have given.
    ensures given { OfGiven (λ left rest.
        ReadsWhole (AcceptsItems M.automaton machine) longest G.with empty
        (MayAsk M.automaton machine) G.asks left result.0 rest) [] (history_of result.1) }
    // A rejected byte is the one that the source has shown. The input ends only if the source has
    // shown its end.
    ensures shown { IfErr result.0 (λ s. IsShown (shown_of result.1) (ended_of result.1) s.why) }
    ensures past { IfOk result.0 (λ m. IsInReach m.past) }
    // `Read` comes only if the reader failed.
    ensures faults { failures_of result.1 ≡ faults_after None result.0 0 }
{
    let mut source = Over::new(reader);
    let read = read_whole(&mut source, machine, longest, empty);
    (read, source)
}
