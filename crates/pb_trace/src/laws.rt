//! Laws over the definitions alone. These functions do nothing: what they ensure are the laws.

ghost use Rattle.pb_trace.specs.Laws.{FirstIsEmpty, StoresTheLive, TracesEachLine};

use pb_text::Sink;

/// What a trace stores of the constraints is what the replay has, after each accepted statement. So
/// a line of `del id` shows the constraints that the replay deletes. Before the first statement
/// there are none.
pub fn stores_the_live()
    ensures first { FirstIsEmpty }
    ensures statements { StoresTheLive }
{}

/// A trace of a check has written a line for each accepted statement, in order, and no other,
/// unless a statement was rejected or a line could not be written. `check_watched` says which
/// statements these are.
pub fn traces_each_line<S: Sink>()
    ensures { TracesEachLine S.contents S.faults }
{}
