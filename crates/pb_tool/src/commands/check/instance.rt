//! The instance of a check, and the replay that begins with it.

ghost use Rattle.std.specs.Prelude.{◌≡◌, ◌<◌, Err, Result};
ghost use Rattle.pb_text.specs.meaning.Pulling.{OfGiven};
ghost use Rattle.pb_tool.specs.contract.Runs.{OpensAs, faults_of_instance};
ghost use Rattle.pb_tool.specs.contract.Seen.{SawInstance};

use crate::fault::{Input, ToolFault, text_fault};
use crate::file::read_file;
use pb_normal::HashKeys;
use pb_opb::OpbMachine;
use pb_replay::{Fault, Loading, Replay};
use pb_text::{Limits, Source};
use std::alloc::Global;

/// Reads an instance, and returns its replay. Only white space and comments may follow the
/// instance. The forms of each constraint are made as it is read, so that the constraints are not
/// stored as written.
///
/// `Text` comes where the reader of instances stops, or at a byte of the rest that is not blank.
/// `Overflow` comes after the whole text, if a constraint or the objective exceeds the limit, and
/// `Memory` if there was no memory for the replay.
pub fn replay_of_instance<S: Source>(
    alloc: Global,
    keys: HashKeys,
    input: &mut S,
    longest: u64,
    limits: Limits,
) -> Result<Replay, ToolFault>
    requires { 0 < longest }
    ensures opened { OpensAs limits longest (S.left input.old) (S.left input.new) result }
    ensures given { OfGiven (λ left rest. OpensAs limits longest left rest result)
        (S.history input.old) (S.history input.new) }
    ensures seen { SawInstance (S.shown input.new) (S.ended input.new) result }
    ensures faults { S.faults input.new ≡ faults_of_instance result (S.faults input.old) }
{
    let machine = OpbMachine::new(alloc, limits);
    let empty = Loading::new(alloc, keys, limits);
    let loading = match read_file(input, machine, longest, empty) {
        Ok(loading) => loading,
        Err(stop) => return Err(text_fault(Input::Instance, stop)),
    };
    match Replay::from_loading(loading) {
        Ok(replay) => Ok(replay),
        Err(Fault::Memory) => Err(ToolFault::Memory(Input::Instance)),
        Err(_) => Err(ToolFault::Overflow(Input::Instance)),
    }
}
