//! Reads a whole instance.

ghost use Rattle.std.specs.Prelude.{◌≡◌, ◌<◌, None, IfErr, IfOk};
ghost use Rattle.pb_text.specs.meaning.Blank.{IsInReach};
ghost use Rattle.pb_text.specs.meaning.Limits.{largest, top_of};
ghost use Rattle.pb_text.specs.meaning.Pulling.{OfGiven, faults_after};
ghost use Rattle.pb_text.specs.meaning.Stopping.{IsShown};
ghost use Rattle.pb_opb.specs.meaning.Reading.{ReadsInstance};

use crate::gather::InstanceSoFar;
use crate::instance::Instance;
use crate::machine::OpbMachine;
use pb_text::{BYTE_LIMIT, Limits, Source, Spanned, Stop, read_whole};
use std::alloc::Global;

/// Reads the instance that begins the input, and takes only the bytes of its text. The text ends
/// with the `;` of the last constraint, or with the first line if that line declares no constraint.
///
/// A stop gives a position and a reason. `Byte`: the first byte that no text under the limits has
/// there. `TooLarge`: the same for a further digit of a number. `Ended`: the end of the input.
/// `TooLong`: the byte at offset `2^40`. `Read`: a fault of the source. `Memory`: out of memory.
pub fn read_instance<S: Source>(
    alloc: Global,
    input: &mut S,
    limits: Limits,
) -> Result<Spanned<Instance>, Stop>
    // `Memory` comes only at a byte of a tail, comment or name, at one that ends a literal, or
    // after a statement to be stored.
    ensures reads { ReadsInstance (largest limits) (top_of limits) BYTE_LIMIT
        (S.left input.old) result (S.left input.new) }
    // For any source, also a file: the contract holds for the bytes that the source's calls have
    // given.
    ensures given { OfGiven (λ left rest.
        ReadsInstance (largest limits) (top_of limits) BYTE_LIMIT left result rest)
        (S.history input.old) (S.history input.new) }
    // A rejected byte is the one that the source has shown. The input ends only if the source has
    // shown its end.
    ensures shown { IfErr result (λ s. IsShown (S.shown input.new) (S.ended input.new) s.why) }
    ensures past { IfOk result (λ m. IsInReach m.past) }
    // `Read` comes only if the source failed.
    ensures faults { S.faults input.new ≡ faults_after None result (S.faults input.old) }
{
    read_instance_within(alloc, input, BYTE_LIMIT, limits)
}

/// The same, but it also stops with `TooLong` at a statement that has not ended within its first
/// `longest` bytes. The header, each comment, the objective and each constraint are statements.
pub fn read_instance_within<S: Source>(
    alloc: Global,
    input: &mut S,
    longest: u64,
    limits: Limits,
) -> Result<Spanned<Instance>, Stop>
    requires { 0 < longest }
    // `Memory` comes only at a byte of a tail, comment or name, at one that ends a literal, or
    // after a statement to be stored.
    ensures reads { ReadsInstance (largest limits) (top_of limits) longest (S.left input.old) result
        (S.left input.new) }
    // For any source, also a file: the contract holds for the bytes that the source's calls have
    // given.
    ensures given { OfGiven (λ left rest.
        ReadsInstance (largest limits) (top_of limits) longest left result rest)
        (S.history input.old) (S.history input.new) }
    // A rejected byte is the one that the source has shown. The input ends only if the source has
    // shown its end.
    ensures shown { IfErr result (λ s. IsShown (S.shown input.new) (S.ended input.new) s.why) }
    ensures past { IfOk result (λ m. IsInReach m.past) }
    // `Read` comes only if the source failed.
    ensures faults { S.faults input.new ≡ faults_after None result (S.faults input.old) }
{
    let machine = OpbMachine::new(alloc, limits);
    match read_whole(input, machine, longest, InstanceSoFar::new(alloc)) {
        Ok(read) => Ok(Spanned {
            event: read.event.instance,
            first: read.first,
            past: read.past,
        }),
        Err(stop) => Err(stop),
    }
}
