//! An instance read and written again.

ghost use Rattle.std.specs.Prelude.{IfOk};
ghost use Rattle.pb_examples.specs.Rewritten.{IsRewritten};

use pb_opb::laws::{canonical_instance_spells, instances_are_values};
use pb_opb::{read_instance, write_instance};
use pb_text::{Failed, Limits, Over, Stop, Why};
use std::alloc::Global;

/// The canonical text of the instance that begins a text. It fails if the text begins with no
/// instance, or if memory runs out.
pub fn canonical(alloc: Global, text: &[u8]) -> Result<Vec<u8>, Stop>
    // The text begins with a text of an instance, and the result is the canonical text of that
    // instance.
    ensures same { IfOk result (λ bytes. IsRewritten text.now bytes.items) }
{
    instances_are_values();
    canonical_instance_spells();
    let read = read_instance(alloc, &mut Over::new(text), Limits::full())?;
    let mut out = Over::new(Vec::new(alloc));
    match write_instance(&read.event, &mut out) {
        Ok(()) => Ok(out.into_inner()),
        Err(Failed) => Err(Stop {
            place: read.past,
            why: Why::Memory,
        }),
    }
}
