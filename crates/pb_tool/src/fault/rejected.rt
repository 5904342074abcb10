//! The line of a rejected statement.

ghost use Rattle.std.specs.Fmt.{signed_decimal};
ghost use Rattle.std.specs.Prelude.{◌++◌, ◌∷◌, [], codes, decimal};
ghost use Rattle.pb_text.specs.meaning.Writing.{Writes};
ghost use Rattle.pb_text.specs.contract.Reasons.{place_text};
ghost use Rattle.pb_tool.specs.contract.Refusals.{refusal_text};

use crate::fault::{Input, write_parts, write_place};
use itoa::Buffer;
use pb_replay::Fault;
use pb_text::{Failed, Place, Sink, write_bytes};

/// Writes the line of a rejected statement of the proof that begins at a position. `name` is the
/// name of a `NotTotal`.
pub(crate) fn write_step<S: Sink>(
    place: Place,
    fault: Fault,
    name: &str,
    out: &mut S,
) -> Result<(), Failed>
    ensures { Writes S.contents S.faults out.old
        (codes "proof: " ++ place_text place ++ refusal_text fault name.now ++ 10 ∷ []) result
        out.new }
{
    write_place(Input::Proof, place, out)?;
    write_refusal(fault, name, out)?;
    write_bytes(b"\n", out)
}

/// Why a statement was rejected.
fn write_refusal<S: Sink>(fault: Fault, name: &str, out: &mut S) -> Result<(), Failed>
    ensures { Writes S.contents S.faults out.old (refusal_text fault name.now) result out.new }
{
    match fault {
        Fault::Memory => write_bytes(b"out of memory", out),
        Fault::Overflow => write_bytes(b"overflow", out),
        Fault::FormulaCount(count) => write_formula_count(count, out),
        Fault::NoSuchId(id) => write_no_such_id(id, out),
        Fault::NotImplied => write_bytes(b"not implied", out),
        Fault::Conflict => write_bytes(b"conflict", out),
        Fault::NotTotal(_) => write_no_value(name, out),
        Fault::Violates(id) => write_violates(id, out),
        Fault::NoObjective => write_bytes(b"no objective", out),
        Fault::NotContradiction => write_bytes(b"not a contradiction", out),
        Fault::SolutionLogged => write_bytes(b"a solution was logged", out),
        Fault::NoSolution => write_bytes(b"no solution", out),
        Fault::NotBound => write_bytes(b"not a bound", out),
        Fault::IdsSpent => write_bytes(b"ids spent", out),
        Fault::Order => write_bytes(b"out of order", out),
    }
}

/// The actual number of constraints.
fn write_formula_count<S: Sink>(count: u64, out: &mut S) -> Result<(), Failed>
    ensures { Writes S.contents S.faults out.old
        (codes "formula has " ++ decimal count ++ codes " constraints") result out.new }
{
    let mut buffer = Buffer::new();
    write_parts(
        &[
            b"formula has ",
            buffer.format(count).as_bytes(),
            b" constraints",
        ],
        out,
    )
}

/// The id that is not live.
fn write_no_such_id<S: Sink>(id: i64, out: &mut S) -> Result<(), Failed>
    ensures { Writes S.contents S.faults out.old (codes "no such id " ++ signed_decimal id) result
        out.new }
{
    let mut buffer = Buffer::new();
    write_parts(&[b"no such id ", buffer.format(id).as_bytes()], out)
}

/// The name that has no value.
fn write_no_value<S: Sink>(name: &str, out: &mut S) -> Result<(), Failed>
    ensures { Writes S.contents S.faults out.old
        (codes "no value for " ++ name.now) result out.new }
{
    write_parts(&[b"no value for ", name.as_bytes()], out)
}

/// The id of the violated constraint.
fn write_violates<S: Sink>(id: u64, out: &mut S) -> Result<(), Failed>
    ensures { Writes S.contents S.faults out.old (codes "violates constraint " ++ decimal id) result
        out.new }
{
    let mut buffer = Buffer::new();
    write_parts(
        &[b"violates constraint ", buffer.format(id).as_bytes()],
        out,
    )
}
