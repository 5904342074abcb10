//! Why a command failed, its line on standard error and its exit status.

ghost use Rattle.std.specs.Prelude.{◌≡◌, ◌++◌, ◌∷◌, []};
ghost use Rattle.std.specs.List.{flat_map};
ghost use Rattle.pb_text.specs.meaning.Writing.{Writes};
ghost use Rattle.pb_text.specs.contract.Reasons.{hex_of, place_text, reason_of};
ghost use Rattle.pb_tool.specs.contract.Faults.{exit_status, fault_line, prefix_of};

mod rejected;

use crate::fault::rejected::write_step;
use itoa::Buffer;
use pb_replay::Fault;
use pb_text::{Failed, Place, Sink, Stop, Why, write_bytes};
use thiserror::Error;

/// The input that a fault is about.
#[derive(Clone, Copy, Debug, PartialEq, Eq)]
pub enum Input {
    /// The one file of a command.
    File,
    /// The instance that a proof is about.
    Instance,
    /// The proof.
    Proof,
}

/// Why a command failed.
#[derive(Debug, Drop, Error)]
pub enum ToolFault {
    /// The reader stopped at a position of the text.
    #[error("the reader stopped")]
    Text {
        input: Input,
        stop: Stop,
    },
    /// The file could not be opened.
    #[error("a file could not be opened")]
    Open(Input),
    /// A number that belongs to the whole input, and to no position in it, exceeds the limit.
    #[error("a number passes the limit")]
    Overflow(Input),
    /// Memory ran out at no position of the input.
    #[error("memory ran out")]
    Memory(Input),
    /// The output could not be written.
    #[error("the output could not be written")]
    Write,
    /// The statement of the proof that begins at the position was rejected. `name` is the name
    /// without a value if that is the reason, and empty otherwise.
    #[error("a statement was refused")]
    Step {
        place: Place,
        fault: Fault,
        name: String,
    },
}

/// The exit status of a fault. It is 1 if the input was rejected. It is 3 if a file could not be
/// opened, read or written, or memory ran out.
pub fn status(fault: &ToolFault) -> u8
    ensures { result ≡ exit_status fault.now }
{
    match fault {
        ToolFault::Text { stop, .. } => match stop.why {
            Why::Read | Why::Memory => 3,
            _ => 1,
        },
        ToolFault::Overflow(_) => 1,
        ToolFault::Open(_) | ToolFault::Memory(_) | ToolFault::Write => 3,
        ToolFault::Step { fault, .. } => match fault {
            Fault::Memory => 3,
            _ => 1,
        },
    }
}

/// The fault of an input whose text was rejected.
pub(crate) fn text_fault(input: Input, stop: Stop) -> ToolFault
    ensures { result ≡ ToolFault.Text input stop }
{
    ToolFault::Text { stop, input }
}

/// Writes the line of a fault, with its line feed. It fails if the sink fails; a prefix of the line
/// was then written.
pub fn write_fault<S: Sink>(fault: &ToolFault, out: &mut S) -> Result<(), Failed>
    ensures { Writes S.contents S.faults out.old (fault_line fault.now) result out.new }
{
    match fault {
        ToolFault::Text { input, stop } => write_stop(*input, *stop, out),
        ToolFault::Open(input) => write_whole(*input, b"cannot open", out),
        ToolFault::Overflow(input) => write_whole(*input, b"overflow", out),
        ToolFault::Memory(input) => write_whole(*input, b"out of memory", out),
        ToolFault::Write => write_bytes(b"output: write fault\n", out),
        ToolFault::Step { place, fault, name } => write_step(*place, *fault, name.as_str(), out),
    }
}

/// The line of a fault that has no position.
fn write_whole<S: Sink>(input: Input, reason: &'static [u8], out: &mut S) -> Result<(), Failed>
    ensures { Writes S.contents S.faults out.old
        (prefix_of input ++ reason.now ++ 10 ∷ []) result out.new }
{
    write_parts(&[prefix(input), reason, b"\n"], out)
}

/// The line of a fault at a position.
fn write_stop<S: Sink>(input: Input, stop: Stop, out: &mut S) -> Result<(), Failed>
    ensures { Writes S.contents S.faults out.old
        (prefix_of input ++ place_text stop.place ++ reason_of stop.why ++ 10 ∷ [])
        result out.new }
{
    write_place(input, stop.place, out)?;
    write_reason(stop.why, out)?;
    write_bytes(b"\n", out)
}

/// The word for the input at the start of a fault line.
fn prefix(input: Input) -> &'static [u8]
    ensures { result.now ≡ prefix_of input }
{
    match input {
        Input::File => b"file: ",
        Input::Instance => b"instance: ",
        Input::Proof => b"proof: ",
    }
}

/// The start of a fault line: the word for the input and a position in it, through the colon and
/// the space.
pub(crate) fn write_place<S: Sink>(input: Input, place: Place, out: &mut S) -> Result<(), Failed>
    ensures { Writes S.contents S.faults out.old
        (prefix_of input ++ place_text place) result out.new }
{
    let mut line = Buffer::new();
    let mut column = Buffer::new();
    let line = line.format(place.line).as_bytes();
    let column = column.format(place.column).as_bytes();
    write_parts(
        &[prefix(input), b"line ", line, b" column ", column, b": "],
        out,
    )
}

/// Why a reader stopped.
fn write_reason<S: Sink>(why: Why, out: &mut S) -> Result<(), Failed>
    ensures { Writes S.contents S.faults out.old (reason_of why) result out.new }
{
    match why {
        Why::Byte(byte) => write_parts(&[b"byte 0x", &hex(byte)], out),
        Why::TooLarge => write_bytes(b"number too large", out),
        Why::Ended => write_bytes(b"input ended", out),
        Why::TooLong => write_bytes(b"input too long", out),
        Why::Read => write_bytes(b"read fault", out),
        Why::Memory => write_bytes(b"out of memory", out),
    }
}

/// A byte as two hexadecimal digits, in lower case.
fn hex(byte: u8) -> [u8; 2]
    ensures { result ≡ hex_of byte }
{
    let digits = b"0123456789abcdef";
    [digits[byte as usize / 16], digits[byte as usize % 16]]
}

/// Writes texts one after another.
pub(crate) fn write_parts<S: Sink>(parts: &[&[u8]], out: &mut S) -> Result<(), Failed>
    ensures { Writes S.contents S.faults out.old
        (flat_map (λ part. part.now) parts.now) result out.new }
{
    for part in parts {
        write_bytes(part, out)?;
    }
    Ok(())
}
