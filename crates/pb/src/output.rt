//! What the commands share: their buffers, the flush at the end, and the keys of the hashes.

use pb_normal::HashKeys;
use pb_tool::{Input, ToolFault};
use std::alloc::Global;
use std::hash::RandomState;
use std::io::{BufReader, BufWriter, Read, Write};
use std::random::RandomSource;

/// The size of each buffer, in bytes.
const CAPACITY: usize = 1 << 16;

/// A buffer over the reader of an input.
pub(crate) fn read_buffer<I: Read + Drop>(
    alloc: Global,
    reader: I,
    input: Input,
) -> Result<BufReader<I>, ToolFault> {
    match BufReader::with_capacity(alloc, CAPACITY, reader) {
        Ok(reader) => Ok(reader),
        Err(_) => Err(ToolFault::Memory(input)),
    }
}

/// A buffer over a writer. If there is no memory for it, the fault names the input.
pub(crate) fn write_buffer<O: Write + Drop>(
    alloc: Global,
    writer: O,
    input: Input,
) -> Result<BufWriter<O>, ToolFault> {
    match BufWriter::with_capacity(alloc, CAPACITY, writer) {
        Ok(writer) => Ok(writer),
        Err(_) => Err(ToolFault::Memory(input)),
    }
}

/// The result without its value.
pub(crate) fn unit_of<T: Drop>(done: Result<T, ToolFault>) -> Result<(), ToolFault> {
    let _value = done?;
    Ok(())
}

/// Flushes what was written before a fault, and then returns the fault.
pub(crate) fn flushed<O: Write>(done: Result<(), ToolFault>, out: &mut O) -> Result<(), ToolFault> {
    match out.flush() {
        Ok(()) => done,
        Err(_) => Err(ToolFault::Write),
    }
}

/// The keys by which names are hashed. They are random, as names come from untrusted files. If the
/// system gives no random keys, which no file can cause, they are fixed.
pub(crate) fn keys_of<R: RandomSource>(rt: &R) -> HashKeys {
    match RandomState::new(rt) {
        Ok(state) => HashKeys::Random(state),
        Err(_) => HashKeys::Fixed,
    }
}
