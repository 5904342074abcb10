//! `pb show` and `pb tidy` over a reader.

ghost use Rattle.std.specs.Prelude.{IfSome, ◌<◌};

use crate::output::{flushed, keys_of, read_buffer, write_buffer};
use crate::tied::{Shared, Tied};
use crate::until::UntilFault;
use crate::visible::Visible;
use pb_text::{Limits, Over};
use pb_tool::{Input, ToolFault, show, tidy_with_hasher};
use std::alloc::Global;
use std::cell::RefCell;
use std::io::{self, Read, Write};
use std::random::RandomSource;

/// Shows the input of a reader. What was written is flushed before more is read. On a terminal
/// control bytes are made visible.
pub(crate) fn show_over<I: Read + Drop, O: Write + Drop>(
    alloc: Global,
    input: I,
    out: O,
    on_terminal: bool,
    longest: Option<u64>,
    limits: Limits,
) -> Result<(), ToolFault>
    requires { IfSome longest (λ n. 0 < n) }
{
    let out = Visible::new(UntilFault::new(out), on_terminal);
    let out = RefCell::new(write_buffer(alloc, out, Input::File)?);
    let input = read_buffer(alloc, Tied::new(input, &out), Input::File)?;
    let done = show(
        alloc,
        &mut Over::new(input),
        &mut Over::new(Shared::new(&out)),
        longest,
        limits,
    );
    flushed(done, &mut out.into_inner())
}

/// Tidies the input of a reader. On a terminal control bytes are made visible.
pub(crate) fn tidy_over<R: Print + RandomSource + AllocGlobal, I: Read + Drop>(
    rt: &R,
    input: I,
    on_terminal: bool,
    normal: bool,
    longest: Option<u64>,
    limits: Limits,
) -> Result<(), ToolFault>
    requires { IfSome longest (λ n. 0 < n) }
{
    let out = Visible::new(UntilFault::new(io::writer(rt)), on_terminal);
    let mut out = write_buffer(rt.alloc(), out, Input::File)?;
    let input = read_buffer(rt.alloc(), input, Input::File)?;
    let done = tidy_with_hasher(
        rt.alloc(),
        keys_of(rt),
        &mut Over::new(input),
        normal,
        &mut Over::new(&mut out),
        longest,
        limits,
    );
    flushed(done, &mut out)
}
