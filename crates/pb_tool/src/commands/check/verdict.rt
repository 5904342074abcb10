//! The line of a verdict.

ghost use Rattle.std.specs.Prelude.{◌≡◌};
ghost use Rattle.pb_text.specs.meaning.Writing.{Writes};
ghost use Rattle.pb_proof.specs.meaning.Canonical.{bound_bytes};
ghost use Rattle.pb_tool.specs.meaning.Verified.{verdict_line};

use crate::fault::write_parts;
use itoa::Buffer;
use pb_proof::Bound;
use pb_replay::Verdict;
use pb_text::{Failed, Sink, write_bytes};

/// Writes the line of a verdict, with its line feed.
pub(crate) fn write_verdict<S: Sink>(verdict: Verdict, out: &mut S) -> Result<(), Failed>
    ensures { Writes S.contents S.faults out.old (verdict_line verdict) result out.new }
{
    match verdict {
        Verdict::NoClaim => write_bytes(b"verified NONE\n", out),
        Verdict::Unsat => write_bytes(b"verified UNSAT\n", out),
        Verdict::Sat => write_bytes(b"verified SAT\n", out),
        Verdict::Bounds(lower, upper) => write_bounds(lower, upper, out),
    }
}

/// The line of two bounds.
fn write_bounds<S: Sink>(lower: Bound, upper: Bound, out: &mut S) -> Result<(), Failed>
    ensures { Writes S.contents S.faults out.old (verdict_line (Verdict.Bounds lower upper)) result
        out.new }
{
    let mut low = Buffer::new();
    let mut high = Buffer::new();
    let low = bound_text(lower, &mut low);
    let high = bound_text(upper, &mut high);
    write_parts(&[b"verified BOUNDS ", low, b" ", high, b"\n"], out)
}

/// A bound as it appears in a proof: a number, or `INF`.
fn bound_text<'a>(bound: Bound, buffer: &'a mut Buffer) -> &'a [u8]
    ensures { result.now ≡ bound_bytes bound }
{
    match bound {
        Bound::Finite(value) => buffer.format(value).as_bytes(),
        Bound::Infinite => b"INF",
    }
}
