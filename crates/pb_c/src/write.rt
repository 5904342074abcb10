//! Statements from arrays to text, for programs in C.

ghost use Rattle.std.specs.Prelude.{◌≡◌, ◌≢◌, ◌≤◌, IfOk, IfSome, length};
ghost use Rattle.pb_pieces.specs.GivenTokens.{arrays, arrays_of};
ghost use Rattle.pb_c.specs.Event.{event_code};
ghost use Rattle.pb_c.specs.Write.{IsLineOf, Writes};

use crate::options::{Options, WRONG_WORDS};
use crate::page::{Page, Text};
use crate::room::put;
use pb_pieces::{EventKind, MakeFault, TokenArrays, make_statement};
use pb_text::{Failed, Limits};
use std::alloc::Global;

/// The status if a token or the text breaks a rule.
const REJECTED: u8 = 1;

/// The status if memory ran out.
const FAILED: u8 = 3;

/// Puts the canonical text of a statement of a kind into `out`, without a line feed. Its tokens are
/// in four arrays, as `pb_reader_tokens` copies them, and its free text is `text`. The names that
/// the tokens are numbered by are in two arrays, as `pb_instance_names` copies them. If the status
/// is not 0, nothing is put. If it is 1, `wrong` is then the index of the token that breaks a rule.
#[unsafe(no_mangle)]
pub extern "C" fn pb_write_statement(
    alloc: Global,
    kind: u32,
    codes: &[u8],
    names: &[u64],
    lows: &[u64],
    highs: &[i64],
    text: &[u8],
    bytes: &[u8],
    starts: &[u64],
    options: &Options,
    wrong: &mut usize,
    out: &mut [u8],
    out_len: &mut usize,
) -> u8
    ensures writes { result ≡ 0
        → Writes options.now kind
        (arrays codes.now names.now lows.now highs.now bytes.now starts.now)
        text.now out.old out.new out_len.new }
    ensures unwritten { result ≢ 0 → (out.new ≡ out.old) × (out_len.new ≡ 0) }
    ensures within { wrong.new ≤ length codes.now }
    // Only at status 1 a token is at fault.
    ensures whole { result ≢ 1 → wrong.new ≡ length codes.now }
{
    *out_len = 0;
    *wrong = codes.len();
    let asked = match options.asked() {
        Some(asked) => asked,
        None => return WRONG_WORDS,
    };
    let wanted = match kind_asked(kind) {
        Some(wanted) => wanted,
        None => return WRONG_WORDS,
    };
    let arrays = TokenArrays {
        codes,
        names,
        lows,
        highs,
        bytes,
        starts,
    };
    match line_of(alloc, wanted, arrays, text, asked.limits) {
        Ok(line) => {
            *out_len = put(line.as_slice(), out);
            0
        }
        Err(fault) => fail(fault, codes.len(), wrong),
    }
}

/// The canonical text of the statement that the arrays have.
fn line_of(
    alloc: Global,
    kind: EventKind,
    arrays: TokenArrays,
    text: &[u8],
    limits: Limits,
) -> Result<Text, MakeFault>
    ensures { IfOk result (λ line. IsLineOf limits kind (arrays_of arrays.entry) text.now line) }
{
    let statement = make_statement(alloc, kind, arrays, text, limits)?;
    let mut page = Page::new(alloc);
    match statement.write(&mut page) {
        Ok(()) => Ok(page.into_text()),
        Err(Failed) => Err(MakeFault::Memory),
    }
}

/// Sets the index of the token at fault, or the number of tokens, and returns the status of the
/// fault.
fn fail(fault: MakeFault, count: usize, wrong: &mut usize) -> u8
    ensures failed { result ≢ 0 }
    ensures within { wrong.new ≤ count }
    ensures whole { result ≢ 1 → wrong.new ≡ count }
{
    *wrong = count;
    match fault {
        MakeFault::Lengths => WRONG_WORDS,
        MakeFault::Token(index) => {
            *wrong = index.min(count);
            REJECTED
        }
        MakeFault::Memory => FAILED,
    }
}

/// The kind of statement with a number.
fn kind_asked(number: u32) -> Option<EventKind>
    ensures { IfSome result (λ kind. event_code kind ≡ number) }
{
    match number {
        1 => Some(EventKind::Header),
        2 => Some(EventKind::Comment),
        3 => Some(EventKind::Objective),
        4 => Some(EventKind::Constraint),
        16 => Some(EventKind::Proof),
        17 => Some(EventKind::F),
        18 => Some(EventKind::Pol),
        19 => Some(EventKind::Rup),
        20 => Some(EventKind::Soli),
        21 => Some(EventKind::Solx),
        22 => Some(EventKind::Delete),
        23 => Some(EventKind::Output),
        24 => Some(EventKind::NoClaim),
        25 => Some(EventKind::Unsat),
        26 => Some(EventKind::Sat),
        27 => Some(EventKind::Bounds),
        28 => Some(EventKind::End),
        _ => None,
    }
}
