//! A reader in pieces, for programs in C.

ghost use Rattle.std.specs.Prelude.{◌≡◌, ◌≢◌, ℕ, List, None};
ghost use Rattle.pb_text.specs.declared.Limits.{Limits as SomeLimits};
ghost use Rattle.pb_pieces.specs.Given.{Given};
ghost use Rattle.pb_pieces.specs.declared.reader.Format.{Format as AFormat};
ghost use Rattle.pb_c.specs.Event.{no_event};
ghost use Rattle.pb_c.specs.Reader.{AnswersName, AnswersText, AnswersTokens, Answers, AnswersFor, CopiesTokens, EndsFor, EndsWith, FeedsFor, FeedsWith, Opens, Uses, UsesOf, format_asked, input_of, report_of_reader};
ghost use Rattle.pb_c.specs.declared.options.Options.{Options as SomeOptions};

use crate::event::Statement;
use crate::options::{Options, WRONG_WORDS};
use crate::reader_handle::ReaderHandle;
use crate::report::{INSTANCE, MISUSED, PROOF, Report, SPENT, why_status};
use crate::room::put;
use pb_pieces::{Format, Reader, Tokens};
use std::alloc::Global;

/// The status if memory ran out.
const FAILED: u8 = 3;

/// Has the handle own a reader of texts of the format: 1 for instances, 2 for proofs. What the
/// handle owned before is freed. If the status is not 0, the handle owns nothing.
#[unsafe(no_mangle)]
pub extern "C" fn pb_reader_open(
    alloc: Global,
    format: u32,
    options: &Options,
    reader: &mut ReaderHandle,
    report: &mut Report,
) -> u8
    ensures opens { Opens format options.now result reader.new report.new }
    // The report of a new reader has the position of the first byte.
    ensures answers { result ≡ 0 → Answers reader.new result report.new }
{
    drop(reader.take(alloc));
    let asked = match options.asked() {
        Some(asked) => asked,
        None => {
            *report = Report::of_reason(MISUSED);
            return WRONG_WORDS;
        }
    };
    let wanted = match format_asked(format) {
        Some(wanted) => wanted,
        None => {
            *report = Report::of_reason(MISUSED);
            return WRONG_WORDS;
        }
    };
    let opened = Reader::open(alloc, asked.keys, wanted, asked.longest, asked.limits);
    match Box::new(alloc, opened) {
        Ok(boxed) => {
            *report = report_of_reader(&boxed);
            *reader = ReaderHandle::of(boxed);
            0
        }
        Err(_) => {
            *report = Report::of_reason(SPENT);
            FAILED
        }
    }
}

/// The format with a number.
fn format_asked(number: u32) -> Option<Format>
    ensures { result ≡ format_asked number }
{
    match number {
        1 => Some(Format::Instance),
        2 => Some(Format::Proof),
        _ => None,
    }
}

/// The text that a reader reads.
fn input_of(reader: &Reader) -> u32
    ensures { result ≡ input_of reader.now }
{
    match reader {
        Reader::Instance(_) => INSTANCE,
        Reader::Proof(_) => PROOF,
    }
}

/// The position of the next byte.
fn report_of_reader(reader: &Reader) -> Report
    ensures { result ≡ report_of_reader reader.now }
{
    Report::of_text(input_of(reader), reader.place())
}

/// Takes a piece of the text, cut anywhere, through the end of the next statement. `used` is then
/// how many bytes it took, and `event` the statement that ends there, if any. If the status is not
/// 0, the report says where and why the text is rejected, and each later call reports the same.
#[unsafe(no_mangle)]
pub extern "C" fn pb_reader_feed(
    alloc: Global,
    reader: &mut ReaderHandle,
    piece: &[u8],
    used: &mut usize,
    event: &mut Statement,
    report: &mut Report,
) -> u8
    ensures feeds { (f : AFormat) (options : SomeOptions) (fed : List ℕ) (events : List Given)
        → FeedsFor f options fed events piece.now reader.old result used.new event.new reader.new }
    // The status and the report are those of the first fault, if there is one.
    ensures answers { Answers reader.new result report.new }
    ensures used { UsesOf reader.old.value reader.new.value piece.now result used.new }
    ensures unread { result ≢ 0 → event.new ≡ no_event }
{
    let mut inner = match reader.take(alloc) {
        Some(inner) => inner,
        None => {
            *used = 0;
            *event = Statement::none();
            *report = Report::of_reason(MISUSED);
            return WRONG_WORDS;
        }
    };
    let status = feed_reader(&mut inner, piece, used, event, report);
    *reader = ReaderHandle::of(inner);
    status
}

/// Feeds a reader, and reports its fault or its position.
fn feed_reader(
    reader: &mut Reader,
    piece: &[u8],
    used: &mut usize,
    event: &mut Statement,
    report: &mut Report,
) -> u8
    ensures feeds { (f : AFormat) (limits : SomeLimits) (longest : ℕ) (fed : List ℕ)
        (events : List Given)
        → FeedsWith f limits longest fed events piece.now reader.old result used.new event.new
        reader.new }
    ensures answers { AnswersFor reader.new result report.new }
    ensures used { Uses reader.old reader.new piece.now result used.new }
    ensures unread { result ≢ 0 → event.new ≡ no_event }
{
    match reader.feed(piece) {
        Ok(taken) => {
            *used = taken.used;
            *event = match taken.event {
                Some(given) => {
                    Statement::of(
                        given,
                        reader.tokens().tokens.codes.len(),
                        reader.text().len(),
                    )
                }
                None => Statement::none(),
            };
            *report = report_of_reader(reader);
            0
        }
        Err(stop) => {
            *used = 0;
            *event = Statement::none();
            *report = Report::of_stop(input_of(reader), stop);
            why_status(stop.why)
        }
    }
}

/// Whether the text may end with the pieces so far.
#[unsafe(no_mangle)]
pub extern "C" fn pb_reader_finish(
    alloc: Global,
    reader: &mut ReaderHandle,
    report: &mut Report,
) -> u8
    ensures ends { (f : AFormat) (options : SomeOptions) (fed : List ℕ) (events : List Given)
        → EndsFor f options fed events reader.old reader.new }
    ensures answers { Answers reader.new result report.new }
    // If the text may end, nothing changes.
    ensures kept { result ≡ 0 → reader.new.value ≡ reader.old.value }
{
    let mut inner = match reader.take(alloc) {
        Some(inner) => inner,
        None => {
            *report = Report::of_reason(MISUSED);
            return WRONG_WORDS;
        }
    };
    let status = finish_reader(&mut inner, report);
    *reader = ReaderHandle::of(inner);
    status
}

/// Finishes a reader, and reports its fault or its position.
fn finish_reader(reader: &mut Reader, report: &mut Report) -> u8
    ensures ends { (f : AFormat) (limits : SomeLimits) (longest : ℕ) (fed : List ℕ)
        (events : List Given)
        → EndsWith f limits longest fed events reader.old reader.new }
    ensures answers { AnswersFor reader.new result report.new }
    ensures kept { result ≡ 0 → reader.new ≡ reader.old }
{
    match reader.finish() {
        Ok(()) => {
            *report = report_of_reader(reader);
            0
        }
        Err(stop) => {
            *report = Report::of_stop(input_of(reader), stop);
            why_status(stop.why)
        }
    }
}

/// Copies the tokens of the last statement. Each array has to have as many elements as there are
/// tokens. Otherwise the status is 2, and nothing is written.
#[unsafe(no_mangle)]
pub extern "C" fn pb_reader_tokens(
    alloc: Global,
    reader: &mut ReaderHandle,
    codes: &mut [u8],
    names: &mut [u64],
    lows: &mut [u64],
    highs: &mut [i64],
) -> u8
    ensures kept { reader.new.value ≡ reader.old.value }
    ensures tokens { AnswersTokens reader.old.value result codes.old names.old lows.old highs.old
        codes.new names.new lows.new highs.new }
{
    let inner = match reader.take(alloc) {
        Some(inner) => inner,
        None => return WRONG_WORDS,
    };
    let status = copy_tokens(&inner.tokens().tokens, codes, names, lows, highs);
    *reader = ReaderHandle::of(inner);
    status
}

fn copy_tokens(
    tokens: &Tokens,
    codes: &mut [u8],
    names: &mut [u64],
    lows: &mut [u64],
    highs: &mut [i64],
) -> u8
    ensures { CopiesTokens tokens.now result codes.old names.old lows.old highs.old codes.new
        names.new lows.new highs.new }
{
    if codes.len() != tokens.codes.len()
        || names.len() != tokens.names.len()
        || lows.len() != tokens.lows.len()
        || highs.len() != tokens.highs.len()
    {
        return WRONG_WORDS;
    }
    codes.copy_from_slice(tokens.codes.as_slice());
    names.copy_from_slice(tokens.names.as_slice());
    lows.copy_from_slice(tokens.lows.as_slice());
    highs.copy_from_slice(tokens.highs.as_slice());
    0
}

/// Puts the free text of the last statement into the buffer.
#[unsafe(no_mangle)]
pub extern "C" fn pb_reader_bytes(
    alloc: Global,
    reader: &mut ReaderHandle,
    out: &mut [u8],
    out_len: &mut usize,
) -> u8
    ensures kept { reader.new.value ≡ reader.old.value }
    ensures text { AnswersText reader.old.value out.old result out.new out_len.new }
{
    let inner = match reader.take(alloc) {
        Some(inner) => inner,
        None => {
            *out_len = put(b"", out);
            return WRONG_WORDS;
        }
    };
    *out_len = put(inner.text(), out);
    *reader = ReaderHandle::of(inner);
    0
}

/// Puts the name with this number into the buffer.
#[unsafe(no_mangle)]
pub extern "C" fn pb_reader_name(
    alloc: Global,
    reader: &mut ReaderHandle,
    number: usize,
    out: &mut [u8],
    out_len: &mut usize,
) -> u8
    ensures kept { reader.new.value ≡ reader.old.value }
    ensures name { AnswersName reader.old.value number out.old result out.new out_len.new }
{
    let inner = match reader.take(alloc) {
        Some(inner) => inner,
        None => {
            *out_len = put(b"", out);
            return WRONG_WORDS;
        }
    };
    let status = match inner.tokens().names.name_of(number) {
        Some(name) => {
            *out_len = put(name.as_bytes(), out);
            0
        }
        None => {
            *out_len = put(b"", out);
            WRONG_WORDS
        }
    };
    *reader = ReaderHandle::of(inner);
    status
}

/// Frees what the handle owns.
#[unsafe(no_mangle)]
pub extern "C" fn pb_reader_close(alloc: Global, reader: &mut ReaderHandle)
    ensures { reader.new.value ≡ None }
{
    drop(reader.take(alloc));
}
