//! An instance as flat arrays, for programs in C.

ghost use Rattle.std.specs.Prelude.{◌≡◌, ◌≢◌, None, length};
ghost use Rattle.pb_c.specs.Arrays.{AnswersName, AnswersPlaces, AnswersRows, AnswersSizes, AnswersTerms, CopiesPlaces, CopiesRows, CopiesTerms, Reads, SizesOf};

use crate::instance_handle::InstanceHandle;
use crate::names::bytes_in;
use crate::options::{Options, WRONG_WORDS};
use crate::report::{INSTANCE, MISUSED, Report, SPENT, why_status};
use crate::room::put;
use pb_pieces::{Flat, Places, Rows, Terms, read_flat};
use pb_text::{BYTE_LIMIT, Over};
use std::alloc::Global;

/// The status if memory ran out.
const FAILED: u8 = 3;

/// The lengths of the arrays of an instance.
#[repr(C)]
#[derive(Clone, Copy)]
pub struct Sizes {
    /// The objective, if there is one, and the constraints.
    pub rows: usize,
    /// The terms of all rows.
    pub terms: usize,
    /// The different names.
    pub names: usize,
    /// The bytes of the different names.
    pub name_bytes: usize,
}

/// Reads an instance, and has the handle own its arrays. What the handle owned before is freed. If
/// the status is not 0, the handle owns nothing, and the report says where and why the instance is
/// rejected.
#[unsafe(no_mangle)]
pub extern "C" fn pb_instance_read(
    alloc: Global,
    text: &[u8],
    options: &Options,
    instance: &mut InstanceHandle,
    report: &mut Report,
) -> u8
    ensures { Reads options.now text.now result instance.new report.new }
{
    drop(instance.take(alloc));
    let asked = match options.asked() {
        Some(asked) => asked,
        None => {
            *report = Report::of_reason(MISUSED);
            return WRONG_WORDS;
        }
    };
    let mut source = Over::new(text);
    let within = asked.longest.unwrap_or(BYTE_LIMIT);
    match read_flat(alloc, asked.keys, &mut source, within, asked.limits) {
        Ok(flat) => match Box::new(alloc, flat) {
            Ok(boxed) => {
                *instance = InstanceHandle::of(boxed);
                *report = Report::of_instance(0);
                0
            }
            Err(_) => {
                *report = Report::of_instance(SPENT);
                FAILED
            }
        },
        Err(stop) => {
            *report = Report::of_stop(INSTANCE, stop);
            why_status(stop.why)
        }
    }
}

/// The lengths of its arrays.
#[unsafe(no_mangle)]
pub extern "C" fn pb_instance_sizes(
    alloc: Global,
    instance: &mut InstanceHandle,
    sizes: &mut Sizes,
) -> u8
    ensures kept { instance.new.value ≡ instance.old.value }
    ensures sizes { AnswersSizes instance.old.value result sizes.old sizes.new }
{
    let flat = match instance.take(alloc) {
        Some(flat) => flat,
        None => return WRONG_WORDS,
    };
    *sizes = sizes_of(&flat);
    *instance = InstanceHandle::of(flat);
    0
}

/// The lengths of arrays.
fn sizes_of(flat: &Flat) -> Sizes
    ensures { SizesOf flat.now result }
{
    Sizes {
        rows: flat.rows.kinds.len(),
        terms: flat.named.terms.numbers.len(),
        names: flat.named.names.len(),
        name_bytes: bytes_in(&flat.named.names),
    }
}

/// Copies the arrays of the terms. Each array has to have as many elements as there are terms.
/// Otherwise the status is 2, and nothing is written.
#[unsafe(no_mangle)]
pub extern "C" fn pb_instance_terms(
    alloc: Global,
    instance: &mut InstanceHandle,
    numbers: &mut [u64],
    negated: &mut [u8],
    lows: &mut [u64],
    highs: &mut [i64],
) -> u8
    ensures kept { instance.new.value ≡ instance.old.value }
    ensures terms { AnswersTerms instance.old.value result numbers.new negated.new lows.new
        highs.new }
    ensures unwritten { result ≢ 0 → (numbers.new ≡ numbers.old) × (negated.new ≡ negated.old) ×
        (lows.new ≡ lows.old) × (highs.new ≡ highs.old) }
{
    let flat = match instance.take(alloc) {
        Some(flat) => flat,
        None => return WRONG_WORDS,
    };
    let status = copy_terms(&flat.named.terms, numbers, negated, lows, highs);
    *instance = InstanceHandle::of(flat);
    status
}

fn copy_terms(
    terms: &Terms,
    numbers: &mut [u64],
    negated: &mut [u8],
    lows: &mut [u64],
    highs: &mut [i64],
) -> u8
    ensures copies { CopiesTerms terms.now result numbers.new negated.new lows.new highs.new }
    ensures unwritten { result ≢ 0 → (numbers.new ≡ numbers.old) × (negated.new ≡ negated.old) ×
        (lows.new ≡ lows.old) × (highs.new ≡ highs.old) }
{
    if numbers.len() != terms.numbers.len()
        || negated.len() != terms.negated.len()
        || lows.len() != terms.lows.len()
        || highs.len() != terms.highs.len()
    {
        return WRONG_WORDS;
    }
    numbers.copy_from_slice(terms.numbers.as_slice());
    negated.copy_from_slice(terms.negated.as_slice());
    lows.copy_from_slice(terms.lows.as_slice());
    highs.copy_from_slice(terms.highs.as_slice());
    0
}

/// Copies the arrays of the rows, the objective if there is one and then the constraints. Each
/// array has to have as many elements as there are rows. Otherwise the status is 2, and nothing is
/// written.
#[unsafe(no_mangle)]
pub extern "C" fn pb_instance_rows(
    alloc: Global,
    instance: &mut InstanceHandle,
    kinds: &mut [u8],
    ends: &mut [u64],
    lows: &mut [u64],
    highs: &mut [i64],
) -> u8
    ensures kept { instance.new.value ≡ instance.old.value }
    ensures rows { AnswersRows instance.old.value result kinds.new ends.new lows.new highs.new }
    ensures unwritten { result ≢ 0 → (kinds.new ≡ kinds.old) × (ends.new ≡ ends.old) ×
        (lows.new ≡ lows.old) × (highs.new ≡ highs.old) }
{
    let flat = match instance.take(alloc) {
        Some(flat) => flat,
        None => return WRONG_WORDS,
    };
    let status = copy_rows(&flat.rows, kinds, ends, lows, highs);
    *instance = InstanceHandle::of(flat);
    status
}

fn copy_rows(
    rows: &Rows,
    kinds: &mut [u8],
    ends: &mut [u64],
    lows: &mut [u64],
    highs: &mut [i64],
) -> u8
    ensures copies { CopiesRows rows.now result kinds.new ends.new lows.new highs.new }
    ensures unwritten { result ≢ 0 → (kinds.new ≡ kinds.old) × (ends.new ≡ ends.old) ×
        (lows.new ≡ lows.old) × (highs.new ≡ highs.old) }
{
    if kinds.len() != rows.kinds.len()
        || ends.len() != rows.ends.len()
        || lows.len() != rows.lows.len()
        || highs.len() != rows.highs.len()
    {
        return WRONG_WORDS;
    }
    kinds.copy_from_slice(rows.kinds.as_slice());
    ends.copy_from_slice(rows.ends.as_slice());
    lows.copy_from_slice(rows.lows.as_slice());
    highs.copy_from_slice(rows.highs.as_slice());
    0
}

/// Copies the positions of the rows: the line, the column and the offset of the first byte, and the
/// offset past the last one. Each array has to have as many elements as there are rows. Otherwise
/// the status is 2, and nothing is written.
#[unsafe(no_mangle)]
pub extern "C" fn pb_instance_places(
    alloc: Global,
    instance: &mut InstanceHandle,
    lines: &mut [u64],
    columns: &mut [u64],
    firsts: &mut [u64],
    pasts: &mut [u64],
) -> u8
    ensures kept { instance.new.value ≡ instance.old.value }
    ensures places { AnswersPlaces instance.old.value result lines.new columns.new firsts.new
        pasts.new }
    ensures unwritten { result ≢ 0 → (lines.new ≡ lines.old) × (columns.new ≡ columns.old) ×
        (firsts.new ≡ firsts.old) × (pasts.new ≡ pasts.old) }
{
    let flat = match instance.take(alloc) {
        Some(flat) => flat,
        None => return WRONG_WORDS,
    };
    let status = copy_places(&flat.places, lines, columns, firsts, pasts);
    *instance = InstanceHandle::of(flat);
    status
}

fn copy_places(
    places: &Places,
    lines: &mut [u64],
    columns: &mut [u64],
    firsts: &mut [u64],
    pasts: &mut [u64],
) -> u8
    ensures copies { CopiesPlaces places.now result lines.new columns.new firsts.new pasts.new }
    ensures unwritten { result ≢ 0 → (lines.new ≡ lines.old) × (columns.new ≡ columns.old) ×
        (firsts.new ≡ firsts.old) × (pasts.new ≡ pasts.old) }
{
    if lines.len() != places.lines.len()
        || columns.len() != places.columns.len()
        || firsts.len() != places.firsts.len()
        || pasts.len() != places.pasts.len()
    {
        return WRONG_WORDS;
    }
    lines.copy_from_slice(places.lines.as_slice());
    columns.copy_from_slice(places.columns.as_slice());
    firsts.copy_from_slice(places.firsts.as_slice());
    pasts.copy_from_slice(places.pasts.as_slice());
    0
}

/// Puts the name with this number into the room.
#[unsafe(no_mangle)]
pub extern "C" fn pb_instance_name(
    alloc: Global,
    instance: &mut InstanceHandle,
    number: usize,
    out: &mut [u8],
    out_len: &mut usize,
) -> u8
    ensures kept { instance.new.value ≡ instance.old.value }
    ensures name { AnswersName instance.old.value number out.old result out.new out_len.new }
{
    let flat = match instance.take(alloc) {
        Some(flat) => flat,
        None => {
            *out_len = put(b"", out);
            return WRONG_WORDS;
        }
    };
    let status = match flat.named.names.name_of(number) {
        Some(name) => {
            *out_len = put(name.as_bytes(), out);
            0
        }
        None => {
            *out_len = put(b"", out);
            WRONG_WORDS
        }
    };
    *instance = InstanceHandle::of(flat);
    status
}

/// Frees what the handle owns.
#[unsafe(no_mangle)]
pub extern "C" fn pb_instance_close(alloc: Global, instance: &mut InstanceHandle)
    ensures { instance.new.value ≡ None }
{
    drop(instance.take(alloc));
}
