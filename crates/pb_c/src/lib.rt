//! The library for programs in C and for languages that call C. `include/pb.h` declares its
//! functions.
#![tactic(auto)]

mod answer;
mod arrays;
mod checker;
mod claim;
mod constraint;
mod event;
mod handle;
mod instance_handle;
mod names;
mod options;
mod page;
mod reader;
mod reader_handle;
mod report;
mod room;
mod step;
mod write;

ghost use Rattle.std.specs.Prelude.{◌≡◌, codes};
ghost use Rattle.pb_c.specs.Answers.{AnswersCheck, AnswersShow, AnswersTidy};
ghost use Rattle.pb_c.specs.Unsat.{ShowsTruth, ShowsUnsat};

use crate::answer::{checked, shown, tidied};
use crate::options::{BAD_OPTIONS, WRONG_WORDS};
use crate::room::put;
pub use arrays::Sizes;
pub use claim::Claim;
pub use constraint::Number;
pub use event::Statement;
pub use handle::CheckerHandle;
pub use instance_handle::InstanceHandle;
pub use options::Options;
use pb_tool::laws::check::verified_is_true;
pub use reader_handle::ReaderHandle;
pub use report::{Position, Report};
use std::alloc::Global;
pub use step::State;

/// The version: three numbers, as millions, thousands and units.
const VERSION: u32 = 1_000;

/// The version of the library, which a program can compare with that of the header.
#[unsafe(no_mangle)]
pub extern "C" fn pb_version() -> u32
    ensures { result ≡ VERSION }
{
    VERSION
}

/// Checks a proof of an instance, and puts the line that `pb check` prints into `line`. With status
/// 0 it is the verdict, and otherwise the reason why there is none.
#[unsafe(no_mangle)]
pub extern "C" fn pb_check(
    alloc: Global,
    instance: &[u8],
    proof: &[u8],
    options: &Options,
    line: &mut [u8],
    line_len: &mut usize,
) -> u8
    ensures answers { AnswersCheck options.now instance.now proof.now line.old result line.new
        line_len.new }
    // The verdict of the line holds for the instance.
    ensures truth { ShowsTruth options.now instance.now line.old result line.new line_len.new }
    // If the line is `verified UNSAT`, the instance has no solution.
    ensures unsat { ShowsUnsat options.now instance.now result line.new line_len.new }
{
    verified_is_true();
    check_into(alloc, instance, proof, options, line, line_len)
}

/// The same, without the meaning of the line.
fn check_into(
    alloc: Global,
    instance: &[u8],
    proof: &[u8],
    options: &Options,
    line: &mut [u8],
    line_len: &mut usize,
) -> u8
    ensures { AnswersCheck options.now instance.now proof.now line.old result line.new
        line_len.new }
{
    let (text, status) = match options.asked() {
        Some(asked) => checked(alloc, instance, proof, asked).into_parts(),
        None => {
            *line_len = put(BAD_OPTIONS, line);
            return WRONG_WORDS;
        }
    };
    *line_len = put(text.as_slice(), line);
    status
}

/// Puts the canonical text of `text` into `out`, as `pb tidy` prints it. With `normal` it is the
/// normal form of an instance. If the status is not 0, it puts the line of the fault there.
#[unsafe(no_mangle)]
pub extern "C" fn pb_tidy(
    alloc: Global,
    text: &[u8],
    normal: bool,
    options: &Options,
    out: &mut [u8],
    out_len: &mut usize,
) -> u8
    ensures { AnswersTidy options.now normal text.now out.old result out.new out_len.new }
{
    let (text, status) = match options.asked() {
        Some(asked) => tidied(alloc, text, normal, asked).into_parts(),
        None => {
            *out_len = put(BAD_OPTIONS, out);
            return WRONG_WORDS;
        }
    };
    *out_len = put(text.as_slice(), out);
    status
}

/// Puts the statements of a text into `out`, each with its position, as `pb show` prints them. If
/// the status is not 0, the line of the fault follows the statements that were read.
#[unsafe(no_mangle)]
pub extern "C" fn pb_show(
    alloc: Global,
    text: &[u8],
    options: &Options,
    out: &mut [u8],
    out_len: &mut usize,
) -> u8
    ensures { AnswersShow options.now text.now out.old result out.new out_len.new }
{
    let (text, status) = match options.asked() {
        Some(asked) => shown(alloc, text, asked).into_parts(),
        None => {
            *out_len = put(BAD_OPTIONS, out);
            return WRONG_WORDS;
        }
    };
    *out_len = put(text.as_slice(), out);
    status
}
