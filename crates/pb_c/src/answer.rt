//! What the tool returns for texts in memory: a text and a status.

ghost use Rattle.std.specs.Prelude.{◌≡◌, ◌<◌, ◌^◌, IfSome, unwrap_or};
ghost use Rattle.pb_c.specs.Answers.{AnswerOfCheck, AnswerOfShow, AnswerOfTidy, EndsIn};
ghost use Rattle.pb_c.specs.declared.page.Page.{Page as APage};

use crate::options::Asked;
use crate::page::{Page, Text};
use pb_text::{Failed, Over};
use pb_tool::{ToolFault, check_with_hasher, show, status, tidy_with_hasher, write_fault};
use std::alloc::Global;

/// The status of a fault whose line could not be stored, the same as if memory ran out.
const FAILED: u8 = 3;

/// What a call returns.
#[derive(Drop)]
pub(crate) struct Answer {
    text: Text,
    status: u8,
}

impl Answer {
    pub(crate) fn into_parts(self) -> (Text, u8)
        ensures text { result.0 ≡ self.text }
        ensures status { result.1 ≡ self.status }
    {
        (self.text, self.status)
    }
}

/// The line and the status of `pb check` on two texts.
pub(crate) fn checked(alloc: Global, instance: &[u8], proof: &[u8], asked: Asked) -> Answer
    requires { IfSome asked.longest (λ n. 0 < n) }
    ensures { AnswerOfCheck asked.limits (unwrap_or asked.longest (2 ^ 40)) instance.now proof.now
        result.text result.status }
{
    let (mut instance, mut proof) = (Over::new(instance), Over::new(proof));
    let mut page = Page::new(alloc);
    match check_with_hasher(
        alloc,
        asked.keys,
        &mut instance,
        &mut proof,
        &mut page,
        asked.longest,
        asked.limits,
    ) {
        Ok(_) => Answer {
            text: page.into_text(),
            status: 0,
        },
        Err(fault) => fault_answer(Page::new(alloc), &fault),
    }
}

/// What `pb tidy` writes for a text, or the line of its fault; and its status.
pub(crate) fn tidied(alloc: Global, text: &[u8], normal: bool, asked: Asked) -> Answer
    requires { IfSome asked.longest (λ n. 0 < n) }
    ensures { AnswerOfTidy asked.limits (unwrap_or asked.longest (2 ^ 40)) normal text.now
        result.text result.status }
{
    let mut input = Over::new(text);
    let mut page = Page::new(alloc);
    match tidy_with_hasher(
        alloc,
        asked.keys,
        &mut input,
        normal,
        &mut page,
        asked.longest,
        asked.limits,
    ) {
        Ok(()) => Answer {
            text: page.into_text(),
            status: 0,
        },
        Err(fault) => fault_answer(Page::new(alloc), &fault),
    }
}

/// What `pb show` writes for a text, followed by the line of a fault if there is one; and its
/// status.
pub(crate) fn shown(alloc: Global, text: &[u8], asked: Asked) -> Answer
    requires { IfSome asked.longest (λ n. 0 < n) }
    ensures { AnswerOfShow asked.limits (unwrap_or asked.longest (2 ^ 40)) text.now result.text
        result.status }
{
    let mut input = Over::new(text);
    let mut page = Page::new(alloc);
    match show(alloc, &mut input, &mut page, asked.longest, asked.limits) {
        Ok(()) => Answer {
            text: page.into_text(),
            status: 0,
        },
        Err(fault) => fault_answer(page, &fault),
    }
}

/// The text of a page, followed by the line of a fault, and the status of the fault. If memory runs
/// out, a prefix of the line follows, and the status says so.
fn fault_answer(mut page: Page, fault: &ToolFault) -> Answer
    ensures { (after : APage) × EndsIn page fault.now after result.status ×
        (result.text ≡ after.text) }
{
    let status = write_end(&mut page, fault);
    Answer {
        text: page.into_text(),
        status,
    }
}

/// Writes the line of a fault to a page. Returns the status of the fault, or that memory ran out
/// for its line.
fn write_end(page: &mut Page, fault: &ToolFault) -> u8
    ensures { EndsIn page.old fault.now page.new result }
{
    match write_fault(fault, page) {
        Ok(()) => status(fault),
        Err(Failed) => FAILED,
    }
}
