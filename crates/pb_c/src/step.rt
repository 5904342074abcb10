//! A check of a proof statement by statement, for programs in C.

ghost use Rattle.std.specs.Prelude.{◌≡◌, ◌<◌, ◌++◌, ℕ, List, true};
ghost use Rattle.pb_text.specs.declared.Limits.{Limits as SomeLimits};
ghost use Rattle.pb_tool.specs.contract.Pieces.{bytes_to};
ghost use Rattle.pb_pieces.specs.Session.{IsSession};
ghost use Rattle.pb_c.specs.Checker.{Answers, AnswersFor, IsCheckerFor, Uses, UsesOf};
ghost use Rattle.pb_c.specs.Step.{AnswersState, Counts, CountsOf};
ghost use Rattle.pb_c.specs.declared.options.Options.{Options as SomeOptions};

use crate::handle::CheckerHandle;
use crate::options::WRONG_WORDS;
use crate::report::{MISUSED, Report, fault_status};
use pb_pieces::Session;
use std::alloc::Global;

/// How far a check has come.
#[repr(C)]
#[derive(Clone, Copy)]
pub struct State {
    /// How many statements were accepted.
    pub accepted: u64,
    /// The newest id of a constraint, or 0 if there is none.
    pub newest: u64,
    /// The visits of the last `rup`, or 0 if there was none.
    pub visits: u64,
}

/// Takes a piece of the proof up to the end of the next statement, which is checked. `used` is then
/// how many of its bytes belong to the proof, and `ended` whether a statement ended there and was
/// accepted. If none did, it took the whole piece. If the status is not 0, the report says where
/// and why the proof is rejected, and each later call reports the same.
#[unsafe(no_mangle)]
pub extern "C" fn pb_checker_step(
    alloc: Global,
    checker: &mut CheckerHandle,
    piece: &[u8],
    used: &mut usize,
    ended: &mut bool,
    report: &mut Report,
) -> u8
    // A checker for an instance and a text of a proof is then one for that text followed by the
    // bytes that it took.
    ensures fed { (options : SomeOptions) (i fed : List ℕ) → IsCheckerFor options i fed checker.old
        → IsCheckerFor options i (fed ++ bytes_to ended.new used.new piece.now) checker.new }
    // The status and the report are those of the first fault in that text, if there is one.
    ensures answers { Answers checker.new result report.new }
    ensures used { UsesOf checker.old.value checker.new.value piece.now result used.new }
    ensures onward { ended.new ≡ true → 0 < used.new }
    // One more statement was accepted if one has ended, and else none.
    ensures counts { (options : SomeOptions) (i fed : List ℕ) →
        IsCheckerFor options i fed checker.old
        → CountsOf checker.old.value checker.new.value ended.new }
{
    let mut session = match checker.take(alloc) {
        Some(session) => session,
        None => {
            *used = 0;
            *ended = false;
            *report = Report::of_reason(MISUSED);
            return WRONG_WORDS;
        }
    };
    let status = step_session(&mut session, piece, used, ended, report);
    *checker = CheckerHandle::of(session);
    status
}

/// Steps a session, and reports its fault or its position.
fn step_session(
    session: &mut Session,
    piece: &[u8],
    used: &mut usize,
    ended: &mut bool,
    report: &mut Report,
) -> u8
    ensures fed { (limits : SomeLimits) (longest : ℕ) (i fed : List ℕ) →
        IsSession limits longest i fed session.old
        → IsSession limits longest i (fed ++ bytes_to ended.new used.new piece.now) session.new }
    ensures answers { AnswersFor session.new session.new.fault result report.new }
    ensures used { Uses session.old session.new piece.now result used.new }
    ensures onward { ended.new ≡ true → 0 < used.new }
    ensures counts { (limits : SomeLimits) (longest : ℕ) (i fed : List ℕ) →
        IsSession limits longest i fed session.old
        → Counts session.old session.new ended.new }
{
    match session.step(piece) {
        Ok(went) => {
            *used = went.used;
            *ended = went.accepted;
            *report = Report::of_place(session.place());
            0
        }
        Err(fault) => {
            *used = 0;
            *ended = false;
            *report = Report::of_fault(fault);
            fault_status(fault)
        }
    }
}

/// How many statements were accepted, the newest id and the visits of the last `rup`.
#[unsafe(no_mangle)]
pub extern "C" fn pb_checker_state(
    alloc: Global,
    checker: &mut CheckerHandle,
    state: &mut State,
) -> u8
    ensures kept { checker.new.value ≡ checker.old.value }
    ensures state { AnswersState checker.old.value result state.old state.new }
{
    let session = match checker.take(alloc) {
        Some(session) => session,
        None => return WRONG_WORDS,
    };
    *state = State {
        accepted: session.accepted(),
        newest: session.newest(),
        visits: session.visits(),
    };
    *checker = CheckerHandle::of(session);
    0
}
