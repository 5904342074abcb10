//! A check of a proof in pieces, for programs in C.

ghost use Rattle.std.specs.Prelude.{◌≡◌, ◌≢◌, ◌++◌, ℕ, List, None};
ghost use Rattle.pb_pieces.specs.Session.{IsSession};
ghost use Rattle.pb_text.specs.declared.Limits.{Limits as SomeLimits};
ghost use Rattle.pb_c.specs.Checker.{Answers, AnswersFor, AnswersHeld, AnswersName, AnswersPlace, ClaimsUnsat, Concludes, IsCheckerFor, IsClaimFor, Opens, Uses, UsesOf};
ghost use Rattle.pb_c.specs.declared.options.Options.{Options as SomeOptions};

use crate::claim::Claim;
use crate::handle::CheckerHandle;
use crate::options::{Options, WRONG_WORDS};
use crate::report::{MISUSED, Position, Report, SPENT, fault_status, opening_status};
use crate::room::put;
use pb_pieces::Session;
use std::alloc::Global;

/// The status if memory ran out.
const FAILED: u8 = 3;

/// Reads an instance, and has the handle own a session for proofs of it. What the handle owned
/// before is freed. If the status is not 0, the handle owns nothing, and the report says where and
/// why the instance is rejected.
#[unsafe(no_mangle)]
pub extern "C" fn pb_checker_open(
    alloc: Global,
    instance: &[u8],
    options: &Options,
    checker: &mut CheckerHandle,
    report: &mut Report,
) -> u8
    ensures { Opens options.now instance.now result checker.new report.new }
{
    drop(checker.take(alloc));
    let asked = match options.asked() {
        Some(asked) => asked,
        None => {
            *report = Report::of_reason(MISUSED);
            return WRONG_WORDS;
        }
    };
    match Session::open(alloc, asked.keys, instance, asked.longest, asked.limits) {
        Ok(session) => {
            let place = session.place();
            match CheckerHandle::owning(alloc, session) {
                Ok(handle) => {
                    *checker = handle;
                    *report = Report::of_place(place);
                    0
                }
                Err(_) => {
                    *report = Report::of_reason(SPENT);
                    FAILED
                }
            }
        }
        Err(fault) => {
            *report = Report::of_opening(fault);
            opening_status(fault)
        }
    }
}

/// Takes a piece of the proof, cut anywhere, and checks each statement that ends in it. `used` is
/// then how many of its bytes belong to the proof. If the status is not 0, the report says where
/// and why the proof is rejected, and each later call reports the same.
#[unsafe(no_mangle)]
pub extern "C" fn pb_checker_feed(
    alloc: Global,
    checker: &mut CheckerHandle,
    piece: &[u8],
    used: &mut usize,
    report: &mut Report,
) -> u8
    // A checker for an instance and a text of a proof is then one for that text followed by the
    // piece.
    ensures fed { (options : SomeOptions) (i fed : List ℕ) → IsCheckerFor options i fed checker.old
        → IsCheckerFor options i (fed ++ piece.now) checker.new }
    // The status and the report are those of the first fault in that text, if there is one.
    ensures answers { Answers checker.new result report.new }
    ensures used { UsesOf checker.old.value checker.new.value piece.now result used.new }
{
    let mut session = match checker.take(alloc) {
        Some(session) => session,
        None => {
            *used = 0;
            *report = Report::of_reason(MISUSED);
            return WRONG_WORDS;
        }
    };
    let status = feed_session(&mut session, piece, used, report);
    *checker = CheckerHandle::of(session);
    status
}

/// Feeds a session, and reports its fault or its position.
fn feed_session(session: &mut Session, piece: &[u8], used: &mut usize, report: &mut Report) -> u8
    ensures fed { (limits : SomeLimits) (longest : ℕ) (i fed : List ℕ) →
        IsSession limits longest i fed session.old
        → IsSession limits longest i (fed ++ piece.now) session.new }
    ensures answers { AnswersFor session.new session.new.fault result report.new }
    ensures used { Uses session.old session.new piece.now result used.new }
{
    match session.feed(piece) {
        Ok(count) => {
            *used = count;
            *report = Report::of_place(session.place());
            0
        }
        Err(fault) => {
            *used = 0;
            *report = Report::of_fault(fault);
            fault_status(fault)
        }
    }
}

/// What the proof shows, if it ends with the pieces so far.
#[unsafe(no_mangle)]
pub extern "C" fn pb_checker_finish(
    alloc: Global,
    checker: &mut CheckerHandle,
    claim: &mut Claim,
    report: &mut Report,
) -> u8
    // It stays a checker for the instance and the text. The status and the report are those of the
    // first fault in that text or at its end, if there is one.
    ensures stands { (options : SomeOptions) (i fed : List ℕ) →
        IsCheckerFor options i fed checker.old
        → IsCheckerFor options i fed checker.new }
    ensures answers { Answers checker.new result report.new }
    // With status 0, the two texts are an instance and a proof that the rules accept with this
    // claim, as `check` says.
    ensures concludes { (options : SomeOptions) (i fed : List ℕ) →
        IsCheckerFor options i fed checker.old
        → Concludes options i fed result claim.new }
    // If the claim is UNSAT, no assignment solves the instance.
    ensures unsat { (options : SomeOptions) (i fed : List ℕ) →
        IsCheckerFor options i fed checker.old
        → ClaimsUnsat options i result claim.new }
    // A claim changes nothing in the checker, and with no claim the old one stays.
    ensures kept { result ≡ 0 → checker.new.value ≡ checker.old.value }
    ensures unclaimed { result ≢ 0 → claim.new ≡ claim.old }
{
    let mut session = match checker.take(alloc) {
        Some(session) => session,
        None => {
            *report = Report::of_reason(MISUSED);
            return WRONG_WORDS;
        }
    };
    let status = finish_session(&mut session, claim, report);
    *checker = CheckerHandle::of(session);
    status
}

/// Finishes a session, and reports its fault or its position.
fn finish_session(session: &mut Session, claim: &mut Claim, report: &mut Report) -> u8
    ensures stands { (limits : SomeLimits) (longest : ℕ) (i fed : List ℕ) →
        IsSession limits longest i fed session.old
        → IsSession limits longest i fed session.new }
    ensures answers { AnswersFor session.new session.new.fault result report.new }
    ensures claims { (limits : SomeLimits) (longest : ℕ) (i fed : List ℕ) →
        IsSession limits longest i fed session.old
        → result ≡ 0 → IsClaimFor limits longest i fed claim.new }
    ensures kept { result ≡ 0 → session.new ≡ session.old }
    ensures unclaimed { result ≢ 0 → claim.new ≡ claim.old }
{
    match session.finish() {
        Ok(verdict) => {
            *claim = Claim::of(verdict);
            *report = Report::of_place(session.place());
            0
        }
        Err(fault) => {
            *report = Report::of_fault(fault);
            fault_status(fault)
        }
    }
}

/// The position of the next byte of the proof. After the last statement of the proof it stays.
#[unsafe(no_mangle)]
pub extern "C" fn pb_checker_place(
    alloc: Global,
    checker: &mut CheckerHandle,
    place: &mut Position,
) -> u8
    ensures kept { checker.new.value ≡ checker.old.value }
    ensures place { AnswersPlace checker.old.value result place.old place.new }
{
    let session = match checker.take(alloc) {
        Some(session) => session,
        None => return WRONG_WORDS,
    };
    *place = Position::of(session.place());
    *checker = CheckerHandle::of(session);
    0
}

/// How much of the current statement is stored, in bytes or less.
#[unsafe(no_mangle)]
pub extern "C" fn pb_checker_held(
    alloc: Global,
    checker: &mut CheckerHandle,
    held: &mut usize,
) -> u8
    ensures kept { checker.new.value ≡ checker.old.value }
    ensures held { AnswersHeld checker.old.value result held.old held.new }
{
    let session = match checker.take(alloc) {
        Some(session) => session,
        None => return WRONG_WORDS,
    };
    *held = session.held();
    *checker = CheckerHandle::of(session);
    0
}

/// Puts the name with this number into the room, as for a report of a name that has no value.
#[unsafe(no_mangle)]
pub extern "C" fn pb_checker_name(
    alloc: Global,
    checker: &mut CheckerHandle,
    number: usize,
    out: &mut [u8],
    out_len: &mut usize,
) -> u8
    ensures kept { checker.new.value ≡ checker.old.value }
    ensures name { AnswersName checker.old.value number out.old result out.new out_len.new }
{
    let session = match checker.take(alloc) {
        Some(session) => session,
        None => {
            *out_len = put(b"", out);
            return WRONG_WORDS;
        }
    };
    let status = match session.name_of(number) {
        Some(name) => {
            *out_len = put(name.as_bytes(), out);
            0
        }
        None => {
            *out_len = put(b"", out);
            WRONG_WORDS
        }
    };
    *checker = CheckerHandle::of(session);
    status
}

/// Frees what the handle owns.
#[unsafe(no_mangle)]
pub extern "C" fn pb_checker_close(alloc: Global, checker: &mut CheckerHandle)
    ensures { checker.new.value ≡ None }
{
    drop(checker.take(alloc));
}
