//! The proof of a check: its statements, one after another, and what is reported of a rejected one.

ghost use Rattle.std.specs.Prelude.{◌≡◌, ◌<◌, Err, None, Result, string_bytes, get_or, [], IfErr, IfOk, OnErr, ℕ};
ghost use Rattle.pb_text.specs.meaning.Blank.{IsInReach};
ghost use Rattle.pb_replay.specs.contract.ReplayModel.{Replaying};
ghost use Rattle.pb_tool.specs.contract.Pieces.{fault_of};
ghost use Rattle.pb_tool.specs.contract.Runs.{IsReportedAs, faults_of_proof, faults_of_text};
ghost use Rattle.pb_tool.specs.contract.Seen.{SawProof, SawText};
ghost use Rattle.pb_tool.specs.engine.Running.{Begins, ChecksTo, RunsTo};
ghost use Rattle.pb_tool.specs.meaning.Verified.{IsReported};

use crate::commands::check::checker::{CheckFault, Checker};
use crate::commands::check::watch::Watch;
use crate::fault::{Input, ToolFault, text_fault};
use pb_replay::laws::outcomes_are_single;
use pb_replay::{Fault, Replay, Verdict};
use pb_text::{Place, Source, rest_is_blank};
use std::alloc::{AllocError, Global};
use std::mem::ManuallyDrop;

/// What a proof shows. Only white space and comments may follow the proof.
pub(crate) fn check_proof<S: Source, V: Watch>(
    alloc: Global,
    replay: Replay,
    input: &mut S,
    watch: &mut V,
    longest: u64,
) -> Result<Verdict, ToolFault>
    requires some { 0 < longest }
    requires running { replay.fault ≡ None }
    ensures comes { ChecksTo longest replay V.got (S.left input.old) (S.history input.old) watch.old
        result (S.left input.new) (S.history input.new) watch.new }
    ensures seen { SawProof (S.shown input.new) (S.ended input.new) result }
    ensures faults { S.faults input.new ≡ faults_of_proof result (S.faults input.old) }
{
    let mut checker = Checker::begin(alloc, replay, longest);
    let shown = run_checker(alloc, &mut checker, input, watch);
    release(checker, shown.is_ok() && watch.is_last());
    shown
}

/// Drops a checker, or leaves its memory to the system if nothing comes after it.
fn release(checker: Checker, is_last: bool) {
    if is_last {
        let _checker = ManuallyDrop::new(checker);
    } else {
        drop(checker);
    }
}

/// What the proof of a source shows, by a checker that was fed nothing yet.
fn run_checker<S: Source, V: Watch>(
    alloc: Global,
    checker: &mut Checker,
    input: &mut S,
    watch: &mut V,
) -> Result<Verdict, ToolFault>
    requires running { fault_of checker.old ≡ None }
    requires unspent { checker.old.replay.fault ≡ None }
    ensures comes { (longest : ℕ) (began : Replaying) → Begins longest began checker.old
        → ChecksTo longest began V.got (S.left input.old) (S.history input.old) watch.old
        result (S.left input.new) (S.history input.new) watch.new }
    ensures seen { SawProof (S.shown input.new) (S.ended input.new) result }
    ensures faults { S.faults input.new ≡ faults_of_proof result (S.faults input.old) }
{
    outcomes_are_single();
    let (verdict, place) = match check_statements(checker, input, watch) {
        Ok(ended) => ended,
        Err(CheckFault::Text(stop)) => return Err(text_fault(Input::Proof, stop)),
        Err(CheckFault::Step(place, fault)) => return Err(rejection(alloc, checker, place, fault)),
    };
    match rest_is_blank(input, place) {
        Ok(()) => Ok(verdict),
        Err(stop) => Err(text_fault(Input::Proof, stop)),
    }
}

/// The fault of a rejected statement, with a copy of the name that it gives by its number. If there
/// is no memory for the copy, the fault is that memory ran out.
fn rejection(alloc: Global, checker: &Checker, place: Place, fault: Fault) -> ToolFault
    ensures { IsReportedAs checker.now.replay.names place fault result }
{
    match reported_name(alloc, checker, fault) {
        Ok(name) => ToolFault::Step { place, fault, name },
        Err(_) => ToolFault::Step {
            place,
            fault: Fault::Memory,
            name: String::new(alloc),
        },
    }
}

/// The name that a fault gives by its number, and an empty one for other faults.
fn reported_name(alloc: Global, checker: &Checker, fault: Fault) -> Result<String, AllocError>
    ensures reported { IfOk result (λ name. IsReported checker.now.replay.names fault
        (string_bytes name)) }
    ensures err { OnErr result ((n : ℕ) × (fault ≡ Fault.NotTotal n)) }
{
    match fault {
        Fault::NotTotal(number) => copied_name(alloc, checker, number),
        _ => Ok(String::new(alloc)),
    }
}

/// A copy of the name with a number, empty if there is none.
fn copied_name(alloc: Global, checker: &Checker, number: usize) -> Result<String, AllocError>
    ensures { IfOk result (λ name. string_bytes name ≡ get_or checker.now.replay.names number []) }
{
    match checker.name_of(number) {
        Some(name) => String::from_str(alloc, name),
        None => Ok(String::new(alloc)),
    }
}

/// Steps a checker through the statements of a source until the proof ends. Returns what the proof
/// shows, and the position after it.
fn check_statements<S: Source, V: Watch>(
    checker: &mut Checker,
    input: &mut S,
    watch: &mut V,
) -> Result<(Verdict, Place), CheckFault>
    requires running { fault_of checker.old ≡ None }
    requires unspent { checker.old.replay.fault ≡ None }
    ensures runs { (longest : ℕ) (began : Replaying) → Begins longest began checker.old
        → RunsTo longest began V.got (S.left input.old)
        (S.history input.old) watch.old result checker.new.replay (S.left input.new)
        (S.history input.new) watch.new }
    ensures reach { IfOk result (λ r. IsInReach r.1) }
    ensures seen { IfErr result (SawText (S.shown input.new) (S.ended input.new)) }
    ensures faults { S.faults input.new ≡ faults_of_text result (S.faults input.old) }
{
    loop {
        match checker.pull(input, watch) {
            Ok(None) => {}
            Ok(Some(verdict)) => return Ok((verdict, checker.place())),
            Err(fault) => return Err(fault),
        }
    }
}
