//! A proof that comes in pieces.

ghost use Rattle.std.specs.List.{flat_map};
ghost use Rattle.std.specs.Prelude.{◌≡◌, true, IfOk, None};
ghost use Rattle.pb_tool.specs.contract.Pieces.{fault_of};
ghost use Rattle.pb_examples.specs.Fed.{FindsUnsat, IsRefuted, ReportsUnsat};

use pb_proof::laws::values::reads_are_of_proofs;
use pb_replay::laws::{statements_are_sound, verdicts_are_true};
use pb_replay::{Replay, Verdict};
use pb_tool::{CheckFault, Checker};
use std::alloc::Global;

/// Whether a proof that comes in pieces shows that the instance of a replay has no solution. The
/// pieces may be cut anywhere. A fault says where the proof is rejected, and why.
pub fn is_refuted_in_pieces(
    alloc: Global,
    replay: Replay,
    pieces: &[&[u8]],
) -> Result<bool, CheckFault>
    // `true` means that no assignment satisfies the instance.
    ensures unsat { result ≡ Ok true → IsRefuted replay }
    // The pieces in a row begin with a proof that the rules accept. The answer is whether its
    // verdict is UNSAT.
    ensures exact { IfOk result (ReportsUnsat replay (flat_map (λ piece. piece.now) pieces.now)) }
{
    reads_are_of_proofs();
    statements_are_sound();
    verdicts_are_true();
    replay.report_sound();
    let mut checker = Checker::new(alloc, replay, None);
    let answer = is_unsat(&mut checker, pieces);
    drop(checker);
    answer
}

/// Whether the verdict of a checker on all pieces in a row is UNSAT.
fn is_unsat(checker: &mut Checker, pieces: &[&[u8]]) -> Result<bool, CheckFault>
    requires { fault_of checker.old ≡ None }
    ensures { IfOk result (FindsUnsat checker.old (flat_map (λ piece. piece.now) pieces.now)) }
{
    for piece in pieces {
        let _used = checker.feed(piece)?;
    }
    let verdict = checker.finish()?;
    Ok(matches!(verdict, Verdict::Unsat))
}
