//! Reads a whole proof.

ghost use Rattle.std.specs.Prelude.{false, ◌≡◌, ◌<◌, ◌↔◌, ℕ, List, None, IfErr, IfOk};
ghost use Rattle.pb_text.specs.contract.Automaton.{AcceptsItems, MayAsk};
ghost use Rattle.pb_text.specs.meaning.Blank.{IsInReach};
ghost use Rattle.pb_text.specs.meaning.Limits.{largest, top_of};
ghost use Rattle.pb_text.specs.meaning.Pulling.{OfGiven, faults_after};
ghost use Rattle.pb_text.specs.meaning.Spelling.{Item};
ghost use Rattle.pb_text.specs.meaning.Stopping.{IsShown};
ghost use Rattle.pb_proof.specs.meaning.Proofs.{IsProof};
ghost use Rattle.pb_proof.specs.meaning.Reading.{AsksInProof, ReadsProof};

mod gather;

use crate::machine::ProofMachine;
use crate::proof::Proof;
use crate::read::gather::ProofSoFar;
use crate::statement::Statement;
use pb_text::{BYTE_LIMIT, Limits, Machine, Source, Spanned, Stop, read_whole};
use std::alloc::Global;

/// Reads the proof at the start of the input, and takes only the bytes of its text: through the
/// last byte of `end pseudo-Boolean proof`.
///
/// A stop names the first byte that no text of a proof under the limits has there: `Byte`, or
/// `TooLarge` for a further digit of a number. Or it names the end of the input (`Ended`) or the
/// byte at offset `2^40` (`TooLong`). Or it names a fault of the source (`Read`), or the position
/// at which memory ran out (`Memory`).
pub fn read_proof<S: Source>(
    alloc: Global,
    input: &mut S,
    limits: Limits,
) -> Result<Spanned<Proof>, Stop>
    // Memory runs out only at a byte that may allocate, or after a step, which is stored. A byte
    // that may allocate belongs to a name or a `pol` operator, or ends a literal, an id or a `pol`
    // word.
    ensures reads { ReadsProof (largest limits) (top_of limits) BYTE_LIMIT (S.left input.old) result
        (S.left input.new) }
    // For every source, including files: this is a result of reading the bytes that its calls have
    // given.
    ensures given { OfGiven (λ left rest.
        ReadsProof (largest limits) (top_of limits) BYTE_LIMIT left result rest)
        (S.history input.old) (S.history input.new) }
    // A rejected byte is the one that the source has shown. The input has ended only if the source
    // has shown its end.
    ensures shown { IfErr result (λ s. IsShown (S.shown input.new) (S.ended input.new) s.why) }
    ensures past { IfOk result (λ m. IsInReach m.past) }
    // `Read` comes only if the source failed.
    ensures faults { S.faults input.new ≡ faults_after None result (S.faults input.old) }
{
    read_proof_within(alloc, input, BYTE_LIMIT, limits)
}

/// Like `read_proof`, but it also stops with `TooLong` at a statement that has not ended within its
/// first `longest` bytes. A statement counts from its first word through its line feed, the closing
/// words through their last byte.
pub fn read_proof_within<S: Source>(
    alloc: Global,
    input: &mut S,
    longest: u64,
    limits: Limits,
) -> Result<Spanned<Proof>, Stop>
    requires { 0 < longest }
    // Memory runs out only at a byte that may allocate, or after a step, which is stored. A byte
    // that may allocate belongs to a name or a `pol` operator, or ends a literal, an id or a `pol`
    // word.
    ensures reads { ReadsProof (largest limits) (top_of limits) longest (S.left input.old) result
        (S.left input.new) }
    // For every source, including files: this is a result of reading the bytes that its calls have
    // given.
    ensures given { OfGiven (λ left rest.
        ReadsProof (largest limits) (top_of limits) longest left result rest) (S.history input.old)
        (S.history input.new) }
    // A rejected byte is the one that the source has shown. The input has ended only if the source
    // has shown its end.
    ensures shown { IfErr result (λ s. IsShown (S.shown input.new) (S.ended input.new) s.why) }
    ensures past { IfOk result (λ m. IsInReach m.past) }
    // `Read` comes only if the source failed.
    ensures faults { S.faults input.new ≡ faults_after None result (S.faults input.old) }
{
    let machine = ProofMachine::new(alloc, limits);
    read_by(alloc, input, machine, longest, limits)
}

/// Reads with a machine that accepts exactly the proofs under the limits.
fn read_by<S: Source, M: Machine<Event = Statement> + Drop>(
    alloc: Global,
    input: &mut S,
    machine: M,
    longest: u64,
    limits: Limits,
) -> Result<Spanned<Proof>, Stop>
    requires accepts { (items : List (Item Statement)) →
        AcceptsItems M.automaton machine items ↔ IsProof (largest limits) (top_of limits) items }
    requires asks { (used : List ℕ) (b : ℕ) → MayAsk M.automaton machine used b →
        AsksInProof (largest limits) (top_of limits) used b }
    requires between { M.automaton.begun machine ≡ false }
    requires some { 0 < longest }
    ensures reads { ReadsProof (largest limits) (top_of limits) longest (S.left input.old) result
        (S.left input.new) }
    ensures given { OfGiven (λ left rest.
        ReadsProof (largest limits) (top_of limits) longest left result rest) (S.history input.old)
        (S.history input.new) }
    ensures shown { IfErr result (λ s. IsShown (S.shown input.new) (S.ended input.new) s.why) }
    ensures past { IfOk result (λ m. IsInReach m.past) }
    ensures faults { S.faults input.new ≡ faults_after None result (S.faults input.old) }
{
    match read_whole(input, machine, longest, ProofSoFar::new(alloc)) {
        Ok(read) => Ok(Spanned {
            event: read.event.proof,
            first: read.first,
            past: read.past,
        }),
        Err(stop) => Err(stop),
    }
}
