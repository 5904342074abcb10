//! `pb check`: whether a proof of an instance is accepted, and what it shows.

ghost use Rattle.std.specs.Prelude.{◌≡◌, ◌<◌, ◌^◌, Err, Result, unwrap_or, IfOk, IfSome};
ghost use Rattle.pb_text.specs.meaning.Pulling.{OfGiven};
ghost use Rattle.pb_tool.specs.contract.Checked.{Checked};
ghost use Rattle.pb_tool.specs.contract.Given.{ChecksGiven};
ghost use Rattle.pb_tool.specs.meaning.Headline.{TrueOf, UnsatOf};
ghost use Rattle.pb_tool.specs.contract.Runs.{faults_of_instance, faults_of_proof};
ghost use Rattle.pb_tool.specs.contract.Seen.{SawInstance, SawProof};
ghost use Rattle.pb_tool.specs.meaning.Verified.{called, ChecksFiles};
ghost use Rattle.pb_tool.specs.contract.Watched.{IsWatched, IsWatchedGiven};

pub(crate) mod checker;
pub(crate) mod instance;
mod proof;
mod step;
mod verdict;
pub(crate) mod watch;

use crate::commands::check::instance::replay_of_instance;
use crate::commands::check::proof::check_proof;
use crate::commands::check::verdict::write_verdict;
use crate::commands::check::watch::{Unwatched, Watch};
use crate::fault::ToolFault;
use crate::laws::check::verified_is_true;
use pb_normal::HashKeys;
use pb_replay::Verdict;
use pb_text::{BYTE_LIMIT, Failed, Limits, Sink, Source};
use std::alloc::Global;

/// Reads an instance and then a proof of it, and checks each statement of the proof as soon as it
/// is complete. Then it writes what the proof shows: `verified UNSAT`, `verified SAT`,
/// `verified NONE` or `verified BOUNDS l u`, as one line. Only white space and comments may follow
/// the instance and the proof. Nothing is written before both were accepted.
///
/// `longest` is the maximum number of bytes of a statement, if there is such a limit. Names are
/// hashed with fixed keys: use `check_with_hasher` for files from untrusted sources.
pub fn check<I: Source, P: Source, W: Sink>(
    alloc: Global,
    instance: &mut I,
    proof: &mut P,
    out: &mut W,
    longest: Option<u64>,
    limits: Limits,
) -> Result<Verdict, ToolFault>
    requires { IfSome longest (λ n. 0 < n) }
    ensures checks { ChecksFiles limits (unwrap_or longest (2 ^ 40)) W.contents W.faults
        (called (I.left instance.old) (P.left proof.old) out.old result (I.left instance.new)
        (P.left proof.new) out.new) }
    // For any sources, files included: the result is right for the bytes that their calls have
    // given.
    ensures given { ChecksGiven limits (unwrap_or longest (2 ^ 40)) W.contents W.faults
        (called (I.history instance.old) (P.history proof.old) out.old result
        (I.history instance.new) (P.history proof.new) out.new) }
    // What a verdict says is true of the instance that was read. For UNSAT, no assignment solves
    // that instance.
    ensures unsat { result ≡ Ok Verdict.Unsat →
        UnsatOf limits (unwrap_or longest (2 ^ 40)) (I.left instance.old) (I.left instance.new) }
    ensures true_verdict { IfOk result (λ w. TrueOf limits (unwrap_or longest (2 ^ 40)) w
        (I.left instance.old) (I.left instance.new)) }
    ensures unsat_given { result ≡ Ok Verdict.Unsat →
        OfGiven (UnsatOf limits (unwrap_or longest (2 ^ 40))) (I.history instance.old)
        (I.history instance.new) }
    ensures true_given { IfOk result (λ w. OfGiven (TrueOf limits (unwrap_or longest (2 ^ 40)) w)
        (I.history instance.old) (I.history instance.new)) }
    // A rejected byte is the one that its source has shown. A text ends only if its source has
    // shown its end.
    ensures seen_instance { SawInstance (I.shown instance.new) (I.ended instance.new) result }
    ensures seen_proof { SawProof (P.shown proof.new) (P.ended proof.new) result }
    // `Read` comes only if the source of that input failed.
    ensures instance { I.faults instance.new ≡ faults_of_instance result (I.faults instance.old) }
    ensures proof { P.faults proof.new ≡ faults_of_proof result (P.faults proof.old) }
{
    check_with_hasher(
        alloc,
        HashKeys::Fixed,
        instance,
        proof,
        out,
        longest,
        limits,
    )
}

/// The same as `check`, with names hashed with these keys.
pub fn check_with_hasher<I: Source, P: Source, W: Sink>(
    alloc: Global,
    keys: HashKeys,
    instance: &mut I,
    proof: &mut P,
    out: &mut W,
    longest: Option<u64>,
    limits: Limits,
) -> Result<Verdict, ToolFault>
    requires { IfSome longest (λ n. 0 < n) }
    ensures { Checked I.Source P.Source W.Sink limits (unwrap_or longest (2 ^ 40))
        instance.old proof.old out.old result instance.new proof.new out.new }
{
    check_watched(
        alloc,
        keys,
        instance,
        proof,
        out,
        &mut Unwatched,
        longest,
        limits,
    )
}

/// The same, and the watch sees each statement of the proof.
pub fn check_watched<I: Source, P: Source, W: Sink, V: Watch>(
    alloc: Global,
    keys: HashKeys,
    instance: &mut I,
    proof: &mut P,
    out: &mut W,
    watch: &mut V,
    longest: Option<u64>,
    limits: Limits,
) -> Result<Verdict, ToolFault>
    requires { IfSome longest (λ n. 0 < n) }
    ensures checked { Checked I.Source P.Source W.Sink limits (unwrap_or longest (2 ^ 40))
        instance.old proof.old out.old result instance.new proof.new out.new }
    // The watch got a call for each statement that was taken, in order, with its span and the
    // replay after it. If a statement was rejected, the last call says so. It got no other call.
    ensures watched { IsWatched limits (unwrap_or longest (2 ^ 40)) V.got (I.left instance.old)
        (P.left proof.old) watch.old
        result (I.left instance.new) (P.left proof.new) watch.new }
    ensures watched_given { IsWatchedGiven limits (unwrap_or longest (2 ^ 40)) V.got
        (I.history instance.old) (P.history proof.old) watch.old
        result (I.history instance.new) (P.history proof.new) watch.new }
{
    verified_is_true();
    let longest = longest.unwrap_or(BYTE_LIMIT);
    let replay = match replay_of_instance(alloc, keys, instance, longest, limits) {
        Ok(replay) => replay,
        Err(fault) => return Err(fault),
    };
    let verdict = match check_proof(alloc, replay, proof, watch, longest) {
        Ok(verdict) => verdict,
        Err(fault) => return Err(fault),
    };
    match write_verdict(verdict, out) {
        Ok(()) => Ok(verdict),
        Err(Failed) => Err(ToolFault::Write),
    }
}
