//! Laws of checks. These functions do nothing: the laws are what they ensure.

ghost use Rattle.pb_tool.specs.contract.Fields.{KeepsItsParts};
ghost use Rattle.pb_tool.specs.meaning.Decided.{AnswersExactly, OneAnswer};
ghost use Rattle.pb_tool.specs.meaning.Headline.{UnsatIsExact, UnsatIsTrue, VerdictsAreTrue};
ghost use Rattle.pb_tool.specs.contract.Pieces.{AnyCutting};
ghost use Rattle.pb_tool.specs.engine.Single.{AllSingle};

use crate::commands::check::checker::texts_are_read;
use pb_proof::laws::values::{one_value, proofs_are_values};
use pb_replay::laws::{outcomes_are_single, verdicts_are_true};
use pb_text::Sink;

/// However the text of a proof is cut, the results of a checker hold for all pieces joined.
pub fn any_cut_of_a_proof()
    ensures { AnyCutting }
{
    texts_are_read();
}

/// What is verified is true of the instance as it is written.
pub fn verified_is_true()
    ensures { VerdictsAreTrue }
{
    verdicts_are_true();
    proofs_are_values();
}

/// If `check` returns that UNSAT is verified, the first input is an instance that no assignment of
/// its names solves.
pub fn unsat_is_true<W: Sink>()
    ensures { UnsatIsTrue W.contents W.faults }
{
    verdicts_are_true();
    proofs_are_values();
}

/// Two inputs have known bytes, no reader or writer failed, and memory did not run out. Then
/// `check` returns a verdict if and only if two things hold. The first input is an instance and the
/// second a proof. The rules accept the statements of the proof with that verdict.
pub fn answers_are_exact<W: Sink>()
    ensures { AnswersExactly W.contents W.faults }
{
    all_is_single();
}

/// Two inputs have known bytes, and I/O and allocation succeed. Then `check` returns
/// `verified UNSAT` if and only if the bytes are an instance and a proof of UNSAT that the rules
/// accept. In that case no assignment of its names solves that instance.
pub fn unsat_is_exact<W: Sink>()
    ensures { UnsatIsExact W.contents W.faults }
{
    answers_are_exact::<W>();
    verified_is_true();
}

/// The bytes of two inputs decide the result of `check`, unless a reader or a writer failed or
/// memory ran out.
pub fn one_answer<W: Sink>()
    ensures { OneAnswer W.contents W.faults }
{
    all_is_single();
}

/// A checker consists of its feeder, its replay and its fault, as contracts see these. This says
/// nothing about what the types of the fields hide.
pub fn keeps_its_parts()
    ensures { KeepsItsParts }
{}

/// The uniqueness that the laws state.
fn all_is_single()
    ensures { AllSingle }
{
    pb_opb::laws::one_instance();
    pb_opb::laws::prefix_free();
    pb_proof::laws::one_proof();
    pb_proof::laws::prefix_free();
    pb_proof::laws::fixed_spans();
    one_value();
    outcomes_are_single();
}
