//! The laws of normal forms, and of the written texts.

ghost use Rattle.std.specs.Prelude.{◌≡◌, ◌↔◌, ℕ, Bool, List};
ghost use Rattle.pb_opb.specs.declared.Instance.{Instance};
ghost use Rattle.pb_replay.specs.meaning.Problem.{Solves};
ghost use Rattle.pb_tool.specs.contract.Normalised.{IsNormalised};
ghost use Rattle.pb_tool.specs.contract.Stays.{HasNoFault, IsReadAsInstance, StaysAsIs, TidiesAgain};
ghost use Rattle.pb_tool.specs.contract.Stays.{IsReadAsProof, ProofHasNoFault, ProofStaysAsIs};

use pb_text::Sink;

pub mod check;

/// The normal form of an instance has exactly the solutions of the instance.
pub fn normal_forms_keep_solutions()
    ensures { (v w : Instance) → IsNormalised v w → (a : List ℕ → Bool) → Solves v a ↔ Solves w a }
{
    pb_normal::laws::names_keep_their_numbers();
    pb_normal::laws::written_forms_are_exact();
}

/// An instance has one normal form.
pub fn one_normal_form()
    ensures { (v w u : Instance) → IsNormalised v w → IsNormalised v u → w ≡ u }
{
    pb_normal::laws::forms_are_unique();
}

/// `tidy` leaves the text that it wrote for an instance as it is. It treats the text as an instance
/// and reads it as that instance alone, so it writes the same. With no limit on statements, `tidy`
/// rejects the text only if the source fails, memory runs out, or the text has over `2^40` bytes.
pub fn tidied_text_stays()
    ensures taken { IsReadAsInstance }
    ensures same { StaysAsIs }
    ensures faultless { HasNoFault }
{
    pb_opb::laws::canonical_instance_spells();
    pb_opb::laws::prefix_free();
    pb_opb::laws::written_instance_reads_back();
}

/// The same for a proof: `tidy` leaves the text that it wrote as it is.
pub fn tidied_proof_stays()
    ensures taken { IsReadAsProof }
    ensures same { ProofStaysAsIs }
    ensures faultless { ProofHasNoFault }
{
    pb_proof::laws::values::canonical_proof_spells();
    pb_proof::laws::prefix_free();
    pb_proof::laws::values::written_proof_reads_back();
}

/// `tidy` is idempotent under the same limits. If a run wrote a text, a run over that text writes
/// it again or fails in writing it. With no limit on statements, `tidy` rejects that text only if
/// the source fails, memory runs out, or the text has over `2^40` bytes.
pub fn tidied_files_stay<W: Sink>()
    ensures { TidiesAgain W.contents W.faults }
{
    tidied_text_stays();
    tidied_proof_stays();
    pb_opb::laws::instances_are_values();
    pb_proof::laws::values::proofs_are_values();
}
