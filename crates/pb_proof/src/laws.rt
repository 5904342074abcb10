//! The laws of proofs and their texts.

ghost use Rattle.pb_proof.specs.contract.Fields.{ProofKeeps};
ghost use Rattle.pb_proof.specs.engine.line.PolFields.{PolKeeps};
ghost use Rattle.pb_proof.specs.engine.line.Fields.{RupKeeps};
ghost use Rattle.pb_proof.specs.contract.Formats.{ReadsProofs, OneProof, FixedSpans, PrefixFree, LargerLimits};

pub mod values;

/// A new machine accepts exactly the proofs.
#[tactic(auto, using(crate::proofs::lemmas::machine::Exact::reads_proofs))]
pub fn proofs_are_exact()
    ensures { ReadsProofs }
{}

/// A text is the text of at most one proof.
pub fn one_proof()
    ensures { OneProof }
{}

/// In all proofs whose texts begin with the same bytes, the statements that end within these bytes
/// are the same, at the same positions.
pub fn fixed_spans()
    ensures { FixedSpans }
{}

/// No proof is a prefix of another.
pub fn prefix_free()
    ensures { PrefixFree }
{}

/// A proof under limits is the same proof under larger limits.
pub fn larger_limits()
    ensures { LargerLimits }
{}

/// A machine stores nothing besides its state, its limits, its allocator and memory to use again, as
/// contracts see these. The words of a `pol` line are a state and a vector.
pub fn keeps_its_state()
    ensures rup { RupKeeps }
    ensures pol { PolKeeps }
    ensures proof { ProofKeeps }
{}
