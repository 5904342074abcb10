//! The laws of instances and their texts.

ghost use Rattle.pb_opb.specs.contract.Fields.{KeepsItsState};
ghost use Rattle.pb_opb.specs.contract.Formats.{ReadsInstances, OneInstance, FixedSpans, PrefixFree, LargerLimits};
ghost use Rattle.pb_opb.specs.contract.Laws.{CanonicalInstance, InstanceValues, ReadsBack};

/// A new machine accepts exactly the instances.
#[tactic(auto, using(crate::proofs::lemmas::machine::Bodies::reads_instances))]
pub fn instances_are_exact()
    ensures { ReadsInstances }
{}

/// A text is the text of one instance only.
#[tactic(auto, using(crate::proofs::Rulesets::laws))]
pub fn one_instance()
    ensures { OneInstance }
{}

/// In all instances whose texts begin with the same bytes, the statements that end within these
/// bytes are the same. Their positions are the same too.
#[tactic(auto, using(crate::proofs::Rulesets::laws))]
pub fn fixed_spans()
    ensures { FixedSpans }
{}

/// No instance's text is a prefix of another's.
#[tactic(auto, using(crate::proofs::Rulesets::laws))]
pub fn prefix_free()
    ensures { PrefixFree }
{}

/// An instance under limits is the same instance under larger ones.
#[tactic(auto, using(crate::proofs::lemmas::instances::Larger::instance_grows))]
pub fn larger_limits()
    ensures { LargerLimits }
{}

/// The text that is written for an instance that meets the rules is a text of that instance.
pub fn canonical_instance_spells()
    ensures { CanonicalInstance }
{}

/// The text that is written for an instance that meets the rules reads back as no other instance.
pub fn written_instance_reads_back()
    ensures { ReadsBack }
{}

/// An instance that was read meets the rules, and its header declares as many constraints as there
/// are.
pub fn instances_are_values()
    ensures { InstanceValues }
{}

/// A machine stores nothing but its state, its limits, its allocator and memory to use again, as
/// contracts see these.
pub fn keeps_its_state()
    ensures { KeepsItsState }
{}
