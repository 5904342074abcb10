//! The laws of the grammar and of the machine.

ghost use Rattle.pb_sums.specs.contract.Fields.{NameKeeps, ShortKeeps};
ghost use Rattle.pb_sums.specs.contract.MachineFields.{KeepsItsState};
ghost use Rattle.pb_sums.specs.contract.Laws.{ReadsGrammar, EndsLast, EachReads, EachIsState, OneValue, PrefixFree, LargerLimits, CanonicalLinear, CanonicalSum, CanonicalBytes};

/// A new machine reads exactly the grammar, and each state that has not ended reads something.
#[tactic(auto, using(crate::proofs::lemmas::machine::Links::reads_grammar))]
pub fn sums_are_exact()
    ensures grammar { ReadsGrammar }
    ensures last { EndsLast }
    ensures alive { EachReads }
    ensures state { EachIsState }
{}

/// A text has at most one value.
#[tactic(auto, using(crate::proofs::lemmas::machine::Theorems::one_value))]
pub fn one_value()
    ensures { OneValue }
{}

/// No text of a value is a proper prefix of another.
#[tactic(auto, using(crate::proofs::lemmas::machine::Theorems::prefix_free))]
pub fn prefix_free()
    ensures { PrefixFree }
{}

/// A text of a value under some limits is a text of the same value under larger ones.
#[tactic(auto, using(crate::proofs::lemmas::values::Larger::spells_larger))]
pub fn larger_limits()
    ensures { LargerLimits }
{}

/// The canonical text of a value within the limits is a text of that value, and it is what the
/// writers write.
#[tactic(auto, using(crate::proofs::Rulesets::canonical))]
pub fn canonical_spells()
    ensures linear { CanonicalLinear }
    ensures sum { CanonicalSum }
    ensures bytes { CanonicalBytes }
{}

/// A machine stores only its state and its allocator, as contracts see these.
pub fn keeps_its_state()
    ensures { KeepsItsState }
{}

/// A name stores only its text, and a short text only its length, its 22 bytes and its allocator,
/// as contracts see these.
pub fn names_keep_their_texts()
    ensures names { NameKeeps }
    ensures short { ShortKeeps }
{}
