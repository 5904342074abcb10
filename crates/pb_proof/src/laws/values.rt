//! The laws of proofs and their values.

ghost use Rattle.pb_proof.specs.contract.Leaving.{WordsReport, WordsLeaveOne};
ghost use Rattle.pb_proof.specs.contract.ValueLaws.{CanonicalProof, StatementValues, ProofValues, ReadStatements, OneValue, ReadsBack};

/// The canonical text of a proof that meets the rules is a text of that proof.
pub fn canonical_proof_spells()
    ensures { CanonicalProof }
{}

/// A statement or a proof that is read meets the rules.
#[tactic(auto, using(crate::proofs::lemmas::Proofs::statement_values))]
pub fn proofs_are_values()
    ensures statements { StatementValues }
    ensures proofs { ProofValues }
{}

/// The statements read so far are the first statements of a proof, in order, and each meets the
/// rules. If the read is done, they are all of its statements.
pub fn reads_are_of_proofs()
    ensures { ReadStatements }
{}

/// The postfix words of an expression determine it. Words form one expression if and only if each
/// finds as many finished expressions as it takes, and one is left after the last.
#[tactic(auto, using(crate::proofs::lemmas::pol::Postfix::words_report, crate::proofs::lemmas::pol::Postfix::words_leave_one))]
pub fn postfix_words()
    ensures report { WordsReport }
    ensures leave { WordsLeaveOne }
{}

/// The statements of a proof determine its value.
#[tactic(auto, using(crate::proofs::lemmas::Proofs::one_value))]
pub fn one_value()
    ensures { OneValue }
{}

/// The canonical text of a proof that meets the rules is not read as any other proof.
pub fn written_proof_reads_back()
    ensures { ReadsBack }
{}
