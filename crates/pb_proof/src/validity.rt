//! The rules that statements and proofs meet.

ghost use Rattle.std.specs.Prelude.{◌≡◌, ◌+◌, ◌<◌, ◌≤◌, ◌^◌, ◌↔◌, IsTrue, All};
ghost use Rattle.pb_text.specs.meaning.Limits.{largest, top_of};
ghost use Rattle.pb_proof.specs.engine.line.Finished.{finished_with};
ghost use Rattle.pb_proof.specs.meaning.Postfix.{IsPostfix};
ghost use Rattle.pb_proof.specs.meaning.Proofs.{IsStep};
ghost use Rattle.pb_proof.specs.contract.Values.{IfGiven, IsId, IsFactor, AreLiterals, IsBound, IsWord, IsConclusion, IsStatementValue, IsProofValue};

use crate::conclusion::{Bound, Conclusion};
use crate::proof::Proof;
use crate::statement::Statement;
use crate::word::PolWord;
use pb_sums::{Linear, Literal, Relation, is_name, linear_is_value};
use pb_text::{Limits, Sequence};

/// Whether the id is not 0, and its magnitude at most `top`.
fn is_id(id: i64, top: u64) -> bool
    requires { top < 2 ^ 63 }
    ensures { IsTrue result ↔ IsId top id }
{
    let most = top as i64;
    id != 0 && -most <= id && id <= most
}

/// Whether the number is from 1 to the limit.
fn is_factor(factor: i128, limit: u128) -> bool
    requires { limit < 2 ^ 127 }
    ensures { IsTrue result ↔ IsFactor limit factor }
{
    1 <= factor && factor <= limit as i128
}

/// Whether each id meets the rules.
fn are_ids(ids: &[i64], top: u64) -> bool
    requires { top < 2 ^ 63 }
    ensures { IsTrue result ↔ All (IsId top) ids.now }
{
    ids.iter().all(|id| is_id(*id, top))
}

/// Whether each literal has a name of the grammar.
fn are_literals(literals: &[Literal]) -> bool
    ensures { IsTrue result ↔ AreLiterals literals.now }
{
    literals
        .iter()
        .all(|literal| is_name(literal.name.as_str()))
}

/// Whether the word's id, factor, literal or name meets the rules.
fn word_is_value(word: &PolWord, limits: Limits) -> bool
    ensures { IsTrue result ↔ IsWord (largest limits) (top_of limits) word.now }
{
    match word {
        PolWord::Id(id) => is_id(*id, limits.top()),
        PolWord::Axiom(literal) => is_name(literal.name.as_str()),
        PolWord::Multiply(factor) | PolWord::Divide(factor) => is_factor(*factor, limits.largest()),
        PolWord::Weaken(name) => is_name(name.as_str()),
        PolWord::Add | PolWord::Saturate => true,
    }
}

/// Whether each word meets the rules.
fn are_words(words: &[PolWord], limits: Limits) -> bool
    ensures { IsTrue result ↔ All (IsWord (largest limits) (top_of limits)) words.now }
{
    words.iter().all(|word| word_is_value(word, limits))
}

/// How many expressions are finished after the word, if `finished` of them are finished before it.
fn finished_with(finished: usize, word: &PolWord) -> Option<usize>
    requires { finished + 1 < 2 ^ 64 }
    ensures { result ≡ finished_with finished word.now }
{
    match word {
        PolWord::Id(_) | PolWord::Axiom(_) => Some(finished + 1),
        PolWord::Add if finished >= 2 => Some(finished - 1),
        PolWord::Multiply(_) | PolWord::Divide(_) | PolWord::Saturate | PolWord::Weaken(_)
            if finished >= 1 => { Some(finished) }
        _ => None,
    }
}

/// Whether the words are the postfix words of one expression.
#[tactic(auto, using(crate::proofs::lemmas::pol::Postfix::postfix_leads))]
fn is_postfix(words: &[PolWord]) -> bool
    ensures { IsTrue result ↔ IsPostfix words.now }
{
    let mut finished = 0;
    for word in words {
        match finished_with(finished, word) {
            Some(next) => finished = next,
            None => return false,
        }
    }
    finished == 1
}

/// Whether there is no count, or it is at most `top`.
fn count_is_value(count: Option<u64>, top: u64) -> bool
    ensures { IsTrue result ↔ IfGiven (λ n. n ≤ top) count }
{
    match count {
        None => true,
        Some(count) => count <= top,
    }
}

/// Whether there is no id, or one that meets the rules.
fn id_is_value(id: Option<i64>, top: u64) -> bool
    requires { top < 2 ^ 63 }
    ensures { IsTrue result ↔ IfGiven (IsId top) id }
{
    match id {
        None => true,
        Some(id) => is_id(id, top),
    }
}

/// Whether no literals are given, or each has a name of the grammar.
fn shown_is_value(shown: &Option<Sequence<Literal>>) -> bool
    ensures { IsTrue result ↔ IfGiven AreLiterals shown.now }
{
    match shown {
        None => true,
        Some(literals) => are_literals(literals.as_slice()),
    }
}

/// Whether the bound's magnitude is at most the limit, if the bound is finite.
fn bound_is_value(bound: Bound, limit: u128) -> bool
    requires { limit < 2 ^ 127 }
    ensures { IsTrue result ↔ IsBound limit bound }
{
    match bound {
        Bound::Finite(value) => {
            let most = limit as i128;
            -most <= value && value <= most
        }
        Bound::Infinite => true,
    }
}

/// Whether the conclusion's bounds, id and literals meet the rules.
fn conclusion_is_value(conclusion: &Conclusion, limits: Limits) -> bool
    ensures { IsTrue result ↔ IsConclusion (largest limits) (top_of limits) conclusion.now }
{
    match conclusion {
        Conclusion::NoClaim => true,
        Conclusion::Unsat(id) => id_is_value(*id, limits.top()),
        Conclusion::Sat(shown) => shown_is_value(shown),
        Conclusion::Bounds {
            lower,
            id,
            upper,
            shown,
        } => {
            bound_is_value(*lower, limits.largest())
                && id_is_value(*id, limits.top())
                && bound_is_value(*upper, limits.largest())
                && shown_is_value(shown)
        }
    }
}

/// Whether the constraint may follow `rup`: its relation is `>=`, and it is within the limits.
fn rup_is_value(goal: &Linear, limits: Limits) -> bool
    ensures { IsTrue result ↔ IsStatementValue (largest limits) (top_of limits)
        (Statement.Rup goal.now) }
{
    goal.relation == Relation::AtLeast && linear_is_value(goal, limits)
}

/// Whether the statement has a text under the limits. Its numbers have to be within them, and its
/// names those of the grammar. No id may be 0, and a `Delete` needs an id. The words of a `Pol`
/// have to be the postfix words of one expression, and the constraint of a `Rup` has to have `>=`.
pub fn statement_is_value(statement: &Statement, limits: Limits) -> bool
    ensures { IsTrue result ↔ IsStatementValue (largest limits) (top_of limits) statement.now }
{
    match statement {
        Statement::Header | Statement::Output | Statement::End => true,
        Statement::F(count) => count_is_value(*count, limits.top()),
        Statement::Pol(words) => is_postfix(words.as_slice())
            && are_words(words.as_slice(), limits),
        Statement::Rup(goal) => rup_is_value(goal, limits),
        Statement::Soli(literals) | Statement::Solx(literals) => are_literals(literals.as_slice()),
        Statement::Delete(ids) => !ids.is_empty() && are_ids(ids.as_slice(), limits.top()),
        Statement::Conclude(conclusion) => conclusion_is_value(conclusion, limits),
    }
}

/// Whether the statement may appear between `f` and `output`.
fn is_step(statement: &Statement) -> bool
    ensures { IsTrue result ↔ IsStep statement.now }
{
    match statement {
        Statement::Pol(_)
        | Statement::Rup(_)
        | Statement::Soli(_)
        | Statement::Solx(_)
        | Statement::Delete(_) => true,
        _ => false,
    }
}

/// Whether the statement is a step that meets the rules.
fn step_is_value(step: &Statement, limits: Limits) -> bool
    ensures { IsTrue result ↔ IsStep step.now ×
        IsStatementValue (largest limits) (top_of limits) step.now }
{
    is_step(step) && statement_is_value(step, limits)
}

/// Whether each statement is a step that meets the rules.
fn are_steps(steps: &[Statement], limits: Limits) -> bool
    ensures { IsTrue result ↔ All (λ s. IsStep s ×
        IsStatementValue (largest limits) (top_of limits) s) steps.now }
{
    steps.iter().all(|step| step_is_value(step, limits))
}

/// Whether the proof has a text under the limits. Its steps have to be of the kinds that a step may
/// have. The steps, the number of constraints and the conclusion have to meet the rules.
pub fn proof_is_value(proof: &Proof, limits: Limits) -> bool
    ensures { IsTrue result ↔ IsProofValue (largest limits) (top_of limits) proof.now }
{
    count_is_value(proof.count, limits.top())
        && are_steps(proof.steps.as_slice(), limits)
        && conclusion_is_value(&proof.conclusion, limits)
}
