//! Makes a statement from the arrays of a caller.

ghost use Rattle.std.specs.Prelude.{◌≡◌, IfOk, OnOk, map};
ghost use Rattle.pb_text.specs.meaning.Limits.{largest, top_of};
ghost use Rattle.pb_pieces.specs.AnyStatement.{IsAnyValue, kind_in, text_in, tokens_in};
ghost use Rattle.pb_pieces.specs.GivenTokens.{arrays_of, token_in};
ghost use Rattle.pb_pieces.specs.Made.{IsMadeOf};

use crate::any_statement::AnyStatement;
use crate::given_token::GivenToken;
use crate::make_fault::MakeFault;
use crate::matcher::Matcher;
use crate::token_arrays::{TokenArrays, tokens_given};
use crate::token_parts::{TokenParts, words_of};
use crate::token_rules::{first_wrong, first_wrong_word};
use crate::tokenized::{EventKind, Tokenized};
use pb_opb::OpbEvent;
use pb_proof::{Conclusion, Statement};
use pb_text::{Bytes, Limits, Sequence};
use std::alloc::{AllocError, Global};

/// The statement of a kind with the tokens of the arrays and a free text. First each token is
/// tested by the rules of its kind under the limits. Then the tokens have to be those of a
/// statement that has a text under the limits.
pub fn make_statement(
    alloc: Global,
    kind: EventKind,
    arrays: TokenArrays,
    text: &[u8],
    limits: Limits,
) -> Result<AnyStatement, MakeFault>
    ensures { IfOk result (λ s. IsMadeOf limits kind (arrays_of arrays.entry) text.now s) }
{
    let tokens = tokens_given(alloc, arrays)?;
    if let Some(index) = first_wrong(tokens.as_slice(), limits) {
        return Err(MakeFault::Token(index));
    }
    let statement = statement_from(alloc, kind, tokens.as_slice(), text)?;
    let count = tokens.len();
    have_same_tokens(&statement, tokens)?;
    meets_rules(&statement, kind, text, limits, count)?;
    Ok(statement)
}

/// Succeeds if these are the tokens of the statement. Otherwise the fault has the index of the
/// first that differs.
fn have_same_tokens(statement: &AnyStatement, given: Vec<GivenToken>) -> Result<(), MakeFault>
    ensures { OnOk result (tokens_in statement.now ≡ map token_in given.items) }
{
    let mut matcher = Matcher::new(given);
    statement.put_tokens(&mut matcher)?;
    match matcher.difference() {
        Some(index) => Err(MakeFault::Token(index)),
        None => Ok(()),
    }
}

/// Succeeds if the statement has this kind and this free text, and has a text under the limits.
fn meets_rules(
    statement: &AnyStatement,
    kind: EventKind,
    text: &[u8],
    limits: Limits,
    count: usize,
) -> Result<(), MakeFault>
    ensures kind { OnOk result (kind_in statement.now ≡ kind) }
    ensures text { OnOk result (text_in statement.now ≡ text.now) }
    ensures value { OnOk result (IsAnyValue (largest limits) (top_of limits) statement.now) }
{
    if statement.kind() != kind || statement.free_text() != text || !statement.is_value(limits) {
        return Err(MakeFault::Token(wrong_index(statement, count)));
    }
    Ok(())
}

/// The index of the token that breaks a rule of the statement, or the number of tokens.
fn wrong_index(statement: &AnyStatement, count: usize) -> usize {
    match statement {
        AnyStatement::Proof(Statement::Pol(words)) => first_wrong_word(words.as_slice()),
        AnyStatement::Proof(Statement::Rup(_)) => count.saturating_sub(1),
        _ => count,
    }
}

/// A statement of the kind that the tokens and the text state. If they do not belong to the kind,
/// it has others.
fn statement_from(
    alloc: Global,
    kind: EventKind,
    tokens: &[GivenToken],
    text: &[u8],
) -> Result<AnyStatement, AllocError> {
    let parts = TokenParts::of(alloc, tokens)?;
    match kind {
        EventKind::Header | EventKind::Comment | EventKind::Objective | EventKind::Constraint => {
            Ok(AnyStatement::Instance(event_from(alloc, kind, parts, text)?))
        }
        EventKind::Pol => Ok(AnyStatement::Proof(Statement::Pol(words_of(alloc, tokens)?))),
        _ => Ok(AnyStatement::Proof(step_from(kind, parts))),
    }
}

/// A statement of an instance.
fn event_from(
    alloc: Global,
    kind: EventKind,
    parts: TokenParts,
    text: &[u8],
) -> Result<OpbEvent, AllocError> {
    Ok(match kind {
        EventKind::Header => OpbEvent::Header {
            variables: parts.count(0),
            constraints: parts.count(1),
            tail: bytes_of(alloc, text)?,
        },
        EventKind::Comment => OpbEvent::Comment(bytes_of(alloc, text)?),
        EventKind::Objective => OpbEvent::Objective(parts.terms),
        _ => OpbEvent::Constraint(parts.into_linear()),
    })
}

fn bytes_of(alloc: Global, text: &[u8]) -> Result<Bytes, AllocError> {
    let mut bytes = Bytes::new(alloc);
    bytes.push_slice(text)?;
    Ok(bytes)
}

/// A statement of a proof, except `pol`.
fn step_from(kind: EventKind, parts: TokenParts) -> Statement {
    match kind {
        EventKind::Proof => Statement::Header,
        EventKind::F if parts.counts.is_empty() => Statement::F(None),
        EventKind::F => Statement::F(Some(parts.count(0))),
        EventKind::Rup => Statement::Rup(parts.into_linear()),
        EventKind::Soli => Statement::Soli(parts.literals),
        EventKind::Solx => Statement::Solx(parts.literals),
        EventKind::Delete => Statement::Delete(Sequence::from_vec(parts.ids)),
        EventKind::Output => Statement::Output,
        EventKind::End => Statement::End,
        _ => Statement::Conclude(conclusion_from(kind, parts)),
    }
}

fn conclusion_from(kind: EventKind, parts: TokenParts) -> Conclusion {
    match kind {
        EventKind::Unsat => Conclusion::Unsat(parts.id()),
        EventKind::Sat => Conclusion::Sat(parts.into_solution()),
        EventKind::Bounds => Conclusion::Bounds {
            lower: parts.bound(0),
            id: parts.id(),
            upper: parts.bound(1),
            shown: parts.into_solution(),
        },
        _ => Conclusion::NoClaim,
    }
}
