//! The tokens of the statements of a proof.

ghost use Rattle.std.specs.Prelude.{◌≡◌, ◌∷◌, ◌++◌, [], List, OnOk, map};
ghost use Rattle.pb_pieces.specs.Tokens.{Token};
ghost use Rattle.pb_pieces.specs.NamedTokens.{token_of_literal};
ghost use Rattle.pb_pieces.specs.ProofTokens.{conclusion_kind, kind_in, token_of_bound, token_of_id, token_of_word, tokens_in, tokens_of_bounds, tokens_of_conclusion, tokens_of_id, tokens_of_solution};

use crate::opb_tokens::put_linear;
use crate::token_sink::{TokenSink, put_literal, put_literals};
use crate::tokenized::{EventKind, Tokenized};
use crate::tokens::TokenKind;
use pb_proof::{Bound, Conclusion, PolWord, Statement};
use pb_sums::Literal;
use pb_text::Sequence;
use std::alloc::AllocError;

impl Tokenized for Statement {
    ghost sort = { kind_in };

    ghost tokens = { tokens_in };

    ghost text = { λ s. [] };

    fn kind(&self) -> EventKind {
        match self {
            Statement::Header => EventKind::Proof,
            Statement::F(_) => EventKind::F,
            Statement::Pol(_) => EventKind::Pol,
            Statement::Rup(_) => EventKind::Rup,
            Statement::Soli(_) => EventKind::Soli,
            Statement::Solx(_) => EventKind::Solx,
            Statement::Delete(_) => EventKind::Delete,
            Statement::Output => EventKind::Output,
            Statement::Conclude(conclusion) => conclusion_kind(conclusion),
            Statement::End => EventKind::End,
        }
    }

    fn put_tokens<T: TokenSink>(&self, into: &mut T) -> Result<(), AllocError> {
        match self {
            Statement::Header | Statement::F(None) | Statement::Output | Statement::End => Ok(()),
            Statement::F(Some(count)) => into.put(TokenKind::Count, *count as i128),
            Statement::Pol(words) => put_words(words.as_slice(), into),
            Statement::Rup(linear) => put_linear(linear, into),
            Statement::Soli(literals) | Statement::Solx(literals) => {
                put_literals(literals.as_slice(), into)
            }
            Statement::Delete(ids) => put_ids(ids.as_slice(), into),
            Statement::Conclude(conclusion) => put_conclusion(conclusion, into),
        }
    }

    fn free_text(&self) -> &[u8] {
        let _ = self;
        b""
    }
}

/// Puts the words of a postfix expression.
fn put_words<T: TokenSink>(words: &[PolWord], into: &mut T) -> Result<(), AllocError>
    ensures { (start : T) (before : List Token) → T.took start before into.old
        → OnOk result (T.took start (before ++ map token_of_word words.now) into.new) }
{
    for word in words {
        put_word(word, into)?;
    }
    Ok(())
}

fn put_word<T: TokenSink>(word: &PolWord, into: &mut T) -> Result<(), AllocError>
    ensures { (start : T) (before : List Token) → T.took start before into.old
        → OnOk result (T.took start (before ++ token_of_word word.now ∷ []) into.new) }
{
    match word {
        PolWord::Id(id) => push_id(*id, into),
        PolWord::Axiom(literal) => put_literal(literal, into),
        PolWord::Add => into.put(TokenKind::Add, 0),
        PolWord::Multiply(factor) => into.put(TokenKind::Multiply, *factor),
        PolWord::Divide(divisor) => into.put(TokenKind::Divide, *divisor),
        PolWord::Saturate => into.put(TokenKind::Saturate, 0),
        PolWord::Weaken(name) => into.put_named(TokenKind::Weaken, 0, name.as_str()),
    }
}

/// Puts ids.
fn put_ids<T: TokenSink>(ids: &[i64], into: &mut T) -> Result<(), AllocError>
    ensures { (start : T) (before : List Token) → T.took start before into.old
        → OnOk result (T.took start (before ++ map token_of_id ids.now) into.new) }
{
    for id in ids {
        push_id(*id, into)?;
    }
    Ok(())
}

fn push_id<T: TokenSink>(id: i64, into: &mut T) -> Result<(), AllocError>
    ensures { (start : T) (before : List Token) → T.took start before into.old
        → OnOk result (T.took start (before ++ token_of_id id ∷ []) into.new) }
{
    into.put(TokenKind::Id, id as i128)
}

fn conclusion_kind(conclusion: &Conclusion) -> EventKind
    ensures { result ≡ conclusion_kind conclusion.now }
{
    match conclusion {
        Conclusion::NoClaim => EventKind::NoClaim,
        Conclusion::Unsat(_) => EventKind::Unsat,
        Conclusion::Sat(_) => EventKind::Sat,
        Conclusion::Bounds { .. } => EventKind::Bounds,
    }
}

/// Puts what a conclusion claims.
fn put_conclusion<T: TokenSink>(conclusion: &Conclusion, into: &mut T) -> Result<(), AllocError>
    ensures { (start : T) (before : List Token) → T.took start before into.old
        → OnOk result (T.took start (before ++ tokens_of_conclusion conclusion.now) into.new) }
{
    match conclusion {
        Conclusion::NoClaim => Ok(()),
        Conclusion::Unsat(id) => put_id(*id, into),
        Conclusion::Sat(shown) => put_solution(shown, into),
        Conclusion::Bounds {
            lower,
            id,
            upper,
            shown,
        } => {
            put_bounds(*lower, *id, *upper, into)?;
            put_solution(shown, into)
        }
    }
}

/// Puts two bounds, with an id between them if there is one.
fn put_bounds<T: TokenSink>(
    lower: Bound,
    id: Option<i64>,
    upper: Bound,
    into: &mut T,
) -> Result<(), AllocError>
    ensures { (start : T) (before : List Token) → T.took start before into.old
        → OnOk result (T.took start (before ++ tokens_of_bounds lower id upper) into.new) }
{
    put_bound(lower, into)?;
    put_id(id, into)?;
    put_bound(upper, into)
}

/// Puts an id, if there is one.
fn put_id<T: TokenSink>(id: Option<i64>, into: &mut T) -> Result<(), AllocError>
    ensures { (start : T) (before : List Token) → T.took start before into.old
        → OnOk result (T.took start (before ++ tokens_of_id id) into.new) }
{
    match id {
        Some(id) => push_id(id, into),
        None => Ok(()),
    }
}

fn put_bound<T: TokenSink>(bound: Bound, into: &mut T) -> Result<(), AllocError>
    ensures { (start : T) (before : List Token) → T.took start before into.old
        → OnOk result (T.took start (before ++ token_of_bound bound ∷ []) into.new) }
{
    match bound {
        Bound::Finite(value) => into.put(TokenKind::Bound, value),
        Bound::Infinite => into.put(TokenKind::Infinite, 0),
    }
}

/// Puts the literals of a solution after a token for them, if they are given.
fn put_solution<T: TokenSink>(
    shown: &Option<Sequence<Literal>>,
    into: &mut T,
) -> Result<(), AllocError>
    ensures { (start : T) (before : List Token) → T.took start before into.old
        → OnOk result (T.took start (before ++ tokens_of_solution shown.now) into.new) }
{
    match shown {
        Some(literals) => {
            into.put(TokenKind::Solution, 0)?;
            put_literals(literals.as_slice(), into)
        }
        None => Ok(()),
    }
}
