//! What takes tokens, one after another.

ghost use Rattle.std.specs.Prelude.{◌≡◌, ◌∷◌, ◌++◌, [], List, OnOk, None, Some, map};
ghost use Rattle.pb_pieces.specs.Tokens.{Token, token};
ghost use Rattle.pb_pieces.specs.NamedTokens.{literal_kind, term_kind, token_of_literal, token_of_term};

use crate::tokens::TokenKind;
use pb_sums::{Literal, Term};
use std::alloc::AllocError;

/// What takes the tokens of a statement in order.
pub trait TokenSink {
    /// It was the first, and took these tokens since then.
    ghost took: { Self → List Token → Self → Type 0 };

    /// Takes a token without a name.
    fn put(&mut self, kind: TokenKind, number: i128) -> Result<(), AllocError>
        ensures { (start : Self) (before : List Token) → took start before self.old
            → OnOk result (took start (before ++ token kind number None ∷ []) self.new) };

    /// Takes a token with a name.
    fn put_named(&mut self, kind: TokenKind, number: i128, name: &str) -> Result<(), AllocError>
        ensures { (start : Self) (before : List Token) → took start before self.old
            → OnOk result (took start (before ++ token kind number (Some name.now) ∷ []) self.new) };
}

/// Puts a literal.
pub(crate) fn put_literal<T: TokenSink>(literal: &Literal, into: &mut T) -> Result<(), AllocError>
    ensures { (start : T) (before : List Token) → T.took start before into.old
        → OnOk result (T.took start (before ++ token_of_literal literal.now ∷ []) into.new) }
{
    into.put_named(literal_kind(literal.negated), 0, literal.name.as_str())
}

/// Puts literals in order.
pub(crate) fn put_literals<T: TokenSink>(
    literals: &[Literal],
    into: &mut T,
) -> Result<(), AllocError>
    ensures { (start : T) (before : List Token) → T.took start before into.old
        → OnOk result (T.took start (before ++ map token_of_literal literals.now) into.new) }
{
    for literal in literals {
        put_literal(literal, into)?;
    }
    Ok(())
}

/// Puts a term.
fn put_term<T: TokenSink>(term: &Term, into: &mut T) -> Result<(), AllocError>
    ensures { (start : T) (before : List Token) → T.took start before into.old
        → OnOk result (T.took start (before ++ token_of_term term.now ∷ []) into.new) }
{
    let literal = &term.literal;
    into.put_named(
        term_kind(literal.negated),
        term.coefficient,
        literal.name.as_str(),
    )
}

/// Puts terms in order.
pub(crate) fn put_terms<T: TokenSink>(terms: &[Term], into: &mut T) -> Result<(), AllocError>
    ensures { (start : T) (before : List Token) → T.took start before into.old
        → OnOk result (T.took start (before ++ map token_of_term terms.now) into.new) }
{
    for term in terms {
        put_term(term, into)?;
    }
    Ok(())
}

fn literal_kind(negated: bool) -> TokenKind
    ensures { result ≡ literal_kind negated }
{
    if negated {
        TokenKind::NegatedLiteral
    } else {
        TokenKind::Literal
    }
}

fn term_kind(negated: bool) -> TokenKind
    ensures { result ≡ term_kind negated }
{
    if negated {
        TokenKind::NegatedTerm
    } else {
        TokenKind::Term
    }
}
