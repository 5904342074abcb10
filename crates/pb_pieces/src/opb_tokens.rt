//! The tokens of the statements of an instance.

ghost use Rattle.std.specs.Prelude.{◌≡◌, ◌∷◌, ◌++◌, [], List, OnOk, map};
ghost use Rattle.pb_pieces.specs.Tokens.{Token};
ghost use Rattle.pb_pieces.specs.OpbTokens.{kind_in, relation_kind, text_in, tokens_in, tokens_of_linear};

use crate::token_sink::{TokenSink, put_terms};
use crate::tokenized::{EventKind, Tokenized};
use crate::tokens::TokenKind;
use pb_opb::OpbEvent;
use pb_sums::{Linear, Relation};
use std::alloc::AllocError;

impl Tokenized for OpbEvent {
    ghost sort = { kind_in };

    ghost tokens = { tokens_in };

    ghost text = { text_in };

    fn kind(&self) -> EventKind {
        match self {
            OpbEvent::Header { .. } => EventKind::Header,
            OpbEvent::Comment(_) => EventKind::Comment,
            OpbEvent::Objective(_) => EventKind::Objective,
            OpbEvent::Constraint(_) => EventKind::Constraint,
        }
    }

    fn put_tokens<T: TokenSink>(&self, into: &mut T) -> Result<(), AllocError> {
        match self {
            OpbEvent::Header {
                variables,
                constraints,
                ..
            } => {
                into.put(TokenKind::Count, *variables as i128)?;
                into.put(TokenKind::Count, *constraints as i128)
            }
            OpbEvent::Comment(_) => Ok(()),
            OpbEvent::Objective(terms) => put_terms(terms.as_slice(), into),
            OpbEvent::Constraint(linear) => put_linear(linear, into),
        }
    }

    fn free_text(&self) -> &[u8] {
        match self {
            OpbEvent::Header { tail, .. } => tail.as_slice(),
            OpbEvent::Comment(text) => text.as_slice(),
            OpbEvent::Objective(_) | OpbEvent::Constraint(_) => b"",
        }
    }
}

/// Puts the terms of a constraint, and then its relation with its degree.
pub(crate) fn put_linear<T: TokenSink>(linear: &Linear, into: &mut T) -> Result<(), AllocError>
    ensures { (start : T) (before : List Token) → T.took start before into.old
        → OnOk result (T.took start (before ++ tokens_of_linear linear.now) into.new) }
{
    put_terms(linear.terms.as_slice(), into)?;
    into.put(relation_kind(linear.relation), linear.degree)
}

fn relation_kind(relation: Relation) -> TokenKind
    ensures { result ≡ relation_kind relation }
{
    match relation {
        Relation::AtLeast => TokenKind::AtLeast,
        Relation::Equal => TokenKind::Equal,
    }
}
