//! The tokens of one statement after another, with the names that they are numbered by.

ghost use Rattle.std.specs.Prelude.{◌≡◌, ◌∷◌, ◌++◌, [], List, ℕ, None, OnOk, Some};
ghost use Rattle.pb_pieces.specs.Tokens.{Token, token};
ghost use Rattle.pb_pieces.specs.NamedTokens.{Adds, AreTokens, names_of};

use crate::token_sink::TokenSink;
use crate::tokens::{TokenKind, Tokens};
use pb_normal::{HashKeys, Names};
use std::alloc::{AllocError, Global};

/// The tokens of a statement, and the names of all statements so far, numbered by their first
/// appearance.
#[derive(Drop)]
pub struct NamedTokens {
    pub names: Names,
    pub tokens: Tokens,
}

impl NamedTokens {
    /// No names and no tokens. It allocates nothing.
    pub(crate) fn new(alloc: Global, keys: HashKeys) -> NamedTokens
        ensures { AreTokens [] [] result }
    {
        NamedTokens {
            names: Names::with_hasher(alloc, keys),
            tokens: Tokens::new(alloc),
        }
    }

    /// Takes the tokens of a statement away. The names stay.
    pub(crate) fn clear(&mut self)
        ensures { (seen : List (List ℕ)) (tokens : List Token) → AreTokens seen tokens self.old →
            AreTokens (seen ++ names_of tokens) [] self.new }
    {
        self.tokens.clear();
    }

    /// One more token without a name.
    pub(crate) fn push(&mut self, kind: TokenKind, number: i128) -> Result<(), AllocError>
        ensures { (seen : List (List ℕ)) (tokens : List Token) → AreTokens seen tokens self.old
            → OnOk result (AreTokens seen (tokens ++ token kind number None ∷ []) self.new) }
    {
        self.tokens.push(kind, number, 0)?;
        Ok(())
    }

    /// One more token with a name.
    pub(crate) fn push_named(
        &mut self,
        kind: TokenKind,
        number: i128,
        name: &str,
    ) -> Result<(), AllocError>
        ensures { (seen : List (List ℕ)) (tokens : List Token) → AreTokens seen tokens self.old
            → OnOk result
            (AreTokens seen (tokens ++ token kind number (Some name.now) ∷ []) self.new) }
    {
        let index = self.names.number(name)?;
        self.tokens.push(kind, number, index as u64)?;
        Ok(())
    }
}

impl TokenSink for NamedTokens {
    ghost took = { Adds };

    fn put(&mut self, kind: TokenKind, number: i128) -> Result<(), AllocError> {
        self.push(kind, number)?;
        Ok(())
    }

    fn put_named(&mut self, kind: TokenKind, number: i128, name: &str) -> Result<(), AllocError> {
        self.push_named(kind, number, name)?;
        Ok(())
    }
}
