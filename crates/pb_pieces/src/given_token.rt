//! A token that a caller gives.

ghost use Rattle.std.specs.Prelude.{◌≡◌, IsTrue, None, Some};
ghost use Rattle.pb_pieces.specs.Tokens.{token};
ghost use Rattle.pb_pieces.specs.GivenTokens.{token_in};

use crate::tokens::TokenKind;
use pb_sums::Name;

/// What a token is, its number, or 0, and its name, if it has one.
#[derive(Drop)]
pub struct GivenToken {
    pub kind: TokenKind,
    pub number: i128,
    pub name: Option<Name>,
}

impl GivenToken {
    /// Whether this is the token with this kind and number, and without a name.
    pub(crate) fn is(&self, kind: TokenKind, number: i128) -> bool
        ensures { IsTrue result → token_in self.now ≡ token kind number None }
    {
        match &self.name {
            None => self.kind == kind && self.number == number,
            Some(_) => false,
        }
    }

    /// Whether this is the token with this kind, number and name.
    pub(crate) fn is_named(&self, kind: TokenKind, number: i128, name: &str) -> bool
        ensures { IsTrue result → token_in self.now ≡ token kind number (Some name.now) }
    {
        match &self.name {
            Some(own) => self.kind == kind && self.number == number && own.as_str() == name,
            None => false,
        }
    }
}
