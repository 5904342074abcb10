//! Compares tokens with those that a caller gives.

ghost use Rattle.std.specs.Prelude.{◌≡◌, ◌<◌, [], List, IfSome, None, Some, length, map, slice_get, true};
ghost use Rattle.pb_pieces.specs.GivenTokens.{token_in};
ghost use Rattle.pb_pieces.specs.declared.given_token.GivenToken.{GivenToken as AGiven};
ghost use Rattle.pb_pieces.specs.Matcher.{Compared};
ghost use Rattle.pb_pieces.specs.Tokens.{Token, token};

use crate::given_token::GivenToken;
use crate::token_sink::TokenSink;
use crate::tokens::TokenKind;
use std::alloc::AllocError;

/// Compares tokens in order with given ones. After a difference it compares no more.
#[derive(Drop)]
pub(crate) struct Matcher {
    given: Vec<GivenToken>,
    count: usize,
    same: bool,
}

impl Matcher {
    /// Compares with these tokens.
    pub(crate) fn new(given: Vec<GivenToken>) -> Matcher
        ensures { Compared given.items [] result }
    {
        Matcher {
            given,
            count: 0,
            same: true,
        }
    }

    /// The next given token, if none differs so far.
    fn next(&self) -> Option<&GivenToken>
        ensures within { IfSome result (λ g. self.now.count < length self.now.given.items) }
        ensures token { IfSome result (λ g.
            slice_get self.now.given.items self.now.count ≡ Some g.now) }
        ensures same { IfSome result (λ g. self.now.same ≡ true) }
    {
        if self.same && self.count < self.given.len() {
            Some(&self.given[self.count])
        } else {
            None
        }
    }

    /// The index of the first token that differs, if there is one.
    pub(crate) fn difference(&self) -> Option<usize>
        ensures { (given : List AGiven) (tokens : List Token) → Compared given tokens self.now
            → result ≡ None → tokens ≡ map token_in given }
    {
        if self.same && self.count == self.given.len() {
            None
        } else {
            Some(self.count)
        }
    }
}

impl TokenSink for Matcher {
    ghost took = { λ start tokens m. Compared start.given.items tokens m };

    fn put(&mut self, kind: TokenKind, number: i128) -> Result<(), AllocError> {
        match self.next() {
            Some(given) if given.is(kind, number) => self.count += 1,
            _ => self.same = false,
        }
        Ok(())
    }

    fn put_named(&mut self, kind: TokenKind, number: i128, name: &str) -> Result<(), AllocError> {
        match self.next() {
            Some(given) if given.is_named(kind, number, name) => self.count += 1,
            _ => self.same = false,
        }
        Ok(())
    }
}
