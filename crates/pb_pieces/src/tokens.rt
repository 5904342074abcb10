//! The tokens of a statement in arrays.

ghost use Rattle.std.specs.Prelude.{◌≡◌, ◌∷◌, ◌++◌, [], List, ℕ, Option, OnOk};
ghost use Rattle.pb_pieces.specs.Tokens.{HoldTokens, Token, token, token_code};

use crate::words::split;
use std::alloc::{AllocError, Global};

/// What a token is.
#[derive(Clone, Copy, Debug, PartialEq, Eq)]
pub enum TokenKind {
    /// A coefficient and a name.
    Term,
    /// A coefficient and a negated name.
    NegatedTerm,
    /// A name, of a solution or an axiom.
    Literal,
    /// A negated name.
    NegatedLiteral,
    /// `>=` and a degree.
    AtLeast,
    /// `=` and a degree.
    Equal,
    /// A count of a header or of `f`.
    Count,
    /// The id of a constraint, as written.
    Id,
    /// `+`.
    Add,
    /// A factor and `*`.
    Multiply,
    /// A divisor and `d`.
    Divide,
    /// `s`.
    Saturate,
    /// A name and `w`.
    Weaken,
    /// A finite bound.
    Bound,
    /// `INF`.
    Infinite,
    /// The literals of a solution follow, maybe none.
    Solution,
}

/// The tokens of a statement, in arrays of one length.
#[derive(Drop)]
pub struct Tokens {
    /// What each token is.
    pub codes: Vec<u8>,
    /// The number of each token's name, or 0 if it has none.
    pub names: Vec<u64>,
    /// The low words of the numbers. A token without a number has the number 0.
    pub lows: Vec<u64>,
    /// The high words of the numbers.
    pub highs: Vec<i64>,
}

impl Tokens {
    /// No tokens. It allocates nothing.
    pub(crate) fn new(alloc: Global) -> Tokens
        ensures { HoldTokens [] [] result }
    {
        Tokens {
            codes: Vec::new(alloc),
            names: Vec::new(alloc),
            lows: Vec::new(alloc),
            highs: Vec::new(alloc),
        }
    }

    /// Takes all tokens away, and stores nothing less.
    pub(crate) fn clear(&mut self)
        ensures { HoldTokens [] [] self.new }
    {
        self.codes.clear();
        self.names.clear();
        self.lows.clear();
        self.highs.clear();
    }

    /// One more token, whose name has the number.
    pub(crate) fn push(
        &mut self,
        kind: TokenKind,
        number: i128,
        name: u64,
    ) -> Result<(), AllocError>
        ensures { (tokens : List Token) (names : List ℕ) (text : Option (List ℕ)) →
            HoldTokens tokens names self.old
            → OnOk result (HoldTokens (tokens ++ token kind number text ∷ [])
            (names ++ name ∷ []) self.new) }
    {
        let (low, high) = split(number);
        self.codes.push(token_code(kind))?;
        self.names.push(name)?;
        self.lows.push(low)?;
        self.highs.push(high)?;
        Ok(())
    }
}

/// The code of a token in the arrays.
fn token_code(kind: TokenKind) -> u8
    ensures { result ≡ token_code kind }
{
    match kind {
        TokenKind::Term => 1,
        TokenKind::NegatedTerm => 2,
        TokenKind::Literal => 3,
        TokenKind::NegatedLiteral => 4,
        TokenKind::AtLeast => 5,
        TokenKind::Equal => 6,
        TokenKind::Count => 7,
        TokenKind::Id => 8,
        TokenKind::Add => 9,
        TokenKind::Multiply => 10,
        TokenKind::Divide => 11,
        TokenKind::Saturate => 12,
        TokenKind::Weaken => 13,
        TokenKind::Bound => 14,
        TokenKind::Infinite => 15,
        TokenKind::Solution => 16,
    }
}
