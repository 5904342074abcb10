//! The tokens of a statement in the arrays of a caller.

ghost use Rattle.std.specs.Prelude.{◌≡◌, IfOk, IfSome, None, Some, Option, length, map, slice_get, unwrap_or, ◌+◌, ◌<◌};
ghost use Rattle.std.specs.Option.{option_copied};
ghost use Rattle.pb_pieces.specs.GivenTokens.{AreGiven, IsGivenAt, IsNumberOf, arrays_of, between, name_at, token_in};
ghost use Rattle.pb_pieces.specs.Tokens.{token_code};
ghost use Rattle.pb_pieces.specs.Words.{high_word, low_word};

use crate::given_token::GivenToken;
use crate::make_fault::MakeFault;
use crate::tokens::TokenKind;
use crate::words::join;
use pb_sums::Name;
use std::alloc::Global;

/// The arrays of the tokens of a statement, and the names that they are numbered by.
#[derive(Clone, Copy)]
pub struct TokenArrays<'a> {
    /// What each token is.
    pub codes: &'a [u8],
    /// The number of each token's name, or 0 if it has none.
    pub names: &'a [u64],
    /// The low words of the numbers.
    pub lows: &'a [u64],
    /// The high words of the numbers.
    pub highs: &'a [i64],
    /// The bytes of all names, one name after another.
    pub bytes: &'a [u8],
    /// Where each name begins.
    pub starts: &'a [u64],
}

/// The tokens that the arrays have.
pub(crate) fn tokens_given(alloc: Global, arrays: TokenArrays) -> Result<Vec<GivenToken>, MakeFault>
    ensures { IfOk result (λ tokens. AreGiven (arrays_of arrays.entry)
        (map token_in tokens.items)) }
{
    let count = arrays.codes.len();
    if arrays.names.len() != count || arrays.lows.len() != count || arrays.highs.len() != count {
        return Err(MakeFault::Lengths);
    }
    let mut tokens = Vec::new(alloc);
    'tokens: for index in 0..count {
        tokens.push(token_at(alloc, arrays, index)?)?;
    }
    Ok(tokens)
}

/// The token at an index.
fn token_at(alloc: Global, arrays: TokenArrays, index: usize) -> Result<GivenToken, MakeFault>
    ensures { IfOk result (λ t. IsGivenAt (arrays_of arrays.entry) index (token_in t)) }
{
    match (
        kind_at(arrays.codes, index),
        number_at(arrays.lows, arrays.highs, index),
        arrays.names.get(index),
    ) {
        (Some(kind), Some(number), Some(name)) => {
            let name = name_given(alloc, kind, *name, arrays.bytes, arrays.starts, index)?;
            Ok(GivenToken { kind, number, name })
        }
        _ => Err(MakeFault::Token(index)),
    }
}

/// The kind of the token at an index.
fn kind_at(codes: &[u8], index: usize) -> Option<TokenKind>
    ensures { IfSome result (λ kind. slice_get codes.now index ≡ Some (token_code kind)) }
{
    match codes.get(index) {
        Some(code) => kind_of(*code),
        None => None,
    }
}

/// The kind of token with a code.
fn kind_of(code: u8) -> Option<TokenKind>
    ensures { IfSome result (λ kind. token_code kind ≡ code) }
{
    match code {
        1 => Some(TokenKind::Term),
        2 => Some(TokenKind::NegatedTerm),
        3 => Some(TokenKind::Literal),
        4 => Some(TokenKind::NegatedLiteral),
        5 => Some(TokenKind::AtLeast),
        6 => Some(TokenKind::Equal),
        7 => Some(TokenKind::Count),
        8 => Some(TokenKind::Id),
        9 => Some(TokenKind::Add),
        10 => Some(TokenKind::Multiply),
        11 => Some(TokenKind::Divide),
        12 => Some(TokenKind::Saturate),
        13 => Some(TokenKind::Weaken),
        14 => Some(TokenKind::Bound),
        15 => Some(TokenKind::Infinite),
        16 => Some(TokenKind::Solution),
        _ => None,
    }
}

/// The number of the token at an index.
fn number_at(lows: &[u64], highs: &[i64], index: usize) -> Option<i128>
    ensures low { IfSome result (λ n. slice_get lows.now index ≡ Some (low_word n)) }
    ensures high { IfSome result (λ n. slice_get highs.now index ≡ Some (high_word n)) }
{
    match (lows.get(index), highs.get(index)) {
        (Some(low), Some(high)) => Some(join(*low, *high)),
        _ => None,
    }
}

/// The name with a number, where the kind of a token has one. Without a name the number has to be
/// 0.
fn name_given(
    alloc: Global,
    kind: TokenKind,
    number: u64,
    bytes: &[u8],
    starts: &[u64],
    index: usize,
) -> Result<Option<Name>, MakeFault>
    ensures { IfOk result (λ name. IsNumberOf bytes.now starts.now number name) }
{
    if has_name(kind) {
        match name_at(bytes, starts, number) {
            Some(name) => match str::from_utf8(name) {
                Ok(text) => Ok(Some(Name::from_text(alloc, text)?)),
                Err(_) => Err(MakeFault::Token(index)),
            },
            None => Err(MakeFault::Token(index)),
        }
    } else if number == 0 {
        Ok(None)
    } else {
        Err(MakeFault::Token(index))
    }
}

/// Whether a token of the kind has a name.
fn has_name(kind: TokenKind) -> bool {
    matches!(
        kind,
        TokenKind::Term
            | TokenKind::NegatedTerm
            | TokenKind::Literal
            | TokenKind::NegatedLiteral
            | TokenKind::Weaken
    )
}

/// The bytes of the name with a number.
fn name_at<'a>(bytes: &'a [u8], starts: &[u64], number: u64) -> Option<&'a [u8]>
    ensures { option_copied result ≡ name_at bytes.now starts.now number }
{
    match starts.get(number as usize) {
        Some(first) => between(bytes, *first, past_of(bytes, starts, number)),
        None => None,
    }
}

/// Where the name with a number ends.
fn past_of(bytes: &[u8], starts: &[u64], number: u64) -> u64
    requires { number < length starts.now }
    ensures { result ≡ unwrap_or (slice_get starts.now (number + 1)) (length bytes.now) }
{
    starts
        .get(number as usize + 1)
        .copied()
        .unwrap_or(bytes.len() as u64)
}

/// The bytes from one offset up to another.
fn between(bytes: &[u8], first: u64, past: u64) -> Option<&[u8]>
    ensures { option_copied result ≡ between bytes.now first past }
{
    if first <= past && past <= bytes.len() as u64 {
        Some(&bytes[first as usize..past as usize])
    } else {
        None
    }
}
