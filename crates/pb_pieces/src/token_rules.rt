//! The rules that a single token meets.

use crate::given_token::GivenToken;
use crate::tokens::TokenKind;
use pb_proof::PolWord;
use pb_sums::is_name;
use pb_text::Limits;

/// The index of the first token whose name or number breaks a rule.
pub(crate) fn first_wrong(tokens: &[GivenToken], limits: Limits) -> Option<usize> {
    for (index, token) in tokens.iter().enumerate() {
        if !has_right_name(token) || !has_right_number(token, limits) {
            return Some(index);
        }
    }
    None
}

/// Whether there is no name, or one of the grammar.
fn has_right_name(token: &GivenToken) -> bool {
    match &token.name {
        Some(name) => is_name(name.as_str()),
        None => true,
    }
}

/// Whether the number is within the limits for its kind. A token without a number has to have 0.
fn has_right_number(token: &GivenToken, limits: Limits) -> bool {
    let number = token.number;
    let most = limits.largest() as i128;
    let top = limits.top() as i128;
    match token.kind {
        TokenKind::Term
        | TokenKind::NegatedTerm
        | TokenKind::AtLeast
        | TokenKind::Equal
        | TokenKind::Bound => -most <= number && number <= most,
        TokenKind::Count => 0 <= number && number <= top,
        TokenKind::Id => number != 0 && -top <= number && number <= top,
        TokenKind::Multiply | TokenKind::Divide => 1 <= number && number <= most,
        _ => number == 0,
    }
}

/// The index of the first word that finds too few expressions before it. Without one it is the
/// number of words.
pub(crate) fn first_wrong_word(words: &[PolWord]) -> usize {
    let mut finished: usize = 0;
    for (index, word) in words.iter().enumerate() {
        match word {
            PolWord::Id(_) | PolWord::Axiom(_) => finished = finished.saturating_add(1),
            PolWord::Add if finished >= 2 => finished -= 1,
            PolWord::Add => return index,
            _ if finished == 0 => return index,
            _ => {}
        }
    }
    words.len()
}
