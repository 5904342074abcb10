//! The rules for a value of the grammar.

ghost use Rattle.std.specs.Prelude.{◌≡◌, ◌<◌, ◌≤◌, ◌^◌, ◌↔◌, IsTrue, nat_abs};
ghost use Rattle.pb_text.specs.meaning.Classes.{is_name_byte};
ghost use Rattle.pb_text.specs.meaning.Languages.{Each};
ghost use Rattle.pb_text.specs.meaning.Limits.{largest};
ghost use Rattle.pb_sums.specs.contract.Canonical.{IsTerm, AreTerms, IsLinear};
ghost use Rattle.pb_sums.specs.meaning.Sums.{IsName};

use crate::linear::{Linear, Term};
use pb_text::Limits;
use pb_text::bytes::{is_letter, is_name_byte};

fn are_name_bytes(bytes: &[u8]) -> bool
    ensures { IsTrue result ↔ Each (λ b. IsTrue (is_name_byte b)) bytes.now }
{
    for byte in bytes {
        if !is_name_byte(*byte) {
            return false;
        }
    }
    true
}

/// Whether the text is a name: a letter followed by one or more name bytes.
pub fn is_name(text: &str) -> bool
    ensures { IsTrue result ↔ IsName text.now }
{
    let bytes = text.as_bytes();
    bytes.len() >= 2 && is_letter(bytes[0]) && are_name_bytes(&bytes[1..])
}

fn is_within(value: i128, limit: u128) -> bool
    requires { limit < 2 ^ 127 }
    ensures { IsTrue result ↔ (nat_abs value ≤ limit) }
{
    let most = limit as i128;
    -most <= value && value <= most
}

fn term_is_value(term: &Term, limit: u128) -> bool
    requires { limit < 2 ^ 127 }
    ensures { IsTrue result ↔ IsTerm limit term.now }
{
    is_within(term.coefficient, limit) && is_name(term.literal.name.as_str())
}

/// Whether each term has a name of the grammar, and a coefficient whose magnitude is within the
/// limits.
pub fn sum_is_value(terms: &[Term], limits: Limits) -> bool
    ensures { IsTrue result ↔ AreTerms (largest limits) terms.now }
{
    for term in terms {
        if !term_is_value(term, limits.largest()) {
            return false;
        }
    }
    true
}

/// The same for its terms, and whether the magnitude of the degree is within the limits.
pub fn linear_is_value(linear: &Linear, limits: Limits) -> bool
    ensures { IsTrue result ↔ IsLinear (largest limits) linear.now }
{
    sum_is_value(linear.terms.as_slice(), limits) && is_within(linear.degree, limits.largest())
}
