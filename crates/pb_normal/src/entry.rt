//! The terms of a form.

/// A positive coefficient on a variable or on its negation.
#[derive(Clone, Copy, Debug, PartialEq, Eq)]
pub struct Entry {
    pub variable: usize,
    pub negated: bool,
    pub coefficient: u128,
}
