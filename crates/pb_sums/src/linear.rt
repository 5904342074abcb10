//! Literals, terms, relations and linear texts.

ghost use Rattle.std.specs.Prelude.{◌≡◌};

use crate::Name;
use pb_text::Sequence;
use std::alloc::AllocError;

/// A name or its negation.
#[derive(Debug, Drop, PartialEq)]
pub struct Literal {
    pub name: Name,
    pub negated: bool,
}

impl Clone for Literal {
    ghost is_clone = { λ x y. y ≡ x };

    fn clone(&self) -> Result<Literal, AllocError> {
        Ok(Literal {
            name: self.name.clone()?,
            negated: self.negated,
        })
    }
}

/// A literal with its coefficient.
#[derive(Debug, Drop, PartialEq)]
pub struct Term {
    pub coefficient: i128,
    pub literal: Literal,
}

impl Clone for Term {
    ghost is_clone = { λ x y. y ≡ x };

    fn clone(&self) -> Result<Term, AllocError> {
        Ok(Term {
            coefficient: self.coefficient,
            literal: self.literal.clone()?,
        })
    }
}

/// How a sum compares with its degree.
#[derive(Clone, Copy, Debug, PartialEq, Eq)]
pub enum Relation {
    AtLeast,
    Equal,
}

/// A constraint as written: repeated names and zero coefficients are preserved.
#[derive(Debug, Drop, PartialEq)]
pub struct Linear {
    pub terms: Sequence<Term>,
    pub relation: Relation,
    pub degree: i128,
}

/// What a machine has read.
#[derive(Debug, Drop, PartialEq)]
pub enum SumEvent {
    Sum(Sequence<Term>),
    Linear(Linear),
}
