//! Literals by the numbers of their names.

ghost use Rattle.std.specs.Prelude.{◌≡◌};

/// The variable with this number, or its negation.
#[derive(Clone, Copy, Debug, PartialEq, Eq)]
pub struct NumberedLiteral {
    pub variable: usize,
    pub negated: bool,
}

impl NumberedLiteral {
    ghost use Rattle.pb_normal.specs.meaning.Rules.{negation};

    /// The literal that is true if this one is false.
    pub fn negation(self) -> NumberedLiteral
        ensures { result ≡ negation self }
    {
        NumberedLiteral {
            variable: self.variable,
            negated: !self.negated,
        }
    }
}
