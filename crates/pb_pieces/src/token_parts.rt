//! What the tokens of a statement state, whatever their order.

use crate::given_token::GivenToken;
use crate::tokens::TokenKind;
use pb_proof::{Bound, PolWord};
use pb_sums::{Linear, Literal, Name, Relation, Term};
use pb_text::Sequence;
use std::alloc::{AllocError, Global};

/// The tokens of a statement, sorted by what they are.
#[derive(Drop)]
pub(crate) struct TokenParts {
    pub(crate) terms: Sequence<Term>,
    pub(crate) literals: Sequence<Literal>,
    pub(crate) ids: Vec<i64>,
    pub(crate) counts: Vec<u64>,
    pub(crate) bounds: Vec<Bound>,
    /// The first relation, with its degree.
    relation: Option<(Relation, i128)>,
    /// Whether a solution is given.
    shown: bool,
}

impl TokenParts {
    /// The parts of these tokens.
    pub(crate) fn of(alloc: Global, tokens: &[GivenToken]) -> Result<TokenParts, AllocError> {
        let mut parts = TokenParts {
            terms: Sequence::new(alloc),
            literals: Sequence::new(alloc),
            ids: Vec::new(alloc),
            counts: Vec::new(alloc),
            bounds: Vec::new(alloc),
            relation: None,
            shown: false,
        };
        for token in tokens {
            parts.add(alloc, token)?;
        }
        Ok(parts)
    }

    /// One more token.
    fn add(&mut self, alloc: Global, token: &GivenToken) -> Result<(), AllocError> {
        match token.kind {
            TokenKind::Term => self.add_term(alloc, token, false)?,
            TokenKind::NegatedTerm => self.add_term(alloc, token, true)?,
            TokenKind::Literal => self.literals.push(literal_of(alloc, token, false)?)?,
            TokenKind::NegatedLiteral => self.literals.push(literal_of(alloc, token, true)?)?,
            TokenKind::AtLeast => self.relate(Relation::AtLeast, token.number),
            TokenKind::Equal => self.relate(Relation::Equal, token.number),
            TokenKind::Count => self.counts.push(count_of(token))?,
            TokenKind::Id => self.ids.push(id_of(token))?,
            TokenKind::Bound => self.bounds.push(Bound::Finite(token.number))?,
            TokenKind::Infinite => self.bounds.push(Bound::Infinite)?,
            TokenKind::Solution => self.shown = true,
            _ => {}
        }
        Ok(())
    }

    fn add_term(
        &mut self,
        alloc: Global,
        token: &GivenToken,
        negated: bool,
    ) -> Result<(), AllocError> {
        let literal = literal_of(alloc, token, negated)?;
        self.terms.push(Term {
            coefficient: token.number,
            literal,
        })?;
        Ok(())
    }

    fn relate(&mut self, relation: Relation, degree: i128) {
        if self.relation.is_none() {
            self.relation = Some((relation, degree));
        }
    }

    /// The count with this index, or 0.
    pub(crate) fn count(&self, index: usize) -> u64 {
        match self.counts.get(index) {
            Some(count) => *count,
            None => 0,
        }
    }

    /// The bound with this index, or `INF`.
    pub(crate) fn bound(&self, index: usize) -> Bound {
        match self.bounds.get(index) {
            Some(bound) => *bound,
            None => Bound::Infinite,
        }
    }

    /// The first id, if there is one.
    pub(crate) fn id(&self) -> Option<i64> {
        match self.ids.first() {
            Some(id) => Some(*id),
            None => None,
        }
    }

    /// The terms with the relation and its degree, or with `>= 0`.
    pub(crate) fn into_linear(self) -> Linear {
        let (relation, degree) = self.relation.unwrap_or((Relation::AtLeast, 0));
        Linear {
            terms: self.terms,
            relation,
            degree,
        }
    }

    /// The literals of a solution, if one is given.
    pub(crate) fn into_solution(self) -> Option<Sequence<Literal>> {
        if self.shown {
            Some(self.literals)
        } else {
            None
        }
    }
}

/// The words of a postfix expression.
pub(crate) fn words_of(
    alloc: Global,
    tokens: &[GivenToken],
) -> Result<Sequence<PolWord>, AllocError> {
    let mut words = Sequence::new(alloc);
    for token in tokens {
        words.push(word_of(alloc, token)?)?;
    }
    Ok(words)
}

/// The word of a token. A token that is no word gives one of another kind.
fn word_of(alloc: Global, token: &GivenToken) -> Result<PolWord, AllocError> {
    Ok(match token.kind {
        TokenKind::Id => PolWord::Id(id_of(token)),
        TokenKind::Literal => PolWord::Axiom(literal_of(alloc, token, false)?),
        TokenKind::NegatedLiteral => PolWord::Axiom(literal_of(alloc, token, true)?),
        TokenKind::Multiply => PolWord::Multiply(token.number),
        TokenKind::Divide => PolWord::Divide(token.number),
        TokenKind::Saturate => PolWord::Saturate,
        TokenKind::Weaken => PolWord::Weaken(name_of(alloc, token)?),
        _ => PolWord::Add,
    })
}

fn literal_of(alloc: Global, token: &GivenToken, negated: bool) -> Result<Literal, AllocError> {
    Ok(Literal {
        name: name_of(alloc, token)?,
        negated,
    })
}

/// The name of a token, or the empty one.
fn name_of(alloc: Global, token: &GivenToken) -> Result<Name, AllocError> {
    match &token.name {
        Some(name) => name.clone(),
        None => Ok(Name::new(alloc)),
    }
}

/// The number of a token as an id, or 0 if it is too large for one.
fn id_of(token: &GivenToken) -> i64 {
    i64::try_from(token.number).unwrap_or(0)
}

/// The number of a token as a count, or 0 if it is none.
fn count_of(token: &GivenToken) -> u64 {
    u64::try_from(token.number).unwrap_or(0)
}
