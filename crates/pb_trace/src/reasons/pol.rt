//! The words of a rejected `pol`, one after another.

use crate::piece::Piece;
use crate::reasons::{Scene, copy_of, number};
use pb_normal::{Normal, NormalFault};
use pb_proof::PolWord;
use std::alloc::AllocError;

/// What a word puts on the stack.
#[derive(Drop)]
enum Outcome {
    Form(Normal),
    /// No live constraint has the id.
    NoId,
    /// The result exceeds the limit. The operands have these sums of coefficients and degrees.
    Overflow(Vec<(u128, i128)>),
    /// An operand is missing, which no text of a proof can cause.
    Nothing,
}

impl Scene<'_> {
    /// The words up to the one that fails, each with what it puts on the stack.
    pub(crate) fn say_words(&mut self, words: &[PolWord]) -> Result<(), AllocError> {
        let mut stack = Vec::new(self.alloc);
        let mut position = 0usize;
        for word in words {
            position = position.saturating_add(1);
            match self.apply(word, &mut stack)? {
                Outcome::Form(form) => {
                    self.say_word(position, b" -> ", Some(copy_of(&form)?))?;
                    stack.push(form)?;
                }
                Outcome::NoId => return self.say_word(position, b" -> no such id", None),
                Outcome::Overflow(operands) => {
                    self.say_word(position, b" -> overflow", None)?;
                    return self.say_operands(operands.as_slice());
                }
                Outcome::Nothing => return Ok(()),
            }
        }
        Ok(())
    }

    /// A word with its position, and what it gives.
    fn say_word(
        &mut self,
        position: usize,
        end: &'static [u8],
        form: Option<Normal>,
    ) -> Result<(), AllocError> {
        let mut pieces = vec![in self.alloc;
            Piece::Text(b"word "),
            Piece::Count(position as u64),
            Piece::Text(b": "),
            Piece::Word(position),
            Piece::Text(end),
        ]?;
        if let Some(form) = form {
            pieces.push(Piece::Form(form))?;
        }
        self.say(pieces)
    }

    /// The sizes of operands whose result exceeds the limit.
    fn say_operands(&mut self, operands: &[(u128, i128)]) -> Result<(), AllocError> {
        for (size, degree) in operands {
            self.say(vec![in self.alloc;
                Piece::Text(b"operand: its coefficients sum to "),
                number(*size),
                Piece::Text(b", its degree is "),
                Piece::Number(*degree),
            ]?)?;
        }
        Ok(())
    }

    /// What a word puts on the stack, in place of what it takes.
    fn apply(&self, word: &PolWord, stack: &mut Vec<Normal>) -> Result<Outcome, AllocError> {
        match word {
            PolWord::Id(id) => match self.constraints.find_written(*id) {
                Some((_, form)) => Ok(Outcome::Form(copy_of(form)?)),
                None => Ok(Outcome::NoId),
            },
            PolWord::Axiom(literal) => match self.names.number_of(literal.name.as_str()) {
                Some(number) => self.axiom(number, literal.negated),
                None => Ok(Outcome::Nothing),
            },
            PolWord::Add => match (stack.pop(), stack.pop()) {
                (Some(right), Some(left)) => self.sum(&left, &right),
                _ => Ok(Outcome::Nothing),
            },
            _ => match stack.pop() {
                Some(form) => self.apply_to_one(word, &form),
                None => Ok(Outcome::Nothing),
            },
        }
    }

    fn axiom(&self, number: usize, negated: bool) -> Result<Outcome, AllocError> {
        let form = Normal::axiom(self.alloc, number, negated);
        self.result(form, Vec::new(self.alloc))
    }

    fn sum(&self, left: &Normal, right: &Normal) -> Result<Outcome, AllocError> {
        let operands = vec![in self.alloc;
            (left.size(), left.degree()),
            (right.size(), right.degree()),
        ]?;
        self.result(left.add(right, self.limits), operands)
    }

    /// What a word makes of one form.
    fn apply_to_one(&self, word: &PolWord, form: &Normal) -> Result<Outcome, AllocError> {
        let operands = vec![in self.alloc; (form.size(), form.degree())]?;
        match word {
            PolWord::Multiply(factor) if *factor >= 1 => self.result(
                form.multiply(*factor, self.limits),
                operands,
            ),
            PolWord::Divide(divisor) if *divisor >= 1 => self.result(
                form.divide(*divisor),
                operands,
            ),
            PolWord::Saturate => self.result(form.saturate(), operands),
            PolWord::Weaken(name) => match self.names.number_of(name.as_str()) {
                Some(number) => self.result(form.weaken(number), operands),
                None => Ok(Outcome::Nothing),
            },
            _ => Ok(Outcome::Nothing),
        }
    }

    fn result(
        &self,
        form: Result<Normal, NormalFault>,
        operands: Vec<(u128, i128)>,
    ) -> Result<Outcome, AllocError> {
        match form {
            Ok(form) => Ok(Outcome::Form(form)),
            Err(NormalFault::Overflow) => Ok(Outcome::Overflow(operands)),
            Err(NormalFault::Memory) => Err(AllocError),
        }
    }
}
