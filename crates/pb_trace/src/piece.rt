//! What the reasons of a rejection consist of.

use crate::propagation::Forced;
use pb_normal::Normal;
use std::alloc::{AllocError, Global};

/// A part of a line.
#[derive(Drop)]
pub(crate) enum Piece {
    /// Words of the program.
    Text(&'static [u8]),
    /// A count, a line or an id.
    Count(u64),
    /// A number.
    Number(i128),
    /// The literal of the variable with this number, and whether it is negated.
    Literal(usize, bool),
    /// The constraint with this id, live or deleted, after its id. Where it was added and deleted
    /// follows.
    Constraint(u64),
    /// A constraint that has no id.
    Form(Normal),
    /// The word of a `pol` with this position, counted from 1.
    Word(usize),
}

/// Lines, each without the two spaces before it and the line feed. The parts of all are in one
/// list.
#[derive(Drop)]
pub(crate) struct Lines {
    pub(crate) pieces: Vec<Piece>,
    /// For each line how many parts there are up to its end.
    pub(crate) ends: Vec<usize>,
}

/// Literals that became true, in order: given ones, and those that a negation and stored
/// constraints then force.
#[derive(Drop)]
pub(crate) struct Derivation {
    pub(crate) negation: Option<Normal>,
    pub(crate) forced: Vec<Forced>,
}

/// What is known of a rejection.
#[derive(Drop)]
pub(crate) enum Reasons {
    Nothing,
    Plain(Lines),
    /// A derivation, with the lines before it, if there are any, and those after it.
    Shown(Option<Lines>, Derivation, Lines),
}

impl Lines {
    /// No lines.
    pub(crate) fn new(alloc: Global) -> Lines {
        Lines {
            pieces: Vec::new(alloc),
            ends: Vec::new(alloc),
        }
    }

    /// Adds a line.
    pub(crate) fn add(&mut self, mut pieces: Vec<Piece>) -> Result<(), AllocError> {
        self.pieces.append(&mut pieces)?;
        self.ends.push(self.pieces.len())?;
        Ok(())
    }
}
