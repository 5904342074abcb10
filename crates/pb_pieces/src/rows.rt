//! The objective and the constraints of an instance in arrays.

ghost use Rattle.std.specs.Prelude.{◌≡◌, ◌∷◌, ◌++◌, [], List, ℕ, OnOk};
ghost use Rattle.pb_pieces.specs.Rows.{HoldRows};
ghost use Rattle.pb_pieces.specs.declared.rows.Row.{Row as ARow};

use crate::words::split;
use std::alloc::{AllocError, Global};

/// The objective, if there is one, and then the constraints, in arrays of one length.
#[derive(Drop)]
pub struct Rows {
    /// 0 for the objective, 1 for `>=`, 2 for `=`.
    pub kinds: Vec<u8>,
    /// The number of terms through the end of each row.
    pub ends: Vec<u64>,
    /// The low words of the degrees. An objective has the degree 0.
    pub lows: Vec<u64>,
    /// The high words of the degrees.
    pub highs: Vec<i64>,
}

/// A row without its terms: what it is, the number of terms through its end, and its degree.
#[derive(Clone, Copy)]
pub struct Row {
    pub kind: u8,
    pub end: u64,
    pub degree: i128,
}

impl Rows {
    /// No rows. It allocates nothing.
    pub(crate) fn new(alloc: Global) -> Rows
        ensures { HoldRows [] result }
    {
        Rows {
            kinds: Vec::new(alloc),
            ends: Vec::new(alloc),
            lows: Vec::new(alloc),
            highs: Vec::new(alloc),
        }
    }

    /// One more row.
    pub(crate) fn push(&mut self, row: Row) -> Result<(), AllocError>
        ensures { (rows : List ARow) → HoldRows rows self.old →
            OnOk result (HoldRows (rows ++ row ∷ []) self.new) }
    {
        let (low, high) = split(row.degree);
        self.kinds.push(row.kind)?;
        self.ends.push(row.end)?;
        self.lows.push(low)?;
        self.highs.push(high)?;
        Ok(())
    }
}
