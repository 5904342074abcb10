//! A list of sums, most of which are zero. It stores a small sum in 4 bytes.

ghost use Rattle.std.specs.Prelude.{◌≡◌, ℕ, ◌-◌, ◌^◌, ◌<◌, ◌++◌, ◌∷◌, [], length, take, slice_index_or, slice_set, IfOk, OnOk, OnErr};

use crate::column::Column;
use std::alloc::{AllocError, Global};
use std::marker::Model;

// What the narrow column has where the sum is in the wide one.
const ELSEWHERE: u32 = u32::MAX;

/// A list of sums, most of which are zero. A sum below 2^32 - 1 takes 4 bytes. A sum is set without
/// an allocation, since memory is reserved when the list grows.
#[derive(Drop)]
pub struct OpenSums {
    // Each sum that is below 2^32 - 1. Where it is not, 2^32 - 1.
    narrow: Column<u32>,
    // Each sum that is not. Where the sum is narrow, nobody reads what is here.
    wide: Column<u128>,
}

impl Model for OpenSums {
    ghost use Rattle.std.specs.Prelude.{◌≡◌, ℕ, List, length};
    ghost use Rattle.pb_propagate.specs.engine.OpenSums.{sums_of};

    ghost Value = { List ℕ };

    ghost view = { λ s. sums_of s.narrow s.wide };

    ghost invariant = { λ s. length s.narrow ≡ length s.wide };
}

impl OpenSums {
    /// No sum.
    pub fn new(alloc: Global) -> Self
        ensures { result ≡ [] }
    {
        OpenSums {
            narrow: Column::new(alloc),
            wide: Column::new(alloc),
        }
    }

    /// No sum, with memory reserved for this many.
    pub fn with_capacity(alloc: Global, count: usize) -> Result<Self, AllocError>
        ensures { IfOk result (λ s. s ≡ []) }
    {
        let narrow = Column::with_capacity(alloc, count)?;
        let wide = Column::with_capacity(alloc, count)?;
        Ok(OpenSums { narrow, wide })
    }

    /// How many sums there are.
    pub fn len(&self) -> usize
        ensures is { result ≡ length self.now }
        ensures small { result < 2 ^ 63 }
    {
        self.narrow.len()
    }

    /// A sum.
    #[inline]
    pub fn get(&self, index: usize) -> u128
        requires { index < length self.now }
        ensures { (d : ℕ) → result ≡ slice_index_or self.now index d }
    {
        let sum = self.narrow.get(index);
        if sum == ELSEWHERE {
            return self.wide.get(index);
        }
        u128::from(sum)
    }

    /// Writes a sum. Nothing is allocated.
    #[inline]
    pub fn set(&mut self, index: usize, sum: u128)
        requires { index < length self.old }
        ensures { self.new ≡ slice_set self.old index sum }
    {
        if sum >= u128::from(ELSEWHERE) {
            self.narrow.set(index, ELSEWHERE);
            self.wide.set(index, sum);
            return;
        }
        self.narrow.set(index, sum as u32);
    }

    /// Makes a sum zero. No page is stored for it.
    pub fn set_empty(&mut self, index: usize)
        requires { index < length self.old }
        ensures { self.new ≡ slice_set self.old index 0 }
    {
        self.narrow.set_empty(index);
    }

    /// Appends a zero. No page is stored for it.
    #[inline]
    pub fn push_empty(&mut self) -> Result<(), AllocError>
        ensures ok { OnOk result (self.new ≡ self.old ++ 0 ∷ []) }
        ensures err { OnErr result (self.new ≡ self.old) }
    {
        self.narrow.push_empty()?;
        let pushed = self.wide.push_empty();
        if pushed.is_err() {
            self.narrow.pop();
        }
        pushed
    }

    /// Removes the last sum, if there is one.
    pub fn pop(&mut self)
        ensures { self.new ≡ take (length self.old - 1) self.old }
    {
        self.narrow.pop();
        self.wide.pop();
    }
}
