//! The positions of a form's entries in the occurrence lists.

ghost use Rattle.std.specs.Prelude.{◌≡◌, ◌<◌, ◌≤◌, ◌^◌, ◌++◌, ◌∷◌, [], length, slice_index_or, slice_set, IfOk, OnOk, OnErr};
ghost use Rattle.pb_propagate.specs.engine.engine.Spots.{spots_in};

use crate::column::Zero;
use std::alloc::{AllocError, Global};

/// For each term of a form the position of its entry in the list of its literal. A form of one term
/// needs no list.
#[derive(Drop)]
pub enum Spots {
    /// Those of no term.
    Empty,
    /// That of the only term.
    One(u32),
    /// Those of several terms.
    Many(Box<Vec<u32>>),
}

// A position as it is stored. It must fit in 4 bytes.
fn narrow(spot: usize) -> Result<u32, AllocError>
    ensures ok { IfOk result (λ s. s ≡ spot) }
    ensures err { OnErr result (2 ^ 32 ≤ spot) }
{
    if spot > u32::MAX as usize {
        return Err(AllocError);
    }
    Ok(spot as u32)
}

impl Zero for Spots {
    ghost use Rattle.pb_propagate.specs.declared.store.spots.Spots.TheVariants.{Empty};

    ghost zero = { Empty };

    #[inline]
    fn zero() -> Spots {
        Spots::Empty
    }

    #[inline]
    fn is_zero(&self) -> bool {
        match self {
            Spots::Empty => true,
            Spots::One(_) => false,
            Spots::Many(_) => false,
        }
    }
}

impl Spots {
    /// No position, with memory for this many.
    pub fn for_terms(alloc: Global, count: usize) -> Result<Spots, AllocError>
        ensures { IfOk result (λ s. spots_in s ≡ []) }
    {
        if count < 2 {
            return Ok(Spots::Empty);
        }
        let spots = Vec::with_capacity(alloc, count)?;
        let spots = Box::new(alloc, spots)?;
        Ok(Spots::Many(spots))
    }

    /// Adds the position of the next term's entry.
    pub fn add(&mut self, alloc: Global, spot: usize) -> Result<(), AllocError>
        ensures { OnOk result (spots_in self.new ≡ spots_in self.old ++ spot ∷ []) }
    {
        let spot = narrow(spot)?;
        match self {
            Spots::Empty => *self = Spots::One(spot),
            Spots::One(first) => {
                let mut spots = Vec::new(alloc);
                spots.push(*first)?;
                spots.push(spot)?;
                let spots = Box::new(alloc, spots)?;
                *self = Spots::Many(spots);
            }
            Spots::Many(spots) => spots.as_mut().push(spot)?,
        }
        Ok(())
    }

    /// The position of a term's entry.
    pub fn get(&self, index: usize) -> u32
        requires { index < length (spots_in self.now) }
        ensures { result ≡ slice_index_or (spots_in self.now) index result }
    {
        match self {
            Spots::Empty => unreachable!(),
            Spots::One(spot) => *spot,
            Spots::Many(spots) => spots.as_ref()[index],
        }
    }

    /// Writes the position of a term's entry.
    pub fn set(&mut self, index: usize, spot: u32)
        requires { index < length (spots_in self.old) }
        ensures { spots_in self.new ≡ slice_set (spots_in self.old) index spot }
    {
        match self {
            Spots::Empty => {}
            Spots::One(only) => *only = spot,
            Spots::Many(spots) => spots.as_mut()[index] = spot,
        }
    }
}
