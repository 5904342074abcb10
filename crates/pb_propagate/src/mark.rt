//! The mark of a literal.

ghost use Rattle.std.specs.Prelude.{◌≡◌, ◌≤◌, ◌^◌, ◌⊎◌, IfOk, OnErr};

use crate::heads::Heads;
use std::alloc::AllocError;
use std::marker::Model;

/// The heads from before a literal was put, in 8 bytes. Contracts see the heads.
#[derive(Clone, Copy)]
pub struct Mark {
    short: u32,
    long: u32,
}

impl Model for Mark {
    ghost use Rattle.pb_propagate.specs.declared.heads.Heads.{Heads};

    ghost Value = { Heads };

    ghost view = { λ m. record { short = m.short; long = m.long } };

    ghost inverse = { λ h. record { short = h.short; long = h.long } };
}

impl Mark {
    /// The heads as they are stored. Both numbers must fit in 4 bytes.
    #[inline]
    pub fn of(heads: Heads) -> Result<Mark, AllocError>
        ensures ok { IfOk result (λ mark. mark ≡ heads) }
        ensures err { OnErr result ((2 ^ 32 ≤ heads.short) ⊎ (2 ^ 32 ≤ heads.long)) }
    {
        let largest = u32::MAX as usize;
        if heads.short > largest || heads.long > largest {
            return Err(AllocError);
        }
        Ok(Mark {
            short: heads.short as u32,
            long: heads.long as u32,
        })
    }

    /// The heads.
    #[inline]
    pub fn heads(&self) -> Heads
        ensures { result ≡ self.now }
    {
        Heads {
            short: self.short as usize,
            long: self.long as usize,
        }
    }
}
