//! Why an operation on forms fails.

ghost use Rattle.std.specs.Prelude.{◌≡◌, Some};
ghost use Rattle.pb_normal.specs.contract.Faults.{fault_text};
ghost use Rattle.pb_normal.specs.declared.fault.NormalFault.TheVariants.{Memory};

use std::alloc::{AllocError, AllocFailed};
use std::error::Error;
use std::fmt;

/// Why there is no form.
#[derive(Clone, Copy, Debug, PartialEq, Eq)]
pub enum NormalFault {
    /// The result exceeds the limit.
    Overflow,
    /// An allocation was refused.
    Memory,
}

impl fmt::Display for NormalFault {
    ghost output = { λ fault. Some (fault_text fault) };

    fn fmt<W: fmt::Write>(&self, f: &mut fmt::Formatter<W>) -> fmt::Result {
        f.write_str(match self {
            NormalFault::Overflow => "overflow",
            NormalFault::Memory => "out of memory",
        })
    }
}

impl Error for NormalFault {}

impl From<AllocError> for NormalFault {
    ghost from_gives = { λ _ e. e ≡ Memory };

    fn from(_e: AllocError) -> NormalFault {
        NormalFault::Memory
    }
}

impl<T: Drop> From<AllocFailed<T>> for NormalFault {
    ghost from_gives = { λ _ e. e ≡ Memory };

    fn from(_e: AllocFailed<T>) -> NormalFault {
        NormalFault::Memory
    }
}
