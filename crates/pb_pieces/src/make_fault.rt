//! Why no statement is made.

use std::alloc::{AllocError, AllocFailed};

/// Why there is no statement with these tokens.
#[derive(Clone, Copy, Debug, PartialEq, Eq)]
pub enum MakeFault {
    /// The arrays do not have one length.
    Lengths,
    /// The token with this index breaks a rule. The number of tokens stands for one that is
    /// missing, or for the free text.
    Token(usize),
    /// Memory ran out.
    Memory,
}

impl From<AllocError> for MakeFault {
    fn from(_e: AllocError) -> MakeFault {
        MakeFault::Memory
    }
}

impl<T: Drop> From<AllocFailed<T>> for MakeFault {
    fn from(_e: AllocFailed<T>) -> MakeFault {
        MakeFault::Memory
    }
}
