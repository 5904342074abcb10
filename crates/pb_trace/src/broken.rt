//! Why a trace ended.

ghost use Rattle.std.specs.Prelude.{◌≡◌};
ghost use Rattle.pb_trace.specs.declared.broken.Broken.TheVariants.{Memory, Write};

use pb_normal::NormalFault;
use pb_text::Failed;
use std::alloc::{AllocError, AllocFailed};

/// Why nothing more of a trace can be written.
#[derive(Clone, Copy)]
pub(crate) enum Broken {
    /// Memory ran out.
    Memory,
    /// The output could not be written.
    Write,
}

impl From<AllocError> for Broken {
    ghost from_gives = { λ _ e. e ≡ Memory };

    fn from(_error: AllocError) -> Broken {
        Broken::Memory
    }
}

impl<T: Drop> From<AllocFailed<T>> for Broken {
    ghost from_gives = { λ _ e. e ≡ Memory };

    fn from(_error: AllocFailed<T>) -> Broken {
        Broken::Memory
    }
}

impl From<NormalFault> for Broken {
    ghost from_gives = { λ _ e. e ≡ Memory };

    fn from(_fault: NormalFault) -> Broken {
        Broken::Memory
    }
}

impl From<Failed> for Broken {
    ghost from_gives = { λ _ e. e ≡ Write };

    fn from(_failed: Failed) -> Broken {
        Broken::Write
    }
}
