//! Why a job failed.

use pb_tool::{Input, ToolFault};
use std::io;

/// Why a job failed. If a file did not open, `reason` is what the system said of it. If a statement
/// was rejected and the check has found why, `reasons` are the lines that say so.
#[derive(Drop)]
pub(crate) struct Failure {
    pub(crate) fault: ToolFault,
    pub(crate) reason: Option<io::Error>,
    pub(crate) reasons: Option<Vec<u8>>,
}

impl Failure {
    /// A file that did not open.
    pub(crate) fn unopened(input: Input, reason: io::Error) -> Failure {
        Failure {
            fault: ToolFault::Open(input),
            reason: Some(reason),
            reasons: None,
        }
    }

    /// A check that failed, with the reasons that it has found.
    pub(crate) fn explained(fault: ToolFault, reasons: Vec<u8>) -> Failure {
        Failure {
            fault,
            reason: None,
            reasons: Some(reasons),
        }
    }
}

impl From<ToolFault> for Failure {
    fn from(fault: ToolFault) -> Failure {
        Failure {
            fault,
            reason: None,
            reasons: None,
        }
    }
}
