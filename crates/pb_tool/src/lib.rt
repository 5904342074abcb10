//! The commands, their arguments and their faults.
#![tactic(auto)]

mod canonical;
mod commands;
mod fault;
mod file;
pub mod laws;
mod limits;

pub use commands::check::checker::{CheckFault, Checker, Went};
pub use commands::check::instance::replay_of_instance;
pub use commands::check::watch::{Unwatched, Watch};
pub use commands::check::{check, check_watched, check_with_hasher};
pub use commands::show::show;
pub use commands::tidy::{tidy, tidy_with_hasher};
pub use fault::{Input, ToolFault, status, write_fault};
pub use limits::limits_of;
pub use pb_words::{Job, Selection, WordsFault, read_words};
