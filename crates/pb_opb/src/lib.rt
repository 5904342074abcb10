//! Instances in OPB, read one byte at a time and written.
#![tactic(auto)]

mod event;
mod gather;
mod instance;
pub mod laws;
mod line;
mod machine;
mod notes;
mod phase;
mod read;
mod transition;
mod validity;
mod write;

pub use event::OpbEvent;
pub use instance::{Comment, Instance};
pub use machine::OpbMachine;
pub use notes::Notes;
pub use read::{read_instance, read_instance_within};
pub use validity::instance_is_value;
pub use write::{put_event, write_event, write_instance};
