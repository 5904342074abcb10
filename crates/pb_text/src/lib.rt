//! Sources, sinks, and machines that read a text one byte at a time.
#![tactic(auto)]

mod blank;
pub mod bytes;
pub mod decimal;
pub mod digits;
pub mod doubles;
mod events;
mod failed_source;
mod feeder;
mod history;
pub mod laws;
mod limits;
mod machine;
mod next_event;
mod over;
mod place;
mod reader;
mod sequence;
mod sink;
mod source;
mod spare;
mod whole;

pub use blank::rest_is_blank;
pub use events::Events;
pub use failed_source::unread;
pub use feeder::{BYTE_LIMIT, Fed, Feeder};
pub use limits::Limits;
pub use machine::{Machine, Push};
pub use next_event::pull;
pub use over::Over;
pub use place::{Place, Spanned, Stop, Why};
pub use reader::read_from;
pub use sequence::{Bytes, Sequence};
pub use sink::{Sink, write_bytes};
pub use source::{Failed, Source};
pub use spare::Spare;
pub use whole::{Gather, read_whole};
