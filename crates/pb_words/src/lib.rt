//! The arguments of the command line.
#![tactic(auto)]

mod words;

pub use words::{Job, Selection, WordsFault, read_words};
