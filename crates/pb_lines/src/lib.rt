//! Lines that are made of words: a machine that reads them for any grammar.
#![tactic(auto)]

pub mod laws;
mod list;
mod literal_prefix;
mod machine;
mod part;
mod step;
mod whole;
mod word;
mod word_prefix;

pub use list::WordList;
pub use machine::WordMachine;
pub use whole::line_at;
pub use word::{Capital, Follow, Sign, Word};
