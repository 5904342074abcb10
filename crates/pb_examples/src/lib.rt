//! Small programs over the library, each proved. The README of the project prints the first,
//! `refuted.rt`.
#![tactic(auto)]

mod fed;
mod refuted;
mod rewritten;

pub use fed::is_refuted_in_pieces;
pub use refuted::is_refuted;
pub use rewritten::canonical;
