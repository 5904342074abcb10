//! Reads VeriPB 2.0 proofs one byte at a time, and writes them.
#![tactic(auto)]

mod conclusion;
pub mod laws;
mod line;
mod machine;
mod proof;
mod read;
mod statement;
mod validity;
mod word;
mod write;

pub use conclusion::{Bound, Conclusion};
pub use machine::ProofMachine;
pub use machine::phase::Stage;
pub use proof::Proof;
pub use read::{read_proof, read_proof_within};
pub use statement::Statement;
pub use validity::{proof_is_value, statement_is_value};
pub use word::PolWord;
pub use write::put::put_statement;
pub use write::{write_proof, write_statement};
