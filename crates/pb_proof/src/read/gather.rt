//! Collects the statements of a proof.

ghost use Rattle.std.specs.Prelude.{◌≡◌, OnOk};
ghost use Rattle.pb_proof.specs.contract.Gather.{nothing, with, asks};

use crate::conclusion::Conclusion;
use crate::proof::Proof;
use crate::statement::Statement;
use pb_text::{Gather, Sequence};
use std::alloc::{AllocError, Global};

/// The proof that the statements so far make up.
#[derive(Drop)]
pub struct ProofSoFar {
    pub proof: Proof,
}

impl ProofSoFar {
    /// The proof before any statement.
    pub fn new(alloc: Global) -> Self
        ensures { result.proof ≡ nothing }
    {
        ProofSoFar {
            proof: Proof {
                count: None,
                steps: Sequence::new(alloc),
                conclusion: Conclusion::NoClaim,
            },
        }
    }
}

impl Gather for ProofSoFar {
    type Event = Statement;

    ghost with = { λ b e. record { proof = with b.proof e } };

    ghost asks = { λ b e. asks e };

    fn add(&mut self, statement: Statement) -> Result<Option<Statement>, AllocError> {
        match statement {
            Statement::Header | Statement::Output | Statement::End => Ok(None),
            Statement::F(count) => {
                self.proof.count = count;
                Ok(None)
            }
            Statement::Conclude(conclusion) => {
                self.proof.conclusion = conclusion;
                Ok(None)
            }
            step => match self.proof.steps.push(step) {
                Ok(()) => Ok(None),
                Err(_) => Err(AllocError),
            },
        }
    }
}
