//! Gathers the statements of an instance into its value.

ghost use Rattle.std.specs.Prelude.{◌≡◌, ◌+◌, ◌-◌, ◌^◌, ◌≤◌, IfOk, OnErr};

use crate::event::OpbEvent;
use crate::instance::{Comment, Instance};
use pb_text::{Bytes, Gather, Sequence};
use std::alloc::{AllocError, Global};

/// The instance of the statements so far.
#[derive(Drop)]
pub struct InstanceSoFar {
    pub instance: Instance,
    /// How many of them were objectives and constraints.
    pub ended: u64,
}

impl InstanceSoFar {
    ghost use Rattle.pb_opb.specs.meaning.Gather.{nothing};

    /// The value before any statement.
    pub fn new(alloc: Global) -> Self
        ensures instance { result.instance ≡ nothing }
        ensures ended { result.ended ≡ 0 }
    {
        InstanceSoFar {
            instance: Instance {
                variables: 0,
                tail: Bytes::new(alloc),
                objective: None,
                comments: Sequence::new(alloc),
                constraints: Sequence::new(alloc),
            },
            ended: 0,
        }
    }

    /// How many objectives and constraints there are with one more. Memory cannot hold more than
    /// `2^64 - 1` of them.
    fn with_one(&self) -> Result<u64, AllocError>
        ensures count { IfOk result (λ ended. ended ≡ self.now.ended + 1) }
        ensures full { OnErr result (2 ^ 64 - 1 ≤ self.now.ended) }
    {
        self.ended.checked_add(1).ok_or(AllocError)
    }
}

impl Gather for InstanceSoFar {
    ghost use Rattle.pb_opb.specs.meaning.Gather.{with, ended_with, asks};

    type Event = OpbEvent;

    ghost with = { λ b e.
        record { instance = with b.ended b.instance e; ended = ended_with b.ended e } };

    ghost asks = { λ b e. asks b.ended e };

    fn add(&mut self, event: OpbEvent) -> Result<Option<OpbEvent>, AllocError> {
        match event {
            OpbEvent::Header {
                variables,
                tail,
                ..
            } => {
                self.instance.variables = variables;
                self.instance.tail = tail;
                Ok(None)
            }
            OpbEvent::Comment(text) => {
                let before = self.ended;
                match self.instance.comments.push(Comment { before, text }) {
                    Ok(()) => Ok(None),
                    Err(_) => Err(AllocError),
                }
            }
            OpbEvent::Objective(terms) => {
                let ended = self.with_one()?;
                self.instance.objective = Some(terms);
                self.ended = ended;
                Ok(None)
            }
            OpbEvent::Constraint(linear) => {
                let ended = self.with_one()?;
                if self.instance.constraints.push(linear).is_err() {
                    return Err(AllocError);
                }
                self.ended = ended;
                Ok(None)
            }
        }
    }
}
