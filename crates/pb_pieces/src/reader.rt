//! Reads an instance or a proof in pieces, and gives one statement at a time as tokens.

ghost use Rattle.std.specs.Prelude.{◌≡◌, ◌<◌, ◌≤◌, ◌+◌, ◌^◌, ℕ, List, [], None, Err, IfErr, IfOk, IfSome, OnOk, length, unwrap_or};
ghost use Rattle.std.specs.Option.{option_copied};
ghost use Rattle.pb_text.specs.declared.Limits.{Limits as SomeLimits};
ghost use Rattle.pb_text.specs.contract.Feeding.{stop_of};
ghost use Rattle.pb_text.specs.meaning.Limits.{largest, top_of};
ghost use Rattle.pb_opb.specs.engine.State.{opb};
ghost use Rattle.pb_opb.specs.meaning.Instances.{IsInstance};
ghost use Rattle.pb_proof.specs.engine.machine.State.{proofs};
ghost use Rattle.pb_proof.specs.meaning.Proofs.{IsProof};
ghost use Rattle.pb_pieces.specs.Reader.{AreRead, Ends, GivesOne, IsReader, StopsAt, fault_of, new_instance, new_proof, place_in, text_in, tokens_in};
ghost use Rattle.pb_pieces.specs.Given.{Given};

use crate::named_tokens::NamedTokens;
use crate::token_reader::{Taken, TokenReader};
use pb_normal::HashKeys;
use pb_opb::OpbMachine;
use pb_opb::laws::instances_are_exact;
use pb_proof::ProofMachine;
use pb_proof::laws::proofs_are_exact;
use pb_text::laws::standing_is_reading;
use pb_text::{Limits, Place, Stop};
use std::alloc::Global;

/// What a text is to be.
#[derive(Clone, Copy, Debug, PartialEq, Eq)]
pub enum Format {
    /// An instance in OPB.
    Instance,
    /// A proof in VeriPB 2.0.
    Proof,
}

/// A reader of an instance or of a proof, in pieces.
#[derive(Drop)]
pub enum Reader {
    Instance(TokenReader<OpbMachine>),
    Proof(TokenReader<ProofMachine>),
}

impl Reader {
    /// A reader of a text of the format. No statement may have more than `longest` bytes, if there
    /// is such a limit.
    pub fn open(
        alloc: Global,
        keys: HashKeys,
        format: Format,
        longest: Option<u64>,
        limits: Limits,
    ) -> Reader
        requires { IfSome longest (λ n. 0 < n) }
        ensures opened { IsReader (unwrap_or longest (2 ^ 40)) limits [] [] format result }
        ensures running { fault_of result ≡ None }
    {
        texts_are_read();
        match format {
            Format::Instance => {
                let machine = OpbMachine::new(alloc, limits);
                Reader::Instance(TokenReader::new(alloc, keys, machine, longest))
            }
            Format::Proof => {
                let machine = ProofMachine::new(alloc, limits);
                Reader::Proof(TokenReader::new(alloc, keys, machine, longest))
            }
        }
    }

    /// Takes bytes of the piece through the end of the next statement, or all of them. After the
    /// last statement it takes none. After a fault it returns that fault again.
    pub fn feed(&mut self, piece: &[u8]) -> Result<Taken, Stop>
        // What held for all the text before now holds for that text followed by these bytes.
        ensures gives { (format : Format) (limits : SomeLimits) (longest : ℕ) (fed : List ℕ)
            (events : List Given)
            → fault_of self.old ≡ None → IsReader longest limits fed events format self.old
            → IfOk result (λ t. GivesOne longest limits fed events format piece.now t self.new) }
        // The first fault is that of the text, or memory ran out.
        ensures stops { (format : Format) (limits : SomeLimits) (longest : ℕ) (fed : List ℕ)
            (events : List Given)
            → fault_of self.old ≡ None → IsReader longest limits fed events format self.old
            → IfErr result (λ s. StopsAt longest limits fed events format piece.now s) }
        ensures fault { fault_of self.new ≡ stop_of result }
        ensures used { IfOk result (λ t.
            ((place_in self.new).offset ≡ (place_in self.old).offset + t.used) ×
            (t.used ≤ length piece.now)) }
        ensures again { IfSome (fault_of self.old) (λ s. (result ≡ Err s) × (self.new ≡ self.old)) }
    {
        texts_are_read();
        match self {
            Reader::Instance(reader) => reader.feed(piece),
            Reader::Proof(reader) => reader.feed(piece),
        }
    }

    /// Call this at the end of the text: whether it may end here. After a fault it returns that
    /// fault again.
    pub fn finish(&mut self) -> Result<(), Stop>
        // The whole text was read, or it has ended too soon.
        ensures ends { (format : Format) (limits : SomeLimits) (longest : ℕ) (fed : List ℕ)
            (events : List Given)
            → fault_of self.old ≡ None → IsReader longest limits fed events format self.old
            → Ends longest limits fed events format result }
        ensures fault { fault_of self.new ≡ stop_of result }
        ensures ok { OnOk result (self.new ≡ self.old) }
        ensures again { IfSome (fault_of self.old) (λ s. (result ≡ Err s) × (self.new ≡ self.old)) }
    {
        texts_are_read();
        match self {
            Reader::Instance(reader) => reader.finish(),
            Reader::Proof(reader) => reader.finish(),
        }
    }

    /// The position of the next byte. After the last statement it stays.
    pub fn place(&self) -> Place
        ensures { result ≡ place_in self.now }
    {
        match self {
            Reader::Instance(reader) => reader.place(),
            Reader::Proof(reader) => reader.place(),
        }
    }

    /// The tokens of the last statement, with the names of all statements.
    pub fn tokens(&self) -> &NamedTokens
        ensures { result.now ≡ tokens_in self.now }
    {
        match self {
            Reader::Instance(reader) => &reader.tokens,
            Reader::Proof(reader) => &reader.tokens,
        }
    }

    /// The free text of the last statement.
    pub fn text(&self) -> &[u8]
        ensures { result.now ≡ text_in self.now }
    {
        match self {
            Reader::Instance(reader) => reader.text.as_slice(),
            Reader::Proof(reader) => reader.text.as_slice(),
        }
    }
}

/// A feeder that `StandsAt` its input has read it, as a text of the format.
fn texts_are_read()
    ensures instances { (limits : SomeLimits) →
        AreRead opb (new_instance limits) (IsInstance (largest limits) (top_of limits)) }
    ensures proofs { (limits : SomeLimits) →
        AreRead proofs (new_proof limits) (IsProof (largest limits) (top_of limits)) }
{
    instances_are_exact();
    proofs_are_exact();
    standing_is_reading::<OpbMachine>();
    standing_is_reading::<ProofMachine>();
}
